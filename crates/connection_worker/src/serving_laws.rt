// Laws of the definitions of one thread and of a reader. Each law is the contract of a function that does nothing.
ghost use Rattle.std.specs.Prelude.{◌≡◌, ◌≤◌, ◌++◌, ℕ, List, [], filter, Some};
ghost use Rattle.dbus_framing.specs.Messages.{Parts};
ghost use Rattle.dbus_framing.specs.Streams.{Stream};
ghost use Rattle.kr_outside.specs.Faults.{StandsStill};
ghost use Rattle.service_desk.specs.secret_calls.specs.declared.call.Request.{Request};
ghost use Rattle.connection_worker.specs.declared.ending.End.{End};
ghost use Rattle.connection_worker.specs.Fitting.{CanWaitTogether, FitBefore, FitTogether, announced_in, most_beside};
ghost use Rattle.connection_worker.specs.Handshakes.{most_bytes};
ghost use Rattle.connection_worker.specs.Reader.{ReadFor, IsWholeEnd};
ghost use Rattle.connection_worker.specs.Streams.{Input, Took};
ghost use Rattle.kr_base.specs.declared.ids.ConnId.{ConnId};
ghost use Rattle.service_desk.specs.service_tables.specs.Connections.{sent_to, size_waiting};
ghost use Rattle.service_desk.specs.service_tables.specs.State.{State};
ghost use Rattle.service_desk.specs.Places.{Told};
ghost use Rattle.service_desk.specs.Records as records;
ghost use Rattle.connection_worker.specs.Replies.{is_reply, outputs_to, replies_to};
ghost use Rattle.connection_worker.specs.Serving.{IsOwed};
ghost use Rattle.service_desk.specs.service_events.specs.declared.event.Event.{Event};
ghost use Rattle.service_desk.specs.service_events.specs.Replay.{Legal};
ghost use Rattle.service_desk.specs.service_events.specs.Single.{TimedRequest, single};
ghost use Rattle.service_desk.specs.service_events.specs.Step as events;
ghost use Rattle.service_desk.specs.service_events.specs.Step.{puts_out};
ghost use Rattle.connection_worker.specs.Written.{given_by};

/// What the only connection is given is the outputs of its requests, in order, and nothing else: of each
/// request the reply, if it wants one, then the signals that it sends, and then those of its key, each as
/// the definitions of the rows give it in the state that it is served in. That is so if the outputs of
/// each request can wait together, and those of each key.
pub fn each_request_is_answered_at_once()
    ensures { (told : Told) (asked : List TimedRequest) → IsOwed told []
        → Legal told.state (single told.conn told.state asked)
        → FitTogether told.conn told.state asked
        → given_by told.conn told.state (single told.conn told.state asked)
        ≡ outputs_to told.conn told.state asked }
{}

/// The only connection is given the reply to each request that wants one, and no other reply, in order,
/// even if the signals that the last request or its key sends can't wait beside it.
pub fn no_reply_is_lost()
    ensures { (told : Told) (asked : List TimedRequest) → IsOwed told []
        → Legal told.state (single told.conn told.state asked)
        → FitBefore told.conn told.state asked
        → filter is_reply (given_by told.conn told.state (single told.conn told.state asked))
        ≡ replies_to told.conn told.state asked }
{}

/// What an event puts out for the only connection can wait together if what it sends to every
/// connection has at most 524,012 bytes: the reply and what goes to this connection alone fit beside that.
pub fn short_announcements_fit()
    ensures { (told : Told) (event : Event) → IsOwed told [] → events.Fits told.state event
        → size_waiting (announced_in (puts_out told.state event)) ≤ most_beside
        → CanWaitTogether (sent_to told.conn (puts_out told.state event)) }
{}

/// The replies among the outputs of requests are exactly one to each request that wants one, in the
/// order of the requests: the answer that its row of the table of calls gives.
pub fn each_request_has_one_reply()
    ensures { (asked : List TimedRequest) (conn : ConnId) (state : State)
        → filter is_reply (outputs_to conn state asked) ≡ replies_to conn state asked }
{}

/// What the events give to the only connection is what the calls of its desk returned: the outputs
/// of its takes, in order.
pub fn what_is_given_was_taken()
    ensures { (conn : ConnId) (state : State) (asked : List TimedRequest)
        → given_by conn state (single conn state asked)
        ≡ records.given (records.of_own state (single conn state asked)) }
{}

/// A reader reads to the end what consists of complete messages, if its source reports its bytes and
/// doesn't fail: it ends with Done, unless its desk refused a call or memory ran out.
pub fn complete_messages_are_read_to_their_end()
    ensures { (how : End) (rest read bytes : List ℕ) (requests : List Request)
        (messages : List Parts) (from to : Input)
        → Took from to read → ReadFor how (rest ++ read) requests from to
        → from.left ≡ Some bytes → StandsStill from.faults to.faults
        → Stream most_bytes (rest ++ bytes) messages [] → IsWholeEnd how }
{}
