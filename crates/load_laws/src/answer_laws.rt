// Laws of the definitions of a load. Each law is the contract of a function that does nothing except call the laws on which
// it rests.
ghost use Rattle.std.specs.Prelude.{◌≡◌, ℕ, ◌^◌, ◌*◌, ◌<◌, ◌≤◌, List, [], ◌∷◌, length};
ghost use Rattle.kr_base.specs.declared.ids.ConnId.{ConnId};
ghost use Rattle.dbus_auth.specs.Answers.{ok_line};
ghost use Rattle.dbus_auth.specs.Handshake.{handshake, opened};
ghost use Rattle.dbus_framing.specs.Streams.{Stream};
ghost use Rattle.client_core.specs.Asked.{most_bytes};
ghost use Rattle.connection_worker.specs.service_events.specs.service_tables.specs.Opened.{Contents};
ghost use Rattle.connection_worker.specs.service_events.specs.service_tables.specs.Sound.{AreSoundContents};
ghost use Rattle.connection_worker.specs.service_events.specs.service_tables.specs.State.{State};
ghost use Rattle.connection_worker.specs.service_events.specs.Replay.{Legal};
ghost use Rattle.connection_worker.specs.service_events.specs.Single.{AllFaultless, AllFinished, AreFinished, TimedRequest, requests_of, turns};
ghost use Rattle.connection_worker.specs.Arrivals.{AreRequests, FirstRequests, calls_in};
ghost use Rattle.connection_worker.specs.Fitting.{FitTogether};
ghost use Rattle.connection_worker.specs.Replies.{outputs_to};
ghost use Rattle.connection_worker.specs.Written.{spelled_behind};
ghost use Rattle.load_plan.specs.declared.counts.Counts.{Counts};
ghost use Rattle.load_plan.specs.Answered.{CountsMessages};
ghost use Rattle.load_plan.specs.Plan.{plan};
ghost use Rattle.load_plan.specs.Sending.{conversation, sent_from};
ghost use Rattle.load_laws.specs.Requests.{AreAsked, AreFirstAsked, said_from, the_connection};
ghost use Rattle.load_laws.specs.Outputs.{all_counted, started};

use client_core::{a_call_is_read_again, what_the_service_sends_is_read_again};
use connection_worker::call_wire::what_is_sent_is_read_again;
use connection_worker::{each_request_has_one_reply, short_announcements_fit};

/// What the client of a load sends is read as its calls: its handshake is open and is answered with OK alone; after it
/// are the messages of all calls, each whole, and nothing else; and requests that are those of these messages are the
/// calls, in order, with serials from 1 on, and want replies, and those of the first messages are the first of the calls.
pub fn a_load_is_read_whole()
    ensures opened { (uid items seed : ℕ) (guid : List ℕ) → uid < 2 ^ 32
        → handshake uid guid (conversation uid (plan items seed)) ≡ record {
          answers = ok_line guid ∷ [];
          end = opened (sent_from 1 (plan items seed));
        } }
    ensures stream { (items seed : ℕ) → items ≤ 1000 → Stream most_bytes
        (sent_from 1 (plan items seed)) (said_from 1 (plan items seed)) [] }
    ensures requests { (items seed : ℕ) (asked : List TimedRequest) → items ≤ 1000
        → AreRequests (calls_in (said_from 1 (plan items seed))) (requests_of asked)
        → AreAsked 1 (plan items seed) asked }
    ensures first { (items seed : ℕ) (asked : List TimedRequest) → items ≤ 1000
        → FirstRequests most_bytes (sent_from 1 (plan items seed)) (requests_of asked)
        → AreFirstAsked 1 (plan items seed) asked }
{
    a_call_is_read_again();
}

/// A load has few events: its messages have less than 2^31 bytes, no more requests are in the first messages of bytes
/// than there are bytes, and a request has four events at most.
pub fn a_load_has_few_events()
    ensures bytes { (items seed : ℕ) → items ≤ 1000
        → length (sent_from 1 (plan items seed)) < 2 ^ 31 }
    ensures requests { (most : ℕ) (bytes : List ℕ) (asked : List TimedRequest)
        → FirstRequests most bytes (requests_of asked) → length asked ≤ length bytes }
    ensures events { (conn : ConnId) (state : State) (asked : List TimedRequest)
        → length (turns conn state asked) ≤ 4 * length asked }
{}

/// A load loses no output: over a service that starts with no collection and no used stem, whose disk doesn't fail, what each
/// of its first requests and of their keys puts out for its connection can wait together.
pub fn a_load_loses_no_output()
    ensures { (items seed : ℕ) (contents : Contents) (asked : List TimedRequest)
        → items ≤ 1000 → AreSoundContents contents → contents.collections ≡ []
        → contents.used ≡ [] → AreFirstAsked 1 (plan items seed) asked
        → Legal (started contents) (turns the_connection (started contents) asked)
        → AllFaultless asked → AreFinished the_connection (started contents) asked
        → FitTogether the_connection (started contents) asked }
{
    short_announcements_fit();
}

/// Over a service that starts with no collection and no used stem, whose disk doesn't fail, a load of up to 1,000
/// items counts all of them, as made, as found and as read, and no error: so it is for the counts over all complete
/// messages in the outputs of its requests, with the signals among them.
pub fn a_load_counts_all()
    ensures { (items seed : ℕ) (contents : Contents) (asked : List TimedRequest) (counts : Counts)
        → items ≤ 1000 → AreSoundContents contents
        → contents.collections ≡ [] → contents.used ≡ []
        → AreAsked 1 (plan items seed) asked
        → Legal (started contents) (turns the_connection (started contents) asked)
        → AllFaultless asked → AllFinished the_connection (started contents) asked
        → CountsMessages seed (plan items seed)
        (spelled_behind 0 (outputs_to the_connection (started contents) asked)) counts
        → counts ≡ all_counted items }
{
    what_the_service_sends_is_read_again();
    what_is_sent_is_read_again();
    each_request_has_one_reply();
    short_announcements_fit();
}
