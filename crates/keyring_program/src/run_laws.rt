// Laws of the definitions of a run. Each law is the contract of a function that does nothing except
// call the laws on which it rests.
ghost use Rattle.std.specs.Prelude.{◌≡◌, ◌++◌, ℕ, List, false, filter};
ghost use Rattle.std.specs.List.{concat};
ghost use Rattle.dbus_auth.specs.Handshake.{Run};
ghost use Rattle.service_hub.specs.connection_worker.specs.Causes.{AllServed};
ghost use Rattle.lone_desk.specs.secret_calls.specs.declared.out.Out.{Out};
ghost use Rattle.service_hub.specs.connection_worker.specs.Fitting.{FitBefore, FitTogether};
ghost use Rattle.service_hub.specs.connection_worker.specs.Replies.{is_reply, outputs_to, replies_to};
ghost use Rattle.lone_desk.specs.service_events.specs.Single.{AllFaultless, AllFinished, TimedRequest};
ghost use Rattle.service_hub.specs.connection_worker.specs.Written.{spelled_behind};
ghost use Rattle.keyring_program.specs.Events.{the_connection, joined, events_of, text_of, HaveSalts, HaveSameMoments, HaveSameFates};
ghost use Rattle.lone_desk.specs.service_events.specs.Replay.{Legal};
ghost use Rattle.lone_desk.specs.service_tables.specs.Opened.{Contents, opened_state};
ghost use Rattle.lone_desk.specs.service_tables.specs.Sound.{AreSoundContents};
ghost use Rattle.keyring_program.specs.Serves.{handshake_run};

use lone_desk::service_machine::steps_keep_the_rows_sound;
use service_hub::call_wire::a_message_is_one_request;
use service_hub::connection_worker::{
    each_request_has_one_reply, each_request_is_answered_at_once, no_reply_is_lost,
};

/// What is written for the calls that were read is determined by the bytes that were read, the user,
/// the seed, what the service starts with, and how each storing of a file ended: runs over the same
/// bytes that recorded each call in them write the same, if each storing ended alike. So it is also
/// determined without these if no device failed and each derived key was recorded, since no file is in
/// doubt at the start. A moment matters only if its call stores it or it is that of a key, and a salt
/// only if a prompt keeps it.
pub fn what_is_written_is_one()
    ensures alike { (contents : Contents) (uid : ℕ) (seed read rest left : List ℕ)
        (one other : List TimedRequest)
        → AllServed (handshake_run uid seed read) one rest
        → AllServed (handshake_run uid seed read) other left
        → HaveSalts seed one → HaveSalts seed other
        → HaveSameMoments one other → HaveSameFates one other
        → text_of contents (handshake_run uid seed read) one
        ≡ text_of contents (handshake_run uid seed read) other }
    ensures faultless { (contents : Contents) (uid : ℕ) (seed read rest left : List ℕ)
        (one other : List TimedRequest)
        → AllServed (handshake_run uid seed read) one rest
        → AllServed (handshake_run uid seed read) other left
        → HaveSalts seed one → HaveSalts seed other
        → HaveSameMoments one other → AreSoundContents contents
        → AllFinished the_connection (joined contents) one
        → AllFinished the_connection (joined contents) other
        → Legal (opened_state contents) (events_of contents one)
        → Legal (opened_state contents) (events_of contents other)
        → AllFaultless one → AllFaultless other
        → text_of contents (handshake_run uid seed read) one
        ≡ text_of contents (handshake_run uid seed read) other }
{
    a_message_is_one_request();
}

/// What is written after the handshake's answers is the outputs of the requests, in their order, with
/// serials from 1 on, and nothing else, if the outputs of each request can wait together, and those of each
/// key. The replies among these are exactly one to each request that wants one, as its row of the table
/// of calls gives it; the others are the signals that requests send. Those are also the replies among what
/// is written if outputs of the last request, or of its key, can't wait together: only signals are lost.
pub fn each_request_has_its_reply()
    ensures outputs { (contents : Contents) (run : Run) (asked : List TimedRequest)
        → AreSoundContents contents → Legal (opened_state contents) (events_of contents asked)
        → FitTogether the_connection (joined contents) asked
        → text_of contents run asked ≡ concat run.answers
        ++ spelled_behind 0 (outputs_to the_connection (joined contents) asked) }
    ensures replies { (contents : Contents) (asked : List TimedRequest)
        → filter is_reply (outputs_to the_connection (joined contents) asked)
        ≡ replies_to the_connection (joined contents) asked }
    ensures kept { (contents : Contents) (run : Run) (asked : List TimedRequest)
        → AreSoundContents contents → Legal (opened_state contents) (events_of contents asked)
        → FitBefore the_connection (joined contents) asked
        → (outs : List Out)
        × (text_of contents run asked ≡ concat run.answers ++ spelled_behind 0 outs)
        × (filter is_reply outs ≡ replies_to the_connection (joined contents) asked) }
{
    steps_keep_the_rows_sound();
    each_request_is_answered_at_once();
    each_request_has_one_reply();
    no_reply_is_lost();
}
