// What the definitions of histories and windows say together. Each law is the contract of a function
// that does nothing.
ghost use Rattle.std.specs.Prelude.{◌≡◌, ◌++◌, ◌∷◌, [], Bool, List, length};
ghost use Rattle.service_machine.specs.service_events.specs.declared.event.Event.{Event};
ghost use Rattle.service_machine.specs.service_events.specs.declared.event.Incoming.{Incoming};
ghost use Rattle.service_machine.specs.service_events.specs.declared.event.Output.{Output};
ghost use Rattle.service_machine.specs.service_tables.specs.State.{State};
ghost use Rattle.service_machine.specs.service_events.specs.Replay.{replay, Legal, outputs};
ghost use Rattle.kr_base.specs.declared.ids.ConnId.{ConnId};
ghost use Rattle.service_history.specs.History.{History, opened_history, IsHistory, Stores, IsRecorded, IsAppended, told, taken_by, left_by, gone_by};
ghost use Rattle.service_history.specs.Runs.{GoesOn, Follows, AreCalls, windows_of};
ghost use Rattle.service_history.specs.Windows.{Window, first_window, AreWindows, history_of, window_behind};

/// The windows of a run are one history: their events, one after the other, are legal from the start
/// and lead to the base of the window after the last; and that window's era is their number.
pub fn windows_are_one_history()
    ensures legal { (start : State) (windows : List Window) → AreWindows start windows
        → Legal start (history_of windows) }
    ensures replay { (start : State) (windows : List Window) → AreWindows start windows
        → replay start (history_of windows)
        ≡ (window_behind (first_window start) windows).base }
    ensures era { (start : State) (windows : List Window) → AreWindows start windows
        → (window_behind (first_window start) windows).era ≡ length (history_of windows) }
{}

/// Each call of a service continues in its window, or ends it and begins the next one: so the
/// windows that a service is in, one call after another, are the windows of a run.
#[tactic(auto, using(crate::proofs::RunLemmas::stored_follows, crate::proofs::RunLemmas::recorded_follows, crate::proofs::RunLemmas::take_goes, crate::proofs::RunLemmas::leave_goes, crate::proofs::RunLemmas::gone_goes, crate::proofs::RunLemmas::calls_row))]
pub fn calls_yield_windows_in_a_row()
    ensures stores { (old new : History) (event : Event) → Stores old event new
        → Follows old.window new.window }
    ensures event { (steady : Bool) (old new : History) (came : Incoming) (answer : Output)
        → IsRecorded steady old came answer new → Follows old.window new.window }
    ensures take { (old : History) (conn : ConnId)
        → GoesOn old.window (taken_by conn (told conn old) old).window }
    ensures leave { (old : History) (conn : ConnId)
        → GoesOn old.window (left_by conn (told conn old) old).window }
    ensures gone { (old : History) (conn : ConnId)
        → GoesOn old.window (gone_by conn (told conn old) old).window }
    ensures row { (start : State) (histories : List History)
        → AreCalls (opened_history start) histories
        → AreWindows start (windows_of (opened_history start) histories) }
{}

/// What is answered to an event is the output at its place: the outputs of the stored events are those
/// before, and after them the answer.
pub fn an_answer_is_the_output_at_its_place()
    ensures { (old new : History) (came : Incoming) (answer : Output) → IsHistory old
        → IsAppended old came answer new
        → outputs new.window.base new.window.events
        ≡ outputs old.window.base old.window.events ++ answer ∷ [] }
{}
