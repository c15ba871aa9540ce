// What the definitions of views and places say together. Each law is the contract of a function that
// does nothing.
ghost use Rattle.std.specs.Prelude.{◌≡◌, ◌+◌, ◌++◌, ◌∷◌, [], ℕ, List, length};
ghost use Rattle.service_events.specs.service_tables.specs.State.{State};
ghost use Rattle.service_events.specs.declared.event.Event.{Event};
ghost use Rattle.service_events.specs.Step.{step, output_of, Fits};
ghost use Rattle.service_events.specs.Replay.{replay, Legal, outputs};
ghost use Rattle.service_events.specs.declared.event.Output.{Output};
ghost use Rattle.service_desk.specs.Places.{place, Looks, Extends};
ghost use Rattle.service_desk.specs.Records.{Seen, Own, Records, of_others};
ghost use Rattle.service_desk.specs.Views.{View, IsView, with_others, with_own};

use crate::Desk;

/// A view stays a view after events of others, and after an event of its own.
pub fn views_go_on()
    ensures others { (state : State) (count : ℕ) (view : View) (events : List Event)
        → IsView state count view → Legal state events
        → IsView (replay state events) (count + length events) (with_others events view) }
    ensures own { (state : State) (count : ℕ) (view : View) (event : Event)
        → IsView state count view → Fits state event
        → IsView (step state event) (count + 1) (with_own event view) }
{}

/// After an event of a desk's own, the answers to the events that it has seen are those to the events
/// before it, followed by the answer of the step from the state to which those lead.
pub fn an_answer_stands_at_its_place()
    ensures { (state : State) (count : ℕ) (view : View) (between : List Event) (event : Event)
        → IsView state count view
        → outputs view.start (with_own event (with_others between view)).seen
        ≡ outputs view.start (with_others between view).seen
        ++ output_of (replay state between) event ∷ [] }
{}

/// Calls compose: what several calls of a desk record is what each of them records, one list after the
/// other. No calls record nothing; a call that only looks adds the events of others that it saw; and
/// one that records an event adds these and then its own event, with its answer.
pub fn calls_compose<D: Desk>()
    ensures none { (desk : D) → Records (place D.told D.has_seen desk)
        (place D.told D.has_seen desk) [] }
    ensures more { (old mid new : D) (seen more : List Seen)
        → Records (place D.told D.has_seen old) (place D.told D.has_seen mid) seen
        → Records (place D.told D.has_seen mid) (place D.told D.has_seen new) more
        → Records (place D.told D.has_seen old) (place D.told D.has_seen new) (seen ++ more) }
    ensures looks { (old new : D)
        → (looks : Looks (place D.told D.has_seen old) (place D.told D.has_seen new))
        → Records (place D.told D.has_seen old) (place D.told D.has_seen new)
        (of_others looks.between) }
    ensures extends { (old new : D) (event : Event) (answer : Output)
        → (extends : Extends (place D.told D.has_seen old) (place D.told D.has_seen new)
        event answer)
        → Records (place D.told D.has_seen old) (place D.told D.has_seen new)
        (of_others extends.between ++ Own event answer ∷ []) }
{}
