// What becomes of a prompt over a list of events. Each law is the contract of a function that does
// nothing.
ghost use Rattle.std.specs.Prelude.{◌≡◌, ◌≤◌, [], List, Some};
ghost use Rattle.kr_base.specs.declared.ids.PromptId.{PromptId};
ghost use Rattle.machine_laws.specs.Completions.{completions, completions_in, AreAllFor, AreForOne, IsOver};
ghost use Rattle.prompt_state.specs.Prompts.{row_at};
ghost use Rattle.prompt_state.specs.declared.row.PromptRow.{PromptRow};
ghost use Rattle.service_events.specs.Replay.{replay};
ghost use Rattle.service_events.specs.Step.{puts_out, step};
ghost use Rattle.service_events.specs.declared.event.Derivation.{Derivation};
ghost use Rattle.service_events.specs.declared.event.Event.{Event};
ghost use Rattle.service_events.specs.declared.event.Event.TheVariants as Event;
ghost use Rattle.service_events.specs.service_tables.specs.Sound.{IsSound};
ghost use Rattle.service_events.specs.service_tables.specs.State.{State};

/// A prompt completes at most once (Secret Service API draft 0.2, interface Prompt): of all that events
/// put out from a sound state on, whether each of them fits or not, one output at most is Completed of
/// the prompt with a given number.
///
/// Once it was put out, or the prompt's owner has gone, the prompt is over.
pub fn a_prompt_completes_at_most_once()
    ensures once { (prompt : PromptId) (state : State) (events : List Event) → IsSound state
        → completions prompt state events ≤ 1 }
    ensures completed { (prompt : PromptId) (state : State) (events : List Event) → IsSound state
        → 1 ≤ completions prompt state events
        → IsOver prompt (replay state events).prompts }
    ensures owner_gone { (prompt : PromptId) (state : State) (row : PromptRow) → IsSound state
        → row_at prompt state.prompts ≡ Some row
        → IsOver prompt (step state (Event.Gone row.owner)).prompts }
{}

/// A prompt that ends completes: if a prompt that is there in a sound state is over after an event, this event
/// puts out Completed for it, once, unless the event is that the prompt's owner is gone.
pub fn a_prompt_that_ends_completes()
    ensures { (prompt : PromptId) (state : State) (row : PromptRow) (event : Event)
        → IsSound state → row_at prompt state.prompts ≡ Some row
        → ¬ (event ≡ Event.Gone row.owner) → IsOver prompt (step state event).prompts
        → completions_in prompt (puts_out state event) ≡ 1 }
{}

/// A prompt that is over stays so, whatever events come: no prompt has its number again, which is below
/// the next one, and Completed isn't put out for it again. A key that is derived for it after that puts
/// out nothing, and changes nothing.
#[tactic(auto, using(crate::proofs::CompletionLemmas::derived_for_none, crate::proofs::CompletionLemmas::derived_is_nothing))]
pub fn a_prompt_that_is_over_stays_so()
    ensures over { (prompt : PromptId) (state : State) (events : List Event)
        → IsOver prompt state.prompts → IsOver prompt (replay state events).prompts }
    ensures silent { (prompt : PromptId) (state : State) (events : List Event)
        → IsOver prompt state.prompts → completions prompt state events ≡ 0 }
    ensures derived { (state : State) (came : Derivation) → IsOver came.prompt state.prompts
        → puts_out state (Event.Derived came) ≡ [] }
    ensures unchanged { (state : State) (came : Derivation) → IsOver came.prompt state.prompts
        → step state (Event.Derived came) ≡ state }
{}

/// Completed goes to the owner alone: from a state on in which the prompt is there, whatever events
/// come, each Completed that they put out for it is for the connection that owns it, and for no other.
/// In any state, whether the event fits or not, each Completed is for one connection.
pub fn completed_goes_to_the_owner()
    ensures owner { (prompt : PromptId) (state : State) (row : PromptRow) (events : List Event)
        → IsSound state → row_at prompt state.prompts ≡ Some row
        → AreAllFor prompt row.owner state events }
    ensures one { (prompt : PromptId) (state : State) (event : Event)
        → AreForOne prompt (puts_out state event) }
{}
