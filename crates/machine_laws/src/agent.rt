// To whom Ask goes. The law is the contract of a function that does nothing.
ghost use Rattle.std.specs.Prelude.{◌≡◌, ℕ, ◌≤◌, false, true, List, Contains, Some};
ghost use Rattle.kr_base.specs.declared.ids.ConnId.{ConnId};
ghost use Rattle.kr_base.specs.declared.ids.PromptId.{PromptId};
ghost use Rattle.machine_laws.specs.Asks.{AreForAgent, IsAgent, asks_in, is_asked};
ghost use Rattle.service_events.specs.secret_calls.specs.declared.out.Out.TheVariants as out;
ghost use Rattle.service_events.specs.secret_calls.specs.declared.signal.AskKind.{AskKind};
ghost use Rattle.service_events.specs.secret_calls.specs.declared.signal.Signal.TheVariants as signal;
ghost use Rattle.service_events.specs.Step.{puts_out, step};
ghost use Rattle.service_events.specs.declared.event.Event.{Event};
ghost use Rattle.service_events.specs.service_tables.specs.Sent.{Recipient};
ghost use Rattle.service_events.specs.service_tables.specs.Sound.{IsSound};
ghost use Rattle.service_events.specs.service_tables.specs.State.{State};

/// Ask goes to the agent alone: each Ask that an event puts out is for the connection that is the agent
/// after that event, and for no other, whether the event fits or not; without an agent there is no Ask.
pub fn ask_goes_to_the_agent()
    ensures each { (state : State) (event : Event)
        → AreForAgent (step state event).prompts.agent (puts_out state event) }
    ensures any { (state : State) (event : Event) (to : Recipient) (prompt : PromptId) (round : ℕ)
        (kind : AskKind) (label : List ℕ) (wrong : ℕ) → Contains (puts_out state event)
        (record { to = to; out = out.Signal (signal.Ask prompt round kind label wrong) })
        → IsAgent (step state event).prompts.agent to }
{}

/// A prompt that is asked is put to the agent: if after an event in a sound state the prompt is asked in a
/// round in which it wasn't before, and there is an agent, this event puts out Ask for it in that round.
pub fn a_prompt_that_is_asked_is_put_to_the_agent()
    ensures { (prompt : PromptId) (round : ℕ) (agent : ConnId) (state : State) (event : Event)
        → IsSound state → is_asked prompt round state.prompts ≡ false
        → is_asked prompt round (step state event).prompts ≡ true
        → (step state event).prompts.agent ≡ Some agent
        → 1 ≤ asks_in prompt round (puts_out state event) }
{}
