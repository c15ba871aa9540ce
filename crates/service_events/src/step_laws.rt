// What the definitions of a step and of lists of events say together. Each law is the contract of a
// function that does nothing.
ghost use Rattle.std.specs.Prelude.{◌≡◌, ◌++◌, ◌∷◌, [], List};
ghost use Rattle.std.specs.List.{AllByRecursion};
ghost use Rattle.service_events.specs.declared.event.Event.{Event};
ghost use Rattle.service_events.specs.declared.event.Event.TheVariants as Event;
ghost use Rattle.service_events.specs.declared.event.Derivation.{Derivation};
ghost use Rattle.service_events.specs.declared.event.Recorded.{Recorded};
ghost use Rattle.service_events.specs.Fates.{AreFaultless, IsCertain, IsFaultless};
ghost use Rattle.service_prompts.specs.service_tables.specs.declared.fate.Fate.{Fate};
ghost use Rattle.service_events.specs.Step.{step, puts_out, AreAlike, Fits};
ghost use Rattle.service_events.specs.Replay.{replay, Legal, outputs};
ghost use Rattle.service_prompts.specs.service_tables.specs.Sound.{AreSoundContents, CanWait, IsSound};
ghost use Rattle.service_prompts.specs.service_tables.specs.Opened.{Contents, opened_state};
ghost use Rattle.service_prompts.specs.service_tables.specs.State.{State};

/// A start with sound collections is sound, and each event that fits keeps a sound state sound.
#[tactic(auto, using(crate::proofs::SoundLemmas::sound_start, crate::proofs::SoundLemmas::sound_step, crate::proofs::SoundLemmas::sound_replay))]
pub fn steps_keep_the_rows_sound()
    ensures start { (contents : Contents) → AreSoundContents contents
        → IsSound (opened_state contents) }
    ensures step { (state : State) (event : Event) → IsSound state → Fits state event
        → IsSound (step state event) }
    ensures replay { (state : State) (events : List Event) → IsSound state → Legal state events
        → IsSound (replay state events) }
{}

/// What an event puts out for one connection has a spelling, and is small enough to wait for a connection
/// for which nothing waits: so a reply is lost only where others wait before it. A signal to everyone has a
/// spelling unless it is too long to wait.
#[tactic(auto, using(crate::proofs::SoundLemmas::waits_step))]
pub fn outputs_can_wait()
    ensures { (state : State) (event : Event) → IsSound state → Fits state event
        → AllByRecursion CanWait (puts_out state event) }
{}

/// Two requests that are alike lead from one state to one state if each storing ended alike; and these
/// do if no device failed and no file is in doubt, which then stays so. The same is true of a derived key.
#[tactic(auto, using(crate::proofs::AlikeLemmas::step_alike, crate::proofs::FateLemmas::fates_alike, crate::proofs::FateLemmas::key_fates, crate::proofs::CertainLemmas::step_certain))]
pub fn alike_requests_lead_to_one_state()
    ensures step { (state : State) (one other : Recorded) → AreAlike one.arrival other.arrival
        → one.fates ≡ other.fates
        → step state (Event.Arrive one) ≡ step state (Event.Arrive other) }
    ensures fates { (state : State) (one other : Recorded) → AreAlike one.arrival other.arrival
        → Fits state (Event.Arrive one) → Fits state (Event.Arrive other)
        → IsCertain state
        → AreFaultless one.fates → AreFaultless other.fates → one.fates ≡ other.fates }
    ensures key { (state : State) (came : Derivation) (fates : List Fate)
        → Fits state (Event.Derived came)
        → Fits state (Event.Derived (record came { fates = fates })) → IsCertain state
        → AreFaultless came.fates → AreFaultless fates → came.fates ≡ fates }
    ensures certain { (state : State) (event : Event) → IsFaultless event → IsCertain state
        → IsCertain (step state event) }
{}

/// One list after another continues from where the first one led, is legal where both are, and answers
/// what both answer.
pub fn lists_of_events_go_on()
    ensures replay { (state : State) (events more : List Event)
        → replay state (events ++ more) ≡ replay (replay state events) more }
    ensures legal { (state : State) (events more : List Event) → Legal state events
        → Legal (replay state events) more → Legal state (events ++ more) }
    ensures outputs { (state : State) (events more : List Event)
        → outputs state (events ++ more) ≡ outputs state events
        ++ outputs (replay state events) more }
{}
