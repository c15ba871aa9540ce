// From which states the laws of a script begin. The law is the contract of a function that does nothing.
ghost use Rattle.std.specs.Prelude.{List};
ghost use Rattle.service_events.specs.declared.event.Event.{Event};
ghost use Rattle.service_events.specs.Replay.{replay, Legal};
ghost use Rattle.service_events.specs.service_tables.specs.Opened.{Contents, opened_state};
ghost use Rattle.service_events.specs.service_tables.specs.Sound.{AreSoundContents};
ghost use Rattle.tool_laws.specs.Ready.{IsReady};

/// Each state that a service reaches from a start with sound collections is one from which the laws of a
/// script begin.
#[tactic(auto, using(crate::proofs::ReadyLemmas::ready))]
pub fn each_state_of_a_service_is_ready()
    ensures { (contents : Contents) (events : List Event) → AreSoundContents contents
        → Legal (opened_state contents) events
        → IsReady (replay (opened_state contents) events) }
{}
