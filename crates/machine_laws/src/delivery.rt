// Where the messages come from that wait for a connection. The law is the contract of a function that
// does nothing.
ghost use Rattle.std.specs.Prelude.{List, Contains};
ghost use Rattle.kr_base.specs.declared.ids.ConnId.{ConnId};
ghost use Rattle.service_events.specs.secret_calls.specs.declared.out.Out.{Out};
ghost use Rattle.service_events.specs.service_tables.specs.Connections.{waiting_for};
ghost use Rattle.service_events.specs.service_tables.specs.Opened.{Contents, opened_state};
ghost use Rattle.service_events.specs.declared.event.Event.{Event};
ghost use Rattle.service_events.specs.Replay.{replay};
ghost use Rattle.machine_laws.specs.Delivery.{WasPutOut};

/// Each message that waits for a connection after a list of events, from the start of a service, was put
/// out to this connection by one of these events. So each one that a connection takes was put out before.
#[tactic(auto, using(crate::proofs::DeliveryLemmas::waiting_put_out))]
pub fn what_waits_was_put_out()
    ensures { (contents : Contents) (events : List Event) (conn : ConnId) (message : Out)
        → Contains (waiting_for conn (replay (opened_state contents) events).connections.rows)
        message
        → WasPutOut (opened_state contents) events conn message }
{}
