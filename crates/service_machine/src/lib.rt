//! The service as a machine, which performs one event at a time: the step of a definition over plain
//! rows. An event is that a connection joins, asks, brings a derived key, leaves, takes what waits for it,
//! or is gone. The machine owns the folder of the service and what was loaded from it when it opened.
//! Callers may rely on these: an event that is answered is the incoming one, fits the rows before it, and gives the
//! step's rows and output; an event that is refused changes nothing, and each refusal has its cause;
//! leaving, taking and going take no memory; a request and a derived key use the slots of the files that
//! their rows store, remove or resolve, and no other event touches the folder or a slot that was made of
//! it; what is sent, Ask to the agent and Completed to the owners of prompts, waits after the reply, and
//! there is room for all of it before anything changes. A password is in no answer, and of a key nothing
//! is kept but what an unlocked collection holds.
//! The time of an event grows with what it changes and puts out, and with the logarithm of the number
//! of connections, sessions and prompts; Register, Unregister and the end of the agent pass over all
//! prompts.
#![tactic(auto)]

mod derived;
mod known;
mod machine;

pub use machine::Machine;
pub use service_answers::service_events::{
    ApplyRefused, Arrival, Arrived, Boxed, BroughtKey, Derivation, Event, Fates, Incoming,
    JoinRefused, Output, Recorded, alike_requests_lead_to_one_state, lists_of_events_go_on,
    outputs_can_wait, steps_keep_the_rows_sound,
};
pub use service_answers::service_tables::{
    ConnRow, ConnRows, DeskRow, Disk, Fate, OpenRefused, ReadFate, Rows, StoreFate,
};
pub use service_answers::{secret_calls, service_tables};
