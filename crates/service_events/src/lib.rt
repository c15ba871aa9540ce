//! The events of the service, and what each of them leads to, as definitions over plain rows: the table
//! of calls (`specs/Plan.antt` and the files of its interfaces), what a row of it leads to
//! (`specs/Run.antt`), the step of an event (`specs/Step.antt`), lists of events (`specs/Replay.antt`), and
//! what an event asks of the disk (`specs/Stored.antt`). Callers may rely on these laws: a sound state
//! stays sound, what is sent has a spelling and can wait, lists of events continue one another, and requests that are
//! alike lead to one state if what they asked of the disk ended alike. The code here is the types alone.
#![tactic(auto)]

mod boxed;
mod event;
mod fates;
mod holder;
mod step_laws;

pub use boxed::Boxed;
pub use event::{
    ApplyRefused, Arrival, Arrived, BroughtKey, Derivation, Event, Incoming, JoinRefused, Output,
    Recorded,
};
pub use fates::Fates;
pub use holder::Holder;
pub use service_disk;
pub use service_prompts;
pub use service_prompts::{
    alias_table, collection_store, folder_store, secret_calls, service_tables,
};
pub use step_laws::{
    alike_requests_lead_to_one_state, lists_of_events_go_on, outputs_can_wait,
    steps_keep_the_rows_sound,
};
