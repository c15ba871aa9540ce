//! The calls of the service, each performed on the tables as its row of the table of calls says
//! (`service_events`). Callers may rely on these: a call leads to the answer, the rows and the signals of
//! its plan, with the fates of what it asked of the disk (`Leads` in `specs/Done.antt`); a call that runs out
//! of memory changes nothing; all memory is taken before the first call of a device; and what is sent has
//! room before anything changes. What the agent's answer leads to is in `service_answers`.
#![tactic(auto)]

mod agent;
mod aliases;
mod announcing;
mod answer;
mod collection;
mod creating;
mod effect;
mod item;
mod keyring;
mod prompt;
mod properties;
mod service;
mod session;
mod storing;
mod tables;
mod unlocking;

pub use agent::error_for;
pub use answer::Answer;
pub use prompt::pass_kind;
pub use service_events;
pub use service_events::{
    alias_table, collection_store, folder_store, secret_calls, service_disk, service_prompts,
    service_tables,
};
pub use storing::{Done, refused, sending, unread, unstored};
pub use tables::Tables;
