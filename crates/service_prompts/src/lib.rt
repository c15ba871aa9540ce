//! What the service does with prompts beside their table (Secret Service API draft 0.2, Service.Unlock and
//! interface Prompt; docs/SERVICE.md): the targets of a prompt that unlocks, of the objects that are given
//! for it, and the signals Ask and Completed; and the signals of changes, which go to everyone. Callers may
//! rely on these: an object that isn't there is no target, and neither is one that is unlocked, and no path
//! is given twice; Ask goes to the agent alone and Completed to the owner of its prompt alone; each of these
//! two, of a sound state, has a spelling that can wait for its connection, and each signal of a change has a
//! spelling unless it is too long to wait.
#![tactic(auto)]

mod announcing;
mod asking;
mod completing;
mod unlocking;

pub use announcing::{change_signals, gone_signals, label_signals, lock_signals, made_signals};
pub use asking::{ask_sent, ask_signal, asks_sent_to};
pub use completing::{completed_sent, completed_signal, completion_of};
pub use service_tables;
pub use service_tables::{alias_table, collection_store, folder_store, secret_calls};
pub use unlocking::{are_light, targets_of, unlocked_there};
