//! When collections are locked by time, after the flags and the timeout of their keyring files (GNOME
//! keyring file format). Callers report to a plan when a collection is unlocked, changed and locked; it says which
//! ones are due. Contracts speak of the history of these reports. Callers may rely on these: exactly
//! the stems are due that are open in the plan with a deadline of at most the given moment, only a change
//! puts a deadline off, and only making a plan and listing what is due take memory.
#![tactic(auto)]

mod deadline;
mod history;
mod plan;

pub use deadline::Timer;
pub use history::Told;
pub use plan::Plan;
