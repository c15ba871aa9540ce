//! A value that many threads use by turns, and one history of all that is recorded in it.
//! Callers may rely on these: only one thread at a time has the value; a thread gets it as the
//! one before gave it back; what a pass has seen of the history is a beginning of all that was
//! recorded, and it has the positions of what its own calls recorded, each once. A thread that
//! waits for its turn sleeps.
#![tactic(auto)]

mod chronicle;
mod known;
mod pass;
mod plays;
mod share;
mod turn;

pub use chronicle::Chronicle;
pub use pass::Pass;
pub use share::Share;
pub use turn::Turn;
