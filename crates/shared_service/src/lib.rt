//! One service for many threads. Each call takes the turn, asks the service, and passes the turn on, so
//! that all calls are in one history; a pass has seen a beginning of it, and knows which of its events
//! are its own. Callers may rely on these: a call that records an event appends exactly one, after any
//! events of other connections; its answer is that of the step at this place of the history; every
//! other answer has its cause in the state that the pass has seen. A thread that waits, for the turn or
//! for something to take, sleeps.
#![tactic(auto)]

mod bells;
mod desk;
mod kept;
mod pass;
mod shared;
mod sleepers;

pub use desk::SharedDesk;
pub use pass::Pass;
pub use service_desk;
pub use service_history;
pub use shared::SharedService;
