//! The desks of a connection: what its reader and its writer ask of the service, as traits. A desk may
//! belong to a service of one thread or to one that many threads share; the contracts of its calls are
//! the same. Callers may rely on these: a call that records an event appends exactly one of its own,
//! after any events of other connections; its answer is that of the step at that place in the history;
//! and every other answer has its cause in the state that the desk has seen.
#![tactic(auto)]

mod desk;
mod sides;
mod view_laws;

pub use desk::Desk;
pub use service_events::{JoinRefused, secret_calls};
pub use sides::{ReadDesk, WriteDesk};
pub use view_laws::{an_answer_stands_at_its_place, calls_compose, views_go_on};
