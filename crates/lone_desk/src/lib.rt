//! The desk of a connection over a service that no other thread shares. Callers may rely on these: it
//! implements the traits of desks; it is alone, so that no event comes between those of its own calls;
//! it never waits; and it returns the service.
#![tactic(auto)]

mod lone;

pub use lone::LoneDesk;
pub use service_desk;
pub use service_history;
pub use service_history::service_machine;
