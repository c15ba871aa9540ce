//! Where the links of a daemon become connections of one service that threads share. Callers may rely
//! on these: each connection's reader and writer have a desk over that service and no other; what the
//! hub has seen is a history of it, in which the hub's own events are those of the joins; links are
//! served until none will come, as many as asked for were accepted, the listener failed, or memory ran
//! out, and a link is dropped only for a cause that is counted; and all that the connections recorded is
//! in one history, which led to the service that is handed back. In it each of their events has a place
//! of its own, and the answer that it has there.
#![tactic(auto)]

mod clock;
mod hub;
mod links;

pub use clock::CommonClock;
pub use daemon;
pub use daemon::{call_wire, connection_worker};
pub use hub::ServiceHub;
pub use links::{AllServed, LinkSpawner, serve_links};
pub use shared_service;
