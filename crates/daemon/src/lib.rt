//! Serving many connections at once, over any place at which others connect: each link is a job with a
//! reader and a writer, which run at the same time, and the jobs are done by threads, or one after the
//! other in place. Callers may rely on these: each job does what its relation says, whichever thread
//! does it; every link that was accepted is served, unless its connection couldn't join or its job
//! couldn't be started; the results are in the order in which their jobs were started; and all jobs
//! have ended when the loop returns.
#![tactic(auto)]

mod accepting;
mod hub;
mod job;
mod spawner;
mod started;

pub use accepting::{LoopEnd, ServedBy, accept_loop};
pub use connection_worker;
pub use connection_worker::call_wire;
pub use hub::Hub;
pub use job::{LinkJob, Served, Serving, serve_link};
pub use spawner::{ServingSpawner, Spawner};
pub use started::StartRefused;
