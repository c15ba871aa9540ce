//! The service with its history: each event that happens is recorded, and the state is at every moment
//! what the stored events lead to from a base. Once they are many, or cost much, or one of them called
//! Lock, brought a password or stored a file, the state becomes the base of a new window and they are
//! dropped. Callers may rely on these: an event is recorded exactly if it is answered, as its own
//! arguments say, and its answer is that of the machine's step; a cut is made exactly when one is due;
//! leaving, taking and going need no memory, since each event makes the room for those that it makes
//! possible; a request and a derived key touch only the slots of the files that they store or remove,
//! and any other event none. An event takes no longer because of the events that are stored. A cut
//! copies no row: the base exists for contracts alone.
#![tactic(auto)]

mod refused;
mod service;
mod window;
mod window_laws;

pub use refused::EventRefused;
pub use service::Service;
pub use service_machine;
pub use window_laws::{
    an_answer_is_the_output_at_its_place, calls_yield_windows_in_a_row, windows_are_one_history,
};
