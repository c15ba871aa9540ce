//! A collection and its keyring file (Secret Service API, interface Collection). Callers may rely on
//! these: each change is on the disk before it is answered; what is stored is the file of the new
//! content under the collection's key; a locked collection keeps neither its key nor its items; after a
//! refusal everything is as before, or the collection is locked and its file in doubt; and a crash at any
//! moment leaves the file with the content from before a change or from after it.
#![tactic(auto)]

mod answering;
mod arranged;
mod candidate;
mod change;
mod collection;
mod copying;
mod holding;
mod opening;
mod order;
mod preparing;
mod refused;
mod rest;
mod same;
mod sealing;
mod told;

pub use change::{Change, Changed};
pub use collection::Collection;
pub use refused::{ChangeRefused, CreateRefused, UnlockRefused};
