//! What the service does with its disk beside storing and removing (docs/SERVICE.md, "Prompts"): a file
//! of which two images are known is read again; with a key that was derived outside the service, a
//! collection is unlocked, or stored under that key; and a new collection is made. Callers may rely on these: the collections
//! afterwards are what the definitions say, by how the call ended; a call uses the slot of its
//! collection alone, and leaves of its file what is known of it; all memory is taken before the first
//! call of the device; and each name gets one slot at most, which the disk keeps to its end.
#![tactic(auto)]

mod making;
mod opening;
mod rekeying;
mod resolving;
mod taking;

pub use making::{has_room, make};
pub use opening::{Opening, unlock};
pub use rekeying::{a_new_key_keeps_the_items, rekey};
pub use resolving::{is_doubtful, prepare_resolve, resolve};
