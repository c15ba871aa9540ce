//! Whole keyring files (GNOME keyring file format) under a key that was derived from a password: a
//! file is opened to its content, or to the first fault in it, and a content is sealed to its one
//! canonical file. Callers may rely on these: opening is a function of the bytes and the key, what
//! was sealed opens to the same content with its items by rising number and the hashes of their
//! attributes, and a file that would be too large is refused before anything is built.
#![tactic(auto)]

mod area;
mod comparing;
mod content;
mod opening;
mod order;
mod room;
mod seal_laws;
mod sealing;
mod writing;

pub use area::open_area;
pub use content::{Content, known_content};
pub use opening::{OpenFault, open_file as open};
pub use seal_laws::{
    a_file_of_a_content_opens_to_it, same_shape, what_is_arranged_rises, what_is_sealed_opens,
};
pub use sealing::{SealRefused, seal, seal_rows};
