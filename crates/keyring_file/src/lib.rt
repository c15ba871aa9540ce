//! The two texts of a keyring file (GNOME keyring file format): the clear part followed by the
//! encrypted area, and the decrypted area. Both are read exactly, or refused with the first fault from
//! the left, and are written in one canonical form.
#![tactic(auto)]

mod area;
mod area_reading;
mod area_writing;
mod clear;
mod clear_reading;
mod clear_writing;
mod fault;
mod file_laws;
mod known;
mod limits;
mod magic;
mod names;
mod numbers;

pub use area::{Access, FullItem};
pub use area_reading::read_area;
pub use area_writing::{close_area, put_item, write_area};
pub use clear::{Clear, ClearItem};
pub use clear_reading::read_clear;
pub use clear_writing::{put_clear_item, put_front, write_clear};
pub use fault::{AreaFault, ClearFault};
pub use file_laws::{
    a_canonical_area_is_spelled_so, a_canonical_clear_part_is_spelled_so,
    a_file_has_67_108_864_bytes_at_most, a_file_that_is_read_is_spelled_so,
    a_file_that_is_spelled_so_is_read, an_area_that_is_read_is_spelled_so,
    an_area_that_is_spelled_so_is_read,
};
pub use known::{known_clear, known_clear_item, known_clear_items, known_item, known_items};
pub use limits::FILE_LIMIT;
