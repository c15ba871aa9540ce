//! A file that is replaced whole: it has the old image or the new one, whenever the machine stops.
//! The new bytes go into a temporary file, which is synced and then takes the name, and the folder
//! is synced; if a step fails after which the disk may have either image, the file is in doubt
//! until it is read again. Callers may rely on these: at `Ok` each crash leaves the new image, a
//! crash within a call leaves the old one or the new one, a known file has exactly the known image,
//! and one in doubt has one of the two. All this is about honest slots. Images are shared and not
//! copied, and no call takes memory except the one that makes an image.
#![tactic(auto)]

mod cell;
mod image;
mod images;
mod steps;

pub use cell::{FaultRead, FileCell, RemoveFault, ReplaceFault};
pub use image::Image;
pub use images::Found;
