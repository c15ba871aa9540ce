//! A folder of keyring files, as it is found at startup (docs/KEYRING_FILES.md, "A folder"). `load` settles
//! the folder, takes a slot for `aliases` and, as long as more can be listed, for each keyring file, and
//! reads each of these files once unless it is too long. Callers may rely on these: what is listed is what
//! the definition `Opened` says of the images by name; each cell is known to have the image that was read;
//! no file is changed, created or removed, and each slot that was made is returned, also after a refusal; and
//! the only refusal other than lack of memory has its cause in a count of faults that rose.
#![tactic(auto)]

mod alias_file;
mod found_aliases;
mod limits;
mod loading;
mod names;
mod opening;
mod reading;
mod refused;
mod ring;

pub use alias_file::AliasFile;
pub use found_aliases::FoundAliases;
pub use limits::{LIMITS, Limits};
pub use loading::{Loaded, load, load_within};
pub use opening::LeftAlone;
pub use refused::{LoadRefused, NotLoaded};
pub use ring::Ring;
