//! The text of the file `aliases` (docs/KEYRING_FILES.md, "The aliases"): one line `A=X` for each alias
//! A, where X is the stem of its collection, escaped as in an object path. Callers may rely on these: a
//! line of any other form is skipped; if a name occurs twice, the later line counts; and the aliases
//! are returned in byte order of their names, each name once. The text that is written of aliases is
//! read as exactly these aliases.
#![tactic(auto)]

mod line;
mod pairs;
mod text_laws;
mod writing;

pub use pairs::{LONGEST, read_aliases};
pub use text_laws::{
    a_thousand_aliases_fit, bytes_give_one_list, what_is_read_can_be_written,
    what_is_written_is_read,
};
pub use writing::write_aliases;
