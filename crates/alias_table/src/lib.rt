//! The aliases and their file (Secret Service API draft 0.2, methods SetAlias and ReadAlias;
//! docs/SERVICE.md, "Aliases"). A change is prepared first, which takes all its memory, and then stored:
//! the file is replaced whole. Callers may rely on these: the aliases that are read are those of the
//! file's known image or, in doubt, of its older image; each change drops the aliases whose collection
//! is gone; after `Ok` a crash leaves the new text, and a crash within a call leaves the old text or the
//! new one; a doubt is resolved before anything is stored.
#![tactic(auto)]

mod alias_laws;
mod change;
mod next;
mod refused;
mod table;

pub use alias_laws::{a_set_alias_is_read, other_aliases_stay};
pub use change::AliasChange;
pub use refused::AliasRefused;
pub use table::AliasTable;
