//! Names and paths: which object of the service an object path names (Secret Service API, "Object
//! Paths"; docs/SERVICE.md, "Names and paths"). A name is a value, and what it names need not exist.
//! Contracts see a path as the list of its bytes. Callers may rely on these: `path_of` returns the one
//! path that `parse_path` reads as the name, `parse_path` returns None exactly if no name has the
//! path, and a path belongs to one name at most.
#![tactic(auto)]

mod escape;
mod object_name;
mod path;
mod path_laws;

pub use escape::{escaped_stem, stem_of_escaped};
pub use object_name::{ObjectName, is_alias_name};
pub use path::{parse_path, path_of};
pub use path_laws::{a_path_has_one_name, a_path_is_that_of_its_name};
