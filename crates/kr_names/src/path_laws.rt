// Laws of the definitions of names. Each law is the contract of a function that does nothing.
ghost use Rattle.std.specs.Prelude.{◌≡◌, ◌↔◌, ℕ, List, Some};
ghost use Rattle.kr_names.specs.Naming.{name_of_path};
ghost use Rattle.kr_names.specs.Path.{IsPathOf};

use crate::ObjectName;

/// A path belongs to one name at most: different names have different paths.
pub fn a_path_has_one_name()
    ensures { (one other : ObjectName) (path : List ℕ)
        → IsPathOf one path → IsPathOf other path → one ≡ other }
{}

/// The function `name_of_path` returns the name with the path, and None if no name has the path.
pub fn a_path_is_that_of_its_name()
    ensures { (path : List ℕ) (name : ObjectName)
        → IsPathOf name path ↔ (name_of_path path ≡ Some name) }
{}
