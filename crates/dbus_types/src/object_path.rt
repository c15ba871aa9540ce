ghost use Rattle.std.specs.Prelude.{◌≡◌, ℕ, ◌↔◌, List, false, IsTrue, IsSome, IfSome, IfOk, nat_eq};
ghost use Rattle.std.specs.Cmp.{partial_equiv_from_equiv};
ghost use Rattle.std.specs.Cmp.Lexicographic.{pointwise, nat_list_eq_equiv};
ghost use Rattle.dbus_types.specs.Paths.{is_object_path, are_elements, is_element_code};

use crate::OutOfMemory;
use kr_base::Text;
use std::marker::Model;

/// The path of an object: `/`, or elements of `[A-Za-z0-9_]`, each not empty and each after
/// a `/` (D-Bus Specification, "Marshaling", "Valid Object Paths"). A contract sees the
/// list of its bytes.
#[derive(Drop)]
pub struct ObjectPath {
    text: Text,
}

impl Model for ObjectPath {
    ghost Value = { List ℕ };

    ghost view = { λ p. p.text };

    ghost invariant = { λ p. IsTrue (is_object_path p.text) };
}

impl ObjectPath {
    /// A text as an object path. It takes no memory.
    ///
    /// None if the text isn't an object path.
    pub fn new(text: Text) -> Option<ObjectPath>
        ensures made { IfSome result (λ made. made ≡ text) }
        ensures path { IsSome result ↔ IsTrue (is_object_path text) }
    {
        if !is_path(text.as_bytes()) {
            return None;
        }
        Some(ObjectPath { text })
    }

    /// The path, borrowed as a string slice.
    pub fn as_str(&self) -> &str
        ensures value { result.now ≡ self.now }
        ensures path { IsTrue (is_object_path self.now) }
    {
        self.text.as_str()
    }

    /// The bytes of the path, borrowed.
    pub fn as_bytes(&self) -> &[u8]
        ensures value { result.now ≡ self.now }
        ensures path { IsTrue (is_object_path self.now) }
    {
        self.text.as_bytes()
    }

    /// The path as a text. It takes no memory.
    pub fn into_text(self) -> Text
        ensures value { result ≡ self }
        ensures path { IsTrue (is_object_path self) }
    {
        self.text
    }

    /// A copy of the path, with the same allocator.
    pub fn copy(&self) -> Result<ObjectPath, OutOfMemory>
        ensures { IfOk result (λ copied. copied ≡ self.now) }
    {
        Ok(ObjectPath {
            text: self.text.copy()?,
        })
    }
}

impl PartialEq for ObjectPath {
    ghost eq = { pointwise nat_eq };

    ghost laws = { partial_equiv_from_equiv nat_list_eq_equiv };

    fn eq(&self, other: &ObjectPath) -> bool {
        self.text == other.text
    }
}

impl Eq for ObjectPath {
    ghost laws = { nat_list_eq_equiv };
}

/// Whether the bytes are an object path (D-Bus Specification, "Marshaling", "Valid Object Paths").
pub fn is_path(bytes: &[u8]) -> bool
    ensures { result ≡ is_object_path bytes.now }
{
    let Some((first, rest)) = bytes.split_first() else {
        return false;
    };
    *first == b'/' && (rest.is_empty() || has_elements(rest))
}

// An element begins after each slash, and none is empty.
fn has_elements(bytes: &[u8]) -> bool
    ensures { result ≡ are_elements false bytes.now }
{
    let mut is_begun = false;
    let mut left = bytes;
    while let Some((code, rest)) = left.split_first() {
        if *code == b'/' {
            if !is_begun {
                return false;
            }
            is_begun = false;
        } else {
            if !is_element(*code) {
                return false;
            }
            is_begun = true;
        }
        left = rest;
    }
    is_begun
}

fn is_element(code: u8) -> bool
    ensures { result ≡ is_element_code code }
{
    code.is_ascii_alphanumeric() || code == b'_'
}
