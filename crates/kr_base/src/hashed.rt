ghost use Rattle.std.specs.Prelude.{◌≡◌, IfOk};

use crate::{Bytes, OutOfMemory, Text};

/// What a keyring file's clear part says of an attribute's value: the hash of the value, by which
/// the attribute is found while the file is locked.
#[derive(Drop, PartialEq, Eq, PartialOrd, Ord)]
pub enum HashedValue {
    /// The hash of a text: any bytes, as they are in the file.
    Text(Bytes),
    /// The hash of a number.
    Number(u32),
}

impl HashedValue {
    /// A copy of the hash.
    pub fn copy(&self) -> Result<HashedValue, OutOfMemory>
        ensures { IfOk result (λ copied. copied ≡ self.now) }
    {
        match self {
            HashedValue::Text(bytes) => Ok(HashedValue::Text(bytes.copy()?)),
            HashedValue::Number(number) => Ok(HashedValue::Number(*number)),
        }
    }
}

/// One hashed attribute of a keyring file: a name, and the hash of its value.
#[derive(Drop, PartialEq, Eq, PartialOrd, Ord)]
pub struct HashedPair {
    /// The attribute's name, which isn't hashed.
    pub name: Text,
    /// The hash of its value.
    pub value: HashedValue,
}

impl HashedPair {
    /// A copy of the pair.
    pub fn copy(&self) -> Result<HashedPair, OutOfMemory>
        ensures { IfOk result (λ copied. copied ≡ self.now) }
    {
        Ok(HashedPair {
            name: self.name.copy()?,
            value: self.value.copy()?,
        })
    }
}
