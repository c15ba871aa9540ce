ghost use Rattle.std.specs.Prelude.{◌≡◌, IfOk, IsTrue, Ok};
ghost use Rattle.dbus_types.specs.Types.{Tys, end, is_signature, texts_of};
ghost use Rattle.dbus_types.specs.Views.{types_of};

use crate::OutOfMemory;
use crate::complete_type::CompleteType;
use crate::signature_reading::read_signature;
use std::alloc::{AllocFailed, Global};

/// Why no signature was made (D-Bus Specification, "Type System", "Valid Signatures").
#[derive(Clone, Copy, Debug, PartialEq, Eq)]
pub enum SignatureFault {
    /// The text isn't a list of complete types.
    BadType,
    /// More than 32 arrays, or more than 32 structs, are open at once.
    TooDeep,
    /// The text has more than 255 bytes.
    TooLong,
    /// No memory was left.
    OutOfMemory,
}

impl From<OutOfMemory> for SignatureFault {
    ghost use Rattle.std.specs.Prelude.{◌≡◌};
    ghost use Rattle.dbus_types.specs.declared.signature.SignatureFault.TheVariants.{OutOfMemory};

    ghost from_gives = { λ _ e. e ≡ OutOfMemory };

    fn from(_error: OutOfMemory) -> Self {
        SignatureFault::OutOfMemory
    }
}

impl<T: Drop> From<AllocFailed<T>> for SignatureFault {
    ghost use Rattle.std.specs.Prelude.{◌≡◌};
    ghost use Rattle.dbus_types.specs.declared.signature.SignatureFault.TheVariants.{OutOfMemory};

    ghost from_gives = { λ _ e. e ≡ OutOfMemory };

    fn from(_error: AllocFailed<T>) -> Self {
        SignatureFault::OutOfMemory
    }
}

/// A signature: a list of complete types whose text has at most 255 bytes, and in which at most 32
/// arrays and 32 structs are open at once (D-Bus Specification, "Type System", "Valid Signatures").
#[derive(Drop)]
pub struct Signature {
    types: Vec<CompleteType>,
    ghost checked: { IsTrue (is_signature (types_of types.items)) },
}

impl Signature {
    ghost use Rattle.dbus_types.specs.SignatureViews.{types_in};
    ghost use Rattle.dbus_types.specs.Signatures.{Reads, signature_at};

    /// Reads a signature.
    ///
    /// Refused with `TooLong` first, and otherwise with the first fault from the left: `BadType`
    /// is at the first code that can't continue a signature, or at the end of the text, and
    /// `TooDeep` at the code of the array or struct that is one too many. `OutOfMemory` comes if
    /// no memory was left.
    pub fn parse(alloc: Global, text: &[u8]) -> Result<Signature, SignatureFault>
        // Types are read exactly if the text spells them.
        ensures found { IfOk result (λ made. text.now ≡ texts_of (types_in made)) }
        ensures only { (ts : Tys) → IsTrue (is_signature ts) → text.now ≡ texts_of ts
            → Reads types_in result (Ok ts) }

        // Which fault is returned.
        ensures exact { Reads types_in result (signature_at text.now) }
    {
        let types = read_signature(alloc, text)?;
        Ok(Signature { types })
    }

    /// The signature of no types. It takes no memory.
    pub fn empty(alloc: Global) -> Signature
        ensures { types_in result ≡ end }
    {
        Signature {
            types: Vec::new(alloc),
        }
    }

    /// The types that the signature lists, borrowed.
    pub fn types(&self) -> &[CompleteType]
        ensures value { types_of result.now ≡ types_in self.now }
        ensures checked { IsTrue (is_signature (types_in self.now)) }
    {
        self.types.as_slice()
    }
}
