// A file whose clear part is known already, perhaps with its items in another order. If the file begins with the
// canonical text of this clear part, its items are read without reading the clear part again.

ghost use Rattle.std.specs.Prelude.{◌≡◌, Err, IfOk, IfSome, IsErrOf};
ghost use Rattle.key_derivation.specs.Kdf.{key_of, vector_of};
ghost use Rattle.keyring_seal.specs.Told.{HasSorted};
ghost use Rattle.keyring_seal.specs.Whole.{IsFileOf, opened};
ghost use Rattle.keyring_file.specs.declared.fault.AreaFault.{AreaFault as Fault};
ghost use Rattle.keyring_seal.specs.declared.opening.OpenFault.TheVariants as open_fault;

use crate::comparing::hidden_after;
use crate::opening::decrypted_copy;
use key_derivation::Derived;
use keyring_file::{
    AreaFault, Clear, FullItem, a_file_that_is_spelled_so_is_read,
    an_area_that_is_read_is_spelled_so, known_clear, known_clear_items, read_area,
};
use keyring_text::{ReadRefused, known_bytes};
use std::alloc::Global;

/// The items of a keyring file (GNOME keyring file format) whose clear part is known: the given one, perhaps
/// with its items in another order. None unless the file begins with the canonical text of the clear part as it
/// is given.
///
/// A fault is the one with which `open` refuses the file. `OutOfMemory` is returned if there is no memory for a
/// copy of the encrypted area or for the items. In addition to the file and the clear part, memory is taken for
/// one such copy and for the items: the clear part is compared where it is.
pub fn open_area(
    alloc: Global,
    file: &[u8],
    clear: &Clear,
    key: &Derived,
) -> Result<Option<Vec<FullItem>>, ReadRefused<AreaFault>>
    requires { HasSorted file.now clear.now }
    // The file encodes the clear part and the items.
    ensures found { IfOk result (λ found. IfSome found (λ items.
        IsFileOf file.now (key_of key.now) (vector_of key.now)
        (record { clear = clear.now; items = items.items }))) }
    // Which fault is returned.
    ensures refused { (fault : Fault) → IsErrOf result (ReadRefused.Fault fault)
        → opened file.now (key_of key.now) (vector_of key.now) ≡ Err (open_fault.Area fault) }
{
    known_clear(clear);
    known_clear_items(clear.items.as_slice());
    a_file_that_is_spelled_so_is_read();
    an_area_that_is_read_is_spelled_so();
    let Some(hidden) = hidden_after(file, clear) else {
        return Ok(None);
    };
    let area = decrypted_copy(alloc, hidden, key)?;
    known_bytes(area.as_slice());
    match read_area(alloc, area.as_slice(), clear.items.len()) {
        Ok(items) => Ok(Some(items)),
        Err(ReadRefused::Fault(fault)) => Err(ReadRefused::Fault(fault)),
        Err(ReadRefused::OutOfMemory) => Err(ReadRefused::OutOfMemory),
    }
}
