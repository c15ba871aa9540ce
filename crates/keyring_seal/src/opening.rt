ghost use Rattle.std.specs.Prelude.{◌≡◌, ◌%◌, length, IfOk, Ok};
ghost use Rattle.aes_cbc.specs.Cbc.{decrypted};
ghost use Rattle.key_derivation.specs.Kdf.{key_of, vector_of};
ghost use Rattle.keyring_text.specs.FieldReading.{Gives};
ghost use Rattle.keyring_seal.specs.Arranged.{IsSealable};
ghost use Rattle.keyring_seal.specs.Whole.{IsFileOf, opened};
ghost use Rattle.keyring_seal.specs.declared.content.Content.{Content as Whole};

use crate::content::Content;
use crate::seal_laws::a_file_of_a_content_opens_to_it;
use aes_cbc::Key;
use key_derivation::Derived;
use keyring_file::{
    AreaFault, ClearFault, a_file_that_is_read_is_spelled_so, an_area_that_is_read_is_spelled_so,
    read_area, read_clear,
};
use keyring_text::{ReadRefused, known_bytes};
use kr_base::OutOfMemory;
use kr_items::Items;
use std::alloc::Global;

/// What is wrong with a file under a key: the first fault from the left.
#[derive(Clone, Copy, Drop, PartialEq, Eq)]
pub enum OpenFault {
    /// The clear part, or the length of the area, is invalid.
    Clear(ClearFault),
    /// The decrypted area is invalid. A wrong key leads to `CheckDiffers`.
    Area(AreaFault),
}

/// A copy of the blocks, decrypted under the key.
pub fn decrypted_copy(alloc: Global, blocks: &[u8], key: &Derived) -> Result<Vec<u8>, OutOfMemory>
    requires { length blocks.now % 16 ≡ 0 }
    ensures { IfOk result (λ area. area.items
        ≡ decrypted (key_of key.now) (vector_of key.now) blocks.now) }
{
    let mut area = Vec::from_slice(alloc, blocks)?;
    let cipher = Key::new(key.key());
    cipher.decrypt_in_place(key.vector(), area.as_mut_slice());
    Ok(area)
}

/// The content of a whole file under a key.
#[tactic(auto, unfolding(crate::specs::Whole::opened))]
fn content_of(alloc: Global, file: &[u8], key: &Derived) -> Result<Content, ReadRefused<OpenFault>>
    ensures exact { Gives (λ content. content) result
        (opened file.now (key_of key.now) (vector_of key.now)) }
    ensures found { IfOk result (IsFileOf file.now (key_of key.now) (vector_of key.now)) }
{
    a_file_that_is_read_is_spelled_so();
    an_area_that_is_read_is_spelled_so();
    let (clear, place) = match read_clear(alloc, file) {
        Ok(found) => found,
        Err(ReadRefused::Fault(fault)) => {
            return Err(ReadRefused::Fault(OpenFault::Clear(fault)));
        }
        Err(ReadRefused::OutOfMemory) => return Err(ReadRefused::OutOfMemory),
    };
    let (_, hidden) = file.split_at(place);
    let area = decrypted_copy(alloc, hidden, key)?;
    known_bytes(area.as_slice());
    let count = clear.items.len();
    match read_area(alloc, area.as_slice(), count) {
        Ok(items) => Ok(Content {
            clear,
            items: Items::new(items),
        }),
        Err(ReadRefused::Fault(fault)) => Err(ReadRefused::Fault(OpenFault::Area(fault))),
        Err(ReadRefused::OutOfMemory) => Err(ReadRefused::OutOfMemory),
    }
}

/// The content of a whole file under a key (GNOME keyring file format).
///
/// A file is refused with the first fault from the left: those of the clear part and of the length
/// of the area come first, then `CheckDiffers`, to which a wrong key leads, then the other faults
/// of the area. The area is decrypted in one copy, in addition to the file and the content.
pub fn open_file(
    alloc: Global,
    file: &[u8],
    key: &Derived,
) -> Result<Content, ReadRefused<OpenFault>>
    // The result is the content that this file encodes.
    ensures found { IfOk result (IsFileOf file.now (key_of key.now) (vector_of key.now)) }
    // A content that the file encodes is returned, unless memory runs out.
    ensures only { (content : Whole)
        → IsFileOf file.now (key_of key.now) (vector_of key.now) content
        → Gives (λ opened. opened) result (Ok content) }
    // The content can be sealed again.
    ensures sealable { IfOk result IsSealable }
    // Which fault is returned.
    ensures exact { Gives (λ content. content) result
        (opened file.now (key_of key.now) (vector_of key.now)) }
{
    a_file_of_a_content_opens_to_it();
    content_of(alloc, file, key)
}
