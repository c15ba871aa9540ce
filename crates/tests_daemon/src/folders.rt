// Folders in memory: one without files, and one with a keyring whose label is large.
ghost use Rattle.std.specs.Prelude.{◌≡◌, [], IfOk};

use kr_base::{Bytes, Text};
use kr_memory_disk::MemoryFolder;
use std::alloc::Global;
use std::test::Fail;

/// A folder without files.
pub fn no_files(alloc: Global) -> MemoryFolder
    ensures { result.made ≡ [] }
{
    MemoryFolder::new(alloc, Vec::new(alloc))
}

// A keyring file up to its label, which has 1,000,000 bytes, and what comes after it: one item, whose content nobody reads.
const BEFORE_LABEL: &str = "476e6f6d654b657972696e670a0d000a00000000000f4240";

const AFTER_LABEL: &str = "\
000000000000000000000000000000000000000000000000000003e8010203040506070800000000000000000000\
000000000000000000010000000700000000000000000000001000000000000000000000000000000000";

fn push(alloc: Global, bytes: &mut Vec<u8>, digits: &str) -> Result<(), Fail> {
    let more = hex::decode(alloc, digits).ok().ok_or("hex")?;
    Ok(bytes.extend_from_slice(more.as_slice())?)
}

fn large_file(alloc: Global) -> Result<Bytes, Fail> {
    let mut bytes = Vec::new(alloc);
    push(alloc, &mut bytes, BEFORE_LABEL)?;
    let length = bytes.len().saturating_add(1_000_000);
    bytes.resize(length, b'a')?;
    push(alloc, &mut bytes, AFTER_LABEL)?;
    Ok(Bytes::new(bytes))
}

/// A folder with one keyring, `large`, whose label has 1,000,000 bytes.
pub fn large_folder(alloc: Global) -> Result<MemoryFolder, Fail>
    ensures { IfOk result (λ folder. folder.made ≡ []) }
{
    let mut folder = no_files(alloc);
    let name = Text::from_str(alloc, "large.keyring")?.ok_or("a name")?;
    folder.set(name, Some(large_file(alloc)?))?;
    Ok(folder)
}
