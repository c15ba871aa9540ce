// Keyring files, and folders of them.
ghost use Rattle.std.specs.Prelude.{◌≡◌, [], IfOk};

use crate::checks::cell;
use kr_base::{Bytes, Text};
use kr_memory_disk::MemoryFolder;
use ring_check::CheckEnd;
use std::alloc::Global;
use std::test::Fail;

/// A file that a program in Python wrote: `login`, without an item, with the password `test password`. It was made at
/// 1,700,000,000 seconds, which is 2023-11-14T22:13:20Z, with 10,000 iterations.
const LOGIN: &str = "\
    476e6f6d654b657972696e670a0d000a00000000000000056c6f67696e000000006553f100000000006553f10000\
    00000000000000000027100001020304050607000000000000000000000000000000000000000000000010d511c9\
    424136f88fb9b0b8c15f7d2256";

/// That file.
pub fn login(alloc: Global) -> Result<Vec<u8>, Fail> {
    Ok(hex::decode(alloc, LOGIN).ok().ok_or("hex")?)
}

/// The text of these bytes.
pub fn text_of(alloc: Global, bytes: &[u8]) -> Result<Text, Fail> {
    Ok(Text::from_utf8(bytes.to_vec(alloc)?).ok_or("a text")?)
}

/// The file with its last byte changed, so that it doesn't open with its password.
fn changed(alloc: Global) -> Result<Vec<u8>, Fail> {
    let mut file = login(alloc)?;
    let last = file.pop().ok_or("a byte")?;
    file.push(last ^ 1)?;
    Ok(file)
}

/// The file without its last bytes.
fn cut(alloc: Global, bytes: usize) -> Result<Vec<u8>, Fail> {
    let mut file = login(alloc)?;
    file.truncate(file.len().saturating_sub(bytes));
    Ok(file)
}

/// The file with one byte more.
fn longer(alloc: Global) -> Result<Vec<u8>, Fail> {
    let mut file = login(alloc)?;
    file.push(0)?;
    Ok(file)
}

/// The file with a length of its area that isn't a multiple of 16.
fn odd(alloc: Global) -> Result<Vec<u8>, Fail> {
    let mut file = login(alloc)?;
    let place = file.len().saturating_sub(17);
    if let Some(byte) = file.get_mut(place) {
        *byte ^= 1;
    }
    Ok(file)
}

/// The file with another number in the place of its number of iterations.
fn with_iterations(alloc: Global, iterations: u32) -> Result<Vec<u8>, Fail> {
    let file = login(alloc)?;
    let (front, back) = file.split_at_checked(53).ok_or("a long file")?;
    let (_, back) = back.split_at_checked(4).ok_or("a long file")?;
    let mut changed = front.to_vec(alloc)?;
    changed.extend_from_slice(&iterations.to_be_bytes())?;
    changed.extend_from_slice(back)?;
    Ok(changed)
}

/// The file with an item in its clear part that its area lacks.
fn one_item(alloc: Global) -> Result<Vec<u8>, Fail> {
    let file = login(alloc)?;
    let split = file.len().saturating_sub(24);
    let (front, back) = file.split_at_checked(split).ok_or("a file")?;
    let (_, area) = back.split_at_checked(4).ok_or("an area")?;
    let mut changed = front.to_vec(alloc)?;
    changed.extend_from_slice(&[0, 0, 0, 1, 0, 0, 0, 1, 0, 0, 0, 0, 0, 0, 0, 0])?;
    changed.extend_from_slice(area)?;
    Ok(changed)
}

/// A file of this many zero bytes.
fn zeros(alloc: Global, bytes: usize) -> Result<Vec<u8>, Fail> {
    let mut file = Vec::new(alloc);
    file.resize(bytes, 0)?;
    Ok(file)
}

/// The bytes of the file that a word means.
pub fn file_of(alloc: Global, word: &str) -> Result<Vec<u8>, Fail> {
    match word {
        "login" => login(alloc),
        "changed" => changed(alloc),
        "cut" => cut(alloc, 1),
        "longer" => longer(alloc),
        "odd" => odd(alloc),
        "slow" => with_iterations(alloc, 4_000_000_000),
        "item" => one_item(alloc),
        "large" => zeros(alloc, 67_108_865),
        _ => Ok(hex::decode(alloc, word).ok().ok_or("hex")?),
    }
}

/// A folder with these files, each given as `NAME=WORD` and a space, whose calls with these numbers fail.
pub fn folder_of(alloc: Global, files: &str, failing: Vec<u64>) -> Result<MemoryFolder, Fail>
    ensures { IfOk result (λ folder. folder.made ≡ []) }
{
    let mut folder = MemoryFolder::new(alloc, failing);
    for file in files.split_whitespace() {
        let name = text_of(alloc, cell(file, '=', 0).as_bytes())?;
        let bytes = file_of(alloc, cell(file, '=', 1))?;
        folder.set(name, Some(Bytes::new(bytes)))?;
    }
    Ok(folder)
}

/// The word for an end.
pub fn end_word(end: CheckEnd) -> &'static str {
    match end {
        CheckEnd::Done => "done",
        CheckEnd::Damaged => "damaged",
        CheckEnd::FolderFault => "folder",
        CheckEnd::WriteFault => "output",
        CheckEnd::Memory => "memory",
    }
}
