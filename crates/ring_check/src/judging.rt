// What is found of files, in parallel.
ghost use Rattle.std.specs.Prelude.{◌≡◌, ◌%◌, ◌≤◌, drop, length, map, Ok, IfOk};
ghost use Rattle.key_derivation.specs.Kdf.{key_of, vector_of};
ghost use Rattle.aes_cbc.specs.Cbc.{decrypted};
ghost use Rattle.keyring_file.specs.FileReading.{clear_read};
ghost use Rattle.keyring_seal.specs.Whole.{opened};
ghost use Rattle.ring_check.specs.Verdict.{password_in, summary_of, opened_row, clear_row, judged, verdict_of};

use crate::verdict::{Row, Summary, Verdict};
use aes_cbc::Key;
use key_derivation::{Derived, derive};
use keyring_file::{AreaFault, Clear, FILE_LIMIT, read_area, read_clear};
use keyring_text::ReadRefused;
use kr_base::{Bytes, OutOfMemory, Text};
use rayon::prelude::*;
use std::alloc::{AllocError, AllocGlobal, Global};
use std::thread::Threads;

/// How many items a clear part has, and its two times.
fn summary_of(clear: &Clear) -> Summary
    ensures { result ≡ summary_of clear.now }
{
    Summary {
        items: clear.items.len(),
        created: clear.created,
        modified: clear.modified,
    }
}

/// A copy of the blocks, decrypted under the key.
fn decrypted_copy(alloc: Global, blocks: &[u8], key: &Derived) -> Result<Vec<u8>, OutOfMemory>
    requires { length blocks.now % 16 ≡ 0 }
    ensures { IfOk result (λ area. area.items
        ≡ decrypted (key_of key.now) (vector_of key.now) blocks.now) }
{
    let mut area = Vec::from_slice(alloc, blocks)?;
    let cipher = Key::new(key.key());
    cipher.decrypt_in_place(key.vector(), area.as_mut_slice());
    Ok(area)
}

/// The row of a file whose clear part was read, by what its area contains under the key.
#[tactic(auto, unfolding(keyring_seal::specs::Whole::opened))]
fn area_row(
    alloc: Global,
    file: &[u8],
    clear: &Clear,
    place: usize,
    key: &Derived,
) -> Result<Row, OutOfMemory>
    requires read { clear_read file.now ≡ Ok (clear.now, drop place file.now) }
    requires place { place ≤ length file.now }
    requires blocks { length (drop place file.now) % 16 ≡ 0 }
    ensures { IfOk result (λ row. row ≡ opened_row (summary_of clear.now)
        (opened file.now (key_of key.now) (vector_of key.now))) }
{
    let (_, hidden) = file.split_at(place);
    let area = decrypted_copy(alloc, hidden, key)?;
    match read_area(alloc, area.as_slice(), clear.items.len()) {
        Ok(_) => Ok(Row::Sound(summary_of(clear))),
        Err(ReadRefused::Fault(AreaFault::CheckDiffers)) => {
            Ok(Row::OtherPassword(summary_of(clear)))
        }
        Err(ReadRefused::Fault(fault)) => Ok(Row::Area(fault)),
        Err(ReadRefused::OutOfMemory) => Err(AllocError),
    }
}

/// The row of a file whose clear part was read, by the password if there is one.
fn clear_row(
    alloc: Global,
    file: &[u8],
    clear: &Clear,
    place: usize,
    password: Option<&Bytes>,
) -> Result<Row, OutOfMemory>
    requires read { clear_read file.now ≡ Ok (clear.now, drop place file.now) }
    requires place { place ≤ length file.now }
    requires blocks { length (drop place file.now) % 16 ≡ 0 }
    ensures { IfOk result (λ row. row
        ≡ clear_row (password_in password.entry) file.now clear.now) }
{
    match password {
        Some(password) => {
            let key = derive(password.copy()?, clear.salt, clear.iterations);
            area_row(alloc, file, clear, place, &key)
        }
        None => Ok(Row::Sound(summary_of(clear))),
    }
}

/// The row of a file.
#[tactic(auto, unfolding(crate::specs::Verdict::judged))]
fn row_of(alloc: Global, file: &[u8], password: Option<&Bytes>) -> Result<Row, OutOfMemory>
    ensures { IfOk result (λ row. row ≡ judged (password_in password.entry) file.now) }
{
    if file.len() > FILE_LIMIT {
        return Ok(Row::TooLarge);
    }
    match read_clear(alloc, file) {
        Ok((clear, place)) => clear_row(alloc, file, &clear, place, password),
        Err(ReadRefused::Fault(fault)) => Ok(Row::Clear(fault)),
        Err(ReadRefused::OutOfMemory) => Err(AllocError),
    }
}

/// The verdict on one file.
fn verdict_of(
    alloc: Global,
    file: &(Text, Bytes),
    password: Option<&Bytes>,
) -> Result<Verdict, OutOfMemory>
    ensures { IfOk result (λ verdict. verdict ≡ verdict_of (password_in password.entry) file.now) }
{
    let row = row_of(alloc, file.1.as_slice(), password)?;
    let name = file.0.copy()?;
    Ok(Verdict { name, row })
}

/// The verdicts on files, each a name and its bytes, in order, from as many threads as there are processors.
/// With a password, each file is also opened with it.
pub fn judge<R: AllocGlobal + Threads + Sync>(
    rt: &R,
    files: &[(Text, Bytes)],
    password: Option<&Bytes>,
) -> Result<Vec<Verdict>, OutOfMemory>
    ensures { IfOk result (λ verdicts. verdicts.items
        ≡ map (verdict_of (password_in password.entry)) files.now) }
{
    let alloc = rt.alloc();
    let judged: Result<Vec<Verdict>, OutOfMemory> = files
        .par_iter()
        .map(
            |file: &(Text, Bytes)| -> Result<Verdict, OutOfMemory>
                ensures { IfOk result (λ verdict. verdict
                    ≡ verdict_of (password_in password.entry) file.now) }
            { verdict_of(alloc, file, password) },
        )
        .with_min_len(1)
        .collect(rt, alloc)?;
    judged
}
