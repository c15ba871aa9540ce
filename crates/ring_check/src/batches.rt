// Files that are judged together, and the lines that are written of them.
ghost use Rattle.std.specs.Prelude.{◌≡◌, ◌∷◌, ◌++◌, ◌<◌, ◌||◌, ℕ, List, [], length, Option, false, true, IsFalse, OnOk, OnErr, IsErrOf};
ghost use Rattle.std.specs.Io.KnownBytes.{Appends};
ghost use Rattle.kr_outside.specs.Written.{AppendsFront};
ghost use Rattle.ring_check.specs.Batches.{IsUpTo, KeepsOutput};
ghost use Rattle.ring_check.specs.Folder.{verdicts_on, any_damaged};
ghost use Rattle.ring_check.specs.Lines.{report_of};
ghost use Rattle.ring_check.specs.Looks.{HasBytes};
ghost use Rattle.ring_check.specs.Verdict.{password_in};
ghost use Rattle.keyring_file.specs.Limits.{file_limit};

use crate::ending::Stop;
use crate::judging::judge;
use crate::lines::report;
use crate::reading::Found;
use crate::verdict::{Row, Verdict};
use kr_base::{Bytes, Text};
use kr_outside::{Sink, write_all};
use std::alloc::{AllocGlobal, Global};
use std::slice;
use std::thread::Threads;

/// Files that are to be judged together, and what was found of those before them.
#[derive(Drop)]
pub struct Batch {
    /// The files, each a name and its bytes.
    pub files: Vec<(Text, Bytes)>,
    /// How many bytes these files have.
    pub bytes: usize,
    /// The most bytes that several files may have.
    pub most: usize,
    /// Whether one of the files before them is damaged, or too large.
    pub is_damaged: bool,
}

impl Batch {
    /// The batch before the first file; several files may have so many bytes.
    pub fn new(alloc: Global, most: usize) -> Batch
        ensures none { result.files.items ≡ [] }
        ensures sound { result.is_damaged ≡ false }
    {
        Batch {
            files: Vec::new(alloc),
            bytes: 0,
            most,
            is_damaged: false,
        }
    }
}

/// Whether one of the files is damaged, or too large.
fn any_damaged(verdicts: &[Verdict]) -> bool
    ensures { result ≡ any_damaged verdicts.now }
{
    verdicts.iter().any(|verdict| verdict.row.is_damaged())
}

/// Writes the lines of these verdicts.
fn put_lines<O: Sink>(alloc: Global, verdicts: &[Verdict], output: &mut O) -> Result<(), Stop>
    requires is_open { IsFalse (O.is_closed output.old) }
    ensures whole { OnOk result (Appends (O.written output.old) (O.written output.new)
        (report_of verdicts.now)) }
    ensures front { OnErr result (AppendsFront (O.written output.old) (O.written output.new)
        (report_of verdicts.now)) }
    ensures kept { KeepsOutput O.faults O.is_steady O.is_closed (IsErrOf result Stop.Write)
        output.old output.new }
    ensures no_folder { ¬ (IsErrOf result Stop.Folder) }
{
    let Ok(text) = report(alloc, verdicts) else {
        return Err(Stop::Memory);
    };
    match write_all(output, &text) {
        Ok(()) => Ok(()),
        Err(_) => Err(Stop::Write),
    }
}

/// Judges the files of the batch and writes their lines. After that the batch is empty.
pub fn flush<R: AllocGlobal + Threads + Sync, O: Sink>(
    rt: &R,
    batch: &mut Batch,
    password: Option<&Bytes>,
    output: &mut O,
) -> Result<(), Stop>
    requires is_open { IsFalse (O.is_closed output.old) }
    ensures whole { OnOk result (Appends (O.written output.old) (O.written output.new)
        (report_of (verdicts_on (password_in password.entry) batch.old.files.items))) }
    ensures empty { OnOk result (batch.new.files.items ≡ []) }
    ensures damaged { OnOk result (batch.new.is_damaged ≡ (batch.old.is_damaged
        || any_damaged (verdicts_on (password_in password.entry) batch.old.files.items))) }
    ensures front { OnErr result (AppendsFront (O.written output.old) (O.written output.new)
        (report_of (verdicts_on (password_in password.entry) batch.old.files.items))) }
    ensures kept { KeepsOutput O.faults O.is_steady O.is_closed (IsErrOf result Stop.Write)
        output.old output.new }
    ensures no_folder { ¬ (IsErrOf result Stop.Folder) }
{
    let Ok(verdicts) = judge(rt, &batch.files, password) else {
        return Err(Stop::Memory);
    };
    put_lines(rt.alloc(), &verdicts, output)?;
    batch.is_damaged = batch.is_damaged || any_damaged(&verdicts);
    batch.files.clear();
    batch.bytes = 0;
    Ok(())
}

/// Makes room for a file of so many bytes: if the batch would have too many with it, the batch is judged first.
fn make_room<R: AllocGlobal + Threads + Sync, O: Sink>(
    rt: &R,
    batch: &mut Batch,
    bytes: usize,
    password: Option<&Bytes>,
    output: &mut O,
) -> Result<(), Stop>
    requires is_open { IsFalse (O.is_closed output.old) }
    ensures up_to { (start : Option (List ℕ)) (files : List (List ℕ × List ℕ))
        → IsUpTo (password_in password.entry) start (O.written output.old) batch.old files
        → OnOk result
        (IsUpTo (password_in password.entry) start (O.written output.new) batch.new files) }
    ensures front { (start : Option (List ℕ)) (files more : List (List ℕ × List ℕ))
        → IsUpTo (password_in password.entry) start (O.written output.old) batch.old files
        → OnErr result (AppendsFront start (O.written output.new)
        (report_of (verdicts_on (password_in password.entry) (files ++ more)))) }
    ensures kept { KeepsOutput O.faults O.is_steady O.is_closed (IsErrOf result Stop.Write)
        output.old output.new }
    ensures no_folder { ¬ (IsErrOf result Stop.Folder) }
{
    if batch.bytes.saturating_add(bytes) <= batch.most {
        return Ok(());
    }
    flush(rt, batch, password, output)
}

/// Adds a file that was read to the batch.
fn add_whole<R: AllocGlobal + Threads + Sync, O: Sink>(
    rt: &R,
    batch: &mut Batch,
    name: Text,
    bytes: Bytes,
    password: Option<&Bytes>,
    output: &mut O,
) -> Result<(), Stop>
    requires is_open { IsFalse (O.is_closed output.old) }
    ensures up_to { (start : Option (List ℕ)) (files : List (List ℕ × List ℕ))
        → IsUpTo (password_in password.entry) start (O.written output.old) batch.old files
        → OnOk result (IsUpTo (password_in password.entry) start (O.written output.new) batch.new
        (files ++ (name, bytes) ∷ [])) }
    ensures front { (start : Option (List ℕ)) (files more : List (List ℕ × List ℕ))
        → IsUpTo (password_in password.entry) start (O.written output.old) batch.old files
        → OnErr result (AppendsFront start (O.written output.new)
        (report_of (verdicts_on (password_in password.entry) (files ++ more)))) }
    ensures kept { KeepsOutput O.faults O.is_steady O.is_closed (IsErrOf result Stop.Write)
        output.old output.new }
    ensures no_folder { ¬ (IsErrOf result Stop.Folder) }
{
    make_room(rt, batch, bytes.len(), password, output)?;
    batch.bytes = batch.bytes.saturating_add(bytes.len());
    if batch.files.push((name, bytes)).is_err() {
        return Err(Stop::Memory);
    }
    Ok(())
}

/// Writes the line of a file that is too large, after those of the batch.
fn add_too_large<R: AllocGlobal + Threads + Sync, O: Sink>(
    rt: &R,
    batch: &mut Batch,
    name: Text,
    password: Option<&Bytes>,
    output: &mut O,
) -> Result<(), Stop>
    requires is_open { IsFalse (O.is_closed output.old) }
    ensures up_to { (start : Option (List ℕ)) (files : List (List ℕ × List ℕ)) (bytes : List ℕ)
        → IsUpTo (password_in password.entry) start (O.written output.old) batch.old files
        → file_limit < length bytes
        → OnOk result (IsUpTo (password_in password.entry) start (O.written output.new) batch.new
        (files ++ (name, bytes) ∷ [])) }
    ensures front { (start : Option (List ℕ)) (files : List (List ℕ × List ℕ)) (bytes : List ℕ)
        → IsUpTo (password_in password.entry) start (O.written output.old) batch.old files
        → file_limit < length bytes → OnErr result (AppendsFront start (O.written output.new)
        (report_of (verdicts_on (password_in password.entry) (files ++ (name, bytes) ∷ [])))) }
    ensures kept { KeepsOutput O.faults O.is_steady O.is_closed (IsErrOf result Stop.Write)
        output.old output.new }
    ensures no_folder { ¬ (IsErrOf result Stop.Folder) }
{
    flush(rt, batch, password, output)?;
    let verdict = Verdict {
        name,
        row: Row::TooLarge,
    };
    put_lines(rt.alloc(), slice::from_ref(&verdict), output)?;
    batch.is_damaged = true;
    Ok(())
}

/// Adds a file to those that are judged.
pub fn add<R: AllocGlobal + Threads + Sync, O: Sink>(
    rt: &R,
    batch: &mut Batch,
    name: Text,
    found: Found,
    password: Option<&Bytes>,
    output: &mut O,
) -> Result<(), Stop>
    requires is_open { IsFalse (O.is_closed output.old) }
    ensures up_to { (start : Option (List ℕ)) (files : List (List ℕ × List ℕ)) (bytes : List ℕ)
        → IsUpTo (password_in password.entry) start (O.written output.old) batch.old files
        → HasBytes found bytes
        → OnOk result (IsUpTo (password_in password.entry) start (O.written output.new) batch.new
        (files ++ (name, bytes) ∷ [])) }
    ensures front { (start : Option (List ℕ)) (files : List (List ℕ × List ℕ)) (bytes : List ℕ)
        → IsUpTo (password_in password.entry) start (O.written output.old) batch.old files
        → HasBytes found bytes → OnErr result (AppendsFront start (O.written output.new)
        (report_of (verdicts_on (password_in password.entry) (files ++ (name, bytes) ∷ [])))) }
    ensures kept { KeepsOutput O.faults O.is_steady O.is_closed (IsErrOf result Stop.Write)
        output.old output.new }
    ensures no_folder { ¬ (IsErrOf result Stop.Folder) }
{
    match found {
        Found::Whole(bytes) => add_whole(rt, batch, name, bytes, password, output),
        Found::TooLarge => add_too_large(rt, batch, name, password, output),
    }
}
