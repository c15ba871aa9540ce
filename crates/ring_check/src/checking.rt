// The check of a folder.
ghost use Rattle.std.specs.Prelude.{◌≡◌, ◌++◌, ◌∷◌, ◌≤◌, ◌⊎◌, ℕ, List, [], false, Contains, IsTrue, IsFalse, OnOk, OnErr, IfOk, IsErrOf, Option, None};
ghost use Rattle.std.specs.Cmp.Lexicographic.{slice_cmp};
ghost use Rattle.std.specs.Io.KnownBytes.{Appends};
ghost use Rattle.std.specs.List.Sorted.{IsStrictlySortedBy};
ghost use Rattle.std.specs.Ordering.{nat_cmp};
ghost use Rattle.kr_outside.specs.Faults.{Rose};
ghost use Rattle.kr_outside.specs.Folder.{Stays};
ghost use Rattle.kr_outside.specs.Written.{AppendsFront};
ghost use Rattle.ring_check.specs.Batches.{Finds, IsUpTo, KeepsOutput};
ghost use Rattle.ring_check.specs.Folder.{AreChecked, Reports, any_damaged, is_checked, verdicts_on};
ghost use Rattle.ring_check.specs.Lines.{report_of};
ghost use Rattle.ring_check.specs.Looks.{HasFailed, IsUntouched, LooksOnce, OnlyLooks};
ghost use Rattle.ring_check.specs.Verdict.{password_in};

use crate::batches::{Batch, add, flush};
use crate::ending::{CheckEnd, Stop, end_of};
use crate::names::checked_names;
use crate::progress::Progress;
use crate::reading::{Looked, look_at};
use kr_base::{Bytes, Text};
use kr_outside::{Folder, Sink, Slot};
use std::alloc::AllocGlobal;
use std::thread::Threads;

/// The most bytes of a batch of several files.
const MOST_BYTES: usize = 268_435_456;

/// How a check ended, and each slot that it made.
#[derive(Drop)]
pub struct Checked<S: Slot> {
    /// How the check ended.
    pub end: CheckEnd,
    /// The slots, in byte order of their names.
    pub looked: Vec<Looked<S>>,
}

/// Looks at the file of a name, if there is one, and adds it to the batch.
fn visit<R: AllocGlobal + Threads + Sync, F: Folder, O: Sink>(
    rt: &R,
    folder: &mut F,
    name: &Text,
    password: Option<&Bytes>,
    output: &mut O,
    batch: &mut Batch,
    looked: &mut Vec<Looked<F::Cell>>,
) -> Result<(), Stop>
    requires fresh { IsTrue (F.is_honest folder.old) → ¬ (Contains (F.made folder.old) name.now) }
    requires is_open { IsFalse (O.is_closed output.old) }
    ensures up_to { (start : Option (List ℕ)) (files : List (List ℕ × List ℕ))
        → IsUpTo (password_in password.entry) start (O.written output.old) batch.old files
        → OnOk result ((more : List (List ℕ × List ℕ))
        × Finds (F.is_honest folder.old) (F.images folder.old) (name.now ∷ []) more
        × IsUpTo (password_in password.entry) start (O.written output.new) batch.new
        (files ++ more)) }
    ensures front { (start : Option (List ℕ)) (files : List (List ℕ × List ℕ))
        → IsUpTo (password_in password.entry) start (O.written output.old) batch.old files
        → OnErr result ((more : List (List ℕ × List ℕ))
        × Finds (F.is_honest folder.old) (F.images folder.old) (name.now ∷ []) more
        × AppendsFront start (O.written output.new)
        (report_of (verdicts_on (password_in password.entry) (files ++ more)))) }
    ensures looks { LooksOnce name.now (IsUntouched F.Cell.seen F.Cell.temporary F.Cell.may_leave
        F.Cell.is_honest F.Cell.is_steady (F.is_honest folder.old) (F.is_steady folder.old)
        (F.images folder.old name.now) (F.may_leave folder.old name.now))
        (F.made folder.old) looked.old.items (F.made folder.new) looked.new.items }
    ensures stays { IsTrue (F.is_honest folder.old)
        → Stays F.images F.may_leave (F.made folder.new) folder.old folder.new }
    ensures honest { F.is_honest folder.new ≡ F.is_honest folder.old }
    ensures count { F.faults folder.new ≡ F.faults folder.old }
    ensures steady { F.is_steady folder.new ≡ F.is_steady folder.old }
    ensures cause { IsErrOf result Stop.Folder → HasFailed F.Cell.faults looked.new.items
        × ¬ (IsTrue (F.is_steady folder.old)) }
    ensures kept { KeepsOutput O.faults O.is_steady O.is_closed (IsErrOf result Stop.Write)
        output.old output.new }
{
    let label = name.copy()?;
    let found = look_at(rt.alloc(), folder, name, looked)?;
    match found {
        Some(found) => add(rt, batch, label, found, password, output),
        None => Ok(()),
    }
}

/// Looks at the files of these names, one after the other.
fn walk<R: AllocGlobal + Threads + Sync, F: Folder, O: Sink, P: Progress>(
    rt: &R,
    folder: &mut F,
    names: &[Text],
    password: Option<&Bytes>,
    output: &mut O,
    progress: &mut P,
    batch: &mut Batch,
    looked: &mut Vec<Looked<F::Cell>>,
) -> Result<(), Stop>
    requires fresh { F.made folder.old ≡ [] }
    requires none { looked.old.items ≡ [] }
    requires empty { batch.old.files.items ≡ [] }
    requires sound { batch.old.is_damaged ≡ false }
    requires sorted { IsStrictlySortedBy (slice_cmp nat_cmp) names.now }
    requires is_open { IsFalse (O.is_closed output.old) }
    ensures up_to { OnOk result ((files : List (List ℕ × List ℕ))
        × Finds (F.is_honest folder.old) (F.images folder.old) names.now files
        × IsUpTo (password_in password.entry) (O.written output.old) (O.written output.new)
        batch.new files) }
    ensures front { OnErr result ((files : List (List ℕ × List ℕ))
        × Finds (F.is_honest folder.old) (F.images folder.old) names.now files
        × AppendsFront (O.written output.old) (O.written output.new)
        (report_of (verdicts_on (password_in password.entry) files))) }
    ensures looks { OnlyLooks (λ name. IsUntouched F.Cell.seen F.Cell.temporary F.Cell.may_leave
        F.Cell.is_honest F.Cell.is_steady (F.is_honest folder.old) (F.is_steady folder.old)
        (F.images folder.old name) (F.may_leave folder.old name))
        (F.is_honest folder.old) F.images F.may_leave F.made F.is_honest F.is_steady F.faults
        folder.old folder.new looked.new.items }
    ensures count { F.faults folder.new ≡ F.faults folder.old }
    ensures cause { IsErrOf result Stop.Folder → HasFailed F.Cell.faults looked.new.items
        × ¬ (IsTrue (F.is_steady folder.old)) }
    ensures kept { KeepsOutput O.faults O.is_steady O.is_closed (IsErrOf result Stop.Write)
        output.old output.new }
{
    for name in names {
        visit(rt, folder, name, password, output, batch, looked)?;
        progress.looked(batch.files.len(), looked.len(), names.len());
    }
    Ok(())
}

/// Looks at all files of the folder, and returns whether one of them is damaged.
fn check_all<R: AllocGlobal + Threads + Sync, F: Folder, O: Sink, P: Progress>(
    rt: &R,
    folder: &mut F,
    password: Option<&Bytes>,
    output: &mut O,
    progress: &mut P,
    most: usize,
    looked: &mut Vec<Looked<F::Cell>>,
) -> Result<bool, Stop>
    requires fresh { F.made folder.old ≡ [] }
    requires none { looked.old.items ≡ [] }
    requires is_open { IsFalse (O.is_closed output.old) }
    ensures whole { IfOk result (λ damaged. (files : List (List ℕ × List ℕ))
        × AreChecked (F.is_honest folder.old) (F.images folder.old) files
        × Appends (O.written output.old) (O.written output.new)
        (report_of (verdicts_on (password_in password.entry) files))
        × (damaged ≡ any_damaged (verdicts_on (password_in password.entry) files))) }
    ensures front { OnErr result (((files : List (List ℕ × List ℕ))
        × AreChecked (F.is_honest folder.old) (F.images folder.old) files
        × AppendsFront (O.written output.old) (O.written output.new)
        (report_of (verdicts_on (password_in password.entry) files)))
        ⊎ Appends (O.written output.old) (O.written output.new) []) }
    ensures looks { OnlyLooks (λ name. IsUntouched F.Cell.seen F.Cell.temporary F.Cell.may_leave
        F.Cell.is_honest F.Cell.is_steady (F.is_honest folder.old) (F.is_steady folder.old)
        (F.images folder.old name) (F.may_leave folder.old name))
        (F.is_honest folder.old) F.images F.may_leave F.made F.is_honest F.is_steady F.faults
        folder.old folder.new looked.new.items }
    ensures later { F.faults folder.old ≤ F.faults folder.new }
    ensures cause { IsErrOf result Stop.Folder → (Rose (F.faults folder.old) (F.faults folder.new)
        ⊎ HasFailed F.Cell.faults looked.new.items) × ¬ (IsTrue (F.is_steady folder.old)) }
    ensures kept { KeepsOutput O.faults O.is_steady O.is_closed (IsErrOf result Stop.Write)
        output.old output.new }
{
    let names = checked_names(rt.alloc(), folder)?;
    let mut batch = Batch::new(rt.alloc(), most);
    walk(
        rt, folder, &names, password, output, progress, &mut batch, looked,
    )?;
    flush(rt, &mut batch, password, output)?;
    progress.ended(names.len());
    Ok(batch.is_damaged)
}

/// Checks a folder of which no slot was made: looks at each file whose name ends in `.keyring`, in byte order of the
/// names, and writes one line for each, in that order, to the output. The files are judged in batches of at most
/// 268,435,456 bytes, or of one file, each batch by as many threads as there are processors. With a password, each
/// file is also opened with it. Nothing in the folder is changed: each slot that was made is returned untouched.
///
/// Ends with `Done` or `Damaged` only if all lines were written, and otherwise with a prefix of them: with
/// `FolderFault` only if the count of faults of the folder or that of a slot rose, with `WriteFault` only if that of
/// the output rose, and with `Memory` if no memory was left.
pub fn check_folder<R: AllocGlobal + Threads + Sync, F: Folder, O: Sink, P: Progress>(
    rt: &R,
    folder: &mut F,
    password: Option<&Bytes>,
    output: &mut O,
    progress: &mut P,
) -> Checked<F::Cell>
    requires fresh { F.made folder.old ≡ [] }
    requires is_open { IsFalse (O.is_closed output.old) }

    // What is written.
    ensures reports { Reports (F.is_honest folder.old) (F.images folder.old)
        (password_in password.entry) result.end (O.written output.old) (O.written output.new) }

    // The folder is only looked at.
    ensures looks { OnlyLooks (λ name. IsUntouched F.Cell.seen F.Cell.temporary F.Cell.may_leave
        F.Cell.is_honest F.Cell.is_steady (F.is_honest folder.old) (F.is_steady folder.old)
        (F.images folder.old name) (F.may_leave folder.old name))
        (F.is_honest folder.old) F.images F.may_leave F.made F.is_honest F.is_steady F.faults
        folder.old folder.new result.looked.items }
    ensures later { F.faults folder.old ≤ F.faults folder.new }

    // Why it ended before all lines were written.
    ensures folder_fault { result.end ≡ CheckEnd.FolderFault
        → (Rose (F.faults folder.old) (F.faults folder.new)
        ⊎ HasFailed F.Cell.faults result.looked.items) × ¬ (IsTrue (F.is_steady folder.old)) }
    ensures kept { KeepsOutput O.faults O.is_steady O.is_closed (result.end ≡ CheckEnd.WriteFault)
        output.old output.new }
{
    check_within(rt, folder, password, output, progress, MOST_BYTES)
}

/// Checks a folder as `check_folder` does, in batches of so many bytes at most, or of one file.
pub fn check_within<R: AllocGlobal + Threads + Sync, F: Folder, O: Sink, P: Progress>(
    rt: &R,
    folder: &mut F,
    password: Option<&Bytes>,
    output: &mut O,
    progress: &mut P,
    most: usize,
) -> Checked<F::Cell>
    requires fresh { F.made folder.old ≡ [] }
    requires is_open { IsFalse (O.is_closed output.old) }

    // What is written.
    ensures reports { Reports (F.is_honest folder.old) (F.images folder.old)
        (password_in password.entry) result.end (O.written output.old) (O.written output.new) }

    // The folder is only looked at.
    ensures looks { OnlyLooks (λ name. IsUntouched F.Cell.seen F.Cell.temporary F.Cell.may_leave
        F.Cell.is_honest F.Cell.is_steady (F.is_honest folder.old) (F.is_steady folder.old)
        (F.images folder.old name) (F.may_leave folder.old name))
        (F.is_honest folder.old) F.images F.may_leave F.made F.is_honest F.is_steady F.faults
        folder.old folder.new result.looked.items }
    ensures later { F.faults folder.old ≤ F.faults folder.new }

    // Why it ended before all lines were written.
    ensures folder_fault { result.end ≡ CheckEnd.FolderFault
        → (Rose (F.faults folder.old) (F.faults folder.new)
        ⊎ HasFailed F.Cell.faults result.looked.items) × ¬ (IsTrue (F.is_steady folder.old)) }
    ensures kept { KeepsOutput O.faults O.is_steady O.is_closed (result.end ≡ CheckEnd.WriteFault)
        output.old output.new }
{
    let mut looked = Vec::new(rt.alloc());
    let answer = check_all(rt, folder, password, output, progress, most, &mut looked);
    Checked {
        end: end_of(answer),
        looked,
    }
}
