ghost use Rattle.std.specs.Prelude.{◌≡◌, [], IfOk, OnOk, true, false};
ghost use Rattle.std.proofs.Common.{rules};
ghost use Rattle.kr_memory_disk.specs.Files.{image_in};

use crate::checks::{cell, numbers, same_text};
use crate::words::{decimal, joined, text_of};
use folder_store::{
    FoundAliases, LeftAlone, Limits, LoadRefused, Loaded, NotLoaded, Ring, load, load_within,
};
use kr_base::{Bytes, OutOfMemory, Text};
use kr_memory_disk::{
    Files, MemoryFolder, MemorySlot, SlotCall, SlotPlan, SteadyFolder, SteadySlot,
};
use kr_outside::{Failed, Folder, OutsideRefused, Slot};
use std::alloc::Global;
use std::test::Fail;

// The start of a keyring file, up to its name.
fn front_of(alloc: Global, name: &str) -> Result<Vec<u8>, Fail> {
    let mut file = b"GnomeKeyring\n\r\0\n\0\0\0\0".as_slice().to_vec(alloc)?;
    let len = u32::try_from(name.len()).ok().ok_or("a long name")?;
    file.extend_from_slice(&len.to_be_bytes())?;
    file.extend_from_slice(name.as_bytes())?;
    Ok(file)
}

fn add_items(file: &mut Vec<u8>, items: u8) -> Result<(), Fail> {
    file.extend_from_slice(&[0, 0, 0, items])?;
    for item in 0..items {
        file.extend_from_slice(&[0, 0, 0, item, 0, 0, 0, 0, 0, 0, 0, 0])?;
    }
    Ok(())
}

// A keyring file with this name and this many items. It has 100 bytes, those of the name, and 12
// for each item.
fn keyring(alloc: Global, name: &str, items: u8) -> Result<Vec<u8>, Fail> {
    let mut file = front_of(alloc, name)?;
    file.resize(file.len().saturating_add(52), 0)?;
    add_items(&mut file, items)?;
    file.extend_from_slice(&[0, 0, 0, 16])?;
    file.resize(file.len().saturating_add(16), 7)?;
    Ok(file)
}

// The bytes of a word, in which `;` stands for a line ending.
fn lines_of(alloc: Global, word: &str) -> Result<Vec<u8>, Fail> {
    let mut file = Vec::new(alloc);
    for byte in word.as_bytes() {
        file.push(if *byte == b';' { b'\n' } else { *byte })?;
    }
    Ok(file)
}

// The file that a word means: `k:NAME` is a keyring file with that name, `k2:NAME` one with two items;
// any other word is the file's bytes.
fn file_of(alloc: Global, word: &str) -> Result<Vec<u8>, Fail> {
    if let Some(name) = word.strip_prefix("k:") {
        return keyring(alloc, name, 0);
    }
    if let Some(name) = word.strip_prefix("k2:") {
        return keyring(alloc, name, 2);
    }
    lines_of(alloc, word)
}

fn temporary_name(alloc: Global, front: &str) -> Result<Text, Fail> {
    let name = joined(alloc, &[front, ".tmp"])?;
    text_of(alloc, name.as_str())
}

// The name that a word means: if it ends in `+`, that of a temporary file.
fn name_of(alloc: Global, word: &str) -> Result<Text, Fail> {
    match word.strip_suffix('+') {
        Some(front) => temporary_name(alloc, front),
        None => text_of(alloc, word),
    }
}

// The name and the bytes of a file `NAME=WORD`.
fn named_file(alloc: Global, file: &str) -> Result<(Text, Bytes), Fail> {
    let name = name_of(alloc, cell(file, '=', 0))?;
    let (_, word) = file.split_once('=').ok_or("a file")?;
    Ok((name, Bytes::new(file_of(alloc, word)?)))
}

// A folder with these files, each given as `NAME=WORD` and a space, whose calls with
// these numbers fail.
fn folder_of(alloc: Global, files: &str, failing: Vec<u64>) -> Result<MemoryFolder, Fail>
    ensures { IfOk result (λ folder. folder.made ≡ []) }
{
    let mut folder = MemoryFolder::new(alloc, failing);
    for file in files.split_whitespace() {
        let (name, bytes) = named_file(alloc, file)?;
        folder.set(name, Some(bytes))?;
    }
    Ok(folder)
}

// Each ring's stem, name and length.
fn rings_told<S: Slot>(alloc: Global, rings: &[Ring<S>]) -> Result<String, Fail> {
    let mut told = String::new(alloc);
    for ring in rings {
        told.push_str(ring_told(alloc, ring)?.as_str())?;
    }
    Ok(told)
}

fn ring_told<S: Slot>(alloc: Global, ring: &Ring<S>) -> Result<String, Fail> {
    let (stem, name) = (ring.stem(), &ring.clear().name);
    let len = decimal(alloc, ring.image().bytes().len())?;
    let parts = [stem.as_str(), ":", name.as_str(), ":", len.as_str(), " "];
    joined(alloc, &parts)
}

fn used_told<S: Slot>(alloc: Global, loaded: &Loaded<S>) -> Result<String, Fail> {
    let mut told = String::new(alloc);
    for stem in &loaded.used {
        told.push(' ')?;
        told.push_str(stem.as_str())?;
    }
    Ok(told)
}

fn aliases_told<S: Slot>(alloc: Global, loaded: &Loaded<S>) -> Result<String, Fail> {
    let mut told = String::new(alloc);
    for (name, stem) in loaded.aliases.pairs() {
        let pair = joined(alloc, &[" ", name.as_str(), "=", stem.as_str()])?;
        told.push_str(pair.as_str())?;
    }
    Ok(told)
}

// What was loaded: each ring's stem, name and length, then the used stems, then the aliases.
fn told<S: Slot>(alloc: Global, loaded: &Loaded<S>) -> Result<String, Fail> {
    let rings = rings_told(alloc, loaded.rings.as_slice())?;
    let used = used_told(alloc, loaded)?;
    let aliases = aliases_told(alloc, loaded)?;
    let parts = [rings.as_str(), "/", used.as_str(), " /", aliases.as_str()];
    joined(alloc, &parts)
}

// The files, and what is loaded from them.
const FOLDERS: &str = "\
|/ /
x.keyring=abc|/ x /
x.keyring=k:Mine|x:Mine:104 / x /
login.keyring=k:Login aliases=default=login;b=gone; login.keyring+=k:Other|\
login:Login:105 / login / b=gone default=login
a.keyring=k: a-b.keyring=k: a_b.keyring=k:|a::100 a-b::100 a_b::100 / a-b a a_b /
.keyring=k:None keyring=k:None x.Keyring=k:None x.keyring+=k:None x.keyring~=k:None default=login|\
/ /
a.b.keyring=k:A .x.keyring=k:X .keyring.keyring=k:K|\
.keyring:K:101 .x:X:101 a.b:A:101 / .keyring .x a.b /
a.keyring=k:A b.keyring= c.keyring=k2:C|a:A:101 c:C:125 / a b c /
";

// What was loaded, or why nothing was.
fn loaded_or_cause<S: Slot>(
    loaded: Result<Loaded<S>, NotLoaded<S>>,
) -> Result<Loaded<S>, LoadRefused> {
    match loaded {
        Ok(loaded) => Ok(loaded),
        Err(not_loaded) => Err(not_loaded.refused),
    }
}

fn folder_told(alloc: Global, files: &str) -> Result<String, Fail> {
    let mut folder = folder_of(alloc, files, Vec::new(alloc))?;
    let loaded = loaded_or_cause(load(alloc, &mut folder))?;
    told(alloc, &loaded)
}

#[test]
fn a_folder_is_listed_in_order(rt: HostRuntime) -> Result<(), Fail> {
    for row in FOLDERS.lines() {
        let found = folder_told(rt.alloc(), cell(row, '|', 0))?;
        same_text(&rt, found.as_str(), cell(row, '|', 1), row);
    }
    Ok(())
}

// The number of listed collections of a folder, and of used stems.
fn counts_told(alloc: Global, files: &str) -> Result<String, Fail> {
    let mut folder = folder_of(alloc, files, Vec::new(alloc))?;
    let loaded = loaded_or_cause(load(alloc, &mut folder))?;
    let listed = decimal(alloc, loaded.rings.len())?;
    let used = decimal(alloc, loaded.used.len())?;
    joined(alloc, &[listed.as_str(), " ", used.as_str()])
}

// The counts of a folder with one keyring file, whose stem has this many letters.
fn long_stem_told(alloc: Global, letters: u32) -> Result<String, Fail> {
    let mut name = String::new(alloc);
    for _ in 0..letters {
        name.push('a')?;
    }
    name.push_str(".keyring=k:A")?;
    counts_told(alloc, name.as_str())
}

#[test]
fn a_stem_that_is_too_long_is_ignored(rt: HostRuntime) -> Result<(), Fail> {
    let longest = long_stem_told(rt.alloc(), 243)?;
    same_text(&rt, longest.as_str(), "1 1", "243 letters");
    let longer = long_stem_told(rt.alloc(), 244)?;
    same_text(&rt, longer.as_str(), "0 0", "244 letters");
    Ok(())
}

// The limits (one file, collections, items, all files), the files, and what is loaded from them.
const LIMITED: &str = "\
101 9 9 999|a.keyring=k:A b.keyring=k:BB c.keyring=k:C|a:A:101 c:C:101 / a b c /
999 2 9 999|a.keyring=k:A b.keyring=x c.keyring=k:C d.keyring=k:D|a:A:101 c:C:101 / a b c d /
999 9 3 999|a.keyring=k2:A b.keyring=k2:B c.keyring=k:C|a:A:125 c:C:101 / a b c /
999 9 4 999|a.keyring=k2:A b.keyring=k2:B c.keyring=k:C|a:A:125 b:B:125 c:C:101 / a b c /
999 9 9 226|a.keyring=k2:A b.keyring=k:BB c.keyring=k:C|a:A:125 c:C:101 / a b c /
999 9 9 227|a.keyring=k2:A b.keyring=k:BB c.keyring=k:C|a:A:125 b:BB:102 / a b c /
999 0 9 999|a.keyring=k:A|/ a /
";

fn limits_of(row: &str) -> Option<Limits> {
    Some(Limits {
        one_file: cell(row, ' ', 0).parse::<usize>().ok()?,
        collections: cell(row, ' ', 1).parse::<usize>().ok()?,
        items: cell(row, ' ', 2).parse::<usize>().ok()?,
        all_files: cell(row, ' ', 3).parse::<usize>().ok()?,
    })
}

fn limited_told(alloc: Global, row: &str) -> Result<String, Fail> {
    let limits = limits_of(cell(row, '|', 0)).ok_or("limits")?;
    let mut folder = folder_of(alloc, cell(row, '|', 1), Vec::new(alloc))?;
    let loaded = loaded_or_cause(load_within(alloc, &mut folder, &limits))?;
    told(alloc, &loaded)
}

#[test]
fn a_file_that_passes_a_limit_is_left_alone(rt: HostRuntime) -> Result<(), Fail> {
    for row in LIMITED.lines() {
        let found = limited_told(rt.alloc(), row)?;
        same_text(&rt, found.as_str(), cell(row, '|', 2), row);
    }
    Ok(())
}

// 1,025 keyring files.
fn many_files(alloc: Global) -> Result<String, Fail> {
    let mut files = String::new(alloc);
    for number in 1000..2025 {
        files.push_str(decimal(alloc, number)?.as_str())?;
        files.push_str(".keyring=k: ")?;
    }
    Ok(files)
}

#[test]
fn a_file_after_1024_collections_is_left_alone(rt: HostRuntime) -> Result<(), Fail> {
    let files = many_files(rt.alloc())?;
    let found = counts_told(rt.alloc(), files.as_str())?;
    same_text(&rt, found.as_str(), "1024 1025", "1,025 files");
    Ok(())
}

// The call of the folder that fails, or the slot and its call, in a folder with two keyring files; a
// call that isn't made doesn't fail. With a fault, the number of slots that are returned.
const FAULTS: &str = "\
0|fault 0
1|fault 0
2|
a.keyring 0|fault 1
a.keyring 1|fault 1
a.keyring 2|fault 1
a.keyring 3|
b.keyring 2|fault 2
aliases 0|fault 3
aliases 1|fault 3
aliases 2|
b 0|
";

const TWO_FILES: &str = "a.keyring=k:A b.keyring=k:B";

fn plan_of(alloc: Global, name: &str, call: &str) -> Result<SlotPlan, Fail> {
    Ok(SlotPlan {
        name: text_of(alloc, name)?,
        failing: numbers(alloc, call)?,
        done: Vec::new(alloc),
    })
}

// A folder that fails in this one call.
fn failing_folder(alloc: Global, fault: &str) -> Result<MemoryFolder, Fail>
    ensures { IfOk result (λ folder. folder.made ≡ []) }
{
    let Some((name, call)) = fault.split_once(' ') else {
        return folder_of(alloc, TWO_FILES, numbers(alloc, fault)?);
    };
    let mut folder = folder_of(alloc, TWO_FILES, Vec::new(alloc))?;
    folder.plan(plan_of(alloc, name, call)?)?;
    Ok(folder)
}

// The cause, and the number of slots that are returned.
fn refusal_told(alloc: Global, refusal: &NotLoaded<MemorySlot>) -> Result<String, Fail> {
    let others = refusal.rings.len().saturating_add(refusal.left_alone.len());
    let last = if refusal.last.is_some() { 1 } else { 0 };
    let slots = decimal(alloc, others.saturating_add(last))?;
    match refusal.refused {
        LoadRefused::Folder => joined(alloc, &["fault ", slots.as_str()]),
        LoadRefused::OutOfMemory => joined(alloc, &["memory ", slots.as_str()]),
    }
}

fn fault_told(alloc: Global, fault: &str) -> Result<String, Fail> {
    let mut folder = failing_folder(alloc, fault)?;
    match load(alloc, &mut folder) {
        Ok(_) => Ok(String::new(alloc)),
        Err(refusal) => refusal_told(alloc, &refusal),
    }
}

#[test]
fn each_call_that_fails_is_a_fault(rt: HostRuntime) -> Result<(), Fail> {
    for row in FAULTS.lines() {
        let found = fault_told(rt.alloc(), cell(row, '|', 0))?;
        same_text(&rt, found.as_str(), cell(row, '|', 1), row);
    }
    Ok(())
}

// A call of a slot: y for a sync of the folder, s for a size, r for a read, ! for another.
fn letter_of(call: &SlotCall) -> char {
    match call {
        SlotCall::SyncFolder => 'y',
        SlotCall::Size => 's',
        SlotCall::Read => 'r',
        _ => '!',
    }
}

// The calls that were made on a slot, and a space.
fn calls_of(alloc: Global, slot: &MemorySlot) -> Result<String, Fail> {
    let mut told = String::new(alloc);
    for record in slot.calls() {
        told.push(letter_of(&record.call))?;
    }
    told.push(' ')?;
    Ok(told)
}

// The slot of the file `aliases`.
fn alias_slot(aliases: FoundAliases<MemorySlot>) -> MemorySlot {
    match aliases {
        FoundAliases::Read(file) => {
            let (cell, _) = file.into_parts();
            cell.into_slot()
        }
        FoundAliases::LeftAlone(slot) => slot,
    }
}

fn alias_calls(alloc: Global, aliases: FoundAliases<MemorySlot>) -> Result<String, Fail> {
    calls_of(alloc, &alias_slot(aliases))
}

fn ring_calls(alloc: Global, ring: Ring<MemorySlot>) -> Result<String, Fail> {
    let (_, cell, _) = ring.into_parts();
    calls_of(alloc, &cell.into_slot())
}

fn rings_calls(alloc: Global, rings: Vec<Ring<MemorySlot>>) -> Result<String, Fail> {
    let mut told = String::new(alloc);
    for ring in rings {
        told.push_str(ring_calls(alloc, ring)?.as_str())?;
    }
    Ok(told)
}

// The stem and the calls of each file that was left alone.
fn left_alone_calls(alloc: Global, files: Vec<LeftAlone<MemorySlot>>) -> Result<String, Fail> {
    let mut told = String::new(alloc);
    for file in files {
        told.push_str(file.stem.as_str())?;
        told.push_str(calls_of(alloc, &file.slot)?.as_str())?;
    }
    Ok(told)
}

// The calls that were made on the slots of a folder: of the files that are left alone, of those
// that are listed, and of the aliases.
fn all_calls(alloc: Global, files: &str) -> Result<String, Fail> {
    let mut folder = folder_of(alloc, files, Vec::new(alloc))?;
    let loaded = loaded_or_cause(load(alloc, &mut folder))?;
    let left = left_alone_calls(alloc, loaded.left_alone)?;
    let listed = rings_calls(alloc, loaded.rings)?;
    let aliases = alias_calls(alloc, loaded.aliases)?;
    joined(alloc, &[left.as_str(), listed.as_str(), aliases.as_str()])
}

#[test]
fn each_file_is_settled_and_read_once(rt: HostRuntime) -> Result<(), Fail> {
    let calls = all_calls(rt.alloc(), "a.keyring=k:A b.keyring=k:B c.keyring=abc")?;
    same_text(&rt, calls.as_str(), "cysr ysr ysr ys ", "each file");
    Ok(())
}

// A folder whose file `aliases` has this many bytes; one line of it gives an alias.
fn long_aliases(alloc: Global, count: usize) -> Result<MemoryFolder, Fail>
    ensures { IfOk result (λ folder. folder.made ≡ []) }
{
    let mut bytes = b"a=x\n".as_slice().to_vec(alloc)?;
    bytes.resize(count, b'#')?;
    let mut folder = MemoryFolder::new(alloc, Vec::new(alloc));
    folder.set(text_of(alloc, "aliases")?, Some(Bytes::new(bytes)))?;
    Ok(folder)
}

// The number of aliases in a file of this many bytes, and the calls that were made on its slot.
fn aliases_told_of(alloc: Global, count: usize) -> Result<String, Fail> {
    let mut folder = long_aliases(alloc, count)?;
    let loaded = loaded_or_cause(load(alloc, &mut folder))?;
    let given = decimal(alloc, loaded.aliases.pairs().len())?;
    let calls = alias_calls(alloc, loaded.aliases)?;
    joined(alloc, &[given.as_str(), " ", calls.as_str()])
}

// A file of 1,048,576 bytes is read, and one with one byte more is measured and left alone, unread.
#[test]
fn a_longer_file_of_aliases_is_not_read(rt: HostRuntime) -> Result<(), Fail> {
    let read = aliases_told_of(rt.alloc(), 1_048_576)?;
    same_text(&rt, read.as_str(), "1 ysr ", "1,048,576 bytes");
    let measured = aliases_told_of(rt.alloc(), 1_048_577)?;
    same_text(&rt, measured.as_str(), "0 ys ", "1,048,577 bytes");
    Ok(())
}

// A folder that returns no names before it is synced. It isn't honest: an honest one returns
// the same names.
#[derive(Drop)]
struct LateFolder {
    alloc: Global,
    folder: SteadyFolder,
    is_synced: bool,
}

impl Folder for LateFolder {
    type Cell = SteadySlot;

    ghost images = { λ f name. image_in f.folder.files name };

    ghost may_leave = { λ _ _ _. Unit {0} };

    ghost made = { λ f. f.folder.made };

    ghost faults = { λ _. 0 };

    ghost is_honest = { λ _. false };

    ghost is_steady = { λ _. true };

    ghost steady_below = { Prim.search rules };

    fn sync(&mut self) -> Result<(), Failed> {
        self.is_synced = true;
        Ok(())
    }

    fn names(&mut self) -> Result<Vec<Text>, OutsideRefused> {
        if self.is_synced {
            self.folder.names()
        } else {
            Ok(Vec::new(self.alloc))
        }
    }

    fn slot(&mut self, name: &str) -> Result<SteadySlot, OutOfMemory> {
        self.folder.slot(name)
    }
}

fn one_file(alloc: Global) -> Result<Files, Fail> {
    let mut files = Files::new(alloc);
    let bytes = Bytes::new(keyring(alloc, "A", 0)?);
    files.set(text_of(alloc, "a.keyring")?, Some(bytes))?;
    Ok(files)
}

fn late_told(alloc: Global) -> Result<String, Fail> {
    let folder = SteadyFolder::new(alloc, one_file(alloc)?, 0);
    let mut folder = LateFolder {
        alloc,
        folder,
        is_synced: false,
    };
    let loaded = loaded_or_cause(load(alloc, &mut folder))?;
    told(alloc, &loaded)
}

#[test]
fn the_names_are_read_after_the_sync(rt: HostRuntime) -> Result<(), Fail> {
    let told = late_told(rt.alloc())?;
    same_text(&rt, told.as_str(), "a:A:101 / a /", "a late folder");
    Ok(())
}
