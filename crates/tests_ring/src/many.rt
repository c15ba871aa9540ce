// A folder of 3,000 files, in one batch and in many.
ghost use Rattle.std.specs.Prelude.{◌≡◌, []};

use crate::checks::{cell, same_text};
use crate::files::{end_word, file_of, folder_of, login};
use crate::rows::written_told;
use kr_base::{Bytes, Text};
use kr_memory::MemorySink;
use kr_outside::{Folder, Host};
use real_edges::RealHost;
use ring_check::{Progress, Unwatched, check_folder, check_within, judge, line};
use std::alloc::{AllocGlobal, Global};
use std::fs;
use std::test::Fail;
use std::thread::Threads;

/// How many files there are.
const FILES: u32 = 3_000;

// The name of the file with this number: four digits, so that the order of the names is that of the numbers.
fn name_of(alloc: Global, number: u32) -> Result<Text, Fail> {
    let digits = Text::of_number(10_000_u32.saturating_add(number));
    let mut name = digits.as_bytes().to_vec(alloc)?;
    name.extend_from_slice(b".keyring")?;
    Ok(Text::from_utf8(name).ok_or("a text")?)
}

// The file with this number: every third one is sound, and the others are damaged, each in its way.
fn bytes_of(alloc: Global, number: u32) -> Result<Vec<u8>, Fail> {
    match number % 3 {
        0 => login(alloc),
        1 => file_of(alloc, "00"),
        _ => {
            let mut file = login(alloc)?;
            file.truncate((number % 120) as usize);
            Ok(file)
        }
    }
}

// Makes a folder of these files at this path.
fn make_files(rt: &HostRuntime, path: &str) -> Result<(), Fail> {
    fs::create_dir(rt, path)?;
    for number in 0..FILES {
        let mut file = String::from_str(rt.alloc(), path)?;
        file.push('/')?;
        file.push_str(name_of(rt.alloc(), number)?.as_str())?;
        fs::write(rt, file.as_str(), bytes_of(rt.alloc(), number)?.as_slice())?;
    }
    Ok(())
}

// The line of one file, judged by itself.
fn one_line<R: AllocGlobal + Threads + Sync>(rt: &R, number: u32) -> Result<Bytes, Fail> {
    let alloc = rt.alloc();
    let file = (
        name_of(alloc, number)?,
        Bytes::new(bytes_of(alloc, number)?),
    );
    let verdicts = judge(rt, std::slice::from_ref(&file), None)?;
    let verdict = verdicts.first().ok_or("a verdict")?;
    Ok(line(alloc, verdict)?)
}

// The lines of all files, each judged by itself.
fn one_by_one<R: AllocGlobal + Threads + Sync>(rt: &R) -> Result<String, Fail> {
    let alloc = rt.alloc();
    let mut lines = Vec::new(alloc);
    for number in 0..FILES {
        lines.extend_from_slice(one_line(rt, number)?.as_slice())?;
    }
    written_told(alloc, "damaged", lines.as_slice())
}

// What a check of a folder writes.
fn at_once<R: AllocGlobal + Threads + Sync, F: Folder>(
    rt: &R,
    folder: &mut F,
) -> Result<String, Fail>
    requires { F.made folder.old ≡ [] }
{
    let alloc = rt.alloc();
    let mut output = MemorySink::new(alloc, Vec::new(alloc), Vec::new(alloc));
    let checked = check_folder(rt, folder, None, &mut output, &mut Unwatched);
    written_told(alloc, end_word(checked.end), output.bytes())
}

#[test]
fn three_thousand_files_have_the_lines_that_they_have_one_by_one(
    rt: HostRuntime,
) -> Result<(), Fail> {
    make_files(&rt, "many")?;
    let mut folder = match RealHost::looking(rt).folder("many") {
        Ok(folder) => folder,
        Err(_) => return Err(Fail::from("a folder")),
    };
    let found = at_once(&rt, &mut folder)?;
    let want = one_by_one(&rt)?;
    same_text(&rt, found.as_str(), want.as_str(), "3,000 files");
    Ok(())
}

/// What is shown of the progress of a check: `JUDGED/OF` after each file with which the number of judged files rose, and
/// `OF.` at the end.
#[derive(Drop)]
struct Notes {
    text: String,
    judged: usize,
}

// Appends a number of files and a sign.
fn note(text: &mut String, number: usize, sign: char) {
    if number < 1_000_000 {
        let digits = Text::of_number(number as u32);
        let _ = text.push_str(digits.as_str());
        let _ = text.push(sign);
    }
}

impl Progress for Notes {
    fn looked(&mut self, waiting: usize, looked: usize, of: usize) {
        let judged = looked.saturating_sub(waiting);
        if judged > self.judged {
            self.judged = judged;
            note(&mut self.text, judged, '/');
            note(&mut self.text, of, ' ');
        }
    }

    fn ended(&mut self, files: usize) {
        note(&mut self.text, files, '.');
    }
}

// The most bytes of a batch, the files, and what is shown of the progress.
const BATCHES: &str = "\
0|a.keyring=00 b.keyring=0000 c.keyring=00|1/3 2/3 3.
2|a.keyring=00 b.keyring=0000 c.keyring=00|1/3 2/3 3.
3|a.keyring=00 b.keyring=0000 c.keyring=00|2/3 3.
4|a.keyring=00 b.keyring=0000 c.keyring=00|3.
9||0.
";

fn batches_told<R: AllocGlobal + Threads + Sync>(
    rt: &R,
    most: usize,
    files: &str,
) -> Result<String, Fail> {
    let alloc = rt.alloc();
    let mut folder = folder_of(alloc, files, Vec::new(alloc))?;
    let mut output = MemorySink::new(alloc, Vec::new(alloc), Vec::new(alloc));
    let mut notes = Notes {
        text: String::new(alloc),
        judged: 0,
    };
    let _ = check_within(rt, &mut folder, None, &mut output, &mut notes, most);
    Ok(notes.text)
}

#[test]
fn a_batch_has_files_up_to_its_limit_or_one_file(rt: HostRuntime) -> Result<(), Fail> {
    for row in BATCHES.lines() {
        let most = cell(row, '|', 0).parse::<usize>().ok().ok_or("a number")?;
        let found = batches_told(&rt, most, cell(row, '|', 1))?;
        same_text(&rt, found.as_str(), cell(row, '|', 2), row);
    }
    Ok(())
}

// What a check of a folder writes in batches of about ten files.
fn in_batches<R: AllocGlobal + Threads + Sync, F: Folder>(
    rt: &R,
    folder: &mut F,
) -> Result<String, Fail>
    requires { F.made folder.old ≡ [] }
{
    let alloc = rt.alloc();
    let mut output = MemorySink::new(alloc, Vec::new(alloc), Vec::new(alloc));
    let checked = check_within(rt, folder, None, &mut output, &mut Unwatched, 700);
    written_told(alloc, end_word(checked.end), output.bytes())
}

#[test]
fn the_lines_are_the_same_in_batches_of_any_size(rt: HostRuntime) -> Result<(), Fail> {
    make_files(&rt, "batches")?;
    let mut folder = match RealHost::looking(rt).folder("batches") {
        Ok(folder) => folder,
        Err(_) => return Err(Fail::from("a folder")),
    };
    let found = in_batches(&rt, &mut folder)?;
    let want = one_by_one(&rt)?;
    same_text(&rt, found.as_str(), want.as_str(), "3,000 files");
    Ok(())
}
