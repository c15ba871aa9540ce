// What is written of small folders.
ghost use Rattle.std.specs.Prelude.{◌≡◌, []};

use crate::checks::{cell, same_text};
use crate::files::{end_word, folder_of};
use kr_base::{Bytes, Text};
use kr_memory::MemorySink;
use ring_check::{Unwatched, check_folder};
use std::alloc::{AllocGlobal, Global};
use std::test::Fail;
use std::thread::Threads;

// The files, the password if there is one, how the check ends, and what is written, in which `;` stands for a line feed.
const ROWS: &str = "\
|-|done|
login.keyring=login|-|done|login.keyring: ok 0 items, created 2023-11-14T22:13:20Z, modified 2023-11-14T22:13:20Z;
login.keyring=login|test password|done|login.keyring: ok 0 items, created 2023-11-14T22:13:20Z, modified 2023-11-14T22:13:20Z;
login.keyring=login a.keyring=00|-|damaged|a.keyring: Magic;login.keyring: ok 0 items, created 2023-11-14T22:13:20Z, modified 2023-11-14T22:13:20Z;
login.keyring=login|other|done|login.keyring: other password, 0 items, created 2023-11-14T22:13:20Z, modified 2023-11-14T22:13:20Z;
login.keyring=login|test password?|done|login.keyring: other password, 0 items, created 2023-11-14T22:13:20Z, modified 2023-11-14T22:13:20Z;
c.keyring=changed|-|done|c.keyring: ok 0 items, created 2023-11-14T22:13:20Z, modified 2023-11-14T22:13:20Z;
c.keyring=changed|test password|done|c.keyring: other password, 0 items, created 2023-11-14T22:13:20Z, modified 2023-11-14T22:13:20Z;
i.keyring=item|-|done|i.keyring: ok 1 items, created 2023-11-14T22:13:20Z, modified 2023-11-14T22:13:20Z;
i.keyring=item|test password|damaged|i.keyring: area Short;
c.keyring=cut|-|damaged|c.keyring: Short;
c.keyring=longer|-|damaged|c.keyring: Trailing;
c.keyring=odd|-|damaged|c.keyring: AreaLength;
s.keyring=slow|-|damaged|s.keyring: TooManyIterations;
a.keyring=00 a-b.keyring=00 B.keyring=00|-|damaged|B.keyring: Magic;a-b.keyring: Magic;a.keyring: Magic;
.keyring=00|-|damaged|.keyring: Magic;
aliases=00 a.keyring.old=00 a.keyring~=00 keyring=00 a.Keyring=00|-|done|
a.keyring=00 b.keyring=large c.keyring=00|-|damaged|a.keyring: Magic;b.keyring: TooLarge;c.keyring: Magic;
";

// The password that a cell means.
fn password_of(alloc: Global, word: &str) -> Result<Option<Bytes>, Fail> {
    if word == "-" {
        return Ok(None);
    }
    // `?` is the line feed that doesn't belong to a password.
    let mut password = Vec::new(alloc);
    for byte in word.as_bytes() {
        password.push(if *byte == b'?' { b'\n' } else { *byte })?;
    }
    Ok(Some(Bytes::new(password)))
}

// How the check ends, and what it writes.
fn told<R: AllocGlobal + Threads + Sync>(
    rt: &R,
    files: &str,
    password: &str,
) -> Result<String, Fail> {
    let alloc = rt.alloc();
    let password = password_of(alloc, password)?;
    let mut folder = folder_of(alloc, files, Vec::new(alloc))?;
    let mut output = MemorySink::new(alloc, Vec::new(alloc), Vec::new(alloc));
    let checked = check_folder(
        rt,
        &mut folder,
        password.as_ref(),
        &mut output,
        &mut Unwatched,
    );
    written_told(alloc, end_word(checked.end), output.bytes())
}

/// A word, a bar, and what was written, with `;` for each line feed.
pub fn written_told(alloc: Global, end: &str, written: &[u8]) -> Result<String, Fail> {
    let text = Text::from_utf8(written.to_vec(alloc)?).ok_or("a text")?;
    let mut told = String::from_str(alloc, end)?;
    told.push('|')?;
    for part in text.as_str().split('\n') {
        told.push_str(part)?;
        told.push(';')?;
    }
    let _ = told.pop();
    Ok(told)
}

#[test]
fn each_file_has_its_line_and_each_check_its_end(rt: HostRuntime) -> Result<(), Fail> {
    for row in ROWS.lines() {
        let found = told(&rt, cell(row, '|', 0), cell(row, '|', 1))?;
        let (_, want) = row.split_once('|').ok_or("a row")?;
        let (_, want) = want.split_once('|').ok_or("a row")?;
        same_text(&rt, found.as_str(), want, row);
    }
    Ok(())
}
