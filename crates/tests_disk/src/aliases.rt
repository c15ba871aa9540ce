use crate::checks::{cell, same_text};
use crate::words::joined;
use alias_text::read_aliases;
use std::alloc::Global;
use std::test::Fail;

// The byte that a sign means: `;` is a line ending, `^` a carriage return, `~` a byte that isn't
// in any UTF-8.
fn byte_of(sign: u8) -> u8 {
    match sign {
        b';' => b'\n',
        b'^' => b'\r',
        b'~' => 0xff,
        other => other,
    }
}

// The bytes that a row stands for.
fn bytes_of(alloc: Global, row: &str) -> Result<Vec<u8>, Fail> {
    let mut bytes = Vec::new(alloc);
    for sign in row.as_bytes() {
        bytes.push(byte_of(*sign))?;
    }
    Ok(bytes)
}

// The pairs that are read from the bytes, each as `A=STEM;`.
fn read(alloc: Global, bytes: &[u8]) -> Result<String, Fail> {
    let mut told = String::new(alloc);
    for (name, stem) in &read_aliases(alloc, bytes)? {
        let pair = joined(alloc, &[name.as_str(), "=", stem.as_str(), ";"])?;
        told.push_str(pair.as_str())?;
    }
    Ok(told)
}

// The bytes of the file, and the aliases: names come in byte order, of equal names the later one
// counts, and what isn't ended by a line ending is not a line.
const TEXTS: &str = "\
|
default=login;|default=login;
b=x;a=y;b=z;|a=y;b=z;
a=x;b=y|a=x;
a=my_20keyring;b=_c3_a9;|a=my keyring;b=é;
a=my keyring;b=_C3_A9;c=_2f;d=_ff;e=_00;|
;^;=x;a=;a b=x;a-b=x; a=x;a=x^;|
a==x;a=x=y;a=_3d;|a==;
~=x;a=~;A_1=x1;|A_1=x1;
a123456789b123456789c123456789d123456789e123456789f1234567890123=x;|\
a123456789b123456789c123456789d123456789e123456789f1234567890123=x;
a123456789b123456789c123456789d123456789e123456789f12345678901234=x;|
";

fn row_read(alloc: Global, row: &str) -> Result<String, Fail> {
    read(alloc, bytes_of(alloc, cell(row, '|', 0))?.as_slice())
}

#[test]
fn a_line_gives_an_alias_or_is_skipped(rt: HostRuntime) -> Result<(), Fail> {
    for row in TEXTS.lines() {
        let found = row_read(rt.alloc(), row)?;
        same_text(&rt, found.as_str(), cell(row, '|', 1), row);
    }
    Ok(())
}

// What is read from a file with one alias and this many bytes.
fn long_read(alloc: Global, len: usize) -> Result<String, Fail> {
    let mut bytes = b"a=x\n".as_slice().to_vec(alloc)?;
    bytes.resize(len, b'\n')?;
    read(alloc, bytes.as_slice())
}

#[test]
fn a_longer_file_gives_no_aliases(rt: HostRuntime) -> Result<(), Fail> {
    let longest = long_read(rt.alloc(), 1_048_576)?;
    same_text(&rt, longest.as_str(), "a=x;", "1,048,576 bytes");
    let longer = long_read(rt.alloc(), 1_048_577)?;
    same_text(&rt, longer.as_str(), "", "1,048,577 bytes");
    Ok(())
}
