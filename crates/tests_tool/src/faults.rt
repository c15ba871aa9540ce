// Each stream of the tool fails once.
ghost use Rattle.std.specs.Prelude.{◌≡◌, IfOk, None};

use crate::checks::{cell, lengths, number, numbers, same_text};
use client_tool::tool;
use dialers::JoinedDialer;
use kr_base::Text;
use kr_memory::{MemorySink, MemorySource};
use std::alloc::{AllocGlobal, Global};
use std::sync::Wait;
use std::test::Fail;

// What a service sends to `lookup user ann`, as another program marshals it: OK, a session, the path of one match, and
// the secret `pw`.
const REPLIES: &str = "\
4f4b2030303030303030303030303030303030303030303030303030303030303030300d0a6c02000134000000010000\
001000000005017500010000000801670002766f00017300000000000000000000230000002f6f72672f667265656465\
736b746f702f736563726574732f73657373696f6e2f7331006c02000134000000020000001200000005017500020000\
000801670004616f616f000000000000002c000000270000002f6f72672f667265656465736b746f702f736563726574\
732f636f6c6c656374696f6e2f612f3100000000006c0200014300000003000000160000000501750003000000080167\
0008286f617961797329000000230000002f6f72672f667265656465736b746f702f736563726574732f73657373696f\
6e2f7331000000000002000000707700000a000000746578742f706c61696e00";

// A row has the words of a command; how many bytes of the replies come, in pieces of which lengths; which reads of them,
// which writes, which prints and which reads of the secret fail; and whether the socket can't be dialled. After them are
// the status, how many bytes were written, and what is printed.
const ROWS: &str = "\
lookup user ann;320;;;;;;0;0 515 pw
lookup user ann;320;1 1 30 1 1 200;;;;;0;0 515 pw
lookup user ann;320;;;;;;1;3 0 
lookup user ann;320;;0;;;;0;3 19 
lookup user ann;320;37;1;;;;0;3 175 
lookup user ann;320;37 84;2;;;;0;3 339 
lookup user ann;320;;;0;;;0;3 0 
lookup user ann;320;;;1;;;0;3 19 
lookup user ann;320;;;3;;;0;3 175 
lookup user ann;320;;;;0;;0;4 515 
lookup user ann;0;;;;;;0;6 19 
lookup user ann;36;;;;;;0;6 19 
lookup user ann;37;;;;;;0;6 175 
lookup user ann;319;;;;;;0;6 515 
search user ann;320;;;;;;0;6 190 
store Mail user ann;320;;;;;0;0;8 0 
store Mail user ann;320;;;;;1;0;8 0 
";

fn words_of(alloc: Global, command: &str) -> Result<Vec<Text>, Fail> {
    let mut words = Vec::new(alloc);
    words.push(Text::from_str(alloc, "socket")?.ok_or("a text")?)?;
    words.push(Text::from_str(alloc, "0")?.ok_or("a text")?)?;
    for word in command.split(' ') {
        words.push(Text::from_str(alloc, word)?.ok_or("a text")?)?;
    }
    Ok(words)
}

// The link of a row, which hasn't been dialled.
fn link_of(alloc: Global, row: &str) -> Result<JoinedDialer<MemorySource, MemorySink>, Fail>
    ensures { IfOk result (λ link. link.dialled ≡ None) }
{
    let mut replies = hex::decode(alloc, REPLIES).ok().ok_or("hex")?;
    replies.truncate(number(cell(row, 1))? as usize);
    let pieces = lengths(alloc, cell(row, 2))?;
    let input = MemorySource::new(replies, pieces, numbers(alloc, cell(row, 3))?);
    let output = MemorySink::new(alloc, Vec::new(alloc), numbers(alloc, cell(row, 4))?);
    let refuses = cell(row, 7) == "1";
    Ok(JoinedDialer::new(alloc, input, output, refuses))
}

// The status of a row, the number of bytes written, and what is printed.
fn found_in<R: AllocGlobal + Wait>(rt: &R, row: &str) -> Result<String, Fail> {
    let alloc = rt.alloc();
    let words = words_of(alloc, cell(row, 0))?;
    let mut dialer = link_of(alloc, row)?;
    let mut output = MemorySink::new(alloc, Vec::new(alloc), numbers(alloc, cell(row, 5))?);
    let secret = Vec::from_slice(alloc, b"pw")?;
    let mut input = MemorySource::new(secret, Vec::new(alloc), numbers(alloc, cell(row, 6))?);
    let status = tool(rt, words.as_slice(), &mut input, &mut output, &mut dialer);
    let number = status.number();
    let written = dialer.output().bytes().len();
    let printed = String::from_utf8_lossy(alloc, output.bytes())?;
    Ok(format!(in alloc; "{number} {written} {printed}")?)
}

#[test]
fn each_stream_fails_with_its_status(rt: HostRuntime) -> Result<(), Fail> {
    for row in ROWS.lines() {
        let found = found_in(&rt, row)?;
        same_text(&rt, found.as_str(), cell(row, 8), row);
    }
    Ok(())
}
