// Prompts that are answered on one thread: the calls of a client, and what is written to it.

use crate::checks::{cell, length, same_bytes, same_number};
use crate::connection::{answers_of, bytes_of, events_of, plain_sink, push_digits, source_of};
use std::alloc::{AllocGlobal, Global};
use std::process::Abort;
use std::sync::Wait;
use std::test::Fail;

// Register, serial 1.
const REGISTER: &str = "\
6c01000100000000010000005900000001016f001e0000002f6f72672f667265656465736b746f702f73656372\
6574732f6167656e74000002017300130000006f72672e6b657972696e67642e4167656e743100000000000301\
73000800000052656769737465720000000000000000";

// CreateCollection with the label My Keys and no alias, serial 2.
const CREATE: &str = "\
6c01000149000000020000007c00000001016f00180000002f6f72672f667265656465736b746f702f73656372\
6574730000000000000000020173001e0000006f72672e667265656465736b746f702e5365637265742e536572\
7669636500000301730010000000437265617465436f6c6c656374696f6e00000000000000000801670006617b\
73767d7300000000003c00000000000000270000006f72672e667265656465736b746f702e5365637265742e43\
6f6c6c656374696f6e2e4c6162656c0001730000070000004d79204b657973000000000000";

// Prompt, serial 3.
const PROMPT: &str = "\
6c01000105000000030000006f00000001016f00220000002f6f72672f667265656465736b746f702f73656372\
6574732f70726f6d70742f7031000000000000020173001d0000006f72672e667265656465736b746f702e5365\
637265742e50726f6d7074000000030173000600000050726f6d7074000008016700017300000000000000";

// Answer in round 1 with the password sesame, serial 4.
const ANSWER: &str = "\
6c0100013a000000040000006200000001016f001e0000002f6f72672f667265656465736b746f702f73656372\
6574732f6167656e74000002017300130000006f72672e6b657972696e67642e4167656e743100000000000301\
730006000000416e73776572000008016700046f74617900000000000000220000002f6f72672f667265656465\
736b746f702f736563726574732f70726f6d70742f70310000010000000000000006000000736573616d65";

// The reply to Register as the first output.
const REGISTERED: &str = "\
6c0201010000000001000000080000000501750001000000";

// The reply to CreateCollection as the second output: no collection, and prompt 1.
const CREATED: &str = "\
6c0201012f0000000200000010000000050175000200000008016700026f6f00010000002f000000220000002f\
6f72672f667265656465736b746f702f736563726574732f70726f6d70742f703100";

// The reply to Prompt as the third output.
const PROMPTED: &str = "\
6c0201010000000003000000080000000501750003000000";

// Ask as the fourth output: prompt 1 in round 1, for a password to create My Keys.
const ASKED: &str = "\
6c0401014c000000040000006300000001016f001e0000002f6f72672f667265656465736b746f702f73656372\
6574732f6167656e74000002017300130000006f72672e6b657972696e67642e4167656e743100000000000301\
73000300000041736b000000000008016700056f74737375000000000000220000002f6f72672f667265656465\
736b746f702f736563726574732f70726f6d70742f703100000100000000000000060000006372656174650000\
070000004d79204b6579730000000000";

// The reply to Answer as the fifth output.
const ANSWERED: &str = "\
6c0201010000000005000000080000000501750004000000";

// CollectionCreated as the sixth output, with the collection My_5fKeys.
const MADE: &str = "\
6c04010132000000060000007700000001016f00180000002f6f72672f667265656465736b746f702f73656372\
6574730000000000000000020173001e0000006f72672e667265656465736b746f702e5365637265742e536572\
7669636500000301730011000000436f6c6c656374696f6e437265617465640000000000000008016700016f00\
002d0000002f6f72672f667265656465736b746f702f736563726574732f636f6c6c656374696f6e2f4d795f35\
664b65797300";

// PropertiesChanged as the seventh output: the service has other Collections.
const CHANGED: &str = "\
6c0401013c000000070000007e00000001016f00180000002f6f72672f667265656465736b746f702f73656372\
6574730000000000000000020173001f0000006f72672e667265656465736b746f702e444275732e50726f7065\
727469657300030173001100000050726f706572746965734368616e6765640000000000000008016700087361\
7b73767d61730000001e0000006f72672e667265656465736b746f702e5365637265742e536572766963650000\
00000000100000000b000000436f6c6c656374696f6e7300";

// Completed as the eighth output, with the collection My_5fKeys.
const COMPLETED: &str = "\
6c0401013a000000080000007800000001016f00220000002f6f72672f667265656465736b746f702f73656372\
6574732f70726f6d70742f7031000000000000020173001d0000006f72672e667265656465736b746f702e5365\
637265742e50726f6d70740000000301730009000000436f6d706c657465640000000000000008016700026276\
0000000000016f00002d0000002f6f72672f667265656465736b746f702f736563726574732f636f6c6c656374\
696f6e2f4d795f35664b65797300";

// AccessDenied in reply to Answer as the first output.
const DENIED: &str = "\
6c03010100000000010000003800000004017300270000006f72672e667265656465736b746f702e444275732e\
4572726f722e41636365737344656e696564000501750004000000";

// NoSuchObject in reply to Answer as the second output.
const MISSING: &str = "\
6c03010100000000020000004000000004017300290000006f72672e667265656465736b746f702e5365637265\
742e4572726f722e4e6f537563684f626a656374000000000000000501750004000000";

// The digits of a call or of an output.
fn digits_of(word: &str) -> &'static str {
    match word {
        "Register" => REGISTER,
        "CreateCollection" => CREATE,
        "Prompt" => PROMPT,
        "Answer" => ANSWER,
        "registered" => REGISTERED,
        "created" => CREATED,
        "prompted" => PROMPTED,
        "Ask" => ASKED,
        "answered" => ANSWERED,
        "CollectionCreated" => MADE,
        "PropertiesChanged" => CHANGED,
        "Completed" => COMPLETED,
        "AccessDenied" => DENIED,
        "NoSuchObject" => MISSING,
        _ => "",
    }
}

// The name, the calls, what is written, and how many events are stored since the last cut. The key of a
// password that was taken is derived at once, and a cut comes before it is recorded.
const CONVERSATIONS: &str = "\
an agent makes a collection|Register,CreateCollection,Prompt,Answer|registered,created,prompted,Ask,answered,CollectionCreated,PropertiesChanged,Completed|3
a connection that isn't the agent answers|Answer|AccessDenied|4
there is no such prompt|Register,Answer|registered,NoSuchObject|6
";

/// Appends the calls or the outputs with these names.
pub fn push_all(bytes: &mut Vec<u8>, alloc: Global, words: &str) -> Result<(), Fail> {
    for word in words.split(',') {
        push_digits(bytes, alloc, digits_of(word))?;
    }
    Ok(())
}

// What a client sends that does the handshake and then calls these.
fn sent(alloc: Global, words: &str) -> Result<Vec<u8>, Fail> {
    let mut input = bytes_of(alloc, "^AUTH EXTERNAL 31303030~BEGIN~")?;
    push_all(&mut input, alloc, words)?;
    Ok(input)
}

// What is written to it.
fn written(alloc: Global, words: &str) -> Result<Vec<u8>, Fail> {
    let mut output = answers_of(alloc, "OK")?;
    push_all(&mut output, alloc, words)?;
    Ok(output)
}

fn is_served<R: AllocGlobal + Wait + Abort>(rt: &R, is_cut: bool, row: &str) -> Result<(), Fail> {
    let mut source = source_of(rt.alloc(), sent(rt.alloc(), cell(row, 1))?, is_cut)?;
    let mut sink = plain_sink(rt.alloc());
    let events = events_of(rt, &mut source, &mut sink)?;
    let wanted = written(rt.alloc(), cell(row, 2))?;
    same_bytes(rt, sink.bytes(), wanted.as_slice(), row);
    same_number(rt, events, length(cell(row, 3))? as u64, row);
    Ok(())
}

#[test]
fn a_prompt_is_answered_on_one_thread(rt: HostRuntime) -> Result<(), Fail> {
    for row in CONVERSATIONS.lines() {
        is_served(&rt, false, row)?;
        is_served(&rt, true, row)?;
    }
    Ok(())
}
