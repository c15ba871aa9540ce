// What clients send.

use std::alloc::Global;
use std::test::Fail;

// The handshake of user 1000.
const HANDSHAKE: &[u8] = b"\0AUTH EXTERNAL 31303030\r\nBEGIN\r\n";

// OpenSession, whose reply has 84 bytes.
const OPEN_SESSION: &str = "\
6c01000115000000010000007000000001016f00180000002f6f72672f667265656465736b746f702f7365637265\
74730000000000000000020173001e0000006f72672e667265656465736b746f702e5365637265742e5365727669\
63650000030173000b0000004f70656e53657373696f6e0000000000080167000273760005000000706c61696e00\
0173000000000000000000";

// Get of the property Label of the collection `large`, whose reply has more than 1,000,000 bytes.
const GET_LABEL: &str = "\
6c01000132000000020000007800000001016f00290000002f6f72672f667265656465736b746f702f7365637265\
74732f636f6c6c656374696f6e2f6c6172676500000000000000020173001f0000006f72672e667265656465736b\
746f702e444275732e50726f70657274696573000301730003000000476574000000000008016700027373002100\
00006f72672e667265656465736b746f702e5365637265742e436f6c6c656374696f6e000000050000004c616265\
6c00";

// Appends the bytes that these digits spell.
fn push(alloc: Global, bytes: &mut Vec<u8>, digits: &str) -> Result<(), Fail> {
    let more = hex::decode(alloc, digits).ok().ok_or("hex")?;
    Ok(bytes.extend_from_slice(more.as_slice())?)
}

// Appends the calls of a client whose replies have 17,000,000 bytes: after some of them were taken at once, more
// wait than may.
fn push_large_calls(alloc: Global, bytes: &mut Vec<u8>) -> Result<(), Fail> {
    for _ in 0..17 {
        push(alloc, bytes, GET_LABEL)?;
    }
    Ok(())
}

// Appends what a client sends after the handshake: nothing, or OpenSession, and then those other calls.
fn push_calls(alloc: Global, bytes: &mut Vec<u8>, word: &str) -> Result<(), Fail> {
    if word == "handshake" {
        return Ok(());
    }
    push(alloc, bytes, OPEN_SESSION)?;
    if word == "large" {
        return push_large_calls(alloc, bytes);
    }
    Ok(())
}

/// What a client sends: `handshake` alone, or a `call` after it, or also calls whose replies are `large`; `nothing`
/// is no handshake.
pub fn sent_by(alloc: Global, word: &str) -> Result<Vec<u8>, Fail> {
    let mut bytes = Vec::new(alloc);
    if word == "nothing" {
        bytes.push(b'x')?;
        return Ok(bytes);
    }
    bytes.extend_from_slice(HANDSHAKE)?;
    push_calls(alloc, &mut bytes, word)?;
    Ok(bytes)
}
