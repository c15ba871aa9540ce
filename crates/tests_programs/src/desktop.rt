// A usual desktop: a keyring of 200 items, over a real folder with two more of them.

use crate::answered::LOGIN;
use crate::answers::written_on;
use crate::checks::same_bytes;
use crate::locked::OTHER;
use crate::parts::{bytes_of, change, spelled};
use kr_outside::{Folder, Host, Listener};
use real_edges::RealHost;
use std::alloc::{AllocGlobal, Global};
use std::fs;
use std::ops::Range;
use std::process::Abort;
use std::sync::Wait;
use std::test::Fail;
use std::thread::Threads;

// Parts of its conversations, as those of the others. The serials, and the four digits `~~~~` of an item, are filled in: a client
// keeps an item for a user, searches by the schema and the user, and gets the secret.
pub const PARTS: &str = "\
KEEPUSER [6c010001d4000000000000009400000001016f0029000000]/org/freedesktop/secrets/collection/logi\
n[000000000000000201730021000000]org.freedesktop.Secret.Collection[00000000000000030173000a000000]C\
reateItem[000000000000080167000e]a{sv}(oayays)b[0000000000790000000000000026000000]org.freedesktop.\
Secret.Item.Attributes[0005]a{ss}[000000410000000a000000]xdg:schema[000011000000]org.gnome.Network[\
00000004000000]user[0000000008000000]user~~~~[000000000000000023000000]/org/freedesktop/secrets/ses\
sion/s1[000000000008000000]pass~~~~[0a000000]text/plain[000000000000]
SEARCHUSER [6c01000149000000000000007300000001016f0018000000]/org/freedesktop/secrets[0000000000000\
000020173001e000000]org.freedesktop.Secret.Service[0000030173000b000000]SearchItems[000000000008016\
70005]a{ss}[00000000000041000000000000000a000000]xdg:schema[000011000000]org.gnome.Network[00000004\
000000]user[0000000008000000]user~~~~[00]
GETUSER [6c01000128000000000000007f00000001016f002e000000]/org/freedesktop/secrets/collection/login\
/~~~~[0000020173001b000000]org.freedesktop.Secret.Item[00000000000301730009000000]GetSecret[0000000\
000000008016700016f000023000000]/org/freedesktop/secrets/session/s1[00]
KEPTUSER [6c0201013a0000000000000010000000050175000000000008016700026f6f002e000000]/org/freedesktop\
/secrets/collection/login/~~~~[0000010000002f00]
FOUNDUSER [6c0201013c000000000000001200000005017500000000000801670004]aoao[00000000000000330000002e\
000000]/org/freedesktop/secrets/collection/login/~~~~[000000000000]
USERSECRET [6c02010147000000000000001600000005017500000000000801670008](oayays)[00000023000000]/org\
/freedesktop/secrets/session/s1[000000000008000000]pass~~~~[0a000000]text/plain[00]
NEWUSER [6c04010133000000000000008700000001016f0029000000]/org/freedesktop/secrets/collection/login\
[000000000000000201730021000000]org.freedesktop.Secret.Collection[00000000000000030173000b000000]It\
emCreated[000000000008016700016f00002e000000]/org/freedesktop/secrets/collection/login/~~~~[00]
NEWITEMS [6c0401013e000000000000008e00000001016f0029000000]/org/freedesktop/secrets/collection/logi\
n[00000000000000020173001f000000]org.freedesktop.DBus.Properties[000301730011000000]PropertiesChang\
ed[000000000000000801670008]sa{sv}as[00000021000000]org.freedesktop.Secret.Collection[0000000000000\
0000000000a00000005000000]Items[00]";

// The file `login.keyring` with the password `sesame`, as another program wrote it. Its one item is 1000, which two programs may
// access.
const DESK: &str = "\
GnomeKeyring[0a0d000a0000000000000005]Login[000000006553f100000000006553f1000000000000000000000004f\
001020304050607080000000000000000000000000000000000000001000003e800000000000000020000000a]xdg:schem\
a[0000000000000020]9bdab526e2fd1cd1cef227432546430a[00000004]user[0000000000000020]e1d3b2fc3a15d9a9\
e6e0b0b2a0800c8e[000000f0ad58b5a5b6a4a090dee9f49689128b5f57045306d0bbb6589753d91af60b37190170be0fcd\
83d9b8d5d06c2a153de580ec443cbcfd12bde3cfb4a9ed128600383c038006ba548db77856fd4d50c6d53faf9a928667bd9\
1391a8e58e599ef73cb5407ca03f7a84de6a1dd18ec34016c97adaf645fabace68b6bea6c0ee0391472e08bf77e5684cf67\
5bbacd4ce57d90fc1d13d8e868252765351909996fa68bf6c94833a56c60a0a0e4a27b4e9e59215fdf4f1cba8e2dcb1ed00\
2de428f056c1127ac]RK7)X[7f291920469e14f48f11b99038456a9a42ac5726729d7dd8abc8cfe248b144977747e495f64\
e03463b]";

// How each run begins: the keyring is unlocked.
const BEGIN: &str = "\
HELLO REGISTER PLAIN@8:02 UNLOCK@8:03@164:6c6f67696e PROMPT@8:04 ANSWERSESAME";

const BEGUN: &str = "\
OK PONG@8:01@20:01 SESSION@8:02@20:02 BEGUN@8:03@20:03 PONG@8:04@20:04 ASKOTHER@8:05@184:4c6f67696\
e PONG@8:06@20:05 CHANGELOGIN@8:07 LOCKLOGIN@8:08@224:00 OPENEDLOGIN@8:09";

// Fills in the digits of an item.
fn fill(bytes: &mut [u8], digits: &[u8]) {
    let mut place: usize = 0;
    for byte in bytes.iter_mut() {
        if *byte == b'~' {
            *byte = digits.get(place % 4).copied().unwrap_or(b'~');
            place = place.saturating_add(1);
        }
    }
}

// A part with a serial, and the item that is so many more.
fn filled(alloc: Global, part: &[u8], serial: u16, more: u16) -> Result<Vec<u8>, Fail> {
    let item = format!(in alloc; "{}", serial.saturating_add(more))?;
    let mut bytes = part.to_vec(alloc)?;
    fill(bytes.as_mut_slice(), item.as_bytes());
    Ok(bytes)
}

// Appends a call with each of the serials.
fn put_calls(
    alloc: Global,
    input: &mut Vec<u8>,
    name: &str,
    serials: Range<u16>,
    more: u16,
) -> Result<(), Fail> {
    let part = bytes_of(alloc, name)?;
    for serial in serials {
        let mut call = filled(alloc, part.as_slice(), serial, more)?;
        change(&mut call, 8, serial.to_le_bytes().as_slice());
        input.extend_from_slice(call.as_slice())?;
    }
    Ok(())
}

// Appends an output with its serial.
fn put_output(output: &mut Vec<u8>, bytes: Vec<u8>, serial: u16) -> Result<(), Fail> {
    let mut bytes = bytes;
    change(&mut bytes, 8, serial.to_le_bytes().as_slice());
    Ok(output.extend_from_slice(bytes.as_slice())?)
}

// Appends the answer to each of the calls. Four signals came before the first.
fn put_answers(
    alloc: Global,
    output: &mut Vec<u8>,
    name: &str,
    serials: Range<u16>,
    more: u16,
) -> Result<(), Fail> {
    let part = bytes_of(alloc, name)?;
    for serial in serials {
        let mut answer = filled(alloc, part.as_slice(), serial, more)?;
        change(&mut answer, 20, serial.to_le_bytes().as_slice());
        put_output(output, answer, serial.saturating_add(4))?;
    }
    Ok(())
}

// Appends the answers to calls that keep an item each, and the two signals of the item after each of them.
fn put_kept(
    alloc: Global,
    output: &mut Vec<u8>,
    serials: Range<u16>,
    more: u16,
) -> Result<(), Fail> {
    let (kept, new) = (bytes_of(alloc, "KEPTUSER")?, bytes_of(alloc, "NEWUSER")?);
    let items = bytes_of(alloc, "NEWITEMS")?;
    let mut next = serials.start.saturating_add(4);
    for serial in serials {
        let mut answer = filled(alloc, kept.as_slice(), serial, more)?;
        change(&mut answer, 20, serial.to_le_bytes().as_slice());
        put_output(output, answer, next)?;
        let signal = filled(alloc, new.as_slice(), serial, more)?;
        put_output(output, signal, next.saturating_add(1))?;
        put_output(output, items.to_vec(alloc)?, next.saturating_add(2))?;
        next = next.saturating_add(3);
    }
    Ok(())
}

// Asserts what a run over this input writes.
fn is_written<
    R: Abort + AllocGlobal + Threads + Wait + Copy + Send + Sync + Drop + 'static,
    H: Host,
>(rt: &R, host: &mut H, input: &[u8], wanted: &[u8], at: &str) -> Result<(), Fail>
where
    H::Dir: Send + 'static,
    H::Time: Send + 'static,
    <H::Dir as Folder>::Cell: Send + 'static,
    <H::Door as Listener>::In: Send + 'static,
    <H::Door as Listener>::Out: Send + 'static,
{
    let written = written_on(rt, "/stdio/desk/1000", host, input, at)?;
    same_bytes(rt, written.as_slice(), wanted, at);
    Ok(())
}

// The items 1001 to 1199 are made.
fn keeps_199<
    R: Abort + AllocGlobal + Threads + Wait + Copy + Send + Sync + Drop + 'static,
    H: Host,
>(rt: &R, host: &mut H) -> Result<(), Fail>
where
    H::Dir: Send + 'static,
    H::Time: Send + 'static,
    <H::Dir as Folder>::Cell: Send + 'static,
    <H::Door as Listener>::In: Send + 'static,
    <H::Door as Listener>::Out: Send + 'static,
{
    let mut input = bytes_of(rt.alloc(), BEGIN)?;
    let mut wanted = bytes_of(rt.alloc(), BEGUN)?;
    put_calls(rt.alloc(), &mut input, "KEEPUSER", 6..205, 995)?;
    put_kept(rt.alloc(), &mut wanted, 6..205, 995)?;
    is_written(rt, host, input.as_slice(), wanted.as_slice(), "199 items")
}

// Each of the 200 items is found, and its secret is read.
fn finds_200<
    R: Abort + AllocGlobal + Threads + Wait + Copy + Send + Sync + Drop + 'static,
    H: Host,
>(rt: &R, host: &mut H) -> Result<(), Fail>
where
    H::Dir: Send + 'static,
    H::Time: Send + 'static,
    <H::Dir as Folder>::Cell: Send + 'static,
    <H::Door as Listener>::In: Send + 'static,
    <H::Door as Listener>::Out: Send + 'static,
{
    let mut input = bytes_of(rt.alloc(), BEGIN)?;
    let mut wanted = bytes_of(rt.alloc(), BEGUN)?;
    put_calls(rt.alloc(), &mut input, "SEARCHUSER", 6..206, 994)?;
    put_calls(rt.alloc(), &mut input, "GETUSER", 206..406, 794)?;
    put_answers(rt.alloc(), &mut wanted, "FOUNDUSER", 6..206, 994)?;
    put_answers(rt.alloc(), &mut wanted, "USERSECRET", 206..406, 794)?;
    is_written(rt, host, input.as_slice(), wanted.as_slice(), "200 items")
}

fn make_desk(rt: &HostRuntime) -> Result<(), Fail> {
    fs::create_dir(rt, "desk")?;
    fs::write(rt, "desk/aliases", b"default=login\n")?;
    fs::write(
        rt,
        "desk/login.keyring",
        spelled(rt.alloc(), DESK)?.as_slice(),
    )?;
    fs::write(
        rt,
        "desk/mail.keyring",
        spelled(rt.alloc(), LOGIN)?.as_slice(),
    )?;
    fs::write(
        rt,
        "desk/other.keyring",
        spelled(rt.alloc(), OTHER)?.as_slice(),
    )?;
    Ok(())
}

#[test]
fn a_usual_desktop_is_served(rt: HostRuntime) -> Result<(), Fail> {
    make_desk(&rt)?;
    let mut host = RealHost::new(rt);
    keeps_199(&rt, &mut host)?;
    finds_200(&rt, &mut host)
}
