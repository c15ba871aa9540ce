// The handshake, line by line.
ghost use Rattle.std.specs.Prelude.{◌≡◌, ◌≤◌, ℕ, length, drop, vec_len, IsTrue};
ghost use Rattle.std.specs.Option.{is_some};
ghost use Rattle.dbus_auth.specs.Answers.{data_line};
ghost use Rattle.dbus_auth_client.specs.Openings.{begin_line};
ghost use Rattle.kr_dialer.specs.Carrying.{LinkState, link_of};
ghost use Rattle.dbus_opening.specs.Opening.{Goes, HoldsMore, Opens, Says, TurnsOn, most_read};

use crate::refused::OpenRefused;
use dbus_auth_client::{BEGIN_LINE, Client, ClientFault, DATA_LINE, Turn, opening};
use kr_base::Bytes;
use kr_dialer::{Dialer, read_piece, send_all};
use kr_outside::Failed;
use std::alloc::AllocGlobal;
use std::sync::Wait;

/// The most bytes that are read at a time.
const MOST_READ: usize = 65_536;

// The line that begins the messages.
fn begin_line() -> &'static [u8]
    ensures { result.now ≡ begin_line }
{
    BEGIN_LINE
}

// The answer to DATA.
fn data_line() -> &'static [u8]
    ensures { result.now ≡ data_line }
{
    DATA_LINE
}

// Removes the first bytes.
fn remove_front(bytes: &mut Vec<u8>, count: usize)
    requires { count ≤ vec_len bytes.old }
    ensures { bytes.new.items ≡ drop count bytes.old.items }
{
    let len = bytes.len();
    bytes.as_mut_slice().copy_within(count..len, 0);
    bytes.truncate(len - count);
}

// Writes a piece.
fn say<D: Dialer>(link: &mut D, piece: &[u8]) -> Result<(), OpenRefused>
    requires has_dialled { IsTrue (is_some (D.dialled link.old)) }
    ensures { Says piece.now
        (link_of D.dialled D.left D.written D.faults D.is_steady link.old)
        (link_of D.dialled D.left D.written D.faults D.is_steady link.new) result }
{
    match send_all(link, piece) {
        Ok(()) => Ok(()),
        Err(Failed) => Err(OpenRefused::WriteFault),
    }
}

// Reads a piece, and appends it to the bytes that are held.
fn hold_more<D: Dialer>(
    link: &mut D,
    piece: &mut [u8],
    held: &mut Vec<u8>,
) -> Result<(), OpenRefused>
    requires room { length piece.old ≡ most_read }
    requires has_dialled { IsTrue (is_some (D.dialled link.old)) }
    ensures { HoldsMore held.old.items held.new.items
        (link_of D.dialled D.left D.written D.faults D.is_steady link.old)
        (link_of D.dialled D.left D.written D.faults D.is_steady link.new) result }
{
    let count = match read_piece(link, &mut *piece) {
        Ok(count) => count,
        Err(Failed) => return Err(OpenRefused::ReadFault),
    };
    if count == 0 {
        return Err(OpenRefused::Handshake(ClientFault::EndedEarly));
    }
    match held.extend_from_slice(&piece[..count]) {
        Ok(()) => Ok(()),
        Err(_) => Err(OpenRefused::OutOfMemory),
    }
}

// Looks at the line that the held bytes begin with: answers it, or reads more of it. It returns whether the
// messages have begun; the bytes that are held are then those after the line.
fn turn<D: Dialer>(
    client: &mut Client,
    held: &mut Vec<u8>,
    link: &mut D,
    piece: &mut [u8],
) -> Result<bool, OpenRefused>
    requires room { length piece.old ≡ most_read }
    requires has_dialled { IsTrue (is_some (D.dialled link.old)) }
    ensures { (uid : ℕ) (start : LinkState)
        → Goes uid client.old.asked held.old.items start
        (link_of D.dialled D.left D.written D.faults D.is_steady link.old)
        → TurnsOn uid client.new.asked held.new.items start
        (link_of D.dialled D.left D.written D.faults D.is_steady link.new) result }
{
    match client.turn(held.as_slice()) {
        Turn::Waits => {
            if let Err(refused) = hold_more(link, &mut *piece, held) {
                return Err(refused);
            }
            Ok(false)
        }
        Turn::SaysData(size) => {
            if let Err(refused) = say(link, data_line()) {
                return Err(refused);
            }
            remove_front(held, size);
            Ok(false)
        }
        Turn::Begins(_, size) => {
            if let Err(refused) = say(link, begin_line()) {
                return Err(refused);
            }
            remove_front(held, size);
            Ok(true)
        }
        Turn::Refused(fault) => Err(OpenRefused::Handshake(fault)),
    }
}

// The handshake, with a buffer for a piece.
fn open_by<R: AllocGlobal + Wait, D: Dialer>(
    rt: &R,
    uid: u32,
    link: &mut D,
    piece: &mut [u8],
) -> Result<Bytes, OpenRefused>
    requires room { length piece.old ≡ most_read }
    requires has_dialled { IsTrue (is_some (D.dialled link.old)) }
    ensures { Opens uid
        (link_of D.dialled D.left D.written D.faults D.is_steady link.old)
        (link_of D.dialled D.left D.written D.faults D.is_steady link.new) result }
{
    let mut client = Client::new();
    let mut held = Vec::new(rt.alloc());
    if let Err(refused) = say(link, opening(uid).as_slice()) {
        return Err(refused);
    }
    for _ in rt.forever() {
        let has_begun = match turn(&mut client, &mut held, link, &mut *piece) {
            Ok(has_begun) => has_begun,
            Err(refused) => return Err(refused),
        };
        if has_begun {
            return Ok(Bytes::new(held));
        }
    }
    unreachable!()
}

/// The client's half of the handshake for this user: writes the opening, and answers each line of the server, reading at
/// most 65,536 bytes at a time. Returns what was read after the line by which the server accepted the user.
///
/// Refused with `Handshake` if a line of the server refuses the user or is no answer, or if the input ended before the user was
/// accepted (`EndedEarly`); with `ReadFault` and `WriteFault` only if the link's count of faults rose; and with
/// `OutOfMemory`.
pub fn open_link<R: AllocGlobal + Wait, D: Dialer>(
    rt: &R,
    uid: u32,
    link: &mut D,
) -> Result<Bytes, OpenRefused>
    requires has_dialled { IsTrue (is_some (D.dialled link.old)) }
    ensures { Opens uid
        (link_of D.dialled D.left D.written D.faults D.is_steady link.old)
        (link_of D.dialled D.left D.written D.faults D.is_steady link.new) result }
{
    let Ok(mut piece) = vec![in rt.alloc(); 0; MOST_READ] else {
        return Err(OpenRefused::OutOfMemory);
    };
    open_by(rt, uid, link, &mut piece)
}
