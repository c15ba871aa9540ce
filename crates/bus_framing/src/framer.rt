// Messages out of the bytes of a link.
ghost use Rattle.std.specs.Prelude.{◌≡◌, ◌+◌, ◌-◌, ◌≤◌, ◌++◌, [], length, drop, vec_len, IfOk, IfErr, IfSome, IfNone, OnOk, OnErr};
ghost use Rattle.bus_framing.specs.Looks.{look_at, look_of, said_of};
ghost use Rattle.bus_framing.specs.Links.{HearsNext, IsLinked, IsRefusal, Waits, at_start, beyond, fed_with, is_between};

use crate::heard::Heard;
use crate::looking::{Look, look_at};
use dbus_framing::{FieldTypes, FrameRefused, OutOfMemory};
use std::alloc::Global;
use std::marker::Model;

/// The room that an empty buffer may keep.
const KEPT_ROOM: usize = 65_536;

/// Takes messages out of bytes that come in any pieces. A contract sees the bytes that no message has
/// consumed, and how many of the bytes that are fed next belong to a body that is skipped.
#[derive(Drop)]
pub struct LinkFramer {
    // The bytes fed, from the first one that is kept.
    fed: Vec<u8>,
    // How many of them messages have consumed.
    start: usize,
    // How many bytes of a body are still to be skipped.
    skipped: usize,
    // Made at the first look.
    types: Option<FieldTypes>,
}

impl Model for LinkFramer {
    ghost use Rattle.bus_framing.specs.Links.{Linking};

    ghost Value = { Linking };

    ghost use Rattle.std.specs.Prelude.{drop};

    ghost view = { λ framer. record {
      left = drop framer.start framer.fed.items;
      debt = framer.skipped;
    } };

    ghost use Rattle.bus_framing.specs.Links.{IsHeld};

    ghost invariant = { λ framer. IsHeld framer.fed.items framer.start framer.skipped };
}

// Removes the first bytes, which are at least half of all: so the others are copied to the front at
// once, since they don't overlap the bytes that they replace.
fn remove_front(bytes: &mut Vec<u8>, count: usize)
    requires within { count ≤ vec_len bytes.old }
    requires half { vec_len bytes.old ≤ count + count }
    ensures { bytes.new.items ≡ drop count bytes.old.items }
{
    let left = bytes.len() - count;
    let (front, others) = bytes.as_mut_slice().split_at_mut(count);
    front[..left].copy_from_slice(others);
    bytes.truncate(left);
}

// Removes the bytes that messages consumed, and frees a large buffer if no byte is left.
fn let_go(bytes: &mut Vec<u8>, taken: usize)
    requires within { taken ≤ vec_len bytes.old }
    requires half { vec_len bytes.old ≤ taken + taken }
    ensures { bytes.new.items ≡ drop taken bytes.old.items }
{
    if taken == 0 {
        return;
    }
    remove_front(bytes, taken);
    if bytes.is_empty() && bytes.capacity() > KEPT_ROOM {
        let alloc = *bytes.allocator();
        *bytes = Vec::new(alloc);
    }
}

// Removes the bytes that messages consumed, unless there are more other bytes, which would have to
// be moved: in that case it returns the position of these.
fn make_room(bytes: &mut Vec<u8>, taken: usize) -> usize
    requires { taken ≤ vec_len bytes.old }
    ensures rest { drop result bytes.new.items ≡ drop taken bytes.old.items }
    ensures few { result + result ≤ length bytes.new.items }
{
    if taken < bytes.len() - taken {
        return taken;
    }
    let_go(bytes, taken);
    0
}

impl LinkFramer {
    /// A framer to which nothing was fed. It takes no memory.
    pub fn new(alloc: Global) -> LinkFramer
        ensures { result ≡ at_start }
    {
        LinkFramer {
            fed: Vec::new(alloc),
            start: 0,
            skipped: 0,
            types: None,
        }
    }

    /// Adds more bytes of the link.
    ///
    /// Refused with `OutOfMemory`; nothing has changed then.
    pub fn feed(&mut self, piece: &[u8]) -> Result<(), OutOfMemory>
        ensures fed { OnOk result (self.new ≡ fed_with piece.now self.old) }
        ensures unchanged { OnErr result (self.new ≡ self.old) }
    {
        if piece.len() <= self.skipped {
            self.skipped -= piece.len();
            return Ok(());
        }
        self.fed.extend_from_slice(&piece[self.skipped..])?;
        self.skipped = 0;
        Ok(())
    }

    // Lets a message of this many bytes go, of which some may not be there yet.
    fn pass(&mut self, size: usize)
        requires { self.old.debt ≡ 0 }
        ensures { self.new ≡ beyond size self.old.left }
    {
        let held = self.fed.len() - self.start;
        if size <= held {
            self.start = make_room(&mut self.fed, self.start + size);
            return;
        }
        self.start = make_room(&mut self.fed, self.start + held);
        self.skipped = size - held;
    }

    // What the bytes that no message has consumed begin with.
    fn look(&mut self) -> Result<Look, OutOfMemory>
        ensures look { IfOk result (λ look.
            look_of look ≡ look_at self.old.left) }
        ensures linked { IsLinked self.old }
        ensures same { self.new ≡ self.old }
    {
        let alloc = *self.fed.allocator();
        let types = match self.types.take() {
            Some(types) => types,
            None => FieldTypes::new(alloc)?,
        };
        let (_, rest) = self.fed.as_slice().split_at(self.start);
        let look = look_at(alloc, &types, rest);
        self.types = Some(types);
        look
    }

    /// The next message of the link: one that isn't heard is passed over.
    ///
    /// None if more bytes are awaited. Refused with a violation that the header of a message shows, and with
    /// `OutOfMemory`.
    pub fn next(&mut self) -> Result<Option<Heard>, FrameRefused>
        ensures waits { IfOk result (λ found. IfNone found (Waits self.old self.new)) }
        ensures heard { IfOk result (λ found. IfSome found (λ heard.
            HearsNext self.old (said_of heard) self.new)) }
        ensures refused { IfErr result (λ refusal. IsRefusal self.old refusal self.new) }
    {
        'messages: loop {
            let look = self.look()?;
            match look {
                Look::Waits => return Ok(None),
                Look::Broken(cause) => return Err(FrameRefused::Violation(cause)),
                Look::Passes(size) => self.pass(size),
                Look::Hears(size, heard) => {
                    self.pass(size);
                    return Ok(Some(heard));
                }
            }
        }
    }

    /// Whether all bytes fed are those of complete messages, as far as they were looked at.
    pub fn is_between(&self) -> bool
        ensures { result ≡ is_between self.now }
    {
        self.skipped == 0 && self.start == self.fed.len()
    }
}
