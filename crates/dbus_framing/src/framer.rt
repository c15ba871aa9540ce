ghost use Rattle.std.specs.Prelude.{◌≡◌, ◌+◌, ◌≤◌, ◌<◌, ℕ, List, [], ◌∷◌, ◌++◌, length, drop, take, vec_len, None, Some, Ok, Err, IfOk, IfErr, IfSome, IfNone, OnOk, OnErr};
ghost use Rattle.dbus_framing.specs.declared.violation.Violation.{Violation};
ghost use Rattle.dbus_framing.specs.declared.violation.FrameRefused.TheVariants as refused;
ghost use Rattle.dbus_framing.specs.Messages.{parts_of, head_of};
ghost use Rattle.dbus_framing.specs.Streams.{Cut, Stream, BreaksNone};
ghost use Rattle.dbus_framing.specs.Framers.{Framing, HoldsFew, IsKnown, IsRefusal, IsExact, broken_in, just_fed};
ghost use Rattle.dbus_framing.specs.Looks.{Sees, Finds};

use crate::OutOfMemory;
use crate::head::{Head, head_of};
use crate::progress::Progress;
use crate::reading::{FieldTypes, message_at};
use crate::violation::{FrameRefused, Violation};
use dbus_types::Message;
use std::alloc::{AllocError, Global};
use std::marker::Model;

// The room that an empty buffer may keep.
const KEPT_ROOM: usize = 65_536;

/// What a look at the next message finds.
#[derive(Drop)]
enum Look {
    Waits(Progress),
    Broken(Violation),
    Whole(Message),
}

/// What is found after messages of ignored types, and how many bytes these have.
#[derive(Drop)]
struct Found {
    taken: usize,
    look: Look,
}

/// Takes messages out of bytes that come in any pieces (D-Bus Specification, "Message Format"). A
/// contract sees the reader's limit, the bytes that no message has consumed, the violation that was
/// found, and how many bytes are held.
#[derive(Drop)]
pub struct Framer {
    most: u32,
    // The bytes fed, from the first one that is kept.
    fed: Vec<u8>,
    // How many of them messages have consumed.
    start: usize,
    progress: Progress,
    // Made at the first look.
    field_types: Option<FieldTypes>,
}

impl Model for Framer {
    ghost use Rattle.dbus_framing.specs.Framers.{Framing};

    ghost Value = { Framing };

    ghost use Rattle.std.specs.Prelude.{drop, length};
    ghost use Rattle.dbus_framing.specs.Framers.{IsKnown, broken_in, IsKept};

    ghost view = { λ framer. record {
      most = framer.most;
      rest = drop framer.start framer.fed.items;
      broken = broken_in framer.progress;
      held = length framer.fed.items;
    } };

    ghost invariant = { λ framer.
        IsKept framer.most framer.fed.items framer.start framer.progress };
}

// What is known of the first 16 bytes, or what they say when read now.
fn head_known(most: u32, progress: Progress, bytes: &[u8]) -> Result<Head, Violation>
    requires begun { 16 ≤ length bytes.now }
    requires known { IsKnown most bytes.now progress }
    requires whole { broken_in progress ≡ None }
    ensures { result ≡ head_of most bytes.now }
{
    match progress {
        Progress::Begun(head) => Ok(head),
        _ => head_of(most, bytes),
    }
}

fn look_at(
    alloc: Global,
    types: &FieldTypes,
    most: u32,
    progress: Progress,
    bytes: &[u8],
) -> Result<Look, OutOfMemory>
    requires known { IsKnown most bytes.now progress }
    requires whole { broken_in progress ≡ None }
    ensures { IfOk result (Sees most bytes.now) }
{
    if bytes.len() < 16 {
        return Ok(Look::Waits(Progress::Nothing));
    }
    let head = match head_known(most, progress, bytes) {
        Ok(head) => head,
        Err(cause) => return Ok(Look::Broken(cause)),
    };
    if bytes.len() < head.size {
        return Ok(Look::Waits(Progress::Begun(head)));
    }
    let (whole, _) = bytes.split_at(head.size);
    match message_at(alloc, types, head.endian, whole) {
        Ok(message) => Ok(Look::Whole(message)),
        Err(FrameRefused::Violation(cause)) => Ok(Look::Broken(cause)),
        Err(FrameRefused::OutOfMemory) => Err(AllocError),
    }
}

fn find(
    alloc: Global,
    types: &FieldTypes,
    most: u32,
    progress: Progress,
    bytes: &[u8],
) -> Result<Found, OutOfMemory>
    requires known { IsKnown most bytes.now progress }
    requires whole { broken_in progress ≡ None }
    ensures { IfOk result (Finds most bytes.now) }
{
    let mut taken = 0;
    let mut left = bytes;
    let mut progress = progress;
    'messages: loop {
        let seen = look_at(alloc, types, most, progress, left)?;
        let Look::Whole(message) = seen else {
            return Ok(Found { taken, look: seen });
        };
        let size = message.length as usize;
        let (_, behind) = left.split_at(size);
        taken += size;
        if message.kind <= 4 {
            let look = Look::Whole(message);
            return Ok(Found { taken, look });
        }
        left = behind;
        progress = Progress::Nothing;
    }
}

// Removes the first bytes, which are at least half of all: so the others are copied to the front at
// once, since they don't overlap the bytes that they replace.
fn remove_front(bytes: &mut Vec<u8>, count: usize)
    requires within { count ≤ vec_len bytes.old }
    requires half { vec_len bytes.old ≤ count + count }
    ensures { bytes.new.items ≡ drop count bytes.old.items }
{
    let left = bytes.len() - count;
    let (front, others) = bytes.as_mut_slice().split_at_mut(count);
    front[..left].copy_from_slice(others);
    bytes.truncate(left);
}

// Removes the bytes that messages consumed, and frees a large buffer if no byte is left.
fn let_go(bytes: &mut Vec<u8>, taken: usize)
    requires within { taken ≤ vec_len bytes.old }
    requires half { vec_len bytes.old ≤ taken + taken }
    ensures { bytes.new.items ≡ drop taken bytes.old.items }
{
    if taken == 0 {
        return;
    }
    remove_front(bytes, taken);
    if bytes.is_empty() && bytes.capacity() > KEPT_ROOM {
        let alloc = *bytes.allocator();
        *bytes = Vec::new(alloc);
    }
}

// Removes the bytes that messages consumed, unless there are more other bytes, which would have to
// be moved: in that case it returns the position of these. So the consumed bytes that stay are
// never more than the others.
fn make_room(bytes: &mut Vec<u8>, taken: usize) -> usize
    requires { taken ≤ vec_len bytes.old }
    ensures rest { drop result bytes.new.items ≡ drop taken bytes.old.items }
    ensures few { result + result ≤ length bytes.new.items }
{
    if taken < bytes.len() - taken {
        return taken;
    }
    let_go(bytes, taken);
    0
}

impl Framer {
    /// A framer to which nothing was fed. `most` is the most bytes that a message may have. It
    /// takes no memory.
    pub fn new(alloc: Global, most: u32) -> Framer
        ensures { result ≡ just_fed most [] }
    {
        Framer {
            most,
            fed: Vec::new(alloc),
            start: 0,
            progress: Progress::Nothing,
            field_types: None,
        }
    }

    /// Adds more bytes of the stream.
    ///
    /// Refused with `OutOfMemory`; nothing has changed then.
    pub fn feed(&mut self, piece: &[u8]) -> Result<(), OutOfMemory>
        ensures fed { OnOk result (self.new ≡ record self.old {
          rest = self.old.rest ++ piece.now;
          held = self.old.held + length piece.now;
        }) }
        ensures few { HoldsFew self.new }
        ensures unchanged { OnErr result (self.new ≡ self.old) }
    {
        self.fed.extend_from_slice(piece)?;
        Ok(())
    }

    /// The next message of the stream. Messages of types above 4 are checked and skipped.
    ///
    /// None if no further message is complete and no violation shows. Refused with the first
    /// violation in what follows the messages, and from then on always with that one; and with
    /// `OutOfMemory`, in which case nothing has changed.
    pub fn next(&mut self) -> Result<Option<Message>, FrameRefused>
        // A message is the next one of the stream. None means that more bytes are awaited.
        ensures message { IfOk result (λ found. IfSome found (λ message.
            Cut self.old.most self.old.rest (parts_of message ∷ []) self.new.rest)) }
        ensures waits { IfOk result (λ found. IfNone found
            (Stream self.old.most self.old.rest [] self.new.rest
            × BreaksNone self.old.most self.new.rest)) }
        ensures unbroken { OnOk result (self.new.broken ≡ None) }
        ensures most { self.new.most ≡ self.old.most }
        ensures few { HoldsFew self.new }

        // A violation is the first one, and stays. If memory runs out, nothing changes.
        ensures refused { IfErr result (λ refusal. IsRefusal self.old refusal self.new) }
        ensures remembered { (cause : Violation) → self.old.broken ≡ Some cause
            → (result ≡ Err (refused.Violation cause)) × (self.new ≡ self.old) }

        // None, a violation and a message each come exactly when they may, unless memory ran out.
        ensures exact { IsExact self.old.most self.old.rest result }
    {
        if let Progress::Broken(cause) = self.progress {
            return Err(FrameRefused::Violation(cause));
        }
        let alloc = *self.fed.allocator();
        let types = match self.field_types.take() {
            Some(types) => types,
            None => FieldTypes::new(alloc)?,
        };
        let (_, rest) = self.fed.as_slice().split_at(self.start);
        let found = find(alloc, &types, self.most, self.progress, rest)?;
        self.field_types = Some(types);
        self.start = make_room(&mut self.fed, self.start + found.taken);
        match found.look {
            Look::Waits(progress) => {
                self.progress = progress;
                Ok(None)
            }
            Look::Broken(cause) => {
                self.progress = Progress::Broken(cause);
                Err(FrameRefused::Violation(cause))
            }
            Look::Whole(message) => {
                self.progress = Progress::Nothing;
                Ok(Some(message))
            }
        }
    }

    /// The number of bytes fed that no message has consumed.
    pub fn rest(&self) -> usize
        ensures { result ≡ length self.now.rest }
    {
        self.fed.len() - self.start
    }
}
