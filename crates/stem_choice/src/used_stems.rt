// The stems that are used, in a list by byte order.
ghost use Rattle.std.specs.Prelude.{◌≡◌, ℕ, ◌+◌, ◌-◌, ◌<◌, ◌≤◌, ◌^◌, List, [], vec_capacity, vec_len, length, IsOk, OnErr, OnOk, true};
ghost use Rattle.stem_choice.specs.UsedStems.{AreInOrder, UsedState, is_used, with_stem};

use kr_base::{OutOfMemory, Stem};
use std::alloc::Global;
use std::marker::Model;

/// The stems that were used in a run: those of all keyring files and of the aliases at its start, and
/// each one for whose file a call of the disk was made. A stem stays used, so none can be taken out. A
/// contract sees the stems in byte order, each of them once, and how many more can be put in without
/// taking memory.
#[derive(Drop)]
pub struct UsedStems {
    stems: Vec<Stem>,
}

impl Model for UsedStems {
    ghost use Rattle.std.specs.Prelude.{◌-◌, vec_capacity, vec_len};
    ghost use Rattle.stem_choice.specs.UsedStems.{AreInOrder, UsedState};

    ghost Value = { UsedState };

    ghost view = { λ u. record {
      stems = u.stems.items;
      room = vec_capacity u.stems - vec_len u.stems;
    } };

    ghost invariant = { λ u. AreInOrder u.stems.items };
}

/// Whether one of the stems has these bytes.
fn has_in(stems: &[Stem], bytes: &[u8]) -> bool
    requires { AreInOrder stems.now }
    ensures { result ≡ is_used bytes.now stems.now }
{
    match stems.binary_search_by(|stem| stem.as_str().as_bytes().cmp(bytes)) {
        Ok(_) => true,
        Err(_) => false,
    }
}

/// Puts a stem in its place. Where it is there, nothing changes.
fn put_in(stems: &mut Vec<Stem>, stem: Stem)
    requires order { AreInOrder stems.old.items }
    requires room { vec_len stems.old < vec_capacity stems.old }
    ensures stems { stems.new.items ≡ with_stem stem stems.old.items }
    ensures room { vec_capacity stems.old - vec_len stems.old
        ≤ vec_capacity stems.new - vec_len stems.new + 1 }
{
    match stems.binary_search_by(|other| other.cmp(&stem)) {
        Ok(_) => {}
        Err(place) => stems.insert(place, stem).unwrap(),
    }
}

impl UsedStems {
    /// No stems. It takes no memory.
    pub fn new(alloc: Global) -> UsedStems
        ensures { result.stems ≡ [] }
    {
        UsedStems {
            stems: Vec::new(alloc),
        }
    }

    /// The number of stems.
    pub fn len(&self) -> usize
        ensures value { result ≡ length self.now.stems }
        ensures fits { length self.now.stems < 2 ^ 63 }
    {
        self.stems.len()
    }

    /// The stems, borrowed, in byte order.
    pub fn as_slice(&self) -> &[Stem]
        ensures value { result.now ≡ self.now.stems }
        ensures ordered { AreInOrder self.now.stems }
    {
        self.stems.as_slice()
    }

    /// Whether one of the stems has these bytes.
    pub fn has_bytes(&self, bytes: &[u8]) -> bool
        ensures { result ≡ is_used bytes.now self.now.stems }
    {
        has_in(self.stems.as_slice(), bytes)
    }

    /// Whether the stem is used.
    pub fn has(&self, stem: &Stem) -> bool
        ensures { result ≡ is_used stem.now self.now.stems }
    {
        self.has_bytes(stem.as_str().as_bytes())
    }

    /// Makes room for one more stem, so that putting it in takes no memory. The stems are as before.
    pub fn reserve(&mut self) -> Result<(), OutOfMemory>
        ensures room { OnOk result (0 < self.new.room) }
        ensures kept { self.old.room ≤ self.new.room }
        ensures stems { self.new.stems ≡ self.old.stems }
    {
        self.stems.reserve(1)
    }

    /// Puts a stem in, for which `reserve` made room. Where it is used, nothing changes. It takes no
    /// memory.
    pub fn insert(&mut self, stem: Stem)
        requires room { 0 < self.old.room }
        ensures stems { self.new.stems ≡ with_stem stem self.old.stems }
        ensures room { self.old.room ≤ self.new.room + 1 }
    {
        put_in(&mut self.stems, stem);
    }

    /// Puts a copy of a stem in. Where it is used, nothing changes and no memory is taken. Refused with
    /// `OutOfMemory` alone.
    pub fn add(&mut self, stem: &Stem) -> Result<(), OutOfMemory>
        ensures added { OnOk result (self.new.stems ≡ with_stem stem.now self.old.stems) }
        ensures used { is_used stem.now self.old.stems ≡ true → IsOk result }
        ensures unchanged { OnErr result (self.new.stems ≡ self.old.stems) }
    {
        if has_in(self.as_slice(), stem.as_str().as_bytes()) {
            return Ok(());
        }
        let copied = stem.copy()?;
        self.reserve()?;
        self.insert(copied);
        Ok(())
    }
}
