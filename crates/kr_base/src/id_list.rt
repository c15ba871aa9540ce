ghost use Rattle.std.specs.Prelude.{◌≡◌, ◌+◌, ◌<◌, ◌↔◌, OnOk, OnErr, IsTrue, List, [], ◌∷◌, length, slice_index};
ghost use Rattle.kr_base.specs.IdLists.{IsHeld, IsIdList, has_id, held_ids, with_id, without_id};

use crate::id_chunks::Chunk;
use crate::{ItemId, OutOfMemory, Steps, id_chunks};
use std::alloc::Global;
use std::marker::Model;
use std::sync::ledger::Ledger;

/// Where the ids of a list are kept. Most attributes of an item are shared with no other item.
#[derive(Drop)]
enum Held {
    /// One id, in the value itself.
    One(u32),
    /// In memory of their own, in chunks.
    Many(Vec<Chunk>),
}

/// Ids of items in rising order. A contract sees the list of their numbers. Reading an id, or looking one
/// up, is one step.
#[derive(Drop)]
pub struct IdList {
    held: Held,
}

impl Model for IdList {
    ghost use Rattle.std.specs.Prelude.{ℕ, List};
    ghost use Rattle.kr_base.specs.IdLists.{IsHeld, held_ids};

    ghost Value = { List ℕ };

    ghost view = { λ l. held_ids l.held };

    ghost invariant = { λ l. IsHeld l.held };
}

impl IdList {
    /// No ids. It takes no memory.
    pub fn new(alloc: Global) -> IdList
        ensures { result ≡ [] }
    {
        IdList {
            held: Held::Many(Vec::new(alloc)),
        }
    }

    /// One id. It takes no memory.
    pub fn of_one(id: ItemId) -> IdList
        ensures { result ≡ id.0 ∷ [] }
    {
        IdList { held: one(id.0) }
    }

    /// The number of ids.
    pub fn len(&self) -> usize
        ensures value { result ≡ length self.now }
        ensures rising { IsIdList self.now }
    {
        match &self.held {
            Held::One(_) => 1,
            Held::Many(chunks) => id_chunks::len(chunks.as_slice()),
        }
    }

    /// The id at a position, counted from 0. This is one step.
    pub fn at<L: Ledger>(&self, place: usize, steps: &mut Steps<L>) -> ItemId
        requires { place < length self.now }
        ensures value { result.0 ≡ slice_index self.now place }
        ensures step { steps.new ≡ steps.old + 1 }
    {
        steps.tick();
        match &self.held {
            Held::One(id) => ItemId(*id),
            Held::Many(chunks) => ItemId(id_chunks::at(chunks.as_slice(), place)),
        }
    }

    /// Whether the list has the id. This is one step.
    pub fn has<L: Ledger>(&self, id: ItemId, steps: &mut Steps<L>) -> bool
        ensures value { result ≡ has_id self.now id.0 }
        ensures step { steps.new ≡ steps.old + 1 }
    {
        steps.tick();
        match &self.held {
            Held::One(one) => *one == id.0,
            Held::Many(chunks) => id_chunks::has(chunks.as_slice(), id.0),
        }
    }

    /// Inserts an id at its position in the order. Nothing changes if the list has the id already.
    pub fn insert(&mut self, alloc: Global, id: ItemId) -> Result<(), OutOfMemory>
        ensures put { OnOk result (self.new ≡ with_id id.0 self.old) }
        ensures unchanged { OnErr result (self.new ≡ self.old) }
    {
        put(alloc, &mut self.held, id.0)
    }

    /// Removes an id, if it is in the list. It takes no memory.
    pub fn remove(&mut self, alloc: Global, id: ItemId)
        ensures { self.new ≡ without_id id.0 self.old }
    {
        take(alloc, &mut self.held, id.0);
    }
}

/// One id, in the value itself.
fn one(id: u32) -> Held
    ensures held { IsHeld result }
    ensures ids { held_ids result ≡ id ∷ [] }
{
    Held::One(id)
}

/// Inserts an id at its position in the order, wherever the ids are kept.
fn put(alloc: Global, held: &mut Held, id: u32) -> Result<(), OutOfMemory>
    requires { IsHeld held.old }
    ensures held { IsHeld held.new }
    ensures put { OnOk result (held_ids held.new ≡ with_id id (held_ids held.old)) }
    ensures unchanged { OnErr result (held_ids held.new ≡ held_ids held.old) }
{
    match held {
        Held::One(one) => {
            let one = *one;
            if one < id {
                *held = Held::Many(id_chunks::of_two(alloc, one, id)?);
            } else if id < one {
                *held = Held::Many(id_chunks::of_two(alloc, id, one)?);
            }
            Ok(())
        }
        Held::Many(chunks) => {
            if !chunks.is_empty() {
                return id_chunks::put(alloc, chunks, id);
            }
            *held = one(id);
            Ok(())
        }
    }
}

/// Removes an id, wherever the ids are kept.
fn take(alloc: Global, held: &mut Held, id: u32)
    requires { IsHeld held.old }
    ensures held { IsHeld held.new }
    ensures taken { held_ids held.new ≡ without_id id (held_ids held.old) }
{
    match held {
        Held::One(one) => {
            if *one == id {
                *held = Held::Many(Vec::new(alloc));
            }
        }
        Held::Many(chunks) => id_chunks::take(chunks, id),
    }
}
