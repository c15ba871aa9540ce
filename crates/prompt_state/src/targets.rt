ghost use Rattle.std.specs.Prelude.{◌≡◌, ℕ, ◌≤◌, List, [], ◌∷◌, ◌++◌, IfOk, OnOk, length, take, drop};
ghost use Rattle.std.specs.Option.{option_copied};
ghost use Rattle.prompt_state.specs.Targets.{all_left, first_left, first_done, first_dropped};

use kr_base::{OutOfMemory, Stem, Text};
use std::alloc::Global;
use std::marker::Model;

/// An object to be unlocked: a collection, or an item of one.
#[derive(Drop)]
pub struct Target {
    /// The object's path, as the caller gave it.
    pub given: Text,
    /// The stem of its collection.
    pub stem: Stem,
}

impl Target {
    /// A copy of the target.
    pub fn copy(&self) -> Result<Target, OutOfMemory>
        ensures { IfOk result (λ copied. copied ≡ self.now) }
    {
        Ok(Target {
            given: self.given.copy()?,
            stem: self.stem.copy()?,
        })
    }
}

/// The objects that a prompt should unlock, in the order in which they were given. A contract sees
/// those that are done and those that are left. A target that is done or dropped only changes its
/// position, so neither takes memory.
#[derive(Drop)]
pub struct Targets {
    // First those that are done; from `next` on those that are left; between them those
    // that were dropped.
    list: Vec<Target>,
    done: usize,
    next: usize,
}

impl Model for Targets {
    ghost use Rattle.prompt_state.specs.Targets.{TargetLists, lists_of, AreParts};

    ghost Value = { TargetLists };

    ghost view = { λ t. lists_of t.done t.next t.list.items };

    ghost invariant = { λ t. AreParts t.done t.next t.list.items };
}

impl Targets {
    /// Targets of which none is done yet. It takes no memory.
    pub fn new(list: Vec<Target>) -> Targets
        ensures { result ≡ all_left list.items }
    {
        Targets {
            list,
            done: 0,
            next: 0,
        }
    }

    /// The first target that is left. It takes no memory.
    pub fn first(&self) -> Option<&Target>
        ensures { option_copied result ≡ first_left self.now }
    {
        self.left().first()
    }

    /// The targets that are done, in order.
    pub fn done(&self) -> &[Target]
        ensures { result.now ≡ self.now.done }
    {
        &self.list[..self.done]
    }

    /// The targets that are left, in order.
    pub fn left(&self) -> &[Target]
        ensures { result.now ≡ self.now.left }
    {
        &self.list[self.next..]
    }

    /// The first target that is left becomes the last one that is done. Nothing changes if none is
    /// left. It takes no memory.
    pub fn finish_first(&mut self)
        ensures { self.new ≡ first_done self.old }
    {
        if self.next < self.list.len() {
            self.list.swap(self.done, self.next);
            self.done += 1;
            self.next += 1;
        }
    }

    /// The first target that is left is dropped. Nothing changes if none is left. It takes no memory.
    pub fn drop_first(&mut self)
        ensures { self.new ≡ first_dropped self.old }
    {
        if self.next < self.list.len() {
            self.next += 1;
        }
    }

    /// A copy of the targets.
    pub fn copy(&self) -> Result<Targets, OutOfMemory>
        ensures { IfOk result (λ copied. copied ≡ self.now) }
    {
        let done = self.done();
        let left = self.left();
        let alloc = *self.list.allocator();
        let mut list = Vec::with_capacity(alloc, done.len().saturating_add(left.len()))?;
        put_copies(&mut list, done)?;
        put_copies(&mut list, left)?;
        Ok(Targets {
            list,
            done: self.done,
            next: self.done,
        })
    }
}

// Appends copies of the targets.
fn put_copies(list: &mut Vec<Target>, targets: &[Target]) -> Result<(), OutOfMemory>
    ensures { OnOk result (list.new.items ≡ list.old.items ++ targets.now) }
{
    for target in targets {
        list.push(target.copy()?)?;
    }
    Ok(())
}
