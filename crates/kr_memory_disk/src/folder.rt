ghost use Rattle.std.specs.Prelude.{◌≡◌, ◌++◌, ◌∷◌, [], ℕ, List, IfOk, IfErr, OnOk, OnErr, IsErrOf, IfSome, IsNone, None, Some, true, false};
ghost use Rattle.std.proofs.Common.{rules};
ghost use Rattle.kr_outside.specs.Faults.{HasCause};
ghost use Rattle.kr_outside.specs.Folder.{Lists, HasOutsideCause};
ghost use Rattle.kr_memory_disk.specs.Files.{image_in};
ghost use Rattle.kr_memory_disk.specs.Folder.{AreGivenBack, IsPicked, IsCrashed, HasPassed, HasFailed, failing_of, done_of};
ghost use Rattle.kr_memory_disk.specs.Plan.{calls_at_start};

use crate::files::Files;
use crate::plan::CallPlan;
use crate::slot::MemorySlot;
use kr_base::{Bytes, OutOfMemory, Text};
use kr_outside::{Failed, Folder, OutsideRefused};
use std::alloc::Global;
use std::marker::Model;

/// Which calls of the slot of a name should fail.
#[derive(Drop)]
pub struct SlotPlan {
    /// The name.
    pub name: Text,
    /// The numbers of the calls that fail, counted from 0.
    pub failing: Vec<u64>,
    /// Those of them that the disk performs nevertheless.
    pub done: Vec<u64>,
}

/// A folder in memory: names and bytes. Its calls `sync` and `names` are numbered from 0, and fail
/// as planned. It is an honest folder.
#[derive(Drop)]
pub struct MemoryFolder {
    alloc: Global,
    files: Files,
    plans: Vec<SlotPlan>,
    made: Vec<Bytes>,
    calls: CallPlan,
}

impl Model for MemoryFolder {
    ghost use Rattle.std.specs.Prelude.{reverse};
    ghost use Rattle.kr_memory_disk.specs.Folder.{FolderState};

    ghost Value = { FolderState };

    ghost view = { λ f. record {
      files = f.files;
      plans = f.plans.items;
      made = reverse f.made.items;
      calls = f.calls;
    } };
}

impl MemoryFolder {
    /// A folder without files, whose calls with these numbers fail.
    pub fn new(alloc: Global, failing: Vec<u64>) -> MemoryFolder
        ensures { result ≡ record {
          files = [];
          plans = [];
          made = [];
          calls = calls_at_start failing.items;
        } }
    {
        MemoryFolder {
            alloc,
            files: Files::new(alloc),
            plans: Vec::new(alloc),
            made: Vec::new(alloc),
            calls: CallPlan::new(failing),
        }
    }

    /// Makes the name stand for this image, which no crash undoes: the bytes of a file, or no file.
    /// A slot of it that was made before doesn't see that.
    ///
    /// Refused if no memory was left.
    pub fn set(&mut self, name: Text, image: Option<Bytes>) -> Result<(), OutOfMemory>
        ensures set { OnOk result (image_in self.new.files name ≡ image) }
        ensures others { (other : List ℕ) → ¬ (other ≡ name)
            → OnOk result (image_in self.new.files other ≡ image_in self.old.files other) }
        ensures same { self.new ≡ record self.old { files = self.new.files } }
        ensures unchanged { OnErr result (self.new ≡ self.old) }
    {
        self.files.set(name, image)
    }

    /// Adds a plan. The slot that will be made of its name fails by it.
    ///
    /// Refused if no memory was left.
    pub fn plan(&mut self, plan: SlotPlan) -> Result<(), OutOfMemory>
        ensures planned { OnOk result
            (self.new ≡ record self.old { plans = self.old.plans ++ plan ∷ [] }) }
        ensures unchanged { OnErr result (self.new ≡ self.old) }
    {
        match self.plans.push(plan) {
            Ok(()) => Ok(()),
            Err(refused) => Err(refused.into()),
        }
    }

    /// What the name stands for, leaving aside what was done through a slot of it.
    pub fn image(&self, name: &str) -> Option<&[u8]>
        ensures file { IfSome result (λ bytes. image_in self.now.files name.now ≡ Some bytes.now) }
        ensures none { IsNone result → image_in self.now.files name.now ≡ None }
    {
        self.files.image(name)
    }

    /// The folder after a crash of the machine. Each slot that was made is handed back, so that the
    /// folder sees what was done through it: its name then stands for an image that the crash may
    /// leave of it, and every other name for what it stood for. The number picks the images: the
    /// first slot's is the one that `left` returns for this number, and the number divided by how
    /// many there were (`count_left`) picks those of the slots after it. So each combination of
    /// images occurs as the numbers go up from 0.
    ///
    /// Refused if no memory was left.
    pub fn crash(
        self,
        slots: Vec<(Text, MemorySlot)>,
        choice: u64,
    ) -> Result<MemoryFolder, OutOfMemory>
        requires { AreGivenBack self.made slots.items }
        ensures picked { IfOk result (λ folder.
            IsPicked self.files slots.items choice folder.files) }
        ensures left { IfOk result (λ folder. IsCrashed self.files slots.items folder.files) }
        ensures fresh { IfOk result (λ folder. folder ≡ record {
          files = folder.files;
          plans = [];
          made = [];
          calls = calls_at_start [];
        }) }
    {
        let MemoryFolder { alloc, files, .. } = self;
        let files = crashed(files, slots, choice)?;
        Ok(MemoryFolder {
            alloc,
            files,
            plans: Vec::new(alloc),
            made: Vec::new(alloc),
            calls: CallPlan::new(Vec::new(alloc)),
        })
    }
}

// The files after a crash.
fn crashed(files: Files, slots: Vec<(Text, MemorySlot)>, choice: u64) -> Result<Files, OutOfMemory>
    ensures picked { IfOk result (λ after. IsPicked files slots.items choice after) }
    ensures left { IfOk result (λ after. IsCrashed files slots.items after) }
{
    let mut files = files;
    let mut choice = choice;
    for (name, slot) in slots {
        let image = slot.left(choice)?;
        choice /= slot.count_left()? as u64;
        files.set(name, image)?;
    }
    Ok(files)
}

// The plan of the slot of this name: the calls that fail, and those of them that are performed
// nevertheless. Both are empty for a name without a plan.
fn plan_of(
    alloc: Global,
    plans: &[SlotPlan],
    name: &str,
) -> Result<(Vec<u64>, Vec<u64>), OutOfMemory>
    ensures { IfOk result (λ plan. (plan.0.items ≡ failing_of plans.now name.now)
        × (plan.1.items ≡ done_of plans.now name.now)) }
{
    let mut rest = plans;
    while let [plan, after @ ..] = rest {
        if plan.name.as_str() == name {
            return Ok((plan.failing.clone()?, plan.done.clone()?));
        }
        rest = after;
    }
    Ok((Vec::new(alloc), Vec::new(alloc)))
}

impl Folder for MemoryFolder {
    type Cell = MemorySlot;

    ghost images = { λ f name. image_in f.files name };

    ghost may_leave = { λ f name left. left ≡ image_in f.files name };

    ghost made = { λ f. f.made };

    ghost faults = { λ f. f.calls.faults };

    ghost is_honest = { λ _. true };

    ghost is_steady = { λ _. false };

    ghost steady_below = { Prim.search rules };

    fn sync(&mut self) -> Result<(), Failed>
        ensures done { OnOk result (HasPassed self.old self.new) }
        ensures failed { OnErr result (HasFailed self.old self.new) }
        ensures cause { HasCause self.old.calls.faults self.new.calls.faults result }
    {
        self.calls.call()
    }

    fn names(&mut self) -> Result<Vec<Text>, OutsideRefused>
        ensures listed { IfOk result (λ names.
            Lists self.old.made (λ name. image_in self.old.files name) names.items) }
        ensures done { OnOk result (HasPassed self.old self.new) }
        ensures failed { IsErrOf result OutsideRefused.Failed → HasFailed self.old self.new }
        ensures memory { IsErrOf result OutsideRefused.OutOfMemory
            → HasPassed self.old self.new }
        ensures cause { HasOutsideCause self.old.calls.faults self.new.calls.faults result }
    {
        if self.calls.call().is_err() {
            return Err(OutsideRefused::Failed);
        }
        names_of(&self.files)
    }

    fn slot(&mut self, name: &str) -> Result<MemorySlot, OutOfMemory>
        // The slot fails as its name's plan says.
        ensures planned { IfOk result (λ slot. slot ≡ record {
          image = image_in self.old.files name.now;
          calls = [];
          failing = failing_of self.old.plans name.now;
          done = done_of self.old.plans name.now;
          faults = 0;
          room = 0;
          failed = None;
          answered = None;
        }) }
        ensures made { OnOk result
            (self.new ≡ record self.old { made = name.now ∷ self.old.made }) }
        ensures unchanged { OnErr result (self.new ≡ self.old) }
    {
        let slot = slot_of(self.alloc, &self.files, &self.plans, name)?;
        let made = Bytes::from_slice(self.alloc, name.as_bytes())?;
        match self.made.push(made) {
            Ok(()) => Ok(slot),
            Err(refused) => Err(refused.into()),
        }
    }
}

/// The names of these files, as a folder of them returns them.
pub fn names_of(files: &Files) -> Result<Vec<Text>, OutsideRefused>
    ensures listed { (made : List (List ℕ)) → IfOk result (λ names.
        Lists made (λ name. image_in files.now name) names.items) }
    ensures memory { IfErr result (λ refused. refused ≡ OutsideRefused.OutOfMemory) }
{
    match files.names() {
        Ok(names) => Ok(names),
        Err(_) => Err(OutsideRefused::OutOfMemory),
    }
}

// The slot of a name among these files, by its plan.
fn slot_of(
    alloc: Global,
    files: &Files,
    plans: &[SlotPlan],
    name: &str,
) -> Result<MemorySlot, OutOfMemory>
    ensures { IfOk result (λ slot. slot ≡ record {
      image = image_in files.now name.now;
      calls = [];
      failing = failing_of plans.now name.now;
      done = done_of plans.now name.now;
      faults = 0;
      room = 0;
      failed = None;
      answered = None;
    }) }
{
    let image = files.copy_of(name)?;
    let (failing, done) = plan_of(alloc, plans, name)?;
    Ok(MemorySlot::new(alloc, image, failing, done))
}
