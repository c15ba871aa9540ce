ghost use Rattle.std.specs.Prelude.{◌≡◌, ◌≢◌, ◌<◌, ◌⊎◌, ◌↔◌, IsTrue, None, Some, length, IfOk, OnErr, IfErr, IfSome, IsErr, IsErrOf};
ghost use Rattle.std.specs.Option.{option_copied};
ghost use Rattle.kr_base.specs.Attributes.{value_at};
ghost use Rattle.kr_base.specs.Stem.{IsStem};
ghost use Rattle.kr_names.specs.Path.{IsAliasName};
ghost use Rattle.kr_outside.specs.Moments.{LeavesOnly};
ghost use Rattle.kr_outside.specs.Slot.{KeepsNature};
ghost use Rattle.alias_text.specs.Pairs.{GivesAliases};
ghost use Rattle.alias_text.specs.Writing.{AreAliases};
ghost use Rattle.replace_slot.specs.Cell.{IsKnown, IsKnownImage, IsOneOf, LeavesFile, FailedBefore, FailedAfter, FailedRead, longest_of, new_image};
ghost use Rattle.replace_slot.specs.Found.{IsFoundBy, IsFoundOf};
ghost use Rattle.alias_table.specs.Changed.{changed, few};
ghost use Rattle.alias_table.specs.Table.{IsFor, IsPrepared, Stores, Sets, WasRead, IsFault, chosen, resolved};

use crate::change::{AliasChange, Next};
use crate::next::{changed_aliases, stem_at};
use crate::refused::AliasRefused;
use kr_base::{OutOfMemory, Stem, Text};
use kr_items::Items;
use kr_names::is_alias_name;
use kr_outside::{DeviceCall, Slot};
use replace_slot::{FaultRead, FileCell, Found, ReplaceFault};
use std::alloc::{AllocError, Global};
use std::marker::Model;

/// The aliases and the cell of their file. The aliases that are read are those of the known image; in
/// doubt, those of the older image, and those of the newer one are kept beside them.
#[derive(Drop)]
pub struct AliasTable<S: Slot> {
    alloc: Global,
    cell: FileCell<S>,
    aliases: Items<(Text, Stem)>,
    newer: Option<Items<(Text, Stem)>>,
}

impl<S: Slot> Model for AliasTable<S> {
    ghost use Rattle.alias_table.specs.Table.{TableState, AreGiven, seen_as};

    ghost Value = { TableState S };

    ghost view = { λ t. seen_as t.cell.slot t.cell.file t.aliases t.newer };

    ghost invariant = { λ t. AreGiven t.cell.file t.aliases t.newer };
}

impl<S: Slot> AliasTable<S> {
    /// The table of a known file and of the aliases that its image gives: none if there is no file.
    pub fn new(alloc: Global, cell: FileCell<S>, aliases: Vec<(Text, Stem)>) -> AliasTable<S>
        requires { IsKnownImage (λ image. GivesAliases image aliases.items) cell.file }
        ensures { result ≡ record {
          slot = cell.slot;
          rows = record { file = cell.file; aliases = aliases.items; newer = None };
        } }
    {
        AliasTable {
            alloc,
            cell,
            aliases: Items::new(aliases),
            newer: None,
        }
    }

    /// The stem that the alias stands for (Secret Service API, Service.ReadAlias), according to the older
    /// image if the file is in doubt. None if there is no such alias.
    pub fn read(&self, name: &str) -> Option<&Stem>
        ensures { option_copied result ≡ value_at name.now self.now.rows.aliases }
    {
        stem_at(self.aliases.as_slice(), name)
    }

    /// The aliases in byte order of their names; in doubt, those of the older image.
    pub fn aliases(&self) -> &[(Text, Stem)]
        ensures value { result.now ≡ self.now.rows.aliases }
        ensures shown { AreAliases self.now.rows.aliases }
    {
        self.aliases.as_slice()
    }

    /// Whether the file is known, so that no resolve is needed.
    pub fn is_known(&self) -> bool
        ensures known { IsTrue result ↔ IsKnown self.now.rows.file }
        ensures alone { IsKnown self.now.rows.file → self.now.rows.newer ≡ None }
        ensures crash { IsTrue (S.is_honest self.now.slot)
            → LeavesFile self.now.rows.file (S.may_leave self.now.slot) }
    {
        self.cell.is_known()
    }

    /// A law: while nothing is done with the table, a crash leaves one of the file's images at each moment,
    /// and if the file is known, exactly its image. The call does nothing.
    pub fn untouched(&self)
        ensures crash { IsTrue (S.is_honest self.now.slot)
            → LeavesFile self.now.rows.file (S.may_leave self.now.slot) }
        ensures any_moment { IsTrue (S.is_honest self.now.slot)
            → LeavesOnly S.moment S.left_since self.now.slot self.now.slot
            (IsOneOf self.now.rows.file) }
    {
        // Both calls show what the type says of its cell.
        let _known = self.cell.is_known();
        self.cell.untouched();
    }

    /// Prepares a change: the alias of this name is set to the stem, or removed if that is None, and each
    /// alias whose stem isn't a live one is dropped. The live stems are those of the collections that
    /// exist when the change is stored. All memory that storing needs is taken here.
    ///
    /// Refused with `BadName` if the name isn't a name of an alias.
    pub fn prepare(
        &self,
        name: Text,
        stem: Option<Stem>,
        live: &[Stem],
    ) -> Result<AliasChange, AliasRefused>
        ensures prepared { IfOk result (IsPrepared name stem live.now self.now.rows) }
        ensures named { IfOk result (λ _. IsAliasName name) }
        ensures bad_name { IsErrOf result AliasRefused.BadName → ¬ (IsAliasName name) }
        ensures memory { IfErr result (λ refused.
            (refused ≡ AliasRefused.BadName) ⊎ (refused ≡ AliasRefused.OutOfMemory)) }
    {
        if !is_alias_name(name.as_str()) {
            return Err(AliasRefused::BadName);
        }
        let next = next_of(self.alloc, self.aliases.as_slice(), &name, &stem, live)?;
        let newer = match &self.newer {
            Some(newer) => Some(next_of(self.alloc, newer.as_slice(), &name, &stem, live)?),
            None => None,
        };
        let buffer = buffer_for(self.alloc, &self.cell)?;
        Ok(AliasChange::new(next, newer, buffer))
    }

    /// Ends a doubt: the folder is synced, and the file is read again. The aliases are then those of the
    /// image that was found, or of the older one if neither was. Returns what was found, and the change
    /// as it was prepared for that image. It takes no memory.
    ///
    /// Refused with `FaultRead` if the folder couldn't be synced or the file couldn't be read; the doubt
    /// stays.
    pub fn resolve(&mut self, change: AliasChange) -> Result<(Found, AliasChange), FaultRead>
        requires doubt { ¬ (IsKnown self.old.rows.file) }
        requires prepared { IsFor change self.old.rows }

        ensures resolved { IfOk result (λ it. self.new.rows ≡ resolved it.0 self.old.rows) }
        ensures chosen { IfOk result (λ it. it.1.next ≡ chosen it.0 change) }
        ensures left { IfOk result (λ it. IsFor it.1 self.new.rows) }
        ensures unchanged { OnErr result (self.new.rows ≡ self.old.rows) }

        // What is found is what the read returned. With an honest slot it is the image that the name
        // stands for, before the call as well as after it, and so one of the two.
        ensures by_read { IfOk result (λ it.
            IsFoundBy (S.answered self.new.slot) it.1.buffer it.0 self.old.rows.file) }
        ensures by_name { IsTrue (S.is_honest self.old.slot)
            → IfOk result (λ it. IsFoundOf (S.seen self.old.slot) it.0 self.old.rows.file) }
        ensures same { IsTrue (S.is_honest self.old.slot)
            → S.seen self.new.slot ≡ S.seen self.old.slot }
        ensures one { IsTrue (S.is_honest self.old.slot) → IfOk result (λ it. it.0 ≢ Found.Other) }

        // A crash afterwards leaves the image that was found, and a crash at any moment of the call one
        // of the two.
        ensures crash { IsTrue (S.is_honest self.new.slot)
            → LeavesFile self.new.rows.file (S.may_leave self.new.slot) }
        ensures any_moment { IsTrue (S.is_honest self.old.slot)
            → LeavesOnly S.moment S.left_since self.old.slot self.new.slot
            (IsOneOf self.old.rows.file) }

        // A fault has its cause, which is one of the two calls.
        ensures kept { KeepsNature S.is_honest S.is_steady S.faults (IsErr result)
            self.old.slot self.new.slot }
        ensures read_call { IsErr result → FailedRead (S.failed self.new.slot) }
    {
        let (next, newer, mut buffer) = change.into_parts();
        let found = self.cell.resolve(&mut buffer)?;
        let kept = self.newer.take();
        if found != Found::New {
            return Ok((found, AliasChange::new(next, None, buffer)));
        }
        if let Some(aliases) = kept {
            self.aliases = aliases;
        }
        let next = newer.unwrap_or(next);
        Ok((found, AliasChange::new(next, None, buffer)))
    }

    // Stores what was prepared. The file is known.
    fn store(&mut self, change: AliasChange) -> Result<(), AliasRefused>
        requires known { IsKnown self.old.rows.file }

        ensures stores { Stores change.next self.old.rows result self.new.rows }
        ensures idle { IsErrOf result AliasRefused.TooMany → self.new.slot ≡ self.old.slot }

        ensures crash { IsTrue (S.is_honest self.new.slot)
            → LeavesFile self.new.rows.file (S.may_leave self.new.slot) }
        ensures any_moment { IsTrue (S.is_honest self.old.slot)
            → LeavesOnly S.moment S.left_since self.old.slot self.new.slot
            (λ left. IsOneOf self.old.rows.file left ⊎ IsOneOf self.new.rows.file left) }

        ensures kept { KeepsNature S.is_honest S.is_steady S.faults (IsFault result)
            self.old.slot self.new.slot }
        ensures before_call { IsErrOf result AliasRefused.FaultBefore
            → FailedBefore (S.failed self.new.slot) }
        ensures unsure_call { IsErrOf result AliasRefused.FaultUnsure
            → FailedAfter DeviceCall.Rename (IsTrue (S.is_honest self.old.slot)
            → S.seen self.new.slot ≡ new_image self.new.rows.file) (S.failed self.new.slot) }
    {
        let (next, _, _) = change.into_parts();
        let Some(next) = next else {
            self.untouched();
            return Err(AliasRefused::TooMany);
        };
        let (aliases, image) = next.into_parts();
        match self.cell.replace(image) {
            Ok(()) => {
                self.aliases = aliases;
                Ok(())
            }
            Err(ReplaceFault::FaultBefore) => Err(AliasRefused::FaultBefore),
            Err(ReplaceFault::FaultUnsure) => {
                self.newer = Some(aliases);
                Err(AliasRefused::FaultUnsure)
            }
        }
    }

    /// Stores a change that was prepared for the table as it is (Secret Service API, Service.SetAlias). A
    /// doubt is resolved first, and what was prepared for the image that was found is stored. It takes
    /// no memory.
    ///
    /// Refused, in this order, with `FaultRead` if the resolve failed, `TooMany` if there would be more
    /// than 1,024 aliases, `FaultBefore` if the temporary file couldn't be written or synced, and
    /// `FaultUnsure` if it couldn't take the name or the folder couldn't be synced. After `FaultUnsure`
    /// the file is in doubt, and the older aliases are read until the doubt is resolved. A doubt that was
    /// resolved stays so, whatever is refused afterwards.
    pub fn set(&mut self, change: AliasChange) -> Result<(), AliasRefused>
        requires prepared { IsFor change self.old.rows }

        ensures sets { Sets (λ found.
            WasRead S.answered S.faults self.old.slot self.new.slot found self.old.rows.file
            × (IsTrue (S.is_honest self.old.slot)
            → IsFoundOf (S.seen self.old.slot) found self.old.rows.file))
            change self.old.rows result self.new.rows }
        ensures idle { IsKnown self.old.rows.file → IsErrOf result AliasRefused.TooMany
            → self.new.slot ≡ self.old.slot }

        // A crash afterwards leaves one of the file's images, and a crash at any moment of the call an
        // image that the file had before it or has after it.
        ensures crash { IsTrue (S.is_honest self.new.slot)
            → LeavesFile self.new.rows.file (S.may_leave self.new.slot) }
        ensures any_moment { IsTrue (S.is_honest self.old.slot)
            → LeavesOnly S.moment S.left_since self.old.slot self.new.slot
            (λ left. IsOneOf self.old.rows.file left ⊎ IsOneOf self.new.rows.file left) }

        // Each fault has its cause, which is a call of the device.
        ensures kept { KeepsNature S.is_honest S.is_steady S.faults (IsFault result)
            self.old.slot self.new.slot }
        ensures read_call { IsErrOf result AliasRefused.FaultRead
            → FailedRead (S.failed self.new.slot) }
        ensures before_call { IsErrOf result AliasRefused.FaultBefore
            → FailedBefore (S.failed self.new.slot) }
        ensures unsure_call { IsErrOf result AliasRefused.FaultUnsure
            → FailedAfter DeviceCall.Rename (IsTrue (S.is_honest self.old.slot)
            → S.seen self.new.slot ≡ new_image self.new.rows.file) (S.failed self.new.slot) }
    {
        if self.is_known() {
            return self.store(change);
        }
        match self.resolve(change) {
            Ok((_, change)) => self.store(change),
            Err(_) => Err(AliasRefused::FaultRead),
        }
    }

    /// The cell of the file. The aliases are lost.
    pub fn into_cell(self) -> FileCell<S>
        ensures slot { result.slot ≡ self.slot }
        ensures file { result.file ≡ self.rows.file }
    {
        self.cell
    }
}

// What a change makes of these aliases; None if there would be too many.
fn next_of(
    alloc: Global,
    aliases: &[(Text, Stem)],
    name: &Text,
    stem: &Option<Stem>,
    live: &[Stem],
) -> Result<Option<Next>, OutOfMemory>
    requires are { AreAliases aliases.now }
    requires named { IsAliasName name.now }
    ensures { IfOk result (λ next. next ≡ few (changed name.now stem.now live.now aliases.now)) }
{
    known_stem(stem);
    let next = changed_aliases(alloc, aliases, name, stem, live)?;
    Next::of(alloc, next)
}

// Shows what the type of a stem says of it.
fn known_stem(stem: &Option<Stem>)
    ensures { IfSome stem.now IsStem }
{
    if let Some(stem) = stem {
        let _text = stem.as_str();
    }
}

// The buffer that a resolve of the cell reads the file into; empty if the file is known.
fn buffer_for<S: Slot>(alloc: Global, cell: &FileCell<S>) -> Result<Vec<u8>, OutOfMemory>
    ensures { ¬ (IsKnown cell.now.file)
        → IfOk result (λ buffer. longest_of cell.now.file < length buffer.items) }
{
    let mut buffer = Vec::new(alloc);
    if cell.is_known() {
        return Ok(buffer);
    }
    let Some(room) = cell.longest().checked_add(1) else {
        return Err(AllocError);
    };
    buffer.resize(room, 0)?;
    Ok(buffer)
}
