ghost use Rattle.std.specs.Prelude.{◌≡◌, ℕ, ◌+◌, ◌*◌, ◌<◌, ◌≤◌, List, [], IfOk, OnOk, OnErr, length, map, slice_index_or};
ghost use Rattle.kr_base.specs.IdLists.{IsIdList, has_id, with_id, without_id};
ghost use Rattle.attribute_match.specs.Match.{has_pair, text_of};
ghost use Rattle.attribute_index.specs.Entries.{IsIndexOf, some_is};
ghost use Rattle.attribute_index.specs.Index.{IsAtJust, IsFound, IsMoved, IsPut, IsSame, IsTaken, ids_at, is_own, wanted_lists};

use crate::chain::pairs_of_entries;
use crate::entries::sorted_entries;
use crate::finding::{all_of, in_all};
use crate::keys::fits;
use crate::names::{put_all, take_all};
use crate::pairs::Pairs;
use kr_base::{AttrValue, Attributes, IdList, ItemId, OutOfMemory, Steps, Text};
use std::alloc::{AllocError, Global};
use std::marker::Model;
use std::sync::ledger::Ledger;

/// For each pair of a name and a text the ids of the items that have it, in rising order, and a list of all
/// ids. A contract sees the ids at each name and text.
#[derive(Drop)]
pub struct AttributeIndex {
    names: Pairs,
    all: IdList,
    none: IdList,
    alloc: Global,
}

impl Model for AttributeIndex {
    ghost use Rattle.std.specs.Prelude.{◌≡◌, []};
    ghost use Rattle.attribute_index.specs.Index.{AllRise, Index, IsLean};

    ghost Value = { Index };

    ghost view = { λ i. record { names = i.names; all = i.all } };

    ghost invariant = { λ i. AllRise i.names × IsLean i.names × (i.none ≡ []) };
}

/// The ids of the items.
fn all_ids(alloc: Global, items: &[(ItemId, &Attributes)]) -> Result<IdList, OutOfMemory>
    ensures rise { IfOk result IsIdList }
    ensures each { IfOk result (λ ids. (id : ℕ) → has_id ids id ≡ some_is items.now id) }
{
    let mut ids = IdList::new(alloc);
    for place in 0..items.len() {
        let (id, _) = items[place];
        fits(id.0);
        ids.insert(alloc, id)?;
    }
    Ok(ids)
}

impl AttributeIndex {
    /// An index without ids. It takes no memory.
    pub fn new(alloc: Global) -> AttributeIndex
        ensures names { result.names ≡ [] }
        ensures all { result.all ≡ [] }
    {
        AttributeIndex {
            names: Pairs::new(),
            all: IdList::new(alloc),
            none: IdList::new(alloc),
            alloc,
        }
    }

    /// The index of many items, each given with its id, in any order. It is made at once, from their sorted
    /// attributes: to add one item after the other takes several times as long. Until it returns, it also takes
    /// 16 bytes for each attribute.
    ///
    /// Refused if no memory is left.
    pub fn of_items(
        alloc: Global,
        items: &[(ItemId, &Attributes)],
    ) -> Result<AttributeIndex, OutOfMemory>
        ensures { IfOk result (IsIndexOf items.now) }
    {
        let entries = sorted_entries(alloc, items)?;
        let names = pairs_of_entries(alloc, entries.as_slice())?;
        Ok(AttributeIndex {
            names,
            all: all_ids(alloc, items)?,
            none: IdList::new(alloc),
            alloc,
        })
    }

    /// Puts an id, which isn't in the index yet, at the pairs of the attributes and into the list of all ids.
    pub fn add(&mut self, id: ItemId, attributes: &Attributes) -> Result<(), OutOfMemory>
        requires { IsAtJust [] id.0 self.old.names }
        ensures put { OnOk result (IsPut
            (λ name text. has_pair name text attributes.now) id.0 self.old.names self.new.names) }
        ensures all { OnOk result (self.new.all ≡ with_id id.0 self.old.all) }

        // After a refusal each list is as before.
        ensures unchanged { OnErr result (IsSame self.old.names self.new.names) }
        ensures all_unchanged { OnErr result (self.new.all ≡ self.old.all) }
    {
        fits(id.0);
        let none = Attributes::new(self.alloc);
        if let Err(_) = put_all(
            self.alloc,
            &mut self.names,
            attributes.as_slice(),
            &none,
            id,
        ) {
            return Err(AllocError);
        }
        if let Err(_) = self.all.insert(self.alloc, id) {
            take_all(
                self.alloc,
                &mut self.names,
                attributes.as_slice(),
                &none,
                id,
            );
            return Err(AllocError);
        }
        Ok(())
    }

    /// Takes an id out of the pairs of the attributes and of the list of all ids. It takes no memory.
    pub fn take_out(&mut self, id: ItemId, attributes: &Attributes)
        ensures taken { IsTaken
            (λ name text. has_pair name text attributes.now) id.0 self.old.names self.new.names }
        ensures all { self.new.all ≡ without_id id.0 self.old.all }
    {
        let none = Attributes::new(self.alloc);
        take_all(
            self.alloc,
            &mut self.names,
            attributes.as_slice(),
            &none,
            id,
        );
        self.all.remove(self.alloc, id);
    }

    /// Moves an id from the pairs of the attributes `before` to those of the attributes `after`.
    pub fn change(
        &mut self,
        id: ItemId,
        before: &Attributes,
        after: &Attributes,
    ) -> Result<(), OutOfMemory>
        requires { IsAtJust before.now id.0 self.old.names }
        ensures moved { OnOk result (IsMoved before.now after.now id.0
            self.old.names self.new.names) }
        ensures unchanged { OnErr result (IsSame self.old.names self.new.names) }
        ensures all { self.new.all ≡ self.old.all }
    {
        fits(id.0);
        if let Err(_) = put_all(self.alloc, &mut self.names, after.as_slice(), before, id) {
            return Err(AllocError);
        }
        take_all(self.alloc, &mut self.names, before.as_slice(), after, id);
        Ok(())
    }

    /// Puts an id, which is at the pairs of the attributes `before`, also at those of the attributes `after`.
    pub fn put_also(
        &mut self,
        id: ItemId,
        before: &Attributes,
        after: &Attributes,
    ) -> Result<(), OutOfMemory>
        requires { IsAtJust before.now id.0 self.old.names }
        ensures put { OnOk result (IsPut (is_own after.now before.now) id.0
            self.old.names self.new.names) }
        ensures unchanged { OnErr result (IsSame self.old.names self.new.names) }
        ensures all { self.new.all ≡ self.old.all }
    {
        fits(id.0);
        if let Err(_) = put_all(self.alloc, &mut self.names, after.as_slice(), before, id) {
            return Err(AllocError);
        }
        Ok(())
    }

    /// Takes an id out of the pairs of the attributes that the others don't have. It takes no memory.
    pub fn take_but(&mut self, id: ItemId, attributes: &Attributes, others: &Attributes)
        ensures taken { IsTaken (is_own attributes.now others.now) id.0
            self.old.names self.new.names }
        ensures all { self.new.all ≡ self.old.all }
    {
        take_all(
            self.alloc,
            &mut self.names,
            attributes.as_slice(),
            others,
            id,
        );
    }

    /// All ids.
    pub fn all(&self) -> &IdList
        ensures { result.now ≡ self.now.all }
    {
        &self.all
    }

    /// The ids at a name with the text of a value.
    pub fn ids(&self, name: &Text, value: &AttrValue) -> &IdList
        ensures { result.now ≡ ids_at self.now name.now (text_of value.now) }
    {
        match value {
            AttrValue::Text(text) => self.at_text(name, text),
            AttrValue::Number(number) => self.at_text(name, &Text::of_number(*number)),
        }
    }

    /// The ids at a name and a text.
    fn at_text(&self, name: &Text, text: &Text) -> &IdList
        ensures { result.now ≡ ids_at self.now name.now text.now }
    {
        match self.names.get(name, text) {
            Some(list) => list,
            None => &self.none,
        }
    }

    /// The ids at each wanted pair.
    fn wanted_lists(&self, wanted: &[(Text, AttrValue)]) -> Result<Vec<&IdList>, OutOfMemory>
        ensures { IfOk result (λ lists. map (λ l. l.now) lists.items
            ≡ wanted_lists self.now wanted.now) }
    {
        let mut lists = Vec::with_capacity(self.alloc, wanted.len())?;
        for (name, value) in wanted {
            lists.push(self.ids(name, value))?;
        }
        Ok(lists)
    }

    /// The ids of the items that have each wanted pair, in rising order, or all ids if none is wanted. A
    /// number is found by its decimal text.
    ///
    /// A step is one id read or looked up. A search takes at most as many steps as the rarest wanted pair has
    /// ids, times the number of wanted pairs, or as many as there are ids if none is wanted. Each id that is
    /// found is counted as at least one.
    pub fn find<L: Ledger>(
        &self,
        wanted: &Attributes,
        steps: &mut Steps<L>,
    ) -> Result<Vec<ItemId>, OutOfMemory>
        ensures found { IfOk result (λ found. IsFound self.now wanted.now (map
            (λ id. id.0) found.items)) }
        ensures few { (pair : ℕ) → pair < length wanted.now → steps.new
            ≤ steps.old + length (slice_index_or (wanted_lists self.now wanted.now) pair [])
            * length wanted.now }
        ensures few_of_all { wanted.now ≡ [] → steps.new ≤ steps.old + length self.now.all }
        ensures counted { IfOk result (λ found. steps.old + length found.items ≤ steps.new) }
    {
        if wanted.is_empty() {
            return all_of(self.alloc, &self.all, steps);
        }
        let lists = self.wanted_lists(wanted.as_slice())?;
        in_all(self.alloc, lists.as_slice(), steps)
    }
}
