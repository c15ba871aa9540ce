ghost use Rattle.std.specs.Prelude.{◌≡◌, ℕ, ◌+◌, ◌<◌, ◌≤◌, ◌↔◌, ◌++◌, ◌∷◌, List, [], IfOk, IfErr, IfSome, OnOk, OnErr, IsErrOf, IsSome, Some, None, true, IfNone, false, ◌*◌, if◌then◌else◌, slice_index_or, nat_eq, length, map};
ghost use Rattle.std.specs.Bool.{OnFalse};
ghost use Rattle.std.specs.Option.{is_some, option_copied, option_map};
ghost use Rattle.attribute_match.specs.Match.{has_pair, matches as matches_all};
ghost use Rattle.kr_base.specs.IdLists.{with_id};
ghost use Rattle.std.specs.List.{AllByRecursion, IsDistinct};
ghost use Rattle.std.specs.Map.{keys_of};
ghost use Rattle.attribute_index.specs.Index.{IsAtJust, IsMoved, IsPut, IsSame};
ghost use Rattle.item_store.specs.Rows.{HasJustRows, IsKept, IsRising, attributes_of, candidates, first_id, has_just, ids_where, kept_of, most_attributes, next_id, pair_lists, row_at, rows_changed, rows_without};
ghost use Rattle.item_store.specs.Moves.{with_attributes};
ghost use Rattle.item_store.specs.Swapping.{with_parts};

use crate::loading::index_of;
use crate::moving::{Moving, begin};
use crate::uncounted::{first_equal, found};
use crate::{ItemFault, RowList, Swap, rows};
use attribute_index::AttributeIndex;
use keyring_file::FullItem;
use kr_base::{Attributes, Bytes, IdList, ItemId, OutOfMemory, Steps, Text};
use std::alloc::{AllocError, Global};
use std::marker::Model;
use std::sync::ledger::Ledger;

/// The items of one collection, by rising id. A contract sees the rows; the index always agrees with them.
#[derive(Drop)]
pub struct ItemStore {
    rows: RowList,
    index: AttributeIndex,
}

impl Model for ItemStore {
    ghost use Rattle.item_store.specs.Rows.{IsKept, Rows};

    ghost Value = { Rows };

    ghost view = { λ s. s.rows };

    ghost invariant = { λ s. IsKept s.rows s.index };
}

/// The items with these rows and this index.
pub fn store_of(rows: RowList, index: AttributeIndex) -> ItemStore
    requires { IsKept rows index }
    ensures { result ≡ rows }
{
    ItemStore { rows, index }
}

/// The most attributes that a call may give an item.
pub const MOST_ATTRIBUTES: usize = 256;

/// The most attributes that a call may give an item, as the definitions have it.
fn most() -> usize
    ensures { result ≡ most_attributes }
{
    MOST_ATTRIBUTES
}

impl ItemStore {
    /// A collection without items. It takes no memory.
    pub fn new(alloc: Global) -> ItemStore
        ensures { result ≡ [] }
    {
        ItemStore {
            rows: RowList::new(alloc),
            index: AttributeIndex::new(alloc),
        }
    }

    /// The items of a file, each with its id and its kind. Their ids are distinct.
    pub fn loaded(rows: Vec<(ItemId, u32, FullItem)>) -> Result<ItemStore, OutOfMemory>
        requires distinct { IsDistinct nat_eq (map (λ row. row.0.0) rows.items) }
        ensures { IfOk result (λ store. HasJustRows rows.items store) }
    {
        let alloc = *rows.allocator();
        let rows = RowList::of_items(rows);
        let index = index_of(alloc, &rows)?;
        Ok(ItemStore { rows, index })
    }

    /// Adds an item. Its id is the greatest one plus 1, or 1 if there are no items.
    ///
    /// Refused with `IdsSpent` if the greatest id is 4294967295, and otherwise with `TooManyAttributes` if the
    /// item has over 256.
    pub fn add(&mut self, item: FullItem, kind: u32) -> Result<ItemId, ItemFault>
        ensures id { IfOk result (λ id. Some id.0 ≡ next_id self.old) }
        ensures added { IfOk result (λ id. self.new
            ≡ self.old ++ (id.0, record { kind = kind; item = item }) ∷ []) }

        // The refusals, in their order. After each of them the rows are as before.
        ensures ids_spent { IsErrOf result ItemFault.IdsSpent ↔ (next_id self.old ≡ None) }
        ensures too_many { IsErrOf result ItemFault.TooManyAttributes
            ↔ (IsSome (next_id self.old) × (most_attributes < length item.attributes)) }
        ensures never_no_item { IsErrOf result ItemFault.NoItem → ⊥ }
        ensures unchanged { OnErr result (self.new ≡ self.old) }
    {
        let Some(number) = rows::next_number(&self.rows) else {
            return Err(ItemFault::IdsSpent);
        };
        if item.attributes.len() > most() {
            return Err(ItemFault::TooManyAttributes);
        }
        if let Err(_) = add_row(&mut self.rows, &mut self.index, number, kind, item) {
            return Err(ItemFault::OutOfMemory);
        }
        Ok(ItemId(number))
    }

    /// Sets the secret of an item, and when it was changed. Refused with `NoItem` if there is no such item.
    pub fn set_secret(&mut self, id: ItemId, value: Bytes, now: u64) -> Result<(), ItemFault>
        ensures set { OnOk result (self.new ≡ rows_changed id.0 (λ row. record row {
          item = record row.item { value = value; modified = now };
        }) self.old) }
        ensures there { OnOk result (is_some (row_at id.0 self.old) ≡ true) }
        ensures no_item { OnErr result (is_some (row_at id.0 self.old) ≡ false) }
        ensures only_no_item { OnErr result (IsErrOf result ItemFault.NoItem) }
        ensures unchanged { OnErr result (self.new ≡ self.old) }
    {
        if !rows::set_secret(&mut self.rows, id.0, value, now) {
            return Err(ItemFault::NoItem);
        }
        Ok(())
    }

    /// Sets the label of an item, and when it was changed. Refused with `NoItem` if there is no such item.
    pub fn set_label(&mut self, id: ItemId, label: Text, now: u64) -> Result<(), ItemFault>
        ensures set { OnOk result (self.new ≡ rows_changed id.0 (λ row. record row {
          item = record row.item { label = label; modified = now };
        }) self.old) }
        ensures there { OnOk result (is_some (row_at id.0 self.old) ≡ true) }
        ensures no_item { OnErr result (is_some (row_at id.0 self.old) ≡ false) }
        ensures only_no_item { OnErr result (IsErrOf result ItemFault.NoItem) }
        ensures unchanged { OnErr result (self.new ≡ self.old) }
    {
        if !rows::set_label(&mut self.rows, id.0, label, now) {
            return Err(ItemFault::NoItem);
        }
        Ok(())
    }

    /// Swaps parts of an item with others, and returns whether the item is there. A second swap undoes the
    /// first. If there is no such item, the parts stay as they were. It takes no memory.
    pub fn swap(&mut self, id: ItemId, parts: &mut Swap) -> bool
        ensures there { result ≡ is_some (row_at id.0 self.old) }
        ensures set { self.new ≡ rows_changed id.0
            (λ row. record row { item = with_parts parts.old row.item }) self.old }
        ensures back { rows_changed id.0
            (λ row. record row { item = with_parts parts.new row.item }) self.new ≡ self.old }
        ensures unchanged { OnFalse result (parts.new ≡ parts.old) }
    {
        rows::swap_parts(&mut self.rows, id.0, parts)
    }

    /// Sets the attributes of an item, and when it was changed.
    ///
    /// Refused with `NoItem` if there is no such item, and otherwise with `TooManyAttributes` if there are over
    /// 256.
    pub fn set_attributes(
        &mut self,
        id: ItemId,
        attributes: Attributes,
        now: u64,
    ) -> Result<(), ItemFault>
        ensures set { OnOk result (self.new ≡ rows_changed id.0 (λ row. record row {
          item = record row.item { attributes = attributes; modified = now };
        }) self.old) }

        // The refusals, in their order. After each of them the rows are as before.
        ensures no_item { IsErrOf result ItemFault.NoItem
            ↔ (is_some (row_at id.0 self.old) ≡ false) }
        ensures too_many { IsErrOf result ItemFault.TooManyAttributes
            ↔ ((is_some (row_at id.0 self.old) ≡ true) × (most_attributes < length attributes)) }
        ensures never_ids_spent { IsErrOf result ItemFault.IdsSpent → ⊥ }
        ensures unchanged { OnErr result (self.new ≡ self.old) }
    {
        if !rows::has(&self.rows, id.0) {
            return Err(ItemFault::NoItem);
        }
        if attributes.len() > most() {
            return Err(ItemFault::TooManyAttributes);
        }
        if let Err(_) = move_row(&mut self.rows, &mut self.index, id.0, attributes, now) {
            return Err(ItemFault::OutOfMemory);
        }
        Ok(())
    }

    /// Begins a change of an item's attributes, and of when it was changed. The change takes all of its memory
    /// here.
    ///
    /// If no memory is left, the items are returned as they were.
    pub fn begin_attributes(
        self,
        id: ItemId,
        attributes: Attributes,
        now: u64,
    ) -> Result<Moving, ItemStore>
        requires { is_some (row_at id.0 self) ≡ true }
        ensures before { IfOk result (λ moving. moving.before ≡ self) }
        ensures after { IfOk result (λ moving. moving.after
            ≡ rows_changed id.0 (with_attributes attributes now) self) }
        ensures unchanged { IfErr result (λ back. back ≡ self) }
    {
        let ItemStore { rows, index } = self;
        match begin(rows, index, id.0, attributes, now) {
            Ok(moving) => Ok(moving),
            Err((rows, index)) => Err(ItemStore { rows, index }),
        }
    }

    /// Takes an item out. Refused with `NoItem` if there is no such item. It takes no memory.
    pub fn remove(&mut self, id: ItemId) -> Result<FullItem, ItemFault>
        ensures item { IfOk result (λ item. option_map (λ row. row.item) (row_at id.0 self.old)
            ≡ Some item) }
        ensures taken { OnOk result (self.new ≡ rows_without id.0 self.old) }
        ensures no_item { OnErr result (is_some (row_at id.0 self.old) ≡ false) }
        ensures only_no_item { OnErr result (IsErrOf result ItemFault.NoItem) }
        ensures unchanged { OnErr result (self.new ≡ self.old) }
    {
        match remove_row(&mut self.rows, &mut self.index, id.0) {
            Some(row) => Ok(row.2),
            None => Err(ItemFault::NoItem),
        }
    }

    /// The item with this id; None if there is no such item.
    pub fn item(&self, id: ItemId) -> Option<&FullItem>
        ensures { option_copied result ≡ option_map (λ row. row.item) (row_at id.0 self.now) }
    {
        match self.rows.get(id.0) {
            Some(row) => Some(&row.2),
            None => None,
        }
    }

    /// The rows, by rising id. A collection's file is written from them without copying an item.
    pub fn rows(&self) -> &RowList
        ensures rows { result.now ≡ self.now }
        ensures rising { IsRising self.now }
    {
        &self.rows
    }

    /// The least id of an item that has exactly the given attributes, as texts. It takes no memory.
    pub fn by_equal(&self, attributes: &Attributes) -> Option<ItemId>
        ensures { option_map (λ id. id.0) result
            ≡ first_id (ids_where (has_just attributes.now) self.now) }
    {
        first_equal(
            &self.rows,
            candidate_ids(&self.index, attributes),
            attributes,
        )
    }

    /// The ids of the items that have each wanted attribute, in rising order (Secret Service API, "Lookup
    /// Attributes"). It counts its steps: each id that is read from the index, or looked up in it, is one, so
    /// each id that is found is at least one.
    pub fn find<L: Ledger>(
        &self,
        wanted: &Attributes,
        steps: &mut Steps<L>,
    ) -> Result<Vec<ItemId>, OutOfMemory>
        ensures found { IfOk result (λ found. map (λ id. id.0) found.items
            ≡ ids_where (λ row. matches_all wanted.now (attributes_of row)) self.now) }
        ensures few { (pair : ℕ) → pair < length wanted.now → steps.new ≤ steps.old
            + length (slice_index_or (pair_lists wanted.now self.now) pair []) * length wanted.now }
        ensures few_of_all { wanted.now ≡ [] → steps.new ≤ steps.old + length self.now }
        ensures counted { IfOk result (λ found. steps.old + length found.items ≤ steps.new) }
    {
        self.index.find(wanted, steps)
    }

    /// The ids of the items that have each wanted attribute, in rising order (Secret Service API, "Lookup
    /// Attributes").
    pub fn search(&self, wanted: &Attributes) -> Result<Vec<ItemId>, OutOfMemory>
        ensures { IfOk result (λ found. map (λ id. id.0) found.items
            ≡ ids_where (λ row. matches_all wanted.now (attributes_of row)) self.now) }
    {
        found(&self.index, wanted)
    }
}

/// The ids of the items that have the first of the attributes, or of all items if there are no attributes.
fn candidate_ids<'a>(index: &'a AttributeIndex, attributes: &Attributes) -> &'a IdList
    ensures { result.now ≡ candidates attributes.now index.now }
{
    match attributes.as_slice().first() {
        Some((name, value)) => index.ids(name, value),
        None => index.all(),
    }
}

/// Adds the id of a row to the index.
fn add_id(rows: &RowList, index: &mut AttributeIndex, number: u32) -> Result<(), OutOfMemory>
    requires there { is_some (row_at number rows.now) ≡ true }
    requires fresh { IsAtJust [] number index.old.names }
    ensures put { OnOk result (IfSome (row_at number rows.now)
        (λ row. IsPut (λ name text. has_pair name text (attributes_of row)) number
        index.old.names index.new.names)) }
    ensures all { OnOk result (index.new.all ≡ with_id number index.old.all) }
    ensures unchanged { OnErr result (IsSame index.old.names index.new.names) }
    ensures all_unchanged { OnErr result (index.new.all ≡ index.old.all) }
{
    match rows.get(number) {
        Some(row) => index.add(ItemId(number), &row.2.attributes),
        None => unreachable!(),
    }
}

/// Moves the id of a row in the index from the attributes of its item to others.
fn move_id(
    rows: &RowList,
    index: &mut AttributeIndex,
    number: u32,
    attributes: &Attributes,
) -> Result<(), OutOfMemory>
    requires there { is_some (row_at number rows.now) ≡ true }
    requires kept { IsKept rows.now index.old }
    ensures moved { OnOk result (IfSome (row_at number rows.now)
        (λ row. IsMoved (attributes_of row) attributes.now number
        index.old.names index.new.names)) }
    ensures unchanged { OnErr result (IsSame index.old.names index.new.names) }
    ensures all { index.new.all ≡ index.old.all }
{
    match rows.get(number) {
        Some(row) => index.change(ItemId(number), &row.2.attributes, attributes),
        None => unreachable!(),
    }
}

/// Adds a row after all others, and its id to the index.
fn add_row(
    rows: &mut RowList,
    index: &mut AttributeIndex,
    number: u32,
    kind: u32,
    item: FullItem,
) -> Result<(), OutOfMemory>
    requires kept { IsKept rows.old index.old }
    requires last { AllByRecursion (λ key. key < number) (keys_of rows.old) }
    ensures kept { IsKept rows.new index.new }
    ensures added { OnOk result (rows.new
        ≡ rows.old ++ (number, record { kind = kind; item = item }) ∷ []) }
    ensures unchanged { OnErr result (rows.new ≡ rows.old) }
{
    rows::put_last(rows, number, kind, item)?;
    if let Err(_) = add_id(rows, index, number) {
        rows::take_out(rows, number);
        return Err(AllocError);
    }
    Ok(())
}

/// Takes a row out, and its id out of the index.
fn remove_row(
    rows: &mut RowList,
    index: &mut AttributeIndex,
    number: u32,
) -> Option<(ItemId, u32, FullItem)>
    requires { IsKept rows.old index.old }
    ensures kept { IsKept rows.new index.new }
    ensures value { option_map kept_of result ≡ row_at number rows.old }
    ensures id { IfSome result (λ row. row.0.0 ≡ number) }
    ensures taken { rows.new ≡ rows_without number rows.old }
    ensures unchanged { IfNone result (rows.new ≡ rows.old) }
{
    match rows::take_out(rows, number) {
        Some(row) => {
            index.take_out(ItemId(number), &row.2.attributes);
            Some(row)
        }
        None => None,
    }
}

/// Sets the attributes of a row's item, and moves its id in the index. The row is there, so it is refused
/// only if no memory is left.
fn move_row(
    rows: &mut RowList,
    index: &mut AttributeIndex,
    number: u32,
    attributes: Attributes,
    now: u64,
) -> Result<(), OutOfMemory>
    requires kept { IsKept rows.old index.old }
    requires there { is_some (row_at number rows.old) ≡ true }
    ensures kept { IsKept rows.new index.new }
    ensures set { OnOk result (rows.new ≡ rows_changed number (λ row. record row {
      item = record row.item { attributes = attributes; modified = now };
    }) rows.old) }
    ensures unchanged { OnErr result (rows.new ≡ rows.old) }
{
    if let Err(_) = move_id(rows, index, number, &attributes) {
        return Err(AllocError);
    }
    rows::set_attributes(rows, number, attributes, now);
    Ok(())
}
