// The rows by rising id, in one piece of memory: each is an item with its id and its type, which is kept as it was
// in the file. The items of a file whose ids rise become rows where they are.

ghost use Rattle.std.specs.Prelude.{◌≡◌, ℕ, ◌+◌, ◌<◌, ◌↔◌, ◌++◌, ◌∷◌, [], IfNone, IfSome, IsTrue, OnOk, OnErr, Some, None, if◌then◌else◌, map, nat_eq};
ghost use Rattle.std.specs.Bool.{OnTrue, OnFalse};
ghost use Rattle.std.specs.List.{AllByRecursion, IsDistinct};
ghost use Rattle.std.specs.Map.{keys_of};
ghost use Rattle.std.specs.Option.{is_some, option_copied, option_map};
ghost use Rattle.item_store.specs.Moves.{with_attributes};
ghost use Rattle.item_store.specs.Rows.{HasJustRows, IsPlaceOf, IsRising, attributes_of, greatest_id, has_just, kept_of, last_id, next_id, passes_at, row_at, row_of, rows_changed, rows_without};
ghost use Rattle.item_store.specs.Swapping.{with_parts};

use crate::Swap;
use crate::swapping::{swap_item, swap_own};
use attribute_match::is_equal;
use keyring_file::FullItem;
use kr_base::{Attributes, Bytes, ItemId, OutOfMemory, Text};
use std::alloc::{AllocError, Global};
use std::marker::Model;

/// The rows of a collection's items, by rising id. A contract sees their list.
#[derive(Drop)]
pub struct RowList {
    rows: Vec<(ItemId, u32, FullItem)>,
}

impl Model for RowList {
    ghost use Rattle.std.specs.Prelude.{map};
    ghost use Rattle.item_store.specs.Rows.{IsRising, Rows, row_of};

    ghost Value = { Rows };

    ghost view = { λ l. map row_of l.rows.items };

    ghost invariant = { λ l. IsRising (map row_of l.rows.items) };
}

impl RowList {
    /// No rows. It takes no memory.
    pub fn new(alloc: Global) -> RowList
        ensures { result ≡ [] }
    {
        RowList {
            rows: Vec::new(alloc),
        }
    }

    /// The rows of the items, whose ids are distinct, by rising id. Items that are in this order already are left
    /// where they are. It takes no memory.
    pub fn of_items(items: Vec<(ItemId, u32, FullItem)>) -> RowList
        requires { IsDistinct nat_eq (map (λ item. item.0.0) items.items) }
        ensures { HasJustRows items.items result }
    {
        RowList {
            rows: in_order(items),
        }
    }

    /// The rows in their order.
    pub fn as_slice(&self) -> &[(ItemId, u32, FullItem)]
        ensures rows { map row_of result.now ≡ self.now }
        ensures rising { IsRising self.now }
    {
        self.rows.as_slice()
    }

    /// The greatest number of a row, or 0 if there are no rows.
    pub fn last_number(&self) -> u32
        ensures { result ≡ last_id self.now }
    {
        match self.rows.last() {
            Some(row) => row.0.0,
            None => 0,
        }
    }

    /// The row with this number; None if there is no such row.
    pub fn get(&self, number: u32) -> Option<&(ItemId, u32, FullItem)>
        ensures row { option_map kept_of (option_copied result) ≡ row_at number self.now }
        ensures id { IfSome result (λ row. row.now.0.0 ≡ number) }
    {
        match place_of(self.rows.as_slice(), number) {
            Some(place) => Some(&self.rows[place]),
            None => None,
        }
    }
}

/// Whether each number is less than the next one.
fn is_rising(rows: &[(ItemId, u32, FullItem)]) -> bool
    ensures { IsTrue result ↔ IsRising (map row_of rows.now) }
{
    for place in 1..rows.len() {
        if rows[place - 1].0.0 >= rows[place].0.0 {
            return false;
        }
    }
    true
}

/// The items, whose ids are distinct, by rising id. It takes no memory.
fn in_order(items: Vec<(ItemId, u32, FullItem)>) -> Vec<(ItemId, u32, FullItem)>
    requires { IsDistinct nat_eq (map (λ item. item.0.0) items.items) }
    ensures { HasJustRows items.items (map row_of result.items) }
{
    if is_rising(items.as_slice()) {
        return items;
    }
    let mut rows = items;
    rows.sort_unstable_by_key(|row| row.0.0);
    rows
}

/// The place of the row with this number; None if there is no such row.
fn place_of(rows: &[(ItemId, u32, FullItem)], number: u32) -> Option<usize>
    requires { IsRising (map row_of rows.now) }
    ensures found { IfSome result (IsPlaceOf number rows.now) }
    ensures none { IfNone result (row_at number (map row_of rows.now) ≡ None) }
{
    match rows.binary_search_by(|row| row.0.0.cmp(&number)) {
        Ok(place) => Some(place),
        Err(_) => None,
    }
}

/// The greatest number that a row can have.
const GREATEST_NUMBER: u32 = u32::MAX;

/// The greatest number that a row can have, as the definitions have it.
fn greatest() -> u32
    ensures { result ≡ greatest_id }
{
    GREATEST_NUMBER
}

/// The number of a new row; None if the greatest one is taken.
pub fn next_number(rows: &RowList) -> Option<u32>
    ensures value { result ≡ next_id rows.now }
    ensures ordered { IsRising rows.now }
{
    let _rows = rows.as_slice();
    let last = rows.last_number();
    if last == greatest() {
        return None;
    }
    Some(last + 1)
}

/// Puts a row after all others.
pub fn put_last(
    rows: &mut RowList,
    number: u32,
    kind: u32,
    item: FullItem,
) -> Result<(), OutOfMemory>
    requires { AllByRecursion (λ key. key < number) (keys_of rows.old) }
    ensures put { OnOk result (rows.new
        ≡ rows.old ++ (number, record { kind = kind; item = item }) ∷ []) }
    ensures unchanged { OnErr result (rows.new ≡ rows.old) }
{
    match rows.rows.push((ItemId(number), kind, item)) {
        Ok(_) => Ok(()),
        Err(_) => Err(AllocError),
    }
}

/// Whether there is a row with this number.
pub fn has(rows: &RowList, number: u32) -> bool
    ensures { result ≡ is_some (row_at number rows.now) }
{
    rows.get(number).is_some()
}

/// Takes a row out; None if there is no such row. It takes no memory.
pub fn take_out(rows: &mut RowList, number: u32) -> Option<(ItemId, u32, FullItem)>
    ensures value { option_map kept_of result ≡ row_at number rows.old }
    ensures id { IfSome result (λ row. row.0.0 ≡ number) }
    ensures taken { rows.new ≡ rows_without number rows.old }
{
    match place_of(rows.rows.as_slice(), number) {
        Some(place) => Some(rows.rows.remove(place)),
        None => None,
    }
}

/// Sets the secret of an item, and when it was changed.
fn set_value(item: &mut FullItem, value: Bytes, now: u64)
    ensures { item.new ≡ record item.old { value = value; modified = now } }
{
    item.value = value;
    item.modified = now;
}

/// Sets the secret of a row's item, and when it was changed. False if there is no such row.
pub fn set_secret(rows: &mut RowList, number: u32, value: Bytes, now: u64) -> bool
    ensures set { rows.new ≡ rows_changed number (λ row. record row {
      item = record row.item { value = value; modified = now };
    }) rows.old }
    ensures there { result ≡ is_some (row_at number rows.old) }
    ensures unchanged { OnFalse result (rows.new ≡ rows.old) }
{
    match place_of(rows.rows.as_slice(), number) {
        Some(place) => {
            set_value(&mut rows.rows[place].2, value, now);
            true
        }
        None => false,
    }
}

/// Sets the label of an item, and when it was changed.
fn set_name(item: &mut FullItem, label: Text, now: u64)
    ensures { item.new ≡ record item.old { label = label; modified = now } }
{
    item.label = label;
    item.modified = now;
}

/// Sets the label of a row's item, and when it was changed. False if there is no such row.
pub fn set_label(rows: &mut RowList, number: u32, label: Text, now: u64) -> bool
    ensures set { rows.new ≡ rows_changed number (λ row. record row {
      item = record row.item { label = label; modified = now };
    }) rows.old }
    ensures there { result ≡ is_some (row_at number rows.old) }
    ensures unchanged { OnFalse result (rows.new ≡ rows.old) }
{
    match place_of(rows.rows.as_slice(), number) {
        Some(place) => {
            set_name(&mut rows.rows[place].2, label, now);
            true
        }
        None => false,
    }
}

/// Sets the attributes of a row's item, and when it was changed. False if there is no such row.
pub fn set_attributes(rows: &mut RowList, number: u32, attributes: Attributes, now: u64) -> bool
    ensures set { rows.new ≡ rows_changed number (λ row. record row {
      item = record row.item { attributes = attributes; modified = now };
    }) rows.old }
    ensures there { result ≡ is_some (row_at number rows.old) }
    ensures unchanged { OnFalse result (rows.new ≡ rows.old) }
{
    let mut attributes = attributes;
    let mut modified = now;
    swap_attributes(rows, number, &mut attributes, &mut modified)
}

/// Swaps parts of a row's item. False if there is no such row.
pub fn swap_parts(rows: &mut RowList, number: u32, parts: &mut Swap) -> bool
    ensures set { rows.new ≡ rows_changed number
        (λ row. record row { item = with_parts parts.old row.item }) rows.old }
    ensures back { rows_changed number
        (λ row. record row { item = with_parts parts.new row.item }) rows.new ≡ rows.old }
    ensures there { result ≡ is_some (row_at number rows.old) }
    ensures unchanged { OnFalse result (parts.new ≡ parts.old) }
{
    match place_of(rows.rows.as_slice(), number) {
        Some(place) => {
            swap_item(&mut rows.rows[place].2, parts);
            true
        }
        None => false,
    }
}

/// Swaps the attributes of a row's item, and when it was changed. False if there is no such row.
pub fn swap_attributes(
    rows: &mut RowList,
    number: u32,
    attributes: &mut Attributes,
    modified: &mut u64,
) -> bool
    ensures set { rows.new
        ≡ rows_changed number (with_attributes attributes.old modified.old) rows.old }
    ensures back { rows_changed number (with_attributes attributes.new modified.new) rows.new
        ≡ rows.old }
    ensures given { IfSome (row_at number rows.old) (λ row. attributes.new ≡ attributes_of row) }
    ensures there { result ≡ is_some (row_at number rows.old) }
    ensures unchanged { OnFalse result (rows.new ≡ rows.old) }
{
    match place_of(rows.rows.as_slice(), number) {
        Some(place) => {
            swap_own(&mut rows.rows[place].2, attributes, modified);
            true
        }
        None => false,
    }
}

/// Whether there is an item with this id, and it has exactly the given attributes, as texts.
pub fn has_just_at(rows: &RowList, id: ItemId, attributes: &Attributes) -> bool
    ensures { result ≡ passes_at (has_just attributes.now) (row_at id.0 rows.now) }
{
    match rows.get(id.0) {
        Some(row) => is_equal(attributes, &row.2.attributes),
        None => false,
    }
}
