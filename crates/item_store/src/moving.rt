// While the attributes of an item change, its id is at the pairs of the old and of the new ones. So the change
// takes all of its memory when it begins, and none when it is finished or undone.
ghost use Rattle.std.specs.Prelude.{◌≡◌, true, IfOk, IfErr, IfSome, OnOk, OnErr};
ghost use Rattle.std.specs.Option.{is_some};
ghost use Rattle.attribute_index.specs.Index.{IsPut, IsSame, IsTaken, is_own};
ghost use Rattle.item_store.specs.Moves.{with_attributes};
ghost use Rattle.item_store.specs.Rows.{IsKept, attributes_of, row_at, rows_changed};

use crate::rows::swap_attributes;
use crate::store::store_of;
use crate::{ItemStore, RowList};
use attribute_index::AttributeIndex;
use kr_base::{Attributes, ItemId, OutOfMemory};
use std::marker::Model;

/// The items of one collection while the attributes of one of them change. A contract sees the rows before
/// the change and after it.
#[derive(Drop)]
pub struct Moving {
    rows: RowList,
    index: AttributeIndex,
    number: u32,
    // The attributes before the change, and when the item had been changed last.
    attributes: Attributes,
    modified: u64,
}

impl Model for Moving {
    ghost use Rattle.item_store.specs.Rows.{rows_changed};
    ghost use Rattle.item_store.specs.Moves.{IsMoving, Moves, with_attributes};

    ghost Value = { Moves };

    ghost view = { λ m. record {
      before = rows_changed m.number (with_attributes m.attributes m.modified) m.rows;
      after = m.rows;
    } };

    ghost invariant = { λ m. IsMoving m.rows m.index m.number m.attributes m.modified };
}

impl Moving {
    /// The rows after the change.
    pub fn rows(&self) -> &RowList
        ensures { result.now ≡ self.now.after }
    {
        &self.rows
    }

    /// Finishes the change: the items as they are after it. It takes no memory.
    pub fn finish(self) -> ItemStore
        ensures { result ≡ self.after }
    {
        let Moving {
            rows,
            index,
            number,
            attributes,
            ..
        } = self;
        let mut index = index;
        take_old(&rows, &mut index, number, &attributes);
        store_of(rows, index)
    }

    /// Undoes the change: the items as they were before. It takes no memory.
    pub fn undo(self) -> ItemStore
        ensures { result ≡ self.before }
    {
        let Moving {
            rows,
            index,
            number,
            attributes,
            modified,
        } = self;
        let mut rows = rows;
        let mut index = index;
        let mut attributes = attributes;
        let mut modified = modified;
        take_new(&rows, &mut index, number, &attributes);
        swap_attributes(&mut rows, number, &mut attributes, &mut modified);
        store_of(rows, index)
    }
}

/// Begins a change of the attributes of a row's item. If no memory is left, the rows and the index are
/// returned as they were.
pub fn begin(
    rows: RowList,
    index: AttributeIndex,
    number: u32,
    attributes: Attributes,
    now: u64,
) -> Result<Moving, (RowList, AttributeIndex)>
    requires kept { IsKept rows index }
    requires there { is_some (row_at number rows) ≡ true }
    ensures before { IfOk result (λ moving. moving.before ≡ rows) }
    ensures after { IfOk result (λ moving. moving.after
        ≡ rows_changed number (with_attributes attributes now) rows) }
    ensures unchanged { IfErr result (λ parts. parts.0 ≡ rows) }
    ensures still_kept { IfErr result (λ parts. IsKept parts.0 parts.1) }
{
    let mut rows = rows;
    let mut index = index;
    let mut attributes = attributes;
    let mut modified = now;
    if let Err(_) = put_id(&rows, &mut index, number, &attributes) {
        return Err((rows, index));
    }
    swap_attributes(&mut rows, number, &mut attributes, &mut modified);
    Ok(Moving {
        rows,
        index,
        number,
        attributes,
        modified,
    })
}

/// Puts the id of a row also at the pairs of these attributes.
fn put_id(
    rows: &RowList,
    index: &mut AttributeIndex,
    number: u32,
    attributes: &Attributes,
) -> Result<(), OutOfMemory>
    requires there { is_some (row_at number rows.now) ≡ true }
    requires kept { IsKept rows.now index.old }
    ensures put { OnOk result (IfSome (row_at number rows.now)
        (λ row. IsPut (is_own attributes.now (attributes_of row)) number
        index.old.names index.new.names)) }
    ensures unchanged { OnErr result (IsSame index.old.names index.new.names) }
    ensures all { index.new.all ≡ index.old.all }
{
    match rows.get(number) {
        Some(row) => index.put_also(ItemId(number), &row.2.attributes, attributes),
        None => unreachable!(),
    }
}

/// Takes the id of a row out of the pairs of these attributes that the item doesn't have.
fn take_old(rows: &RowList, index: &mut AttributeIndex, number: u32, attributes: &Attributes)
    requires { is_some (row_at number rows.now) ≡ true }
    ensures taken { IfSome (row_at number rows.now)
        (λ row. IsTaken (is_own attributes.now (attributes_of row)) number
        index.old.names index.new.names) }
    ensures all { index.new.all ≡ index.old.all }
{
    match rows.get(number) {
        Some(row) => index.take_but(ItemId(number), attributes, &row.2.attributes),
        None => unreachable!(),
    }
}

/// Takes the id of a row out of the pairs of the item that these attributes don't have.
fn take_new(rows: &RowList, index: &mut AttributeIndex, number: u32, attributes: &Attributes)
    requires { is_some (row_at number rows.now) ≡ true }
    ensures taken { IfSome (row_at number rows.now)
        (λ row. IsTaken (is_own (attributes_of row) attributes.now) number
        index.old.names index.new.names) }
    ensures all { index.new.all ≡ index.old.all }
{
    match rows.get(number) {
        Some(row) => index.take_but(ItemId(number), &row.2.attributes, attributes),
        None => unreachable!(),
    }
}
