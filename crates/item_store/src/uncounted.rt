// The calls whose steps aren't counted. No other file except tests makes a `Steps` (scripts/layers), so no
// call with a bound on its steps can take some of them on another count.
ghost use Rattle.std.specs.Prelude.{◌≡◌, ℕ, ◌<◌, IfOk, filter, map};
ghost use Rattle.std.specs.Option.{option_map};
ghost use Rattle.attribute_index.specs.Index.{IsFound};
ghost use Rattle.item_store.specs.Rows.{first_id, has_just, passes_at, row_at};

use crate::RowList;
use crate::rows::has_just_at;
use attribute_index::AttributeIndex;
use kr_base::{Attributes, IdList, ItemId, OutOfMemory, Steps};
use std::marker::Brand;
use std::sync::ledger::{Blank, Ledger};

/// What an index finds, with a count of its own.
fn found_by<L: Ledger>(
    index: &AttributeIndex,
    wanted: &Attributes,
    blank: Blank,
) -> Result<Vec<ItemId>, OutOfMemory>
    requires name { blank.name ≡ L.name }
    requires parts { blank.parts ≡ L.parts }
    requires some { 0 < L.parts }
    ensures { IfOk result (λ found. IsFound index.now wanted.now (map (λ id. id.0) found.items)) }
{
    let mut steps = Steps::<L>::new(blank);
    index.find(wanted, &mut steps)
}

/// The first of the ids whose item has exactly the given attributes, with a count of its own.
fn first_by<L: Ledger>(
    rows: &RowList,
    ids: &IdList,
    attributes: &Attributes,
    blank: Blank,
) -> Option<ItemId>
    requires name { blank.name ≡ L.name }
    requires parts { blank.parts ≡ L.parts }
    requires some { 0 < L.parts }
    ensures { option_map (λ id. id.0) result ≡ first_id (filter
        (λ id. passes_at (has_just attributes.now) (row_at id rows.now)) ids.now) }
{
    let mut steps = Steps::<L>::new(blank);
    for place in 0..ids.len() {
        let id = ids.at(place, &mut steps);
        if has_just_at(rows, id, attributes) {
            return Some(id);
        }
    }
    None
}

/// What an index finds, without a count of the steps.
pub fn found(index: &AttributeIndex, wanted: &Attributes) -> Result<Vec<ItemId>, OutOfMemory>
    ensures { IfOk result (λ found. IsFound index.now wanted.now (map (λ id. id.0) found.items)) }
{
    found_by::<Brand>(index, wanted, Blank::new(1))
}

/// The first of the ids whose item has exactly the given attributes, as texts, without a count of the steps.
pub fn first_equal(rows: &RowList, ids: &IdList, attributes: &Attributes) -> Option<ItemId>
    ensures { option_map (λ id. id.0) result ≡ first_id (filter
        (λ id. passes_at (has_just attributes.now) (row_at id rows.now)) ids.now) }
{
    first_by::<Brand>(rows, ids, attributes, Blank::new(1))
}
