// The index of items that are given all at once.
ghost use Rattle.std.specs.Prelude.{◌≡◌, IfOk, map};
ghost use Rattle.item_store.specs.Rows.{AreOf, IsKept, row_of};

use crate::RowList;
use attribute_index::AttributeIndex;
use keyring_file::FullItem;
use kr_base::{Attributes, ItemId, OutOfMemory};
use std::alloc::Global;

/// The attributes of the rows, each with the row's id.
fn items_of(
    alloc: Global,
    rows: &[(ItemId, u32, FullItem)],
) -> Result<Vec<(ItemId, &Attributes)>, OutOfMemory>
    ensures { IfOk result (λ items. AreOf (map row_of rows.now) items.items) }
{
    let mut items = Vec::with_capacity(alloc, rows.len())?;
    for row in rows {
        items.push((row.0, &row.2.attributes))?;
    }
    Ok(items)
}

/// The index of the rows. It is made at once: to add one row after the other takes several times as long.
pub fn index_of(alloc: Global, rows: &RowList) -> Result<AttributeIndex, OutOfMemory>
    ensures { IfOk result (λ index. IsKept rows.now index) }
{
    let items = items_of(alloc, rows.as_slice())?;
    AttributeIndex::of_items(alloc, items.as_slice())
}
