ghost use Rattle.std.specs.Prelude.{◌≡◌, ◌↔◌, length, map, IfOk, IsTrue};
ghost use Rattle.std.specs.List.{zip};
ghost use Rattle.std.specs.List.Sorted.{IsStrictlyIncreasing};
ghost use Rattle.keyring_seal.specs.Arranged.{row_number};
ghost use Rattle.keyring_seal.specs.Order.{by_number};

use keyring_file::{ClearItem, FullItem};
use kr_base::OutOfMemory;
use std::alloc::Global;
use std::collections::BTreeMap;

/// Whether each number is less than the next one.
fn is_rising(clear: &[ClearItem]) -> bool
    ensures { IsTrue result
        ↔ IsStrictlyIncreasing (map (λ item. item.id.0) clear.now) }
{
    for i in 0..clear.len().saturating_sub(1) {
        if clear[i].id.0 >= clear[i + 1].id.0 {
            return false;
        }
    }
    true
}

/// The items in the given order, each as both parts have it.
fn as_they_stand<'a>(
    alloc: Global,
    clear: &'a [ClearItem],
    full: &'a [FullItem],
) -> Result<Vec<(&'a ClearItem, &'a FullItem)>, OutOfMemory>
    requires { length full.now ≡ length clear.now }
    ensures { IfOk result (λ found. map (λ row. (row.0.now, row.1.now)) found.items
        ≡ zip clear.now full.now) }
{
    let mut rows = Vec::with_capacity(alloc, clear.len())?;
    for i in 0..clear.len() {
        let clear_item = &clear[i];
        let item = &full[i];
        rows.push((clear_item, item))?;
    }
    Ok(rows)
}

/// The items by rising number, each as both parts have it. If they are in that order already,
/// they aren't sorted.
pub fn in_order<'a>(
    alloc: Global,
    clear: &'a [ClearItem],
    full: &'a [FullItem],
) -> Result<Vec<(&'a ClearItem, &'a FullItem)>, OutOfMemory>
    requires { length full.now ≡ length clear.now }
    ensures { IfOk result (λ found. map (λ row. (row.0.now, row.1.now)) found.items
        ≡ by_number row_number (zip clear.now full.now)) }
{
    if is_rising(clear) {
        return as_they_stand(alloc, clear, full);
    }
    let mut standing: BTreeMap<u32, (&ClearItem, &FullItem)> = BTreeMap::new(alloc);
    for i in 0..clear.len() {
        let clear_item = &clear[i];
        let item = &full[i];
        standing.insert(clear_item.id.0, (clear_item, item))?;
    }
    Ok(standing.into_values().collect(alloc)?)
}
