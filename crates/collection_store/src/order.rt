ghost use Rattle.std.specs.Prelude.{◌≡◌, ◌↔◌, ℕ, length, map, IfOk, IsTrue};
ghost use Rattle.std.specs.List.Sorted.{IsStrictlyIncreasing};
ghost use Rattle.keyring_seal.specs.Order.{by_number};

use keyring_file::{ClearItem, FullItem};
use kr_base::OutOfMemory;
use std::alloc::Global;
use std::collections::BTreeMap;

/// A value with a number.
pub trait Numbered: Drop {
    /// The number.
    ghost number_of: { Self → ℕ };

    /// The number.
    fn number(&self) -> u32
        ensures { result ≡ number_of self.now };
}

impl Numbered for ClearItem {
    ghost number_of = { λ item. item.id.0 };

    fn number(&self) -> u32 {
        self.id.0
    }
}

impl Numbered for (ClearItem, FullItem) {
    ghost number_of = { λ row. row.0.id.0 };

    fn number(&self) -> u32 {
        self.0.id.0
    }
}

/// Whether each number is less than the next one.
pub fn is_rising<T: Numbered>(these: &[T]) -> bool
    ensures { IsTrue result ↔ IsStrictlyIncreasing (map T.number_of these.now) }
{
    for i in 0..these.len().saturating_sub(1) {
        if these[i].number() >= these[i + 1].number() {
            return false;
        }
    }
    true
}

/// Sorts the values by number. Values that are in order are returned as they are.
pub fn in_order<T: Numbered>(alloc: Global, these: Vec<T>) -> Result<Vec<T>, OutOfMemory>
    ensures { IfOk result (λ made. made.items ≡ by_number T.number_of these.items) }
{
    if is_rising(these.as_slice()) {
        return Ok(these);
    }
    let mut entered: BTreeMap<u32, T> = BTreeMap::new(alloc);
    for one in these {
        entered.insert(one.number(), one)?;
    }
    Ok(entered.into_values().collect(alloc)?)
}
