ghost use Rattle.std.specs.Prelude.{◌≡◌, ◌++◌, ◌∷◌, [], true, false, not, IfOk, OnOk};
ghost use Rattle.keyring_file.specs.declared.clear.ClearItem.{ClearItem as Item};
ghost use Rattle.keyring_file.specs.Numbers.{Keeps, IsGathered, has_number};

use crate::ClearItem;
use kr_base::OutOfMemory;
use std::alloc::Global;
use std::collections::BTreeSet;

/// What is kept of the items' numbers while the items are read. As long as each number is greater
/// than those before it, a bound is enough; after that there is a set.
#[derive(Drop)]
pub struct Numbers {
    rising: bool,
    below: u64,
    ids: BTreeSet<u32>,
}

/// What is kept before the first item. It takes no memory.
pub fn no_numbers(alloc: Global) -> Numbers
    ensures none { Keeps [] result }
    ensures rising { result.rising ≡ true }
    ensures least { result.below ≡ 0 }
{
    Numbers {
        rising: true,
        below: 0,
        ids: BTreeSet::new(alloc),
    }
}

/// The set of the items' numbers.
fn set_of(alloc: Global, items: &[ClearItem]) -> Result<BTreeSet<u32>, OutOfMemory>
    ensures { IfOk result (λ ids. IsGathered items.now ids.keys) }
{
    let mut ids = BTreeSet::new(alloc);
    for item in items {
        ids.insert(item.id.0)?;
    }
    Ok(ids)
}

/// Builds the set, unless it is there already.
fn gather(alloc: Global, numbers: &mut Numbers, items: &[ClearItem]) -> Result<(), OutOfMemory>
    requires { Keeps items.now numbers.old }
    ensures set { OnOk result (IsGathered items.now numbers.new.ids.keys) }
    ensures settled { OnOk result (numbers.new.rising ≡ false) }
{
    if numbers.rising {
        numbers.ids = set_of(alloc, items)?;
        numbers.rising = false;
    }
    Ok(())
}

/// Whether no item has this number. If none has it, it is kept with theirs.
pub fn is_new(
    alloc: Global,
    numbers: &mut Numbers,
    items: &[ClearItem],
    id: u32,
) -> Result<bool, OutOfMemory>
    requires { Keeps items.now numbers.old }
    ensures test { IfOk result (λ new. new ≡ not (has_number items.now id)) }
    ensures kept { IfOk result (λ new. new ≡ true → (item : Item) → item.id.0 ≡ id
        → Keeps (items.now ++ item ∷ []) numbers.new) }
{
    if numbers.rising && id as u64 >= numbers.below {
        numbers.below = id as u64 + 1;
        return Ok(true);
    }
    gather(alloc, numbers, items)?;
    Ok(numbers.ids.insert(id)?)
}
