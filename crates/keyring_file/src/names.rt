ghost use Rattle.std.specs.Prelude.{◌≡◌, List, ℕ, true, false, not, IfOk};
ghost use Rattle.kr_base.specs.Attributes.{is_name};
ghost use Rattle.keyring_file.specs.Names.{has_in_row, has_name, AddsName};

use kr_base::OutOfMemory;
use std::alloc::Global;
use std::collections::BTreeSet;

/// The names read so far in one list. The first eight are in a row, which takes no memory, and those
/// after them are in a set.
#[derive(Drop)]
pub struct Names<'a> {
    few: [&'a [u8]; 8],
    count: usize,
    many: BTreeSet<&'a [u8]>,
}

/// No names. It takes no memory.
pub fn no_names<'a>(alloc: Global) -> Names<'a>
    ensures { (q : List ℕ) → has_name result q ≡ false }
{
    let none: &[u8] = &[];
    Names {
        few: [none; 8],
        count: 0,
        many: BTreeSet::new(alloc),
    }
}

/// Whether two names have the same bytes.
fn is_same(name: &[u8], other: &[u8]) -> bool
    ensures { result ≡ is_name name.now other.now }
{
    name == other
}

/// Whether the name is in the row.
fn is_in_row(names: &Names<'_>, name: &[u8]) -> bool
    ensures { result ≡ has_in_row names.now name.now }
{
    // The bound keeps this within the row, whatever the count.
    names.few[..names.count.min(8)]
        .iter()
        .any(|kept| is_same(name, kept))
}

/// Whether the name isn't one of those kept so far. If it isn't, it is added to them.
pub fn is_new_name<'a>(names: &mut Names<'a>, name: &'a [u8]) -> Result<bool, OutOfMemory>
    ensures test { IfOk result (λ new. new ≡ not (has_name names.old name.now)) }
    ensures kept { IfOk result (λ new. new ≡ true → AddsName names.old names.new name.now) }
{
    if is_in_row(names, name) {
        return Ok(false);
    }
    // The row is filled first: once there is a name in the set, none is put into the row.
    if names.count < 8 && names.many.is_empty() {
        names.few[names.count] = name;
        names.count += 1;
        return Ok(true);
    }
    Ok(names.many.insert(name)?)
}
