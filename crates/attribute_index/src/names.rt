ghost use Rattle.std.specs.Prelude.{◌≡◌, ℕ, take as front, OnOk, OnErr};
ghost use Rattle.attribute_match.specs.Match.{text_of};
ghost use Rattle.attribute_index.specs.Index.{AllRise, IsAtJust, IsLean, IsPut, IsSame, IsTaken, is_own, is_own_pair, is_this};

use crate::pairs::Pairs;
use attribute_match::has_pair;
use kr_base::{AttrValue, Attributes, ItemId, OutOfMemory, Text};
use std::alloc::{AllocError, Global};

/// Puts an id at a name with the text of a value.
pub fn put_value(
    alloc: Global,
    names: &mut Pairs,
    name: &Text,
    value: &AttrValue,
    id: ItemId,
) -> Result<(), OutOfMemory>
    ensures put { OnOk result (IsPut (is_this name.now (text_of value.now)) id.0
        names.old names.new) }
    ensures unchanged { OnErr result (IsSame names.old names.new) }
    ensures lean { IsLean names.old → IsLean names.new }
{
    match value {
        AttrValue::Text(text) => names.put(alloc, name, text, id),
        AttrValue::Number(number) => names.put(alloc, name, &Text::of_number(*number), id),
    }
}

/// Takes an id out of a name with the text of a value.
fn take_value(alloc: Global, names: &mut Pairs, name: &Text, value: &AttrValue, id: ItemId)
    ensures taken { IsTaken (is_this name.now (text_of value.now)) id.0 names.old
        names.new }
    ensures lean { IsLean names.old → IsLean names.new }
{
    match value {
        AttrValue::Text(text) => names.take(alloc, name, text, id),
        AttrValue::Number(number) => names.take(alloc, name, &Text::of_number(*number), id),
    }
}

/// Puts an id at a name with the text of a value, unless these attributes have the pair.
fn put_own(
    alloc: Global,
    names: &mut Pairs,
    pair: &(Text, AttrValue),
    but: &Attributes,
    id: ItemId,
) -> Result<(), OutOfMemory>
    ensures put { OnOk result (IsPut (is_own_pair pair.now but.now) id.0
        names.old names.new) }
    ensures unchanged { OnErr result (IsSame names.old names.new) }
    ensures lean { IsLean names.old → IsLean names.new }
{
    if has_pair(&pair.0, &pair.1, but) {
        return Ok(());
    }
    put_value(alloc, names, &pair.0, &pair.1, id)
}

/// Takes an id out of a name with the text of a value, unless these attributes have the pair.
fn take_own(
    alloc: Global,
    names: &mut Pairs,
    pair: &(Text, AttrValue),
    but: &Attributes,
    id: ItemId,
)
    ensures taken { IsTaken (is_own_pair pair.now but.now) id.0
        names.old names.new }
    ensures lean { IsLean names.old → IsLean names.new }
{
    if has_pair(&pair.0, &pair.1, but) {
        return;
    }
    take_value(alloc, names, &pair.0, &pair.1, id);
}

/// Puts an id at each of the pairs that these attributes don't have. A refusal leaves it at the first ones.
fn put_first(
    alloc: Global,
    names: &mut Pairs,
    pairs: &[(Text, AttrValue)],
    but: &Attributes,
    id: ItemId,
) -> Result<(), OutOfMemory>
    ensures put { OnOk result (IsPut (is_own pairs.now but.now)
        id.0 names.old names.new) }
    ensures some { OnErr result ((count : ℕ)
        × IsPut (is_own (front count pairs.now) but.now) id.0 names.old names.new) }
    ensures lean { IsLean names.old → IsLean names.new }
{
    for place in 0..pairs.len() {
        if let Err(_) = put_own(alloc, names, &pairs[place], but, id) {
            return Err(AllocError);
        }
    }
    Ok(())
}

/// Takes an id out of each of the pairs that these attributes don't have. It takes no memory.
pub fn take_all(
    alloc: Global,
    names: &mut Pairs,
    pairs: &[(Text, AttrValue)],
    but: &Attributes,
    id: ItemId,
)
    ensures taken { IsTaken (is_own pairs.now but.now) id.0 names.old names.new }
    ensures lean { IsLean names.old → IsLean names.new }
{
    for place in 0..pairs.len() {
        take_own(alloc, names, &pairs[place], but, id);
    }
}

/// Puts an id, which is at exactly the pairs that these attributes have, at each of the other pairs
/// too.
pub fn put_all(
    alloc: Global,
    names: &mut Pairs,
    pairs: &[(Text, AttrValue)],
    but: &Attributes,
    id: ItemId,
) -> Result<(), OutOfMemory>
    requires rising { AllRise names.old }
    requires there { IsAtJust but.now id.0 names.old }
    ensures put { OnOk result (IsPut (is_own pairs.now but.now)
        id.0 names.old names.new) }
    ensures unchanged { OnErr result (IsSame names.old names.new) }
    ensures lean { IsLean names.old → IsLean names.new }
{
    if let Err(_) = put_first(alloc, names, pairs, but, id) {
        take_all(alloc, names, pairs, but, id);
        return Err(AllocError);
    }
    Ok(())
}
