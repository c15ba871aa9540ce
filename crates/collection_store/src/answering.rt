// What a change answers, before it is prepared.

ghost use Rattle.std.specs.Prelude.{◌≡◌, Ok};
ghost use Rattle.std.specs.Option.{option_map};
ghost use Rattle.item_store.specs.Rows.{last_id, next_id};
ghost use Rattle.collection_store.specs.Changes.{within_most};
ghost use Rattle.collection_store.specs.Storable.{answer_added, answer_at, answer_in, answer_new, id_replaced};

use crate::preparing::{are_too_many, equal_item, has_item};
use crate::{Change, Changed};
use item_store::{ItemFault, ItemStore};
use kr_base::{Attributes, ItemId};

/// The greatest id, or 0 if there are no items.
fn last_id(items: &ItemStore) -> u32
    ensures { result ≡ last_id items.now }
{
    items.rows().last_number()
}

/// The id of a new item. None if the greatest one is taken.
fn next_id(items: &ItemStore) -> Option<ItemId>
    ensures { option_map (λ id. id.0) result ≡ next_id items.now }
{
    match last_id(items).checked_add(1) {
        Some(number) => Some(ItemId(number)),
        None => None,
    }
}

/// The answer, unless the call brings too many attributes.
fn if_few(attributes: &Attributes, answer: Changed) -> Result<Changed, ItemFault>
    ensures { result ≡ within_most attributes.now answer }
{
    if are_too_many(attributes) {
        return Err(ItemFault::TooManyAttributes);
    }
    Ok(answer)
}

/// The answer, if the item is there.
fn if_there(items: &ItemStore, id: ItemId, answer: Changed) -> Result<Changed, ItemFault>
    ensures { result ≡ answer_at id.0 items.now (Ok answer) }
{
    if !has_item(items, id) {
        return Err(ItemFault::NoItem);
    }
    Ok(answer)
}

/// What new attributes for an item answer.
fn answer_attributes(
    items: &ItemStore,
    id: ItemId,
    attributes: &Attributes,
) -> Result<Changed, ItemFault>
    ensures { result ≡ answer_at id.0 items.now
        (within_most attributes.now (Changed.Changed id)) }
{
    if !has_item(items, id) {
        return Err(ItemFault::NoItem);
    }
    if_few(attributes, Changed::Changed(id))
}

/// What a new item answers.
fn answer_new(items: &ItemStore, attributes: &Attributes) -> Result<Changed, ItemFault>
    ensures { result ≡ answer_new (next_id items.now) attributes.now }
{
    match next_id(items) {
        Some(id) => if_few(attributes, Changed::Made(id)),
        None => Err(ItemFault::IdsSpent),
    }
}

/// What a new item answers, or one that replaces an equal one.
fn answer_add(
    items: &ItemStore,
    replace: bool,
    attributes: &Attributes,
) -> Result<Changed, ItemFault>
    ensures { result ≡ answer_added (id_replaced replace attributes.now items.now)
        attributes.now items.now }
{
    match equal_item(items, replace, attributes) {
        Some(id) => if_few(attributes, Changed::Changed(id)),
        None => answer_new(items, attributes),
    }
}

/// What a change answers if it is stored, or why it can't be made. It takes no memory.
pub fn answer_in(items: &ItemStore, change: &Change) -> Result<Changed, ItemFault>
    ensures { result ≡ answer_in change.now items.now }
{
    match change {
        Change::Add {
            attributes,
            replace,
            ..
        } => answer_add(items, *replace, attributes),
        Change::SetSecret { id, .. } => if_there(items, *id, Changed::Changed(*id)),
        Change::SetLabel { id, .. } => if_there(items, *id, Changed::Changed(*id)),
        Change::SetAttributes { id, attributes } => answer_attributes(items, *id, attributes),
        Change::Remove { id } => if_there(items, *id, Changed::Removed(*id)),
        Change::SetName { .. } => Ok(Changed::Named),
    }
}
