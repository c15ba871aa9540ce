// What is left to do to the items after the file has been replaced, or hasn't.

ghost use Rattle.std.specs.Prelude.{◌≡◌, true, [], ◌∷◌, ◌++◌, ◌<◌};
ghost use Rattle.std.specs.Option.{is_some};
ghost use Rattle.item_store.specs.Rows.{row_at, rows_changed, rows_without};
ghost use Rattle.item_store.specs.Swapping.{with_parts};
ghost use Rattle.collection_store.specs.Resting.{finished, undone};

use item_store::{ItemStore, Moving, Swap};
use kr_base::ItemId;

/// How the items in memory differ from those of the new file and from those of the old one.
#[derive(Drop)]
pub enum Rest {
    /// They are the items of both.
    Same,
    /// They are those of the new file; an item's old parts are kept here.
    Swapped(ItemId, Swap),
    /// They are those of the new file, to which this item was added.
    Added(ItemId),
    /// They are those of the old file; this item is still to be removed.
    Leaving(ItemId),
    /// They were moved here while the attributes of one of them change.
    Moved(Moving),
}

impl Rest {
    /// Turns the items into those of the new file. It takes no memory.
    pub fn finish(self, items: &mut ItemStore)
        ensures { items.new ≡ finished self items.old }
    {
        match self {
            Rest::Same => {}
            Rest::Swapped(_, _) => {}
            Rest::Added(_) => {}
            Rest::Leaving(id) => take_out(items, id),
            Rest::Moved(moving) => *items = moving.finish(),
        }
    }

    /// Turns the items back into those of the old file. It takes no memory.
    pub fn undo(self, items: &mut ItemStore)
        ensures { items.new ≡ undone self items.old }
    {
        match self {
            Rest::Same => {}
            Rest::Swapped(id, parts) => swap_back(items, id, parts),
            Rest::Added(id) => take_out(items, id),
            Rest::Leaving(_) => {}
            Rest::Moved(moving) => *items = moving.undo(),
        }
    }
}

/// Removes an item, if it is there.
pub fn take_out(items: &mut ItemStore, id: ItemId)
    ensures { items.new ≡ rows_without id.0 items.old }
{
    if items.item(id).is_none() {
        return;
    }
    match items.remove(id) {
        Ok(_) => {}
        Err(_) => unreachable!(),
    }
}

/// Gives an item its old parts back, and drops the new ones.
pub fn swap_back(items: &mut ItemStore, id: ItemId, parts: Swap)
    ensures { items.new ≡ rows_changed id.0
        (λ row. record row { item = with_parts parts row.item }) items.old }
{
    let mut parts = parts;
    items.swap(id, &mut parts);
}
