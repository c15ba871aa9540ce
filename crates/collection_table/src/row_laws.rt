ghost use Rattle.std.specs.Prelude.{◌≡◌, ◌≢◌, ℕ, List, None, Some};
ghost use Rattle.kr_base.specs.Attributes.{value_at};
ghost use Rattle.replace_slot.specs.Cell.{Doubt, old_image};
ghost use Rattle.keyring_seal.specs.declared.content.Content.{Content};
ghost use Rattle.collection_store.specs.Outcomes.{IsChanged, IsSame, IsStored, IsUnsure, MayBeChanged};
ghost use Rattle.collection_store.specs.State.{CollectionState, Held};
ghost use Rattle.collection_store.specs.declared.change.Change.{Change};
ghost use Rattle.collection_store.specs.declared.change.Changed.{Changed};
ghost use Rattle.collection_table.specs.Changing.{after_change, after_unsure};
ghost use Rattle.collection_table.specs.Entries.{Entries, changed, row_of, rows_of, slots_of};
ghost use Rattle.collection_table.specs.Rows.{perhaps_removed, perhaps_stored, stored};

use kr_outside::Slot;

/// A law: if a collection that was lent is changed, its row changes with it, and no other row does.
/// It does nothing.
pub fn a_changed_collection_changes_its_row<S: Slot>()
    ensures { (stem : List ℕ) (collection : CollectionState S) (entries : Entries S)
        → rows_of (changed stem (λ _. collection) entries)
        ≡ changed stem (λ _. row_of collection) (rows_of entries) }
{}

/// A law: if a collection that was lent is changed, its slot takes the place of the old one, and
/// all other slots stay. It does nothing.
pub fn a_changed_collection_changes_its_slot<S: Slot>()
    ensures { (stem : List ℕ) (collection : CollectionState S) (entries : Entries S)
        → slots_of (changed stem (λ _. collection) entries)
        ≡ changed stem (λ _. collection.slot) (slots_of entries) }
{}

/// A law: what a change left of a collection is one row, given whether its content was stored. It
/// does nothing.
pub fn a_stored_content_is_a_row<S: Slot>()
    ensures stored { (content : Content) (key vector : List ℕ) (new : CollectionState S)
        → IsStored content key vector new → row_of new ≡ stored content key vector }
    ensures perhaps { (content : Content) (key vector : List ℕ) (old new : CollectionState S)
        → IsUnsure content key vector old new
        → row_of new ≡ perhaps_stored content key vector (row_of old) }
    ensures same { (old new : CollectionState S) → IsSame old new → row_of new ≡ row_of old }
{}

/// A law: what a change left of an unlocked collection is the row of the definitions, given whether
/// it was stored. It does nothing.
pub fn a_change_leaves_its_row<S: Slot>()
    ensures changed { (change : Change) (now : ℕ) (old : CollectionState S) (held : Held)
        (new : CollectionState S) (answer : Changed) → old.held ≡ Some held
        → IsChanged change now old held new answer
        → row_of new ≡ after_change change now (row_of old) }
    ensures unsure { (change : Change) (now : ℕ) (old : CollectionState S) (held : Held)
        (new : CollectionState S) → old.held ≡ Some held
        → MayBeChanged change now old held new
        → row_of new ≡ after_unsure change now (row_of old) }
{}

/// A law: what a removal that may have been done left of a collection is one row. It does nothing.
pub fn a_removal_leaves_its_row<S: Slot>()
    ensures { (old new : CollectionState S) → new.file ≡ Doubt (old_image old.file) None
        → new.clear ≡ old.clear → new.other ≡ None → new.held ≡ None
        → row_of new ≡ perhaps_removed (row_of old) }
{}

/// A law: what is at another stem stays, whatever becomes of what is at a stem. It does nothing.
pub fn other_collections_stay<S: Slot>()
    ensures { (stem other : List ℕ) (change : CollectionState S → CollectionState S)
        (entries : Entries S) → other ≢ stem
        → value_at other (changed stem change entries) ≡ value_at other entries }
{}
