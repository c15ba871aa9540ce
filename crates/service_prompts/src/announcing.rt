// The signals of changes, which go to everyone.
ghost use Rattle.std.specs.Prelude.{◌≡◌, ◌∷◌, [], IfOk};
ghost use Rattle.service_tables.specs.secret_calls.specs.declared.changed.ChangedObject.TheVariants as ChangedObject;
ghost use Rattle.service_tables.specs.secret_calls.specs.declared.property.Property.TheVariants as Property;
ghost use Rattle.service_tables.specs.secret_calls.specs.declared.signal.Signal.TheVariants as Signal;
ghost use Rattle.service_prompts.specs.Announcing.{change_signals, collection_path, gone_signals, item_changed_signals, item_gone_signals, item_made_signals, item_path, label_signals, lock_signals, made_signals, named_signals, renews, shows};

use kr_base::{ItemId, OutOfMemory, Stem, Text};
use kr_items::Items;
use service_tables::collection_store::{Change, Changed};
use service_tables::secret_calls::{ChangedObject, Property, PropertyValue, ShownProperty, Signal};
use service_tables::{collection_path, item_path, shown_attributes};
use std::alloc::Global;

// PropertiesChanged of an object, with the new value of the property.
fn shows(
    alloc: Global,
    object: ChangedObject,
    property: Property,
    value: PropertyValue,
) -> Result<Signal, OutOfMemory>
    ensures { IfOk result (λ signal. signal ≡ shows object property value) }
{
    let mut changed = Vec::with_capacity(alloc, 1)?;
    changed.push(ShownProperty { property, value })?;
    Ok(Signal::PropertiesChanged {
        object,
        changed: Items::new(changed),
        invalidated: Items::empty(alloc),
    })
}

// PropertiesChanged of an object, with the name of the property alone.
fn renews(alloc: Global, object: ChangedObject, property: Property) -> Result<Signal, OutOfMemory>
    ensures { IfOk result (λ signal. signal ≡ renews object property) }
{
    let mut invalidated = Vec::with_capacity(alloc, 1)?;
    invalidated.push(property)?;
    Ok(Signal::PropertiesChanged {
        object,
        changed: Items::empty(alloc),
        invalidated: Items::new(invalidated),
    })
}

// Two signals, in order.
fn both(alloc: Global, first: Signal, second: Signal) -> Result<Vec<Signal>, OutOfMemory>
    ensures { IfOk result (λ signals. signals.items ≡ first ∷ second ∷ []) }
{
    let mut signals = Vec::with_capacity(alloc, 2)?;
    signals.push(first)?;
    signals.push(second)?;
    Ok(signals)
}

// One signal.
fn alone(alloc: Global, signal: Signal) -> Result<Vec<Signal>, OutOfMemory>
    ensures { IfOk result (λ signals. signals.items ≡ signal ∷ []) }
{
    let mut signals = Vec::with_capacity(alloc, 1)?;
    signals.push(signal)?;
    Ok(signals)
}

/// The signals that a collection was made.
pub fn made_signals(alloc: Global, stem: &Stem) -> Result<Vec<Signal>, OutOfMemory>
    ensures { IfOk result (λ signals. signals.items ≡ made_signals stem.now) }
{
    let collection = collection_path(alloc, stem)?;
    let renewed = renews(alloc, ChangedObject::Service, Property::Collections)?;
    both(alloc, Signal::CollectionCreated { collection }, renewed)
}

/// The signals that a collection is gone.
pub fn gone_signals(alloc: Global, stem: &Stem) -> Result<Vec<Signal>, OutOfMemory>
    ensures { IfOk result (λ signals. signals.items ≡ gone_signals stem.now) }
{
    let collection = collection_path(alloc, stem)?;
    let renewed = renews(alloc, ChangedObject::Service, Property::Collections)?;
    both(alloc, Signal::CollectionDeleted { collection }, renewed)
}

// The signals that a collection has this value of a property by now.
fn collection_shows(
    alloc: Global,
    stem: &Stem,
    property: Property,
    value: PropertyValue,
) -> Result<Vec<Signal>, OutOfMemory>
    ensures { IfOk result (λ signals. signals.items
        ≡ Signal.CollectionChanged (collection_path stem.now)
        ∷ shows (ChangedObject.Collection (collection_path stem.now)) property value ∷ []) }
{
    let collection = collection_path(alloc, stem)?;
    let object = ChangedObject::Collection(collection_path(alloc, stem)?);
    let shown = shows(alloc, object, property, value)?;
    both(alloc, Signal::CollectionChanged { collection }, shown)
}

/// The signals that a collection was locked, or unlocked.
pub fn lock_signals(alloc: Global, stem: &Stem, locked: bool) -> Result<Vec<Signal>, OutOfMemory>
    ensures { IfOk result (λ signals. signals.items ≡ lock_signals stem.now locked) }
{
    collection_shows(alloc, stem, Property::Locked, PropertyValue::Truth(locked))
}

/// The signals that a collection got this label.
pub fn label_signals(alloc: Global, stem: &Stem, label: &Text) -> Result<Vec<Signal>, OutOfMemory>
    ensures { IfOk result (λ signals. signals.items ≡ label_signals stem.now label.now) }
{
    collection_shows(
        alloc,
        stem,
        Property::Label,
        PropertyValue::Text(label.copy()?),
    )
}

// PropertiesChanged of a collection whose items are others by now.
fn items_renewed(alloc: Global, stem: &Stem) -> Result<Signal, OutOfMemory>
    ensures { IfOk result (λ signal.
        signal ≡ renews (ChangedObject.Collection (collection_path stem.now)) Property.Items) }
{
    let object = ChangedObject::Collection(collection_path(alloc, stem)?);
    renews(alloc, object, Property::Items)
}

// The signals that an item was made.
fn item_made_signals(alloc: Global, stem: &Stem, item: ItemId) -> Result<Vec<Signal>, OutOfMemory>
    ensures { IfOk result (λ signals. signals.items ≡ item_made_signals stem.now item) }
{
    let created = Signal::ItemCreated {
        collection: collection_path(alloc, stem)?,
        item: item_path(alloc, stem, item)?,
    };
    both(alloc, created, items_renewed(alloc, stem)?)
}

// The signals that an item is gone.
fn item_gone_signals(alloc: Global, stem: &Stem, item: ItemId) -> Result<Vec<Signal>, OutOfMemory>
    ensures { IfOk result (λ signals. signals.items ≡ item_gone_signals stem.now item) }
{
    let deleted = Signal::ItemDeleted {
        collection: collection_path(alloc, stem)?,
        item: item_path(alloc, stem, item)?,
    };
    both(alloc, deleted, items_renewed(alloc, stem)?)
}

// PropertiesChanged of an item, with the new value of the property.
fn item_property(
    alloc: Global,
    stem: &Stem,
    item: ItemId,
    property: Property,
    value: PropertyValue,
) -> Result<Signal, OutOfMemory>
    ensures { IfOk result (λ signal.
        signal ≡ shows (ChangedObject.Item (item_path stem.now item)) property value) }
{
    let object = ChangedObject::Item(item_path(alloc, stem, item)?);
    shows(alloc, object, property, value)
}

// The signals that an item was changed.
fn item_changed_signals(
    alloc: Global,
    stem: &Stem,
    item: ItemId,
    change: &Change,
) -> Result<Vec<Signal>, OutOfMemory>
    ensures { IfOk result (λ signals.
        signals.items ≡ item_changed_signals stem.now item change.now) }
{
    let changed = Signal::ItemChanged {
        collection: collection_path(alloc, stem)?,
        item: item_path(alloc, stem, item)?,
    };
    match change {
        Change::SetLabel { label, .. } => {
            let value = PropertyValue::Text(label.copy()?);
            let shown = item_property(alloc, stem, item, Property::Label, value)?;
            both(alloc, changed, shown)
        }
        Change::SetAttributes { attributes, .. } => {
            let value = shown_attributes(alloc, attributes.as_slice())?;
            let value = PropertyValue::Attributes(Items::new(value));
            let shown = item_property(alloc, stem, item, Property::Attributes, value)?;
            both(alloc, changed, shown)
        }
        _ => alone(alloc, changed),
    }
}

// The signals that a collection got the label that a change sets.
fn named_signals(alloc: Global, stem: &Stem, change: &Change) -> Result<Vec<Signal>, OutOfMemory>
    ensures { IfOk result (λ signals. signals.items ≡ named_signals stem.now change.now) }
{
    match change {
        Change::SetName { label } => label_signals(alloc, stem, label),
        _ => Ok(Vec::new(alloc)),
    }
}

/// The signals of a change of a collection's content that is stored and does this.
pub fn change_signals(
    alloc: Global,
    stem: &Stem,
    change: &Change,
    answer: Changed,
) -> Result<Vec<Signal>, OutOfMemory>
    ensures { IfOk result (λ signals.
        signals.items ≡ change_signals stem.now change.now answer) }
{
    match answer {
        Changed::Made(item) => item_made_signals(alloc, stem, item),
        Changed::Changed(item) => item_changed_signals(alloc, stem, item, change),
        Changed::Removed(item) => item_gone_signals(alloc, stem, item),
        Changed::Named => named_signals(alloc, stem, change),
    }
}
