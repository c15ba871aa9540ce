// What is read of the collections: what is shown of them and of their items, the items that match, and secrets.
ghost use Rattle.std.specs.Prelude.{◌≡◌, [], IfOk, map};
ghost use Rattle.std.specs.Option.{option_copied, option_map, option_map_or};
ghost use Rattle.std.specs.List.{filter_map};
ghost use Rattle.service_tables.specs.Disk.{contents_in};
ghost use Rattle.attribute_match.specs.Match.{text_of};
ghost use Rattle.service_tables.specs.TablesReading.{asked_collections, found_in, item_secret, no_times, secret_of, shown_attribute};

use crate::paths::item_path;
use crate::{Disk, Times};
use itoa::Buffer;
use kr_base::{AttrValue, Attributes, ItemId, OutOfMemory, SessionId, Stem, Text};
use kr_items::Items;
use kr_names::ObjectName;
use kr_outside::Folder;
use signal_fanout::secret_calls::{Attribute, ItemSecret, ReturnedSecret, no_label};
use std::alloc::Global;

// No times.
fn no_times() -> Times
    ensures { result ≡ no_times }
{
    Times {
        created: 0,
        modified: 0,
    }
}

// The number as a text in decimal.
fn decimal(alloc: Global, number: u32) -> Result<Text, OutOfMemory>
    ensures { IfOk result (λ text. text ≡ text_of (AttrValue.Number number)) }
{
    let mut buffer = Buffer::new();
    match Text::from_str(alloc, buffer.format(number))? {
        Some(text) => Ok(text),
        None => unreachable!(),
    }
}

// The text that is shown for the value of an attribute.
fn text_of(alloc: Global, value: &AttrValue) -> Result<Text, OutOfMemory>
    ensures { IfOk result (λ text. text ≡ text_of value.now) }
{
    match value {
        AttrValue::Text(text) => text.copy(),
        AttrValue::Number(number) => decimal(alloc, *number),
    }
}

/// The attributes as they are shown: a number is shown in decimal.
pub fn shown_attributes(
    alloc: Global,
    pairs: &[(Text, AttrValue)],
) -> Result<Vec<Attribute>, OutOfMemory>
    ensures { IfOk result (λ shown. shown.items ≡ map shown_attribute pairs.now) }
{
    let mut shown = Vec::with_capacity(alloc, pairs.len())?;
    for (name, value) in pairs {
        let name = name.copy()?;
        let value = text_of(alloc, value)?;
        shown.push(Attribute { name, value })?;
    }
    Ok(shown)
}

impl<F: Folder> Disk<F> {
    /// The number of collections.
    pub fn count(&self) -> usize
        ensures { result ≡ (asked_collections (contents_in self.now)).count }
    {
        self.collections.len()
    }

    /// The label of the collection of a stem, also while it is locked. None if there is none.
    pub fn label(&self, stem: &Stem) -> Option<&Text>
        ensures { option_map_or (λ label. label) (option_copied result) []
            ≡ (asked_collections (contents_in self.now)).label stem.now }
    {
        match self.collections.get(stem) {
            Some(collection) => Some(collection.label()),
            None => None,
        }
    }

    /// The stems of the collections, in byte order.
    pub fn stems(&self) -> Result<Vec<Stem>, OutOfMemory>
        ensures { IfOk result (λ stems.
            stems.items ≡ (asked_collections (contents_in self.now)).stems) }
    {
        self.collections.stems()
    }

    /// The times of the collection of a stem, also while it is locked. They are 0 if there is none.
    pub fn times(&self, stem: &Stem) -> Times
        ensures { result ≡ (asked_collections (contents_in self.now)).times stem.now }
    {
        match self.collections.get(stem) {
            Some(collection) => Times {
                created: collection.created(),
                modified: collection.modified(),
            },
            None => no_times(),
        }
    }

    /// The label of an item. It is empty while its collection is locked.
    pub fn item_label(&self, alloc: Global, stem: &Stem, item: ItemId) -> Result<Text, OutOfMemory>
        ensures { IfOk result (λ label.
            label ≡ (asked_collections (contents_in self.now)).item_label stem.now item) }
    {
        match self.collections.item(stem, item) {
            Some(full) => full.label.copy(),
            None => Ok(no_label(alloc)),
        }
    }

    /// The attributes of an item, numbers in decimal. There are none while its collection is locked.
    pub fn item_attributes(
        &self,
        alloc: Global,
        stem: &Stem,
        item: ItemId,
    ) -> Result<Items<Attribute>, OutOfMemory>
        ensures { IfOk result (λ attributes. attributes
            ≡ (asked_collections (contents_in self.now)).item_attributes stem.now item) }
    {
        match self.collections.item(stem, item) {
            Some(full) => {
                let shown = shown_attributes(alloc, full.attributes.as_slice())?;
                Ok(Items::new(shown))
            }
            None => Ok(Items::empty(alloc)),
        }
    }

    /// The times of an item. They are 0 while its collection is locked.
    pub fn item_times(&self, stem: &Stem, item: ItemId) -> Times
        ensures { result ≡ (asked_collections (contents_in self.now)).item_times stem.now item }
    {
        match self.collections.item(stem, item) {
            Some(full) => Times {
                created: full.created,
                modified: full.modified,
            },
            None => no_times(),
        }
    }

    /// The items of one collection that match.
    pub fn found_in(
        &self,
        alloc: Global,
        stem: &Stem,
        wanted: &Attributes,
    ) -> Result<Vec<ItemId>, OutOfMemory>
        ensures { IfOk result (λ ids.
            ids.items ≡ found_in stem.now wanted.now (contents_in self.now).collections) }
    {
        let Some(collection) = self.collections.get(stem) else {
            return Ok(Vec::new(alloc));
        };
        let ids = collection.search(wanted)?;
        Ok(ids)
    }

    /// The secret of an item, for a session. None if its collection is locked.
    pub fn secret_of(
        &self,
        session: SessionId,
        stem: &Stem,
        item: ItemId,
    ) -> Result<Option<ReturnedSecret>, OutOfMemory>
        ensures { IfOk result (λ secret.
            secret ≡ secret_of session (contents_in self.now).collections stem.now item) }
    {
        let Some(full) = self.collections.item(stem, item) else {
            return Ok(None);
        };
        let Some(content) = self.collections.content(stem, item) else {
            return Ok(None);
        };
        let value = full.value.copy()?;
        let content = content.copy()?;
        Ok(Some(ReturnedSecret {
            session,
            value,
            content,
        }))
    }

    // The secret of an item with the item's path, for a session.
    fn item_secret(
        &self,
        alloc: Global,
        session: SessionId,
        object: &ObjectName,
    ) -> Result<Option<ItemSecret>, OutOfMemory>
        ensures { IfOk result (λ secret.
            secret ≡ item_secret session (contents_in self.now).collections object.now) }
    {
        let ObjectName::Item(stem, item) = object else {
            return Ok(None);
        };
        let Some(secret) = self.secret_of(session, stem, *item)? else {
            return Ok(None);
        };
        let path = item_path(alloc, stem, *item)?;
        Ok(Some(ItemSecret { item: path, secret }))
    }

    /// The secrets of items with the items' paths, for a session.
    pub fn secrets(
        &self,
        alloc: Global,
        session: SessionId,
        items: &[ObjectName],
    ) -> Result<Vec<ItemSecret>, OutOfMemory>
        ensures { IfOk result (λ secrets. secrets.items
            ≡ filter_map (item_secret session (contents_in self.now).collections) items.now) }
    {
        let mut secrets = Vec::new(alloc);
        for item in items {
            if let Some(secret) = self.item_secret(alloc, session, item)? {
                secrets.push(secret)?;
            }
        }
        Ok(secrets)
    }
}
