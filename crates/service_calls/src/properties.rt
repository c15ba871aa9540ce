// The calls that get properties.
ghost use Rattle.std.specs.Prelude.{◌≡◌, Some, IfOk};
ghost use Rattle.std.specs.List.{filter_map};
ghost use Rattle.service_events.specs.PropertyCalls.{collection_held, get, get_all, holder_of, of_collection, of_item, of_service, shown_by, value_of};
ghost use Rattle.service_events.specs.service_tables.specs.Objects.{collection_named};
ghost use Rattle.service_events.specs.service_tables.specs.Opened.{contents_of};
ghost use Rattle.service_events.specs.service_tables.specs.TablesReading.{asked_collections};
ghost use Rattle.service_events.specs.service_tables.specs.Storing.{Brought};
ghost use Rattle.service_events.specs.Run.{asked};
ghost use Rattle.service_calls.specs.Done.{reads};
ghost use Rattle.service_calls.specs.Rows.{rows_of};

use crate::Tables;
use crate::answer::Answer;
use kr_base::{Attributes, ConnId, ItemId, OutOfMemory, Stem};
use kr_items::Items;
use kr_names::ObjectName;
use kr_outside::Folder;
use service_events::Holder;
use service_events::secret_calls::{
    Body, ErrorName, Property, PropertyValue, ShownProperty, no_label,
};
use service_events::service_tables::{collection_paths, item_paths};

impl<F: Folder> Tables<F> {
    // The collection that is named, if it is there.
    fn collection_held(&self, object: &ObjectName) -> Result<Result<Holder, ErrorName>, OutOfMemory>
        ensures { IfOk result (λ held. held ≡ collection_held
            (collection_named (asked_collections (contents_of (rows_of self.now))) object.now)) }
    {
        match self.disk.collection_named(object) {
            Some(stem) => {
                let stem = stem.copy()?;
                Ok(Ok(Holder::Collection(stem)))
            }
            None => Ok(Err(ErrorName::NoSuchObject)),
        }
    }

    // The item, if it is there.
    fn item_held(&self, stem: &Stem, item: ItemId) -> Result<Result<Holder, ErrorName>, OutOfMemory>
        ensures { IfOk result (λ held. (conn : ConnId) (brought : Brought)
            → held ≡ holder_of (ObjectName.Item stem.now item)
            (asked conn brought (rows_of self.now))) }
    {
        if !self.disk.collections.has_item(stem, item) {
            return Ok(Err(ErrorName::NoSuchObject));
        }
        let stem = stem.copy()?;
        Ok(Ok(Holder::Item(stem, item)))
    }

    // What the properties of an object are read of, or why it has none for the caller.
    fn holder_of(
        &self,
        conn: ConnId,
        object: &ObjectName,
    ) -> Result<Result<Holder, ErrorName>, OutOfMemory>
        ensures { IfOk result (λ held. (brought : Brought)
            → held ≡ holder_of object.now (asked conn brought (rows_of self.now))) }
    {
        match object {
            ObjectName::Nothing => Ok(Err(ErrorName::NoSuchObject)),
            ObjectName::Service => Ok(Ok(Holder::Service)),
            ObjectName::Agent => Ok(Ok(Holder::Nothing)),
            ObjectName::Collection(_) => self.collection_held(object),
            ObjectName::Alias(_) => self.collection_held(object),
            ObjectName::Item(stem, item) => self.item_held(stem, *item),
            ObjectName::Session(session) => {
                if self.sessions.owned_by(*session, conn) {
                    Ok(Ok(Holder::Nothing))
                } else {
                    Ok(Err(ErrorName::NoSession))
                }
            }
            ObjectName::Prompt(prompt) => {
                if self.prompts.owned_by(*prompt, conn) {
                    Ok(Ok(Holder::Nothing))
                } else {
                    Ok(Err(ErrorName::NoSuchObject))
                }
            }
        }
    }

    // The value of a property of the service, if it has the property.
    fn of_service(&self, property: Property) -> Result<Option<PropertyValue>, OutOfMemory>
        ensures { IfOk result (λ value. value
            ≡ of_service (asked_collections (contents_of (rows_of self.now))) property) }
    {
        match property {
            Property::Collections => {
                let stems = self.disk.stems()?;
                let paths = collection_paths(self.alloc, &stems)?;
                Ok(Some(PropertyValue::Objects(Items::new(paths))))
            }
            _ => Ok(None),
        }
    }

    // The paths of the items of a collection.
    fn items_of(&self, stem: &Stem) -> Result<PropertyValue, OutOfMemory>
        ensures { IfOk result (λ value. Some value
            ≡ of_collection (asked_collections (contents_of (rows_of self.now))) stem.now
            (Property.Items)) }
    {
        let ids = self
            .disk
            .found_in(self.alloc, stem, &Attributes::new(self.alloc))?;
        let paths = item_paths(self.alloc, stem, &ids)?;
        Ok(PropertyValue::Objects(Items::new(paths)))
    }

    // The label of a collection.
    fn label_of(&self, stem: &Stem) -> Result<PropertyValue, OutOfMemory>
        ensures { IfOk result (λ value. Some value
            ≡ of_collection (asked_collections (contents_of (rows_of self.now))) stem.now
            (Property.Label)) }
    {
        match self.disk.label(stem) {
            Some(label) => Ok(PropertyValue::Text(label.copy()?)),
            None => Ok(PropertyValue::Text(no_label(self.alloc))),
        }
    }

    // The value of a property of a collection, if it has the property.
    fn of_collection(
        &self,
        stem: &Stem,
        property: Property,
    ) -> Result<Option<PropertyValue>, OutOfMemory>
        ensures { IfOk result (λ value. value
            ≡ of_collection (asked_collections (contents_of (rows_of self.now))) stem.now
            property) }
    {
        match property {
            Property::Collections => Ok(None),
            Property::Items => {
                let value = self.items_of(stem)?;
                Ok(Some(value))
            }
            Property::Label => {
                let value = self.label_of(stem)?;
                Ok(Some(value))
            }
            Property::Attributes => Ok(None),
            Property::Locked => {
                let open = self.disk.collections.is_open(stem);
                Ok(Some(PropertyValue::Truth(!open)))
            }
            Property::Created => {
                let times = self.disk.times(stem);
                Ok(Some(PropertyValue::Moment(times.created)))
            }
            Property::Modified => {
                let times = self.disk.times(stem);
                Ok(Some(PropertyValue::Moment(times.modified)))
            }
        }
    }

    // The value of a property of an item, if it has the property.
    fn of_item(
        &self,
        stem: &Stem,
        item: ItemId,
        property: Property,
    ) -> Result<Option<PropertyValue>, OutOfMemory>
        ensures { IfOk result (λ value. value
            ≡ of_item (asked_collections (contents_of (rows_of self.now))) stem.now item
            property) }
    {
        match property {
            Property::Collections => Ok(None),
            Property::Items => Ok(None),
            Property::Label => {
                let label = self.disk.item_label(self.alloc, stem, item)?;
                Ok(Some(PropertyValue::Text(label)))
            }
            Property::Attributes => {
                let attributes = self.disk.item_attributes(self.alloc, stem, item)?;
                Ok(Some(PropertyValue::Attributes(attributes)))
            }
            Property::Locked => {
                let open = self.disk.collections.is_open(stem);
                Ok(Some(PropertyValue::Truth(!open)))
            }
            Property::Created => {
                let times = self.disk.item_times(stem, item);
                Ok(Some(PropertyValue::Moment(times.created)))
            }
            Property::Modified => {
                let times = self.disk.item_times(stem, item);
                Ok(Some(PropertyValue::Moment(times.modified)))
            }
        }
    }

    // The value of a property of an object, if it has the property.
    fn value_of(
        &self,
        holder: &Holder,
        property: Property,
    ) -> Result<Option<PropertyValue>, OutOfMemory>
        ensures { IfOk result (λ value. value
            ≡ value_of (asked_collections (contents_of (rows_of self.now))) holder.now
            property) }
    {
        match holder {
            Holder::Service => self.of_service(property),
            Holder::Collection(stem) => self.of_collection(stem, property),
            Holder::Item(stem, item) => self.of_item(stem, *item, property),
            Holder::Nothing => Ok(None),
        }
    }

    /// Answers Get as its row does, whatever the size of the return.
    pub fn get(
        &self,
        conn: ConnId,
        object: &ObjectName,
        property: Property,
    ) -> Result<Answer, OutOfMemory>
        ensures { IfOk result (λ answer. (brought : Brought)
            → reads conn (rows_of self.now)
            (get object.now property (asked conn brought (rows_of self.now))) ≡ Some answer) }
    {
        let holder = match self.holder_of(conn, object)? {
            Ok(holder) => holder,
            Err(name) => return Ok(Err(name)),
        };
        match self.value_of(&holder, property)? {
            Some(value) => Ok(Ok(Body::Property(value))),
            None => Ok(Err(ErrorName::UnknownProperty)),
        }
    }

    // Those of the properties that the object has, with their values.
    fn all_shown(
        &self,
        holder: &Holder,
        properties: &[Property],
    ) -> Result<Vec<ShownProperty>, OutOfMemory>
        ensures { IfOk result (λ shown. shown.items ≡ filter_map
            (shown_by (asked_collections (contents_of (rows_of self.now))) holder.now)
            properties.now) }
    {
        let mut shown = Vec::with_capacity(self.alloc, properties.len())?;
        for property in properties {
            if let Some(value) = self.value_of(holder, *property)? {
                shown.push(ShownProperty {
                    property: *property,
                    value,
                })?;
            }
        }
        Ok(shown)
    }

    /// Answers GetAll as its row does, whatever the size of the return.
    pub fn get_all(
        &self,
        conn: ConnId,
        object: &ObjectName,
        properties: &[Property],
    ) -> Result<Answer, OutOfMemory>
        ensures { IfOk result (λ answer. (brought : Brought)
            → reads conn (rows_of self.now)
            (get_all object.now properties.now (asked conn brought (rows_of self.now)))
            ≡ Some answer) }
    {
        let holder = match self.holder_of(conn, object)? {
            Ok(holder) => holder,
            Err(name) => return Ok(Err(name)),
        };
        let shown = self.all_shown(&holder, properties)?;
        Ok(Ok(Body::Properties(Items::new(shown))))
    }
}
