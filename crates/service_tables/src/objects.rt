// Which objects are there (Secret Service API, "Object Paths").
ghost use Rattle.std.specs.Prelude.{◌≡◌, ◌↔◌, Some, true, filter, IfOk, IfSome};
ghost use Rattle.std.specs.List.{filter_map};
ghost use Rattle.std.specs.Option.{option_copied, option_map};
ghost use Rattle.kr_names.specs.Naming.{is_alias};
ghost use Rattle.kr_names.specs.Path.{HasPath, IsAliasName};
ghost use Rattle.service_tables.specs.Objects.{alias_target, collection_around, collection_named, is_open_item, is_there, once, paths_of};
ghost use Rattle.service_tables.specs.Disk.{contents_in};
ghost use Rattle.service_tables.specs.TablesReading.{alias_of, asked_collections};

use crate::Disk;
use crate::paths::{put_object, put_path};
use kr_base::{OutOfMemory, Stem, Text};
use kr_names::{ObjectName, is_alias_name};
use kr_outside::Folder;
use std::alloc::Global;
use std::collections::BTreeSet;

/// Whether a text is the name of an alias.
pub fn is_alias(alias: &Text) -> bool
    ensures test { result ≡ is_alias alias.now }
    ensures name { result ≡ true ↔ IsAliasName alias.now }
{
    is_alias_name(alias.as_str())
}

impl<F: Folder> Disk<F> {
    /// The collection that an alias stands for (Secret Service API, Service.ReadAlias), if it is there.
    pub fn alias_of(&self, alias: &Text) -> Option<&Stem>
        ensures stem { option_copied result ≡ alias_of alias.now (contents_in self.now) }
        ensures path { IfSome result (λ _. IsAliasName alias.now) }
    {
        if !is_alias(alias) {
            return None;
        }
        let Some(stem) = self.aliases.read(alias.as_str()) else {
            return None;
        };
        if !self.collections.has(stem) {
            return None;
        }
        Some(stem)
    }

    /// The collection that an object is, or that it stands for as an alias, if it is there.
    pub fn collection_named<'a>(&'a self, object: &'a ObjectName) -> Option<&'a Stem>
        ensures named { option_copied result
            ≡ collection_named (asked_collections (contents_in self.now)) object.now }
        ensures path { IfSome result (λ _. HasPath object.now) }
    {
        match object {
            ObjectName::Collection(stem) => {
                if self.collections.has(stem) {
                    Some(stem)
                } else {
                    None
                }
            }
            ObjectName::Alias(alias) => self.alias_of(alias),
            _ => None,
        }
    }

    /// What an alias is set to by the object that is given for it (Secret Service API, Service.SetAlias): a
    /// collection, or nothing if it is `ObjectName::Nothing`, so that the alias is removed. None if there is
    /// no such collection.
    pub fn alias_target(
        &self,
        object: &Option<ObjectName>,
    ) -> Result<Option<Option<Stem>>, OutOfMemory>
        ensures { IfOk result (λ target.
            target ≡ alias_target (asked_collections (contents_in self.now)) object.now) }
    {
        match object {
            None => Ok(None),
            Some(ObjectName::Nothing) => Ok(Some(None)),
            Some(object) => self.copied_stem(object),
        }
    }

    // A copy of the stem of the collection that an object is, or that it stands for as an alias.
    fn copied_stem(&self, object: &ObjectName) -> Result<Option<Option<Stem>>, OutOfMemory>
        ensures { IfOk result (λ target. target
            ≡ option_map Some (collection_named (asked_collections (contents_in self.now))
            object.now)) }
    {
        match self.collection_named(object) {
            Some(stem) => Ok(Some(Some(stem.copy()?))),
            None => Ok(None),
        }
    }

    /// The collection that is locked with an object, if the object is there.
    pub fn collection_around<'a>(&'a self, object: &'a ObjectName) -> Option<&'a Stem>
        ensures around { option_copied result
            ≡ collection_around (asked_collections (contents_in self.now)) object.now }
        ensures path { IfSome result (λ _. HasPath object.now) }
    {
        match object {
            ObjectName::Item(stem, item) => {
                if self.collections.has_item(stem, *item) {
                    Some(stem)
                } else {
                    None
                }
            }
            _ => self.collection_named(object),
        }
    }

    // Whether an object is an item of an unlocked collection.
    fn is_open_item(&self, object: &ObjectName) -> bool
        ensures is { result ≡ is_open_item (asked_collections (contents_in self.now)) object.now }
        ensures path { result ≡ true → HasPath object.now }
    {
        match object {
            ObjectName::Item(stem, item) => {
                self.collections.has_item(stem, *item) && self.collections.is_open(stem)
            }
            _ => false,
        }
    }

    // Whether an object is there: a collection, an alias of one or an item.
    fn is_there(&self, object: &ObjectName) -> bool
        ensures is { result ≡ is_there (asked_collections (contents_in self.now)) object.now }
        ensures path { result ≡ true → HasPath object.now }
    {
        match self.collection_around(object) {
            Some(_) => true,
            None => false,
        }
    }

    /// The paths of the objects that are there, each once.
    pub fn those_there(
        &self,
        alloc: Global,
        objects: &[ObjectName],
    ) -> Result<Vec<Text>, OutOfMemory>
        ensures { IfOk result (λ paths. paths.items
            ≡ paths_of (once
            (filter (is_there (asked_collections (contents_in self.now))) objects.now))) }
    {
        let mut paths = Vec::new(alloc);
        let mut noted = BTreeSet::new(alloc);
        for object in objects {
            if self.is_there(object) {
                put_path(alloc, &mut paths, &mut noted, object)?;
            }
        }
        Ok(paths)
    }

    /// The objects that are items of unlocked collections, each path once.
    pub fn open_items(
        &self,
        alloc: Global,
        objects: &[ObjectName],
    ) -> Result<Vec<ObjectName>, OutOfMemory>
        ensures { IfOk result (λ listed. listed.items
            ≡ once (filter (is_open_item (asked_collections (contents_in self.now))) objects.now)) }
    {
        let mut listed = Vec::new(alloc);
        let mut noted = BTreeSet::new(alloc);
        for object in objects {
            if self.is_open_item(object) {
                put_object(alloc, &mut listed, &mut noted, object)?;
            }
        }
        Ok(listed)
    }

    /// The stems of the collections that are locked with these objects.
    pub fn collections_around(
        &self,
        alloc: Global,
        objects: &[ObjectName],
    ) -> Result<Vec<Stem>, OutOfMemory>
        ensures { IfOk result (λ stems. stems.items
            ≡ filter_map (collection_around (asked_collections (contents_in self.now)))
            objects.now) }
    {
        let mut stems = Vec::new(alloc);
        for object in objects {
            if let Some(stem) = self.collection_around(object) {
                stems.push(stem.copy()?)?;
            }
        }
        Ok(stems)
    }
}
