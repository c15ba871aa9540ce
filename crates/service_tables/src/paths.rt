// The paths of objects, in returns.
ghost use Rattle.std.specs.Prelude.{◌≡◌, ◌++◌, ◌||◌, ℕ, List, not, nat_eq, IfOk, OnOk};
ghost use Rattle.std.specs.Cmp.Lexicographic.{pointwise};
ghost use Rattle.kr_names.specs.Path.{HasPath, path_text};
ghost use Rattle.service_tables.specs.Objects.{HaveSamePaths, collection_paths, is_listed, item_paths, locked_paths, paths_of, unlocked_paths, with_object, with_path};

use collection_table::Matches;
use kr_base::{ItemId, OutOfMemory, Stem, Text};
use kr_names::{ObjectName, path_of};
use std::alloc::Global;
use std::collections::BTreeSet;

/// The path of a collection.
pub fn collection_path(alloc: Global, stem: &Stem) -> Result<Text, OutOfMemory>
    ensures { IfOk result (λ path. path ≡ path_text (ObjectName.Collection stem.now)) }
{
    let name = ObjectName::Collection(stem.copy()?);
    path_of(alloc, &name)
}

/// The path of an item.
pub fn item_path(alloc: Global, stem: &Stem, item: ItemId) -> Result<Text, OutOfMemory>
    ensures { IfOk result (λ path. path ≡ path_text (ObjectName.Item stem.now item)) }
{
    let name = ObjectName::Item(stem.copy()?, item);
    path_of(alloc, &name)
}

// Appends the paths of items of one collection.
fn put_paths(
    alloc: Global,
    paths: &mut Vec<Text>,
    stem: &Stem,
    ids: &[ItemId],
) -> Result<(), OutOfMemory>
    ensures { OnOk result (paths.new.items ≡ paths.old.items ++ item_paths stem.now ids.now) }
{
    for id in ids {
        let path = item_path(alloc, stem, *id)?;
        paths.push(path)?;
    }
    Ok(())
}

/// The paths of collections.
pub fn collection_paths(alloc: Global, stems: &[Stem]) -> Result<Vec<Text>, OutOfMemory>
    ensures { IfOk result (λ paths. paths.items ≡ collection_paths stems.now) }
{
    let mut paths = Vec::with_capacity(alloc, stems.len())?;
    for stem in stems {
        let path = collection_path(alloc, stem)?;
        paths.push(path)?;
    }
    Ok(paths)
}

/// The paths of items of one collection.
pub fn item_paths(alloc: Global, stem: &Stem, ids: &[ItemId]) -> Result<Vec<Text>, OutOfMemory>
    ensures { IfOk result (λ paths. paths.items ≡ item_paths stem.now ids.now) }
{
    let mut paths = Vec::with_capacity(alloc, ids.len())?;
    put_paths(alloc, &mut paths, stem, ids)?;
    Ok(paths)
}

/// The paths of the items that were found in unlocked collections.
pub fn unlocked_paths(alloc: Global, found: &[Matches]) -> Result<Vec<Text>, OutOfMemory>
    ensures { IfOk result (λ paths. paths.items ≡ unlocked_paths found.now) }
{
    let mut paths = Vec::new(alloc);
    for matches in found {
        if matches.is_open {
            put_paths(alloc, &mut paths, &matches.stem, matches.ids.as_slice())?;
        }
    }
    Ok(paths)
}

/// The paths of the items that were found in locked collections.
pub fn locked_paths(alloc: Global, found: &[Matches]) -> Result<Vec<Text>, OutOfMemory>
    ensures { IfOk result (λ paths. paths.items ≡ locked_paths found.now) }
{
    let mut paths = Vec::new(alloc);
    for matches in found {
        if !matches.is_open {
            put_paths(alloc, &mut paths, &matches.stem, matches.ids.as_slice())?;
        }
    }
    Ok(paths)
}

/// Notes a path, and returns whether it is new: it wasn't noted before.
pub fn is_new(noted: &mut BTreeSet<Text>, path: Text) -> Result<bool, OutOfMemory>
    ensures new { IfOk result (λ new. new ≡ not (is_listed path noted.old.keys)) }
    ensures noted { OnOk result ((other : List ℕ) → is_listed other noted.new.keys
        ≡ (pointwise nat_eq other path || is_listed other noted.old.keys)) }
{
    Ok(noted.insert(path)?)
}

/// Appends an object, unless its path is noted already. The time grows with the logarithm
/// of the number of paths that are noted.
pub fn put_object(
    alloc: Global,
    listed: &mut Vec<ObjectName>,
    noted: &mut BTreeSet<Text>,
    object: &ObjectName,
) -> Result<(), OutOfMemory>
    requires path { HasPath object.now }
    requires noted { HaveSamePaths noted.old.keys (paths_of listed.old.items) }
    ensures listed { OnOk result (listed.new.items ≡ with_object listed.old.items object.now) }
    ensures noted { OnOk result (HaveSamePaths noted.new.keys (paths_of listed.new.items)) }
{
    let path = path_of(alloc, object)?;
    if !is_new(noted, path)? {
        return Ok(());
    }
    let copied = object.copy()?;
    listed.push(copied)?;
    Ok(())
}

/// Appends the path of an object, unless it is noted already. The time grows with the
/// logarithm of the number of paths that are noted.
pub fn put_path(
    alloc: Global,
    paths: &mut Vec<Text>,
    noted: &mut BTreeSet<Text>,
    object: &ObjectName,
) -> Result<(), OutOfMemory>
    requires path { HasPath object.now }
    requires noted { HaveSamePaths noted.old.keys paths.old.items }
    ensures paths { OnOk result (paths.new.items
        ≡ with_path paths.old.items (path_text object.now)) }
    ensures noted { OnOk result (HaveSamePaths noted.new.keys paths.new.items) }
{
    let path = path_of(alloc, object)?;
    let copied = path.copy()?;
    if !is_new(noted, copied)? {
        return Ok(());
    }
    paths.push(path)?;
    Ok(())
}
