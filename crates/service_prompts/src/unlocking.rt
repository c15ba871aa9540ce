// The targets of a prompt that unlocks, and the objects that are unlocked already.
ghost use Rattle.std.specs.Prelude.{◌≡◌, ℕ, min, IfOk, IfSome, OnOk, true};
ghost use Rattle.kr_names.specs.Path.{HasPath, path_text};
ghost use Rattle.service_tables.specs.Disk.{contents_in};
ghost use Rattle.service_tables.specs.Objects.{HaveSamePaths};
ghost use Rattle.service_tables.specs.TablesReading.{asked_collections};
ghost use Rattle.service_tables.specs.Targets.{are_light, weight, weight_of};
ghost use Rattle.service_prompts.specs.Unlocking.{given_of, is_unlocked, target_of, targets_of, unlocked_there, with_some, with_target};

use kr_base::{OutOfMemory, Text};
use kr_names::{ObjectName, path_of};
use kr_outside::Folder;
use prompt_state::Target;
use service_tables::{Disk, is_new, put_path};
use std::alloc::Global;
use std::collections::BTreeSet;

// Whether an object is there and unlocked.
fn is_unlocked<F: Folder>(disk: &Disk<F>, object: &ObjectName) -> bool
    ensures is { result ≡ is_unlocked (asked_collections (contents_in disk.now)) object.now }
    ensures path { result ≡ true → HasPath object.now }
{
    match disk.collection_around(object) {
        Some(stem) => disk.collections.is_open(stem),
        None => false,
    }
}

/// The paths of the objects that are there and unlocked, each once.
pub fn unlocked_there<F: Folder>(
    alloc: Global,
    disk: &Disk<F>,
    objects: &[ObjectName],
) -> Result<Vec<Text>, OutOfMemory>
    ensures { IfOk result (λ paths. paths.items
        ≡ unlocked_there (asked_collections (contents_in disk.now)) objects.now) }
{
    let mut paths = Vec::new(alloc);
    let mut noted = BTreeSet::new(alloc);
    for object in objects {
        if is_unlocked(disk, object) {
            put_path(alloc, &mut paths, &mut noted, object)?;
        }
    }
    Ok(paths)
}

// The target for an object, if the object is there and locked.
fn target_of<F: Folder>(
    alloc: Global,
    disk: &Disk<F>,
    object: &ObjectName,
) -> Result<Option<Target>, OutOfMemory>
    ensures { IfOk result (λ target.
        target ≡ target_of (asked_collections (contents_in disk.now)) object.now) }
{
    let Some(stem) = disk.collection_around(object) else {
        return Ok(None);
    };
    if disk.collections.is_open(stem) {
        return Ok(None);
    }
    let given = path_of(alloc, object)?;
    let stem = stem.copy()?;
    Ok(Some(Target { given, stem }))
}

// Puts a target after others, unless its path is noted already. The time grows with the logarithm of the
// number of paths that are noted.
fn put_target(
    targets: &mut Vec<Target>,
    noted: &mut BTreeSet<Text>,
    target: Target,
) -> Result<(), OutOfMemory>
    requires noted { HaveSamePaths noted.old.keys (given_of targets.old.items) }
    ensures targets { OnOk result (targets.new.items ≡ with_target targets.old.items target) }
    ensures noted { OnOk result (HaveSamePaths noted.new.keys (given_of targets.new.items)) }
{
    let path = target.given.copy()?;
    if !is_new(noted, path)? {
        return Ok(());
    }
    targets.push(target)?;
    Ok(())
}

// The same for an optional target.
fn put_some(
    targets: &mut Vec<Target>,
    noted: &mut BTreeSet<Text>,
    target: Option<Target>,
) -> Result<(), OutOfMemory>
    requires noted { HaveSamePaths noted.old.keys (given_of targets.old.items) }
    ensures targets { OnOk result (targets.new.items ≡ with_some targets.old.items target) }
    ensures noted { OnOk result (HaveSamePaths noted.new.keys (given_of targets.new.items)) }
{
    match target {
        Some(target) => put_target(targets, noted, target),
        None => Ok(()),
    }
}

/// The targets for the objects that are there and locked, each path once.
pub fn targets_of<F: Folder>(
    alloc: Global,
    disk: &Disk<F>,
    objects: &[ObjectName],
) -> Result<Vec<Target>, OutOfMemory>
    ensures { IfOk result (λ targets. targets.items
        ≡ targets_of (asked_collections (contents_in disk.now)) objects.now) }
{
    let mut targets = Vec::new(alloc);
    let mut noted = BTreeSet::new(alloc);
    for object in objects {
        let target = target_of(alloc, disk, object)?;
        put_some(&mut targets, &mut noted, target)?;
    }
    Ok(targets)
}

/// The most that the targets of a prompt may weigh.
const MOST_WEIGHT: u64 = 8_388_608;

// What a target weighs.
fn weight_of(target: &Target) -> u64
    ensures { result ≡ weight_of target.now }
{
    target.given.as_bytes().len() as u64 + 8
}

// What targets weigh, up to the greatest number.
fn weight(targets: &[Target]) -> u64
    ensures { result ≡ min 18446744073709551615 (weight targets.now) }
{
    let mut sum: u64 = 0;
    for target in targets {
        sum = sum.saturating_add(weight_of(target));
    }
    sum
}

/// Whether a prompt may have these targets: their paths are short enough for the signal Completed. It takes no
/// memory.
pub fn are_light(targets: &[Target]) -> bool
    ensures { result ≡ are_light targets.now }
{
    weight(targets) <= MOST_WEIGHT
}
