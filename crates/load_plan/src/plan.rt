// The calls of a load (docs/SERVICE.md, "The load").
ghost use Rattle.std.specs.Prelude.{◌≡◌, ◌+◌, ◌++◌, ◌<◌, length, IfOk, OnOk};
ghost use Rattle.std.specs.List.{AllByRecursion};
ghost use Rattle.client_core.specs.Askable.{IsAskable};
ghost use Rattle.load_plan.specs.Plan.{first, opening, create, search, read, plan};

use crate::OutOfMemory;
use crate::parts::{attributes_of, given, label_of, plain, the_label, the_stem, wanted};
use kr_base::{Bytes, ItemId, PromptId, SessionId};
use kr_names::ObjectName;
use secret_calls::Call;
use std::alloc::Global;

// The call that makes an item.
fn create(alloc: Global, seed: u64, item: u32) -> Result<Call, OutOfMemory>
    ensures { IfOk result (λ call. call ≡ create seed item) }
{
    let collection = ObjectName::Collection(the_stem(alloc)?);
    let label = label_of(alloc, item)?;
    let attributes = attributes_of(alloc, seed, item)?;
    let secret = given(alloc, seed, item)?;
    Ok(Call::CreateItem {
        collection,
        label,
        attributes,
        secret,
        replace: false,
    })
}

// The call that searches for a group.
fn search(alloc: Global, group: u32) -> Result<Call, OutOfMemory>
    ensures { IfOk result (λ call. call ≡ search group) }
{
    let wanted = wanted(alloc, group)?;
    Ok(Call::SearchItems { wanted })
}

// The call that reads an item.
fn read(alloc: Global, item: u32) -> Result<Call, OutOfMemory>
    requires { item < 4294967295 }
    ensures { IfOk result (λ call. call ≡ read item) }
{
    let stem = the_stem(alloc)?;
    Ok(Call::GetSecret {
        stem,
        item: ItemId(item + 1),
        session: Some(SessionId(1)),
    })
}

// The first calls: an agent, a collection, its password, a session.
fn opening(alloc: Global) -> Result<Vec<Call>, OutOfMemory>
    ensures { IfOk result (λ calls. calls.items ≡ opening) }
{
    let label = the_label(alloc)?;
    let password = Bytes::from_slice(alloc, b"load".as_slice())?;
    let algorithm = plain(alloc)?;
    let mut calls = Vec::with_capacity(alloc, 5)?;
    calls.push(Call::Register)?;
    calls.push(Call::CreateCollection { label, alias: None })?;
    calls.push(Call::Prompt {
        prompt: PromptId(1),
    })?;
    calls.push(Call::Answer {
        prompt: Some(PromptId(1)),
        round: 1,
        password,
    })?;
    calls.push(Call::OpenSession { algorithm })?;
    Ok(calls)
}

// Appends the calls that make so many items.
fn add_creates(
    alloc: Global,
    calls: &mut Vec<Call>,
    items: u32,
    seed: u64,
) -> Result<(), OutOfMemory>
    ensures { OnOk result (calls.new.items ≡ calls.old.items ++ first (create seed) items) }
{
    for item in 0..items {
        calls.push(create(alloc, seed, item)?)?;
    }
    Ok(())
}

// Appends the searches for so many groups.
fn add_searches(alloc: Global, calls: &mut Vec<Call>, groups: u32) -> Result<(), OutOfMemory>
    ensures { OnOk result (calls.new.items ≡ calls.old.items ++ first search groups) }
{
    for group in 0..groups {
        calls.push(search(alloc, group)?)?;
    }
    Ok(())
}

// Appends the calls that read so many items.
fn add_reads(alloc: Global, calls: &mut Vec<Call>, items: u32) -> Result<(), OutOfMemory>
    ensures { OnOk result (calls.new.items ≡ calls.old.items ++ first read items) }
{
    for item in 0..items {
        calls.push(read(alloc, item)?)?;
    }
    Ok(())
}

// The calls, one after the other.
fn made(alloc: Global, items: u32, seed: u64) -> Result<Vec<Call>, OutOfMemory>
    ensures { IfOk result (λ calls. calls.items ≡ plan items seed) }
{
    let mut calls = opening(alloc)?;
    add_creates(alloc, &mut calls, items, seed)?;
    add_searches(alloc, &mut calls, 10)?;
    add_reads(alloc, &mut calls, items)?;
    Ok(calls)
}

/// The calls of a load: an agent registers, makes the collection `load` and answers for its password, opens a
/// session, makes so many items, searches for each of ten groups, and reads all items. The seed determines the
/// items' groups and secrets. A client can make each of these calls.
pub fn load_plan(alloc: Global, items: u32, seed: u64) -> Result<Vec<Call>, OutOfMemory>
    ensures plan { IfOk result (λ calls. calls.items ≡ plan items seed) }
    ensures count { IfOk result (λ calls. length calls.items ≡ 15 + (items + items)) }
    ensures askable { IfOk result (λ calls. AllByRecursion IsAskable calls.items) }
{
    made(alloc, items, seed)
}
