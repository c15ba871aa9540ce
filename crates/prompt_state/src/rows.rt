// The rows of the prompts, by their numbers.
ghost use Rattle.std.specs.Prelude.{◌≡◌, ◌<◌, ◌^◌, ◌++◌, ◌∷◌, [], map, find, filter_map, nat_lt, IfOk, OnOk, OnErr};
ghost use Rattle.std.specs.List.{AllByRecursion};
ghost use Rattle.std.specs.Map.{keys_of, lookup, values_of};
ghost use Rattle.std.specs.Option.{option_copied, option_map};
ghost use Rattle.prompt_state.specs.Prompts.{kind_with, one_more, ask_to, AreGiven, AreRising};
ghost use Rattle.prompt_state.specs.Targets.{first_done, first_dropped};
ghost use Rattle.prompt_state.specs.Kept.{entry_at, entries_changed, entries_without, unanswered_within, AreNumbered};

use crate::{Ask, PromptKind, PromptRow, Stage};
use kr_base::{ConnId, OutOfMemory};
use std::alloc::{AllocError, Global};
use std::collections::BTreeMap;
use std::ops::Bound;

/// The row with a number.
pub fn at(rows: &BTreeMap<u64, PromptRow>, number: u64) -> Option<&PromptRow>
    ensures { option_copied result ≡ entry_at number rows.now.entries }
{
    rows.get(&number)
}

/// Appends a row after all others.
pub fn put_last(
    rows: &mut BTreeMap<u64, PromptRow>,
    number: u64,
    row: PromptRow,
) -> Result<(), OutOfMemory>
    requires { AllByRecursion (λ key. key < number) (keys_of rows.old.entries) }
    ensures put { OnOk result (rows.new.entries ≡ rows.old.entries ++ (number, row) ∷ []) }
    ensures unchanged { OnErr result (rows.new.entries ≡ rows.old.entries) }
{
    match rows.insert(number, row) {
        Ok(_) => Ok(()),
        Err(_) => Err(AllocError),
    }
}

/// Removes a row, and returns it.
pub fn take_out(rows: &mut BTreeMap<u64, PromptRow>, number: u64) -> Option<PromptRow>
    ensures value { result ≡ entry_at number rows.old.entries }
    ensures taken { rows.new.entries ≡ entries_without number rows.old.entries }
{
    let _count = rows.len();
    rows.remove(&number)
}

/// Sets how far a prompt has come, if it is there.
pub fn set_stage(rows: &mut BTreeMap<u64, PromptRow>, number: u64, stage: Stage)
    ensures { rows.new.entries
        ≡ entries_changed number (λ row. record row { stage = stage }) rows.old.entries }
{
    match rows.get_mut(&number) {
        Some(row) => row.stage = stage,
        None => {}
    }
}

/// Counts one more wrong answer, and returns how many there are. None if the prompt isn't there.
pub fn add_wrong(rows: &mut BTreeMap<u64, PromptRow>, number: u64) -> Option<u32>
    ensures added { rows.new.entries
        ≡ entries_changed number (λ row. record row { wrong = one_more row.wrong })
        rows.old.entries }
    ensures count { result
        ≡ option_map (λ row. one_more row.wrong) (entry_at number rows.old.entries) }
{
    match rows.get_mut(&number) {
        Some(row) => {
            row.wrong = row.wrong.saturating_add(1);
            Some(row.wrong)
        }
        None => None,
    }
}

/// Sets the number of wrong answers of a prompt to 0, if it is there.
pub fn clear_wrong(rows: &mut BTreeMap<u64, PromptRow>, number: u64)
    ensures { rows.new.entries
        ≡ entries_changed number (λ row. record row { wrong = 0 }) rows.old.entries }
{
    match rows.get_mut(&number) {
        Some(row) => row.wrong = 0,
        None => {}
    }
}

// Marks a row's first target that is left as done.
fn finish_first(row: &mut PromptRow)
    ensures { row.new ≡ record row.old { kind = kind_with first_done row.old.kind } }
{
    if let PromptKind::Unlock(targets) = &mut row.kind {
        targets.finish_first();
    }
}

// Drops a row's first target that is left.
fn drop_first(row: &mut PromptRow)
    ensures { row.new ≡ record row.old { kind = kind_with first_dropped row.old.kind } }
{
    if let PromptKind::Unlock(targets) = &mut row.kind {
        targets.drop_first();
    }
}

/// Marks a prompt's first target that is left as done, if there is one.
pub fn finish_target(rows: &mut BTreeMap<u64, PromptRow>, number: u64)
    ensures { rows.new.entries
        ≡ entries_changed number (λ row. record row { kind = kind_with first_done row.kind })
        rows.old.entries }
{
    match rows.get_mut(&number) {
        Some(row) => finish_first(row),
        None => {}
    }
}

/// Drops a prompt's first target that is left, if there is one.
pub fn drop_target(rows: &mut BTreeMap<u64, PromptRow>, number: u64)
    ensures { rows.new.entries
        ≡ entries_changed number (λ row. record row { kind = kind_with first_dropped row.kind })
        rows.old.entries }
{
    match rows.get_mut(&number) {
        Some(row) => drop_first(row),
        None => {}
    }
}

// How far a prompt has come once there is no agent.
fn unanswered(stage: Stage) -> Stage
    ensures { result ≡ unanswered_within stage }
{
    match stage {
        Stage::Made => Stage::Made,
        Stage::Asked(round) => Stage::Asked(round),
        Stage::Deriving(round) => Stage::Asked(round.saturating_add(1)),
    }
}

/// Puts each prompt whose key is being derived into its next round, to be asked again.
pub fn wait_again(rows: &mut BTreeMap<u64, PromptRow>)
    ensures { rows.new.entries
        ≡ map (λ e. (e.0, record e.1 { stage = unanswered_within e.1.stage })) rows.old.entries }
{
    rows.retain(|_, row| {
        row.stage = unanswered(row.stage);
        true
    });
}

/// The row with the least number above this one.
fn first_above(rows: &BTreeMap<u64, PromptRow>, number: u64) -> Option<&PromptRow>
    ensures { option_copied result ≡ lookup (nat_lt number) rows.now.entries }
{
    match rows
        .range((Bound::Excluded(number), Bound::Unbounded))
        .next()
    {
        Some(pair) => Some(pair.1),
        None => None,
    }
}

/// What the agent is sent for a row: Ask, if the prompt is asked.
pub fn ask_to(agent: ConnId, row: &PromptRow) -> Option<Ask>
    ensures { result ≡ ask_to agent row.now }
{
    match row.stage {
        Stage::Asked(round) => Some(Ask {
            agent,
            prompt: row.prompt,
            round,
            wrong: row.wrong,
        }),
        Stage::Made => None,
        Stage::Deriving(_) => None,
    }
}

/// The first Ask of a prompt above this number.
pub fn ask_above(rows: &BTreeMap<u64, PromptRow>, agent: ConnId, number: u64) -> Option<Ask>
    requires given { AreGiven (2 ^ 64) (values_of rows.now.entries) }
    requires numbered { AreNumbered rows.now.entries }
    requires rising { AreRising (values_of rows.now.entries) }
    ensures { result ≡ find (λ ask. nat_lt number ask.prompt.0)
        (filter_map (ask_to agent) (values_of rows.now.entries)) }
{
    let mut above = number;
    while let Some(row) = first_above(rows, above) {
        if let Some(ask) = ask_to(agent, row) {
            return Some(ask);
        }
        above = row.prompt.0;
    }
    None
}

/// Copies of the rows, in order.
pub fn copies(alloc: Global, rows: &BTreeMap<u64, PromptRow>) -> Result<Vec<PromptRow>, OutOfMemory>
    ensures { IfOk result (λ copies. copies.items ≡ values_of rows.now.entries) }
{
    let mut copies = Vec::with_capacity(alloc, rows.len())?;
    for row in rows.values() {
        copies.push(row.copy()?)?;
    }
    Ok(copies)
}

/// What an agent is sent for each row that is asked, in order.
pub fn asks(
    alloc: Global,
    rows: &BTreeMap<u64, PromptRow>,
    agent: ConnId,
) -> Result<Vec<Ask>, OutOfMemory>
    ensures { IfOk result (λ asks.
        asks.items ≡ filter_map (ask_to agent) (values_of rows.now.entries)) }
{
    let mut asks = Vec::new(alloc);
    for row in rows.values() {
        if let Some(ask) = ask_to(agent, row) {
            asks.push(ask)?;
        }
    }
    Ok(asks)
}
