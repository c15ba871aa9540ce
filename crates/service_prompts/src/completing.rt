// The signal Completed.
ghost use Rattle.std.specs.Prelude.{◌≡◌, List, map, take, IfOk, codes};
ghost use Rattle.service_prompts.specs.Prompting.{completed_sent, completed_signal, completion_of, created_path};
ghost use Rattle.service_prompts.specs.Unlocking.{given_of};
ghost use Rattle.service_tables.specs.Connections.{spread};
ghost use Rattle.service_tables.specs.signal_fanout.specs.declared.rows.ConnRow.{ConnRow};

use kr_base::{ConnId, OutOfMemory, PromptId, Stem, Text};
use kr_items::Items;
use kr_names::{ObjectName, path_of};
use prompt_state::{PromptKind, PromptState, Target};
use service_tables::secret_calls::{Completion, Out, SharedSignal, Signal};
use service_tables::{Delivery, collection_path};
use std::alloc::Global;

// The paths that were given for targets.
fn given_of(alloc: Global, targets: &[Target]) -> Result<Vec<Text>, OutOfMemory>
    ensures { IfOk result (λ paths. paths.items ≡ given_of targets.now) }
{
    let mut paths = Vec::with_capacity(alloc, targets.len())?;
    for target in targets {
        paths.push(target.given.copy()?)?;
    }
    Ok(paths)
}

// The path of a collection that was created, or whose password was changed, or `/`.
fn created_path(alloc: Global, created: &Option<Stem>) -> Result<Text, OutOfMemory>
    ensures { IfOk result (λ path. path ≡ created_path created.now) }
{
    match created {
        Some(stem) => collection_path(alloc, stem),
        None => path_of(alloc, &ObjectName::Nothing),
    }
}

/// What a prompt of this kind completes with.
pub fn completion_of(
    alloc: Global,
    kind: &PromptKind,
    created: &Option<Stem>,
) -> Result<Completion, OutOfMemory>
    ensures { IfOk result (λ completion. completion ≡ completion_of kind.now created.now) }
{
    match kind {
        PromptKind::Unlock(targets) => {
            let paths = given_of(alloc, targets.done())?;
            Ok(Completion::Objects(Items::new(paths)))
        }
        PromptKind::Create { .. } => {
            let path = created_path(alloc, created)?;
            Ok(Completion::Object(path))
        }
        PromptKind::Change { .. } => {
            let path = created_path(alloc, created)?;
            Ok(Completion::Object(path))
        }
    }
}

/// The delivery of the signal Completed, to its owner, for a prompt of this kind.
pub fn completed_signal(
    alloc: Global,
    prompt: PromptId,
    owner: ConnId,
    kind: &PromptKind,
    dismissed: bool,
    created: &Option<Stem>,
) -> Result<Delivery, OutOfMemory>
    ensures { IfOk result (λ delivery. delivery ≡ record {
      to = owner;
      out = (completed_signal dismissed created.now
          (record { prompt = prompt; owner = owner; kind = kind.now })).out;
    }) }
{
    let completion = completion_of(alloc, kind, created)?;
    let signal = Signal::Completed {
        prompt,
        dismissed,
        completion,
    };
    Ok(Delivery {
        to: owner,
        out: Out::Signal(SharedSignal::new(alloc, signal)?),
    })
}

/// What is sent when a prompt ends, if it is there: Completed to its owner.
pub fn completed_sent(
    alloc: Global,
    prompts: &PromptState,
    prompt: PromptId,
    dismissed: bool,
    created: &Option<Stem>,
) -> Result<Vec<Delivery>, OutOfMemory>
    ensures { IfOk result (λ deliveries. (rows : List ConnRow) → deliveries.items
        ≡ spread rows (completed_sent prompt dismissed created.now prompts.now)) }
{
    let mut outs = Vec::new(alloc);
    if let Some(row) = prompts.row(prompt) {
        let sent = completed_signal(alloc, row.prompt, row.owner, &row.kind, dismissed, created)?;
        outs.push(sent)?;
    }
    Ok(outs)
}
