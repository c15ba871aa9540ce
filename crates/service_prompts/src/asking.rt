// The signal Ask.
ghost use Rattle.std.specs.Prelude.{◌≡◌, List, IfOk};
ghost use Rattle.std.specs.Option.{option_map};
ghost use Rattle.prompt_state.specs.Prompts.{registered};
ghost use Rattle.service_tables.specs.secret_calls.specs.Outs.{shown_label};
ghost use Rattle.service_tables.specs.Connections.{spread};
ghost use Rattle.service_tables.specs.Disk.{contents_in};
ghost use Rattle.service_tables.specs.TablesReading.{label_of};
ghost use Rattle.service_tables.specs.Sent.{Sent};
ghost use Rattle.service_tables.specs.signal_fanout.specs.declared.rows.ConnRow.{ConnRow};
ghost use Rattle.service_tables.specs.signal_fanout.specs.declared.rows.Delivery.{Delivery};
ghost use Rattle.service_prompts.specs.Prompting.{ask_sent, ask_signal, ask_signal_in, asks_sent, label_asked, purpose_of};

use kr_base::{ConnId, OutOfMemory, PromptId, Stem, Text};
use kr_outside::Folder;
use prompt_state::{Ask, PromptKind, PromptState};
use service_tables::secret_calls::{AskKind, Out, SharedSignal, Signal, no_label, shown_label};
use service_tables::{Delivery, Disk};
use std::alloc::Global;

// What the password is for.
fn purpose_of(kind: &PromptKind) -> AskKind
    ensures { result ≡ purpose_of kind.now }
{
    match kind {
        PromptKind::Unlock(_) => AskKind::Unlock,
        PromptKind::Create { .. } => AskKind::Create,
        PromptKind::Change { .. } => AskKind::Change,
    }
}

// The label of the collection of a stem, as Ask contains it; it is empty if there is none.
fn label_in<F: Folder>(alloc: Global, disk: &Disk<F>, stem: &Stem) -> Result<Text, OutOfMemory>
    ensures { IfOk result (λ shown.
        shown ≡ shown_label (label_of stem.now (contents_in disk.now).collections)) }
{
    match disk.label(stem) {
        Some(label) => shown_label(alloc, label),
        None => Ok(no_label(alloc)),
    }
}

// The label that Ask contains.
fn label_shown<F: Folder>(
    alloc: Global,
    disk: &Disk<F>,
    kind: &PromptKind,
) -> Result<Text, OutOfMemory>
    ensures { IfOk result (λ shown.
        shown ≡ shown_label (label_asked (contents_in disk.now).collections kind.now)) }
{
    match kind {
        PromptKind::Unlock(targets) => {
            let Some(target) = targets.first() else {
                return Ok(no_label(alloc));
            };
            label_in(alloc, disk, &target.stem)
        }
        PromptKind::Create { label, .. } => shown_label(alloc, label),
        PromptKind::Change { stem, .. } => label_in(alloc, disk, stem),
    }
}

/// The delivery of the signal Ask, to the agent, for a prompt of this kind.
pub fn ask_signal<F: Folder>(
    alloc: Global,
    disk: &Disk<F>,
    kind: &PromptKind,
    ask: Ask,
) -> Result<Delivery, OutOfMemory>
    ensures { IfOk result (λ delivery. delivery ≡ record {
      to = ask.agent;
      out = (ask_signal (contents_in disk.now).collections kind.now ask).out;
    }) }
{
    let label = label_shown(alloc, disk, kind)?;
    let signal = Signal::Ask {
        prompt: ask.prompt,
        round: ask.round,
        kind: purpose_of(kind),
        label,
        wrong: ask.wrong,
    };
    Ok(Delivery {
        to: ask.agent,
        out: Out::Signal(SharedSignal::new(alloc, signal)?),
    })
}

// The signal Ask, if the prompt is there.
fn ask_signal_in<F: Folder>(
    alloc: Global,
    disk: &Disk<F>,
    prompts: &PromptState,
    ask: Ask,
) -> Result<Option<Delivery>, OutOfMemory>
    ensures { IfOk result (λ delivery. delivery
        ≡ option_map (λ (sent : Sent). record { to = ask.agent; out = sent.out })
        (ask_signal_in (contents_in disk.now).collections prompts.now ask)) }
{
    match prompts.row(ask.prompt) {
        Some(row) => Ok(Some(ask_signal(alloc, disk, &row.kind, ask)?)),
        None => Ok(None),
    }
}

/// What is sent when a prompt is asked: Ask to the agent, if there is an agent and the prompt is at a stage in
/// which it is asked.
pub fn ask_sent<F: Folder>(
    alloc: Global,
    disk: &Disk<F>,
    prompts: &PromptState,
    prompt: PromptId,
) -> Result<Vec<Delivery>, OutOfMemory>
    ensures { IfOk result (λ deliveries. (rows : List ConnRow) → deliveries.items
        ≡ spread rows (ask_sent prompt prompts.now (contents_in disk.now).collections)) }
{
    let mut outs = Vec::new(alloc);
    if let Some(ask) = prompts.ask_of(prompt) {
        if let Some(sent) = ask_signal_in(alloc, disk, prompts, ask)? {
            outs.push(sent)?;
        }
    }
    Ok(outs)
}

/// What a connection that becomes the agent is sent: Ask for each prompt that is asked, in order of their
/// numbers.
pub fn asks_sent_to<F: Folder>(
    alloc: Global,
    disk: &Disk<F>,
    prompts: &PromptState,
    agent: ConnId,
) -> Result<Vec<Delivery>, OutOfMemory>
    ensures { IfOk result (λ deliveries. (rows : List ConnRow) → deliveries.items
        ≡ spread rows
        (asks_sent (registered agent prompts.now) (contents_in disk.now).collections)) }
{
    let asks = prompts.asks_to(agent)?;
    let mut outs = Vec::new(alloc);
    for ask in &asks {
        if let Some(sent) = ask_signal_in(alloc, disk, prompts, *ask)? {
            outs.push(sent)?;
        }
    }
    Ok(outs)
}
