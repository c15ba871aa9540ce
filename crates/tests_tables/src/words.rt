// What a table of prompts returns, as texts.

use kr_base::{Stem, Text};
use prompt_state::{Ask, Ended, PromptKind, PromptRefused, PromptRow, Stage, Target, Targets};
use std::alloc::Global;
use std::test::Fail;

/// The parts, separated by spaces.
pub fn spaced(alloc: Global, parts: &[&str]) -> Result<String, Fail> {
    let mut text = String::new(alloc);
    for part in parts {
        if !text.is_empty() {
            text.push(' ')?;
        }
        text.push_str(part)?;
    }
    Ok(text)
}

/// A number as a text.
pub fn decimal(alloc: Global, number: u64) -> Result<String, Fail> {
    Ok(format!(in alloc; "{number}")?)
}

/// A refusal's name.
pub fn name_of(refused: PromptRefused) -> &'static str {
    match refused {
        PromptRefused::NoPrompt => "no prompt",
        PromptRefused::NotAgent => "not agent",
        PromptRefused::OldRound => "old round",
        PromptRefused::TooMany => "too many",
        PromptRefused::AgentTaken => "agent taken",
        PromptRefused::OutOfMemory => "no memory",
    }
}

/// A target with this name, in a collection with the same name.
pub fn target(alloc: Global, name: &str) -> Result<Target, Fail> {
    let given = Text::from_str(alloc, name)?.ok_or("a text")?;
    let stem = Stem::new(alloc, name)?.ok_or("a stem")?;
    Ok(Target { given, stem })
}

/// A kind of prompt: `new` creates a collection, `change a` changes the password of one, and other words are
/// the targets to unlock.
pub fn kind(alloc: Global, words: &str) -> Result<PromptKind, Fail> {
    if words == "new" {
        let label = Text::from_str(alloc, "label")?.ok_or("a text")?;
        let alias = Text::from_str(alloc, "alias")?.ok_or("a text")?;
        return Ok(PromptKind::Create {
            label,
            alias,
            salt: [7; 8],
        });
    }
    if let Some(name) = words.strip_prefix("change ") {
        let stem = Stem::new(alloc, name)?.ok_or("a stem")?;
        return Ok(PromptKind::Change { stem, salt: [7; 8] });
    }
    let mut list = Vec::new(alloc);
    for name in words.split(' ') {
        list.push(target(alloc, name)?)?;
    }
    Ok(PromptKind::Unlock(Targets::new(list)))
}

// The paths of targets.
fn paths(alloc: Global, targets: &[Target]) -> Result<String, Fail> {
    let mut text = String::new(alloc);
    for target in targets {
        text.push_str(target.given.as_str())?;
    }
    Ok(text)
}

// The targets of a prompt that are done and left, as `ab/c`.
fn targets_of(alloc: Global, kind: &PromptKind) -> Result<String, Fail> {
    match kind {
        PromptKind::Unlock(targets) => {
            let mut text = paths(alloc, targets.done())?;
            let left = paths(alloc, targets.left())?;
            text.push('/')?;
            text.push_str(left.as_str())?;
            Ok(text)
        }
        PromptKind::Create { .. } => spaced(alloc, &["new"]),
        PromptKind::Change { stem, .. } => spaced(alloc, &["change", stem.as_str()]),
    }
}

// A stage's name.
fn name_of_stage(stage: Stage) -> &'static str {
    match stage {
        Stage::Made => "made",
        Stage::Asked(_) => "asked",
        Stage::Deriving(_) => "deriving",
    }
}

/// A prompt's stage, round, targets and wrong answers.
pub fn row(alloc: Global, row: &PromptRow) -> Result<String, Fail> {
    let round = decimal(alloc, row.stage.round())?;
    let targets = targets_of(alloc, &row.kind)?;
    let wrong = decimal(alloc, u64::from(row.wrong))?;
    let stage = name_of_stage(row.stage);
    spaced(
        alloc,
        &[stage, round.as_str(), targets.as_str(), wrong.as_str()],
    )
}

/// What the agent is sent.
pub fn ask(alloc: Global, ask: &Ask) -> Result<String, Fail> {
    let agent = decimal(alloc, ask.agent.0)?;
    let prompt = decimal(alloc, ask.prompt.0)?;
    let round = decimal(alloc, ask.round)?;
    let wrong = decimal(alloc, u64::from(ask.wrong))?;
    spaced(
        alloc,
        &[
            "ask",
            agent.as_str(),
            prompt.as_str(),
            round.as_str(),
            wrong.as_str(),
        ],
    )
}

/// What is left of a prompt that ended, and who owned it.
pub fn ended(alloc: Global, ended: &Ended) -> Result<String, Fail> {
    let owner = decimal(alloc, ended.owner.0)?;
    let prompt = decimal(alloc, ended.prompt.0)?;
    let targets = targets_of(alloc, &ended.kind)?;
    spaced(
        alloc,
        &["ended", owner.as_str(), prompt.as_str(), targets.as_str()],
    )
}
