ghost use Rattle.std.specs.Prelude.{◌≡◌, IfOk};
ghost use Rattle.std.specs.Option.{option_copied};
ghost use Rattle.prompt_state.specs.Prompts.{first_of_kind, is_asked_in, is_deriving_in, is_made, round_of};

use crate::{Target, Targets};
use kr_base::{ConnId, OutOfMemory, PromptId, Stem, Text};
use kr_items::Items;

/// What a prompt is for.
#[derive(Drop)]
pub enum PromptKind {
    /// It unlocks the collections of these targets, one after the other.
    Unlock(Targets),
    /// It creates a collection.
    Create {
        /// The label of the new collection.
        label: Text,
        /// The alias that it gets, or the empty text.
        alias: Text,
        /// The salt of its file.
        salt: [u8; 8],
    },
    /// It changes the password of a collection.
    Change {
        /// The stem of the collection.
        stem: Stem,
        /// The salt that its file gets.
        salt: [u8; 8],
    },
}

impl PromptKind {
    /// The first target that is left, if it has targets.
    pub fn first_left(&self) -> Option<&Target>
        ensures { option_copied result ≡ first_of_kind self.now }
    {
        match self {
            PromptKind::Unlock(targets) => targets.first(),
            PromptKind::Create { .. } => None,
            PromptKind::Change { .. } => None,
        }
    }

    /// A copy of the kind.
    pub fn copy(&self) -> Result<PromptKind, OutOfMemory>
        ensures { IfOk result (λ copied. copied ≡ self.now) }
    {
        match self {
            PromptKind::Unlock(targets) => Ok(PromptKind::Unlock(targets.copy()?)),
            PromptKind::Create { label, alias, salt } => Ok(PromptKind::Create {
                label: label.copy()?,
                alias: alias.copy()?,
                salt: *salt,
            }),
            PromptKind::Change { stem, salt } => Ok(PromptKind::Change {
                stem: stem.copy()?,
                salt: *salt,
            }),
        }
    }
}

/// How far a prompt has come. Each time that it is asked it is in a new round, counted from 1.
#[derive(Clone, Copy, Debug, PartialEq, Eq)]
pub enum Stage {
    /// Its owner hasn't called Prompt yet.
    Made,
    /// The agent is asked for a password in this round; without an agent the prompt waits.
    Asked(u64),
    /// The key of the password that was given in this round is being derived.
    Deriving(u64),
}

impl Stage {
    /// The round of this state; 0 before the first.
    pub fn round(self) -> u64
        ensures { result ≡ round_of self }
    {
        match self {
            Stage::Made => 0,
            Stage::Asked(round) => round,
            Stage::Deriving(round) => round,
        }
    }

    /// Whether Prompt hasn't been called yet.
    pub fn is_made(self) -> bool
        ensures { result ≡ is_made self }
    {
        match self {
            Stage::Made => true,
            Stage::Asked(_) => false,
            Stage::Deriving(_) => false,
        }
    }

    /// Whether the agent is asked in this round.
    pub fn is_asked_in(self, round: u64) -> bool
        ensures { result ≡ is_asked_in round self }
    {
        match self {
            Stage::Asked(own) => own == round,
            Stage::Made => false,
            Stage::Deriving(_) => false,
        }
    }

    /// Whether a key is being derived in this round.
    pub fn is_deriving_in(self, round: u64) -> bool
        ensures { result ≡ is_deriving_in round self }
    {
        match self {
            Stage::Deriving(own) => own == round,
            Stage::Made => false,
            Stage::Asked(_) => false,
        }
    }
}

/// A prompt, and the connection that owns it.
#[derive(Drop)]
pub struct PromptRow {
    /// The prompt's number.
    pub prompt: PromptId,
    /// The connection whose call began it.
    pub owner: ConnId,
    /// What it is for, with its targets.
    pub kind: PromptKind,
    /// How far it has come.
    pub stage: Stage,
    /// How many wrong passwords were given for its first target that is left.
    pub wrong: u32,
}

impl PromptRow {
    /// A copy of the row.
    pub fn copy(&self) -> Result<PromptRow, OutOfMemory>
        ensures { IfOk result (λ copied. copied ≡ self.now) }
    {
        Ok(PromptRow {
            prompt: self.prompt,
            owner: self.owner,
            kind: self.kind.copy()?,
            stage: self.stage,
            wrong: self.wrong,
        })
    }
}

/// The prompts, the agent, and the number that the next prompt gets.
#[derive(Drop)]
pub struct Prompts {
    /// The prompts, by their numbers.
    pub rows: Items<PromptRow>,
    /// The connection that answers prompts.
    pub agent: Option<ConnId>,
    /// The number that the next prompt gets.
    pub next: u64,
}

/// What the agent is sent when a prompt is asked: the signal Ask, which goes to it alone.
#[derive(Clone, Copy, Debug, PartialEq, Eq)]
pub struct Ask {
    /// The agent.
    pub agent: ConnId,
    /// The prompt.
    pub prompt: PromptId,
    /// The round in which an answer counts.
    pub round: u64,
    /// How many wrong passwords were given for the target that it is asked for.
    pub wrong: u32,
}

/// What is left of a prompt that ended: the signal Completed is made of it, and goes only to its
/// owner. Only a call that ends a prompt makes one.
#[derive(Drop)]
pub struct Ended {
    /// The prompt, which is no longer there.
    pub prompt: PromptId,
    /// The connection that owned it.
    pub owner: ConnId,
    /// What it was for, with the targets that are done.
    pub kind: PromptKind,
}
