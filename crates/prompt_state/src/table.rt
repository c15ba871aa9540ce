ghost use Rattle.std.specs.Prelude.{◌≡◌, ◌⊎◌, ℕ, ◌≤◌, IfNone, IfSome, OnOk, OnErr, IfOk, IfErr, IsErrOf, Some, None, true, false, if◌then◌else◌, nat_eq};
ghost use Rattle.std.specs.Prelude.{◌^◌, ◌++◌, ◌∷◌, [], not, filter};
ghost use Rattle.std.specs.Map.{values_of};
ghost use Rattle.std.specs.Option.{is_some, option_copied, option_map};
ghost use Rattle.prompt_state.specs.Targets.{first_done, first_dropped};
ghost use Rattle.prompt_state.specs.Prompts.{AreSound, IsOfAnswer, abandoned, answered, asked, asked_again, asks, ask_after, ask_at, begun, cleared, derives_in, ended, ended_row, first_of_row, is_agent, is_full, is_taken, last_round, next_round, no_prompts, one_more, owns, refusal, registered, row_at, targeted, unregistered, wronged};
ghost use Rattle.prompt_state.specs.Prompts.{AreGiven, AreRising, IsStage, is_of, staged, without};
ghost use Rattle.prompt_state.specs.Kept.{AreIndexed, AreNumbered, entries_without, entry_at};

use crate::{Ask, Ended, PromptKind, PromptRow, Prompts, Stage, Target, owned, rows};
use kr_base::{ConnId, OutOfMemory, PromptId};
use kr_items::Items;
use std::alloc::Global;
use std::collections::{BTreeMap, BTreeSet};
use std::marker::Model;
use thiserror::Error;

/// The most prompts that a connection may have at once.
const MOST_PROMPTS: usize = 64;

/// Why a call about a prompt or the agent is refused.
#[derive(Clone, Copy, Debug, PartialEq, Eq, Error)]
pub enum PromptRefused {
    /// There is no such prompt, or the connection doesn't own it.
    #[error("there is no such prompt")]
    NoPrompt,
    /// The connection isn't the agent.
    #[error("the connection isn't the agent")]
    NotAgent,
    /// The prompt isn't asked in that round.
    #[error("the prompt isn't asked in that round")]
    OldRound,
    /// The connection has 64 prompts, or no number is left.
    #[error("the connection has all the prompts that it may have")]
    TooMany,
    /// Another connection is the agent.
    #[error("another connection is the agent")]
    AgentTaken,
    /// No memory was left.
    #[error("out of memory")]
    OutOfMemory,
}

/// The prompts and the agent. A contract sees the rows of the prompts by their numbers, the agent, and the
/// number that the next prompt gets.
#[derive(Drop)]
pub struct PromptState {
    alloc: Global,
    rows: BTreeMap<u64, PromptRow>,
    owned: BTreeSet<(u64, u64)>,
    agent: Option<ConnId>,
    next: u64,
}

impl Model for PromptState {
    ghost use Rattle.prompt_state.specs.declared.row.Prompts.{Prompts};

    ghost Value = { Prompts };

    ghost use Rattle.prompt_state.specs.Kept.{prompts_of, IsKept};

    ghost view = { λ t. prompts_of t.rows.entries t.agent t.next };

    ghost invariant = { λ t. IsKept (prompts_of t.rows.entries t.agent t.next)
        t.rows.entries t.owned.keys };
}

impl PromptState {
    /// A state without prompts and without an agent; the first prompt gets the number 1. It
    /// takes no memory.
    pub fn new(alloc: Global) -> PromptState
        ensures { result ≡ no_prompts }
    {
        PromptState {
            alloc,
            rows: BTreeMap::new(alloc),
            owned: BTreeSet::new(alloc),
            agent: None,
            next: 1,
        }
    }

    /// Begins a prompt of the connection, and gives it the next number. It isn't asked yet. Of the
    /// calls that change something, only this one takes memory.
    ///
    /// Refused with `TooMany` if the connection has 64 prompts or no number is left; otherwise memory may
    /// run out.
    pub fn begin(&mut self, owner: ConnId, kind: PromptKind) -> Result<PromptId, PromptRefused>
        ensures number { IfOk result (λ prompt. prompt.0 ≡ self.old.next) }
        ensures begun { OnOk result (self.new ≡ begun owner kind self.old) }
        ensures room { OnOk result (is_full owner self.old ≡ false) }

        // Nothing has changed after a refusal.
        ensures too_many { IsErrOf result PromptRefused.TooMany → is_full owner self.old ≡ true }
        ensures cause { OnErr result (IsErrOf result PromptRefused.TooMany
            ⊎ IsErrOf result PromptRefused.OutOfMemory) }
        ensures memory { IsErrOf result PromptRefused.OutOfMemory → is_full owner self.old ≡ false }
        ensures unchanged { OnErr result (self.new ≡ self.old) }
    {
        if self.is_full(owner) {
            return Err(PromptRefused::TooMany);
        }
        let number = self.next;
        let row = PromptRow {
            prompt: PromptId(number),
            owner,
            kind,
            stage: Stage::Made,
            wrong: 0,
        };
        if let Err(_) = add_row(&mut self.rows, &mut self.owned, owner.0, number, row) {
            return Err(PromptRefused::OutOfMemory);
        }
        self.next = number + 1;
        Ok(PromptId(number))
    }

    /// A prompt's row, if the prompt is there.
    pub fn row(&self, prompt: PromptId) -> Option<&PromptRow>
        ensures row { option_copied result ≡ row_at prompt self.now }
        ensures sound { AreSound self.now }
    {
        rows::at(&self.rows, prompt.0)
    }

    /// Whether the connection owns the prompt.
    pub fn owned_by(&self, prompt: PromptId, owner: ConnId) -> bool
        ensures { result ≡ owns owner prompt self.now }
    {
        match self.row(prompt) {
            Some(row) => row.owner.0 == owner.0,
            None => false,
        }
    }

    /// Whether the connection can't begin another prompt.
    pub fn is_full(&self, owner: ConnId) -> bool
        ensures { result ≡ is_full owner self.now }
    {
        self.next == u64::MAX || owned::count_of(&self.owned, owner.0) >= MOST_PROMPTS
    }

    /// The number that the next prompt gets.
    pub fn next(&self) -> PromptId
        ensures { result.0 ≡ self.now.next }
    {
        PromptId(self.next)
    }

    /// The agent, if there is one.
    pub fn agent(&self) -> Option<ConnId>
        ensures { result ≡ self.now.agent }
    {
        self.agent
    }

    /// Whether the connection is the agent.
    pub fn is_agent(&self, conn: ConnId) -> bool
        ensures { result ≡ is_agent conn self.now }
    {
        match self.agent {
            Some(agent) => agent.0 == conn.0,
            None => false,
        }
    }

    /// Whether another connection is the agent.
    pub fn is_taken(&self, conn: ConnId) -> bool
        ensures { result ≡ is_taken conn self.now.agent }
    {
        match self.agent {
            Some(agent) => agent.0 != conn.0,
            None => false,
        }
    }

    /// Asks a prompt for the first time, in round 1. A prompt that was asked before stays as it is.
    ///
    /// Refused with `NoPrompt` if the connection owns no such prompt: another connection's prompt is refused
    /// like one that was never begun.
    pub fn ask(&mut self, prompt: PromptId, owner: ConnId) -> Result<(), PromptRefused>
        ensures owned { OnOk result (owns owner prompt self.old ≡ true) }
        ensures asked { OnOk result (self.new ≡ asked prompt self.old) }

        // Nothing else is refused, and nothing has changed then.
        ensures no_prompt { OnErr result (owns owner prompt self.old ≡ false) }
        ensures cause { OnErr result (IsErrOf result PromptRefused.NoPrompt) }
        ensures unchanged { OnErr result (self.new ≡ self.old) }
    {
        let Some(stage) = self.stage_owned(prompt, owner) else {
            return Err(PromptRefused::NoPrompt);
        };
        if stage.is_made() {
            self.set_stage(prompt, Stage::Asked(1));
        }
        Ok(())
    }

    /// What the agent is sent when the prompt is asked: Ask, which goes to the agent alone. None if
    /// there is no agent or the prompt isn't asked.
    pub fn ask_of(&self, prompt: PromptId) -> Option<Ask>
        ensures { result ≡ ask_at prompt self.now }
    {
        let Some(agent) = self.agent() else {
            return None;
        };
        match self.row(prompt) {
            Some(row) => rows::ask_to(agent, row),
            None => None,
        }
    }

    /// The first Ask of a prompt after this one, in order of their numbers. A caller that starts
    /// after prompt 0 and continues after each prompt that is returned asks every prompt again, as
    /// Register does. None if there is no agent or no later prompt is asked. Its time grows with
    /// the number of prompts that it passes over.
    pub fn next_ask(&self, after: PromptId) -> Option<Ask>
        ensures { result ≡ ask_after after self.now }
    {
        match self.agent {
            Some(agent) => rows::ask_above(&self.rows, agent, after.0),
            None => None,
        }
    }

    /// What this connection would be sent as the agent when every prompt is asked again, as by Register: Ask
    /// for each prompt that is asked, in order of their numbers. Its time grows with the number of all
    /// prompts.
    pub fn asks_to(&self, agent: ConnId) -> Result<Vec<Ask>, OutOfMemory>
        ensures { IfOk result (λ listed. listed.items ≡ asks (registered agent self.now)) }
    {
        rows::asks(self.alloc, &self.rows, agent)
    }

    /// Why an answer or a refusal by the agent would be refused, if it would be, in this order: `NotAgent` if
    /// the connection isn't the agent, `NoPrompt` if there is no such prompt, `OldRound` if the prompt isn't
    /// asked in that round.
    pub fn refusal(&self, prompt: PromptId, round: u64, from: ConnId) -> Option<PromptRefused>
        ensures refusal { result ≡ refusal prompt round from self.now }
        ensures cause { IfSome result IsOfAnswer }
        ensures round { IfNone result (1 ≤ round) }
    {
        if !self.is_agent(from) {
            return Some(PromptRefused::NotAgent);
        }
        match self.row(prompt) {
            Some(row) => {
                if row.stage.is_asked_in(round) {
                    None
                } else {
                    Some(PromptRefused::OldRound)
                }
            }
            None => Some(PromptRefused::NoPrompt),
        }
    }

    /// The agent answers a prompt in a round: the key is derived in that round. In the greatest round, after
    /// which there is no other, the prompt ends dismissed, and what is left of it is returned.
    ///
    /// Refused as `refusal` says.
    pub fn answer(
        &mut self,
        prompt: PromptId,
        round: u64,
        from: ConnId,
    ) -> Result<Option<Ended>, PromptRefused>
        ensures answered { OnOk result (self.new ≡ answered prompt round self.old) }
        ensures ended { IfOk result (λ answer. answer ≡ (if nat_eq round last_round
            then option_map ended_row (row_at prompt self.old) else None)) }

        // The refusals, exactly; nothing has changed then.
        ensures taken { OnOk result (refusal prompt round from self.old ≡ None) }
        ensures refused { IfErr result (λ refused.
            refusal prompt round from self.old ≡ Some refused) }
        ensures cause { IfErr result IsOfAnswer }
        ensures unchanged { OnErr result (self.new ≡ self.old) }
    {
        if let Some(refused) = self.refusal(prompt, round, from) {
            return Err(refused);
        }
        if round == u64::MAX {
            return Ok(Some(self.end(prompt)));
        }
        self.set_stage(prompt, Stage::Deriving(round));
        Ok(None)
    }

    /// The agent refuses a prompt in a round: it ends dismissed, and what is left of it is returned.
    ///
    /// Refused as `refusal` says.
    pub fn refuse(
        &mut self,
        prompt: PromptId,
        round: u64,
        from: ConnId,
    ) -> Result<Ended, PromptRefused>
        ensures ended { OnOk result (self.new ≡ ended prompt self.old) }
        ensures left { IfOk result (λ left.
            option_map ended_row (row_at prompt self.old) ≡ Some left) }

        // The refusals, exactly; nothing has changed then.
        ensures taken { OnOk result (refusal prompt round from self.old ≡ None) }
        ensures refused { IfErr result (λ refused.
            refusal prompt round from self.old ≡ Some refused) }
        ensures cause { IfErr result IsOfAnswer }
        ensures unchanged { OnErr result (self.new ≡ self.old) }
    {
        if let Some(refused) = self.refusal(prompt, round, from) {
            return Err(refused);
        }
        Ok(self.end(prompt))
    }

    /// Whether the prompt's key is being derived in this round. It is false for a key that
    /// comes too late.
    pub fn derived(&self, prompt: PromptId, round: u64) -> bool
        ensures { result ≡ derives_in round (row_at prompt self.now) }
    {
        match self.row(prompt) {
            Some(row) => row.stage.is_deriving_in(round),
            None => false,
        }
    }

    /// The owner dismisses its prompt: it ends, and what is left of it is returned.
    ///
    /// Refused with `NoPrompt` if the connection owns no such prompt: another connection's prompt is refused
    /// like one that was never begun.
    pub fn dismiss(&mut self, prompt: PromptId, owner: ConnId) -> Result<Ended, PromptRefused>
        ensures owned { OnOk result (owns owner prompt self.old ≡ true) }
        ensures ended { OnOk result (self.new ≡ ended prompt self.old) }
        ensures left { IfOk result (λ left.
            option_map ended_row (row_at prompt self.old) ≡ Some left) }

        // Nothing else is refused, and nothing has changed then.
        ensures no_prompt { OnErr result (owns owner prompt self.old ≡ false) }
        ensures cause { OnErr result (IsErrOf result PromptRefused.NoPrompt) }
        ensures unchanged { OnErr result (self.new ≡ self.old) }
    {
        if !self.owned_by(prompt, owner) {
            return Err(PromptRefused::NoPrompt);
        }
        Ok(self.end(prompt))
    }

    /// The connection becomes the agent, or remains it. What it is sent for each prompt that is
    /// asked is returned by `next_ask`.
    ///
    /// Refused with `AgentTaken` if another connection is the agent.
    pub fn register(&mut self, conn: ConnId) -> Result<(), PromptRefused>
        ensures free { OnOk result (is_taken conn self.old.agent ≡ false) }
        ensures registered { OnOk result (self.new ≡ registered conn self.old) }

        // Nothing else is refused, and nothing has changed then.
        ensures agent_taken { OnErr result (is_taken conn self.old.agent ≡ true) }
        ensures cause { OnErr result (IsErrOf result PromptRefused.AgentTaken) }
        ensures unchanged { OnErr result (self.new ≡ self.old) }
    {
        if self.is_taken(conn) {
            return Err(PromptRefused::AgentTaken);
        }
        self.agent = Some(conn);
        Ok(())
    }

    /// The agent leaves: each prompt whose key is being derived is asked in its next round, and waits.
    /// Its time grows with the number of all prompts.
    ///
    /// Refused with `NotAgent` if the connection isn't the agent.
    pub fn unregister(&mut self, conn: ConnId) -> Result<(), PromptRefused>
        ensures agent { OnOk result (is_agent conn self.old ≡ true) }
        ensures unregistered { OnOk result (self.new ≡ unregistered self.old) }

        // Nothing else is refused, and nothing has changed then.
        ensures not_agent { OnErr result (is_agent conn self.old ≡ false) }
        ensures cause { OnErr result (IsErrOf result PromptRefused.NotAgent) }
        ensures unchanged { OnErr result (self.new ≡ self.old) }
    {
        if !self.is_agent(conn) {
            return Err(PromptRefused::NotAgent);
        }
        self.leave();
        Ok(())
    }

    /// The prompt's first target that is left.
    pub fn first_open(&self, prompt: PromptId) -> Option<&Target>
        ensures { option_copied result ≡ first_of_row (row_at prompt self.now) }
    {
        match self.row(prompt) {
            Some(row) => row.kind.first_left(),
            None => None,
        }
    }

    /// The prompt's first target that is left is done: its collection is unlocked. Nothing changes
    /// if no target is left.
    pub fn done(&mut self, prompt: PromptId)
        ensures { self.new ≡ targeted prompt first_done self.old }
    {
        rows::finish_target(&mut self.rows, prompt.0);
    }

    /// The prompt's first target that is left is dropped: its collection is gone. Nothing changes
    /// if no target is left.
    pub fn drop_target(&mut self, prompt: PromptId)
        ensures { self.new ≡ targeted prompt first_dropped self.old }
    {
        rows::drop_target(&mut self.rows, prompt.0);
    }

    /// Counts one more wrong answer to the prompt, up to 4,294,967,295, and returns how many there are.
    pub fn wrong(&mut self, prompt: PromptId) -> u32
        requires { is_some (row_at prompt self.old) ≡ true }
        ensures counted { self.new ≡ wronged prompt self.old }
        ensures count { option_map (λ row. one_more row.wrong) (row_at prompt self.old)
            ≡ Some result }
    {
        match rows::add_wrong(&mut self.rows, prompt.0) {
            Some(wrong) => wrong,
            None => unreachable!(),
        }
    }

    /// Sets the number of wrong answers of the prompt to 0.
    pub fn clear_wrong(&mut self, prompt: PromptId)
        ensures { self.new ≡ cleared prompt self.old }
    {
        rows::clear_wrong(&mut self.rows, prompt.0);
    }

    /// Asks the prompt in its next round, and returns that round.
    pub fn again(&mut self, prompt: PromptId) -> u64
        requires { next_round (row_at prompt self.old) ≤ last_round }
        ensures asked { self.new ≡ asked_again prompt self.old }
        ensures round { result ≡ next_round (row_at prompt self.old) }
    {
        let round = self.next_round(prompt);
        self.set_stage(prompt, Stage::Asked(round));
        round
    }

    /// Ends the prompt: it is gone, and what is left of it is returned.
    pub fn end(&mut self, prompt: PromptId) -> Ended
        requires { is_some (row_at prompt self.old) ≡ true }
        ensures ended { self.new ≡ ended prompt self.old }
        ensures left { option_map ended_row (row_at prompt self.old) ≡ Some result }
    {
        match take_row(&mut self.rows, &mut self.owned, prompt) {
            Some(row) => Ended {
                prompt: row.prompt,
                owner: row.owner,
                kind: row.kind,
            },
            None => unreachable!(),
        }
    }

    /// A connection is gone: its prompts end, and nothing is sent for them. If it was the agent, it
    /// leaves as by `unregister`, whose time grows with the number of all prompts.
    pub fn gone(&mut self, owner: ConnId)
        ensures { self.new ≡ abandoned owner self.old }
    {
        self.end_all(owner);
        if self.is_agent(owner) {
            self.leave();
        }
    }

    /// The prompts as plain rows. It takes memory and one pass over all of them.
    pub fn rows(&self) -> Result<Prompts, OutOfMemory>
        ensures rows { IfOk result (λ prompts. prompts ≡ self.now) }
        ensures sound { AreSound self.now }
    {
        Ok(Prompts {
            rows: Items::new(rows::copies(self.alloc, &self.rows)?),
            agent: self.agent,
            next: self.next,
        })
    }

    // The next round in which a prompt is asked.
    fn next_round(&self, prompt: PromptId) -> u64
        requires { next_round (row_at prompt self.now) ≤ last_round }
        ensures round { result ≡ next_round (row_at prompt self.now) }
        ensures valid { (1 ≤ result) × (result ≤ last_round) }
    {
        match self.row(prompt) {
            Some(row) => row.stage.round() + 1,
            None => 1,
        }
    }

    // Sets how far the prompt has come, if it is there.
    fn set_stage(&mut self, prompt: PromptId, stage: Stage)
        requires { IsStage stage }
        ensures { self.new ≡ staged prompt stage self.old }
    {
        rows::set_stage(&mut self.rows, prompt.0, stage);
    }

    // Removes the agent; each prompt whose key is being derived is asked in its next round.
    fn leave(&mut self)
        ensures { self.new ≡ unregistered self.old }
    {
        self.agent = None;
        rows::wait_again(&mut self.rows);
    }

    // Removes the connection's prompts.
    fn end_all(&mut self, owner: ConnId)
        ensures { self.new ≡ without owner self.old }
    {
        take_rows(&mut self.rows, &mut self.owned, owner);
    }

    // The stage of a prompt that the connection owns.
    fn stage_owned(&self, prompt: PromptId, owner: ConnId) -> Option<Stage>
        ensures { result ≡ (if owns owner prompt self.now
            then option_map (λ row. row.stage) (row_at prompt self.now) else None) }
    {
        match self.row(prompt) {
            Some(row) if row.owner.0 == owner.0 => Some(row.stage),
            _ => None,
        }
    }
}

// Adds a row, whose number is above all others, to both.
fn add_row(
    rows: &mut BTreeMap<u64, PromptRow>,
    pairs: &mut BTreeSet<(u64, u64)>,
    owner: u64,
    number: u64,
    row: PromptRow,
) -> Result<(), OutOfMemory>
    requires given { AreGiven number (values_of rows.old.entries) }
    requires numbered { AreNumbered rows.old.entries }
    requires indexed { AreIndexed (values_of rows.old.entries) pairs.old.keys }
    requires number { row.prompt.0 ≡ number }
    requires owner { row.owner.0 ≡ owner }
    ensures added { OnOk result (rows.new.entries ≡ rows.old.entries ++ (number, row) ∷ []) }
    ensures unchanged { OnErr result (rows.new.entries ≡ rows.old.entries) }
    ensures indexed { AreIndexed (values_of rows.new.entries) pairs.new.keys }
{
    owned::add(pairs, owner, number)?;
    match rows::put_last(rows, number, row) {
        Ok(()) => Ok(()),
        Err(refused) => {
            owned::take(pairs, owner, number);
            Err(refused)
        }
    }
}

// Takes a prompt's row out of both, and returns it.
fn take_row(
    rows: &mut BTreeMap<u64, PromptRow>,
    pairs: &mut BTreeSet<(u64, u64)>,
    prompt: PromptId,
) -> Option<PromptRow>
    requires numbered { AreNumbered rows.old.entries }
    requires rising { AreRising (values_of rows.old.entries) }
    requires indexed { AreIndexed (values_of rows.old.entries) pairs.old.keys }
    ensures row { result ≡ entry_at prompt.0 rows.old.entries }
    ensures taken { rows.new.entries ≡ entries_without prompt.0 rows.old.entries }
    ensures indexed { AreIndexed (values_of rows.new.entries) pairs.new.keys }
{
    match rows::take_out(rows, prompt.0) {
        Some(row) => {
            owned::take(pairs, row.owner.0, prompt.0);
            Some(row)
        }
        None => None,
    }
}

// Takes a prompt's row out of both.
fn drop_row(rows: &mut BTreeMap<u64, PromptRow>, pairs: &mut BTreeSet<(u64, u64)>, prompt: PromptId)
    requires numbered { AreNumbered rows.old.entries }
    requires rising { AreRising (values_of rows.old.entries) }
    requires indexed { AreIndexed (values_of rows.old.entries) pairs.old.keys }
    ensures taken { rows.new.entries ≡ entries_without prompt.0 rows.old.entries }
    ensures indexed { AreIndexed (values_of rows.new.entries) pairs.new.keys }
{
    let _ = take_row(rows, pairs, prompt);
}

// Takes all rows of an owner out of both.
fn take_rows(rows: &mut BTreeMap<u64, PromptRow>, pairs: &mut BTreeSet<(u64, u64)>, owner: ConnId)
    requires given { AreGiven (2 ^ 64) (values_of rows.old.entries) }
    requires numbered { AreNumbered rows.old.entries }
    requires rising { AreRising (values_of rows.old.entries) }
    requires indexed { AreIndexed (values_of rows.old.entries) pairs.old.keys }
    ensures others { values_of rows.new.entries
        ≡ filter (λ row. not (is_of owner row)) (values_of rows.old.entries) }
    ensures numbered { AreNumbered rows.new.entries }
    ensures indexed { AreIndexed (values_of rows.new.entries) pairs.new.keys }
{
    while let Some(number) = owned::first_of(pairs, owner.0) {
        drop_row(rows, pairs, PromptId(number));
    }
}
