// The calls of the interface Prompt, and how a prompt advances and ends.
ghost use Rattle.std.specs.Prelude.{◌≡◌, ◌+◌, ◌∷◌, ◌≤◌, List, [], Option, None, Some, true, false, IsTrue, IfOk, IfSome, OnErr};
ghost use Rattle.std.specs.Option.{is_some, option_copied};
ghost use Rattle.kr_base.specs.declared.ids.ConnId.{ConnId};
ghost use Rattle.kr_base.specs.declared.ids.PromptId.{PromptId};
ghost use Rattle.kr_base.specs.Attributes.{is_name};
ghost use Rattle.service_events.specs.collection_table.specs.Entries.{without};
ghost use Rattle.service_events.specs.collection_table.specs.Rows.{has, is_open};
ghost use Rattle.prompt_state.specs.Prompts.{AreSound, first_of_row, last_round, next_round, round_of, row_at};
ghost use Rattle.service_events.specs.AnswerCalls.{going_on};
ghost use Rattle.service_events.specs.Plan.{End_prompt, Go_on, answered};
ghost use Rattle.service_events.specs.PromptCalls.{advance_sent, are_none, call_prompt, dismiss, is_given_up, is_made_row, is_over, is_over_row, passed, passed_kind, passed_over};
ghost use Rattle.service_events.specs.PublicBody.{PublicBody, body_with};
ghost use Rattle.service_events.specs.PublicBody as public;
ghost use Rattle.service_calls.specs.Rows.{contents_left, disk_of, rows_of};
ghost use Rattle.service_events.specs.Run.{asked, performed, sent_by};
ghost use Rattle.service_events.specs.ServiceCalls.{next_prompt, with_new_prompt};
ghost use Rattle.service_calls.specs.Done.{HasRoomToReply, Leads};
ghost use Rattle.service_events.specs.service_tables.specs.Connections.{HasRoom, spread};
ghost use Rattle.service_events.specs.service_tables.specs.Disk.{contents_in};
ghost use Rattle.service_events.specs.service_tables.specs.Opened.{contents_of};
ghost use Rattle.service_events.specs.service_tables.specs.TablesReading.{asked_collections};
ghost use Rattle.service_events.specs.service_tables.specs.Storing.{Brought};
ghost use Rattle.service_events.specs.service_tables.specs.signal_fanout.specs.declared.rows.ConnRow.{ConnRow};

use crate::Tables;
use crate::effect::Effect;
use crate::storing::{Done, refused, sending, unstored};
use kr_base::{ConnId, OutOfMemory, PromptId, Stem};
use kr_outside::Folder;
use prompt_state::{Ask, PromptKind, PromptRow, PromptState, Target, Targets};
use service_events::secret_calls::{Body, ErrorName};
use service_events::service_prompts::{ask_signal, completed_sent, completed_signal};
use service_events::service_tables::{Delivery, Disk};
use std::cmp::Ordering;

// The first target of a prompt that is left. Shows that no two prompts have one number.
fn first_open(prompts: &PromptState, prompt: PromptId) -> Option<&Target>
    ensures first { option_copied result ≡ first_of_row (row_at prompt prompts.now) }
    ensures sound { AreSound prompts.now }
{
    match prompts.row(prompt) {
        Some(row) => row.kind.first_left(),
        None => None,
    }
}

// Whether a stem is the other one.
fn is_same(stem: &Stem, other: &Stem) -> bool
    ensures { result ≡ is_name stem.now other.now }
{
    match stem.cmp(other) {
        Ordering::Equal => true,
        _ => false,
    }
}

// Whether there is a collection of the other stem, if that of a stem were gone.
fn has_without<F: Folder>(disk: &Disk<F>, stem: &Stem, other: &Stem) -> bool
    ensures { result ≡ has other.now (without stem.now (contents_in disk.now).collections) }
{
    if is_same(stem, other) {
        return false;
    }
    disk.collections.has(other)
}

// Whether it is unlocked.
fn is_open_without<F: Folder>(disk: &Disk<F>, stem: &Stem, other: &Stem) -> bool
    ensures { result ≡ is_open other.now (without stem.now (contents_in disk.now).collections) }
{
    if is_same(stem, other) {
        return false;
    }
    disk.collections.is_open(other)
}

// Whether there is a collection of the stem; that of the stem `gone`, if one is given, counts as gone.
fn has_left<F: Folder>(disk: &Disk<F>, gone: &Option<Stem>, stem: &Stem) -> bool
    ensures { result ≡ has stem.now
        (contents_left gone.now (contents_in disk.now)).collections }
{
    match gone {
        Some(gone) => has_without(disk, gone, stem),
        None => disk.collections.has(stem),
    }
}

// Whether it is unlocked.
fn is_open_left<F: Folder>(disk: &Disk<F>, gone: &Option<Stem>, stem: &Stem) -> bool
    ensures { result ≡ is_open stem.now
        (contents_left gone.now (contents_in disk.now)).collections }
{
    match gone {
        Some(gone) => is_open_without(disk, gone, stem),
        None => disk.collections.is_open(stem),
    }
}

// Passes over the first targets that are left: each whose collection is gone is dropped, and each whose collection
// is unlocked is done. The collection of the stem `gone`, if one is given, counts as gone. It takes no memory.
fn pass_over<F: Folder>(disk: &Disk<F>, gone: &Option<Stem>, targets: &mut Targets)
    ensures { targets.new ≡ passed
        (asked_collections (contents_left gone.now (contents_in disk.now)))
        targets.old.done targets.old.left }
{
    while let Some(target) = targets.first() {
        let there = has_left(disk, gone, &target.stem);
        let open = is_open_left(disk, gone, &target.stem);
        if there && !open {
            return;
        }
        if there {
            targets.finish_first();
        } else {
            targets.drop_first();
        }
    }
}

/// The same for what a prompt is for.
pub fn pass_kind<F: Folder>(disk: &Disk<F>, gone: &Option<Stem>, kind: &mut PromptKind)
    ensures { kind.new ≡ passed_kind
        (asked_collections (contents_left gone.now (contents_in disk.now)))
        kind.old }
{
    match kind {
        PromptKind::Unlock(targets) => pass_over(disk, gone, targets),
        PromptKind::Create { .. } => {}
        PromptKind::Change { .. } => {}
    }
}

/// Whether there are no targets.
pub fn are_none(targets: &[Target]) -> bool
    ensures { result ≡ are_none targets.now }
{
    match targets.first() {
        Some(_) => false,
        None => true,
    }
}

// Whether there is nothing more to ask for; the collection of the stem `gone`, if one is given, counts as gone.
fn is_over<F: Folder>(disk: &Disk<F>, gone: &Option<Stem>, kind: &PromptKind) -> bool
    ensures { result ≡ is_over
        (asked_collections (contents_left gone.now (contents_in disk.now)))
        kind.now }
{
    match kind {
        PromptKind::Unlock(targets) => are_none(targets.left()),
        PromptKind::Create { .. } => false,
        PromptKind::Change { stem, .. } => !is_open_left(disk, gone, stem),
    }
}

// Whether a prompt of this kind is dismissed once there is nothing more to ask for.
fn is_given_up(kind: &PromptKind) -> bool
    ensures { result ≡ is_given_up kind.now }
{
    match kind {
        PromptKind::Unlock(_) => false,
        PromptKind::Create { .. } => false,
        PromptKind::Change { .. } => true,
    }
}

impl<F: Folder> Tables<F> {
    /// Performs the row of Prompt. All memory is taken before the prompt changes.
    pub fn call_prompt(&mut self, conn: ConnId, prompt: PromptId) -> Result<Done, OutOfMemory>
        requires { HasRoom 1 conn self.old.connections.rooms }
        ensures leads { IfOk result (λ done. (brought : Brought)
            → Leads F.is_honest F.is_steady F.faults F.images
            F.may_leave F.made F.Cell.is_honest F.Cell.is_steady
            F.Cell.faults F.Cell.moment
            F.Cell.left_since F.Cell.may_leave conn brought
            (call_prompt prompt (asked conn brought (rows_of self.old)))
            (rows_of self.old) (rows_of self.new) (disk_of self.old) (disk_of self.new) done) }
        ensures room { IfOk result (λ done.
            HasRoomToReply conn done.sends self.new.connections.rooms) }
        ensures unchanged { OnErr result ((rows_of self.new ≡ rows_of self.old)
            × (disk_of self.new ≡ disk_of self.old)) }
    {
        if !self.prompts.owned_by(prompt, conn) {
            return Ok(refused(self.alloc, ErrorName::NoSuchObject));
        }
        if !self.is_made(prompt) {
            return Ok(unstored(self.alloc, Ok(Body::Empty)));
        }
        self.go_on(conn, prompt)
    }

    /// Performs the row of Dismiss. All memory is taken before the prompt ends.
    pub fn dismiss(&mut self, conn: ConnId, prompt: PromptId) -> Result<Done, OutOfMemory>
        requires { HasRoom 1 conn self.old.connections.rooms }
        ensures leads { IfOk result (λ done. (brought : Brought)
            → Leads F.is_honest F.is_steady F.faults F.images
            F.may_leave F.made F.Cell.is_honest F.Cell.is_steady
            F.Cell.faults F.Cell.moment
            F.Cell.left_since F.Cell.may_leave conn brought
            (dismiss prompt (asked conn brought (rows_of self.old)))
            (rows_of self.old) (rows_of self.new) (disk_of self.old) (disk_of self.new) done) }
        ensures room { IfOk result (λ done.
            HasRoomToReply conn done.sends self.new.connections.rooms) }
        ensures unchanged { OnErr result ((rows_of self.new ≡ rows_of self.old)
            × (disk_of self.new ≡ disk_of self.old)) }
    {
        if !self.prompts.owned_by(prompt, conn) {
            return Ok(refused(self.alloc, ErrorName::NoSuchObject));
        }
        self.end_dismissed(conn, prompt)
    }

    /// Ends a prompt that is there, dismissed. All memory is taken before it ends.
    pub fn end_dismissed(&mut self, conn: ConnId, prompt: PromptId) -> Result<Done, OutOfMemory>
        requires there { is_some (row_at prompt (rows_of self.old).prompts) ≡ true }
        ensures leads { IfOk result (λ done. (brought : Brought)
            → Leads F.is_honest F.is_steady F.faults F.images
            F.may_leave F.made F.Cell.is_honest F.Cell.is_steady
            F.Cell.faults F.Cell.moment
            F.Cell.left_since F.Cell.may_leave conn brought
            (answered public.Empty (End_prompt prompt true None ∷ []))
            (rows_of self.old) (rows_of self.new) (disk_of self.old) (disk_of self.new) done) }
        ensures room { IfOk result (λ done.
            HasRoomToReply conn done.sends self.new.connections.rooms) }
        ensures unchanged { OnErr result ((rows_of self.new ≡ rows_of self.old)
            × (disk_of self.new ≡ disk_of self.old)) }
    {
        let sends = completed_sent(self.alloc, &self.prompts, prompt, true, &None)?;
        self.connections.reserve_for(conn, &sends)?;
        let _ended = self.prompts.end(prompt);
        Ok(sending(Ok(Body::Empty), sends))
    }

    /// Begins a prompt of this kind, which is returned with the body. `fits` is whether what it would complete
    /// with is short enough.
    pub fn begin(
        &mut self,
        conn: ConnId,
        fits: bool,
        body: Body,
        kind: PromptKind,
    ) -> Result<Done, OutOfMemory>
        requires { HasRoom 1 conn self.old.connections.rooms }
        ensures leads { IfOk result (λ done. (brought : Brought)
            (returned : Option PromptId → PublicBody)
            → body ≡ body_with (returned
            (Some (next_prompt (asked conn brought (rows_of self.old)))))
            → Leads F.is_honest F.is_steady F.faults F.images
            F.may_leave F.made F.Cell.is_honest F.Cell.is_steady
            F.Cell.faults F.Cell.moment
            F.Cell.left_since F.Cell.may_leave conn brought
            (with_new_prompt fits returned kind (asked conn brought (rows_of self.old)))
            (rows_of self.old) (rows_of self.new) (disk_of self.old) (disk_of self.new) done) }
        ensures room { IfOk result (λ done.
            HasRoomToReply conn done.sends self.new.connections.rooms) }
        ensures unchanged { OnErr result ((rows_of self.new ≡ rows_of self.old)
            × (disk_of self.new ≡ disk_of self.old)) }
    {
        if !fits {
            return Ok(refused(self.alloc, ErrorName::LimitsExceeded));
        }
        self.perform_if_small(conn, body, Effect::Begin(kind))
    }

    // Whether there is such a prompt, on which Prompt hasn't been called yet.
    fn is_made(&self, prompt: PromptId) -> bool
        ensures made { result ≡ is_made_row (row_at prompt (rows_of self.now).prompts) }
        ensures there { result ≡ true
            → is_some (row_at prompt (rows_of self.now).prompts) ≡ true }
        ensures round { result ≡ true
            → next_round (row_at prompt (rows_of self.now).prompts) ≡ 1 }
    {
        match self.prompts.row(prompt) {
            Some(row) => row.stage.is_made(),
            None => false,
        }
    }

    /// A prompt that is there advances, and has a next round. All memory is taken before it changes.
    pub fn go_on(&mut self, conn: ConnId, prompt: PromptId) -> Result<Done, OutOfMemory>
        requires there { is_some (row_at prompt (rows_of self.old).prompts) ≡ true }
        requires round { next_round (row_at prompt (rows_of self.old).prompts) ≤ last_round }
        ensures leads { IfOk result (λ done. (brought : Brought)
            → Leads F.is_honest F.is_steady F.faults F.images
            F.may_leave F.made F.Cell.is_honest F.Cell.is_steady
            F.Cell.faults F.Cell.moment
            F.Cell.left_since F.Cell.may_leave conn brought (going_on prompt)
            (rows_of self.old) (rows_of self.new) (disk_of self.old) (disk_of self.new) done) }
        ensures room { IfOk result (λ done.
            HasRoomToReply conn done.sends self.new.connections.rooms) }
        ensures unchanged { OnErr result ((rows_of self.new ≡ rows_of self.old)
            × (disk_of self.new ≡ disk_of self.old)) }
    {
        let sends = self.go_on_sends(conn, prompt)?;
        self.connections.reserve_for(conn, &sends)?;
        self.go_on_now(conn, prompt);
        Ok(sending(Ok(Body::Empty), sends))
    }

    // What is sent when a prompt that is there, and has a next round, advances.
    fn go_on_sends(&self, conn: ConnId, prompt: PromptId) -> Result<Vec<Delivery>, OutOfMemory>
        requires there { is_some (row_at prompt (rows_of self.now).prompts) ≡ true }
        requires round { next_round (row_at prompt (rows_of self.now).prompts) ≤ last_round }
        ensures { IfOk result (λ sends. (rows : List ConnRow) → sends.items
            ≡ spread rows (sent_by conn (Go_on prompt) (rows_of self.now))) }
    {
        let _ = conn;
        let Some(row) = self.prompts.row(prompt) else {
            unreachable!();
        };
        let mut kind = row.kind.copy()?;
        let gone: Option<Stem> = None;
        pass_kind(&self.disk, &gone, &mut kind);
        self.advance_sent(row, row.wrong, &gone, &kind)
    }

    /// What is sent when a prompt that has a next round advances, once its first targets are passed over, with so
    /// many wrong answers. The collection of the stem `gone`, if one is given, counts as gone.
    pub fn advance_sent(
        &self,
        row: &PromptRow,
        wrong: u32,
        gone: &Option<Stem>,
        kind: &PromptKind,
    ) -> Result<Vec<Delivery>, OutOfMemory>
        requires { round_of row.now.stage + 1 ≤ last_round }
        ensures { IfOk result (λ sends. (rows : List ConnRow) → sends.items
            ≡ spread rows (advance_sent (asked_collections (contents_left gone.now
            (contents_of (rows_of self.now))))
            (rows_of self.now).collections
            (record row.now { wrong = wrong }) kind.now
            (rows_of self.now).prompts.agent)) }
    {
        let mut sends = Vec::with_capacity(self.alloc, 1)?;
        if is_over(&self.disk, gone, kind) {
            let none: Option<Stem> = None;
            let dismissed = is_given_up(kind);
            let sent = completed_signal(self.alloc, row.prompt, row.owner, kind, dismissed, &none)?;
            sends.push(sent)?;
            return Ok(sends);
        }
        let Some(agent) = self.prompts.agent() else {
            return Ok(sends);
        };
        let ask = Ask {
            agent,
            prompt: row.prompt,
            round: row.stage.round() + 1,
            wrong,
        };
        let sent = ask_signal(self.alloc, &self.disk, kind, ask)?;
        sends.push(sent)?;
        Ok(sends)
    }

    /// A prompt that is there, and has a next round, advances. It takes no memory.
    pub fn go_on_now(&mut self, conn: ConnId, prompt: PromptId)
        requires there { is_some (row_at prompt (rows_of self.old).prompts) ≡ true }
        requires round { next_round (row_at prompt (rows_of self.old).prompts) ≤ last_round }
        ensures rows { rows_of self.new ≡ performed conn (Go_on prompt) (rows_of self.old) }
        ensures room { self.new.connections ≡ self.old.connections }
        ensures disk { disk_of self.new ≡ disk_of self.old }
    {
        let _ = conn;
        self.pass_targets(prompt);
        if self.has_ended(prompt) {
            let _ended = self.prompts.end(prompt);
        } else {
            let _round = self.prompts.again(prompt);
        }
    }

    // Passes over the first targets of a prompt that are left. It takes no memory.
    fn pass_targets(&mut self, prompt: PromptId)
        requires there { is_some (row_at prompt (rows_of self.old).prompts) ≡ true }
        ensures there { is_some (row_at prompt (rows_of self.new).prompts) ≡ true }
        ensures round { next_round (row_at prompt (rows_of self.new).prompts)
            ≡ next_round (row_at prompt (rows_of self.old).prompts) }
        ensures passed { rows_of self.new ≡ record (rows_of self.old) {
          prompts = passed_over prompt (asked_collections (contents_of (rows_of self.old)))
              (rows_of self.old).prompts;
        } }
        ensures left { IfSome (first_of_row (row_at prompt (rows_of self.new).prompts)) (λ target.
            IsTrue (has target.stem (rows_of self.new).collections)
            × (is_open target.stem (rows_of self.new).collections ≡ false)) }
        ensures room { self.new.connections ≡ self.old.connections }
        ensures disk { disk_of self.new ≡ disk_of self.old }
    {
        while let Some(target) = first_open(&self.prompts, prompt) {
            let there = self.disk.collections.has(&target.stem);
            let open = self.disk.collections.is_open(&target.stem);
            if !there {
                self.prompts.drop_target(prompt);
            } else if open {
                self.prompts.done(prompt);
            } else {
                return;
            }
        }
    }

    // Whether there is such a prompt, and nothing more to ask for.
    fn has_ended(&self, prompt: PromptId) -> bool
        ensures { result ≡ is_over_row (asked_collections (contents_of (rows_of self.now)))
            (row_at prompt (rows_of self.now).prompts) }
    {
        match self.prompts.row(prompt) {
            Some(row) => is_over(&self.disk, &None, &row.kind),
            None => false,
        }
    }
}
