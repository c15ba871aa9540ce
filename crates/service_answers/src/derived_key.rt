// What becomes of a prompt once the key that its answer asked for was derived (docs/SERVICE.md, "Prompts").
ghost use Rattle.std.specs.Prelude.{◌↔◌, length, Contains, Ok, ◌≡◌, ◌⊎◌, ◌+◌, ◌++◌, ◌^◌, ◌∷◌, ◌<◌, ◌≤◌, ℕ, nat_le, List, Option, [], None, Some, true, false, IsTrue, IfOk, IfNone, IfSome, OnErr, OnOk};
ghost use Rattle.std.specs.Option.{is_some};
ghost use Rattle.kr_base.specs.declared.ids.ConnId.{ConnId};
ghost use Rattle.kr_names.specs.Path.{IsAliasName};
ghost use Rattle.service_calls.specs.folder_store.specs.Limits.{the_limits};
ghost use Rattle.service_calls.specs.service_tables.specs.TablesReading.{asked_collections};
ghost use Rattle.service_calls.specs.collection_table.specs.Entries.{changed, inserted};
ghost use Rattle.service_calls.specs.collection_table.specs.Rows.{CollectionRow, has as has_collection, locked};
ghost use Rattle.prompt_state.specs.Prompts.{derives_in, last_round, next_round, row_at};
ghost use Rattle.service_calls.specs.service_disk.specs.Making.{AreFree, has_room};
ghost use Rattle.stem_choice.specs.Choice.{chosen};
ghost use Rattle.service_calls.specs.service_prompts.specs.Announcing.{announced, lock_signals, made_signals, make_signals};
ghost use Rattle.service_calls.specs.service_prompts.specs.Prompting.{completed_sent};
ghost use Rattle.service_calls.specs.service_tables.specs.declared.fate.StoreFate.{StoreFate};
ghost use Rattle.service_calls.specs.service_tables.specs.signal_fanout.specs.declared.rows.Delivery.{Delivery};
ghost use Rattle.service_calls.specs.secret_calls.specs.declared.out.Body.TheVariants as body;
ghost use Rattle.service_calls.specs.service_tables.specs.declared.fate.StoreFate.TheVariants as StoreFate;
ghost use Rattle.service_calls.specs.service_disk.specs.Opening.{opening_of, rows_opened};
ghost use Rattle.service_calls.specs.service_disk.specs.declared.opening.Opening.TheVariants as Opening;
ghost use Rattle.service_calls.specs.service_events.specs.AliasCalls.{alias_settled};
ghost use Rattle.service_calls.specs.service_events.specs.Derivation.{alias_given, can_make, collection_made, making_ended, new_iterations, derived, most_wrong_answers, opening_ended, quietly, wrong_again};
ghost use Rattle.service_calls.specs.service_events.specs.Fates.{is_steady};
ghost use Rattle.service_calls.specs.service_events.specs.Plan.{Asks, Ask_prompt, Clear_wrong, Go_on, Make};
ghost use Rattle.service_calls.specs.service_events.specs.PromptCalls.{asks_for};
ghost use Rattle.service_calls.specs.Rows.{disk_of, rows_of};
ghost use Rattle.service_calls.specs.service_events.specs.Run.{asked, sent_all};
ghost use Rattle.service_answers.specs.Purposes.{IsPurposeOf, SetsAlias};
ghost use Rattle.service_answers.specs.declared.derived_key.Purpose.TheVariants as Purpose;
ghost use Rattle.service_calls.specs.service_events.specs.Stored.{KeepsSlotOrAll};
ghost use Rattle.service_calls.specs.Done.{HasRoomToReply, Leads};
ghost use Rattle.service_answers.specs.Settled.{Settles, ended_sent, ends_by};
ghost use Rattle.service_calls.specs.service_tables.specs.Aliases.{IsPreparedFor};
ghost use Rattle.service_calls.specs.service_tables.specs.Connections.{HasRoomFor, spread};
ghost use Rattle.service_calls.specs.service_tables.specs.Opened.{contents_of};
ghost use Rattle.service_calls.specs.service_tables.specs.Sound.{IsSound};
ghost use Rattle.service_calls.specs.service_tables.specs.Storing.{Brought};
ghost use Rattle.service_calls.specs.service_tables.specs.signal_fanout.specs.declared.rows.ConnRow.{ConnRow};

use crate::answering::NEW_ITERATIONS;
use crate::changing::change_password;
use key_derivation::Derived;
use kr_base::{ConnId, OutOfMemory, PromptId, Stem, Text};
use kr_outside::Folder;
use prompt_state::{Ask, PromptKind};
use service_calls::alias_table::AliasChange;
use service_calls::folder_store::LIMITS;
use service_calls::secret_calls::Body;
use service_calls::service_disk::{Opening, has_room, make, unlock};
use service_calls::service_prompts::{ask_signal, completed_sent, lock_signals, made_signals};
use service_calls::service_tables::{Delivery, StoreFate};
use service_calls::{Done, Tables, pass_kind, sending, unstored};
use std::alloc::Global;
use stem_choice::chosen_stem;

/// At so many wrong answers, one after the other, a prompt ends.
const MOST_WRONG_ANSWERS: u32 = 3;

/// What a derived key led to: how storing a collection under it ended, if that was asked for, and what is sent, with
/// how the resolve and the storing of the aliases that came after it ended. The answer in it is sent to no one.
#[derive(Drop)]
pub struct Settled {
    /// How making a collection, or changing its password, ended.
    pub made: Option<StoreFate>,
    /// What came after it.
    pub done: Done,
}

/// What is needed to make a collection that a prompt creates, and for what is sent after that.
#[derive(Drop)]
pub struct Prepared {
    /// The stem of the collection.
    pub stem: Stem,
    /// What is sent, by how making it ends.
    pub ends: Ends,
    /// The change that sets its alias, if it gets one.
    pub change: Option<AliasChange>,
}

/// What is sent once a collection was to be stored under a derived key, by how that ended.
#[derive(Drop)]
pub struct Ends {
    /// If it was stored: that it was made, if it is new, and then that its prompt completed.
    pub stored: Vec<Delivery>,
    /// If nothing was stored: that its prompt was dismissed.
    pub before: Vec<Delivery>,
    /// If that isn't known: that it was made, or is locked, and then that its prompt was dismissed.
    pub unsure: Vec<Delivery>,
}

impl Ends {
    /// What is sent once the storing ended so.
    pub fn by(self, fate: StoreFate) -> Vec<Delivery>
        ensures { result.items
            ≡ ends_by self.stored.items self.before.items self.unsure.items fate }
    {
        match fate {
            StoreFate::Stored => self.stored,
            StoreFate::Before => self.before,
            StoreFate::Unsure => self.unsure,
        }
    }
}

/// What a prompt is for, as far as a derived key needs it.
#[derive(Drop)]
pub enum Purpose {
    /// It unlocks the collection of this stem, if one of its targets is left.
    Unlock(Option<Stem>),
    /// It creates a collection.
    Create {
        /// The label.
        label: Text,
        /// The alias, or the empty text.
        alias: Text,
        /// The salt.
        salt: [u8; 8],
    },
    /// It changes the password of a collection.
    Change {
        /// The stem of the collection.
        stem: Stem,
        /// The salt.
        salt: [u8; 8],
    },
}

/// What asked for no such storing.
pub fn unmade(done: Done) -> Settled
    ensures { result ≡ record { made = None; done = done } }
{
    Settled { made: None, done }
}

// What becomes of a key that comes too late.
fn nothing_done(alloc: Global) -> Settled
    ensures { result ≡ record {
      made = None;
      done = record { answer = Ok body.Empty; sends = []; read = None; fate = None };
    } }
{
    unmade(unstored(alloc, Ok(Body::Empty)))
}

// Whether one more wrong answer than these is one too many.
fn is_last_wrong(wrong: u32) -> bool
    ensures last { result ≡ nat_le most_wrong_answers (wrong + 1) }
    ensures few { result ≡ false → wrong + 1 < 2 ^ 32 }
{
    wrong >= MOST_WRONG_ANSWERS - 1
}

/// Whether a key has the terms of a new password's whose prompt keeps this salt.
pub fn are_terms(salt: &[u8; 8], key: &Derived) -> bool
    ensures terms { IsTrue result
        ↔ (key.now.salt ≡ salt.now) × (key.now.iterations ≡ new_iterations) }
    ensures eight { length key.now.salt ≡ 8 }
{
    key.salt() == *salt && key.iterations() == NEW_ITERATIONS
}

/// Performs what a derived key leads to: its prompt continues if it still waits for the key, and otherwise nothing happens.
/// Room is made for what is sent. All memory is taken before the first call of a device.
///
/// Refused with `OutOfMemory` alone; if the prompt creates a collection, a slot that was made for it by then is kept for
/// the next one under its stem.
pub fn settle<F: Folder>(
    tables: &mut Tables<F>,
    conn: ConnId,
    prompt: PromptId,
    round: u64,
    key: Derived,
    now: u64,
) -> Result<Settled, OutOfMemory>
    requires sound { IsSound (rows_of tables.old) }
    requires free { AreFree F.is_honest F.images F.may_leave F.made F.Cell.is_honest
        F.Cell.may_leave (disk_of tables.old) }
    ensures settles { IfOk result (Settles F.is_honest F.is_steady F.faults F.images
        F.may_leave F.made F.Cell.is_honest F.Cell.is_steady
        F.Cell.faults F.Cell.moment F.Cell.left_since F.Cell.may_leave conn
        (record { now = now; value = key.password })
        (derived prompt round (record { salt = key.salt; iterations = key.iterations })
        (asked conn (record { now = now; value = key.password }) (rows_of tables.old)))
        (rows_of tables.old) (rows_of tables.new) (disk_of tables.old) (disk_of tables.new)) }
    ensures room { IfOk result (λ settled.
        HasRoomFor settled.done.sends tables.new.connections.rooms) }
    ensures free { AreFree F.is_honest F.images F.may_leave F.made F.Cell.is_honest
        F.Cell.may_leave (disk_of tables.new) }
    ensures unchanged { OnErr result (rows_of tables.new ≡ rows_of tables.old) }
    ensures kept { OnErr result (KeepsSlotOrAll F.is_honest F.is_steady F.faults F.images
        F.may_leave F.made F.Cell.is_honest F.Cell.is_steady F.Cell.faults F.Cell.left_since
        (derived prompt round (record { salt = key.salt; iterations = key.iterations })
        (asked conn (record { now = now; value = key.password }) (rows_of tables.old)))
        (disk_of tables.old) (disk_of tables.new)) }
{
    if !tables.prompts.derived(prompt, round) {
        return Ok(nothing_done(tables.alloc));
    }
    match purpose_of(tables, prompt)? {
        Purpose::Unlock(stem) => Ok(unmade(unlock_target(tables, conn, prompt, round, stem, key)?)),
        Purpose::Create { label, alias, salt } => {
            create(tables, conn, prompt, label, alias, salt, key, now)
        }
        Purpose::Change { stem, salt } => {
            change_password(tables, conn, prompt, &stem, &salt, key, now)
        }
    }
}

// What an existing prompt is for.
fn purpose_of<F: Folder>(tables: &Tables<F>, prompt: PromptId) -> Result<Purpose, OutOfMemory>
    requires { is_some (row_at prompt (rows_of tables.now).prompts) ≡ true }
    ensures { IfOk result (λ purpose.
        IsPurposeOf purpose (row_at prompt (rows_of tables.now).prompts)) }
{
    let Some(row) = tables.prompts.row(prompt) else {
        unreachable!();
    };
    match &row.kind {
        PromptKind::Unlock(targets) => match targets.first() {
            Some(target) => Ok(Purpose::Unlock(Some(target.stem.copy()?))),
            None => Ok(Purpose::Unlock(None)),
        },
        PromptKind::Create { label, alias, salt } => Ok(Purpose::Create {
            label: label.copy()?,
            alias: alias.copy()?,
            salt: *salt,
        }),
        PromptKind::Change { stem, salt } => Ok(Purpose::Change {
            stem: stem.copy()?,
            salt: *salt,
        }),
    }
}

// ---- a prompt that unlocks

// Tries a key on the collection of a prompt's first target that is left; if none is left, the prompt advances.
fn unlock_target<F: Folder>(
    tables: &mut Tables<F>,
    conn: ConnId,
    prompt: PromptId,
    round: u64,
    stem: Option<Stem>,
    key: Derived,
) -> Result<Done, OutOfMemory>
    requires there { is_some (row_at prompt (rows_of tables.old).prompts) ≡ true }
    requires round { next_round (row_at prompt (rows_of tables.old).prompts) ≤ last_round }
    requires derives { derives_in round (row_at prompt (rows_of tables.old).prompts) ≡ true }
    requires purpose { IsPurposeOf (Purpose.Unlock stem)
        (row_at prompt (rows_of tables.old).prompts) }
    ensures leads { IfOk result (λ done. (now : ℕ)
        → Leads F.is_honest F.is_steady F.faults F.images
        F.may_leave F.made F.Cell.is_honest F.Cell.is_steady
        F.Cell.faults F.Cell.moment F.Cell.left_since F.Cell.may_leave conn
        (record { now = now; value = key.password })
        (derived prompt round (record { salt = key.salt; iterations = key.iterations })
        (asked conn (record { now = now; value = key.password }) (rows_of tables.old)))
        (rows_of tables.old) (rows_of tables.new) (disk_of tables.old) (disk_of tables.new) done) }
    ensures room { IfOk result (λ done.
        HasRoomToReply conn done.sends tables.new.connections.rooms) }
    ensures disk { disk_of tables.new ≡ disk_of tables.old }
    ensures unchanged { OnErr result ((rows_of tables.new ≡ rows_of tables.old)
        × (disk_of tables.new ≡ disk_of tables.old)) }
{
    match stem {
        Some(stem) => try_key(tables, conn, prompt, &stem, key),
        None => tables.go_on(conn, prompt),
    }
}

// Tries a key on the collection of a stem, for which the prompt is asked, and which has a next round.
fn try_key<F: Folder>(
    tables: &mut Tables<F>,
    conn: ConnId,
    prompt: PromptId,
    stem: &Stem,
    key: Derived,
) -> Result<Done, OutOfMemory>
    requires there { is_some (row_at prompt (rows_of tables.old).prompts) ≡ true }
    requires round { next_round (row_at prompt (rows_of tables.old).prompts) ≤ last_round }
    ensures leads { IfOk result (λ done. (now : ℕ) → IfSome
        (row_at prompt (rows_of tables.old).prompts) (λ row.
        Leads F.is_honest F.is_steady F.faults F.images
        F.may_leave F.made F.Cell.is_honest F.Cell.is_steady
        F.Cell.faults F.Cell.moment F.Cell.left_since F.Cell.may_leave conn
        (record { now = now; value = key.password })
        (opening_ended prompt row.wrong stem.now
        (record { salt = key.salt; iterations = key.iterations })
        (opening_of key stem.now (rows_of tables.old).collections))
        (rows_of tables.old) (rows_of tables.new) (disk_of tables.old) (disk_of tables.new) done)) }
    ensures room { IfOk result (λ done.
        HasRoomToReply conn done.sends tables.new.connections.rooms) }
    ensures disk { disk_of tables.new ≡ disk_of tables.old }
    ensures unchanged { OnErr result ((rows_of tables.new ≡ rows_of tables.old)
        × (disk_of tables.new ≡ disk_of tables.old)) }
{
    match open_with(tables, stem, key)? {
        Opening::Settled => tables.go_on(conn, prompt),
        Opening::Unfit => ask_again(tables, conn, prompt),
        Opening::WrongPassword => count_wrong(tables, conn, prompt),
        Opening::Damaged => tables.end_dismissed(conn, prompt),
        Opening::Opened => match go_on_opened(tables, conn, prompt, stem) {
            Ok(done) => Ok(done),
            Err(refused) => {
                // It was locked before, and nothing else has changed.
                tables.disk.collections.lock(stem);
                Err(refused)
            }
        },
    }
}

// Unlocks the collection of a stem, if the key opens its file, and returns how that ended. It was locked then.
fn open_with<F: Folder>(
    tables: &mut Tables<F>,
    stem: &Stem,
    key: Derived,
) -> Result<Opening, OutOfMemory>
    ensures opening { IfOk result (λ opening.
        opening ≡ opening_of key stem.now (rows_of tables.old).collections) }
    ensures opened { OnOk result (rows_of tables.new ≡ record (rows_of tables.old) {
      collections = rows_opened key stem.now (rows_of tables.old).collections;
    }) }
    ensures shut { IfOk result (λ opening. ¬ (opening ≡ Opening.Opened)
        → rows_of tables.new ≡ rows_of tables.old) }
    ensures locked { IfOk result (λ opening. opening ≡ Opening.Opened
        → changed stem.now locked (rows_of tables.new).collections
        ≡ (rows_of tables.old).collections) }
    ensures prompts { tables.new.prompts ≡ tables.old.prompts }
    ensures room { tables.new.connections ≡ tables.old.connections }
    ensures disk { disk_of tables.new ≡ disk_of tables.old }
    ensures unchanged { OnErr result (rows_of tables.new ≡ rows_of tables.old) }
{
    let _ordered = tables.disk.collections.entries();
    unlock(&mut tables.disk, stem, key)
}

// The prompt advances with no wrong answers, after the collection of a stem was unlocked, which is sent to everyone
// first. All memory is taken before it changes.
fn go_on_opened<F: Folder>(
    tables: &mut Tables<F>,
    conn: ConnId,
    prompt: PromptId,
    stem: &Stem,
) -> Result<Done, OutOfMemory>
    requires there { is_some (row_at prompt (rows_of tables.old).prompts) ≡ true }
    requires round { next_round (row_at prompt (rows_of tables.old).prompts) ≤ last_round }
    ensures leads { IfOk result (λ done. (brought : Brought) (rest : List Delivery)
        → rest ≡ spread (rows_of tables.old).connections.rows
        (sent_all conn (Clear_wrong prompt ∷ Go_on prompt ∷ []) (rows_of tables.old))
        → Leads F.is_honest F.is_steady F.faults F.images
        F.may_leave F.made F.Cell.is_honest F.Cell.is_steady
        F.Cell.faults F.Cell.moment F.Cell.left_since F.Cell.may_leave conn brought
        (quietly (Clear_wrong prompt ∷ Go_on prompt ∷ []))
        (rows_of tables.old) (rows_of tables.new) (disk_of tables.old) (disk_of tables.new)
        (record done { sends = rest })) }
    ensures sends { IfOk result (λ done. done.sends
        ≡ spread (rows_of tables.old).connections.rows (announced (lock_signals stem.now false))
        ++ spread (rows_of tables.old).connections.rows
        (sent_all conn (Clear_wrong prompt ∷ Go_on prompt ∷ []) (rows_of tables.old))) }
    ensures room { IfOk result (λ done.
        HasRoomToReply conn done.sends tables.new.connections.rooms) }
    ensures disk { disk_of tables.new ≡ disk_of tables.old }
    ensures unchanged { OnErr result ((rows_of tables.new ≡ rows_of tables.old)
        × (disk_of tables.new ≡ disk_of tables.old)) }
{
    let signals = lock_signals(tables.alloc, stem, false)?;
    let mut sends = tables.announced(signals)?;
    let mut advance = cleared_sends(tables, conn, prompt)?;
    sends.append(&mut advance)?;
    tables.connections.reserve_for(conn, &sends)?;
    tables.prompts.clear_wrong(prompt);
    tables.go_on_now(conn, prompt);
    Ok(sending(Ok(Body::Empty), sends))
}

// What is sent when a prompt advances with no wrong answers.
fn cleared_sends<F: Folder>(
    tables: &Tables<F>,
    conn: ConnId,
    prompt: PromptId,
) -> Result<Vec<Delivery>, OutOfMemory>
    requires there { is_some (row_at prompt (rows_of tables.now).prompts) ≡ true }
    requires round { next_round (row_at prompt (rows_of tables.now).prompts) ≤ last_round }
    ensures { IfOk result (λ sends. (rows : List ConnRow) → sends.items
        ≡ spread rows (sent_all conn (Clear_wrong prompt ∷ Go_on prompt ∷ [])
        (rows_of tables.now))) }
{
    let _ = conn;
    let Some(row) = tables.prompts.row(prompt) else {
        unreachable!();
    };
    let mut kind = row.kind.copy()?;
    let gone: Option<Stem> = None;
    pass_kind(&tables.disk, &gone, &mut kind);
    tables.advance_sent(row, 0, &gone, &kind)
}

// The prompt is asked again, for the same target. All memory is taken before it changes.
fn ask_again<F: Folder>(
    tables: &mut Tables<F>,
    conn: ConnId,
    prompt: PromptId,
) -> Result<Done, OutOfMemory>
    requires there { is_some (row_at prompt (rows_of tables.old).prompts) ≡ true }
    requires round { next_round (row_at prompt (rows_of tables.old).prompts) ≤ last_round }
    ensures leads { IfOk result (λ done. (brought : Brought)
        → Leads F.is_honest F.is_steady F.faults F.images
        F.may_leave F.made F.Cell.is_honest F.Cell.is_steady
        F.Cell.faults F.Cell.moment F.Cell.left_since F.Cell.may_leave conn brought
        (quietly (Ask_prompt prompt ∷ []))
        (rows_of tables.old) (rows_of tables.new) (disk_of tables.old) (disk_of tables.new) done) }
    ensures room { IfOk result (λ done.
        HasRoomToReply conn done.sends tables.new.connections.rooms) }
    ensures unchanged { OnErr result ((rows_of tables.new ≡ rows_of tables.old)
        × (disk_of tables.new ≡ disk_of tables.old)) }
{
    let wrong = wrong_of(tables, prompt);
    let sends = ask_sends(tables, prompt, wrong)?;
    tables.connections.reserve_for(conn, &sends)?;
    let _round = tables.prompts.again(prompt);
    Ok(sending(Ok(Body::Empty), sends))
}

// One more wrong answer: the prompt is asked again, or ends dismissed if these are too many. All memory is taken
// before it changes.
fn count_wrong<F: Folder>(
    tables: &mut Tables<F>,
    conn: ConnId,
    prompt: PromptId,
) -> Result<Done, OutOfMemory>
    requires there { is_some (row_at prompt (rows_of tables.old).prompts) ≡ true }
    requires round { next_round (row_at prompt (rows_of tables.old).prompts) ≤ last_round }
    ensures leads { IfOk result (λ done. (brought : Brought) → IfSome
        (row_at prompt (rows_of tables.old).prompts) (λ row.
        Leads F.is_honest F.is_steady F.faults F.images
        F.may_leave F.made F.Cell.is_honest F.Cell.is_steady
        F.Cell.faults F.Cell.moment F.Cell.left_since F.Cell.may_leave conn brought
        (wrong_again prompt row.wrong)
        (rows_of tables.old) (rows_of tables.new) (disk_of tables.old) (disk_of tables.new) done)) }
    ensures room { IfOk result (λ done.
        HasRoomToReply conn done.sends tables.new.connections.rooms) }
    ensures disk { disk_of tables.new ≡ disk_of tables.old }
    ensures unchanged { OnErr result ((rows_of tables.new ≡ rows_of tables.old)
        × (disk_of tables.new ≡ disk_of tables.old)) }
{
    let wrong = wrong_of(tables, prompt);
    if is_last_wrong(wrong) {
        return tables.end_dismissed(conn, prompt);
    }
    let sends = ask_sends(tables, prompt, wrong + 1)?;
    tables.connections.reserve_for(conn, &sends)?;
    let _wrong = tables.prompts.wrong(prompt);
    let _round = tables.prompts.again(prompt);
    Ok(sending(Ok(Body::Empty), sends))
}

// How many wrong answers an existing prompt has.
fn wrong_of<F: Folder>(tables: &Tables<F>, prompt: PromptId) -> u32
    ensures { IfSome (row_at prompt (rows_of tables.now).prompts) (λ row. result ≡ row.wrong) }
{
    match tables.prompts.row(prompt) {
        Some(row) => row.wrong,
        None => 0,
    }
}

// What is sent when an existing prompt that has a next round is asked again, with so many wrong answers.
fn ask_sends<F: Folder>(
    tables: &Tables<F>,
    prompt: PromptId,
    wrong: u32,
) -> Result<Vec<Delivery>, OutOfMemory>
    requires there { is_some (row_at prompt (rows_of tables.now).prompts) ≡ true }
    requires round { next_round (row_at prompt (rows_of tables.now).prompts) ≤ last_round }
    ensures { IfOk result (λ sends. IfSome (row_at prompt (rows_of tables.now).prompts) (λ row.
        (rows : List ConnRow) → sends.items
        ≡ spread rows (asks_for (rows_of tables.now).collections (record row { wrong = wrong })
        row.kind (rows_of tables.now).prompts.agent))) }
{
    let mut sends = Vec::with_capacity(tables.alloc, 1)?;
    let Some(row) = tables.prompts.row(prompt) else {
        unreachable!();
    };
    let Some(agent) = tables.prompts.agent() else {
        return Ok(sends);
    };
    let ask = Ask {
        agent,
        prompt: row.prompt,
        round: row.stage.round() + 1,
        wrong,
    };
    let sent = ask_signal(tables.alloc, &tables.disk, &row.kind, ask)?;
    sends.push(sent)?;
    Ok(sends)
}

// ---- a prompt that creates a collection

// Whether a collection of this label can be made with the key: it is the one that was asked for, one more
// collection may be there, and there is room for its file. It takes no memory.
fn can_make<F: Folder>(tables: &Tables<F>, label: &Text, salt: &[u8; 8], key: &Derived) -> bool
    ensures { (conn : ConnId) (now : ℕ) → result ≡ can_make label.now salt.now
        (record { salt = key.now.salt; iterations = key.now.iterations })
        (asked conn (record { now = now; value = key.now.password }) (rows_of tables.now)) }
{
    if !are_terms(salt, key) {
        return false;
    }
    if !has_place(tables) {
        return false;
    }
    has_room(&tables.disk, label)
}

// Whether one more collection may be there.
fn has_place<F: Folder>(tables: &Tables<F>) -> bool
    ensures { result ≡ nat_le
        ((asked_collections (contents_of (rows_of tables.now))).count + 1)
        the_limits.collections }
{
    tables.disk.count() < LIMITS.collections
}

// Makes the collection of a prompt, if it can be made with the key, and then sets its alias. All memory is taken
// before the first call of a device.
fn create<F: Folder>(
    tables: &mut Tables<F>,
    conn: ConnId,
    prompt: PromptId,
    label: Text,
    alias: Text,
    salt: [u8; 8],
    key: Derived,
    now: u64,
) -> Result<Settled, OutOfMemory>
    requires there { is_some (row_at prompt (rows_of tables.old).prompts) ≡ true }
    requires alias { (alias ≡ []) ⊎ IsAliasName alias }
    requires sound { IsSound (rows_of tables.old) }
    requires free { AreFree F.is_honest F.images F.may_leave F.made F.Cell.is_honest
        F.Cell.may_leave (disk_of tables.old) }
    ensures settles { IfOk result (Settles F.is_honest F.is_steady F.faults F.images
        F.may_leave F.made F.Cell.is_honest F.Cell.is_steady
        F.Cell.faults F.Cell.moment F.Cell.left_since F.Cell.may_leave conn
        (record { now = now; value = key.password })
        (collection_made prompt label alias salt
        (record { salt = key.salt; iterations = key.iterations })
        (asked conn (record { now = now; value = key.password }) (rows_of tables.old)))
        (rows_of tables.old) (rows_of tables.new) (disk_of tables.old) (disk_of tables.new)) }
    ensures room { IfOk result (λ settled.
        HasRoomToReply conn settled.done.sends tables.new.connections.rooms) }
    ensures free { AreFree F.is_honest F.images F.may_leave F.made F.Cell.is_honest
        F.Cell.may_leave (disk_of tables.new) }
    ensures unchanged { OnErr result (rows_of tables.new ≡ rows_of tables.old) }
    ensures kept { OnErr result (KeepsSlotOrAll F.is_honest F.is_steady F.faults F.images
        F.may_leave F.made F.Cell.is_honest F.Cell.is_steady F.Cell.faults F.Cell.left_since
        (collection_made prompt label alias salt
        (record { salt = key.salt; iterations = key.iterations })
        (asked conn (record { now = now; value = key.password }) (rows_of tables.old)))
        (disk_of tables.old) (disk_of tables.new)) }
{
    if !can_make(tables, &label, &salt, &key) {
        return Ok(unmade(tables.end_dismissed(conn, prompt)?));
    }
    make_new(tables, conn, prompt, label, alias, key, now)
}

// Makes a collection for which there is room, with a key of the terms of a new one, and then sets its alias.
fn make_new<F: Folder>(
    tables: &mut Tables<F>,
    conn: ConnId,
    prompt: PromptId,
    label: Text,
    alias: Text,
    key: Derived,
    now: u64,
) -> Result<Settled, OutOfMemory>
    requires there { is_some (row_at prompt (rows_of tables.old).prompts) ≡ true }
    requires alias { (alias ≡ []) ⊎ IsAliasName alias }
    requires sound { IsSound (rows_of tables.old) }
    requires free { AreFree F.is_honest F.images F.may_leave F.made F.Cell.is_honest
        F.Cell.may_leave (disk_of tables.old) }
    requires iterations { key.iterations ≡ new_iterations }
    requires room { has_room (record { label = label; key = key; now = now })
        (rows_of tables.old).collections ≡ true }
    ensures settles { IfOk result (Settles F.is_honest F.is_steady F.faults F.images
        F.may_leave F.made F.Cell.is_honest F.Cell.is_steady
        F.Cell.faults F.Cell.moment F.Cell.left_since F.Cell.may_leave conn
        (record { now = now; value = key.password })
        (Asks (Make (chosen label (rows_of tables.old).used) label
        (record { salt = key.salt; iterations = key.iterations }))
        (making_ended prompt alias (chosen label (rows_of tables.old).used)))
        (rows_of tables.old) (rows_of tables.new) (disk_of tables.old) (disk_of tables.new)) }
    ensures room { IfOk result (λ settled.
        HasRoomToReply conn settled.done.sends tables.new.connections.rooms) }
    ensures free { AreFree F.is_honest F.images F.may_leave F.made F.Cell.is_honest
        F.Cell.may_leave (disk_of tables.new) }
    ensures unchanged { OnErr result (rows_of tables.new ≡ rows_of tables.old) }
    ensures kept { OnErr result (KeepsSlotOrAll F.is_honest F.is_steady F.faults F.images
        F.may_leave F.made F.Cell.is_honest F.Cell.is_steady F.Cell.faults F.Cell.left_since
        (Asks (Make (chosen label (rows_of tables.old).used) label
        (record { salt = key.salt; iterations = key.iterations }))
        (making_ended prompt alias (chosen label (rows_of tables.old).used)))
        (disk_of tables.old) (disk_of tables.new)) }
{
    let Prepared { stem, ends, change } = prepare_new(tables, conn, prompt, &label, alias)?;
    let fate = make(tables.alloc, &mut tables.disk, stem, label, key, now)?;
    let done = end_made(tables, prompt, fate, ends.by(fate), change);
    Ok(Settled {
        made: Some(fate),
        done,
    })
}

// What is needed to make a collection of this label that a prompt creates, and room for what is sent after that.
fn prepare_new<F: Folder>(
    tables: &mut Tables<F>,
    conn: ConnId,
    prompt: PromptId,
    label: &Text,
    alias: Text,
) -> Result<Prepared, OutOfMemory>
    requires alias { (alias ≡ []) ⊎ IsAliasName alias }
    requires sound { IsSound (rows_of tables.old) }
    ensures stem { IfOk result (λ new. new.stem ≡ chosen label.now (rows_of tables.old).used) }
    ensures unused { IfOk result (λ new. ¬ (Contains (rows_of tables.old).used new.stem)) }
    ensures unlisted { IfOk result (λ new.
        has_collection new.stem (rows_of tables.old).collections ≡ false) }
    ensures ends { IfOk result (λ new. (fate : StoreFate)
        → ends_by new.ends.stored.items new.ends.before.items new.ends.unsure.items fate
        ≡ spread (rows_of tables.old).connections.rows (announced (make_signals new.stem fate))
        ++ spread (rows_of tables.old).connections.rows
        (ended_sent prompt new.stem fate (rows_of tables.old).prompts)) }
    ensures change { IfOk result (λ new. (row : CollectionRow) → SetsAlias alias new.stem
        (inserted new.stem row (rows_of tables.old).collections)
        (rows_of tables.old).aliases new.change) }
    ensures room { IfOk result (λ new. (fate : StoreFate) → HasRoomToReply conn
        (ends_by new.ends.stored.items new.ends.before.items new.ends.unsure.items fate)
        tables.new.connections.rooms) }
    ensures rows { rows_of tables.new ≡ rows_of tables.old }
    ensures disk { disk_of tables.new ≡ disk_of tables.old }
{
    let stem = new_stem(tables, label)?;
    let created = Some(stem.copy()?);
    let completed = completed_sent(tables.alloc, &tables.prompts, prompt, false, &created)?;
    let stored = made_then(tables, &stem, completed)?;
    let before = completed_sent(tables.alloc, &tables.prompts, prompt, true, &None)?;
    let dismissed = completed_sent(tables.alloc, &tables.prompts, prompt, true, &None)?;
    let unsure = made_then(tables, &stem, dismissed)?;
    tables.connections.reserve_for(conn, &stored)?;
    tables.connections.reserve_for(conn, &before)?;
    tables.connections.reserve_for(conn, &unsure)?;
    let change = change_for(tables, alias, &stem)?;
    let ends = Ends {
        stored,
        before,
        unsure,
    };
    Ok(Prepared { stem, ends, change })
}

// That a collection was made, to everyone, and then this.
fn made_then<F: Folder>(
    tables: &Tables<F>,
    stem: &Stem,
    after: Vec<Delivery>,
) -> Result<Vec<Delivery>, OutOfMemory>
    ensures { IfOk result (λ sends. sends.items
        ≡ spread (rows_of tables.now).connections.rows (announced (made_signals stem.now))
        ++ after.items) }
{
    let mut after = after;
    let signals = made_signals(tables.alloc, stem)?;
    let mut sends = tables.announced(signals)?;
    sends.append(&mut after)?;
    Ok(sends)
}

// The stem of a new collection of this label. It isn't used, so no collection has it.
fn new_stem<F: Folder>(tables: &Tables<F>, label: &Text) -> Result<Stem, OutOfMemory>
    requires { IsSound (rows_of tables.now) }
    ensures stem { IfOk result (λ stem. stem ≡ chosen label.now (rows_of tables.now).used) }
    ensures unused { IfOk result (λ stem. ¬ (Contains (rows_of tables.now).used stem)) }
    ensures unlisted { IfOk result (λ stem.
        has_collection stem (rows_of tables.now).collections ≡ false) }
{
    chosen_stem(tables.alloc, label, &tables.disk.used)
}

// The change that sets an alias to a collection to come. None if no alias is given, or the file of the aliases
// was left alone.
fn change_for<F: Folder>(
    tables: &Tables<F>,
    alias: Text,
    stem: &Stem,
) -> Result<Option<AliasChange>, OutOfMemory>
    requires alias { (alias ≡ []) ⊎ IsAliasName alias }
    requires new { has_collection stem.now (rows_of tables.now).collections ≡ false }
    ensures { IfOk result (λ change. (row : CollectionRow) → SetsAlias alias stem.now
        (inserted stem.now row (rows_of tables.now).collections)
        (rows_of tables.now).aliases change) }
{
    if alias.as_bytes().is_empty() {
        return Ok(None);
    }
    tables.disk.prepare_alias_of_new(alias, stem.copy()?)
}

// Ends the prompt that was to create a collection, by how making it ended: if it was stored, its alias is set
// first. This is what is sent. It takes no memory.
fn end_made<F: Folder>(
    tables: &mut Tables<F>,
    prompt: PromptId,
    fate: StoreFate,
    sends: Vec<Delivery>,
    change: Option<AliasChange>,
) -> Done
    requires there { is_some (row_at prompt (rows_of tables.old).prompts) ≡ true }
    requires prepared { fate ≡ StoreFate.Stored → IfSome change (λ change. (alias : List ℕ)
        × (stem : Option (List ℕ))
        × IsPreparedFor alias stem (contents_of (rows_of tables.old)) change) }
    ensures settles { (conn : ConnId) (brought : Brought) (alias stem : List ℕ)
        (rest : List Delivery) → ((rows : List ConnRow) → rest
        ≡ spread rows (ended_sent prompt stem fate (rows_of tables.old).prompts))
        → (fate ≡ StoreFate.Stored → SetsAlias alias stem (rows_of tables.old).collections
        (rows_of tables.old).aliases change)
        → Settles F.is_honest F.is_steady F.faults F.images
        F.may_leave F.made F.Cell.is_honest F.Cell.is_steady
        F.Cell.faults F.Cell.moment F.Cell.left_since F.Cell.may_leave conn brought
        (making_ended prompt alias stem fate)
        (rows_of tables.old) (rows_of tables.new) (disk_of tables.old) (disk_of tables.new)
        (record { made = None; done = record result { sends = rest } }) }
    ensures sends { result.sends ≡ sends.items }
    ensures room { tables.new.connections ≡ tables.old.connections }
    ensures rest { disk_of tables.new
        ≡ record (disk_of tables.old) { aliases = (disk_of tables.new).aliases } }
{
    match fate {
        StoreFate::Stored => end_completed(tables, prompt, sends, change),
        _ => {
            let _ended = tables.prompts.end(prompt);
            sending(Ok(Body::Empty), sends)
        }
    }
}

// Sets the alias of a collection that was made, if a change was prepared for it, and ends its prompt completed. It
// takes no memory.
fn end_completed<F: Folder>(
    tables: &mut Tables<F>,
    prompt: PromptId,
    sends: Vec<Delivery>,
    change: Option<AliasChange>,
) -> Done
    requires there { is_some (row_at prompt (rows_of tables.old).prompts) ≡ true }
    requires prepared { IfSome change (λ change. (alias : List ℕ) × (stem : Option (List ℕ))
        × IsPreparedFor alias stem (contents_of (rows_of tables.old)) change) }
    ensures settles { (conn : ConnId) (brought : Brought) (alias stem : List ℕ)
        (rest : List Delivery) → ((rows : List ConnRow) → rest
        ≡ spread rows (completed_sent prompt false (Some stem) (rows_of tables.old).prompts))
        → SetsAlias alias stem (rows_of tables.old).collections (rows_of tables.old).aliases change
        → Settles F.is_honest F.is_steady F.faults F.images
        F.may_leave F.made F.Cell.is_honest F.Cell.is_steady
        F.Cell.faults F.Cell.moment F.Cell.left_since F.Cell.may_leave conn brought
        (alias_given prompt alias stem)
        (rows_of tables.old) (rows_of tables.new) (disk_of tables.old) (disk_of tables.new)
        (record { made = None; done = record result { sends = rest } }) }
    ensures sends { result.sends ≡ sends.items }
    ensures room { tables.new.connections ≡ tables.old.connections }
    ensures rest { disk_of tables.new
        ≡ record (disk_of tables.old) { aliases = (disk_of tables.new).aliases } }
{
    let set = set_new_alias(tables, change);
    let _ended = tables.prompts.end(prompt);
    set.followed(sends)
}

// Sets the alias of a collection that was made, if a change was prepared for it. It takes no memory.
fn set_new_alias<F: Folder>(tables: &mut Tables<F>, change: Option<AliasChange>) -> Done
    requires { IfSome change (λ change. (alias : List ℕ) × (stem : Option (List ℕ))
        × IsPreparedFor alias stem (contents_of (rows_of tables.old)) change) }
    ensures set { IfSome change (λ change. (conn : ConnId) (brought : Brought)
        (alias : List ℕ) (stem : Option (List ℕ))
        → IsPreparedFor alias stem (contents_of (rows_of tables.old)) change
        → Leads F.is_honest F.is_steady F.faults F.images
        F.may_leave F.made F.Cell.is_honest F.Cell.is_steady
        F.Cell.faults F.Cell.moment F.Cell.left_since F.Cell.may_leave conn brought
        (alias_settled alias stem)
        (rows_of tables.old) (rows_of tables.new)
        (disk_of tables.old) (disk_of tables.new) result) }
    ensures unset { IfNone change ((rows_of tables.new ≡ rows_of tables.old)
        × (disk_of tables.new ≡ disk_of tables.old) × (result
        ≡ record { answer = Ok body.Empty; sends = []; read = None; fate = None })) }
    ensures silent { result.sends ≡ [] }
    ensures prompts { tables.new.prompts ≡ tables.old.prompts }
    ensures room { tables.new.connections ≡ tables.old.connections }
    ensures rest { disk_of tables.new
        ≡ record (disk_of tables.old) { aliases = (disk_of tables.new).aliases } }
{
    match change {
        Some(change) => tables.settle_alias(change),
        None => unstored(tables.alloc, Ok(Body::Empty)),
    }
}
