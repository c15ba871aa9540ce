// The agent's call Answer (docs/SERVICE.md, "Interfaces" and "Prompts"), and the work that it gives.
ghost use Rattle.std.specs.Prelude.{◌≡◌, ℕ, ◌<◌, ◌≤◌, ◌++◌, Bool, List, [], None, Some, Ok, true, false, IfOk, OnErr};
ghost use Rattle.std.specs.Option.{is_some, option_copied, option_map};
ghost use Rattle.kr_base.specs.Attributes.{is_name, value_at};
ghost use Rattle.service_calls.specs.collection_table.specs.Entries.{without};
ghost use Rattle.service_calls.specs.collection_table.specs.Rows.{has, is_open};
ghost use Rattle.prompt_state.specs.Prompts.{first_of_row, last_round, next_round, refusal, row_at};
ghost use Rattle.service_calls.specs.service_disk.specs.Resolving.{is_doubtful};
ghost use Rattle.service_calls.specs.service_events.specs.AnswerCalls.{answer_prompt, deriving_key, makes_key_row, row_answered, target_answered, target_settled};
ghost use Rattle.service_calls.specs.service_events.specs.Plan.{Go_on};
ghost use Rattle.service_calls.specs.service_events.specs.PromptCalls.{go_on_sent};
ghost use Rattle.service_calls.specs.Rows.{disk_of, rows_of};
ghost use Rattle.service_calls.specs.service_events.specs.Run.{asked, sent_by};
ghost use Rattle.service_calls.specs.service_events.specs.Step.{answer_work, file_terms, password_in, prompt_work, row_terms, terms_for, work_of};
ghost use Rattle.service_calls.specs.Done.{HasRoomToReply, Leads};
ghost use Rattle.service_answers.specs.Settled.{advance_unless, found_by, label_unless_shown, newer_signals, relabelled};
ghost use Rattle.service_calls.specs.service_prompts.specs.Announcing.{announced, gone_signals};
ghost use Rattle.service_calls.specs.service_tables.specs.declared.fate.ReadFate.{ReadFate};
ghost use Rattle.service_calls.specs.service_tables.specs.signal_fanout.specs.declared.rows.Delivery.{Delivery};
ghost use Rattle.service_calls.specs.service_tables.specs.Connections.{HasRoom, spread};
ghost use Rattle.service_calls.specs.service_tables.specs.Disk.{contents_in};
ghost use Rattle.service_calls.specs.service_tables.specs.Opened.{contents_of};
ghost use Rattle.service_calls.specs.service_tables.specs.TablesReading.{asked_collections};
ghost use Rattle.service_calls.specs.service_tables.specs.Storing.{Brought};
ghost use Rattle.service_calls.specs.service_tables.specs.signal_fanout.specs.declared.rows.ConnRow.{ConnRow};

use kr_base::{Bytes, ConnId, OutOfMemory, PromptId, Stem, Text};
use kr_items::Items;
use kr_outside::Folder;
use prompt_state::PromptKind;
use service_calls::secret_calls::{Body, Call, Request, Signal, Work};
use service_calls::service_disk::{is_doubtful, prepare_resolve, resolve};
use service_calls::service_prompts::{gone_signals, label_signals};
use service_calls::service_tables::{Delivery, Disk, ReadFate};
use service_calls::{
    Answer, Done, Tables, error_for, pass_kind, refused, sending, unread, unstored,
};
use std::alloc::Global;

/// An answer in this round ends its prompt.
const LAST_ROUND: u64 = 18_446_744_073_709_551_615;

/// How often a new password is hashed.
pub const NEW_ITERATIONS: u32 = 10_000;

/// The password that a request brings, if it is an answer.
pub fn password_in(request: &Request) -> Result<Option<Bytes>, OutOfMemory>
    ensures { IfOk result (λ password. password ≡ password_in request.now.call) }
{
    match &request.call {
        Ok(Call::Answer { password, .. }) => Ok(Some(password.copy()?)),
        _ => Ok(None),
    }
}

// What a key is derived with besides the password: the salt and the iterations of a collection's file. It takes no
// memory.
fn file_terms<F: Folder>(disk: &Disk<F>, stem: &Stem) -> Option<([u8; 8], u32)>
    ensures { option_map (λ terms. record { salt = terms.0; iterations = terms.1 }) result
        ≡ option_map file_terms (value_at stem.now (contents_in disk.now).collections) }
{
    match disk.collections.get(stem) {
        Some(collection) => Some((collection.salt(), collection.iterations())),
        None => None,
    }
}

// The same for what a prompt is for: those of the file of its first target, or those of a new password.
fn kind_terms<F: Folder>(disk: &Disk<F>, kind: &PromptKind) -> Option<([u8; 8], u32)>
    ensures { option_map (λ terms. record { salt = terms.0; iterations = terms.1 }) result
        ≡ terms_for (contents_in disk.now).collections kind.now }
{
    match kind {
        PromptKind::Unlock(targets) => match targets.first() {
            Some(target) => file_terms(disk, &target.stem),
            None => None,
        },
        PromptKind::Create { salt, .. } => Some((*salt, NEW_ITERATIONS)),
        PromptKind::Change { salt, .. } => Some((*salt, NEW_ITERATIONS)),
    }
}

/// Performs the row of Answer. All memory is taken before the first call of the device.
pub fn answer_prompt<F: Folder>(
    tables: &mut Tables<F>,
    conn: ConnId,
    prompt: Option<PromptId>,
    round: u64,
) -> Result<Done, OutOfMemory>
    requires { HasRoom 1 conn tables.old.connections.rooms }
    ensures leads { IfOk result (λ done. (brought : Brought)
        → Leads F.is_honest F.is_steady F.faults F.images
        F.may_leave F.made F.Cell.is_honest F.Cell.is_steady
        F.Cell.faults F.Cell.moment
        F.Cell.left_since F.Cell.may_leave conn brought
        (answer_prompt prompt round (asked conn brought (rows_of tables.old)))
        (rows_of tables.old) (rows_of tables.new) (disk_of tables.old) (disk_of tables.new) done) }
    ensures room { IfOk result (λ done.
        HasRoomToReply conn done.sends tables.new.connections.rooms) }
    ensures unchanged { OnErr result ((rows_of tables.new ≡ rows_of tables.old)
        × (disk_of tables.new ≡ disk_of tables.old)) }
{
    let Some(prompt) = prompt else {
        return Ok(tables.refuse_none(conn));
    };
    match tables.prompts.refusal(prompt, round, conn) {
        Some(why) => Ok(refused(tables.alloc, error_for(why))),
        None => take_answer(tables, conn, prompt, round),
    }
}

// Takes an answer that isn't refused.
fn take_answer<F: Folder>(
    tables: &mut Tables<F>,
    conn: ConnId,
    prompt: PromptId,
    round: u64,
) -> Result<Done, OutOfMemory>
    requires taken { refusal prompt round conn (rows_of tables.old).prompts ≡ None }
    requires room { HasRoom 1 conn tables.old.connections.rooms }
    ensures leads { IfOk result (λ done. (brought : Brought)
        → Leads F.is_honest F.is_steady F.faults F.images
        F.may_leave F.made F.Cell.is_honest F.Cell.is_steady
        F.Cell.faults F.Cell.moment
        F.Cell.left_since F.Cell.may_leave conn brought
        (row_answered prompt round (row_at prompt (rows_of tables.old).prompts)
        (asked_collections (contents_of (rows_of tables.old))))
        (rows_of tables.old) (rows_of tables.new) (disk_of tables.old) (disk_of tables.new) done) }
    ensures room { IfOk result (λ done.
        HasRoomToReply conn done.sends tables.new.connections.rooms) }
    ensures unchanged { OnErr result ((rows_of tables.new ≡ rows_of tables.old)
        × (disk_of tables.new ≡ disk_of tables.old)) }
{
    if round == LAST_ROUND {
        return tables.end_dismissed(conn, prompt);
    }
    let first = first_stem(tables, prompt)?;
    match first {
        Some(stem) => answer_target(tables, conn, prompt, round, &stem),
        None => answer_without_target(tables, conn, prompt, round),
    }
}

// The answer to a prompt without a target: one that creates a collection, or changes the password of one.
fn answer_without_target<F: Folder>(
    tables: &mut Tables<F>,
    conn: ConnId,
    prompt: PromptId,
    round: u64,
) -> Result<Done, OutOfMemory>
    requires taken { refusal prompt round conn (rows_of tables.old).prompts ≡ None }
    requires below { round < last_round }
    requires none { first_of_row (row_at prompt (rows_of tables.old).prompts) ≡ None }
    requires room { HasRoom 1 conn tables.old.connections.rooms }
    ensures leads { IfOk result (λ done. (brought : Brought)
        → Leads F.is_honest F.is_steady F.faults F.images
        F.may_leave F.made F.Cell.is_honest F.Cell.is_steady
        F.Cell.faults F.Cell.moment
        F.Cell.left_since F.Cell.may_leave conn brought
        (row_answered prompt round (row_at prompt (rows_of tables.old).prompts)
        (asked_collections (contents_of (rows_of tables.old))))
        (rows_of tables.old) (rows_of tables.new) (disk_of tables.old) (disk_of tables.new) done) }
    ensures room { IfOk result (λ done.
        HasRoomToReply conn done.sends tables.new.connections.rooms) }
    ensures unchanged { OnErr result ((rows_of tables.new ≡ rows_of tables.old)
        × (disk_of tables.new ≡ disk_of tables.old)) }
{
    if makes_key(tables, prompt) {
        return Ok(derive(tables, conn, prompt, round));
    }
    tables.go_on(conn, prompt)
}

// The answer to a prompt that is asked for the collection of a stem.
fn answer_target<F: Folder>(
    tables: &mut Tables<F>,
    conn: ConnId,
    prompt: PromptId,
    round: u64,
    stem: &Stem,
) -> Result<Done, OutOfMemory>
    requires taken { refusal prompt round conn (rows_of tables.old).prompts ≡ None }
    requires below { round < last_round }
    requires room { HasRoom 1 conn tables.old.connections.rooms }
    ensures leads { IfOk result (λ done. (brought : Brought)
        → Leads F.is_honest F.is_steady F.faults F.images
        F.may_leave F.made F.Cell.is_honest F.Cell.is_steady
        F.Cell.faults F.Cell.moment
        F.Cell.left_since F.Cell.may_leave conn brought
        (target_settled prompt round stem.now)
        (rows_of tables.old) (rows_of tables.new) (disk_of tables.old) (disk_of tables.new) done) }
    ensures room { IfOk result (λ done.
        HasRoomToReply conn done.sends tables.new.connections.rooms) }
    ensures unchanged { OnErr result ((rows_of tables.new ≡ rows_of tables.old)
        × (disk_of tables.new ≡ disk_of tables.old)) }
{
    if is_doubtful(&tables.disk, stem) {
        return answer_in_doubt(tables, conn, prompt, round, stem);
    }
    answer_known(tables, conn, prompt, round, stem)
}

// The same for a collection whose file is known.
fn answer_known<F: Folder>(
    tables: &mut Tables<F>,
    conn: ConnId,
    prompt: PromptId,
    round: u64,
    stem: &Stem,
) -> Result<Done, OutOfMemory>
    requires taken { refusal prompt round conn (rows_of tables.old).prompts ≡ None }
    requires below { round < last_round }
    requires room { HasRoom 1 conn tables.old.connections.rooms }
    ensures leads { IfOk result (λ done. (brought : Brought)
        → Leads F.is_honest F.is_steady F.faults F.images
        F.may_leave F.made F.Cell.is_honest F.Cell.is_steady
        F.Cell.faults F.Cell.moment
        F.Cell.left_since F.Cell.may_leave conn brought
        (target_answered prompt round stem.now (asked conn brought (rows_of tables.old)))
        (rows_of tables.old) (rows_of tables.new) (disk_of tables.old) (disk_of tables.new) done) }
    ensures room { IfOk result (λ done.
        HasRoomToReply conn done.sends tables.new.connections.rooms) }
    ensures unchanged { OnErr result ((rows_of tables.new ≡ rows_of tables.old)
        × (disk_of tables.new ≡ disk_of tables.old)) }
{
    if !tables.disk.collections.has(stem) {
        return tables.go_on(conn, prompt);
    }
    if tables.disk.collections.is_open(stem) {
        return tables.go_on(conn, prompt);
    }
    Ok(derive(tables, conn, prompt, round))
}

// The same for a collection whose file is in doubt. What is sent if the collection is found to be gone, or to have
// another label, is made before the file is read.
fn answer_in_doubt<F: Folder>(
    tables: &mut Tables<F>,
    conn: ConnId,
    prompt: PromptId,
    round: u64,
    stem: &Stem,
) -> Result<Done, OutOfMemory>
    requires taken { refusal prompt round conn (rows_of tables.old).prompts ≡ None }
    requires below { round < last_round }
    requires doubt { is_doubtful stem.now (rows_of tables.old).collections ≡ true }
    requires room { HasRoom 1 conn tables.old.connections.rooms }
    ensures leads { IfOk result (λ done. (brought : Brought)
        → Leads F.is_honest F.is_steady F.faults F.images
        F.may_leave F.made F.Cell.is_honest F.Cell.is_steady
        F.Cell.faults F.Cell.moment
        F.Cell.left_since F.Cell.may_leave conn brought
        (target_settled prompt round stem.now)
        (rows_of tables.old) (rows_of tables.new) (disk_of tables.old) (disk_of tables.new) done) }
    ensures room { IfOk result (λ done.
        HasRoomToReply conn done.sends tables.new.connections.rooms) }
    ensures unchanged { OnErr result ((rows_of tables.new ≡ rows_of tables.old)
        × (disk_of tables.new ≡ disk_of tables.old)) }
{
    let said = prepare_found(tables, conn, prompt, stem)?;
    let taken = stem.copy()?;
    let mut buffer = prepare_resolve(tables.alloc, &mut tables.disk, stem)?;
    let read = resolve(&mut tables.disk, taken, &mut buffer);
    match read {
        ReadFate::ReadFailed => Ok(unread(tables.alloc, read)),
        _ => {
            let left = tables.disk.collections.has(stem);
            let sends = said.by(tables.alloc, read, left);
            Ok(answer_found(tables, conn, prompt, round, stem, sends).after(read))
        }
    }
}

/// What is sent once a file in doubt was read again, by what was found.
#[derive(Drop)]
pub struct Found {
    /// If the collection is gone: that it is, and then what is sent as its prompt advances.
    pub gone: Vec<Delivery>,
    /// If the newer image was found: its label, if that isn't the one that was shown.
    pub newer: Vec<Delivery>,
}

impl Found {
    // What is sent once the file was read, which ended so, and the collection is left or not.
    fn by(self, alloc: Global, read: ReadFate, left: bool) -> Vec<Delivery>
        ensures { result.items ≡ found_by self.gone.items self.newer.items read left }
    {
        if !left {
            return self.gone;
        }
        match read {
            ReadFate::New => self.newer,
            _ => Vec::new(alloc),
        }
    }
}

// Makes what is sent once the file of a collection in doubt was read again, and room for it.
fn prepare_found<F: Folder>(
    tables: &mut Tables<F>,
    conn: ConnId,
    prompt: PromptId,
    stem: &Stem,
) -> Result<Found, OutOfMemory>
    requires there { is_some (row_at prompt (rows_of tables.old).prompts) ≡ true }
    requires round { next_round (row_at prompt (rows_of tables.old).prompts) ≤ last_round }
    ensures gone { IfOk result (λ said. said.gone.items
        ≡ spread (rows_of tables.old).connections.rows (announced (gone_signals stem.now))
        ++ spread (rows_of tables.old).connections.rows
        (go_on_sent (asked_collections (record (contents_of (rows_of tables.old)) {
          collections = without stem.now (rows_of tables.old).collections;
        })) (without stem.now (rows_of tables.old).collections)
        (rows_of tables.old).prompts.agent (row_at prompt (rows_of tables.old).prompts))) }
    ensures newer { IfOk result (λ said. said.newer.items
        ≡ spread (rows_of tables.old).connections.rows
        (announced (newer_signals stem.now (rows_of tables.old).collections))) }
    ensures room { IfOk result (λ said. (read : ReadFate) (left : Bool) → HasRoomToReply conn
        (found_by said.gone.items said.newer.items read left) tables.new.connections.rooms) }
    ensures rows { rows_of tables.new ≡ rows_of tables.old }
    ensures disk { disk_of tables.new ≡ disk_of tables.old }
{
    let signals = gone_signals(tables.alloc, stem)?;
    let mut gone = tables.announced(signals)?;
    let mut advance = sends_without(tables, prompt, stem)?;
    gone.append(&mut advance)?;
    let signals = newer_signals(tables.alloc, &tables.disk, stem)?;
    let newer = tables.announced(signals)?;
    tables.connections.reserve_for(conn, &gone)?;
    tables.connections.reserve_for(conn, &newer)?;
    Ok(Found { gone, newer })
}

// The signals of the label of the newer image of a file in doubt, if it isn't the one that is shown.
fn newer_signals<F: Folder>(
    alloc: Global,
    disk: &Disk<F>,
    stem: &Stem,
) -> Result<Vec<Signal>, OutOfMemory>
    ensures { IfOk result (λ signals. signals.items
        ≡ newer_signals stem.now (contents_in disk.now).collections) }
{
    match disk.collections.get(stem) {
        Some(collection) => relabelled(alloc, stem, collection.label(), collection.newer_label()),
        None => Ok(Vec::new(alloc)),
    }
}

// The signals of this label, if there is one, and it isn't the one that is shown.
fn relabelled(
    alloc: Global,
    stem: &Stem,
    shown: &Text,
    label: Option<&Text>,
) -> Result<Vec<Signal>, OutOfMemory>
    ensures { IfOk result (λ signals. signals.items
        ≡ relabelled stem.now shown.now (option_copied label.entry)) }
{
    match label {
        Some(label) => label_unless_shown(alloc, stem, shown, label),
        None => Ok(Vec::new(alloc)),
    }
}

// The signals of a label, unless it is the one that is shown.
fn label_unless_shown(
    alloc: Global,
    stem: &Stem,
    shown: &Text,
    label: &Text,
) -> Result<Vec<Signal>, OutOfMemory>
    ensures { IfOk result (λ signals. signals.items
        ≡ label_unless_shown stem.now shown.now label.now) }
{
    if is_label(shown, label) {
        return Ok(Vec::new(alloc));
    }
    label_signals(alloc, stem, label)
}

// Whether the label that is shown is this one.
fn is_label(shown: &Text, label: &Text) -> bool
    ensures { result ≡ is_name shown.now label.now }
{
    shown.cmp(label).is_eq()
}

// The same once the file was read again. What is sent is given. It takes no memory.
fn answer_found<F: Folder>(
    tables: &mut Tables<F>,
    conn: ConnId,
    prompt: PromptId,
    round: u64,
    stem: &Stem,
    sends: Vec<Delivery>,
) -> Done
    requires taken { refusal prompt round conn (rows_of tables.old).prompts ≡ None }
    requires below { round < last_round }
    requires locked { is_open stem.now (rows_of tables.old).collections ≡ false }
    requires room { HasRoomToReply conn sends.items tables.old.connections.rooms }
    ensures leads { (brought : Brought) (rest : List Delivery)
        → rest ≡ spread (rows_of tables.old).connections.rows
        (advance_unless (has stem.now (rows_of tables.old).collections) conn prompt
        (rows_of tables.old))
        → Leads F.is_honest F.is_steady F.faults F.images
        F.may_leave F.made F.Cell.is_honest F.Cell.is_steady
        F.Cell.faults F.Cell.moment
        F.Cell.left_since F.Cell.may_leave conn brought
        (target_answered prompt round stem.now (asked conn brought (rows_of tables.old)))
        (rows_of tables.old) (rows_of tables.new) (disk_of tables.old) (disk_of tables.new)
        (record result { sends = rest }) }
    ensures sends { result.sends ≡ sends.items }
    ensures unread { result.read ≡ None }
    ensures room { HasRoomToReply conn result.sends tables.new.connections.rooms }
{
    if tables.disk.collections.has(stem) {
        let derived = derive(tables, conn, prompt, round);
        return Done {
            answer: derived.answer,
            sends: Items::new(sends),
            read: derived.read,
            fate: derived.fate,
        };
    }
    tables.go_on_now(conn, prompt);
    sending(Ok(Body::Empty), sends)
}

// The key for a prompt is derived in the round in which it is asked, which isn't the greatest. It takes no memory.
fn derive<F: Folder>(tables: &mut Tables<F>, conn: ConnId, prompt: PromptId, round: u64) -> Done
    requires taken { refusal prompt round conn (rows_of tables.old).prompts ≡ None }
    requires below { round < last_round }
    ensures leads { (brought : Brought)
        → Leads F.is_honest F.is_steady F.faults F.images
        F.may_leave F.made F.Cell.is_honest F.Cell.is_steady
        F.Cell.faults F.Cell.moment
        F.Cell.left_since F.Cell.may_leave conn brought (deriving_key prompt round)
        (rows_of tables.old) (rows_of tables.new) (disk_of tables.old) (disk_of tables.new) result }
    ensures silent { result.sends ≡ [] }
    ensures unread { result.read ≡ None }
    ensures room { tables.new.connections ≡ tables.old.connections }
{
    match tables.prompts.answer(prompt, round, conn) {
        Ok(_) => unstored(tables.alloc, Ok(Body::Empty)),
        Err(_) => unreachable!(),
    }
}

// What is sent when an existing prompt that has a next round advances, with the collection of a stem left out.
fn sends_without<F: Folder>(
    tables: &Tables<F>,
    prompt: PromptId,
    stem: &Stem,
) -> Result<Vec<Delivery>, OutOfMemory>
    requires there { is_some (row_at prompt (rows_of tables.now).prompts) ≡ true }
    requires round { next_round (row_at prompt (rows_of tables.now).prompts) ≤ last_round }
    ensures { IfOk result (λ sends. (rows : List ConnRow) → sends.items
        ≡ spread rows (go_on_sent (asked_collections (record (contents_of (rows_of tables.now)) {
          collections = without stem.now (rows_of tables.now).collections;
        })) (without stem.now (rows_of tables.now).collections)
        (rows_of tables.now).prompts.agent (row_at prompt (rows_of tables.now).prompts))) }
{
    let Some(row) = tables.prompts.row(prompt) else {
        unreachable!();
    };
    let mut kind = row.kind.copy()?;
    let gone = Some(stem.copy()?);
    pass_kind(&tables.disk, &gone, &mut kind);
    tables.advance_sent(row, row.wrong, &gone, &kind)
}

// The stem of the first target of a prompt that is left, if it has targets.
fn first_stem<F: Folder>(tables: &Tables<F>, prompt: PromptId) -> Result<Option<Stem>, OutOfMemory>
    ensures { IfOk result (λ stem. stem ≡ option_map (λ target. target.stem)
        (first_of_row (row_at prompt (rows_of tables.now).prompts))) }
{
    match tables.prompts.first_open(prompt) {
        Some(target) => Ok(Some(target.stem.copy()?)),
        None => Ok(None),
    }
}

// Whether the prompt exists, and creates a collection or changes the password of one that is unlocked.
fn makes_key<F: Folder>(tables: &Tables<F>, prompt: PromptId) -> bool
    ensures { result ≡ makes_key_row (asked_collections (contents_of (rows_of tables.now)))
        (row_at prompt (rows_of tables.now).prompts) }
{
    match tables.prompts.row(prompt) {
        Some(row) => match &row.kind {
            PromptKind::Unlock(_) => false,
            PromptKind::Create { .. } => true,
            PromptKind::Change { stem, .. } => tables.disk.collections.is_open(stem),
        },
        None => false,
    }
}

// The same for a prompt, if it is there.
fn terms_for<F: Folder>(tables: &Tables<F>, prompt: PromptId) -> Option<([u8; 8], u32)>
    ensures { option_map (λ terms. record { salt = terms.0; iterations = terms.1 }) result
        ≡ row_terms (rows_of tables.now).collections
        (row_at prompt (rows_of tables.now).prompts) }
{
    match tables.prompts.row(prompt) {
        Some(row) => kind_terms(&tables.disk, &row.kind),
        None => None,
    }
}

/// The work that a request gives, by how it was answered: a key, if it is an answer that was taken and the key
/// for its prompt is to be derived. It takes no memory.
pub fn work_of<F: Folder>(
    tables: &Tables<F>,
    request: &Request,
    answer: &Answer,
    password: Option<Bytes>,
) -> Option<Work>
    requires { password ≡ password_in request.now.call }
    ensures { result ≡ work_of request.now.call answer.now (rows_of tables.now) }
{
    match &request.call {
        Ok(call) => work_of_call(tables, call, answer, password),
        Err(_) => None,
    }
}

// The same for a call.
fn work_of_call<F: Folder>(
    tables: &Tables<F>,
    call: &Call,
    answer: &Answer,
    password: Option<Bytes>,
) -> Option<Work>
    requires { password ≡ password_in (Ok call.now) }
    ensures { result ≡ work_of (Ok call.now) answer.now (rows_of tables.now) }
{
    match call {
        Call::Answer { prompt, round, .. } => {
            answer_work(tables, prompt, *round, answer, password)
        }
        _ => None,
    }
}

// The same for an answer.
fn answer_work<F: Folder>(
    tables: &Tables<F>,
    prompt: &Option<PromptId>,
    round: u64,
    answer: &Answer,
    password: Option<Bytes>,
) -> Option<Work>
    ensures { (given : List ℕ) → password ≡ Some given
        → result ≡ answer_work prompt.now round given answer.now (rows_of tables.now) }
{
    let Some(prompt) = *prompt else {
        return None;
    };
    match answer {
        Ok(_) => prompt_work(tables, prompt, round, password),
        Err(_) => None,
    }
}

// The same for a prompt, if its key is being derived in this round.
fn prompt_work<F: Folder>(
    tables: &Tables<F>,
    prompt: PromptId,
    round: u64,
    password: Option<Bytes>,
) -> Option<Work>
    ensures { (given : List ℕ) → password ≡ Some given
        → result ≡ prompt_work prompt round given (rows_of tables.now).collections
        (row_at prompt (rows_of tables.now).prompts) }
{
    if !tables.prompts.derived(prompt, round) {
        return None;
    }
    let Some(terms) = terms_for(tables, prompt) else {
        return None;
    };
    let salt = terms.0;
    match password {
        Some(password) => Some(Work {
            prompt,
            round,
            salt,
            iterations: terms.1,
            password,
        }),
        None => None,
    }
}
