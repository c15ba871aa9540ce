ghost use Rattle.std.specs.Prelude.{◌≡◌, ◌≢◌, ℕ, List, ◌<◌, ◌^◌, ◌++◌, ◌&&◌, [], None, Ok, Err, true, false, IsTrue, IfOk, IfSome, OnOk, OnErr, IsErrOf, ◌+◌};
ghost use Rattle.std.specs.List.{AllByRecursion};
ghost use Rattle.service_answers.specs.collection_table.specs.Entries.{rows_of as collections_of};
ghost use Rattle.service_answers.specs.service_tables.specs.Aliases.{rows_in};
ghost use Rattle.replace_slot.specs.Cell.{Known};
ghost use Rattle.service_answers.specs.service_tables.specs.Slots.{LeavesKnown, file_at, slot_at};
ghost use Rattle.service_answers.specs.folder_store.specs.Ring.{IsAsFound};
ghost use Rattle.service_answers.specs.service_tables.specs.Connections.{HasRoom, desk_of, handed, has, spread, waiting_for};
ghost use Rattle.service_answers.specs.service_tables.specs.Disk.{IsLoaded, FailedToLoad, disk_state};
ghost use Rattle.service_answers.specs.service_events.specs.Fates.{with_fates, AreFaultless, IsFaultless, is_steady};
ghost use Rattle.service_answers.specs.service_events.specs.Incoming.{AreFreeFor, Records, IsDue, IsOfNone, IsConnect, IsSoundFor, TakesMemory};
ghost use Rattle.service_answers.specs.service_tables.specs.Opened.{IsOpened, contents_of};
ghost use Rattle.service_machine.specs.Rows.{no_contents};
ghost use Rattle.service_answers.specs.service_events.specs.Run.{asked};
ghost use Rattle.service_answers.specs.service_disk.specs.Making.{AreFree};
ghost use Rattle.service_answers.specs.service_events.specs.declared.event.Event.TheVariants as Event;
ghost use Rattle.service_answers.specs.service_events.specs.declared.event.Output.TheVariants as Output;
ghost use Rattle.service_answers.specs.service_tables.specs.Sound.{AreSoundContents, IsSound};
ghost use Rattle.service_answers.specs.service_events.specs.Step.{step, output_of, brought_by, brought_with, plan_of, row_of, message_of, replies, with_rows, IsMissing, IsCrowded, CanJoin, HasTypes, IsSalt, IsTypedName, Fits};
ghost use Rattle.service_answers.specs.service_events.specs.Stored.{KeepsDisk, StoresEvent};
ghost use Rattle.service_answers.specs.service_calls.specs.Done.{HasRoomToReply, Leads};

use crate::{ApplyRefused, Arrival, Arrived, Boxed, Event, Fates, Incoming, Output, Recorded};
use collection_table::CollectionTable;
use keyring_text::known_bytes;
use kr_base::{ConnId, OutOfMemory, Stem};
use kr_items::Items;
use kr_outside::Folder;
use prompt_state::PromptState;
use service_answers::secret_calls::{AliasName, Body, Call, CallFault, Out, Request, Serial, Work};
use service_answers::service_calls::{Answer, Done, Tables, refused};
use service_answers::service_tables::{
    Connections, Delivery, DeskRow, Disk, KeptAliases, OpenRefused, Rows, known_alias,
    known_attributes, known_item, known_secret, known_text,
};
use service_answers::{answer_prompt, password_in, work_of};
use session_table::SessionTable;
use std::alloc::Global;
use stem_choice::{UsedStems, a_used_stem_is_in_the_list, adding_a_stem_uses_it_alone};

/// The service: its connections with what waits for each, its sessions and prompts, and its folder with its
/// collections and aliases.
#[derive(Drop)]
pub struct Machine<F: Folder> {
    pub(crate) tables: Tables<F>,
}

impl<F: Folder> Machine<F> {
    ghost use Rattle.service_machine.specs.Rows.{rows_of, disk_of};

    /// The service as it starts, over a folder of which no slot was made yet: the folder is loaded, all of
    /// its collections are locked, and nothing else is there.
    ///
    /// Refused with `Folder` if the folder or one of its slots failed, and with `OutOfMemory`; the
    /// folder is dropped then.
    pub fn open(alloc: Global, folder: F) -> Result<Machine<F>, OpenRefused>
        requires fresh { F.made folder ≡ [] }
        ensures opened { IfOk result (λ machine. IsOpened (rows_of machine)) }
        ensures free { IfOk result (λ machine. AreFree F.is_honest F.images F.may_leave F.made
            F.Cell.is_honest F.Cell.may_leave (disk_of machine)) }
        ensures contents { IfOk result (λ machine.
            AreSoundContents (contents_of (rows_of machine))) }
        ensures sound { IfOk result (λ machine. IsSound (rows_of machine)) }
        ensures loaded { IfOk result (λ machine. IsLoaded (IsAsFound F.Cell.seen F.Cell.temporary
            F.Cell.may_leave F.Cell.left_since F.Cell.is_honest F.Cell.is_steady
            (F.is_honest folder) (F.is_steady folder))
            F.is_honest F.is_steady F.faults F.images F.may_leave F.made
            folder (disk_of machine) (rows_of machine)) }
        ensures steady { IfOk result (λ machine.
            is_steady F.is_steady F.Cell.is_steady (disk_of machine) ≡ F.is_steady folder) }

        // The folder is at fault only if it failed, and never if it is steady.
        ensures cause { IsErrOf result OpenRefused.Folder → FailedToLoad (IsAsFound F.Cell.seen
            F.Cell.temporary F.Cell.may_leave F.Cell.left_since F.Cell.is_honest F.Cell.is_steady
            (F.is_honest folder) (F.is_steady folder))
            F.is_honest F.is_steady F.faults F.images F.made F.Cell.faults F.Cell.failed folder }
        ensures never { IsTrue (F.is_steady folder) → ¬ (IsErrOf result OpenRefused.Folder) }
    {
        let disk = Disk::open(alloc, folder)?;
        // Laws that say which stems are used.
        a_used_stem_is_in_the_list();
        adding_a_stem_uses_it_alone();
        Ok(Machine {
            tables: Tables {
                alloc,
                connections: Connections::new(alloc),
                sessions: SessionTable::new(alloc),
                prompts: PromptState::new(alloc),
                disk,
            },
        })
    }

    /// The service as it starts with nothing, over a folder of which no slot was made yet, and which isn't
    /// read: there is no collection and no used stem, and the file of the aliases, whose slot is given, is
    /// left alone, so that no alias can be set. The folder says nothing of its files that has to be kept, as
    /// it isn't an honest one.
    pub fn with_nothing(
        alloc: Global,
        folder: F,
        aliases: F::Cell,
    ) -> Result<Machine<F>, OutOfMemory>
        requires fresh { F.made folder ≡ [] }
        requires silent { F.is_honest folder ≡ false }
        ensures opened { IfOk result (λ machine. IsOpened (rows_of machine)) }
        ensures free { IfOk result (λ machine. AreFree F.is_honest F.images F.may_leave F.made
            F.Cell.is_honest F.Cell.may_leave (disk_of machine)) }
        ensures contents { IfOk result (λ machine.
            AreSoundContents (contents_of (rows_of machine))) }
        ensures nothing { IfOk result (λ machine. contents_of (rows_of machine) ≡ no_contents) }
        ensures steady { IfOk result (λ machine. is_steady F.is_steady F.Cell.is_steady
            (disk_of machine) ≡ (F.is_steady folder && F.Cell.is_steady aliases)) }
    {
        let collections = CollectionTable::loaded(alloc, Vec::new(alloc))?;
        Ok(Machine {
            tables: Tables {
                alloc,
                connections: Connections::new(alloc),
                sessions: SessionTable::new(alloc),
                prompts: PromptState::new(alloc),
                disk: Disk {
                    folder,
                    collections,
                    spare: Vec::new(alloc),
                    used: UsedStems::new(alloc),
                    left_alone: Vec::new(alloc),
                    aliases: KeptAliases::LeftAlone(aliases),
                },
            },
        })
    }

    /// The folder, with its collections and aliases. It takes no memory.
    pub fn into_disk(self) -> Disk<F>
        ensures disk { disk_state result ≡ disk_of self }
        ensures collections { collections_of result.collections.entries
            ≡ (rows_of self).collections }
        ensures aliases { rows_in result.aliases ≡ (rows_of self).aliases }
    {
        self.tables.disk
    }

    /// Performs one event, and returns its answer and the event as it is to be recorded. The rows
    /// afterwards are those of the step from the rows before.
    ///
    /// Refused with `NoConnection` if the connection isn't there, with `TooManyConnections` if 256 are
    /// there or no number is left, and otherwise perhaps with `OutOfMemory`. Leaving, taking and going take
    /// no memory.
    pub fn apply(&mut self, event: Incoming) -> Result<(Output, Event), ApplyRefused>
        requires due { IsDue (rows_of self.old) event }
        requires sound { IsSoundFor event (rows_of self.old) }
        requires free { AreFreeFor F.is_honest F.images F.may_leave F.made F.Cell.is_honest
            F.Cell.may_leave event (disk_of self.old) }

        ensures recorded { IfOk result (λ answer. Records event answer.1) }
        ensures fits { IfOk result (λ answer. Fits (rows_of self.old) answer.1) }
        ensures stepped { IfOk result (λ answer.
            rows_of self.new ≡ step (rows_of self.old) answer.1) }
        ensures output { IfOk result (λ answer.
            answer.0 ≡ output_of (rows_of self.old) answer.1) }
        ensures disk { IfOk result (λ answer. StoresEvent F.is_honest F.is_steady F.faults F.images
            F.may_leave F.made F.Cell.is_honest F.Cell.is_steady
            F.Cell.faults F.Cell.moment F.Cell.left_since F.Cell.may_leave answer.1
            (rows_of self.old) (disk_of self.old) (disk_of self.new)) }
        ensures faultless { IsTrue (is_steady F.is_steady F.Cell.is_steady (disk_of self.old))
            → IfOk result (λ answer. IsFaultless answer.1) }
        ensures steady { is_steady F.is_steady F.Cell.is_steady (disk_of self.new)
            ≡ is_steady F.is_steady F.Cell.is_steady (disk_of self.old) }

        // Each refusal has its cause, and memory doesn't run out in place of another one.
        ensures no_connection { IsErrOf result ApplyRefused.NoConnection
            → IsOfNone (rows_of self.old) event }
        ensures crowded { IsErrOf result ApplyRefused.TooManyConnections → IsConnect event }
        ensures full { IsErrOf result ApplyRefused.TooManyConnections
            → IsCrowded (rows_of self.old) }
        ensures memory { IsErrOf result ApplyRefused.OutOfMemory → TakesMemory event }
        ensures there { IsErrOf result ApplyRefused.OutOfMemory
            → ¬ (IsOfNone (rows_of self.old) event) }
        ensures room { IsErrOf result ApplyRefused.OutOfMemory → IsConnect event
            → CanJoin (rows_of self.old) }

        // After a refusal nothing has changed, except for a slot that was made by the time that memory ran out.
        ensures unchanged { OnErr result (rows_of self.new ≡ rows_of self.old) }
        ensures idle { result ≢ Err ApplyRefused.OutOfMemory
            → OnErr result (disk_of self.new ≡ disk_of self.old) }
        ensures kept { OnErr result (KeepsDisk F.is_honest F.is_steady F.faults F.images
            F.may_leave F.made F.Cell.is_honest F.Cell.is_steady F.Cell.faults
            F.Cell.left_since event (rows_of self.old) (disk_of self.old) (disk_of self.new)) }
        ensures free { AreFreeFor F.is_honest F.images F.may_leave F.made F.Cell.is_honest
            F.Cell.may_leave event (disk_of self.new) }
    {
        match event {
            Incoming::Connect => {
                if self.is_crowded() {
                    return Err(ApplyRefused::TooManyConnections);
                }
                let conn = self.join()?;
                Ok((Output::Joined(conn), Event::Connect(conn)))
            }
            Incoming::Arrive(arrival) => {
                self.there(arrival.conn)?;
                let (work, came) = self.recorded(arrival)?;
                Ok((Output::Arrived(Arrived { work }), Event::Arrive(came)))
            }
            Incoming::Derived(brought) => {
                self.there(brought.conn)?;
                let derivation = self.derived(brought)?;
                Ok((Output::Derived, Event::Derived(derivation)))
            }
            Incoming::Leave(conn) => {
                self.there(conn)?;
                self.leave(conn);
                Ok((Output::Left, Event::Leave(conn)))
            }
            Incoming::Take(conn) => {
                self.there(conn)?;
                let outs = self.take(conn);
                Ok((Output::Taken(outs), Event::Take(conn)))
            }
            Incoming::Gone(conn) => {
                self.there(conn)?;
                self.gone(conn);
                Ok((Output::Gone, Event::Gone(conn)))
            }
        }
    }

    // Refused if the connection isn't there.
    fn there(&self, conn: ConnId) -> Result<(), ApplyRefused>
        ensures there { OnOk result (has conn (rows_of self.now).connections.rows ≡ true) }
        ensures missing { OnErr result (IsMissing conn (rows_of self.now)) }
        ensures cause { OnErr result (IsErrOf result ApplyRefused.NoConnection) }
    {
        if !self.has(conn) {
            return Err(ApplyRefused::NoConnection);
        }
        Ok(())
    }

    /// Whether the connection is there. It takes no memory.
    pub fn has(&self, conn: ConnId) -> bool
        ensures { result ≡ has conn (rows_of self.now).connections.rows }
    {
        self.tables.connections.has(conn)
    }

    /// Whether no further connection can join: 256 are there, or no number is left. It takes no memory.
    pub fn is_crowded(&self) -> bool
        ensures crowded { result ≡ true → IsCrowded (rows_of self.now) }
        ensures room { result ≡ false → CanJoin (rows_of self.now) }
    {
        self.tables.connections.is_crowded()
    }

    /// A connection joins, and gets the next number.
    pub fn join(&mut self) -> Result<ConnId, OutOfMemory>
        requires { CanJoin (rows_of self.old) }
        ensures fits { IfOk result (λ conn. Fits (rows_of self.old) (Event.Connect conn)) }
        ensures stepped { IfOk result (λ conn.
            rows_of self.new ≡ step (rows_of self.old) (Event.Connect conn)) }
        ensures disk { disk_of self.new ≡ disk_of self.old }
        ensures unchanged { OnErr result (rows_of self.new ≡ rows_of self.old) }
    {
        self.tables.connections.join()
    }

    // Answers the request of an existing connection, as `arrive` does, and returns the key that is to be derived
    // and the request as it is to be recorded. The memory for that is taken before the first call of a device.
    fn recorded(&mut self, arrival: Arrival) -> Result<(Option<Work>, Boxed<Recorded>), OutOfMemory>
        requires { has arrival.conn (rows_of self.old).connections.rows ≡ true }
        ensures recorded { IfOk result (λ done. done.1.arrival ≡ arrival) }
        ensures fits { IfOk result (λ done. Fits (rows_of self.old) (Event.Arrive done.1)) }
        ensures stepped { IfOk result (λ done.
            rows_of self.new ≡ step (rows_of self.old) (Event.Arrive done.1)) }
        ensures work { IfOk result (λ done. Output.Arrived (record { work = done.0 })
            ≡ output_of (rows_of self.old) (Event.Arrive done.1)) }
        ensures disk { IfOk result (λ done. StoresEvent F.is_honest F.is_steady F.faults F.images
            F.may_leave F.made F.Cell.is_honest F.Cell.is_steady
            F.Cell.faults F.Cell.moment F.Cell.left_since F.Cell.may_leave
            (Event.Arrive done.1) (rows_of self.old) (disk_of self.old) (disk_of self.new)) }
        ensures faultless { IsTrue (is_steady F.is_steady F.Cell.is_steady (disk_of self.old))
            → IfOk result (λ done. AreFaultless done.1.fates) }
        ensures steady { is_steady F.is_steady F.Cell.is_steady (disk_of self.new)
            ≡ is_steady F.is_steady F.Cell.is_steady (disk_of self.old) }
        ensures unchanged { OnErr result ((rows_of self.new ≡ rows_of self.old)
            × (disk_of self.new ≡ disk_of self.old)) }
    {
        let fates = Fates::none();
        let came = Boxed::new(self.tables.alloc, Recorded { arrival, fates })?;
        let (work, fates) = self.arrive(&came.get().arrival)?;
        Ok((work, Recorded::ended(came, fates)))
    }

    /// Answers the request of an existing connection; the reply waits for it, and then the signals that the
    /// request sends wait for their connections. It returns the key that is to be derived, if the request is an
    /// answer that was taken, and how each storing and each resolve of a file ended that the request asked for.
    /// All memory is taken before the first call of a device, and before anything changes.
    pub fn arrive(&mut self, arrival: &Arrival) -> Result<(Option<Work>, Fates), OutOfMemory>
        requires { has arrival.now.conn (rows_of self.old).connections.rows ≡ true }
        ensures fits { IfOk result (λ done.
            Fits (rows_of self.old) (with_fates arrival.entry.now done.1)) }
        ensures stepped { IfOk result (λ done.
            rows_of self.new ≡ step (rows_of self.old) (with_fates arrival.entry.now done.1)) }
        ensures work { IfOk result (λ done. Output.Arrived (record { work = done.0 })
            ≡ output_of (rows_of self.old) (with_fates arrival.entry.now done.1)) }
        ensures disk { IfOk result (λ done. StoresEvent F.is_honest F.is_steady F.faults F.images
            F.may_leave F.made F.Cell.is_honest F.Cell.is_steady
            F.Cell.faults F.Cell.moment F.Cell.left_since F.Cell.may_leave
            (with_fates arrival.entry.now done.1)
            (rows_of self.old) (disk_of self.old) (disk_of self.new)) }
        ensures faultless { IsTrue (is_steady F.is_steady F.Cell.is_steady (disk_of self.old))
            → IfOk result (λ done. AreFaultless done.1) }
        ensures steady { is_steady F.is_steady F.Cell.is_steady (disk_of self.new)
            ≡ is_steady F.is_steady F.Cell.is_steady (disk_of self.old) }
        ensures unchanged { OnErr result ((rows_of self.new ≡ rows_of self.old)
            × (disk_of self.new ≡ disk_of self.old)) }
    {
        known_request(arrival);
        self.tables.connections.are_distinct();
        self.tables.connections.reserve(arrival.conn, 1)?;
        let password = password_in(&arrival.request)?;
        let (answer, sends, read, fate) = self.call(arrival)?.into_parts();
        let work = work_of(&self.tables, &arrival.request, &answer, password);
        self.reply(arrival.conn, &arrival.request, answer, sends);
        Ok((work, Fates::of(None, read, fate)))
    }

    // The reply to a request waits for its connection, if it is wanted, and what is sent after it waits. It
    // takes no memory.
    fn reply(&mut self, conn: ConnId, request: &Request, answer: Answer, sends: Items<Delivery>)
        requires { HasRoomToReply conn sends self.old.tables.connections.rooms }
        ensures rows { rows_of self.new ≡ with_rows
            (handed (spread (rows_of self.old).connections.rows (replies conn request.now answer)
            ++ sends) (rows_of self.old).connections.rows) (rows_of self.old) }
        ensures disk { disk_of self.new ≡ disk_of self.old }
    {
        if !request.wants_reply {
            self.tables.connections.deliver(sends.into_vec());
            return;
        }
        self.tables
            .connections
            .push(conn, message(request.serial, answer));
        self.tables.connections.deliver(sends.into_vec());
    }

    // Performs the row of a request's call, or answers the fault of its message. There is room for the reply
    // and for what is sent after it.
    fn call(&mut self, arrival: &Arrival) -> Result<Done, OutOfMemory>
        requires { HasRoom 1 arrival.now.conn self.old.tables.connections.rooms }
        ensures leads { IfOk result (Leads F.is_honest F.is_steady F.faults F.images
            F.may_leave F.made F.Cell.is_honest F.Cell.is_steady F.Cell.faults
            F.Cell.moment F.Cell.left_since F.Cell.may_leave arrival.entry.now.conn
            (brought_by arrival.entry.now)
            (plan_of arrival.entry.now.salt arrival.entry.now.request.call
            (asked arrival.entry.now.conn (brought_by arrival.entry.now) (rows_of self.old)))
            (rows_of self.old) (rows_of self.new) (disk_of self.old) (disk_of self.new)) }
        ensures room { IfOk result (λ done.
            HasRoomToReply arrival.entry.now.conn done.sends self.new.tables.connections.rooms) }
        ensures unchanged { OnErr result ((rows_of self.new ≡ rows_of self.old)
            × (disk_of self.new ≡ disk_of self.old)) }
    {
        match &arrival.request.call {
            Ok(call) => self.perform(arrival.conn, call, arrival.now, arrival.salt),
            Err(fault) => Ok(refused(self.tables.alloc, fault.error())),
        }
    }

    // Performs the row of a call. There is room for the reply and for what is sent after it.
    #[tactic(auto, using(crate::proofs::RoomLemmas::room_left, crate::proofs::RoomLemmas::room_kept))]
    fn perform(
        &mut self,
        conn: ConnId,
        call: &Call,
        now: u64,
        salt: [u8; 8],
    ) -> Result<Done, OutOfMemory>
        requires { HasRoom 1 conn self.old.tables.connections.rooms }
        ensures leads { IfOk result (Leads F.is_honest F.is_steady F.faults F.images
            F.may_leave F.made F.Cell.is_honest F.Cell.is_steady F.Cell.faults
            F.Cell.moment F.Cell.left_since F.Cell.may_leave conn (brought_with now (Ok call.now))
            (row_of salt call.now (asked conn (brought_with now (Ok call.now)) (rows_of self.old)))
            (rows_of self.old) (rows_of self.new) (disk_of self.old) (disk_of self.new)) }
        ensures room { IfOk result (λ done.
            HasRoomToReply conn done.sends self.new.tables.connections.rooms) }
        ensures unchanged { OnErr result ((rows_of self.new ≡ rows_of self.old)
            × (disk_of self.new ≡ disk_of self.old)) }
    {
        match call {
            Call::Ping => Ok(self.tables.answered(Ok(Body::Empty))),
            Call::OpenSession { algorithm } => self.tables.open_session(conn, algorithm),
            Call::CloseSession { session } => Ok(self.tables.close_session(conn, *session)),
            Call::SearchItems { wanted } => {
                let answer = self.tables.search_items(conn, wanted)?;
                Ok(self.tables.answered(answer))
            }
            Call::ReadAlias { name } => {
                let answer = self.tables.read_alias(conn, name)?;
                Ok(self.tables.answered(answer))
            }
            Call::Lock { objects } => self.tables.lock(conn, objects.as_slice()),
            Call::GetSecrets { items, session } => {
                let answer = self.tables.get_secrets(conn, items.as_slice(), *session)?;
                Ok(self.tables.answered(answer))
            }
            Call::SearchCollection { collection, wanted } => {
                let answer = self.tables.search_collection(conn, collection, wanted)?;
                Ok(self.tables.answered(answer))
            }
            Call::GetSecret {
                stem,
                item,
                session,
            } => {
                let answer = self.tables.get_secret(conn, stem, *item, *session)?;
                Ok(self.tables.answered(answer))
            }
            Call::Get { object, property } => {
                let answer = self.tables.get(conn, object, *property)?;
                Ok(self.tables.answered(answer))
            }
            Call::GetAll { object, properties } => {
                let answer = self.tables.get_all(conn, object, properties.as_slice())?;
                Ok(self.tables.answered(answer))
            }
            Call::SetCollectionLabel { collection, label } => self
                .tables
                .set_collection_label(conn, collection, label, now),
            Call::SetItemLabel { stem, item, label } => {
                self.tables.set_item_label(conn, stem, *item, label, now)
            }
            Call::SetAttributes {
                stem,
                item,
                attributes,
            } => self
                .tables
                .set_attributes(conn, stem, *item, attributes, now),
            Call::CreateCollection { label, alias } => {
                self.tables.create_collection(conn, label, alias, salt)
            }
            Call::Unlock { objects } => self.tables.unlock(conn, objects.as_slice()),
            Call::CreateItem {
                collection,
                label,
                attributes,
                secret,
                replace,
            } => self
                .tables
                .create_item(conn, collection, label, attributes, secret, *replace, now),
            Call::DeleteCollection { collection } => self
                .tables
                .delete_collection(conn, collection),
            Call::ChangePassword { collection } => {
                self.tables.change_password(conn, collection, salt)
            }
            Call::DeleteItem { stem, item } => self.tables.delete_item(conn, stem, *item, now),
            Call::SetSecret { stem, item, secret } => {
                self.tables.set_secret(conn, stem, *item, secret, now)
            }
            Call::SetAlias { alias, object } => self.tables.set_alias(conn, alias, object),
            Call::Prompt { prompt } => self.tables.call_prompt(conn, *prompt),
            Call::Dismiss { prompt } => self.tables.dismiss(conn, *prompt),
            Call::Register => self.tables.register(conn),
            Call::Answer { prompt, round, .. } => answer_prompt(
                &mut self.tables,
                conn,
                *prompt,
                *round,
            ),
            Call::Refuse { prompt, round } => self.tables.refuse(conn, *prompt, *round),
            Call::Unregister => Ok(self.tables.unregister(conn)),
        }
    }

    /// While no call runs, a crash leaves of a collection's file what is known of it: its image, or one of
    /// the two that it may have if it is in doubt. It leaves no file of a stem without a collection whose
    /// slot is kept. It does nothing.
    pub fn untouched(&self, stem: &Stem)
        ensures { IfSome (slot_at stem.now (disk_of self.now)) (LeavesKnown
            F.Cell.is_honest F.Cell.moment F.Cell.left_since
            (file_at stem.now (rows_of self.now).collections)) }
    {
        self.tables.disk.untouched(stem);
    }

    /// While no call runs, a crash leaves of the file of the aliases what is known of it: its image, or one
    /// of the two that it may have if it is in doubt. It does nothing.
    pub fn untouched_aliases(&self)
        ensures { IfSome (rows_of self.now).aliases (λ rows. LeavesKnown F.Cell.is_honest
            F.Cell.moment F.Cell.left_since rows.file (disk_of self.now).aliases) }
    {
        self.tables.disk.untouched_aliases();
    }

    /// While no call runs, a crash leaves no file of a slot that is kept without a collection. It does
    /// nothing.
    pub fn untouched_kept(&self)
        ensures { AllByRecursion (λ kept. LeavesKnown F.Cell.is_honest F.Cell.moment
            F.Cell.left_since (Known None) kept.1) (disk_of self.now).spare }
    {
        self.tables.disk.untouched_kept();
    }

    /// Marks that a connection asks no more. It takes no memory.
    pub fn leave(&mut self, conn: ConnId)
        requires { Fits (rows_of self.old) (Event.Leave conn) }
        ensures stepped { rows_of self.new ≡ step (rows_of self.old) (Event.Leave conn) }
        ensures disk { disk_of self.new ≡ disk_of self.old }
    {
        self.tables.connections.leave(conn);
    }

    /// Takes what waits for a connection. It takes no memory.
    pub fn take(&mut self, conn: ConnId) -> Items<Out>
        requires { Fits (rows_of self.old) (Event.Take conn) }
        ensures outs { result ≡ waiting_for conn (rows_of self.old).connections.rows }
        ensures stepped { rows_of self.new ≡ step (rows_of self.old) (Event.Take conn) }
        ensures disk { disk_of self.new ≡ disk_of self.old }
    {
        self.tables.connections.take(conn)
    }

    /// Removes a connection that is gone, and with it its sessions and its prompts, and the agent if it was
    /// that. It takes no memory.
    pub fn gone(&mut self, conn: ConnId)
        requires { Fits (rows_of self.old) (Event.Gone conn) }
        ensures stepped { rows_of self.new ≡ step (rows_of self.old) (Event.Gone conn) }
        ensures disk { disk_of self.new ≡ disk_of self.old }
    {
        self.tables.connections.remove(conn);
        self.tables.sessions.gone(conn);
        self.tables.prompts.gone(conn);
    }

    /// The connection's status, or None if it isn't there. It takes no memory.
    pub fn desk(&self, conn: ConnId) -> Option<DeskRow>
        ensures { result ≡ desk_of conn (rows_of self.now).connections.rows }
    {
        self.tables.connections.desk(conn)
    }

    /// A copy of the connections, the sessions and the prompts, as plain data, made in one pass over them.
    pub fn rows(&self) -> Result<Rows, OutOfMemory>
        ensures connections { IfOk result (λ rows.
            rows.connections ≡ (rows_of self.now).connections) }
        ensures sessions { IfOk result (λ rows. rows.sessions ≡ (rows_of self.now).sessions) }
        ensures prompts { IfOk result (λ rows. rows.prompts ≡ (rows_of self.now).prompts) }
    {
        Ok(Rows {
            connections: self.tables.connections.rows()?,
            sessions: self.tables.sessions.rows()?,
            prompts: self.tables.prompts.rows()?,
        })
    }
}

// What the types of a request's moment, of its salt and of its call's arguments guarantee. It does nothing.
fn known_request(arrival: &Arrival)
    ensures moment { arrival.entry.now.now < 2 ^ 64 }
    ensures salt { IsSalt arrival.entry.now.salt }
    ensures types { HasTypes arrival.entry.now.request.call }
{
    let _moment = arrival.now;
    known_salt(&arrival.salt);
    match &arrival.request.call {
        Ok(
            Call::CreateItem {
                label,
                attributes,
                secret,
                ..
            },
        ) => {
            known_item(label, attributes);
            known_secret(&secret.value, &secret.content);
        }
        Ok(Call::SetSecret { secret, .. }) => known_secret(&secret.value, &secret.content),
        Ok(Call::SetCollectionLabel { label, .. }) => known_text(label),
        Ok(Call::SetItemLabel { label, .. }) => known_text(label),
        Ok(Call::SetAttributes { attributes, .. }) => known_attributes(attributes),
        Ok(Call::CreateCollection { label, alias }) => {
            known_text(label);
            known_name(alias);
        }
        Ok(Call::SetAlias { alias, .. }) => known_alias(alias.as_text()),
        Ok(Call::Answer { password, .. }) => known_bytes(password.as_slice()),
        _ => {}
    }
}

// What the type of an alias guarantees, if one is given. It does nothing.
fn known_name(alias: &Option<AliasName>)
    ensures { IsTypedName alias.now }
{
    if let Some(alias) = alias {
        known_alias(alias.as_text());
    }
}

/// A law: what the type of the random bytes guarantees. The call does nothing.
pub fn known_salt(salt: &[u8; 8])
    ensures { IsSalt salt.now }
{
    known_bytes(salt.as_slice());
}

// The message that answers the call with this serial.
fn message(serial: Serial, answer: Answer) -> Out
    ensures { result ≡ message_of serial answer }
{
    match answer {
        Ok(body) => Out::Return { to: serial, body },
        Err(name) => Out::Error { to: serial, name },
    }
}
