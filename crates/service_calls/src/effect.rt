// What calls lock, begin or store, after the one test of the size of their return. The signals of that are made, and
// there is room for them, before anything changes.
ghost use Rattle.std.specs.Prelude.{◌≡◌, List, ℕ, Some, map, IfOk, OnErr, true};
ghost use Rattle.kr_base.specs.declared.ids.ConnId.{ConnId};
ghost use Rattle.service_calls.specs.Done.{HasRoomToReply, Leads};
ghost use Rattle.service_calls.specs.Effect.{IsReady, Plans};
ghost use Rattle.service_calls.specs.Rows.{disk_of, rows_of};
ghost use Rattle.service_events.specs.CollectionCalls.{storing};
ghost use Rattle.service_events.specs.Plan.{Lock_collection, Plan, answered};
ghost use Rattle.service_events.specs.PublicBody.{PublicBody, body_with};
ghost use Rattle.service_events.specs.Run.{asked, is_small, performed, performed_all};
ghost use Rattle.service_events.specs.ServiceCalls.{with_new_prompt};
ghost use Rattle.service_events.specs.service_tables.specs.Connections.{HasRoom};
ghost use Rattle.service_events.specs.service_tables.specs.Storing.{Brought, Edit, answered_at, change_of, storable_at};

use crate::Tables;
use crate::answer::bounded;
use crate::storing::{Done, ended, refused, sending, unstored};
use kr_base::{ConnId, OutOfMemory, Stem};
use kr_outside::Folder;
use prompt_state::{PromptKind, PromptRefused};
use service_events::collection_store::{Change, Changed};
use service_events::secret_calls::{Body, ErrorName};
use service_events::service_prompts::{change_signals, lock_signals};
use std::alloc::AllocError;
use stem_choice::UsedStems;

/// The effect of a call whose return may be too large.
#[derive(Drop)]
pub enum Effect<'a> {
    /// It locks these collections, in byte order of their stems.
    Lock(UsedStems),
    /// It begins a prompt of this kind, unless the caller can begin none.
    Begin(PromptKind),
    /// It stores an edit of a collection, unless the files would be too large.
    Store {
        /// The stem of the collection.
        stem: &'a Stem,
        /// The edit, with the value that the request brings.
        change: Change,
        /// What the edit does.
        answer: Changed,
        /// The moment of the request.
        now: u64,
    },
}

impl<F: Folder> Tables<F> {
    // Locks a collection. It needs no memory.
    fn lock_one(&mut self, stem: &Stem)
        ensures rows { (conn : ConnId) → rows_of self.new
            ≡ performed conn (Lock_collection stem.now) (rows_of self.old) }
        ensures room { self.new.connections ≡ self.old.connections }
        ensures disk { disk_of self.new ≡ disk_of self.old }
    {
        self.disk.collections.lock(stem);
    }

    // Locks these collections. It needs no memory.
    fn lock_all(&mut self, stems: &[Stem])
        ensures rows { (conn : ConnId) → rows_of self.new
            ≡ performed_all conn (map Lock_collection stems.now) (rows_of self.old) }
        ensures room { self.new.connections ≡ self.old.connections }
        ensures disk { disk_of self.new ≡ disk_of self.old }
    {
        for stem in stems {
            self.lock_one(stem);
        }
    }

    // Locks these collections, and returns a body that is small enough. All memory is taken before a collection is
    // locked.
    fn lock_small(
        &mut self,
        conn: ConnId,
        body: Body,
        stems: &UsedStems,
    ) -> Result<Done, OutOfMemory>
        requires { is_small body ≡ true }
        ensures leads { IfOk result (λ done. (brought : Brought) (its : PublicBody)
            → body ≡ body_with its
            → Leads F.is_honest F.is_steady F.faults F.images
            F.may_leave F.made F.Cell.is_honest F.Cell.is_steady
            F.Cell.faults F.Cell.moment
            F.Cell.left_since F.Cell.may_leave conn brought
            (answered its (map Lock_collection stems.now.stems))
            (rows_of self.old) (rows_of self.new) (disk_of self.old) (disk_of self.new) done) }
        ensures room { IfOk result (λ done.
            HasRoomToReply conn done.sends self.new.connections.rooms) }
        ensures unchanged { OnErr result ((rows_of self.new ≡ rows_of self.old)
            × (disk_of self.new ≡ disk_of self.old)) }
    {
        let stems = stems.as_slice();
        let signals = self.closing_signals(stems)?;
        let sends = self.announced(signals)?;
        self.connections.reserve_for(conn, &sends)?;
        self.lock_all(stems);
        Ok(sending(Ok(body), sends))
    }

    // Begins a prompt, and returns a body that is small enough.
    fn begin_small(
        &mut self,
        conn: ConnId,
        body: Body,
        kind: PromptKind,
    ) -> Result<Done, OutOfMemory>
        requires small { is_small body ≡ true }
        requires room { HasRoom 1 conn self.old.connections.rooms }
        ensures leads { IfOk result (λ done. (brought : Brought) (its : PublicBody)
            → body ≡ body_with its
            → Leads F.is_honest F.is_steady F.faults F.images
            F.may_leave F.made F.Cell.is_honest F.Cell.is_steady
            F.Cell.faults F.Cell.moment
            F.Cell.left_since F.Cell.may_leave conn brought
            (with_new_prompt true (λ _. its) kind (asked conn brought (rows_of self.old)))
            (rows_of self.old) (rows_of self.new) (disk_of self.old) (disk_of self.new) done) }
        ensures room { IfOk result (λ done.
            HasRoomToReply conn done.sends self.new.connections.rooms) }
        ensures unchanged { OnErr result ((rows_of self.new ≡ rows_of self.old)
            × (disk_of self.new ≡ disk_of self.old)) }
    {
        match self.prompts.begin(conn, kind) {
            Ok(_) => Ok(unstored(self.alloc, Ok(body))),
            Err(PromptRefused::OutOfMemory) => Err(AllocError),
            Err(_) => Ok(refused(self.alloc, ErrorName::LimitsExceeded)),
        }
    }

    // Stores an edit of a collection, and returns a body that is small enough. All memory is taken before the first
    // call of the device.
    fn store_small(
        &mut self,
        conn: ConnId,
        body: Body,
        stem: &Stem,
        change: Change,
        answer: Changed,
        now: u64,
    ) -> Result<Done, OutOfMemory>
        requires small { is_small body ≡ true }
        requires answered { answered_at stem.now change now (rows_of self.old).collections
            ≡ Some answer }
        ensures leads { IfOk result (λ done. (edit : Edit) (value : List ℕ) (its : PublicBody)
            → body ≡ body_with its
            → change ≡ change_of value edit
            → Leads F.is_honest F.is_steady F.faults F.images
            F.may_leave F.made F.Cell.is_honest F.Cell.is_steady
            F.Cell.faults F.Cell.moment
            F.Cell.left_since F.Cell.may_leave conn (record { now = now; value = value })
            (storing stem.now edit (λ _. its)
            (storable_at stem.now change now (rows_of self.old).collections))
            (rows_of self.old) (rows_of self.new) (disk_of self.old) (disk_of self.new) done) }
        ensures room { IfOk result (λ done.
            HasRoomToReply conn done.sends self.new.connections.rooms) }
        ensures unchanged { OnErr result ((rows_of self.new ≡ rows_of self.old)
            × (disk_of self.new ≡ disk_of self.old)) }
    {
        let changed = change_signals(self.alloc, stem, &change, answer)?;
        let closed = lock_signals(self.alloc, stem, true)?;
        let said = self.prepare_said(conn, changed, closed)?;
        let stored = self.disk.store(stem, change, now)?;
        match stored {
            Some(fate) => Ok(ended(body, fate, said.by(self.alloc, fate))),
            None => Ok(refused(self.alloc, ErrorName::LimitsExceeded)),
        }
    }

    // Performs an effect, and returns a body that is small enough.
    fn perform_small(
        &mut self,
        conn: ConnId,
        body: Body,
        effect: Effect<'_>,
    ) -> Result<Done, OutOfMemory>
        requires small { is_small body ≡ true }
        requires ready { IsReady effect (rows_of self.old) }
        requires room { HasRoom 1 conn self.old.connections.rooms }
        ensures leads { IfOk result (λ done. (brought : Brought) (its : PublicBody) (plan : Plan)
            → body ≡ body_with its
            → Plans conn brought (rows_of self.old) its effect.entry plan
            → Leads F.is_honest F.is_steady F.faults F.images
            F.may_leave F.made F.Cell.is_honest F.Cell.is_steady
            F.Cell.faults F.Cell.moment
            F.Cell.left_since F.Cell.may_leave conn brought plan
            (rows_of self.old) (rows_of self.new) (disk_of self.old) (disk_of self.new) done) }
        ensures room { IfOk result (λ done.
            HasRoomToReply conn done.sends self.new.connections.rooms) }
        ensures unchanged { OnErr result ((rows_of self.new ≡ rows_of self.old)
            × (disk_of self.new ≡ disk_of self.old)) }
    {
        match effect {
            Effect::Lock(stems) => self.lock_small(conn, body, &stems),
            Effect::Begin(kind) => self.begin_small(conn, body, kind),
            Effect::Store {
                stem,
                change,
                answer,
                now,
            } => self.store_small(conn, body, stem, change, answer, now),
        }
    }

    /// Performs an effect of the caller's call and returns this body, if the body is small enough. Otherwise the
    /// answer is LimitsExceeded, and nothing changes. Calls lock collections, begin prompts and store edits by
    /// this function alone, which makes the signals of that.
    pub fn perform_if_small(
        &mut self,
        conn: ConnId,
        body: Body,
        effect: Effect<'_>,
    ) -> Result<Done, OutOfMemory>
        requires ready { IsReady effect (rows_of self.old) }
        requires room { HasRoom 1 conn self.old.connections.rooms }
        ensures leads { IfOk result (λ done. (brought : Brought) (its : PublicBody) (plan : Plan)
            → body ≡ body_with its
            → Plans conn brought (rows_of self.old) its effect.entry plan
            → Leads F.is_honest F.is_steady F.faults F.images
            F.may_leave F.made F.Cell.is_honest F.Cell.is_steady
            F.Cell.faults F.Cell.moment
            F.Cell.left_since F.Cell.may_leave conn brought plan
            (rows_of self.old) (rows_of self.new) (disk_of self.old) (disk_of self.new) done) }
        ensures room { IfOk result (λ done.
            HasRoomToReply conn done.sends self.new.connections.rooms) }
        ensures unchanged { OnErr result ((rows_of self.new ≡ rows_of self.old)
            × (disk_of self.new ≡ disk_of self.old)) }
    {
        match bounded(Ok(body)) {
            Ok(body) => self.perform_small(conn, body, effect),
            Err(name) => Ok(refused(self.alloc, name)),
        }
    }
}
