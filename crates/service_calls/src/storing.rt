// Calls that store something: each edits a collection, or removes one, and is answered by how that ended.
ghost use Rattle.std.specs.Prelude.{◌≡◌, ℕ, List, [], None, Some, IfOk, OnErr, Err, Ok};
ghost use Rattle.service_events.specs.secret_calls.specs.declared.out.Body.TheVariants as body;
ghost use Rattle.kr_base.specs.declared.ids.ConnId.{ConnId};
ghost use Rattle.service_events.specs.secret_calls.specs.declared.out.ErrorName.TheVariants.{IOError};
ghost use Rattle.service_events.specs.service_tables.specs.Storing.{Add_item, Brought, Edit, Set_attributes, Set_label, Set_name, change_of, item_in, storable_at};
ghost use Rattle.kr_names.specs.Path.{path_text};
ghost use Rattle.service_events.specs.CollectionCalls.{create_item, delete_collection, item_named, secret_stored, storing};
ghost use Rattle.service_events.specs.PropertyCalls.{editing, editing_item, set_attributes, set_collection_label, set_item_label};
ghost use Rattle.service_events.specs.ItemCalls.{delete_item, set_secret};
ghost use Rattle.service_calls.specs.Rows.{disk_of, rows_of};
ghost use Rattle.service_events.specs.PublicBody.{body_with};
ghost use Rattle.service_events.specs.Run.{asked};
ghost use Rattle.service_calls.specs.Done.{HasRoomToReply, Leads, answer_by, body_of};
ghost use Rattle.service_events.specs.service_tables.specs.Connections.{HasRoom};

use crate::Tables;
use crate::answer::Answer;
use crate::effect::Effect;
use kr_base::{Attributes, ConnId, ItemId, OutOfMemory, SessionId, Stem, Text};
use kr_items::Items;
use kr_names::{ObjectName, path_of};
use kr_outside::Folder;
use service_events::collection_store::{Change, Changed};
use service_events::secret_calls::{Body, ErrorName, Secret};
use service_events::service_prompts::{gone_signals, lock_signals};
use service_events::service_tables::{Delivery, ReadFate, StoreFate, item_path};
use std::alloc::Global;

/// The most bytes that the content type of a secret may have.
const MOST_CONTENT: usize = 1_024;

/// What an edit returns.
#[derive(Clone, Copy, Drop)]
pub enum Returned {
    /// The path of the item, and that no prompt is needed.
    Item,
    /// That no prompt is needed.
    NoPrompt,
    /// Nothing.
    Nothing,
}

/// What a call led to: its answer, what is sent after the reply, and, if it asked for them, how the resolve of a
/// file in doubt ended, and after that the storing of a file.
#[derive(Drop)]
pub struct Done {
    /// The answer.
    pub answer: Answer,
    /// What is sent after the reply, in order.
    pub sends: Items<Delivery>,
    /// How the resolve ended.
    pub read: Option<ReadFate>,
    /// How the storing ended.
    pub fate: Option<StoreFate>,
}

impl Done {
    /// The answer, what is sent after the reply, and how the resolve and the storing ended.
    pub fn into_parts(self) -> (Answer, Items<Delivery>, Option<ReadFate>, Option<StoreFate>)
        ensures answer { result.0 ≡ self.answer }
        ensures sends { result.1 ≡ self.sends }
        ensures read { result.2 ≡ self.read }
        ensures fate { result.3 ≡ self.fate }
    {
        (self.answer, self.sends, self.read, self.fate)
    }

    /// The same after a resolve that ended so.
    pub fn after(self, read: ReadFate) -> Done
        ensures { result ≡ record {
          answer = self.answer;
          sends = self.sends;
          read = Some read;
          fate = self.fate;
        } }
    {
        Done {
            answer: self.answer,
            sends: self.sends,
            read: Some(read),
            fate: self.fate,
        }
    }
}

impl Done {
    /// The same with an empty return in place of its answer, and this sent after it.
    pub fn followed(self, sends: Vec<Delivery>) -> Done
        ensures { result ≡ record {
          answer = Ok body.Empty;
          sends = sends.items;
          read = self.read;
          fate = self.fate;
        } }
    {
        Done {
            answer: Ok(Body::Empty),
            sends: Items::new(sends),
            read: self.read,
            fate: self.fate,
        }
    }
}

/// A call that asked for a resolve, which failed.
pub fn unread(alloc: Global, read: ReadFate) -> Done
    ensures { result ≡ record { answer = Err IOError; sends = []; read = Some read; fate = None } }
{
    refused(alloc, ErrorName::IOError).after(read)
}

/// A call that asked to store nothing, after whose reply this is sent.
pub fn sending(answer: Answer, sends: Vec<Delivery>) -> Done
    ensures { result
        ≡ record { answer = answer; sends = sends.items; read = None; fate = None } }
{
    Done {
        answer,
        sends: Items::new(sends),
        read: None,
        fate: None,
    }
}

/// A call that asked to store nothing, and sends its reply alone.
pub fn unstored(alloc: Global, answer: Answer) -> Done
    ensures { result ≡ record { answer = answer; sends = []; read = None; fate = None } }
{
    sending(answer, Vec::new(alloc))
}

/// A call that is refused before anything is stored.
pub fn refused(alloc: Global, name: ErrorName) -> Done
    ensures { result ≡ record { answer = Err name; sends = []; read = None; fate = None } }
{
    unstored(alloc, Err(name))
}

/// A call that asked to store a file, after whose reply this is sent.
pub fn ended(body: Body, fate: StoreFate, sends: Vec<Delivery>) -> Done
    ensures { result ≡ record {
      answer = answer_by body fate;
      sends = sends.items;
      read = None;
      fate = Some fate;
    } }
{
    let answer = match fate {
        StoreFate::Stored => Ok(body),
        StoreFate::Before => Err(ErrorName::IOError),
        StoreFate::Unsure => Err(ErrorName::IOError),
    };
    Done {
        answer,
        sends: Items::new(sends),
        read: None,
        fate: Some(fate),
    }
}

// The item of what an edit does, if it is of one.
fn item_in(answer: Changed) -> Option<ItemId>
    ensures { result ≡ item_in answer }
{
    match answer {
        Changed::Made(item) => Some(item),
        Changed::Changed(item) => Some(item),
        Changed::Removed(item) => Some(item),
        Changed::Named => None,
    }
}

// The path of that item, or of no object.
fn path_named(alloc: Global, stem: &Stem, item: Option<ItemId>) -> Result<Text, OutOfMemory>
    ensures { IfOk result (λ path. path ≡ path_text (item_named stem.now item)) }
{
    match item {
        Some(item) => item_path(alloc, stem, item),
        None => path_of(alloc, &ObjectName::Nothing),
    }
}

// The values that an edit returns.
fn body_of(
    alloc: Global,
    returned: Returned,
    stem: &Stem,
    answer: Changed,
) -> Result<Body, OutOfMemory>
    ensures { IfOk result (λ body. body ≡ body_with (body_of returned stem.now answer)) }
{
    match returned {
        Returned::Item => Ok(Body::ObjectAndPrompt {
            object: path_named(alloc, stem, item_in(answer))?,
            prompt: None,
        }),
        Returned::NoPrompt => Ok(Body::Object(path_of(alloc, &ObjectName::Nothing)?)),
        Returned::Nothing => Ok(Body::Empty),
    }
}

impl<F: Folder> Tables<F> {
    // Stores an edit of a collection: `change` is the edit with the value that the request brings.
    fn store_edit(
        &mut self,
        conn: ConnId,
        stem: &Stem,
        change: Change,
        returned: Returned,
        now: u64,
    ) -> Result<Done, OutOfMemory>
        requires { HasRoom 1 conn self.old.connections.rooms }
        ensures leads { IfOk result (λ done. (edit : Edit) (value : List ℕ)
            → change ≡ change_of value edit
            → Leads F.is_honest F.is_steady F.faults F.images
            F.may_leave F.made F.Cell.is_honest F.Cell.is_steady
            F.Cell.faults F.Cell.moment
            F.Cell.left_since F.Cell.may_leave conn (record { now = now; value = value })
            (storing stem.now edit (body_of returned stem.now)
            (storable_at stem.now change now (rows_of self.old).collections))
            (rows_of self.old) (rows_of self.new) (disk_of self.old) (disk_of self.new) done) }
        ensures room { IfOk result (λ done.
            HasRoomToReply conn done.sends self.new.connections.rooms) }
        ensures unchanged { OnErr result ((rows_of self.new ≡ rows_of self.old)
            × (disk_of self.new ≡ disk_of self.old)) }
    {
        let Some(answer) = self.disk.answer_to(stem, &change) else {
            return Ok(refused(self.alloc, ErrorName::LimitsExceeded));
        };
        let body = body_of(self.alloc, returned, stem, answer)?;
        self.perform_if_small(
            conn,
            body,
            Effect::Store {
                stem,
                change,
                answer,
                now,
            },
        )
    }

    // Stores an edit that brings a secret with this content type, for a session of the caller.
    fn store_secret(
        &mut self,
        conn: ConnId,
        session: Option<SessionId>,
        stem: &Stem,
        content: &Text,
        change: Change,
        returned: Returned,
        now: u64,
    ) -> Result<Done, OutOfMemory>
        requires { HasRoom 1 conn self.old.connections.rooms }
        ensures leads { IfOk result (λ done. (edit : Edit) (value : List ℕ)
            → change ≡ change_of value edit
            → Leads F.is_honest F.is_steady F.faults F.images
            F.may_leave F.made F.Cell.is_honest F.Cell.is_steady
            F.Cell.faults F.Cell.moment
            F.Cell.left_since F.Cell.may_leave conn (record { now = now; value = value })
            (secret_stored session stem.now content.now edit (body_of returned stem.now)
            (asked conn (record { now = now; value = value }) (rows_of self.old)))
            (rows_of self.old) (rows_of self.new) (disk_of self.old) (disk_of self.new) done) }
        ensures room { IfOk result (λ done.
            HasRoomToReply conn done.sends self.new.connections.rooms) }
        ensures unchanged { OnErr result ((rows_of self.new ≡ rows_of self.old)
            × (disk_of self.new ≡ disk_of self.old)) }
    {
        let Some(session) = session else {
            return Ok(refused(self.alloc, ErrorName::NoSession));
        };
        if !self.sessions.owned_by(session, conn) {
            return Ok(refused(self.alloc, ErrorName::NoSession));
        }
        if !self.disk.collections.is_open(stem) {
            return Ok(refused(self.alloc, ErrorName::IsLocked));
        }
        if content.len() > MOST_CONTENT {
            return Ok(refused(self.alloc, ErrorName::LimitsExceeded));
        }
        self.store_edit(conn, stem, change, returned, now)
    }

    /// Performs the row of CreateItem. All memory is taken before the first call of the device.
    pub fn create_item(
        &mut self,
        conn: ConnId,
        collection: &ObjectName,
        label: &Text,
        attributes: &Attributes,
        secret: &Secret,
        replace: bool,
        now: u64,
    ) -> Result<Done, OutOfMemory>
        requires { HasRoom 1 conn self.old.connections.rooms }
        ensures leads { IfOk result (Leads F.is_honest F.is_steady F.faults F.images
            F.may_leave F.made F.Cell.is_honest F.Cell.is_steady F.Cell.faults
            F.Cell.moment F.Cell.left_since F.Cell.may_leave conn
            (record { now = now; value = secret.now.value })
            (create_item collection.now
            (Add_item label.now attributes.now secret.now.content replace)
            secret.now.session secret.now.content
            (asked conn (record { now = now; value = secret.now.value }) (rows_of self.old)))
            (rows_of self.old) (rows_of self.new) (disk_of self.old) (disk_of self.new)) }
        ensures room { IfOk result (λ done.
            HasRoomToReply conn done.sends self.new.connections.rooms) }
        ensures unchanged { OnErr result ((rows_of self.new ≡ rows_of self.old)
            × (disk_of self.new ≡ disk_of self.old)) }
    {
        let Some(stem) = self.disk.collection_named(collection) else {
            return Ok(refused(self.alloc, ErrorName::NoSuchObject));
        };
        let stem = stem.copy()?;
        let change = Change::Add {
            label: label.copy()?,
            attributes: attributes.copy()?,
            value: secret.value.copy()?,
            content: secret.content.copy()?,
            replace,
        };
        self.store_secret(
            conn,
            secret.session,
            &stem,
            &secret.content,
            change,
            Returned::Item,
            now,
        )
    }

    /// Performs the row of Delete of a collection. All memory is taken before the first call of the device.
    pub fn delete_collection(
        &mut self,
        conn: ConnId,
        collection: &ObjectName,
    ) -> Result<Done, OutOfMemory>
        requires { HasRoom 1 conn self.old.connections.rooms }
        ensures leads { IfOk result (λ done. (brought : Brought)
            → Leads F.is_honest F.is_steady F.faults F.images
            F.may_leave F.made F.Cell.is_honest F.Cell.is_steady
            F.Cell.faults F.Cell.moment
            F.Cell.left_since F.Cell.may_leave conn brought
            (delete_collection collection.now (asked conn brought (rows_of self.old)))
            (rows_of self.old) (rows_of self.new) (disk_of self.old) (disk_of self.new) done) }
        ensures room { IfOk result (λ done.
            HasRoomToReply conn done.sends self.new.connections.rooms) }
        ensures unchanged { OnErr result ((rows_of self.new ≡ rows_of self.old)
            × (disk_of self.new ≡ disk_of self.old)) }
    {
        let Some(stem) = self.disk.collection_named(collection) else {
            return Ok(refused(self.alloc, ErrorName::NoSuchObject));
        };
        let stem = stem.copy()?;
        if !self.disk.collections.is_open(&stem) {
            return Ok(refused(self.alloc, ErrorName::IsLocked));
        }
        let body = Body::Object(path_of(self.alloc, &ObjectName::Nothing)?);
        let gone = gone_signals(self.alloc, &stem)?;
        let closed = lock_signals(self.alloc, &stem, true)?;
        let said = self.prepare_said(conn, gone, closed)?;
        self.disk.reserve_spare()?;
        let fate = self.disk.erase(stem);
        Ok(ended(body, fate, said.by(self.alloc, fate)))
    }

    /// Performs the row of Delete of an item. All memory is taken before the first call of the device.
    pub fn delete_item(
        &mut self,
        conn: ConnId,
        stem: &Stem,
        item: ItemId,
        now: u64,
    ) -> Result<Done, OutOfMemory>
        requires { HasRoom 1 conn self.old.connections.rooms }
        ensures leads { IfOk result (λ done. (value : List ℕ)
            → Leads F.is_honest F.is_steady F.faults F.images
            F.may_leave F.made F.Cell.is_honest F.Cell.is_steady
            F.Cell.faults F.Cell.moment
            F.Cell.left_since F.Cell.may_leave conn (record { now = now; value = value })
            (delete_item stem.now item
            (asked conn (record { now = now; value = value }) (rows_of self.old)))
            (rows_of self.old) (rows_of self.new) (disk_of self.old) (disk_of self.new) done) }
        ensures room { IfOk result (λ done.
            HasRoomToReply conn done.sends self.new.connections.rooms) }
        ensures unchanged { OnErr result ((rows_of self.new ≡ rows_of self.old)
            × (disk_of self.new ≡ disk_of self.old)) }
    {
        if !self.disk.collections.has_item(stem, item) {
            return Ok(refused(self.alloc, ErrorName::NoSuchObject));
        }
        if !self.disk.collections.is_open(stem) {
            return Ok(refused(self.alloc, ErrorName::IsLocked));
        }
        let change = Change::Remove { id: item };
        self.store_edit(conn, stem, change, Returned::NoPrompt, now)
    }

    /// Performs the row of SetSecret. All memory is taken before the first call of the device.
    pub fn set_secret(
        &mut self,
        conn: ConnId,
        stem: &Stem,
        item: ItemId,
        secret: &Secret,
        now: u64,
    ) -> Result<Done, OutOfMemory>
        requires { HasRoom 1 conn self.old.connections.rooms }
        ensures leads { IfOk result (Leads F.is_honest F.is_steady F.faults F.images
            F.may_leave F.made F.Cell.is_honest F.Cell.is_steady F.Cell.faults
            F.Cell.moment F.Cell.left_since F.Cell.may_leave conn
            (record { now = now; value = secret.now.value })
            (set_secret stem.now item secret.now.session secret.now.content
            (asked conn (record { now = now; value = secret.now.value }) (rows_of self.old)))
            (rows_of self.old) (rows_of self.new) (disk_of self.old) (disk_of self.new)) }
        ensures room { IfOk result (λ done.
            HasRoomToReply conn done.sends self.new.connections.rooms) }
        ensures unchanged { OnErr result ((rows_of self.new ≡ rows_of self.old)
            × (disk_of self.new ≡ disk_of self.old)) }
    {
        if !self.disk.collections.has_item(stem, item) {
            return Ok(refused(self.alloc, ErrorName::NoSuchObject));
        }
        let change = Change::SetSecret {
            id: item,
            value: secret.value.copy()?,
            content: secret.content.copy()?,
        };
        self.store_secret(
            conn,
            secret.session,
            stem,
            &secret.content,
            change,
            Returned::Nothing,
            now,
        )
    }

    // Stores an edit of a collection that returns nothing, if the collection is unlocked.
    fn store_if_open(
        &mut self,
        conn: ConnId,
        stem: &Stem,
        change: Change,
        now: u64,
    ) -> Result<Done, OutOfMemory>
        requires { HasRoom 1 conn self.old.connections.rooms }
        ensures leads { IfOk result (λ done. (edit : Edit) (value : List ℕ)
            → change ≡ change_of value edit
            → Leads F.is_honest F.is_steady F.faults F.images
            F.may_leave F.made F.Cell.is_honest F.Cell.is_steady
            F.Cell.faults F.Cell.moment
            F.Cell.left_since F.Cell.may_leave conn (record { now = now; value = value })
            (editing stem.now edit
            (asked conn (record { now = now; value = value }) (rows_of self.old)))
            (rows_of self.old) (rows_of self.new) (disk_of self.old) (disk_of self.new) done) }
        ensures room { IfOk result (λ done.
            HasRoomToReply conn done.sends self.new.connections.rooms) }
        ensures unchanged { OnErr result ((rows_of self.new ≡ rows_of self.old)
            × (disk_of self.new ≡ disk_of self.old)) }
    {
        if !self.disk.collections.is_open(stem) {
            return Ok(refused(self.alloc, ErrorName::IsLocked));
        }
        self.store_edit(conn, stem, change, Returned::Nothing, now)
    }

    // The same for an item, which must be there.
    fn store_of_item(
        &mut self,
        conn: ConnId,
        stem: &Stem,
        item: ItemId,
        change: Change,
        now: u64,
    ) -> Result<Done, OutOfMemory>
        requires { HasRoom 1 conn self.old.connections.rooms }
        ensures leads { IfOk result (λ done. (edit : Edit) (value : List ℕ)
            → change ≡ change_of value edit
            → Leads F.is_honest F.is_steady F.faults F.images
            F.may_leave F.made F.Cell.is_honest F.Cell.is_steady
            F.Cell.faults F.Cell.moment
            F.Cell.left_since F.Cell.may_leave conn (record { now = now; value = value })
            (editing_item stem.now item edit
            (asked conn (record { now = now; value = value }) (rows_of self.old)))
            (rows_of self.old) (rows_of self.new) (disk_of self.old) (disk_of self.new) done) }
        ensures room { IfOk result (λ done.
            HasRoomToReply conn done.sends self.new.connections.rooms) }
        ensures unchanged { OnErr result ((rows_of self.new ≡ rows_of self.old)
            × (disk_of self.new ≡ disk_of self.old)) }
    {
        if !self.disk.collections.has_item(stem, item) {
            return Ok(refused(self.alloc, ErrorName::NoSuchObject));
        }
        self.store_if_open(conn, stem, change, now)
    }

    /// Performs the row of Set of the label of a collection. All memory is taken before the first call of
    /// the device.
    pub fn set_collection_label(
        &mut self,
        conn: ConnId,
        collection: &ObjectName,
        label: &Text,
        now: u64,
    ) -> Result<Done, OutOfMemory>
        requires { HasRoom 1 conn self.old.connections.rooms }
        ensures leads { IfOk result (λ done. (value : List ℕ)
            → Leads F.is_honest F.is_steady F.faults F.images
            F.may_leave F.made F.Cell.is_honest F.Cell.is_steady
            F.Cell.faults F.Cell.moment
            F.Cell.left_since F.Cell.may_leave conn (record { now = now; value = value })
            (set_collection_label collection.now label.now
            (asked conn (record { now = now; value = value }) (rows_of self.old)))
            (rows_of self.old) (rows_of self.new) (disk_of self.old) (disk_of self.new) done) }
        ensures room { IfOk result (λ done.
            HasRoomToReply conn done.sends self.new.connections.rooms) }
        ensures unchanged { OnErr result ((rows_of self.new ≡ rows_of self.old)
            × (disk_of self.new ≡ disk_of self.old)) }
    {
        let Some(stem) = self.disk.collection_named(collection) else {
            return Ok(refused(self.alloc, ErrorName::NoSuchObject));
        };
        let stem = stem.copy()?;
        let label = label.copy()?;
        self.store_if_open(conn, &stem, Change::SetName { label }, now)
    }

    /// Performs the row of Set of the label of an item. All memory is taken before the first call of the
    /// device.
    pub fn set_item_label(
        &mut self,
        conn: ConnId,
        stem: &Stem,
        item: ItemId,
        label: &Text,
        now: u64,
    ) -> Result<Done, OutOfMemory>
        requires { HasRoom 1 conn self.old.connections.rooms }
        ensures leads { IfOk result (λ done. (value : List ℕ)
            → Leads F.is_honest F.is_steady F.faults F.images
            F.may_leave F.made F.Cell.is_honest F.Cell.is_steady
            F.Cell.faults F.Cell.moment
            F.Cell.left_since F.Cell.may_leave conn (record { now = now; value = value })
            (set_item_label stem.now item label.now
            (asked conn (record { now = now; value = value }) (rows_of self.old)))
            (rows_of self.old) (rows_of self.new) (disk_of self.old) (disk_of self.new) done) }
        ensures room { IfOk result (λ done.
            HasRoomToReply conn done.sends self.new.connections.rooms) }
        ensures unchanged { OnErr result ((rows_of self.new ≡ rows_of self.old)
            × (disk_of self.new ≡ disk_of self.old)) }
    {
        let label = label.copy()?;
        self.store_of_item(conn, stem, item, Change::SetLabel { id: item, label }, now)
    }

    /// Performs the row of Set of the attributes of an item. All memory is taken before the first call of
    /// the device.
    pub fn set_attributes(
        &mut self,
        conn: ConnId,
        stem: &Stem,
        item: ItemId,
        attributes: &Attributes,
        now: u64,
    ) -> Result<Done, OutOfMemory>
        requires { HasRoom 1 conn self.old.connections.rooms }
        ensures leads { IfOk result (λ done. (value : List ℕ)
            → Leads F.is_honest F.is_steady F.faults F.images
            F.may_leave F.made F.Cell.is_honest F.Cell.is_steady
            F.Cell.faults F.Cell.moment
            F.Cell.left_since F.Cell.may_leave conn (record { now = now; value = value })
            (set_attributes stem.now item attributes.now
            (asked conn (record { now = now; value = value }) (rows_of self.old)))
            (rows_of self.old) (rows_of self.new) (disk_of self.old) (disk_of self.new) done) }
        ensures room { IfOk result (λ done.
            HasRoomToReply conn done.sends self.new.connections.rooms) }
        ensures unchanged { OnErr result ((rows_of self.new ≡ rows_of self.old)
            × (disk_of self.new ≡ disk_of self.old)) }
    {
        let attributes = attributes.copy()?;
        self.store_of_item(
            conn,
            stem,
            item,
            Change::SetAttributes {
                id: item,
                attributes,
            },
            now,
        )
    }
}
