// The calls of the agent's interface (docs/SERVICE.md, "Interfaces").
ghost use Rattle.std.specs.Prelude.{◌≡◌, ℕ, [], None, IfOk, OnErr, true, false};
ghost use Rattle.prompt_state.specs.Prompts.{IsOfAnswer, is_taken};
ghost use Rattle.service_events.specs.AgentCalls.{error_for, refuse, register, unregister};
ghost use Rattle.service_calls.specs.Rows.{disk_of, rows_of};
ghost use Rattle.service_events.specs.Run.{asked};
ghost use Rattle.service_calls.specs.Done.{HasRoomToReply, Leads};
ghost use Rattle.service_events.specs.service_tables.specs.Connections.{HasRoom};
ghost use Rattle.service_events.specs.service_tables.specs.Storing.{Brought};

use crate::Tables;
use crate::storing::{Done, refused, sending, unstored};
use kr_base::{ConnId, OutOfMemory, PromptId};
use kr_outside::Folder;
use prompt_state::PromptRefused;
use service_events::secret_calls::{Body, ErrorName};
use service_events::service_prompts::asks_sent_to;

/// The error for what the agent says about a prompt that doesn't wait for it.
pub fn error_for(why: PromptRefused) -> ErrorName
    requires { IsOfAnswer why }
    ensures { result ≡ error_for why }
{
    match why {
        PromptRefused::NoPrompt => ErrorName::NoSuchObject,
        PromptRefused::NotAgent => ErrorName::AccessDenied,
        PromptRefused::OldRound => ErrorName::OldRound,
        PromptRefused::TooMany | PromptRefused::AgentTaken | PromptRefused::OutOfMemory => {
            unreachable!()
        }
    }
}

impl<F: Folder> Tables<F> {
    /// Performs the row of Register. All memory is taken before the caller becomes the agent, and none if
    /// another connection is.
    pub fn register(&mut self, conn: ConnId) -> Result<Done, OutOfMemory>
        requires { HasRoom 1 conn self.old.connections.rooms }
        ensures leads { IfOk result (λ done. (brought : Brought)
            → Leads F.is_honest F.is_steady F.faults F.images
            F.may_leave F.made F.Cell.is_honest F.Cell.is_steady
            F.Cell.faults F.Cell.moment
            F.Cell.left_since F.Cell.may_leave conn brought
            (register (asked conn brought (rows_of self.old)))
            (rows_of self.old) (rows_of self.new) (disk_of self.old) (disk_of self.new) done) }
        ensures room { IfOk result (λ done.
            HasRoomToReply conn done.sends self.new.connections.rooms) }

        // A caller that is refused costs no memory.
        ensures memory { OnErr result (is_taken conn (rows_of self.old).prompts.agent ≡ false) }
        ensures idle { is_taken conn (rows_of self.old).prompts.agent ≡ true
            → self.new.connections ≡ self.old.connections }
        ensures unchanged { OnErr result ((rows_of self.new ≡ rows_of self.old)
            × (disk_of self.new ≡ disk_of self.old)) }
    {
        if self.prompts.is_taken(conn) {
            return Ok(refused(self.alloc, ErrorName::AgentTaken));
        }
        let sends = asks_sent_to(self.alloc, &self.disk, &self.prompts, conn)?;
        self.connections.reserve_for(conn, &sends)?;
        match self.prompts.register(conn) {
            Ok(()) => Ok(sending(Ok(Body::Empty), sends)),
            Err(_) => unreachable!(),
        }
    }

    /// Performs the row of Unregister. It takes no memory.
    pub fn unregister(&mut self, conn: ConnId) -> Done
        ensures leads { (brought : Brought)
            → Leads F.is_honest F.is_steady F.faults F.images
            F.may_leave F.made F.Cell.is_honest F.Cell.is_steady
            F.Cell.faults F.Cell.moment
            F.Cell.left_since F.Cell.may_leave conn brought
            (unregister (asked conn brought (rows_of self.old)))
            (rows_of self.old) (rows_of self.new) (disk_of self.old) (disk_of self.new) result }
        ensures silent { result.sends ≡ [] }
        ensures room { self.new.connections ≡ self.old.connections }
    {
        match self.prompts.unregister(conn) {
            Ok(()) => unstored(self.alloc, Ok(Body::Empty)),
            Err(_) => refused(self.alloc, ErrorName::AccessDenied),
        }
    }

    /// Performs the row of Refuse. All memory is taken before the prompt ends.
    pub fn refuse(
        &mut self,
        conn: ConnId,
        prompt: Option<PromptId>,
        round: u64,
    ) -> Result<Done, OutOfMemory>
        requires { HasRoom 1 conn self.old.connections.rooms }
        ensures leads { IfOk result (λ done. (brought : Brought)
            → Leads F.is_honest F.is_steady F.faults F.images
            F.may_leave F.made F.Cell.is_honest F.Cell.is_steady
            F.Cell.faults F.Cell.moment
            F.Cell.left_since F.Cell.may_leave conn brought
            (refuse prompt round (asked conn brought (rows_of self.old)))
            (rows_of self.old) (rows_of self.new) (disk_of self.old) (disk_of self.new) done) }
        ensures room { IfOk result (λ done.
            HasRoomToReply conn done.sends self.new.connections.rooms) }
        ensures unchanged { OnErr result ((rows_of self.new ≡ rows_of self.old)
            × (disk_of self.new ≡ disk_of self.old)) }
    {
        let Some(prompt) = prompt else {
            return Ok(self.refuse_none(conn));
        };
        match self.prompts.refusal(prompt, round, conn) {
            Some(why) => Ok(refused(self.alloc, error_for(why))),
            None => self.end_dismissed(conn, prompt),
        }
    }

    /// Refuses what the agent says about something that is no prompt.
    pub fn refuse_none(&self, conn: ConnId) -> Done
        ensures leads { (round : ℕ) (brought : Brought)
            → Leads F.is_honest F.is_steady F.faults F.images
            F.may_leave F.made F.Cell.is_honest F.Cell.is_steady
            F.Cell.faults F.Cell.moment
            F.Cell.left_since F.Cell.may_leave conn brought
            (refuse None round (asked conn brought (rows_of self.now)))
            (rows_of self.now) (rows_of self.now) (disk_of self.now) (disk_of self.now) result }
        ensures silent { result.sends ≡ [] }
    {
        if self.prompts.is_agent(conn) {
            return refused(self.alloc, ErrorName::NoSuchObject);
        }
        refused(self.alloc, ErrorName::AccessDenied)
    }
}
