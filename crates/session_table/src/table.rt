ghost use Rattle.std.specs.Prelude.{◌≡◌, IsTrue, IfOk, OnOk, OnErr, IsErrOf, true, false};
ghost use Rattle.session_table.specs.Sessions.{no_sessions, owns, is_full, opened, closed, abandoned};

use crate::{Sessions, keys};
use kr_base::{ConnId, OutOfMemory, SessionId};
use kr_items::Items;
use std::alloc::Global;
use std::collections::BTreeSet;
use std::marker::Model;
use thiserror::Error;

/// The most sessions that a connection may have at once.
const MOST_SESSIONS: usize = 64;

/// Why a session wasn't opened or closed.
#[derive(Clone, Copy, Debug, PartialEq, Eq, Error)]
pub enum SessionRefused {
    /// The connection has 64 sessions, or no number is left.
    #[error("the connection has all the sessions that it may have")]
    TooMany,
    /// The connection has no such session.
    #[error("the connection has no such session")]
    NoSession,
    /// No memory was left.
    #[error("out of memory")]
    OutOfMemory,
}

/// The open sessions. A contract sees their rows, by the owners' numbers and then their own, and the
/// number that the next session gets.
#[derive(Drop)]
pub struct SessionTable {
    alloc: Global,
    keys: BTreeSet<(u64, u64)>,
    next: u64,
}

impl Model for SessionTable {
    ghost use Rattle.session_table.specs.declared.row.Sessions.{Sessions};

    ghost Value = { Sessions };

    ghost use Rattle.session_table.specs.Keys.{sessions_of, AreKept};

    ghost view = { λ t. sessions_of t.keys.keys t.next };

    ghost invariant = { λ t. AreKept t.next t.keys.keys };
}

impl SessionTable {
    /// A table without sessions; the first session gets the number 1. It takes no memory.
    pub fn new(alloc: Global) -> SessionTable
        ensures { result ≡ no_sessions }
    {
        SessionTable {
            alloc,
            keys: BTreeSet::new(alloc),
            next: 1,
        }
    }

    /// Opens a session of the connection, and gives it the next number.
    ///
    /// Refused with `TooMany` if the connection has 64 sessions or no number is left; otherwise memory may
    /// run out.
    pub fn open(&mut self, owner: ConnId) -> Result<SessionId, SessionRefused>
        ensures number { IfOk result (λ session. session.0 ≡ self.old.next) }
        ensures opened { OnOk result (self.new ≡ opened owner self.old) }
        ensures room { OnOk result (is_full owner self.old ≡ false) }

        // Nothing has changed after a refusal.
        ensures too_many { IsErrOf result SessionRefused.TooMany → is_full owner self.old ≡ true }
        ensures no_other { IsErrOf result SessionRefused.NoSession → ⊥ }
        ensures memory { IsErrOf result SessionRefused.OutOfMemory
            → is_full owner self.old ≡ false }
        ensures unchanged { OnErr result (self.new ≡ self.old) }
    {
        if self.is_full(owner) {
            return Err(SessionRefused::TooMany);
        }
        let number = self.next;
        if let Err(_) = keys::add(&mut self.keys, owner.0, number) {
            return Err(SessionRefused::OutOfMemory);
        }
        self.next = number + 1;
        Ok(SessionId(number))
    }

    /// Closes a session of the connection. It takes no memory.
    ///
    /// Refused with `NoSession` if the connection owns no such session: another connection's
    /// session is refused like one that was never opened.
    pub fn close(&mut self, session: SessionId, owner: ConnId) -> Result<(), SessionRefused>
        ensures owned { OnOk result (owns owner session self.old ≡ true) }
        ensures closed { OnOk result (self.new ≡ closed owner session self.old) }

        // Nothing else is refused, and nothing has changed then.
        ensures no_session { OnErr result (owns owner session self.old ≡ false) }
        ensures cause { OnErr result (IsErrOf result SessionRefused.NoSession) }
        ensures unchanged { OnErr result (self.new ≡ self.old) }
    {
        if !keys::take(&mut self.keys, owner.0, session.0) {
            return Err(SessionRefused::NoSession);
        }
        Ok(())
    }

    /// Whether the connection owns the session. It takes no memory.
    pub fn owned_by(&self, session: SessionId, owner: ConnId) -> bool
        ensures { result ≡ owns owner session self.now }
    {
        keys::has(&self.keys, owner.0, session.0)
    }

    /// Whether the connection can't open another session. It takes no memory.
    pub fn is_full(&self, owner: ConnId) -> bool
        ensures { result ≡ is_full owner self.now }
    {
        self.next == u64::MAX || keys::count_of(&self.keys, owner.0) >= MOST_SESSIONS
    }

    /// Closes all sessions of a connection. It takes no memory.
    pub fn gone(&mut self, owner: ConnId)
        ensures { self.new ≡ abandoned owner self.old }
    {
        keys::take_all(&mut self.keys, owner.0);
    }

    /// The sessions as plain rows. It takes memory and one pass over all of them.
    pub fn rows(&self) -> Result<Sessions, OutOfMemory>
        ensures { IfOk result (λ sessions. sessions ≡ self.now) }
    {
        Ok(Sessions {
            rows: Items::new(keys::rows(self.alloc, &self.keys)?),
            next: self.next,
        })
    }
}
