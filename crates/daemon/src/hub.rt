ghost use Rattle.std.specs.Prelude.{◌≡◌, ◌-◌, ℕ, Bool, List, Option, IsTrue, OnOk, IfOk, IfErr};
ghost use Rattle.dbus_auth.specs.Table.{fresh};
ghost use Rattle.connection_worker.specs.service_desk.specs.Places.{Home};
ghost use Rattle.connection_worker.specs.service_desk.specs.Views.{View};
ghost use Rattle.daemon.specs.Hubs.{Joins, IsDeskOf, IsNotJoined, CountsRefused, Lends, TakesBack, salts_of};

use connection_worker::Salts;
use connection_worker::service_desk::{JoinRefused, ReadDesk, WriteDesk};
use dbus_auth::Auth;
use kr_base::ConnId;
use kr_outside::Clock;

/// Where links become connections of the service.
pub trait Hub {
    /// The desk of a connection's reader.
    type Reader: ReadDesk + Drop + Send + 'static;

    /// The desk of a connection's writer.
    type Writer: WriteDesk + Drop + Send + 'static;

    /// The clock of a connection.
    type Time: Clock + Send + 'static;

    /// The user id that each handshake awaits. No call changes it.
    ghost uid: { Self → ℕ };

    /// The server's GUID. No call changes it.
    ghost guid: { Self → List ℕ };

    /// The seed of all salts. No call changes it.
    ghost seed: { Self → List ℕ };

    /// The service whose connections the links become, if threads share it, with the passes that each of their
    /// desks has. No call changes it.
    ghost home: { Self → Option Home };

    /// What the hub has seen of the service's history. Its own events are those of the joins, and those of the
    /// desks that it took back.
    ghost view: { Self → View };

    /// How many desks were handed out and not taken back.
    ghost lent: { Self → ℕ };

    /// How many joins were refused. The count never falls, and stays at 2^64 - 1.
    ghost refused: { Self → ℕ };

    /// Whether a connection joined whose parts haven't been asked for yet.
    ghost is_ready: { Self → Bool };

    /// Waits for the service, and records a new connection; returns its number, and the desks of its
    /// reader and its writer at that service, which have recorded nothing yet. The writer's desk waits while there is
    /// nothing to take.
    ///
    /// Refused with `EventsSpent` if all events that can be counted are recorded, then with
    /// `TooManyConnections` if 256 connections are there or no number is left; `OutOfMemory` may come
    /// in place of any. A refusal is counted.
    fn join(&mut self) -> Result<(ConnId, Self::Reader, Self::Writer), JoinRefused>
        ensures joined { IfOk result (λ joined. Joins (view self.old) joined.0 (view self.new)) }
        ensures reader { IfOk result (λ joined. IsDeskOf (Self.Reader.told joined.1)
            (Self.Reader.has_seen joined.1) (home self.new) joined.0 (view self.new)) }
        ensures writer { IfOk result (λ joined. IsDeskOf (Self.Writer.told joined.2)
            (Self.Writer.has_seen joined.2) (home self.new) joined.0 (view self.new)) }
        ensures waits { IfOk result (λ joined. IsTrue (Self.Writer.told joined.2).is_waiting) }
        ensures refused { IfErr result (λ refused.
            IsNotJoined refused (view self.old) (view self.new)) }
        ensures counted { CountsRefused (refused self.old) (refused self.new) result }
        ensures lent { Lends (lent self.old) (lent self.new) result }
        ensures ready { OnOk result (IsTrue (is_ready self.new)) }

        ensures uid { uid self.new ≡ uid self.old }
        ensures guid { guid self.new ≡ guid self.old }
        ensures seed { seed self.new ≡ seed self.old }
        ensures home { home self.new ≡ home self.old };

    /// What the job of the connection that joined last needs besides its desks: a handshake that hasn't
    /// begun, a clock, and the connection's salts from the first one on. The call takes no memory.
    fn parts(&mut self, conn: ConnId) -> (Auth, Self::Time, Salts)
        requires ready { IsTrue (is_ready self.old) }
        ensures auth { result.0 ≡ fresh (uid self.old) (guid self.old) }
        ensures salts { result.2 ≡ salts_of (seed self.old) conn }

        ensures uid { uid self.new ≡ uid self.old }
        ensures guid { guid self.new ≡ guid self.old }
        ensures seed { seed self.new ≡ seed self.old }
        ensures home { home self.new ≡ home self.old }
        ensures view { view self.new ≡ view self.old }
        ensures lent { lent self.new ≡ lent self.old }
        ensures counted { refused self.new ≡ refused self.old };

    /// Takes back the desks of a connection that isn't served: what they have seen and recorded becomes the
    /// hub's own. The call takes no memory.
    fn take_back(&mut self, reader: Self::Reader, writer: Self::Writer)
        requires reader { (Self.Reader.told reader).home ≡ home self.old }
        requires writer { (Self.Writer.told writer).home ≡ home self.old }
        ensures back { TakesBack (Self.Reader.has_seen reader) (Self.Writer.has_seen writer)
            (view self.old) (view self.new) }
        ensures lent { lent self.new ≡ lent self.old - 2 }

        ensures uid { uid self.new ≡ uid self.old }
        ensures guid { guid self.new ≡ guid self.old }
        ensures seed { seed self.new ≡ seed self.old }
        ensures home { home self.new ≡ home self.old }
        ensures counted { refused self.new ≡ refused self.old };
}
