ghost use Rattle.std.specs.Prelude.{◌≡◌};
ghost use Rattle.service_history.specs.Refusals.{not_joined, not_taken};

use service_machine::JoinRefused;
use service_machine::secret_calls::Refused;
use thiserror::Error;

/// Why an event wasn't recorded.
#[derive(Clone, Copy, Debug, PartialEq, Eq, Error)]
pub enum EventRefused {
    /// All events that can be counted are recorded.
    #[error("no further event can be counted")]
    EventsSpent,
    /// The connection isn't there.
    #[error("the connection is not there")]
    NoConnection,
    /// 256 connections are there, or no number is left.
    #[error("no further connection can join")]
    TooManyConnections,
    /// No memory was left.
    #[error("out of memory")]
    OutOfMemory,
}

impl From<JoinRefused> for EventRefused {
    ghost from_gives = { λ refused e. e ≡ not_joined refused };

    fn from(refused: JoinRefused) -> Self {
        match refused {
            JoinRefused::EventsSpent => EventRefused::EventsSpent,
            JoinRefused::TooManyConnections => EventRefused::TooManyConnections,
            JoinRefused::OutOfMemory => EventRefused::OutOfMemory,
        }
    }
}

impl From<Refused> for EventRefused {
    ghost from_gives = { λ refused e. e ≡ not_taken refused };

    fn from(refused: Refused) -> Self {
        match refused {
            Refused::EventsSpent => EventRefused::EventsSpent,
            Refused::Gone => EventRefused::NoConnection,
            Refused::OutOfMemory => EventRefused::OutOfMemory,
        }
    }
}
