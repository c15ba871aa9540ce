ghost use Rattle.std.specs.Prelude.{◌≡◌};
ghost use Rattle.service_events.specs.declared.event.ApplyRefused.TheVariants as ApplyRefused;
ghost use Rattle.service_events.specs.declared.event.JoinRefused.TheVariants as JoinRefused;

use crate::boxed::Boxed;
use crate::fates::Fates;
use kr_base::{Bytes, ConnId, PromptId};
use kr_items::Items;
use service_prompts::secret_calls::{Finished, Out, Request, Work};
use std::alloc::AllocError;
use thiserror::Error;

/// A request of a connection.
#[derive(Drop)]
pub struct Arrival {
    /// The connection.
    pub conn: ConnId,
    /// What it asks.
    pub request: Request,
    /// The moment, in seconds since 1970.
    pub now: u64,
    /// Random bytes, which a prompt that creates a collection keeps for its key.
    pub salt: [u8; 8],
}

/// A request as it is recorded.
#[derive(Drop)]
pub struct Recorded {
    /// The request.
    pub arrival: Arrival,
    /// How each storing, removal or resolve of a file ended that the request led to, in order.
    pub fates: Fates,
}

/// A key that was derived for a prompt, as the reader of a connection brings it.
#[derive(Drop)]
pub struct BroughtKey {
    /// The connection.
    pub conn: ConnId,
    /// The prompt, its round and the key.
    pub done: Finished,
    /// The moment, in seconds since 1970.
    pub now: u64,
}

/// A derived key as it is recorded: what it was derived from.
#[derive(Drop)]
pub struct Derivation {
    /// The connection that brought it.
    pub conn: ConnId,
    /// The prompt.
    pub prompt: PromptId,
    /// The round in which it was answered.
    pub round: u64,
    /// The password.
    pub password: Bytes,
    /// The salt.
    pub salt: [u8; 8],
    /// How often the password was hashed.
    pub iterations: u32,
    /// The moment, in seconds since 1970.
    pub now: u64,
    /// How each storing and each resolve of a file ended that the key led to, in order.
    pub fates: Fates,
}

/// What may happen to the service.
#[derive(Drop)]
pub enum Incoming {
    /// A connection joins.
    Connect,
    /// A connection asks for something.
    Arrive(Arrival),
    /// The key was derived that an answer asked for.
    Derived(BroughtKey),
    /// A connection asks no more.
    Leave(ConnId),
    /// A connection takes what waits for it.
    Take(ConnId),
    /// A connection is gone.
    Gone(ConnId),
}

/// What happened to the service: all that a step of it depends on. What is large is in a box, so that the
/// many events that are stored are small.
#[derive(Drop)]
pub enum Event {
    /// A connection joined, and got this number.
    Connect(ConnId),
    /// A connection asked for something.
    Arrive(Boxed<Recorded>),
    /// A key was derived.
    Derived(Boxed<Derivation>),
    /// A connection asked no more.
    Leave(ConnId),
    /// A connection took what waited for it.
    Take(ConnId),
    /// A connection went.
    Gone(ConnId),
}

impl Recorded {
    /// The recorded request with these fates. It takes no memory.
    pub fn ended(came: Boxed<Recorded>, fates: Fates) -> Boxed<Recorded>
        ensures { result ≡ record came { fates = fates } }
    {
        let mut came = came;
        came.inner.fates = fates;
        came
    }
}

impl Derivation {
    /// The recorded key with these fates. It takes no memory.
    pub fn ended(came: Boxed<Derivation>, fates: Fates) -> Boxed<Derivation>
        ensures { result ≡ record came { fates = fates } }
    {
        let mut came = came;
        came.inner.fates = fates;
        came
    }
}

/// What a connection that asked is answered at once. Its reply waits for it.
#[derive(Drop)]
pub struct Arrived {
    /// The key that is to be derived now, if the request was an answer that was taken.
    pub work: Option<Work>,
}

/// The answer to the caller that brought an event. Replies to calls wait for their connection.
#[derive(Drop)]
pub enum Output {
    /// The number of the connection that joined.
    Joined(ConnId),
    /// The request was taken.
    Arrived(Arrived),
    /// The derived key was taken.
    Derived,
    /// The connection is leaving.
    Left,
    /// What waited, in order.
    Taken(Items<Out>),
    /// The connection is gone.
    Gone,
}

/// Why an event didn't happen.
#[derive(Clone, Copy, Debug, PartialEq, Eq, Error)]
pub enum ApplyRefused {
    /// The connection isn't there.
    #[error("the connection is not there")]
    NoConnection,
    /// 256 connections are there, or no number is left.
    #[error("no further connection can join")]
    TooManyConnections,
    /// No memory was left.
    #[error("out of memory")]
    OutOfMemory,
}

/// Why a connection couldn't join.
#[derive(Clone, Copy, Debug, PartialEq, Eq, Error)]
pub enum JoinRefused {
    /// The service has recorded all the events that it can count.
    #[error("no further event can be counted")]
    EventsSpent,
    /// 256 connections are there, or no number is left.
    #[error("no further connection can join")]
    TooManyConnections,
    /// No memory was left.
    #[error("out of memory")]
    OutOfMemory,
}

impl From<AllocError> for ApplyRefused {
    ghost from_gives = { λ _ e. e ≡ ApplyRefused.OutOfMemory };

    fn from(_error: AllocError) -> Self {
        ApplyRefused::OutOfMemory
    }
}

impl From<AllocError> for JoinRefused {
    ghost from_gives = { λ _ e. e ≡ JoinRefused.OutOfMemory };

    fn from(_error: AllocError) -> Self {
        JoinRefused::OutOfMemory
    }
}
