// What is counted over the replies (docs/SERVICE.md, "The load").
ghost use Rattle.std.specs.Prelude.{◌≡◌, ◌-◌, if◌then◌else◌};
ghost use Rattle.std.specs.Str.{bytes_eq};
ghost use Rattle.load_plan.specs.Words.{secret_of};
ghost use Rattle.load_plan.specs.Counts.{none, raised, returned, counted};

use crate::words::secret_of;
use client_core::Reply;
use kr_base::ItemId;
use secret_calls::{Body, Call, ReturnedSecret};

/// What was counted over replies. A count stays at 2^64 - 1.
#[derive(Clone, Copy, Debug, PartialEq, Eq)]
pub struct Counts {
    /// The items that were made.
    pub items: u64,
    /// The items that were found, in unlocked and in locked collections.
    pub found: u64,
    /// The secrets that were read and are the ones that were stored.
    pub read: u64,
    /// The calls that were answered by an error.
    pub errors: u64,
}

// Whether the secret is the one that the item was made with.
fn is_stored(seed: u64, item: ItemId, secret: &ReturnedSecret) -> bool
    ensures { result ≡ bytes_eq secret.now.value (secret_of seed (item.0 - 1)) }
{
    let stored = secret_of(seed, item.0.saturating_sub(1));
    secret.value.as_slice() == stored.as_slice()
}

impl Counts {
    /// Nothing counted.
    pub fn none() -> Counts
        ensures { result ≡ none }
    {
        Counts {
            items: 0,
            found: 0,
            read: 0,
            errors: 0,
        }
    }

    // The counts with one more return to a call.
    fn with_return(self, seed: u64, call: &Call, body: &Body) -> Counts
        ensures { result ≡ returned seed self call.now body.now }
    {
        match (call, body) {
            (Call::CreateItem { .. }, Body::ObjectAndPrompt { .. }) => Counts {
                items: self.items.saturating_add(1),
                ..self
            },
            (Call::SearchItems { .. }, Body::Found { unlocked, locked }) => Counts {
                found: self
                    .found
                    .saturating_add(unlocked.len() as u64)
                    .saturating_add(locked.len() as u64),
                ..self
            },
            (Call::GetSecret { item, .. }, Body::Secret(secret)) => {
                if is_stored(seed, *item, secret) {
                    Counts {
                        read: self.read.saturating_add(1),
                        ..self
                    }
                } else {
                    self
                }
            }
            _ => self,
        }
    }

    /// The counts with one more reply to a call of the load under this seed: an item that was made, what a search
    /// found, a secret that is the one that was stored, or an error.
    pub fn with_reply(self, seed: u64, call: &Call, reply: &Reply) -> Counts
        ensures { result ≡ counted seed self call.now reply.now }
    {
        match reply {
            Reply::Return(body) => self.with_return(seed, call, body),
            Reply::Error(_) => Counts {
                errors: self.errors.saturating_add(1),
                ..self
            },
        }
    }
}
