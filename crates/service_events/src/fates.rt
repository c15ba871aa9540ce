ghost use Rattle.std.specs.Prelude.{◌≡◌, ◌++◌, [], length};
ghost use Rattle.service_events.specs.Fates.{reads_of, stores_of};

use service_prompts::service_tables::{ReadFate, StoreFate};
use std::marker::Model;

/// How each storing, removal and resolve of a file ended that an event led to, in order: at most
/// making a collection, then a resolve, then storing or removing a file. A contract sees the list of them. It
/// takes no memory of its own.
#[derive(Drop)]
pub struct Fates {
    made: Option<StoreFate>,
    read: Option<ReadFate>,
    stored: Option<StoreFate>,
}

impl Model for Fates {
    ghost use Rattle.std.specs.Prelude.{List, ◌++◌};
    ghost use Rattle.service_prompts.specs.service_tables.specs.declared.fate.Fate.{Fate};

    ghost Value = { List Fate };

    ghost use Rattle.service_events.specs.Fates.{reads_of, stores_of};

    ghost view = { λ f. stores_of f.made ++ (reads_of f.read ++ stores_of f.stored) };
}

// How many files were stored or removed.
fn stores(fate: Option<StoreFate>) -> usize
    ensures { result ≡ length (stores_of fate) }
{
    match fate {
        Some(_) => 1,
        None => 0,
    }
}

// How many resolves there are.
fn reads(fate: Option<ReadFate>) -> usize
    ensures { result ≡ length (reads_of fate) }
{
    match fate {
        Some(_) => 1,
        None => 0,
    }
}

impl Fates {
    /// No fates.
    pub fn none() -> Fates
        ensures { result ≡ [] }
    {
        Fates {
            made: None,
            read: None,
            stored: None,
        }
    }

    /// How each of these ended that was asked for: making a collection, a resolve, and storing or removing a file.
    pub fn of(made: Option<StoreFate>, read: Option<ReadFate>, stored: Option<StoreFate>) -> Fates
        ensures { result ≡ stores_of made ++ (reads_of read ++ stores_of stored) }
    {
        Fates { made, read, stored }
    }

    /// The three, in order.
    pub fn parts(&self) -> (Option<StoreFate>, Option<ReadFate>, Option<StoreFate>)
        ensures { self.now ≡ stores_of result.0 ++ (reads_of result.1 ++ stores_of result.2) }
    {
        (self.made, self.read, self.stored)
    }

    /// The number of fates.
    pub fn len(&self) -> usize
        ensures { result ≡ length self.now }
    {
        stores(self.made) + reads(self.read) + stores(self.stored)
    }
}
