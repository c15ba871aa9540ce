use crate::chronicle::Chronicle;
use crate::share::Share;
use atomic_table::{Join, Seat, Split, Table, TableRule};
use std::alloc::Global;
use std::collections::LinkedList;
use std::marker::PhantomData;
use std::snapshot::Snapshot;

/// What a seat at the table knows of the run. No value of it is made.
pub struct Known<B, E> {
    /// What the run began with; None once the seat has been joined to another.
    pub start: Option<B>,
    /// How many events the run had before that.
    pub before: u64,
    /// The events since then, as far as they were seen.
    pub seen: LinkedList<E>,
    /// The positions of its own events among them.
    pub own: LinkedList<u64>,
    /// Which of the run's passes it stands for.
    pub share: Share,
    /// What another seat that was joined to this one had seen, and where its run began.
    pub met: LinkedList<E>,
    pub met_start: Option<B>,
    pub met_before: u64,
    /// The ticket that was drawn for the next turn.
    pub ticket: Option<u64>,
    /// Whether its turn has come.
    pub has_turn: bool,
}

/// The rule of the table: there is one history, of which each seat has seen a beginning, and one turn.
pub(crate) struct OneHistory;

impl<C: Chronicle> TableRule<Option<C>, Known<C::Start, C::Event>, Snapshot<C>> for OneHistory {
    ghost use Rattle.shared_turn.specs.Rule.{Kept, first_known};

    ghost holds = { λ key. Kept C.stands (C.start key.value) (C.before key.value) };

    ghost first = { λ key.
        first_known (C.start key.value) (C.before key.value) (C.events key.value) };
}

pub(crate) type Board<C: Chronicle> = Table<
    Option<C>,
    Known<C::Start, C::Event>,
    Snapshot<C>,
    OneHistory,
    Global,
>;

pub(crate) type Place<C: Chronicle> = Seat<Option<C>, Known<C::Start, C::Event>>;

/// A new seat is made, which has seen the same and recorded nothing. It stands for one pass more.
pub(crate) struct Note;

impl<B, E> Split<Known<B, E>> for Note {
    ghost use Rattle.shared_turn.specs.Rule.{giving, noted};

    ghost left = { giving };

    ghost right = { noted };
}

/// Two seats become one, which has the longer history and the own positions of both.
pub(crate) struct Gather;

impl<B, E> Join<Known<B, E>> for Gather {
    ghost use Rattle.shared_turn.specs.Rule.{gathered, spent};

    ghost both = { gathered };

    ghost spent = { spent };
}
