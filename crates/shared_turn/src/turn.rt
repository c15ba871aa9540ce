ghost use Rattle.std.specs.Prelude.{◌≡◌, ◌<◌, ◌+◌, ℕ, length, true, false, IfOk, Some};
ghost use Rattle.shared_turn.specs.Places.{StartsWith};
ghost use Rattle.shared_turn.specs.Seats.{IsWithoutTicket, with_ticket, without_turn, HasSlot};
ghost use Rattle.shared_turn.specs.Shares.{IsFirst};
ghost use Rattle.shared_turn.specs.Passes.{opened, noted, giving, outside, recorded, IsMet, Stands, Enters, IsRecorded};

use crate::chronicle::Chronicle;
use crate::known::{Board, Gather, Note, Place};
use crate::pass::Pass;
use crate::plays::{Compare, Count, Draw, Enter, Hand};
use atomic_table::Table;
use std::alloc::{AllocError, Global};
use std::marker::Model;
use std::snapshot::Snapshot;
use std::sync::Wait;
use std::sync::atomic::{AtomicU64, Ordering};

// Word 0: the events of the run.
const EVENTS: usize = 0;

// Word 1: the tickets that were drawn.
const DRAWN: usize = 1;

// Word 2: the ticket that is served.
const SERVED: usize = 2;

// How often a thread sleeps before it draws a ticket although others have the turn or wait for it.
const PATIENCE: u32 = 16;

/// A value that threads use by turns. A contract sees which table it is.
#[derive(Drop)]
pub struct Turn<C: Chronicle> {
    board: Board<C>,
    // The ticket at the end of whose turn a thread that sleeps without a ticket is woken.
    wakes_after: AtomicU64,
}

impl<C: Chronicle> Model for Turn<C> {
    ghost use Rattle.atomic_table.specs.Seated.{TableId};

    ghost Value = { TableId };

    ghost use Rattle.shared_turn.specs.Seats.{HasThreeWords};

    ghost view = { λ turn. turn.board.shared.table_id };

    ghost invariant = { λ turn. HasThreeWords turn.board.shared.table_id };
}

impl<C: Chronicle> Turn<C> {
    /// Makes a turn over a value, and the first pass, which has seen the events that the value
    /// still has, and whose own they are. `count` is the number of all events of the run.
    ///
    /// Refused with `AllocError` if no memory is left; the value is dropped then.
    pub fn open(alloc: Global, value: C, count: u64) -> Result<(Turn<C>, Pass<C>), AllocError>
        requires stands { C.stands value (C.start value) (C.before value) (C.events value) }
        requires count { count ≡ C.before value + length (C.events value) }
        ensures { IfOk result (λ both. both.1
            ≡ opened both.0 (C.start value) (C.before value) (C.events value)) }
    {
        let key = Snapshot::of(&value);
        let mut slots = Vec::with_capacity(alloc, 1)?;
        slots.push(Some(value)).unwrap();
        let words = [count, 0, 0];
        match Table::new(alloc, &words, slots, &key) {
            Ok((board, place)) => {
                let turn = Turn {
                    board,
                    wakes_after: AtomicU64::new(0),
                };
                Ok((turn, Pass { place }))
            }
            Err(_) => Err(AllocError),
        }
    }

    // Sleeps without a ticket while this one is served.
    fn sleep_through<R: Wait>(&self, rt: &R, served: u64) {
        self.wakes_after.store(served, Ordering::SeqCst);
        self.board
            .shared
            .park(rt, SERVED, (served % (1 << 32)) as u32);
    }

    // Draws the next ticket when no thread has one, or after it has slept often. If it slept, the end of its
    // turn wakes another thread, since only one is woken at a time. Once the last ticket is drawn there is
    // no other, and it tries forever.
    fn draw<R: Wait>(&self, rt: &R, place: &mut Place<C>) -> u64
        requires table { place.old.table_id ≡ self.now }
        requires known { IsWithoutTicket place.old.me.0 }
        ensures same { (place.new.table_id ≡ place.old.table_id) × (place.new.id ≡ place.old.id) }
        ensures drawn { place.new.me ≡ with_ticket result place.old.me }
    {
        let mut slept = 0;
        for _ in rt.forever() {
            let served = self.board.shared.peek(SERVED);
            let next = self.board.shared.peek(DRAWN);
            if next != served && slept < PATIENCE {
                self.sleep_through(rt, served);
                slept += 1;
            } else if next < u64::MAX {
                let found = self
                    .board
                    .shared
                    .compare_exchange::<Draw>(place, DRAWN, next, next + 1);
                if found == next {
                    if slept > 0 {
                        self.wakes_after.store(next, Ordering::SeqCst);
                    }
                    return next;
                }
            }
        }
        unreachable!()
    }

    /// Waits for the turn, and returns the value as all that was recorded left it. Until the pass
    /// gives it back, nobody else gets it. A pass that all others were gathered into recorded all of it.
    pub fn enter<R: Wait>(&self, rt: &R, pass: &mut Pass<C>) -> C
        requires table { pass.old.table ≡ self.now }
        requires outside { pass.old.has_turn ≡ false }
        ensures { Enters C.stands result pass.old pass.new }
    {
        let ticket = self.draw(rt, &mut pass.place);
        for _ in rt.forever() {
            let served = self.board.shared.load::<Enter<C>>(&mut pass.place, SERVED);
            if served == ticket {
                return self
                    .board
                    .shared
                    .exchange(&mut pass.place, 0, None)
                    .unwrap();
            }
            self.board
                .shared
                .park(rt, SERVED, (served % (1 << 32)) as u32);
        }
        unreachable!()
    }

    // Passes the turn on, and wakes a thread that sleeps, or all of them if one has the next ticket. The
    // value is back in its slot.
    fn hand(&self, place: &mut Place<C>)
        requires table { place.old.table_id ≡ self.now }
        requires ready { (value : C) × HasSlot C.stands value place.old.me }
        ensures same { (place.new.table_id ≡ place.old.table_id) × (place.new.id ≡ place.old.id) }
        ensures handed { place.new.me ≡ without_turn place.old.me }
    {
        let served = self.board.shared.fetch_add::<Hand>(place, SERVED, 1);
        if self.board.shared.peek(DRAWN) != served.wrapping_add(1) {
            self.board.shared.wake_all(SERVED);
        } else if self.wakes_after.load(Ordering::SeqCst) == served {
            self.board.shared.wake_one(SERVED);
        }
    }

    /// Gives back the value, in which one more event was recorded, and passes the turn on.
    pub fn record(&self, pass: &mut Pass<C>, value: C)
        requires table { pass.old.table ≡ self.now }
        requires inside { pass.old.has_turn ≡ true }
        requires few { pass.old.before + length pass.old.seen < 18446744073709551615 }
        requires recorded { (event : C.Event) × IsRecorded C.stands C.newest value pass.old event }
        ensures { (event : C.Event) → IsRecorded C.stands C.newest value pass.old event
            → pass.new ≡ recorded event pass.old }
    {
        let None = self.board.shared.exchange(&mut pass.place, 0, Some(value)) else {
            unreachable!()
        };
        self.board
            .shared
            .fetch_add::<Count<C>>(&mut pass.place, EVENTS, 1);
        self.hand(&mut pass.place);
    }

    /// Gives back the value, in which nothing more was recorded, and passes the turn on.
    pub fn give_back(&self, pass: &mut Pass<C>, value: C)
        requires table { pass.old.table ≡ self.now }
        requires inside { pass.old.has_turn ≡ true }
        requires stands { Stands C.stands value pass.old pass.old.seen }
        ensures { pass.new ≡ outside pass.old }
    {
        let None = self.board.shared.exchange(&mut pass.place, 0, Some(value)) else {
            unreachable!()
        };
        self.hand(&mut pass.place);
    }

    /// A new pass, which has seen the same and recorded nothing. Only the first pass can note others, and knows
    /// how many of them it hasn't gathered.
    pub fn note(&self, pass: &mut Pass<C>) -> Pass<C>
        requires table { pass.old.table ≡ self.now }
        requires outside { pass.old.has_turn ≡ false }
        requires first { IsFirst pass.old.share }
        ensures given { pass.new ≡ giving pass.old }
        ensures noted { result ≡ noted pass.old }
    {
        let place = self.board.shared.split_seat::<Note>(&mut pass.place);
        Pass { place }
    }

    /// The pass learns what another one has seen, and takes over what it recorded.
    pub fn gather(&self, pass: &mut Pass<C>, other: Pass<C>)
        requires table { pass.old.table ≡ self.now }
        requires other_table { other.table ≡ self.now }
        requires outside { pass.old.has_turn ≡ false }
        requires other_outside { other.has_turn ≡ false }
        ensures { IsMet pass.old other pass.new }
    {
        let Pass { place } = other;
        self.board
            .shared
            .join_seat::<Gather>(&mut pass.place, place);
        self.board.shared.load::<Compare>(&mut pass.place, EVENTS);
    }
}
