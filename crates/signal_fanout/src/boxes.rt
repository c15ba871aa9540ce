// The connections' outboxes in a map, each by its number. A change of one row changes no other.
ghost use Rattle.std.specs.Prelude.{◌≡◌, ◌↔◌, ℕ, ◌+◌, ◌∷◌, ◌++◌, [], map, None, OnOk, IfOk, IfSome, OnErr};
ghost use Rattle.std.specs.Ordering.{nat_cmp};
ghost use Rattle.std.specs.List.{AllByRecursion};
ghost use Rattle.std.specs.List.Sorted.{IsStrictlySortedBy};
ghost use Rattle.std.specs.Map.{keys_of};
ghost use Rattle.kr_base.specs.declared.ids.ConnId.{ConnId};
ghost use Rattle.secret_calls.specs.declared.out.Out.{Out};
ghost use Rattle.secret_calls.specs.declared.out.Out.TheVariants as kinds;
ghost use Rattle.signal_fanout.specs.declared.rows.Delivery.{Delivery};
ghost use Rattle.signal_fanout.specs.Outboxes.{AreDistinct, has, without, with_out, left, emptied, waiting_for, desk_of, for_each, with_one, count_to, HasRoom, HasRoomFor, KeepRooms, Spends};
ghost use Rattle.signal_fanout.specs.Boxes.{row_of, room_of, IsCounted, AreCounted, AreGiven, AreSame, Changes, HoldsOf, IsReady};

use crate::outbox::Outbox;
use crate::{ConnRow, Delivery, DeskRow};
use kr_base::{ConnId, OutOfMemory};
use secret_calls::{Out, SharedSignal};
use std::alloc::Global;
use std::collections::BTreeMap;

/// Whether the connection is there.
pub fn has(boxes: &BTreeMap<u64, Outbox>, conn: u64) -> bool
    ensures { result ≡ has (record { 0 = conn }) (map row_of boxes.now.entries) }
{
    boxes.contains_key(&conn)
}

/// Shows that no two connections have one number.
pub fn are_distinct(boxes: &BTreeMap<u64, Outbox>)
    requires { IsStrictlySortedBy nat_cmp (keys_of boxes.now.entries) }
    ensures { AreDistinct (map row_of boxes.now.entries) }
{}

/// The connection's status.
pub fn told(boxes: &BTreeMap<u64, Outbox>, conn: u64) -> Option<DeskRow>
    ensures { result ≡ desk_of (record { 0 = conn }) (map row_of boxes.now.entries) }
{
    match boxes.get(&conn) {
        Some(outbox) => Some(outbox.told()),
        None => None,
    }
}

/// Adds a connection after all others.
pub fn add(boxes: &mut BTreeMap<u64, Outbox>, conn: u64, outbox: Outbox) -> Result<(), OutOfMemory>
    requires { AreGiven conn (keys_of boxes.old.entries) }
    ensures added { OnOk result (boxes.new.entries ≡ boxes.old.entries ++ (conn, outbox) ∷ []) }
    ensures unchanged { OnErr result (boxes.new.entries ≡ boxes.old.entries) }
    ensures ordered { IsStrictlySortedBy nat_cmp (keys_of boxes.new.entries) }
    ensures counts { AreCounted boxes.old.entries → IsCounted outbox
        → AreCounted boxes.new.entries }
{
    match boxes.insert(conn, outbox) {
        Ok(_) => Ok(()),
        Err(failed) => Err(failed.into()),
    }
}

/// Makes room for this many more outputs of the connection.
pub fn reserve(boxes: &mut BTreeMap<u64, Outbox>, conn: u64, more: usize) -> Result<(), OutOfMemory>
    ensures room { OnOk result (HasRoom more (record { 0 = conn })
        (map room_of boxes.new.entries)) }
    ensures kept { KeepRooms (map room_of boxes.old.entries) (map room_of boxes.new.entries) }
    ensures changes { Changes conn (λ row. row) boxes.old.entries boxes.new.entries }
{
    let Some(outbox) = boxes.get_mut(&conn) else {
        return Ok(());
    };
    outbox.reserve(more)
}

// Expects no output of the connection yet.
fn expect_none(boxes: &mut BTreeMap<u64, Outbox>, conn: u64)
    ensures ready { HoldsOf (IsReady 0) conn boxes.new.entries }
    ensures others { (other : ℕ) → HoldsOf (IsReady 0) other boxes.old.entries
        → HoldsOf (IsReady 0) other boxes.new.entries }
    ensures kept { KeepRooms (map room_of boxes.old.entries) (map room_of boxes.new.entries) }
    ensures changes { Changes conn (λ row. row) boxes.old.entries boxes.new.entries }
{
    let Some(outbox) = boxes.get_mut(&conn) else {
        return;
    };
    outbox.expect_none();
}

// Expects one more output of the connection, and makes room for all that are expected of it.
fn expect_one(boxes: &mut BTreeMap<u64, Outbox>, conn: u64) -> Result<(), OutOfMemory>
    ensures ready { OnOk result ((count : ℕ) (other : ConnId)
        → HoldsOf (IsReady count) other.0 boxes.old.entries
        → HoldsOf (IsReady (with_one (record { 0 = conn }) other count)) other.0
        boxes.new.entries) }
    ensures kept { KeepRooms (map room_of boxes.old.entries) (map room_of boxes.new.entries) }
    ensures changes { Changes conn (λ row. row) boxes.old.entries boxes.new.entries }
{
    let Some(outbox) = boxes.get_mut(&conn) else {
        return Ok(());
    };
    outbox.expect_one()
}

// Expects no output yet of each connection to which one of these goes.
fn expect_none_of(boxes: &mut BTreeMap<u64, Outbox>, outs: &[Delivery])
    ensures ready { AllByRecursion (λ (sent : Delivery).
        HoldsOf (IsReady 0) sent.to.0 boxes.new.entries) outs.now }
    ensures others { (other : ℕ) → HoldsOf (IsReady 0) other boxes.old.entries
        → HoldsOf (IsReady 0) other boxes.new.entries }
    ensures same { AreSame boxes.old.entries boxes.new.entries }
{
    for sent in outs {
        expect_none(boxes, sent.to.0);
    }
}

// Expects each of these outputs.
fn expect_each(boxes: &mut BTreeMap<u64, Outbox>, outs: &[Delivery]) -> Result<(), OutOfMemory>
    ensures ready { OnOk result ((count : ℕ) (conn : ConnId)
        → HoldsOf (IsReady count) conn.0 boxes.old.entries
        → HoldsOf (IsReady (count + count_to conn outs.now)) conn.0 boxes.new.entries) }
    ensures same { AreSame boxes.old.entries boxes.new.entries }
{
    for sent in outs {
        expect_one(boxes, sent.to.0)?;
    }
    Ok(())
}

/// Makes room for one more output of the caller, and for all of these deliveries.
pub fn reserve_for(
    boxes: &mut BTreeMap<u64, Outbox>,
    caller: u64,
    outs: &[Delivery],
) -> Result<(), OutOfMemory>
    ensures room { OnOk result ((reply : Out)
        → HasRoomFor (record { to = record { 0 = caller }; out = reply } ∷ outs.now)
        (map room_of boxes.new.entries)) }
    ensures same { AreSame boxes.old.entries boxes.new.entries }
{
    expect_none(boxes, caller);
    expect_none_of(boxes, outs);
    expect_one(boxes, caller)?;
    expect_each(boxes, outs)
}

/// Adds an output after those that wait for the connection, or drops it if too much would wait.
pub fn put(boxes: &mut BTreeMap<u64, Outbox>, conn: u64, out: Out)
    requires room { HasRoom 1 (record { 0 = conn }) (map room_of boxes.old.entries) }
    requires counts { AreCounted boxes.old.entries }
    ensures changes { Changes conn (with_out out) boxes.old.entries boxes.new.entries }
    ensures spent { Spends (record { 0 = conn }) (map room_of boxes.old.entries)
        (map room_of boxes.new.entries) }
{
    let Some(outbox) = boxes.get_mut(&conn) else {
        return;
    };
    outbox.put(out);
}

/// Marks that the connection makes no more requests.
pub fn leave(boxes: &mut BTreeMap<u64, Outbox>, conn: u64)
    ensures { Changes conn left boxes.old.entries boxes.new.entries }
{
    let Some(outbox) = boxes.get_mut(&conn) else {
        return;
    };
    outbox.leave();
}

// Takes what waits for the connection.
fn taken(alloc: Global, boxes: &mut BTreeMap<u64, Outbox>, conn: u64) -> Vec<Out>
    ensures outs { result.items
        ≡ waiting_for (record { 0 = conn }) (map row_of boxes.old.entries) }
    ensures changes { Changes conn emptied boxes.old.entries boxes.new.entries }
{
    let Some(outbox) = boxes.get_mut(&conn) else {
        return Vec::new(alloc);
    };
    outbox.take(alloc)
}

// The outputs, or None if there are none.
fn some_of(outs: Vec<Out>) -> Option<Vec<Out>>
    ensures some { IfSome result (λ given. given.items ≡ outs.items) }
    ensures nothing { (result ≡ None) ↔ (outs.items ≡ []) }
{
    if outs.is_empty() {
        return None;
    }
    Some(outs)
}

/// Takes what waits for the connection, or returns None if nothing waits.
pub fn take(alloc: Global, boxes: &mut BTreeMap<u64, Outbox>, conn: u64) -> Option<Vec<Out>>
    ensures outs { IfSome result (λ outs. outs.items
        ≡ waiting_for (record { 0 = conn }) (map row_of boxes.old.entries)) }
    ensures nothing { (result ≡ None)
        ↔ (waiting_for (record { 0 = conn }) (map row_of boxes.old.entries) ≡ []) }
    ensures changes { Changes conn emptied boxes.old.entries boxes.new.entries }
{
    some_of(taken(alloc, boxes, conn))
}

/// Removes the connection.
pub fn remove(boxes: &mut BTreeMap<u64, Outbox>, conn: u64)
    requires { IsStrictlySortedBy nat_cmp (keys_of boxes.old.entries) }
    ensures rows { map row_of boxes.new.entries
        ≡ without (record { 0 = conn }) (map row_of boxes.old.entries) }
    ensures ordered { IsStrictlySortedBy nat_cmp (keys_of boxes.new.entries) }
    ensures counts { AreCounted boxes.old.entries → AreCounted boxes.new.entries }
{
    let _ = boxes.remove(&conn);
}

/// Appends a delivery of the signal to each connection. All have the same signal.
pub fn spread(
    boxes: &BTreeMap<u64, Outbox>,
    signal: &SharedSignal,
    outs: &mut Vec<Delivery>,
) -> Result<(), OutOfMemory>
    ensures { OnOk result (outs.new.items ≡ outs.old.items
        ++ for_each (kinds.Signal signal.now) (map row_of boxes.now.entries)) }
{
    outs.reserve(boxes.len())?;
    for (conn, _) in boxes {
        outs.push(Delivery {
            to: ConnId(*conn),
            out: Out::Signal(signal.share()?),
        })?;
    }
    Ok(())
}

/// The connections as rows, in order.
pub fn rows(alloc: Global, boxes: &BTreeMap<u64, Outbox>) -> Result<Vec<ConnRow>, OutOfMemory>
    ensures { IfOk result (λ rows. rows.items ≡ map row_of boxes.now.entries) }
{
    let mut rows = Vec::with_capacity(alloc, boxes.len())?;
    for (conn, outbox) in boxes {
        rows.push(outbox.row(alloc, *conn)?)?;
    }
    Ok(rows)
}
