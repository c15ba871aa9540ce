// The sessions as pairs of numbers in order, the owner's and the session's. The time that a
// connection's calls take grows with the number of its own sessions, and with the logarithm of the
// number of all sessions.
ghost use Rattle.std.specs.Prelude.{◌≡◌, ◌==◌, ◌&&◌, [], ◌∷◌, ◌++◌, not, nat_le, nat_lt, length, filter, map, IsTrue, IfSome, IfNone, OnOk, OnErr, IfOk};
ghost use Rattle.std.specs.List.{list_any};
ghost use Rattle.session_table.specs.Keys.{is_pair, row_of, AreInOrder, AreGiven, AreNumbers};

use crate::SessionRow;
use kr_base::{ConnId, OutOfMemory, SessionId};
use std::alloc::Global;
use std::collections::BTreeSet;

/// The number of sessions of an owner.
pub fn count_of(keys: &BTreeSet<(u64, u64)>, owner: u64) -> usize
    requires { AreNumbers keys.now.keys }
    ensures { result ≡ length (filter (λ key. key.0 == owner) keys.now.keys) }
{
    keys.range((owner, 0)..=(owner, u64::MAX)).count()
}

/// An owner's session with the least number.
fn first_of(keys: &BTreeSet<(u64, u64)>, owner: u64) -> Option<u64>
    requires { AreNumbers keys.now.keys }
    ensures found { IfSome result (λ session.
        IsTrue (list_any (is_pair owner session) keys.now.keys)) }
    ensures none { IfNone result (filter (λ key. key.0 == owner) keys.now.keys ≡ []) }
{
    match keys.range((owner, 0)..=(owner, u64::MAX)).next() {
        Some(key) => Some(key.1),
        None => None,
    }
}

/// Whether an owner has a session.
pub fn has(keys: &BTreeSet<(u64, u64)>, owner: u64, session: u64) -> bool
    ensures { result ≡ list_any (is_pair owner session) keys.now.keys }
{
    keys.contains(&(owner, session))
}

/// Adds a session. Its number is above all that were used before.
pub fn add(keys: &mut BTreeSet<(u64, u64)>, owner: u64, next: u64) -> Result<(), OutOfMemory>
    requires ordered { AreInOrder keys.old.keys }
    requires given { AreGiven next keys.old.keys }
    ensures added { OnOk result (keys.new.keys ≡
        filter (λ key. nat_le key.0 owner) keys.old.keys ++ (owner, next)
        ∷ filter (λ key. nat_lt owner key.0) keys.old.keys) }
    ensures unchanged { OnErr result (keys.new.keys ≡ keys.old.keys) }
    ensures ordered { AreInOrder keys.new.keys }
{
    keys.insert((owner, next))?;
    Ok(())
}

/// Removes a session of an owner, and returns whether it was there.
pub fn take(keys: &mut BTreeSet<(u64, u64)>, owner: u64, session: u64) -> bool
    requires { AreInOrder keys.old.keys }
    ensures was_there { result ≡ list_any (is_pair owner session) keys.old.keys }
    ensures others { keys.new.keys ≡ filter (λ key. not (is_pair owner session key)) keys.old.keys }
    ensures ordered { AreInOrder keys.new.keys }
{
    keys.remove(&(owner, session))
}

/// Removes all sessions of an owner.
pub fn take_all(keys: &mut BTreeSet<(u64, u64)>, owner: u64)
    requires ordered { AreInOrder keys.old.keys }
    requires numbers { AreNumbers keys.old.keys }
    ensures others { keys.new.keys ≡ filter (λ key. not (key.0 == owner)) keys.old.keys }
    ensures ordered { AreInOrder keys.new.keys }
{
    while let Some(session) = first_of(keys, owner) {
        take(keys, owner, session);
    }
}

// The row that a pair stands for.
fn row_of(key: &(u64, u64)) -> SessionRow
    ensures { result ≡ row_of key.now }
{
    SessionRow {
        owner: ConnId(key.0),
        session: SessionId(key.1),
    }
}

/// The sessions as rows, in order.
pub fn rows(alloc: Global, keys: &BTreeSet<(u64, u64)>) -> Result<Vec<SessionRow>, OutOfMemory>
    ensures { IfOk result (λ rows. rows.items ≡ map row_of keys.now.keys) }
{
    let mut rows = Vec::with_capacity(alloc, keys.len())?;
    for key in keys {
        rows.push(row_of(key))?;
    }
    Ok(rows)
}
