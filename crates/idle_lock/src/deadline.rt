// When a timer locks its collection.
ghost use Rattle.std.specs.Prelude.{◌≡◌, ℕ};
ghost use Rattle.idle_lock.specs.Deadline.{deadline_at, deadline_of, earlier, is_reached, later};

use crate::history::Times;
use kr_base::Stem;

/// The flag of a keyring file by which its collection is locked `timeout` seconds after its last change.
const ON_IDLE: u32 = 1;

/// The flag of a keyring file by which its collection is locked `timeout` seconds after it was unlocked.
const AFTER_UNLOCKING: u32 = 2;

/// What a collection's file says of locking it: its flags, and its timeout in seconds (GNOME keyring file
/// format). Other flags than 1 and 2 mean nothing here.
#[derive(Drop)]
pub struct Timer {
    pub stem: Stem,
    pub flags: u32,
    pub timeout: u32,
}

/// The moment this many seconds later; None if 64 bits don't hold it.
fn later(seconds: u32, moment: u64) -> Option<u64>
    ensures { result ≡ later seconds moment }
{
    moment.checked_add(seconds as u64)
}

/// The earlier of two moments, each of which may be missing.
fn earlier(one: Option<u64>, other: Option<u64>) -> Option<u64>
    ensures { result ≡ earlier one other }
{
    match (one, other) {
        (Some(one), Some(other)) => Some(one.min(other)),
        (Some(one), None) => Some(one),
        (None, other) => other,
    }
}

/// When an open collection with these times is to be locked; None if its timer has neither flag, or 64
/// bits don't hold the moment.
fn deadline_of(timer: &Timer, times: Times) -> Option<u64>
    ensures { result ≡ deadline_of timer.now times }
{
    let unlocked = if timer.flags & AFTER_UNLOCKING != 0 {
        later(timer.timeout, times.unlocked)
    } else {
        None
    };
    let idle = if timer.flags & ON_IDLE != 0 {
        later(timer.timeout, times.changed)
    } else {
        None
    };
    earlier(unlocked, idle)
}

/// Whether a collection with these times is to be locked by now; not if it isn't open.
pub fn is_due(timer: &Timer, times: Option<Times>, now: u64) -> bool
    ensures { result ≡ is_reached now (deadline_at timer.now times) }
{
    match times {
        Some(times) => match deadline_of(timer, times) {
            Some(moment) => moment <= now,
            None => false,
        },
        None => false,
    }
}
