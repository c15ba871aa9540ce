// The board: which sender has which connection, and whose user is being looked up.
ghost use Rattle.std.specs.Prelude.{◌≤◌};

use crate::rows::{Joined, Waiting};
use std::alloc::Global;

/// The senders that the service knows.
#[derive(Drop)]
pub struct Board<T> {
    pub(crate) alloc: Global,
    pub(crate) user: u32,
    pub(crate) waiting: Vec<Waiting<T>>,
    pub(crate) joined: Vec<Joined>,
    pub(crate) bytes: u64,
    ghost within: { bytes ≤ 16777216 },
}
