use kr_base::{ConnId, OutOfMemory};
use std::alloc::Global;
use std::sync::Wait;
use std::sync::atomic::{AtomicU64, Ordering};

/// How many bells there are.
const BELLS: usize = 256;

/// What the writers of connections sleep on: bells, each of which counts how often it was rung.
/// Connections whose numbers leave the same remainder have one in common.
#[derive(Drop)]
pub(crate) struct Bells {
    counts: Vec<AtomicU64>,
}

impl Bells {
    /// Bells that were never rung.
    pub fn new(alloc: Global) -> Result<Bells, OutOfMemory> {
        let mut counts = Vec::with_capacity(alloc, BELLS)?;
        for _ in 0..BELLS {
            counts.push(AtomicU64::new(0))?;
        }
        Ok(Bells { counts })
    }

    // The connection's bell.
    fn bell(&self, conn: ConnId) -> Option<&AtomicU64> {
        self.counts.get((conn.0 % BELLS as u64) as usize)
    }

    /// How often the connection's bell was rung.
    pub fn count(&self, conn: ConnId) -> u64 {
        match self.bell(conn) {
            Some(bell) => bell.load(Ordering::SeqCst),
            None => 0,
        }
    }

    /// Sleeps while the connection's bell was rung exactly so often, as far as the lower 32 bits of the
    /// number show. It may also return for no reason.
    pub fn sleep<R: Wait>(&self, rt: &R, conn: ConnId, count: u64) {
        if let Some(bell) = self.bell(conn) {
            bell.park(rt, (count % (1 << 32)) as u32);
        }
    }

    /// Rings the connection's bell: its writer wakes up, or doesn't fall asleep.
    pub fn ring(&self, conn: ConnId) {
        if let Some(bell) = self.bell(conn) {
            bell.fetch_add(1, Ordering::SeqCst);
            bell.wake_all();
        }
    }
}
