// What the rows act on.

use crate::acts::act;
use crate::clock::Clock;
use crate::closing::{close, reopen};
use crate::opening::{Image, keep_image, open};
use check_rows::{Line, Subject};
use kr_memory_disk::{MemoryFolder, MemorySlot};
use service_history::service_machine::secret_calls::Work;
use std::alloc::Global;

/// A service over a folder in memory.
pub type Service = service_history::Service<MemoryFolder>;

/// The images of files, by their names; the service, if one is open, and its clock; a key that was asked for and isn't derived
/// yet; and the slot of a collection of the service that was closed last.
#[derive(Drop)]
pub struct Play {
    images: Vec<Image>,
    service: Option<Service>,
    clock: Clock,
    work: Option<Work>,
    slot: Option<MemorySlot>,
}

impl Play {
    /// No service is open.
    pub fn new(alloc: Global) -> Play {
        Play {
            images: Vec::new(alloc),
            service: None,
            clock: Clock::new(),
            work: None,
            slot: None,
        }
    }
}

/// Replaces a value. The old one is dropped here, where its type isn't known: in a function that knows it, the prover takes
/// seconds for the drop.
pub fn put<T: Drop>(place: &mut Option<T>, value: Option<T>) {
    *place = value;
}

impl Subject for Play {
    fn run(&mut self, kind: &str, cells: &str, line: &mut Line) {
        match kind {
            "image" => keep_image(&mut self.images, cells, line),
            "open" => {
                self.clock = Clock::new();
                open(&mut self.service, &self.images, cells, line);
            }
            "close" => close(&mut self.service, &mut self.slot, cells, line),
            "crash" => {
                self.clock = Clock::new();
                reopen(&mut self.service, &self.slot, cells, line);
            }
            _ => match &mut self.service {
                Some(service) => {
                    act(service, &mut self.clock, &mut self.work, kind, cells, line);
                }
                None => line.add("no service is open"),
            },
        }
    }
}
