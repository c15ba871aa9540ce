// The end of a door, which another thread asks for.
use std::alloc::Global;
use std::net::Shutdown;
use std::os::unix::net::UnixStream;
use std::sync::atomic::{AtomicBool, Ordering};
use std::sync::{Arc, Mutex};

/// What a door and its bells share: whether one was rung, and a handle of the door's socket.
#[derive(Drop)]
pub struct Ending {
    is_rung: AtomicBool,
    door: Mutex<Option<UnixStream>>,
}

impl Ending {
    /// No bell was rung, and there is no door yet.
    pub fn new() -> Ending {
        Ending {
            is_rung: AtomicBool::new(false),
            door: Mutex::new(None),
        }
    }

    /// Whether a bell was rung.
    pub fn is_rung(&self) -> bool {
        self.is_rung.load(Ordering::SeqCst)
    }

    /// The door that is to be ended has a socket of which this is a handle.
    pub fn watch(&self, handle: UnixStream) {
        for _ in 0..u64::MAX {
            if let Some(mut door) = self.door.try_lock() {
                *door = Some(handle);
                return;
            }
        }
    }

    // Nobody connects any more, and a call that waits for a connection returns.
    fn shut(&self) {
        for _ in 0..u64::MAX {
            if let Some(door) = self.door.try_lock() {
                if let Some(handle) = &*door {
                    // A socket that is shut already needs no second shutdown.
                    let _ = handle.shutdown(Shutdown::Both);
                }
                return;
            }
        }
    }
}

/// Ends a door from any thread.
#[derive(Drop)]
pub struct DoorBell {
    ending: Arc<Ending, Global>,
}

impl DoorBell {
    /// A bell of the doors that have this ending.
    pub fn new(ending: Arc<Ending, Global>) -> DoorBell {
        DoorBell { ending }
    }

    /// Asks the door to give no link any more: a call that waits for one, or the next such call, returns None, and the
    /// inputs of the links that it gave come to their end. It can't be refused.
    pub fn ring(&self) {
        self.ending.is_rung.store(true, Ordering::SeqCst);
        self.ending.shut();
    }
}
