ghost use Rattle.std.specs.Prelude.{◌≡◌, None, string_bytes, false, true};
ghost use Rattle.std.proofs.Common.{rules};

use crate::clock::SystemClock;
use crate::door::UnixDoor;
use crate::ending::{DoorBell, Ending};
use crate::faults::count;
use crate::folder::{RealFolder, remove_left_overs};
use crate::opened::OpenFolder;
use kr_base::OutOfMemory;
use kr_outside::{Host, OutsideRefused};
use std::alloc::{AllocGlobal, Global};
use std::fs::{File, Files};
use std::io::{self, Eprint, ErrorKind};
use std::net::Net;
use std::sync::Arc;
use std::time;

/// The machine on which the program runs.
#[derive(Drop)]
pub struct RealHost<R: Files<File = File> + Net + time::Clock + Eprint + AllocGlobal + Copy> {
    rt: R,
    faults: u64,
    given: u64,
    shut: u64,
    last_address: String,
    last_given: u64,
    last_ended: bool,
    ending: Option<Arc<Ending, Global>>,
    only_looks: bool,
}

impl<R: Files<File = File> + Net + time::Clock + Eprint + AllocGlobal + Copy> RealHost<R> {
    /// The machine, with no fault so far, no folder opened and no door taken back.
    pub fn new(rt: R) -> Self
        ensures faults { result.faults ≡ 0 }
        ensures given { result.given ≡ 0 }
        ensures shut { result.shut ≡ 0 }
        ensures only_looks { result.only_looks ≡ false }
    {
        RealHost {
            rt,
            faults: 0,
            given: 0,
            shut: 0,
            last_address: String::new(rt.alloc()),
            last_given: 0,
            last_ended: false,
            ending: None,
            only_looks: false,
        }
    }

    /// The same machine for a program that only looks at folders: nothing is removed when one is opened.
    pub fn looking(rt: R) -> Self
        ensures faults { result.faults ≡ 0 }
        ensures given { result.given ≡ 0 }
        ensures shut { result.shut ≡ 0 }
        ensures only_looks { result.only_looks ≡ true }
    {
        RealHost {
            only_looks: true,
            ..RealHost::new(rt)
        }
    }

    /// A bell of the doors that the host opens from now on: once it is rung, from any thread, they end.
    ///
    /// Refused if no memory was left; nothing has changed then.
    pub fn bell(&mut self) -> Result<DoorBell, OutOfMemory>
        ensures given { self.new.given ≡ self.old.given }
        ensures shut { self.new.shut ≡ self.old.shut }
        ensures faults { self.new.faults ≡ self.old.faults }
    {
        if let Some(ending) = &self.ending {
            return Ok(DoorBell::new(Arc::try_clone(ending)?));
        }
        let ending = Arc::new(self.rt.alloc(), Ending::new())?;
        let theirs = Arc::try_clone(&ending)?;
        self.ending = Some(ending);
        Ok(DoorBell::new(theirs))
    }

    /// How often the system returned an error.
    pub fn faults(&self) -> u64
        ensures { result ≡ self.now.faults }
    {
        self.faults
    }
}

// A further owner of the ending, if there is one.
fn shared(
    ending: &Option<Arc<Ending, Global>>,
) -> Result<Option<Arc<Ending, Global>>, OutOfMemory> {
    match ending {
        Some(ending) => Ok(Some(Arc::try_clone(ending)?)),
        None => Ok(None),
    }
}

impl<R: Files<File = File> + Net + time::Clock + Eprint + AllocGlobal + Copy> Host for RealHost<R> {
    type Dir = RealFolder<R>;

    type Door = UnixDoor<R>;

    type Time = SystemClock<R>;

    ghost told = { λ _ _. None };

    ghost coming = { λ _. None };

    ghost faults = { λ h. h.faults };

    ghost given = { λ h. h.given };

    ghost shut_doors = { λ h. record {
      count = h.shut;
      address = string_bytes h.last_address;
      given = h.last_given;
      has_ended = h.last_ended;
    } };

    ghost is_honest = { λ _. false };

    ghost is_steady = { λ _. false };

    ghost steady_below = { Prim.search rules };

    /// The folder at a path, which is locked as long as it or a slot of it is there. The temporary files that an
    /// ended process left in it are removed, unless this host only looks at folders.
    fn folder(&mut self, path: &str) -> Result<RealFolder<R>, OutsideRefused> {
        match claimed(&self.rt, path, self.only_looks) {
            Ok(folder) => {
                self.given = self.given.saturating_add(1);
                Ok(RealFolder::new(self.rt, folder))
            }
            Err(error) => {
                if error.kind() == ErrorKind::OutOfMemory {
                    return Err(OutsideRefused::OutOfMemory);
                }
                count(&mut self.faults);
                Err(OutsideRefused::Failed)
            }
        }
    }

    fn listen(&mut self, path: &str) -> Result<UnixDoor<R>, OutsideRefused> {
        let Ok(ending) = shared(&self.ending) else {
            return Err(OutsideRefused::OutOfMemory);
        };
        match UnixDoor::bind(self.rt, path, ending) {
            Ok(door) => Ok(door),
            Err(error) => {
                if error.kind() == ErrorKind::OutOfMemory {
                    return Err(OutsideRefused::OutOfMemory);
                }
                count(&mut self.faults);
                Err(OutsideRefused::Failed)
            }
        }
    }

    fn shut(&mut self, door: UnixDoor<R>) {
        self.shut = self.shut.saturating_add(1);
        self.last_given = door.given();
        self.last_ended = door.has_ended();
        let (address, removed) = door.close();
        self.last_address = address;
        if removed.is_err() {
            count(&mut self.faults);
        }
    }

    fn clock(&mut self) -> SystemClock<R> {
        SystemClock::new(self.rt)
    }
}

// The folder at this path, open and locked. Unless it is only looked at, the temporary files that were left over are
// removed.
fn claimed<R: Files<File = File> + Eprint + AllocGlobal + Copy>(
    rt: &R,
    path: &str,
    only_looks: bool,
) -> io::Result<Arc<OpenFolder, Global>> {
    let folder = OpenFolder::open(rt, path)?;
    if !only_looks {
        remove_left_overs(rt, &folder);
    }
    Ok(Arc::new(rt.alloc(), folder)?)
}
