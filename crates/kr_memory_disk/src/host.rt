ghost use Rattle.std.specs.Prelude.{◌≡◌, [], string_bytes, Some, None, true, false, cond, nat_eq};
ghost use Rattle.std.specs.Cmp.Lexicographic.{pointwise};
ghost use Rattle.std.proofs.Common.{rules};
ghost use Rattle.kr_outside.specs.Host.{TakesBack};
ghost use Rattle.kr_memory.specs.Clock.{moment_at};
ghost use Rattle.kr_memory.specs.Links.{LinksState, SteadyLinksState};
ghost use Rattle.kr_memory_disk.specs.Files.{image_in};
ghost use Rattle.kr_memory_disk.specs.Host.{IsUnused, none_shut, host_tells};
ghost use Rattle.kr_memory_disk.specs.Plan.{calls_at_start};

use crate::files::Files;
use crate::folder::MemoryFolder;
use crate::plan::CallPlan;
use crate::steady::SteadyFolder;
use kr_base::Text;
use kr_memory::{ListedClock, ListedLinks, SteadyLinks};
use kr_outside::{Host, OutsideRefused, Sink, Source};
use std::alloc::Global;
use std::marker::Model;
use std::mem;

// What a host reports of the doors that it took back.
#[derive(Drop)]
struct Shut {
    count: u64,
    address: String,
    given: u64,
    has_ended: bool,
}

impl Model for Shut {
    ghost use Rattle.std.specs.Prelude.{string_bytes};
    ghost use Rattle.kr_outside.specs.Host.{ShutDoors};

    ghost Value = { ShutDoors };

    ghost view = { λ s. record {
      count = s.count;
      address = string_bytes s.address;
      given = s.given;
      has_ended = s.has_ended;
    } };
}

impl Shut {
    fn none(alloc: Global) -> Shut
        ensures { result ≡ none_shut }
    {
        Shut {
            count: 0,
            address: String::new(alloc),
            given: 0,
            has_ended: false,
        }
    }

    fn take_back(&mut self, address: String, given: u64, has_ended: bool)
        ensures { TakesBack self.old (string_bytes address) given has_ended self.new }
    {
        self.count = self.count.saturating_add(1);
        self.address = address;
        self.given = given;
        self.has_ended = has_ended;
    }
}

/// A host in memory. It has one folder and one door, each at one path, and opens each once; at
/// another path there is none. Its calls `folder` and `listen` are numbered from 0, together, and
/// fail as planned. It is an honest host, and counts the folders that it opens, and the doors that
/// it takes back.
#[derive(Drop)]
pub struct MemoryHost<I: Source + Drop, O: Sink + Drop> {
    alloc: Global,
    path: Text,
    dir: Option<MemoryFolder>,
    door: Option<(Text, ListedLinks<I, O>)>,
    clock: ListedClock,
    calls: CallPlan,
    given: u64,
    shut: Shut,
}

impl<I: Source + Drop, O: Sink + Drop> Model for MemoryHost<I, O> {
    ghost use Rattle.std.specs.Prelude.{IfSome};
    ghost use Rattle.kr_memory.specs.Links.{LinksState};
    ghost use Rattle.kr_memory_disk.specs.Host.{HostState, IsFresh, IsUnused};

    ghost Value = { HostState (LinksState I O) };

    ghost view = { λ h. record {
      path = h.path;
      dir = h.dir;
      door = h.door;
      clock = h.clock;
      calls = h.calls;
      given = h.given;
      shut_doors = h.shut;
    } };

    ghost invariant = { λ h. IsFresh h.dir × IfSome h.door (λ placed.
        IsUnused (λ door. door.given) (λ door. door.has_ended) placed.1) };
}

impl<I: Source + Drop, O: Sink + Drop> MemoryHost<I, O> {
    /// A host with this folder at the path and no door, whose clock returns these moments, and
    /// whose calls `folder` and `listen` with these numbers fail.
    pub fn new(
        alloc: Global,
        path: Text,
        folder: MemoryFolder,
        clock: ListedClock,
        failing: Vec<u64>,
    ) -> Self
        requires { folder.made ≡ [] }
        ensures { result ≡ record {
          path = path;
          dir = Some folder;
          door = None;
          clock = clock;
          calls = calls_at_start failing.items;
          given = 0;
          shut_doors = none_shut;
        } }
    {
        MemoryHost {
            alloc,
            path,
            dir: Some(folder),
            door: None,
            clock,
            calls: CallPlan::new(failing),
            given: 0,
            shut: Shut::none(alloc),
        }
    }

    /// The host, with this door at the path.
    pub fn with_door(self, path: Text, door: ListedLinks<I, O>) -> Self
        requires { IsUnused (λ door. door.given) (λ door. door.has_ended) door }
        ensures { result ≡ record self { door = Some (path, door) } }
    {
        let mut host = self;
        host.door = Some((path, door));
        host
    }
}

impl<I: Source + Drop + Send + 'static, O: Sink + Drop + Send + 'static> Host for MemoryHost<I, O> {
    type Dir = MemoryFolder;

    type Door = ListedLinks<I, O>;

    type Time = ListedClock;

    ghost told = { host_tells };

    ghost coming = { λ h. Some (moment_at h.clock) };

    ghost faults = { λ h. h.calls.faults };

    ghost given = { λ h. h.given };

    ghost shut_doors = { λ h. h.shut_doors };

    ghost is_honest = { λ _. true };

    ghost is_steady = { λ _. false };

    ghost steady_below = { Prim.search rules };

    fn folder(&mut self, path: &str) -> Result<MemoryFolder, OutsideRefused> {
        if self.path.as_str() != path || self.dir.is_none() {
            let _ = self.calls.fail();
            return Err(OutsideRefused::Failed);
        }
        if self.calls.call().is_err() {
            return Err(OutsideRefused::Failed);
        }
        self.given = self.given.saturating_add(1);
        Ok(self.dir.take().unwrap())
    }

    fn listen(&mut self, path: &str) -> Result<ListedLinks<I, O>, OutsideRefused> {
        let is_there = match &self.door {
            Some(placed) => placed.0.as_str() == path,
            None => false,
        };
        if !is_there {
            let _ = self.calls.fail();
            return Err(OutsideRefused::Failed);
        }
        if self.calls.call().is_err() {
            return Err(OutsideRefused::Failed);
        }
        let Ok(address) = String::from_str(self.alloc, path) else {
            return Err(OutsideRefused::OutOfMemory);
        };
        let (_, door) = self.door.take().unwrap();
        Ok(door.at(address))
    }

    fn shut(&mut self, door: ListedLinks<I, O>) {
        let (given, has_ended) = (door.given(), door.has_ended());
        self.shut.take_back(door.into_address(), given, has_ended);
    }

    fn clock(&mut self) -> ListedClock {
        mem::replace(&mut self.clock, ListedClock::new(Vec::new(self.alloc)))
    }
}

/// A host that never fails. At every path it has a folder with the same files, and a door, which
/// gives links the first time that one is opened, and later none. It counts the folders that it
/// opens, and the doors that it takes back.
#[derive(Drop)]
pub struct SteadyHost<I: Source + Drop, O: Sink + Drop> {
    alloc: Global,
    files: Files,
    room: usize,
    door: SteadyLinks<I, O>,
    clock: ListedClock,
    given: u64,
    shut: Shut,
}

impl<I: Source + Drop, O: Sink + Drop> Model for SteadyHost<I, O> {
    ghost use Rattle.kr_memory.specs.Links.{SteadyLinksState};
    ghost use Rattle.kr_memory_disk.specs.Host.{SteadyHostState, IsUnused};

    ghost Value = { SteadyHostState (SteadyLinksState I O) };

    ghost view = { λ h. record {
      files = h.files;
      room = h.room;
      door = h.door;
      clock = h.clock;
      given = h.given;
      shut_doors = h.shut;
    } };

    ghost invariant = { λ h. IsUnused (λ door. door.given) (λ door. door.has_ended) h.door };
}

impl<I: Source + Drop, O: Sink + Drop> SteadyHost<I, O> {
    /// A host whose folders have these files, whose doors give no link, and whose clock returns
    /// these moments. A slot of such a folder keeps as many bytes of a file as there is room for.
    pub fn new(alloc: Global, files: Files, room: usize, clock: ListedClock) -> Self
        ensures { result ≡ record {
          files = files;
          room = room;
          door = record { address = []; links = []; given = 0; has_ended = false };
          clock = clock;
          given = 0;
          shut_doors = none_shut;
        } }
    {
        SteadyHost {
            alloc,
            files,
            room,
            door: SteadyLinks::new(alloc, Vec::new(alloc)),
            clock,
            given: 0,
            shut: Shut::none(alloc),
        }
    }

    /// The host, whose next door is this one.
    pub fn with_door(self, door: SteadyLinks<I, O>) -> Self
        requires { IsUnused (λ door. door.given) (λ door. door.has_ended) door }
        ensures { result ≡ record self { door = door } }
    {
        let mut host = self;
        host.door = door;
        host
    }
}

impl<I: Source + Drop + Send + 'static, O: Sink + Drop + Send + 'static> Host for SteadyHost<I, O> {
    type Dir = SteadyFolder;

    type Door = SteadyLinks<I, O>;

    type Time = ListedClock;

    ghost told = { λ h _. Some (λ name. image_in h.files name) };

    ghost coming = { λ h. Some (moment_at h.clock) };

    ghost faults = { λ _. 0 };

    ghost given = { λ h. h.given };

    ghost shut_doors = { λ h. h.shut_doors };

    ghost is_honest = { λ _. false };

    ghost is_steady = { λ _. true };

    ghost steady_below = { Prim.search rules };

    fn folder(&mut self, path: &str) -> Result<SteadyFolder, OutsideRefused> {
        let _ = path;
        match self.files.copy() {
            Ok(files) => {
                self.given = self.given.saturating_add(1);
                Ok(SteadyFolder::new(self.alloc, files, self.room))
            }
            Err(_) => Err(OutsideRefused::OutOfMemory),
        }
    }

    fn listen(&mut self, path: &str) -> Result<SteadyLinks<I, O>, OutsideRefused> {
        let Ok(address) = String::from_str(self.alloc, path) else {
            return Err(OutsideRefused::OutOfMemory);
        };
        let next = SteadyLinks::new(self.alloc, Vec::new(self.alloc));
        Ok(mem::replace(&mut self.door, next).at(address))
    }

    fn shut(&mut self, door: SteadyLinks<I, O>) {
        let (given, has_ended) = (door.given(), door.has_ended());
        self.shut.take_back(door.into_address(), given, has_ended);
    }

    fn clock(&mut self) -> ListedClock {
        mem::replace(&mut self.clock, ListedClock::new(Vec::new(self.alloc)))
    }
}
