// Services over folders in memory without files, and what lends them to a test.
ghost use Rattle.std.specs.Prelude.{◌≡◌, []};

use kr_memory_disk::MemoryFolder;
use std::alloc::Global;
use std::test::Fail;

/// A machine over a folder in memory.
pub type Machine = lone_desk::service_history::service_machine::Machine<MemoryFolder>;

/// A service over a folder in memory.
pub type Service = lone_desk::service_history::Service<MemoryFolder>;

fn no_files(alloc: Global) -> MemoryFolder
    ensures { result.made ≡ [] }
{
    MemoryFolder::new(alloc, Vec::new(alloc))
}

/// A machine over a folder without files.
pub fn machine_over_nothing(alloc: Global) -> Result<Machine, Fail> {
    Ok(Machine::open(alloc, no_files(alloc))?)
}

/// A service over a folder without files.
pub fn service_over_nothing(alloc: Global) -> Result<Service, Fail> {
    Ok(Service::open(alloc, no_files(alloc))?)
}

/// Lends a value to a test, and drops it then. The drop is here, where the type isn't known: in a
/// function that knows it, the prover takes seconds for each drop.
pub fn over<T: Drop, L: FnOnce(&mut T) -> Result<(), Fail>>(value: T, test: L) -> Result<(), Fail>
    requires { L.IsAlwaysCallable test }
{
    let mut value = value;
    test(&mut value)
}

/// Lends a value to a test, and returns it if the test succeeded; otherwise drops it.
pub fn lent<T: Drop, L: FnOnce(&mut T) -> Result<(), Fail>>(value: T, test: L) -> Result<T, Fail>
    requires { L.IsAlwaysCallable test }
{
    let mut value = value;
    test(&mut value)?;
    Ok(value)
}
