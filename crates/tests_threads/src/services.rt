// A service over a folder without files, and that service shared.
ghost use Rattle.std.specs.Prelude.{◌≡◌, [], IfOk};
ghost use Rattle.std.specs.Arc.{arc_value};
ghost use Rattle.shared_turn.specs.Shares.{IsFirst};

use crate::checks::same_number;
use kr_memory_disk::MemoryFolder;
use shared_service::{Pass, SharedService};
use std::alloc::Global;
use std::process::Abort;
use std::sync::Arc;
use std::test::Fail;

/// A service over a folder in memory.
pub type Service = service_history::Service<MemoryFolder>;

fn no_files(alloc: Global) -> MemoryFolder
    ensures { result.made ≡ [] }
{
    MemoryFolder::new(alloc, Vec::new(alloc))
}

fn service_over_nothing(alloc: Global) -> Result<Service, Fail> {
    Ok(Service::open(alloc, no_files(alloc))?)
}

/// A service that threads share, and its first pass.
pub fn shared(
    alloc: Global,
) -> Result<(Arc<SharedService<MemoryFolder>, Global>, Pass<MemoryFolder>), Fail>
    ensures table { IfOk result (λ both. both.1.home.table ≡ arc_value both.0) }
    ensures first { IfOk result (λ both. IsFirst both.1.home.share) }
{
    let (service, pass) = SharedService::open(alloc, service_over_nothing(alloc)?)?;
    let service = Arc::new(alloc, service)?;
    Ok((service, pass))
}

/// Lends a value to a test, and drops it then. The drop is here, where the type isn't known: in a
/// function that knows it, the prover takes seconds for each drop.
pub fn over<T: Drop, L: FnOnce(&mut T) -> Result<(), Fail>>(value: T, test: L) -> Result<(), Fail>
    requires { L.IsAlwaysCallable test }
{
    let mut value = value;
    test(&mut value)
}

/// Asserts how many events are stored.
pub fn stores(rt: &impl Abort, service: &Service, events: u64) -> Result<(), Fail> {
    same_number(rt, service.events().len() as u64, events, "the events");
    Ok(())
}
