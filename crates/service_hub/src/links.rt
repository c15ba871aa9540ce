// Serving the links of a listener by one service that threads share.
ghost use Rattle.std.specs.Prelude.{◌≡◌, ◌<◌, ◌^◌, [], IfSome, Some};
ghost use Rattle.kr_outside.specs.Faults.{KeepsSteady};
ghost use Rattle.shared_service.specs.service_events.specs.Fates.{is_steady};
ghost use Rattle.daemon.specs.Accepts.{listening};
ghost use Rattle.std.specs.List.{AllByRecursion};
ghost use Rattle.service_hub.specs.Gathering.{AreGathered};
ghost use Rattle.shared_service.specs.shared_turn.specs.Shares.{whole};
ghost use Rattle.service_hub.specs.Lending.{of_desk};
ghost use Rattle.service_hub.specs.Links.{IsOf, ServesLinks, all_passes};
ghost use Rattle.service_hub.specs.Loop.{HasLoopCause};

use crate::clock::CommonClock;
use crate::hub::ServiceHub;
use daemon::{LoopEnd, Served, Spawner, accept_loop};
use kr_outside::{Clock, Folder, Listener};
use shared_service::service_history::Service;
use shared_service::{Pass, SharedDesk, SharedService};
use std::alloc::AllocGlobal;
use std::sync::Wait;
use std::thread::Threads;

/// A spawner of the jobs that serve the links of a listener by a service over a folder.
pub type LinkSpawner<R, F, C, L> = Spawner<
    R,
    SharedDesk<R, F>,
    SharedDesk<R, F>,
    CommonClock<R, C>,
    <L as Listener>::In,
    <L as Listener>::Out,
>;

/// What is left when all links of a listener were served.
#[derive(Drop)]
pub struct AllServed<F: Folder> {
    /// Why no more links are accepted.
    pub end: LoopEnd,
    /// The service, as everything that was recorded left it.
    pub service: Service<F>,
    /// How many connections couldn't join.
    pub refused: u64,
}

// Gathers the passes of both desks of each connection, the last connection first.
fn gather_all<R: Wait + Drop, F: Folder, I: Drop, O: Drop>(
    service: &SharedService<F>,
    pass: &mut Pass<F>,
    done: Vec<Served<SharedDesk<R, F>, SharedDesk<R, F>, I, O>>,
)
    requires table { pass.old.home.table ≡ service.now }
    requires of_it { AllByRecursion (IsOf (of_desk pass.old.home)) done.items }
    ensures { AreGathered pass.old (all_passes done.items) pass.new }
{
    let mut done = done;
    while let Some(served) = done.pop() {
        let Served { reader, writer, .. } = served;
        service.gather(pass, writer.into_pass());
        service.gather(pass, reader.into_pass());
    }
}

// The number of links that is asked for fits in 64 bits. The call does nothing.
fn has_64_bits(most: Option<u64>)
    ensures { IfSome most (λ number. number < 2 ^ 64) }
{}

/// Serves the links of a listener by the service of a hub, each by a job of its own, until none will
/// come any more, `most` were accepted, the listener fails, or memory runs out; then waits for all
/// jobs, gathers what their desks have seen and recorded, and takes the service back from the threads.
///
/// Each link was served, or dropped since its connection couldn't join or its job couldn't be started
/// (`accept_loop` of daemon). All that the connections and the hub recorded is one history, in which each
/// of their events has one place, and which led to the service. No event is of anyone else.
pub fn serve_links<
    R: AllocGlobal + Threads + Wait + Copy + Send + Sync + Drop + 'static,
    F: Folder + Send + 'static,
    C: Clock + Send + 'static,
    L: Listener,
>(
    rt: &R,
    hub: ServiceHub<R, F, C>,
    listener: &mut L,
    spawner: &mut LinkSpawner<R, F, C, L>,
    most: Option<u64>,
) -> AllServed<F>
where
    F::Cell: Send + 'static,
    L::In: Send + 'static,
    L::Out: Send + 'static,
    requires idle { spawner.old.started ≡ [] }
    requires fresh { L.given listener.old ≡ 0 }
    requires whole { hub.pass.home.share ≡ whole }
    ensures why { HasLoopCause result.end most (L.given listener.new) (L.has_ended listener.new)
        (L.faults listener.old) (L.faults listener.new) }
    ensures idle { spawner.new.started ≡ [] }
    ensures address { L.address listener.new ≡ L.address listener.old }
    ensures steady { KeepsSteady (L.is_steady listener.old) (L.is_steady listener.new)
        (L.faults listener.old) (L.faults listener.new) }

    // Each link and each connection, and the history that they have in common.
    ensures served { ServesLinks
        L.In.left L.In.faults L.In.is_steady L.In.is_closed
        L.Out.written L.Out.faults L.Out.is_steady L.Out.is_closed
        hub.uid hub.guid hub.seed most hub.pass
        (record {
          standing = record {
            view = hub.pass.view;
            lent = 1;
            unjoined = hub.refused;
            started = spawner.old.started;
            unstarted = spawner.old.unstarted;
          };
          listening = listening L.coming L.given listener.old;
        })
        result.refused spawner.new.unstarted (listening L.coming L.given listener.new)
        (L.faults listener.old) (L.faults listener.new) (L.has_ended listener.new)
        result.end result.service.history }
    ensures steady_disk { is_steady F.is_steady F.Cell.is_steady result.service.disk
        ≡ hub.pass.steady }
{
    has_64_bits(most);
    let mut hub = hub;
    let mut done = Vec::new(rt.alloc());
    let mut last = hub.note();
    let end = accept_loop(rt, &mut hub, listener, spawner, most, &mut done);
    let (service, pass, refused) = hub.into_parts();
    service.gather(&mut last, pass);
    gather_all(&service, &mut last, done);
    last.has_seen_a_history();
    AllServed {
        end,
        service: service.close(rt, last),
        refused,
    }
}
