ghost use Rattle.std.specs.Prelude.{◌≡◌, ◌+◌, ◌-◌, ◌≤◌, ◌<◌, [], length, IfSome, IfOk, IfErr, IsFalse, vec_len, vec_capacity};
ghost use Rattle.std.specs.Option.{option_map};
ghost use Rattle.kr_outside.specs.Faults.{KeepsSteady};
ghost use Rattle.daemon.specs.Accepts.{standing, listening, IsTurnedAway, Admits, AcceptsOne, Accepts, AcceptsLinks, FinishesAll, IsHungUp, IsJobOf, Rounds};
ghost use Rattle.daemon.specs.Hubs.{CountsRefused, IsNotJoined, IsSameHub, Lends};
ghost use Rattle.daemon.specs.Jobs.{Serves};

use crate::hub::Hub;
use crate::job::{LinkJob, Served, Serving, let_go};
use crate::spawner::ServingSpawner;
use crate::started::StartRefused;
use connection_worker::service_desk::JoinRefused;
use kr_outside::{Failed, Link, Listener, Sink, Source};
use std::alloc::AllocGlobal;
use std::sync::Wait;
use std::thread::Threads;

/// Why a loop over links ended.
#[derive(Clone, Copy, Debug, PartialEq, Eq)]
pub enum LoopEnd {
    /// No link will come any more.
    Ended,
    /// As many links were accepted as were asked for.
    Reached,
    /// The listener failed.
    ListenFault,
    /// No memory was left.
    Memory,
}

/// What serving a listener's link as a connection of a hub resulted in.
pub type ServedBy<U: Hub, L: Listener> = Served<U::Reader, U::Writer, L::In, L::Out>;

// Closes both ends of a link that isn't served, so that the other side sees its end.
fn hang_up<I: Source + Drop, O: Sink + Drop>(input: I, output: O)
    ensures { IsHungUp I.left I.faults I.is_steady I.is_closed
        O.written O.faults O.is_steady O.is_closed input output }
{
    let mut input = input;
    let mut output = output;
    input.close();
    output.close();
}

// Records that the connection of a job is gone, closes its link, and hands its desks back to the hub.
fn turn_away<R: Drop, U: Hub, L: Listener>(hub: &mut U, job: Serving<R, U, L>)
    requires reader { (U.Reader.told job.reader).home ≡ U.home hub.old }
    requires writer { (U.Writer.told job.writer).home ≡ U.home hub.old }
    ensures away { (gone : U.Writer) × IsTurnedAway
        U.Reader.has_seen U.Writer.told U.Writer.has_seen
        job gone (U.view hub.old) (U.view hub.new) }
    ensures hung { IsHungUp L.In.left L.In.faults L.In.is_steady L.In.is_closed
        L.Out.written L.Out.faults L.Out.is_steady L.Out.is_closed job.input job.output }
    ensures lent { U.lent hub.new ≡ U.lent hub.old - 2 }
    ensures counted { U.refused hub.new ≡ U.refused hub.old }
    ensures hub { IsSameHub U.uid U.guid U.seed U.home hub.old hub.new }
{
    let LinkJob {
        reader,
        writer,
        input,
        output,
        ..
    } = job;
    hang_up(input, output);
    hub.take_back(reader, let_go(writer));
}

// What came of waiting for a link.
#[derive(Clone, Copy, PartialEq, Eq)]
enum Next {
    // A link was accepted.
    Accepted,
    // No link will come any more.
    Ended,
    // The listener failed.
    Failed,
}

// Joins the connection of a link, and returns its job. If the connection can't join, the link is closed.
fn join_link<R: Copy + Drop, U: Hub, L: Listener>(
    rt: &R,
    hub: &mut U,
    link: Link<L::In, L::Out>,
) -> Result<Serving<R, U, L>, JoinRefused>
    requires input_open { IsFalse (L.In.is_closed link.input) }
    requires output_open { IsFalse (L.Out.is_closed link.output) }
    ensures made { IfOk result (λ job. IsJobOf
        U.Reader.told U.Reader.has_seen U.Writer.told U.Writer.has_seen
        (U.uid hub.old) (U.guid hub.old) (U.seed hub.old) (U.home hub.old)
        job (U.view hub.old) (U.view hub.new)) }
    ensures link { IfOk result (λ job. (job.input ≡ link.input) × (job.output ≡ link.output)) }
    ensures refused { IfErr result (λ refused.
        IsNotJoined refused (U.view hub.old) (U.view hub.new)) }
    ensures hung { IfErr result (λ refused. IsHungUp
        L.In.left L.In.faults L.In.is_steady L.In.is_closed
        L.Out.written L.Out.faults L.Out.is_steady L.Out.is_closed link.input link.output) }
    ensures counted { CountsRefused (U.refused hub.old) (U.refused hub.new) result }
    ensures lent { Lends (U.lent hub.old) (U.lent hub.new) result }
    ensures hub { IsSameHub U.uid U.guid U.seed U.home hub.old hub.new }
{
    let Link { input, output } = link;
    let (conn, reader, writer) = match hub.join() {
        Ok(joined) => joined,
        Err(refused) => {
            hang_up(input, output);
            return Err(refused);
        }
    };
    let (auth, clock, salts) = hub.parts(conn);
    Ok(LinkJob {
        rt: *rt,
        conn,
        auth,
        salts,
        clock,
        reader,
        writer,
        input,
        output,
    })
}

// Joins the connection of a link, and starts its job. If the connection can't join, the link is closed; if
// the job can't be started, the link is closed, its connection is gone, and the hub has its desks again.
fn admit<
    R: AllocGlobal + Threads + Wait + Copy + Send + Sync + Drop + 'static,
    U: Hub,
    L: Listener,
>(rt: &R, hub: &mut U, spawner: &mut ServingSpawner<R, U, L>, link: Link<L::In, L::Out>)
where
    L::In: Send + 'static,
    L::Out: Send + 'static,
    requires input_open { IsFalse (L.In.is_closed link.input) }
    requires output_open { IsFalse (L.Out.is_closed link.output) }
    ensures admits { Admits U.Reader.told U.Reader.has_seen U.Writer.told U.Writer.has_seen
        L.In.left L.In.faults L.In.is_steady L.In.is_closed
        L.Out.written L.Out.faults L.Out.is_steady L.Out.is_closed
        (U.uid hub.old) (U.guid hub.old) (U.seed hub.old) (U.home hub.old) link.input link.output
        (standing U.view U.lent U.refused hub.old spawner.old)
        (standing U.view U.lent U.refused hub.new spawner.new) }
    ensures hub { IsSameHub U.uid U.guid U.seed U.home hub.old hub.new }
{
    let Ok(job) = join_link::<R, U, L>(rt, hub, link) else {
        return;
    };
    match spawner.start(rt, job) {
        Ok(()) => {}
        Err(StartRefused::Failed(job)) => turn_away::<R, U, L>(hub, job),
        Err(StartRefused::OutOfMemory(job)) => turn_away::<R, U, L>(hub, job),
    }
}

// Waits for a link, and admits it.
fn accept_one<
    R: AllocGlobal + Threads + Wait + Copy + Send + Sync + Drop + 'static,
    U: Hub,
    L: Listener,
>(rt: &R, hub: &mut U, listener: &mut L, spawner: &mut ServingSpawner<R, U, L>) -> Next
where
    L::In: Send + 'static,
    L::Out: Send + 'static,
    ensures accepts { AcceptsOne U.Reader.told U.Reader.has_seen U.Writer.told U.Writer.has_seen
        L.In.left L.In.faults L.In.is_steady L.In.is_closed
        L.Out.written L.Out.faults L.Out.is_steady L.Out.is_closed
        (U.uid hub.old) (U.guid hub.old) (U.seed hub.old) (U.home hub.old)
        (record {
          standing = standing U.view U.lent U.refused hub.old spawner.old;
          listening = listening L.coming L.given listener.old;
        })
        (record {
          standing = standing U.view U.lent U.refused hub.new spawner.new;
          listening = listening L.coming L.given listener.new;
        })
        (L.faults listener.old) (L.faults listener.new) (L.has_ended listener.new) result }
    ensures hub { IsSameHub U.uid U.guid U.seed U.home hub.old hub.new }
    ensures address { L.address listener.new ≡ L.address listener.old }
    ensures steady { KeepsSteady (L.is_steady listener.old) (L.is_steady listener.new)
        (L.faults listener.old) (L.faults listener.new) }
{
    let given = match listener.accept() {
        Ok(given) => given,
        Err(Failed) => return Next::Failed,
    };
    let Some(link) = given else {
        return Next::Ended;
    };
    admit::<R, U, L>(rt, hub, spawner, link);
    Next::Accepted
}

// One less than a number that isn't 0; None if there is no number.
fn one_less(left: Option<u64>) -> Option<u64>
    requires { IfSome left (λ number. 0 < number) }
    ensures { left ≡ option_map (λ number. number + 1) result }
{
    match left {
        Some(number) => Some(number - 1),
        None => None,
    }
}

// Accepts links until the loop ends. Before each, there is room for the results of all jobs that were started
// and of one more, and the threads that have ended are joined.
fn accept_links<
    R: AllocGlobal + Threads + Wait + Copy + Send + Sync + Drop + 'static,
    U: Hub,
    L: Listener,
>(
    rt: &R,
    hub: &mut U,
    listener: &mut L,
    spawner: &mut ServingSpawner<R, U, L>,
    most: Option<u64>,
    done: &mut Vec<ServedBy<U, L>>,
) -> LoopEnd
where
    L::In: Send + 'static,
    L::Out: Send + 'static,
    requires room { vec_len done.old + length spawner.old.started ≤ vec_capacity done.old }
    ensures accepts { AcceptsLinks U.Reader.told U.Reader.has_seen U.Writer.told U.Writer.has_seen
        L.In.left L.In.faults L.In.is_steady L.In.is_closed
        L.Out.written L.Out.faults L.Out.is_steady L.Out.is_closed
        (U.uid hub.old) (U.guid hub.old) (U.seed hub.old) (U.home hub.old) most
        (record {
          standing = standing U.view U.lent U.refused hub.old spawner.old;
          listening = listening L.coming L.given listener.old;
        })
        (record {
          standing = standing U.view U.lent U.refused hub.new spawner.new;
          listening = listening L.coming L.given listener.new;
        })
        (L.faults listener.old) (L.faults listener.new) (L.has_ended listener.new) result }
    ensures hub { IsSameHub U.uid U.guid U.seed U.home hub.old hub.new }
    ensures address { L.address listener.new ≡ L.address listener.old }
    ensures steady { KeepsSteady (L.is_steady listener.old) (L.is_steady listener.new)
        (L.faults listener.old) (L.faults listener.new) }
    ensures done { done.new.items ≡ done.old.items }
    ensures room { vec_len done.new + length spawner.new.started ≤ vec_capacity done.new }
{
    let mut left = most;
    for _ in rt.forever() {
        if left == Some(0) {
            return LoopEnd::Reached;
        }
        match done.reserve(spawner.len() + 1) {
            Ok(()) => {}
            Err(_) => return LoopEnd::Memory,
        }
        spawner.settle(rt);
        match accept_one(rt, hub, listener, spawner) {
            Next::Accepted => left = one_less(left),
            Next::Ended => return LoopEnd::Ended,
            Next::Failed => return LoopEnd::ListenFault,
        }
    }
    unreachable!()
}

// Waits for all jobs that were started, and appends their results in order.
fn finish_all<
    R: AllocGlobal + Threads + Wait + Copy + Send + Sync + Drop + 'static,
    U: Hub,
    L: Listener,
>(rt: &R, spawner: &mut ServingSpawner<R, U, L>, done: &mut Vec<ServedBy<U, L>>)
where
    L::In: Send + 'static,
    L::Out: Send + 'static,
    requires room { vec_len done.old + length spawner.old.started ≤ vec_capacity done.old }
    ensures { FinishesAll (Serves U.Reader.told U.Reader.has_seen
        U.Writer.told U.Writer.has_seen U.Time.coming
        L.In.left L.In.faults L.In.is_steady L.In.is_closed
        L.Out.written L.Out.faults L.Out.is_steady L.Out.is_closed)
        spawner.old spawner.new done.old.items done.new.items }
{
    while let Some(served) = spawner.finish(rt) {
        done.push_reserved(served);
    }
}

/// Accepts links, and serves each by a job, until no link will come any more, as many as asked for were
/// accepted (`most`, if it isn't None), the listener fails, or memory runs out; then waits for all jobs. The
/// results are appended to `done` in the order in which the jobs were started. Room for a result is made
/// before each link is accepted.
///
/// A link is closed without being served only if its connection couldn't join, or its job couldn't be
/// started; then its connection is gone, and the hub takes back its desks. `Ended` comes only if the listener returned None, `Reached` only if
/// `most` links were accepted, and `ListenFault` only if the listener's count of faults rose.
pub fn accept_loop<
    R: AllocGlobal + Threads + Wait + Copy + Send + Sync + Drop + 'static,
    U: Hub,
    L: Listener,
>(
    rt: &R,
    hub: &mut U,
    listener: &mut L,
    spawner: &mut ServingSpawner<R, U, L>,
    most: Option<u64>,
    done: &mut Vec<ServedBy<U, L>>,
) -> LoopEnd
where
    L::In: Send + 'static,
    L::Out: Send + 'static,
    requires idle { spawner.old.started ≡ [] }
    ensures accepts { Accepts
        (Rounds U.Reader.told U.Reader.has_seen U.Writer.told U.Writer.has_seen
        L.In.left L.In.faults L.In.is_steady L.In.is_closed
        L.Out.written L.Out.faults L.Out.is_steady L.Out.is_closed
        (U.uid hub.old) (U.guid hub.old) (U.seed hub.old) (U.home hub.old))
        (Serves U.Reader.told U.Reader.has_seen U.Writer.told U.Writer.has_seen U.Time.coming
        L.In.left L.In.faults L.In.is_steady L.In.is_closed
        L.Out.written L.Out.faults L.Out.is_steady L.Out.is_closed) most
        (record {
          standing = standing U.view U.lent U.refused hub.old spawner.old;
          listening = listening L.coming L.given listener.old;
        })
        (record {
          standing = standing U.view U.lent U.refused hub.new spawner.new;
          listening = listening L.coming L.given listener.new;
        })
        (L.faults listener.old) (L.faults listener.new) (L.has_ended listener.new)
        done.old.items done.new.items result }
    ensures hub { IsSameHub U.uid U.guid U.seed U.home hub.old hub.new }
    ensures address { L.address listener.new ≡ L.address listener.old }
    ensures steady { KeepsSteady (L.is_steady listener.old) (L.is_steady listener.new)
        (L.faults listener.old) (L.faults listener.new) }
{
    let end = accept_links(rt, hub, listener, spawner, most, done);
    finish_all::<R, U, L>(rt, spawner, done);
    end
}
