ghost use Rattle.std.specs.Prelude.{◌≡◌, [], ◌++◌, ◌∷◌, length, IfErr, OnOk, IfOk};
ghost use Rattle.kr_outside.specs.Host.{GivesOne};
ghost use Rattle.daemon.specs.Jobs.{Serves};
ghost use Rattle.daemon.specs.Spawners.{idle, HandsBack, IsUnstarted, Finishes};

use crate::hub::Hub;
use crate::job::{LinkJob, Served};
use crate::started::{StartRefused, Started};
use connection_worker::service_desk::{ReadDesk, WriteDesk};
use kr_outside::{Clock, Listener, Sink, Source};
use std::alloc::{AllocGlobal, Global};
use std::collections::VecDeque;
use std::marker::Model;
use std::sync::Wait;
use std::thread::Threads;

// How jobs are done.
#[derive(Drop)]
enum Form {
    // Each in a thread of its own.
    Threads,
    // In place, one after the other. The starts are numbered from 0, and those that are listed fail.
    InPlace { failing: Vec<u64>, next: u64 },
}

impl Form {
    // Counts a start in place, and returns whether it is to fail.
    fn fails(failing: &[u64], next: &mut u64) -> bool {
        let number = *next;
        *next = number.saturating_add(1);
        failing.contains(&number)
    }
}

/// Starts jobs, and finishes them in the order in which they were started. Contracts see the jobs that were
/// started and aren't finished, in order, how often the spawner has failed, and how many starts it refused.
#[derive(Drop)]
pub struct Spawner<
    R: Drop,
    A: ReadDesk + Drop,
    B: WriteDesk + Drop,
    C: Clock,
    I: Source + Drop,
    O: Sink + Drop,
> {
    form: Form,
    started: VecDeque<Started<R, A, B, C, I, O>>,
    // The number of the first of these, counted from the first one ever, and the numbers of those that may
    // still have a thread.
    first: u64,
    running: Vec<u64>,
    faults: u64,
    unstarted: u64,
}

impl<
    R: Drop,
    A: ReadDesk + Drop,
    B: WriteDesk + Drop,
    C: Clock,
    I: Source + Drop,
    O: Sink + Drop,
> Model for Spawner<R, A, B, C, I, O> {
    ghost use Rattle.daemon.specs.Jobs.{Job};
    ghost use Rattle.daemon.specs.Spawners.{Spawning};

    ghost Value = { Spawning (Job A B C I O) };

    ghost view = { λ s. record {
      started = s.started.items;
      faults = s.faults;
      unstarted = s.unstarted;
    } };
}

/// A spawner of the jobs over the desks of a hub and the links of a listener.
pub type ServingSpawner<R, U: Hub, L: Listener> = Spawner<
    R,
    U::Reader,
    U::Writer,
    U::Time,
    L::In,
    L::Out,
>;

impl<
    R: AllocGlobal + Threads + Wait + Sync + Send + Drop + 'static,
    A: ReadDesk + Drop + Send + 'static,
    B: WriteDesk + Drop + Send + 'static,
    C: Clock + Send + 'static,
    I: Source + Drop + Send + 'static,
    O: Sink + Drop + Send + 'static,
> Spawner<R, A, B, C, I, O> {
    fn with_form(alloc: Global, form: Form) -> Spawner<R, A, B, C, I, O>
        ensures { result ≡ idle }
    {
        Spawner {
            form,
            started: VecDeque::new(alloc),
            first: 0,
            running: Vec::new(alloc),
            faults: 0,
            unstarted: 0,
        }
    }

    /// A spawner that starts a thread for each job. It fails if no thread can be made.
    pub fn in_threads(alloc: Global) -> Spawner<R, A, B, C, I, O>
        ensures { result ≡ idle }
    {
        Spawner::with_form(alloc, Form::Threads)
    }

    /// A spawner that does each job in place when it is started. The starts are numbered from 0, and those
    /// that are listed fail.
    pub fn in_place(alloc: Global, failing: Vec<u64>) -> Spawner<R, A, B, C, I, O>
        ensures { result ≡ idle }
    {
        Spawner::with_form(alloc, Form::InPlace { failing, next: 0 })
    }

    /// How many jobs were started and aren't finished.
    pub fn len(&self) -> usize
        ensures { result ≡ length self.now.started }
    {
        self.started.len()
    }

    // Starts a job in the spawner's form. Nothing is counted.
    fn begin(
        form: &mut Form,
        rt: &R,
        job: LinkJob<R, A, B, C, I, O>,
    ) -> Result<Started<R, A, B, C, I, O>, StartRefused<LinkJob<R, A, B, C, I, O>>>
        ensures started { IfOk result (λ started. started ≡ job) }
        ensures refused { IfErr result (λ refused. HandsBack job refused) }
    {
        match form {
            Form::Threads => Started::in_thread(rt, job),
            Form::InPlace { failing, next } => {
                if Form::fails(failing.as_slice(), next) {
                    return Err(StartRefused::Failed(job));
                }
                Ok(Started::in_place(job))
            }
        }
    }

    /// Starts a job; it is done by a thread of its own, or has been done when the call returns.
    ///
    /// Refused with `Failed` only if the count of faults rose, and with `OutOfMemory` if no memory was left.
    /// The job is handed back, and the refusal is counted.
    pub fn start(
        &mut self,
        rt: &R,
        job: LinkJob<R, A, B, C, I, O>,
    ) -> Result<(), StartRefused<LinkJob<R, A, B, C, I, O>>>
        ensures started { OnOk result
            (self.new ≡ record self.old { started = self.old.started ++ job ∷ [] }) }
        ensures refused { IfErr result (λ refused. IsUnstarted job refused self.old self.new) }
    {
        if self.started.reserve(1).is_err() || self.running.reserve(1).is_err() {
            self.unstarted = self.unstarted.saturating_add(1);
            return Err(StartRefused::OutOfMemory(job));
        }
        match Spawner::begin(&mut self.form, rt, job) {
            Ok(started) => {
                let number = self.first.saturating_add(self.started.len() as u64);
                self.running.push(number).unwrap();
                self.started.push_back(started).unwrap();
                Ok(())
            }
            Err(StartRefused::Failed(job)) => {
                self.faults = self.faults.saturating_add(1);
                self.unstarted = self.unstarted.saturating_add(1);
                Err(StartRefused::Failed(job))
            }
            Err(StartRefused::OutOfMemory(job)) => {
                self.unstarted = self.unstarted.saturating_add(1);
                Err(StartRefused::OutOfMemory(job))
            }
        }
    }

    /// Waits for the oldest job that isn't finished, and returns its result; None if there is no such job.
    pub fn finish(&mut self, rt: &R) -> Option<Served<A, B, I, O>>
        ensures { Finishes (Serves A.told A.has_seen B.told B.has_seen C.coming
            I.left I.faults I.is_steady I.is_closed O.written O.faults O.is_steady O.is_closed)
            self.old self.new result }
    {
        let started = self.started.pop_front()?;
        self.first = self.first.saturating_add(1);
        Some(started.finish(rt))
    }

    // Joins the thread of the job at this place, if the thread has reported its end, and keeps the result in its
    // place. Returns whether the job has no thread any more.
    fn settle_at(started: &mut VecDeque<Started<R, A, B, C, I, O>>, rt: &R, place: usize) -> bool
        ensures { started.new.items ≡ started.old.items }
    {
        match started.get_mut(place) {
            Some(job) => job.settle(rt),
            None => true,
        }
    }

    // The same for each of the jobs with these numbers; the numbers of those that have no thread any more are
    // removed. The first job has the number `first`.
    fn settle_all(
        started: &mut VecDeque<Started<R, A, B, C, I, O>>,
        rt: &R,
        first: u64,
        running: &mut Vec<u64>,
    )
        ensures { started.new.items ≡ started.old.items }
    {
        let mut next = 0;
        while next < running.len() {
            let place = running[next].saturating_sub(first) as usize;
            if Spawner::settle_at(started, rt, place) {
                running.swap_remove(next);
            } else {
                next += 1;
            }
        }
    }

    /// Joins every thread that has reported its end, and keeps the results in their places: what `finish` returns
    /// is the same. So the stack of a thread that has ended isn't kept while an older job runs.
    pub fn settle(&mut self, rt: &R)
        ensures { self.new ≡ self.old }
    {
        Spawner::settle_all(&mut self.started, rt, self.first, &mut self.running);
    }
}
