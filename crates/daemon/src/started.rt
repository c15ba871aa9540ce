ghost use Rattle.std.specs.Prelude.{◌≡◌, IfOk, IfErr};
ghost use Rattle.daemon.specs.Jobs.{Serves};
ghost use Rattle.daemon.specs.Spawners.{HandsBack};

use crate::job::{LinkJob, Served, serve_link};
use connection_worker::service_desk::{ReadDesk, WriteDesk};
use kr_outside::{Clock, Sink, Source};
use std::alloc::{AllocGlobal, Global};
use std::marker::Model;
use std::snapshot::Snapshot;
use std::sync::atomic::{AtomicBool, Ordering};
use std::sync::{Arc, Wait};
use std::thread;
use std::thread::{Promise, PromisedHandle, Threads};

/// Why a job wasn't started. It is handed back.
#[derive(Drop)]
pub enum StartRefused<J> {
    /// The spawner failed in this call.
    Failed(J),
    /// No memory was left.
    OutOfMemory(J),
}

/// What the result of a job's thread keeps: a result in the job's relation to it; or the job itself, if it
/// was called off.
struct JobOf<
    R: Drop,
    A: ReadDesk + Drop,
    B: WriteDesk + Drop,
    C: Clock,
    I: Source + Drop,
    O: Sink + Drop,
>(Snapshot<LinkJob<R, A, B, C, I, O>>);

impl<
    R: Drop,
    A: ReadDesk + Drop,
    B: WriteDesk + Drop,
    C: Clock,
    I: Source + Drop,
    O: Sink + Drop,
> Drop for JobOf<R, A, B, C, I, O> {
    fn drop(self) {
        let JobOf(_job) = self;
    }
}

impl<
    R: Drop,
    A: ReadDesk + Drop,
    B: WriteDesk + Drop,
    C: Clock,
    I: Source + Drop,
    O: Sink + Drop,
> Promise<Outcome<R, A, B, C, I, O>> for JobOf<R, A, B, C, I, O> {
    ghost use Rattle.std.specs.Prelude.{◌≡◌, MatchResult};
    ghost use Rattle.daemon.specs.Jobs.{Serves};

    ghost kept_by = { λ promise outcome. MatchResult outcome
        (λ served. Serves A.told A.has_seen B.told B.has_seen C.coming
        I.left I.faults I.is_steady I.is_closed O.written O.faults O.is_steady O.is_closed
        promise.0.value served)
        (λ job. job ≡ promise.0.value) };
}

// What a job's thread and its spawner report to each other.
#[derive(Drop)]
struct Signals {
    // The thread couldn't be made, so the job is handed back.
    is_called_off: AtomicBool,
    // The job has its result. The thread sets it last.
    has_ended: AtomicBool,
}

impl Signals {
    // Nothing is reported yet.
    fn new() -> Signals {
        Signals {
            is_called_off: AtomicBool::new(false),
            has_ended: AtomicBool::new(false),
        }
    }
}

type Flags = Arc<Signals, Global>;

// What a job's thread returns.
type Outcome<
    R: Drop,
    A: ReadDesk + Drop,
    B: WriteDesk + Drop,
    C: Clock,
    I: Source + Drop,
    O: Sink + Drop,
> = Result<Served<A, B, I, O>, LinkJob<R, A, B, C, I, O>>;

// A thread that does a job.
#[derive(Drop)]
struct Running<
    R: Drop,
    A: ReadDesk + Drop,
    B: WriteDesk + Drop,
    C: Clock,
    I: Source + Drop,
    O: Sink + Drop,
> {
    handle: PromisedHandle<Outcome<R, A, B, C, I, O>, JobOf<R, A, B, C, I, O>>,
    flags: Flags,
}

/// A job that was started. Contracts see the job. It has a thread that does it, or its result.
#[derive(Drop)]
pub struct Started<
    R: Drop,
    A: ReadDesk + Drop,
    B: WriteDesk + Drop,
    C: Clock,
    I: Source + Drop,
    O: Sink + Drop,
> {
    job: Snapshot<LinkJob<R, A, B, C, I, O>>,
    progress: Option<Result<Running<R, A, B, C, I, O>, Served<A, B, I, O>>>,
}

impl<
    R: Drop,
    A: ReadDesk + Drop,
    B: WriteDesk + Drop,
    C: Clock,
    I: Source + Drop,
    O: Sink + Drop,
> Model for Started<R, A, B, C, I, O> {
    ghost use Rattle.std.specs.Prelude.{◌≡◌, MatchOption, MatchResult};
    ghost use Rattle.daemon.specs.Jobs.{Job, Serves};

    ghost Value = { Job A B C I O };

    ghost view = { λ s. s.job.value };

    ghost invariant = { λ s. MatchOption s.progress ⊥ (λ progress. MatchResult progress
        (λ running. running.handle.promise.0.value ≡ s.job.value)
        (λ served. Serves A.told A.has_seen B.told B.has_seen C.coming
        I.left I.faults I.is_steady I.is_closed O.written O.faults O.is_steady O.is_closed
        s.job.value served)) };
}

impl<
    R: AllocGlobal + Threads + Wait + Sync + Send + Drop + 'static,
    A: ReadDesk + Drop + Send + 'static,
    B: WriteDesk + Drop + Send + 'static,
    C: Clock + Send + 'static,
    I: Source + Drop + Send + 'static,
    O: Sink + Drop + Send + 'static,
> Started<R, A, B, C, I, O> {
    /// Does a job in place.
    pub fn in_place(job: LinkJob<R, A, B, C, I, O>) -> Started<R, A, B, C, I, O>
        ensures { result ≡ job }
    {
        let was = Snapshot::of(&job);
        let served = serve_link(job);
        Started {
            job: was,
            progress: Some(Err(served)),
        }
    }

    /// Starts a thread that does a job.
    ///
    /// Refused with `Failed` if no thread can be made, and with `OutOfMemory` if no memory was left.
    pub fn in_thread(
        rt: &R,
        job: LinkJob<R, A, B, C, I, O>,
    ) -> Result<Started<R, A, B, C, I, O>, StartRefused<LinkJob<R, A, B, C, I, O>>>
        ensures started { IfOk result (λ started. started ≡ job) }
        ensures refused { IfErr result (λ refused. HandsBack job refused) }
    {
        let Ok(flags) = Arc::new(rt.alloc(), Signals::new()) else {
            return Err(StartRefused::OutOfMemory(job));
        };
        let Ok(theirs) = Arc::try_clone(&flags) else {
            return Err(StartRefused::OutOfMemory(job));
        };
        let was = Snapshot::of(&job);
        let promise = JobOf(Snapshot::of(&job));
        let spawned = thread::spawn_with(
            rt,
            promise,
            move || -> Outcome<R, A, B, C, I, O>
                ensures served { IfOk result (λ served.
                    Serves A.told A.has_seen B.told B.has_seen C.coming
                    I.left I.faults I.is_steady I.is_closed
                    O.written O.faults O.is_steady O.is_closed job served) }
                ensures called_off { IfErr result (λ back. back ≡ job) }
            {
                let job = job;
                if theirs.is_called_off.load(Ordering::SeqCst) {
                    return Err(job);
                }
                let served = serve_link(job);
                theirs.has_ended.store(true, Ordering::SeqCst);
                Ok(served)
            },
        );
        match spawned {
            Ok(handle) => Ok(Started {
                job: was,
                progress: Some(Ok(Running { handle, flags })),
            }),
            Err(refused) => {
                flags.is_called_off.store(true, Ordering::SeqCst);
                match (refused.value)() {
                    Ok(served) => Ok(Started {
                        job: was,
                        progress: Some(Err(served)),
                    }),
                    Err(job) => Err(StartRefused::Failed(job)),
                }
            }
        }
    }

    /// Waits for the job, and returns its result.
    pub fn finish(self, rt: &R) -> Served<A, B, I, O>
        ensures { Serves A.told A.has_seen B.told B.has_seen C.coming
            I.left I.faults I.is_steady I.is_closed O.written O.faults O.is_steady O.is_closed
            self result }
    {
        let Started {
            job: _job,
            progress,
        } = self;
        match progress {
            Some(Ok(Running { handle, flags: _ })) => match handle.join(rt) {
                Ok(served) => served,
                Err(job) => serve_link(job),
            },
            Some(Err(served)) => served,
            None => unreachable!(),
        }
    }

    /// If the job's thread has reported its end, joins it and keeps the result. Returns whether the job has no
    /// thread any more.
    pub fn settle(&mut self, rt: &R) -> bool
        ensures { self.new ≡ self.old }
    {
        match self.progress.take() {
            Some(Ok(Running { handle, flags })) => {
                if !flags.has_ended.load(Ordering::SeqCst) {
                    self.progress = Some(Ok(Running { handle, flags }));
                    return false;
                }
                let served = match handle.join(rt) {
                    Ok(served) => served,
                    Err(job) => serve_link(job),
                };
                self.progress = Some(Err(served));
                true
            }
            progress => {
                self.progress = progress;
                true
            }
        }
    }
}
