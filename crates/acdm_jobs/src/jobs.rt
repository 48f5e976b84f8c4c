//! Jobs at once, each on a thread of its own.
ghost use Rattle.std.specs.Prelude.{◌≡◌, ◌<◌, ◌≤◌, [], ◌∷◌, ◌++◌, length, IfOk, vec_len};
ghost use Rattle.std.specs.Prelude.{vec_capacity};
ghost use Rattle.acdm_jobs.specs.Each.{Each};

use std::alloc::{AllocError, Global};
use std::marker::Model;
use std::snapshot::Snapshot;
use std::sync::Wait;
use std::sync::atomic::{AtomicU64, Ordering};
use std::thread;
use std::thread::{Promise, PromisedHandle, Scope, Threads};

/// Work that one thread does from its beginning to its end.
pub trait Job<T: Drop + Send>: Drop + Send {
    /// What the job may give.
    ghost gives: { Self → T → Type 0 };

    /// Does the job. Where `begins` is false no thread could be made for it: it is to end at once.
    fn run(self, begins: bool) -> T
        ensures { gives self result };
}

// A thread's promise: its result is one that the job may give.
#[derive(Drop)]
struct Gives<B>(Snapshot<B>);

impl<T: Drop + Send, B: Job<T>> Promise<T> for Gives<B> {
    ghost kept_by = { λ p r. B.gives p.0.value r };
}

// A job that was started, or that no thread could be made for and that is done. Contracts see the
// job.
#[derive(Drop)]
struct Begun<B: Job<T>, T: Drop + Send> {
    job: Snapshot<B>,
    handle: Option<PromisedHandle<T, Gives<B>>>,
    done: Option<T>,
}

impl<B: Job<T>, T: Drop + Send> Model for Begun<B, T> {
    ghost use Rattle.std.specs.Prelude.{◌≡◌, MatchOption};

    ghost Value = { B };

    ghost view = { λ b. b.job.value };

    ghost invariant = { λ b. MatchOption b.handle
        (MatchOption b.done ⊥ (λ t. B.gives b.job.value t))
        (λ h. h.promise.0.value ≡ b.job.value) };
}

impl<B: Job<T>, T: Drop + Send> Begun<B, T> {
    // Waits for the job's end.
    fn ended<Rt: Threads>(self, rt: &Rt) -> T
        ensures { B.gives self result }
    {
        let Begun {
            job: _,
            handle,
            done,
        } = self;
        match handle {
            Some(handle) => handle.join(rt),
            None => match done {
                Some(done) => done,
                None => unreachable!(),
            },
        }
    }
}

// Starts a thread for the job of this number, from 1. Where none can be made, the number goes into
// `refused`, by which the job learns that it is to end at once, and it is run here.
fn begin<'s, E, B: Job<T> + 's, T: Drop + Send + 's>(
    scope: &Scope<'s, E>,
    refused: &'s AtomicU64,
    number: u64,
    job: B,
) -> Begun<B, T>
    ensures { result ≡ job }
{
    let promise = Gives(Snapshot::of(&job));
    let kept = Snapshot::of(&job);
    let work = move || -> T
        ensures { B.gives job result }
    { job.run(refused.load(Ordering::SeqCst) != number) };
    match scope.spawn_with(promise, work) {
        Ok(handle) => Begun {
            job: kept,
            handle: Some(handle),
            done: None,
        },
        Err(error) => {
            refused.store(number, Ordering::SeqCst);
            Begun {
                job: kept,
                handle: None,
                done: Some((error.value)()),
            }
        }
    }
}

// Starts a thread for each job, in their order.
fn begin_all<'s, E, B: Job<T> + 's, T: Drop + Send + 's>(
    scope: &Scope<'s, E>,
    refused: &'s AtomicU64,
    jobs: Vec<B>,
    mut begun: Vec<Begun<B, T>>,
) -> Vec<Begun<B, T>>
    requires { (vec_len begun ≡ 0) × (vec_len jobs ≤ vec_capacity begun) }
    ensures { result.items ≡ jobs.items }
{
    let mut number = 0u64;
    for job in jobs {
        number += 1;
        begun.push_reserved(begin(scope, refused, number, job));
    }
    begun
}

// Waits for each job's end, in their order.
fn end_all<B: Job<T>, T: Drop + Send, Rt: Threads>(
    rt: &Rt,
    begun: Vec<Begun<B, T>>,
    mut done: Vec<T>,
) -> Vec<T>
    requires { (vec_len done ≡ 0) × (vec_len begun ≤ vec_capacity done) }
    ensures { Each B.gives begun.items result.items }
{
    for one in begun {
        done.push_reserved(one.ended(rt));
    }
    done
}

// Does all jobs at once, in vectors that have the room.
fn run_in<B: Job<T>, T: Drop + Send, Rt: Threads + Wait>(
    rt: &Rt,
    jobs: Vec<B>,
    begun: Vec<Begun<B, T>>,
    done: Vec<T>,
) -> Vec<T>
    requires begun { (vec_len begun ≡ 0) × (vec_len jobs ≤ vec_capacity begun) }
    requires done { (vec_len done ≡ 0) × (vec_len jobs ≤ vec_capacity done) }
    ensures { Each B.gives jobs.items result.items }
{
    let refused = AtomicU64::new(0);
    let refused = &refused;
    thread::scope(
        thread::scope_env(),
        rt,
        |scope| -> Vec<T>
            requires { (vec_len begun ≡ 0) × (vec_len jobs ≤ vec_capacity begun)
                × (vec_len done ≡ 0) × (vec_len jobs ≤ vec_capacity done) }
            ensures { Each B.gives jobs.items result.items }
        {
            let begun = begin_all(scope, refused, jobs, begun);
            end_all(rt, begun, done)
        },
    )
}

/// Jobs that are to be done at once, with all the memory that this takes but the threads' own.
#[derive(Drop)]
pub struct Crew<B: Job<T>, T: Drop + Send> {
    jobs: Vec<B>,
    begun: Vec<Begun<B, T>>,
    done: Vec<T>,
}

impl<B: Job<T>, T: Drop + Send> Model for Crew<B, T> {
    ghost use Rattle.std.specs.Prelude.{◌≡◌, ◌≤◌, vec_len, vec_capacity};
    ghost use Rattle.acdm_jobs.specs.Each.{Waiting};

    ghost Value = { Waiting B };

    ghost view = { λ c. record { jobs = c.jobs.items; room = vec_capacity c.begun } };

    ghost invariant = { λ c. (vec_len c.jobs ≤ vec_capacity c.begun)
        × (vec_capacity c.begun ≤ vec_capacity c.jobs)
        × (vec_capacity c.begun ≤ vec_capacity c.done)
        × (vec_len c.begun ≡ 0) × (vec_len c.done ≡ 0) };
}

impl<B: Job<T>, T: Drop + Send> Crew<B, T> {
    /// No job, with room for so many. `Err` only where there is no memory.
    pub fn new(alloc: Global, room: usize) -> Result<Crew<B, T>, AllocError>
        ensures { IfOk result (λ crew. (crew.jobs ≡ []) × (crew.room ≡ room)) }
    {
        let begun = Vec::with_capacity(alloc, room)?;
        let jobs = Vec::with_capacity(alloc, room)?;
        let done = Vec::with_capacity(alloc, room)?;
        Ok(Crew { jobs, begun, done })
    }

    /// Adds a job behind the others.
    pub fn add(&mut self, job: B)
        requires { length self.old.jobs < self.old.room }
        ensures { self.new ≡ record self.old { jobs = self.old.jobs ++ job ∷ [] } }
    {
        self.jobs.push_reserved(job);
    }

    /// Does all jobs at once, each on a thread of its own, and waits for all: what the k-th gave
    /// comes at place k. A job that no thread can be made for is run here with no leave to begin.
    pub fn run<Rt: Threads + Wait>(self, rt: &Rt) -> Vec<T>
        ensures gives { Each B.gives self.jobs result.items }
        ensures len { vec_len result ≡ length self.jobs }
    {
        let Crew { jobs, begun, done } = self;
        run_in(rt, jobs, begun, done)
    }
}
