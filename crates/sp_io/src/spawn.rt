//! Where jobs run beside their caller: in threads, or at once in the caller's place.
ghost use Rattle.std.specs.Prelude.{◌≡◌, ◌⊎◌, ◌↔◌, ◌≤◌, ℕ, Contains, IfOk, IfErr, MatchResult};
ghost use Rattle.sp_io.specs.Causes.{HasCause, Rose, raised, with_fault_of};
ghost use Rattle.sp_io.specs.Jobs.{HasPlaceCause};
ghost use Rattle.sp_io.specs.declared.spawn.JobPlace.TheVariants.{Here, Nowhere};

use crate::calls::{Calls, Faults};
use sp_base::NoMemory;
use std::alloc::{AllocError, Global};
use std::marker::{Model, PhantomData};
use std::snapshot::Snapshot;
use std::sync::Wait;
use std::thread;
use std::thread::{Promise, PromisedHandle, Threads};

/// The runtime's handle, as each thread has one of its own: by it threads are started and waited for.
pub trait Runtime: Wait + Threads + Send + Sync + Clone + Drop {}

impl<R: Wait + Threads + Send + Sync + Clone + Drop> Runtime for R {}

/// A job that was handed over, which gives a T with the promise Q. Contracts see it as its promise.
pub struct Joiner<T, Q: Promise<T>> {
    /// The thread that runs the job, or what it gave where none does.
    place: Result<PromisedHandle<T, Q>, T>,
    promise: Snapshot<Q>,
}

impl<T, Q: Promise<T>> Model for Joiner<T, Q> {
    ghost use Rattle.std.specs.Prelude.{◌≡◌, MatchResult};

    ghost Value = { Q };

    ghost view = { λ j. j.promise.value };

    ghost invariant = { λ j. MatchResult j.place (λ handle. handle.promise ≡ j.promise.value)
        (λ given. Q.kept_by j.promise.value given) };
}

impl<T: Drop, Q: Promise<T>> Drop for Joiner<T, Q> {
    fn drop(self) {
        let Self {
            place: _,
            promise: _,
        } = self;
    }
}

impl<T, Q: Promise<T> + Drop> Joiner<T, Q> {
    /// Stands for a job that was run already and gave this.
    pub fn done(promise: Q, given: T) -> Joiner<T, Q>
        requires { Q.kept_by promise given }
        ensures { result ≡ promise }
    {
        let kept = Snapshot::of(&promise);
        Joiner {
            place: Err(given),
            promise: kept,
        }
    }
}

impl<T, Q: Promise<T>> Joiner<T, Q> {
    /// Waits for the job, and gives what it gave, which keeps its promise.
    pub fn join<R: Threads>(self, rt: &R) -> T
        ensures { Q.kept_by self result }
    {
        let Joiner { place, promise: _ } = self;
        match place {
            Ok(handle) => handle.join(rt),
            Err(given) => given,
        }
    }
}

/// Where a job is to run.
#[derive(Drop)]
pub enum JobPlace<R> {
    /// In a thread of its own, which is started by this handle.
    Thread(R),
    /// Where it is handed over, at once.
    Here,
    /// Nowhere: it is handed back.
    Nowhere,
}

/// Starts jobs beside their caller.
///
/// A job is a closure that owns all it needs, and a promise: what its caller may count on of what it
/// gives. A job may take a spawner along and start jobs of its own.
pub trait Spawner: Sized {
    /// By what threads are started.
    type Handle: Threads + Send + Sync + Drop;

    /// How often a job was handed back. It never falls; at 2^64 - 1 it stays.
    ghost faults: { Self → ℕ };

    /// Another spawner of the same kind, for a job of its own: it handed no job back.
    fn another(&self, alloc: Global) -> Result<Self, NoMemory>
        ensures { IfOk result (λ other. faults other ≡ 0) };

    /// Takes back one that `another` gave: where that one handed jobs back, this counts as one fault
    /// here.
    fn back(&mut self, other: Self)
        ensures { faults self.new ≡ with_fault_of (faults other) (faults self.old) };

    /// Where the next job is to run. Nowhere comes only where the count of faults rose.
    fn next_place(&mut self) -> JobPlace<Self::Handle>
        ensures { HasPlaceCause (faults self.old) (faults self.new) result };

    /// Counts a job whose thread could not be started.
    fn count_refusal(&mut self)
        ensures later { faults self.old ≤ faults self.new }
        ensures rose { Rose (faults self.old) (faults self.new) };

    /// Starts the job. It is handed back only where the count of faults rose.
    ///
    /// Whatever the body may give has to keep the promise.
    final fn beside<
        F: FnOnce() -> T + Send + 'static,
        T: Send + Drop + 'static,
        Q: Promise<T> + Drop + 'static,
    >(&mut self, promise: Q, body: F) -> Result<Joiner<T, Q>, F>
        requires runs { F.pre body }
        requires keeps { (given : T) → F.post body given → Q.kept_by promise given }
        ensures started { IfOk result (λ joiner. joiner ≡ promise) }
        ensures refused { IfErr result (λ same. same ≡ body) }
        ensures cause { HasCause (faults self.old) (faults self.new) result }
    {
        let kept = Snapshot::of(&promise);
        match self.next_place() {
            JobPlace::Thread(rt) => match thread::spawn_with(&rt, promise, body) {
                Ok(handle) => Ok(Joiner {
                    place: Ok(handle),
                    promise: kept,
                }),
                Err(refused) => {
                    self.count_refusal();
                    Err(refused.value)
                }
            },
            JobPlace::Here => Ok(Joiner {
                place: Err(body()),
                promise: kept,
            }),
            JobPlace::Nowhere => Err(body),
        }
    }
}

/// Starts a thread for each job. It tells nothing of them.
#[derive(Drop)]
pub struct ThreadSpawner<R: Runtime> {
    rt: R,
    faults: Faults,
}

impl<R: Runtime> ThreadSpawner<R> {
    /// A spawner that starts threads by this handle, as `HostRuntime` is one.
    pub fn over(rt: R) -> ThreadSpawner<R>
        ensures { result.faults ≡ 0 }
    {
        ThreadSpawner {
            rt,
            faults: Faults::none(),
        }
    }
}

impl<R: Runtime> Spawner for ThreadSpawner<R> {
    type Handle = R;

    ghost faults = { λ s. s.faults };

    fn another(&self, _alloc: Global) -> Result<ThreadSpawner<R>, NoMemory> {
        let rt: Result<R, AllocError> = self.rt.clone();
        Ok(ThreadSpawner {
            rt: rt?,
            faults: Faults::none(),
        })
    }

    fn back(&mut self, other: ThreadSpawner<R>) {
        self.faults.raise_for(&other.faults);
    }

    fn next_place(&mut self) -> JobPlace<R> {
        let rt: Result<R, AllocError> = self.rt.clone();
        match rt {
            Ok(rt) => JobPlace::Thread(rt),
            Err(_) => {
                self.faults.raise();
                JobPlace::Nowhere
            }
        }
    }

    fn count_refusal(&mut self) {
        self.faults.raise();
    }
}

/// Runs each job at once in its caller's place, and hands some back. It starts no thread.
///
/// Contracts see it as its calls of `beside`.
#[derive(Drop)]
pub struct MemSpawner<R> {
    calls: Calls,
    faults: Faults,
    of: PhantomData<R>,
}

impl<R> Model for MemSpawner<R> {
    ghost use Rattle.sp_io.specs.Memory.{SpawnerState};

    ghost Value = { SpawnerState };

    ghost view = { λ s. record { fails = s.calls.fails.items; calls = s.calls.made; faults = s.faults } };
}

impl<R> MemSpawner<R> {
    ghost use Rattle.sp_io.specs.Memory.{fresh_spawner};

    /// A spawner whose calls of `beside` with these numbers, from 0, hand their jobs back.
    pub fn of(alloc: Global, fails: &[u64]) -> Result<MemSpawner<R>, NoMemory>
        ensures { IfOk result (λ spawner. spawner ≡ fresh_spawner fails.now) }
    {
        Ok(MemSpawner {
            calls: Calls::of(alloc, fails)?,
            faults: Faults::none(),
            of: PhantomData,
        })
    }
}

impl<R: Threads + Send + Sync + Drop> Spawner for MemSpawner<R> {
    ghost use Rattle.sp_io.specs.Memory.{fresh_spawner};

    type Handle = R;

    ghost faults = { λ s. s.faults };

    /// A spawner that hands back the jobs of the same calls.
    fn another(&self, alloc: Global) -> Result<MemSpawner<R>, NoMemory>
        ensures { IfOk result (λ other. other ≡ fresh_spawner self.now.fails) }
    {
        MemSpawner::of(alloc, &self.calls.fails)
    }

    fn back(&mut self, other: MemSpawner<R>)
        ensures { self.new ≡ record self.old { faults = with_fault_of other.faults self.old.faults } }
    {
        self.faults.raise_for(&other.faults);
    }

    /// Where the next job is to run: the calls that are told to hand theirs back do, and no others.
    fn next_place(&mut self) -> JobPlace<R>
        ensures refused { (result ≡ Nowhere) ↔ Contains self.old.fails self.old.calls }
        ensures here { (result ≡ Here) ⊎ (result ≡ Nowhere) }
        ensures told { self.new.fails ≡ self.old.fails }
        ensures calls { self.new.calls ≡ raised self.old.calls }
        ensures cause { HasPlaceCause self.old.faults self.new.faults result }
    {
        if self.calls.next_fails() {
            self.faults.raise();
            return JobPlace::Nowhere;
        }
        JobPlace::Here
    }

    fn count_refusal(&mut self)
        ensures value { self.new ≡ record self.old { faults = raised self.old.faults } }
        ensures later { self.old.faults ≤ self.new.faults }
        ensures rose { Rose self.old.faults self.new.faults }
    {
        self.faults.raise();
    }
}
