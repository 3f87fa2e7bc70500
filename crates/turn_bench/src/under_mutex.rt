//! The same calls under std's `Mutex`, by which the lock is measured.

use crate::counter::Counter;
use sp_base::{NoMemory, Object};
use sp_io::{Joiner, Runtime, Spawner};
use std::alloc::{AllocError, Global};
use std::sync::{Arc, Mutex, Wait};
use std::thread::Promise;

/// What comes back is told by its type alone.
#[derive(Clone, Copy)]
pub struct Done;

impl Promise<()> for Done {
    ghost kept_by = { λ _ _. Unit {0} };
}

/// Plays so many calls.
fn play_all<R: Wait>(rt: &R, counter: &Mutex<Counter>, calls: u64) {
    for _ in 0..calls {
        counter.lock(rt).play(());
    }
}

/// Starts a job that plays so many calls. Without memory it plays them here.
fn start<P: Spawner, R: Runtime + 'static>(
    rt: &R,
    spawner: &mut P,
    counter: &Arc<Mutex<Counter>, Global>,
    calls: u64,
) -> Result<Joiner<(), Done>, NoMemory> {
    let copy: Result<R, AllocError> = rt.clone();
    let copy = copy?;
    let other = Arc::try_clone(counter)?;
    let body = move || play_all(&copy, &other, calls);
    Ok(match spawner.beside(Done, body) {
        Ok(joiner) => joiner,
        Err(body) => Joiner::done(Done, body()),
    })
}

/// Starts a job for each thread, each with its share of the calls.
fn start_all<P: Spawner, R: Runtime + 'static>(
    rt: &R,
    alloc: Global,
    spawner: &mut P,
    counter: &Arc<Mutex<Counter>, Global>,
    threads: u64,
    calls: u64,
) -> Result<Vec<Joiner<(), Done>>, NoMemory> {
    let mut joiners = Vec::new(alloc);
    let mut left = calls;
    for at in 0..threads {
        let share = left / (threads - at);
        joiners.push(start(rt, spawner, counter, share)?)?;
        left -= share;
    }
    Ok(joiners)
}

/// Plays so many calls on one counter from so many threads, and gives its total.
///
/// No clause says what a `Mutex` holds, so none says what the total is.
pub fn total<P: Spawner, R: Runtime + 'static>(
    rt: &R,
    alloc: Global,
    spawner: &mut P,
    threads: u64,
    calls: u64,
) -> Result<u64, NoMemory> {
    let counter = Arc::new(alloc, Mutex::new(Counter { total: 0 }))?;
    let joiners = start_all(rt, alloc, spawner, &counter, threads, calls)?;
    for joiner in joiners {
        joiner.join(rt);
    }
    Ok(counter.lock(rt).total)
}
