//! Plays calls on one object from many threads, so that what a call costs can be measured.
//!
//! `turn_bench THREADS CALLS [mutex|compare]` plays CALLS calls on one counter from THREADS threads,
//! 1 to 64, and prints its total. With `mutex` they are played under std's `Mutex`. With `compare`
//! they are played in both ways, one after the other, and the nanoseconds of each are printed.
#![tactic(auto)]

mod counter;
mod players;
#[cfg(test)]
mod tests;
mod under_mutex;

use sp_base::NoMemory;
use sp_io::{Runtime, Spawner, ThreadSpawner};
use std::alloc::Global;
use std::process::ExitCode;
use std::rt::Clock;
use std::time::Instant;
use std::{env, io};

const USAGE: u8 = 64;

const FAILED: u8 = 75;

/// The most threads that can be asked for.
const MOST_THREADS: u64 = 64;

/// What the calls are played under.
#[derive(Clone, Copy)]
enum Way {
    Turn,
    Mutex,
    Both,
}

/// What the command line asks for.
#[derive(Clone, Copy)]
struct Order {
    threads: u64,
    calls: u64,
    way: Way,
}

/// The order that the words of the command line are, if they are one.
fn ordered(rt: &HostRuntime) -> Option<Order> {
    let Ok(args) = env::args(rt) else {
        return None;
    };
    let mut words = args.skip(1);
    let threads = words.next()?.parse::<u64>().ok()?;
    let calls = words.next()?.parse::<u64>().ok()?;
    let way = match words.next() {
        None => Way::Turn,
        Some(word) if word.as_str() == "mutex" => Way::Mutex,
        Some(word) if word.as_str() == "compare" => Way::Both,
        Some(_) => return None,
    };
    if words.next().is_some() || threads == 0 || threads > MOST_THREADS {
        return None;
    }
    Some(Order {
        threads,
        calls,
        way,
    })
}

/// Why nothing was printed, or not all.
#[derive(Drop)]
struct Failure;

impl From<NoMemory> for Failure {
    fn from(_e: NoMemory) -> Failure {
        Failure
    }
}

impl From<io::Error> for Failure {
    fn from(_e: io::Error) -> Failure {
        Failure
    }
}

/// Plays the calls in both ways, and prints what each took.
fn compare<P: Spawner, R: Runtime + Print + Clock + 'static>(
    rt: &R,
    alloc: Global,
    spawner: &mut P,
    order: Order,
) -> Result<(), Failure> {
    let begun = Instant::now(rt)?;
    let total = players::total(rt, alloc, spawner, order.threads, order.calls)?;
    let took = begun.elapsed(rt)?.as_nanos();
    println!(rt; "turn total {total} nanoseconds {took}")?;
    let begun = Instant::now(rt)?;
    let total = under_mutex::total(rt, alloc, spawner, order.threads, order.calls)?;
    let took = begun.elapsed(rt)?.as_nanos();
    println!(rt; "mutex total {total} nanoseconds {took}")?;
    Ok(())
}

/// Plays the calls in the way that is asked for, and prints the total.
fn run<P: Spawner, R: Runtime + Print + Clock + 'static>(
    rt: &R,
    alloc: Global,
    spawner: &mut P,
    order: Order,
) -> Result<(), Failure> {
    let Order {
        threads,
        calls,
        way,
    } = order;
    let total = match way {
        Way::Turn => players::total(rt, alloc, spawner, threads, calls)?,
        Way::Mutex => under_mutex::total(rt, alloc, spawner, threads, calls)?,
        Way::Both => return compare(rt, alloc, spawner, order),
    };
    println!(rt; "total {total}")?;
    Ok(())
}

fn main(rt: HostRuntime) -> ExitCode {
    let Some(order) = ordered(&rt) else {
        let _ = eprintln!(rt; "turn_bench: usage: turn_bench THREADS CALLS [mutex|compare]");
        return ExitCode::from(USAGE);
    };
    let mut spawner = ThreadSpawner::over(rt);
    match run(&rt, rt.alloc(), &mut spawner, order) {
        Ok(()) => ExitCode::SUCCESS,
        Err(_) => ExitCode::from(FAILED),
    }
}
