//! Threads that play on one counter behind a lock.
ghost use Rattle.std.specs.Prelude.{◌≡◌, ◌+◌, [], IfOk, IfErr};
ghost use Rattle.std.specs.Arc.{arc_value};
ghost use Rattle.turn_bench.specs.Counts.{Plays};
ghost use Rattle.turn_bench.specs.Crew.{Lends, TakesIn, IsCrew, planned};

use crate::counter::Counter;
use sp_base::NoMemory;
use sp_io::{Joiner, Runtime, Spawner};
use std::alloc::{AllocError, Global};
use std::collections::VecDeque;
use std::snapshot::Snapshot;
use std::sync::{Arc, Wait};
use std::thread::Promise;
use turn_lock::{Pass, Turn};

/// The pass comes back after so many calls more.
#[derive(Drop)]
pub struct Played {
    was: Snapshot<Pass<Counter>>,
    calls: u64,
}

impl Promise<Pass<Counter>> for Played {
    ghost use Rattle.turn_bench.specs.Counts.{Plays};

    ghost kept_by = { λ p later. (later.turn ≡ p.was.value.turn)
        × Plays p.was.value.known p.calls later.known };
}

/// Plays so many calls.
fn play_all<R: Wait>(
    rt: &R,
    turn: &Turn<Counter>,
    mut pass: Pass<Counter>,
    calls: u64,
) -> Pass<Counter>
    requires of { pass.turn ≡ turn.now }
    ensures of { result.turn ≡ pass.turn }
    ensures plays { Plays pass.known calls result.known }
{
    for made in 0..calls {
        turn.play(rt, &mut pass, ());
    }
    pass
}

/// Starts a job that plays so many calls on the pass.
fn start<P: Spawner, R: Runtime + 'static>(
    rt: R,
    spawner: &mut P,
    turn: Arc<Turn<Counter>, Global>,
    pass: Pass<Counter>,
    calls: u64,
) -> Joiner<Pass<Counter>, Played>
    requires of { pass.turn ≡ arc_value turn }
    ensures was { result.was.value ≡ pass }
    ensures calls { result.calls ≡ calls }
{
    let promise = Played {
        was: Snapshot::of(&pass),
        calls,
    };
    let again = Played {
        was: Snapshot::of(&pass),
        calls,
    };
    let body = move || -> Pass<Counter>
        requires { pass.turn ≡ arc_value turn }
        ensures { (result.turn ≡ pass.turn) × Plays pass.known calls result.known }
    {
        let mine = pass;
        play_all(&rt, &turn, mine, calls)
    };
    match spawner.beside(promise, body) {
        Ok(joiner) => joiner,
        Err(body) => Joiner::done(again, body()),
    }
}

/// Splits a pass off and starts a job that plays on it. Without memory nothing is split off.
fn lend<P: Spawner, R: Runtime + 'static>(
    rt: &R,
    spawner: &mut P,
    turn: &Arc<Turn<Counter>, Global>,
    pass: &mut Pass<Counter>,
    calls: u64,
) -> Result<Joiner<Pass<Counter>, Played>, NoMemory>
    requires of { pass.old.turn ≡ arc_value turn.now }
    ensures of { pass.new.turn ≡ pass.old.turn }
    ensures lends { IfOk result (λ joiner. Lends pass.old calls pass.new joiner) }
    ensures none { IfErr result (λ _. pass.new ≡ pass.old) }
{
    let copy: Result<R, AllocError> = rt.clone();
    let copy = copy?;
    let other = Arc::try_clone(turn)?;
    let part = turn.split(pass);
    Ok(start(copy, spawner, other, part, calls))
}

/// The jobs that were started, and how many calls are left for their starter.
#[derive(Drop)]
struct Started {
    joiners: VecDeque<Joiner<Pass<Counter>, Played>>,
    left: u64,
}

/// Starts as many jobs as there are threads and memory for, each with its share of the calls.
fn start_all<P: Spawner, R: Runtime + 'static>(
    rt: &R,
    alloc: Global,
    spawner: &mut P,
    turn: &Arc<Turn<Counter>, Global>,
    pass: &mut Pass<Counter>,
    threads: u64,
    calls: u64,
) -> Started
    requires of { pass.old.turn ≡ arc_value turn.now }
    requires crew { IsCrew pass.old [] }
    ensures of { pass.new.turn ≡ pass.old.turn }
    ensures crew { IsCrew pass.new result.joiners.items }
    ensures planned { planned pass.new result.joiners.items + result.left
        ≡ planned pass.old [] + calls }
{
    let mut joiners = VecDeque::new(alloc);
    let mut left = calls;
    for at in 0..threads {
        let share = left / (threads - at);
        if joiners.reserve(1).is_err() {
            break;
        }
        let Ok(joiner) = lend(rt, spawner, turn, pass, share) else {
            break;
        };
        joiners.push_back_reserved(joiner);
        left -= share;
    }
    Started { joiners, left }
}

/// Waits for a job, and joins its pass.
fn take_in<R: Runtime>(
    rt: &R,
    turn: &Turn<Counter>,
    pass: &mut Pass<Counter>,
    joiner: Joiner<Pass<Counter>, Played>,
)
    requires of { pass.old.turn ≡ turn.now }
    requires lent { joiner.was.value.turn ≡ turn.now }
    ensures takes { TakesIn pass.old joiner pass.new }
{
    let part = joiner.join(rt);
    turn.join(pass, part);
}

/// Waits for all jobs, and joins their passes.
fn take_all_in<R: Runtime>(
    rt: &R,
    turn: &Turn<Counter>,
    pass: &mut Pass<Counter>,
    mut joiners: VecDeque<Joiner<Pass<Counter>, Played>>,
)
    requires of { pass.old.turn ≡ turn.now }
    requires crew { IsCrew pass.old joiners.items }
    ensures of { pass.new.turn ≡ pass.old.turn }
    ensures crew { IsCrew pass.new [] }
    ensures planned { planned pass.new [] ≡ planned pass.old joiners.items }
{
    while let Some(joiner) = joiners.pop_front() {
        take_in(rt, turn, pass, joiner);
    }
}

/// Plays so many calls on one counter from so many threads, and gives its total.
///
/// The calls that no thread was started for are played here.
pub fn total<P: Spawner, R: Runtime + 'static>(
    rt: &R,
    alloc: Global,
    spawner: &mut P,
    threads: u64,
    calls: u64,
) -> Result<u64, NoMemory>
    ensures { IfOk result (λ total. total ≡ calls) }
{
    let (turn, mut pass) = Turn::new(alloc, Counter { total: 0 })?;
    let turn = Arc::new(alloc, turn)?;
    let Started { joiners, left } = start_all(rt, alloc, spawner, &turn, &mut pass, threads, calls);
    let mut pass = play_all(rt, &turn, pass, left);
    take_all_in(rt, &turn, &mut pass, joiners);
    let counter = turn.close(rt, pass);
    Ok(counter.total)
}
