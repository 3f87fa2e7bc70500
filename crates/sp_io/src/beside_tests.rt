// What no clause says of spawners and gates: that jobs run, that threads meet, and that a sleeper wakes.
use crate::{
    CountGate, Gate, Joiner, MeetGate, MemSpawner, ParkGate, Runtime, Spawner, ThreadSpawner,
};
use std::sync::Wait;
use std::test::Fail;
use std::thread::{Promise, yield_now};

/// A job that promises nothing.
#[derive(Clone, Copy)]
struct Nothing;

impl<T> Promise<T> for Nothing {
    ghost kept_by = { λ _ _. Unit {0} };
}

/// What jobs that double the numbers give, and 0 for each that was handed back.
fn doubled<P: Spawner, R: Runtime>(rt: &R, spawner: &mut P, numbers: [u64; 3]) -> [u64; 3] {
    numbers.map(|number| {
        let double = move || number.wrapping_mul(2);
        match spawner.beside(Nothing, double) {
            Ok(joiner) => joiner.join(rt),
            Err(_) => 0,
        }
    })
}

#[test]
fn runs_in_place(rt: HostRuntime) -> Result<(), Fail> {
    let mut spawner = MemSpawner::<HostRuntime>::of(rt.alloc(), &[1])?;
    assert_eq!(rt; doubled(&rt, &mut spawner, [1, 2, 3]), [2, 0, 6]);
    let mut other = spawner.another(rt.alloc())?;
    assert_eq!(rt; doubled(&rt, &mut other, [4, 5, 6]), [8, 0, 12]);
    spawner.back(other);
    assert_eq!(rt; doubled(&rt, &mut spawner, [1, 2, 3]), [2, 4, 6]);
    Ok(())
}

#[test]
fn runs_in_threads(rt: HostRuntime) -> Result<(), Fail> {
    let mut spawner = ThreadSpawner::over(rt);
    assert_eq!(rt; doubled(&rt, &mut spawner, [1, 2, 3]), [2, 4, 6]);
    let mut other = spawner.another(rt.alloc())?;
    assert_eq!(rt; doubled(&rt, &mut other, [4, 5, 6]), [8, 10, 12]);
    spawner.back(other);
    assert_eq!(rt; Joiner::done(Nothing, 7u64).join(&rt), 7);
    Ok(())
}

/// The answers of three questions.
fn answers<G: Gate, R: Wait>(rt: &R, gate: &mut G) -> [bool; 3] {
    [gate.again(rt), gate.again(rt), gate.again(rt)]
}

#[test]
fn a_gate_answers_no(rt: HostRuntime) -> Result<(), Fail> {
    let mut gate = CountGate::new(2);
    assert_eq!(rt; answers(&rt, &mut gate), [true, true, false]);
    let mut other = gate.another()?;
    assert_eq!(rt; answers(&rt, &mut other), [true, true, false]);
    gate.note(&rt);
    gate.back(other);
    assert_eq!(rt; answers(&rt, &mut gate), [false, false, false]);
    Ok(())
}

#[test]
fn a_gate_alone_meets_none(rt: HostRuntime) -> Result<(), Fail> {
    let mut gate = MeetGate::new(rt.alloc(), 3)?;
    gate.note(&rt);
    assert_eq!(rt; answers(&rt, &mut gate), [false, true, true]);
    gate.note(&rt);
    assert!(rt; !gate.met(&rt));
    Ok(())
}

#[test]
fn two_gates_meet(rt: HostRuntime) -> Result<(), Fail> {
    let mut gate = MeetGate::new(rt.alloc(), 1_000_000_000)?;
    let mut other = gate.another()?;
    let mut spawner = ThreadSpawner::over(rt);
    let joiner = spawner.beside(Nothing, move || gate.again(&rt)).ok();
    for _ in rt.forever() {
        other.note(&rt);
        if other.met(&rt) {
            break;
        }
        yield_now();
    }
    assert_eq!(rt; joiner.map(|joiner| joiner.join(&rt)), Some(true));
    Ok(())
}

#[test]
fn a_sleeper_wakes(rt: HostRuntime) -> Result<(), Fail> {
    let mut gate = ParkGate::new(rt.alloc())?;
    let mut other = gate.another()?;
    let mut spawner = ThreadSpawner::over(rt);
    let joiner = spawner.beside(Nothing, move || gate.again(&rt)).ok();
    other.note(&rt);
    assert_eq!(rt; joiner.map(|joiner| joiner.join(&rt)), Some(true));
    other.back(ParkGate::new(rt.alloc())?);
    Ok(())
}
