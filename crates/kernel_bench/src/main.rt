//! Performs calls on a kernel, so that what they cost can be measured.
//!
//! `kernel_bench COUNT` makes COUNT files in one directory. Of each it writes 512 bytes, closes it, looks at it by stat, opens it
//! again, reads the bytes and closes it; at the end it unlinks them all. It prints how many calls succeeded and how many bytes
//! were written and read.
#![tactic(auto)]

mod guest;
mod text;

use crate::guest::{Counts, Guest, Refused};
use sp_base::NoMemory;
use std::alloc::Global;
use std::env;
use std::process::ExitCode;

const USAGE: u8 = 64;

const FAILED: u8 = 75;

/// How many files the words of the command line ask for.
fn count_of(rt: &HostRuntime) -> Option<u32> {
    let Ok(args) = env::args(rt) else {
        return None;
    };
    let mut words = args.skip(1);
    let count = words.next()?.parse::<u32>().ok()?;
    if words.next().is_some() {
        return None;
    }
    Some(count)
}

/// Makes, reads and unlinks so many files.
fn run(alloc: Global, count: u32) -> Result<Counts, Refused> {
    let mut guest = Guest::attach(alloc)?;
    guest.make_directory()?;
    for number in 0..count {
        guest.fill(number)?;
        guest.look(number)?;
    }
    for number in 0..count {
        guest.unlink(number)?;
    }
    Ok(guest.counts())
}

fn main(rt: HostRuntime) -> ExitCode {
    let Some(count) = count_of(&rt) else {
        let _ = eprintln!(rt; "kernel_bench: usage: kernel_bench COUNT");
        return ExitCode::from(USAGE);
    };
    let Ok(
        Counts {
            calls,
            written,
            read,
        },
    ) = run(rt.alloc(), count)
    else {
        return ExitCode::from(FAILED);
    };
    match println!(rt; "calls {calls} written {written} read {read}") {
        Ok(()) => ExitCode::SUCCESS,
        Err(_) => ExitCode::from(FAILED),
    }
}
