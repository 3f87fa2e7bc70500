//! The program `rump_sp`.
#![tactic(auto)]

mod bench;
mod failure;
mod laws;
mod shown;
mod stdio;
#[cfg(test)]
mod tests;
mod top;
mod words;

use crate::failure::{Failure, fail};
use sp_base::NoMemory;
use sp_io::{RandomSalt, ReadSource, WriteSink};
use std::env;
use std::io::ErrorKind;
use std::process::ExitCode;

/// The words of the command line behind the program's name; none where they are no text.
fn words_of(rt: &HostRuntime) -> Result<Vec<String>, NoMemory> {
    match env::args(rt) {
        Ok(args) => Ok(args.skip(1).collect(rt.alloc())?),
        Err(error) if error.kind() == ErrorKind::OutOfMemory => Err(NoMemory),
        Err(_) => Ok(Vec::new(rt.alloc())),
    }
}

fn main(rt: HostRuntime) -> ExitCode {
    let mut salt = RandomSalt::over(&rt);
    let mut input = ReadSource::over(rt.stdin());
    let mut out = WriteSink::over(rt.stdout());
    let mut err = WriteSink::over(rt.stderr());
    let Ok(words) = words_of(&rt) else {
        return ExitCode::from(fail(&mut err, Failure::NoMemory));
    };
    let status = top::rump_main(
        rt.alloc(),
        words.as_slice(),
        &mut salt,
        &mut input,
        &mut out,
        &mut err,
    );
    ExitCode::from(status)
}
