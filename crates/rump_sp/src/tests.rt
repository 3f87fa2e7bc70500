// The words, statuses and messages of the program, and what it prints, by its rules.
ghost use Rattle.std.specs.Prelude.{◌≡◌, false};

use crate::top::rump_main;
use sp_base::{NoMemory, Octets};
use sp_io::{MemSalt, MemSink, MemSource, Source};
use std::alloc::Global;
use std::test::Fail;

mod connection;
mod faulty;
mod order;
mod scripts;

/// Which calls of the input, the output and the messages fail, by their numbers from 0.
#[derive(Clone, Copy)]
struct Fails {
    input: &'static [u64],
    out: &'static [u64],
    err: &'static [u64],
}

const NO_FAILS: Fails = Fails {
    input: &[],
    out: &[],
    err: &[],
};

/// The status, and what the program wrote to its output and to its messages.
#[derive(Drop)]
struct Outcome {
    status: u8,
    out: Octets,
    err: Octets,
}

/// What the program does with a source; the calls of its sinks fail as said.
fn outcome_over<I: Source>(
    alloc: Global,
    words: &[&str],
    input: &mut I,
    fails: Fails,
) -> Result<Outcome, NoMemory>
    requires { I.is_done input.old ≡ false }
{
    let mut salt = MemSalt::of(alloc, 0, &[])?;
    let mut out = MemSink::of(alloc, fails.out)?;
    let mut err = MemSink::of(alloc, fails.err)?;
    let status = rump_main(alloc, words, &mut salt, input, &mut out, &mut err);
    Ok(Outcome {
        status,
        out: Octets::of(alloc, out.bytes())?,
        err: Octets::of(alloc, err.bytes())?,
    })
}

fn outcome_of(
    alloc: Global,
    words: &[&str],
    input: &[u8],
    fails: Fails,
) -> Result<Outcome, NoMemory> {
    let mut source = MemSource::of(alloc, input, fails.input)?;
    outcome_over(alloc, words, &mut source, fails)
}

/// What is printed with `-j` where nothing ran.
const NO_ENTRIES: &str = "journal rump\njournal host\n";

/// The right words are those that clap takes: a flag once, alone or in a bundle, and behind `--` no
/// word at all.
#[test]
fn words(rt: HostRuntime) -> Result<(), Fail> {
    let rows: [(&[&str], u8, &str); 30] = [
        (&["bench", "-r"], 0, ""),
        (&["bench", "-r", "--"], 0, ""),
        (&["bench", "-r", "-j"], 0, NO_ENTRIES),
        (&["bench", "-j", "-r"], 0, NO_ENTRIES),
        (&["bench", "-rj"], 0, NO_ENTRIES),
        (&["bench", "-jr", "--"], 0, NO_ENTRIES),
        (&[], 64, ""),
        (&["bench"], 64, ""),
        (&["-r", "bench"], 64, ""),
        (&["bench", "-j"], 64, ""),
        (&["bench", "-r", "-r"], 64, ""),
        (&["bench", "-rr"], 64, ""),
        (&["bench", "-rjr"], 64, ""),
        (&["bench", "-rjj"], 64, ""),
        (&["bench", "-j", "-r", "-j"], 64, ""),
        (&["bench", "-r", "x"], 64, ""),
        (&["bench", "-r", ""], 64, ""),
        (&["bench", "-r", "--", "-j"], 64, ""),
        (&["bench", "-R"], 64, ""),
        (&["bench", "--raw"], 64, ""),
        (&["bench", "-r", "--journals"], 64, ""),
        (&["bench", "--help"], 64, ""),
        (&["bench", "-h"], 64, ""),
        (&["bench", "-V"], 64, ""),
        (&["bench", "--version"], 64, ""),
        (&["stdio", "x"], 64, ""),
        (&["stdio", "-j"], 64, ""),
        (&["local", "-r"], 64, ""),
        (&["frob"], 64, ""),
        (&["Stdio"], 64, ""),
    ];
    let usage = "rump_sp: usage: rump_sp stdio|local|bench|server|guest|load [options]\n";
    for (words, status, out) in rows {
        let got = outcome_of(rt.alloc(), words, b"", NO_FAILS)?;
        let err = if status == 0 { "" } else { usage };
        assert_eq!(rt; got.status, status, "at {words:?}");
        assert_eq!(rt; str::from_utf8(got.out.slice())?, out);
        assert_eq!(rt; str::from_utf8(got.err.slice())?, err);
    }
    Ok(())
}

#[test]
fn faults(rt: HostRuntime) -> Result<(), Fail> {
    let row = "a.1 rump 1 getpid = 2\n";
    let input = "rump_sp: input fault\n";
    let output = "rump_sp: output fault\n";
    let line = "rump_sp: script line 1: no guest yet\n";
    let script = "guest a\ngetpid\n";
    let rows: [(
        &str,
        &'static [u64],
        &'static [u64],
        &'static [u64],
        u8,
        &str,
        &str,
    ); 10] = [
        (script, &[], &[], &[], 0, row, ""),
        (script, &[0], &[], &[], 74, "", input),
        (script, &[1], &[], &[], 74, "", input),
        (script, &[2], &[], &[], 0, row, ""),
        (script, &[], &[0], &[], 74, "", output),
        (script, &[], &[1], &[], 0, row, ""),
        (script, &[1], &[0], &[], 74, "", input),
        (script, &[], &[0], &[0], 74, "", ""),
        ("frob\n", &[], &[], &[0], 65, "", ""),
        ("frob\n", &[], &[], &[1], 65, "", line),
    ];
    for (script, input, out, err, status, written, message) in rows {
        let fails = Fails { input, out, err };
        let got = outcome_of(rt.alloc(), &["bench", "-r"], script.as_bytes(), fails)?;
        assert_eq!(rt; got.status, status);
        assert_eq!(rt; str::from_utf8(got.out.slice())?, written);
        assert_eq!(rt; str::from_utf8(got.err.slice())?, message);
    }
    Ok(())
}
