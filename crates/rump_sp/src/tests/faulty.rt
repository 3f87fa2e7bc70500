// Scripts that aren't run: which message each has.
use super::{NO_FAILS, outcome_of};
use crate::failure::{Failure, fail};
use guest_language::{ScriptFault, ScriptKind};
use sp_base::Octets;
use sp_io::MemSink;
use std::alloc::Global;
use std::process::Abort;
use std::test::Fail;

/// Checks that each script has this message, at status 65 and without output.
fn check(rt: &impl Abort, alloc: Global, rows: &[(&str, &str)]) -> Result<(), Fail> {
    for (script, message) in rows {
        let got = outcome_of(alloc, &["bench", "-rj"], script.as_bytes(), NO_FAILS)?;
        assert_eq!(rt; str::from_utf8(got.err.slice())?, *message, "at {script}");
        assert!(rt; got.out.slice().is_empty(), "at {script}");
        assert_eq!(rt; got.status, 65, "at {script}");
    }
    Ok(())
}

#[test]
fn faults_of_the_language(rt: HostRuntime) -> Result<(), Fail> {
    let rows = [
        ("guest a\ngetpid\t\n", "rump_sp: script line 2: bad byte\n"),
        (
            "getpid\nguest a\n",
            "rump_sp: script line 1: no guest yet\n",
        ),
        ("guest A\n", "rump_sp: script line 1: bad name\n"),
        (
            "guest a\nguest a\n",
            "rump_sp: script line 2: guest twice\n",
        ),
        (
            "guest a\nfrob 1\n",
            "rump_sp: script line 2: unknown call\n",
        ),
        (
            "guest a\n\n# x\nclose",
            "rump_sp: script line 4: bad words\n",
        ),
        (
            "guest a\n& exec\n",
            "rump_sp: script line 2: not in the background\n",
        ),
        (
            "guest a\nfork b\n",
            "rump_sp: script line 2: unknown guest\n",
        ),
        (
            "guest a\nfork b\nfork b\nguest b\n",
            "rump_sp: script line 3: forked twice\n",
        ),
        ("guest a\nfork a\n", "rump_sp: script: fork in a circle\n"),
        (
            "guest a\nfork b\nguest b\nfork a\n",
            "rump_sp: script: fork in a circle\n",
        ),
    ];
    check(&rt, rt.alloc(), &rows)
}

/// The first line that doesn't run yet is named, behind every fault of the language.
#[test]
fn lines_that_dont_run_yet(rt: HostRuntime) -> Result<(), Fail> {
    let rows = [
        (
            "guest a\nfork b\nguest b\n",
            "rump_sp: script line 2: not in local\n",
        ),
        (
            "guest a\n& read 0 1\n",
            "rump_sp: script line 2: not in local\n",
        ),
        (
            "guest a\ngetpid\nguest b\n",
            "rump_sp: script line 3: not in local\n",
        ),
        (
            "guest a\nguest b\npipe\n",
            "rump_sp: script line 2: not in local\n",
        ),
        (
            "guest a\n# x\npipe\nexec\n",
            "rump_sp: script line 3: not in local\n",
        ),
        (
            "guest a\npipe\nfrob\n",
            "rump_sp: script line 3: unknown call\n",
        ),
        (
            "guest a\npipe\nguest a\n",
            "rump_sp: script line 3: guest twice\n",
        ),
        (
            "guest a\npipe\nfork a\n",
            "rump_sp: script: fork in a circle\n",
        ),
    ];
    check(&rt, rt.alloc(), &rows)
}

#[test]
fn calls_that_dont_run_yet(rt: HostRuntime) -> Result<(), Fail> {
    let lines = [
        "join",
        "pipe",
        "socket local stream",
        "socketpair local stream",
        "bind 0 local \"/s\"",
        "listen 0 1",
        "accept 0",
        "connect 0 inet 127.0.0.1 80",
        "sendto 0 \"x\"",
        "recvfrom 0 1",
        "shutdown 0 both",
        "getsockname 0",
        "getpeername 0",
        "poll 0",
    ];
    for line in lines {
        let mut script = Octets::of(rt.alloc(), b"guest a\n")?;
        script.extend(line.as_bytes())?;
        let script = str::from_utf8(script.slice())?;
        check(
            &rt,
            rt.alloc(),
            &[(script, "rump_sp: script line 2: not in local\n")],
        )?;
    }
    Ok(())
}

/// A script is too long by its guests before any fault of a line.
#[test]
fn too_many_guests(rt: HostRuntime) -> Result<(), Fail> {
    let rows = [
        (200, "rump_sp: script line 2: guest twice\n"),
        (201, "rump_sp: script: script too long\n"),
    ];
    for (count, message) in rows {
        let mut script = Octets::none(rt.alloc());
        for _ in 0..count {
            script.extend(b"guest a\n")?;
        }
        check(
            &rt,
            rt.alloc(),
            &[(str::from_utf8(script.slice())?, message)],
        )?;
    }
    Ok(())
}

/// The texts of the messages are those that the faults have by themselves.
#[test]
fn texts_are_those_of_the_faults(rt: HostRuntime) -> Result<(), Fail> {
    let kinds = [
        ScriptKind::NoMemory,
        ScriptKind::TooLong,
        ScriptKind::BadByte,
        ScriptKind::NoGuest,
        ScriptKind::BadName,
        ScriptKind::GuestTwice,
        ScriptKind::UnknownCall,
        ScriptKind::BadWords,
        ScriptKind::NotInBackground,
        ScriptKind::UnknownGuest,
        ScriptKind::ForkedTwice,
        ScriptKind::Circle,
    ];
    for kind in kinds {
        let fault = ScriptFault {
            line: 4_000_000_007,
            kind,
        };
        let mut err = MemSink::of(rt.alloc(), &[])?;
        let status = fail(&mut err, Failure::Script(fault));
        let want = format!(in rt.alloc(); "rump_sp: script {fault}\n")?;
        assert_eq!(rt; status, 65);
        assert_eq!(rt; str::from_utf8(err.bytes())?, want.as_str());
    }
    Ok(())
}
