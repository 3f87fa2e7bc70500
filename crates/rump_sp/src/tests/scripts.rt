// What scripts show: the rows of their lines, and the journals.
use super::{NO_FAILS, outcome_of};
use sp_base::Octets;
use std::alloc::Global;
use std::process::Abort;
use std::test::Fail;

/// Checks that each script shows this text, at status 0 and without a message.
fn check(
    rt: &impl Abort,
    alloc: Global,
    words: &[&str],
    rows: &[(&str, &str)],
) -> Result<(), Fail> {
    for (script, out) in rows {
        let got = outcome_of(alloc, words, script.as_bytes(), NO_FAILS)?;
        assert_eq!(rt; str::from_utf8(got.out.slice())?, *out);
        assert_eq!(rt; str::from_utf8(got.err.slice())?, "", "at {script}");
        assert_eq!(rt; got.status, 0, "at {script}");
    }
    Ok(())
}

const FIRST: &str = "guest a\ngetpid\nclose 3\n";

const BAD_READ: &str = "guest a\nopen \"/f\" O_RDWR|O_CREAT\nwrite 0 \"hello\"\nlseek 0 0 set\n\
read 0 bad 5\nread 0 5\n";

/// An exec keeps the descriptors whose flag is clear.
const EXEC: &str = "guest a\nopen \"/f\" O_RDWR|O_CREAT\n\
open \"/g\" O_RDWR|O_CREAT|O_CLOEXEC\nexec\nclose 1\nclose 0\n";

const BAD_WRITE: &str = "guest a\nopen \"/f\" O_RDWR|O_CREAT\nwrite 0 bad 5\nfstat 0\n";

#[test]
fn rows(rt: HostRuntime) -> Result<(), Fail> {
    let rows = [
        ("", ""),
        ("# nothing\n \n", ""),
        ("guest a\n", ""),
        (
            FIRST,
            "a.1 rump 1 getpid = 2\na.2 rump 2 close 3 = -1 EBADF\n",
        ),
        (
            "guest b_2\nclose 0\n\n# a comment\n  close  4294967295\ncall 99 1 0x2",
            "b_2.1 rump 1 close 0 = -1 EBADF\nb_2.2 rump 2 close 4294967295 = -1 EBADF\n\
b_2.3 rump 3 call 99 1 0x2 = -1 ENOSYS\n",
        ),
        (
            BAD_READ,
            "a.1 rump 1 open \"/f\" O_RDWR|O_CREAT = 0\na.2 rump 2 write 0 \"hello\" = 5\n\
a.3 rump 3 lseek 0 0 set = 0\na.4 rump 4 read 0 bad 5 = -1 EFAULT\n\
a.5 rump 5 read 0 5 = 0 \"\"\n",
        ),
        (
            BAD_WRITE,
            "a.1 rump 1 open \"/f\" O_RDWR|O_CREAT = 0\na.2 rump 2 write 0 bad 5 = -1 EFAULT\n\
a.3 rump 3 fstat 0 = 0 file 1 0 2\n",
        ),
        (
            "guest a\nopen \"/f\" O_RDWR|O_CREAT\nwrite 0 fill 70000\n",
            "a.1 rump 1 open \"/f\" O_RDWR|O_CREAT = 0\n\
a.2 rump 2 write 0 fill 70000 = 65536\n",
        ),
        (
            "guest a\nmkdir \"/d\"\nrename \"/d\" \"/d/e\"\nunlink \"/d\"\nrmdir \"/\"\n\
link \"/d\" \"/e\"\nstat \"/d\"\n",
            "a.1 rump 1 mkdir \"/d\" = 0\na.2 rump 2 rename \"/d\" \"/d/e\" = -1 EINVAL\n\
a.3 rump 3 unlink \"/d\" = -1 EPERM\na.4 rump 4 rmdir \"/\" = -1 EBUSY\n\
a.5 rump 5 link \"/d\" \"/e\" = -1 EPERM\na.6 rump 6 stat \"/d\" = 0 directory 1 0 2\n",
        ),
    ];
    check(&rt, rt.alloc(), &["bench", "-r"], &rows)
}

#[test]
fn journals(rt: HostRuntime) -> Result<(), Fail> {
    let rows = [
        ("", "journal rump\njournal host\n"),
        (
            "guest a\n",
            "journal rump\n0 0/1 0 attach = 2\n1 end/0 2 exit = 0\njournal host\n",
        ),
        (
            FIRST,
            "a.1 rump 1 getpid = 2\na.2 rump 2 close 3 = -1 EBADF\n\
journal rump\n0 0/1 0 attach = 2\n1 0/2 2 getpid = 2\n2 0/3 2 close 3 = -1 EBADF\n\
3 end/0 2 exit = 0\njournal host\n",
        ),
        (
            BAD_READ,
            "a.1 rump 1 open \"/f\" O_RDWR|O_CREAT = 0\na.2 rump 2 write 0 \"hello\" = 5\n\
a.3 rump 3 lseek 0 0 set = 0\na.4 rump 4 read 0 bad 5 = -1 EFAULT\n\
a.5 rump 5 read 0 5 = 0 \"\"\n\
journal rump\n0 0/1 0 attach = 2\n1 0/2 2 open \"/f\" O_RDWR|O_CREAT = 0\n\
2 0/3 2 write 0 \"hello\" = 5\n3 0/4 2 lseek 0 0 set = 0\n\
4 0/5 2 read 0 5 = 5 \"hello\"\n5 0/6 2 read 0 5 = 0 \"\"\n\
6 end/0 2 exit = 0\njournal host\n",
        ),
        (
            EXEC,
            "a.1 rump 1 open \"/f\" O_RDWR|O_CREAT = 0\n\
a.2 rump 2 open \"/g\" O_RDWR|O_CREAT|O_CLOEXEC = 1\na.3 rump 3 exec = 0\n\
a.4 rump 4 close 1 = -1 EBADF\na.5 rump 5 close 0 = 0\n\
journal rump\n0 0/1 0 attach = 2\n1 0/2 2 open \"/f\" O_RDWR|O_CREAT = 0\n\
2 0/3 2 open \"/g\" O_RDWR|O_CREAT|O_CLOEXEC = 1\n3 1/1 2 exec = 0\n\
4 1/2 2 close 1 = -1 EBADF\n5 1/3 2 close 0 = 0\n6 end/1 2 exit = 0\njournal host\n",
        ),
        (
            BAD_WRITE,
            "a.1 rump 1 open \"/f\" O_RDWR|O_CREAT = 0\na.2 rump 2 write 0 bad 5 = -1 EFAULT\n\
a.3 rump 3 fstat 0 = 0 file 1 0 2\n\
journal rump\n0 0/1 0 attach = 2\n1 0/2 2 open \"/f\" O_RDWR|O_CREAT = 0\n\
2 0/3 2 write 0 bad 5 = -1 EFAULT\n3 0/4 2 fstat 0 = 0 file 1 0 2\n\
4 end/0 2 exit = 0\njournal host\n",
        ),
    ];
    check(&rt, rt.alloc(), &["bench", "-rj"], &rows)
}

/// Scripts of one line many times, and how what they show ends: descriptors up to the last one, and
/// places of three digits.
#[test]
fn many_lines(rt: HostRuntime) -> Result<(), Fail> {
    let rows = [
        (
            "open \"/f\" O_RDWR|O_CREAT\n",
            129,
            "\na.128 rump 128 open \"/f\" O_RDWR|O_CREAT = 127\n\
a.129 rump 129 open \"/f\" O_RDWR|O_CREAT = -1 EMFILE\n",
        ),
        (
            "getpid\n",
            100,
            "\na.99 rump 99 getpid = 2\na.100 rump 100 getpid = 2\n",
        ),
    ];
    for (line, count, end) in rows {
        let mut script = Octets::of(rt.alloc(), b"guest a\n")?;
        for _ in 0..count {
            script.extend(line.as_bytes())?;
        }
        let got = outcome_of(rt.alloc(), &["bench", "-r"], script.slice(), NO_FAILS)?;
        assert!(rt;
            got.out.slice().ends_with(end.as_bytes()),
            "{count} times {line}"
        );
        assert_eq!(rt; str::from_utf8(got.err.slice())?, "");
        assert_eq!(rt; got.status, 0, "{count} times {line}");
    }
    Ok(())
}
