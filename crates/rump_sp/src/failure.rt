//! Why the program does not do what it was asked, and what it tells of it.
ghost use Rattle.std.specs.Prelude.{◌≡◌, ◌+◌, ◌≤◌, ◌++◌, length, false};
ghost use Rattle.arrayvec.specs.ArrayString.{array_string_len};
ghost use Rattle.rump_sp.specs.Failure.{Tells, kind_text, line_text, message_of, number_text};
ghost use Rattle.rump_sp.specs.Failure.{script_text, status_of};

use arrayvec::ArrayString;
use guest_language::{ScriptFault, ScriptKind};
use itoa::Buffer;
use sp_base::NoMemory;
use sp_io::{Sink, put_all};

/// What kept the program from its end.
#[derive(Clone, Copy, Debug, PartialEq, Eq)]
pub enum Failure {
    /// The words of the command line are wrong.
    Usage,
    /// The script has a fault.
    Script(ScriptFault),
    /// The script's line of that number doesn't run yet.
    Outside(u32),
    /// The input could not be read.
    Input,
    /// The output could not be written.
    Output,
    /// The bytes of the connection from that offset on are no frame.
    BadFrame(u64),
    /// The input ended inside the frame at that offset.
    Inside(u64),
    /// The input is too long.
    TooMuch,
    /// The random source failed.
    Salt,
    /// Memory was refused.
    NoMemory,
}

impl From<NoMemory> for Failure {
    ghost use Rattle.rump_sp.specs.declared.failure.Failure.TheVariants as failure;

    ghost from_gives = { λ _ e. e ≡ failure.NoMemory };

    fn from(_e: NoMemory) -> Failure {
        Failure::NoMemory
    }
}

impl Failure {
    /// The exit status: 64 for wrong words, 65 for a faulty script or input, 71 for the random
    /// source, 74 for input and output, 75 for memory.
    pub fn status(self) -> u8
        ensures { result ≡ status_of self }
    {
        match self {
            Failure::Usage => 64,
            Failure::Script(_) | Failure::Outside(_) => 65,
            Failure::BadFrame(_) | Failure::Inside(_) | Failure::TooMuch => 65,
            Failure::Salt => 71,
            Failure::Input | Failure::Output => 74,
            Failure::NoMemory => 75,
        }
    }

    /// The line that tells the failure.
    #[tactic(auto, unfolding(crate::specs::Failure::message_of))]
    fn message(self) -> Line
        ensures { result.bytes ≡ message_of self }
    {
        match self {
            Failure::Usage => line_of(
                "usage: rump_sp stdio|local|bench|server|guest|load [options]",
                None,
            ),
            Failure::Script(fault) => script_line(fault.line, kind_text(fault.kind)),
            Failure::Outside(line) => script_line(line, "not in local"),
            Failure::Input => line_of("input fault", None),
            Failure::Output => line_of("output fault", None),
            Failure::BadFrame(offset) => line_of("stdio: bad frame at offset ", Some(offset)),
            Failure::Inside(offset) => line_of(
                "stdio: input ends inside a frame at offset ",
                Some(offset),
            ),
            Failure::TooMuch => line_of("stdio: input too long", None),
            Failure::Salt => line_of("no salt", None),
            Failure::NoMemory => line_of("out of memory", None),
        }
    }
}

/// A message with its line end. It takes no memory.
type Line = ArrayString<160>;

/// Adds a number, if there is one.
fn push_number(line: &mut Line, number: Option<u64>)
    requires { array_string_len line.old + 40 ≤ 160 }
    ensures text { line.new.bytes ≡ line.old.bytes ++ number_text number }
    ensures short { array_string_len line.new ≤ array_string_len line.old + 40 }
{
    if let Some(number) = number {
        let mut digits = Buffer::new();
        line.push_str(digits.format(number));
    }
}

/// The line of a message: a text, and a number if there is one.
fn line_of(before: &str, number: Option<u64>) -> Line
    requires { length before.now ≤ 96 }
    ensures { result.bytes ≡ line_text before.now number }
{
    let mut line = ArrayString::new();
    line.push_str("rump_sp: ");
    line.push_str(before);
    push_number(&mut line, number);
    line.push_str("\n");
    line
}

/// The line of a message on a script's line, or, with the number 0, on the script as a whole.
fn script_line(number: u32, text: &str) -> Line
    requires { length text.now ≤ 64 }
    ensures { result.bytes ≡ script_text number text.now }
{
    let mut line = ArrayString::new();
    line.push_str("rump_sp: script");
    if number > 0 {
        line.push_str(" line ");
        push_number(&mut line, Some(u64::from(number)));
    }
    line.push_str(": ");
    line.push_str(text);
    line.push_str("\n");
    line
}

/// What is wrong with a script, in words.
#[tactic(auto, unfolding(crate::specs::Failure::kind_text))]
fn kind_text(kind: ScriptKind) -> &'static str
    ensures text { result.now ≡ kind_text kind }
    ensures short { length result.now ≤ 64 }
{
    match kind {
        ScriptKind::NoMemory => "out of memory",
        ScriptKind::TooLong => "script too long",
        ScriptKind::BadByte => "bad byte",
        ScriptKind::NoGuest => "no guest yet",
        ScriptKind::BadName => "bad name",
        ScriptKind::GuestTwice => "guest twice",
        ScriptKind::UnknownCall => "unknown call",
        ScriptKind::BadWords => "bad words",
        ScriptKind::NotInBackground => "not in the background",
        ScriptKind::UnknownGuest => "unknown guest",
        ScriptKind::ForkedTwice => "forked twice",
        ScriptKind::Circle => "fork in a circle",
    }
}

/// Tells a failure in one line, and gives its status. A fault of the sink is passed over.
pub fn fail<E: Sink>(err: &mut E, failure: Failure) -> u8
    requires { E.is_done err.old ≡ false }
    ensures status { result ≡ status_of failure }
    ensures told { Tells (E.faults err.old) (E.faults err.new) (E.held err.old) (E.held err.new)
        (message_of failure) }
    ensures open { E.is_done err.new ≡ false }
{
    let line = failure.message();
    let _ = put_all(err, line.as_str().as_bytes());
    failure.status()
}
