//! One connection over a source and a sink.
ghost use Rattle.std.specs.Prelude.{◌≡◌, ℕ, List, Option, false, true};
ghost use Rattle.sp_io.specs.Causes.{Rose};
ghost use Rattle.sp_server.specs.declared.stdio.StdioEnd.TheVariants as end;
ghost use Rattle.sp_server.specs.Session.{outcome};
ghost use Rattle.sp_server.specs.Stdio.{IsServed, is_read};

use crate::session::{Session, Stop};
use sp_base::Octets;
use sp_io::{IoFault, Salt, Sink, Source};
use std::alloc::Global;

/// The most bytes that are taken of the source at once.
const PIECE: u32 = 65_536;

/// How the service of one connection over standard input and output ended.
#[derive(Clone, Copy, Debug, PartialEq, Eq)]
pub enum StdioEnd {
    /// The input ended between two frames.
    Clean,
    /// Bytes of the input are no frame; the number is the offset of the first of them.
    BadAt(u64),
    /// The input ended inside a frame; the number is the offset of the frame's first byte.
    InsideAt(u64),
    /// More than 1 GiB came.
    TooMuch,
    /// The source failed.
    InputFault,
    /// The sink failed.
    OutputFault,
    /// The salt failed.
    SaltFault,
    /// Memory was refused.
    NoMemory,
}

impl From<Stop> for StdioEnd {
    ghost use Rattle.sp_server.specs.Session.{end_of};

    ghost from_gives = { λ s e. e ≡ end_of s };

    fn from(stop: Stop) -> StdioEnd {
        match stop {
            Stop::Output => StdioEnd::OutputFault,
            Stop::Salt => StdioEnd::SaltFault,
            Stop::NoMemory => StdioEnd::NoMemory,
        }
    }
}

/// Serves one connection, and answers its end, or why it stopped.
fn serve<I: Source, O: Sink, S: Salt>(
    alloc: Global,
    source: &mut I,
    sink: &mut O,
    salt: &mut S,
) -> Result<StdioEnd, Stop>
    requires source { I.is_done source.old ≡ false }
    requires sink { O.is_done sink.old ≡ false }
    ensures serves { IsServed
        (record { left = I.left source.old; passed = I.passed source.old; held = O.held sink.old; drawn = S.drawn salt.old })
        (record { left = I.left source.new; passed = I.passed source.new; held = O.held sink.new; drawn = S.drawn salt.new }) (outcome result) }
    ensures ended { is_read (outcome result) ≡ true → I.ended source.new ≡ true }
    ensures input { outcome result ≡ end.InputFault
        → Rose (I.faults source.old) (I.faults source.new) }
    ensures output { outcome result ≡ end.OutputFault
        → Rose (O.faults sink.old) (O.faults sink.new) }
    ensures salt { outcome result ≡ end.SaltFault
        → Rose (S.faults salt.old) (S.faults salt.new) }
    ensures source { I.is_done source.new ≡ false }
    ensures sink { O.is_done sink.new ≡ false }
{
    let mut session = Session::begin(alloc, sink)?;
    let mut piece = Octets::none(alloc);
    loop {
        match source.take(alloc, &mut piece, PIECE) {
            Ok(()) => {}
            Err(IoFault::Failed) => return Ok(StdioEnd::InputFault),
            Err(IoFault::NoMemory) => return Err(Stop::NoMemory),
        }
        if piece.is_empty() {
            return session.finish(sink);
        }
        if let Some(end) = session.receive(piece.slice(), sink, salt)? {
            return Ok(end);
        }
    }
}

/// Serves one connection: the source gives its frames, and the sink takes the banner and then what a server of its own answers.
///
/// What a frame is answered with is written before the source is read again. Of the input at most 1 GiB is looked at. The first
/// cause in the order of the bytes decides: BadAt comes exactly where bytes are no frame, InsideAt where the input ends inside
/// one, TooMuch where more than 1 GiB comes, Clean where the input ends between two frames. A fault of the source, the sink or the
/// salt comes only where its count rose, and want of memory may come at any time. A salt is drawn for each frame that makes a
/// cookie, also for one that is refused. It returns for every input.
pub fn serve_stdio<I: Source, O: Sink, S: Salt>(
    alloc: Global,
    source: &mut I,
    sink: &mut O,
    salt: &mut S,
) -> StdioEnd
    requires source { I.is_done source.old ≡ false }
    requires sink { O.is_done sink.old ≡ false }

    // what was taken, drawn and written, and which end it is
    ensures serves { IsServed
        (record { left = I.left source.old; passed = I.passed source.old; held = O.held sink.old; drawn = S.drawn salt.old })
        (record { left = I.left source.new; passed = I.passed source.new; held = O.held sink.new; drawn = S.drawn salt.new }) result }
    ensures ended { is_read result ≡ true → I.ended source.new ≡ true }
    ensures input { result ≡ end.InputFault → Rose (I.faults source.old) (I.faults source.new) }
    ensures output { result ≡ end.OutputFault → Rose (O.faults sink.old) (O.faults sink.new) }
    ensures salt { result ≡ end.SaltFault → Rose (S.faults salt.old) (S.faults salt.new) }

    // what stays
    ensures source { I.is_done source.new ≡ false }
    ensures sink { O.is_done sink.new ≡ false }
{
    match serve(alloc, source, sink, salt) {
        Ok(end) => end,
        Err(stop) => stop.into(),
    }
}
