//! A server and its one connection, over which bytes come in pieces.
ghost use Rattle.std.specs.Prelude.{◌≡◌, ◌≢◌, ◌≤◌, ◌+◌, ◌++◌, ◌∷◌, ℕ, [], List, false, true, length, take, IfOk, IfErr, OnOk, OnErr, IfSome, IfNone, None, Some};
ghost use Rattle.std.specs.List.{flat_map};
ghost use Rattle.std.specs.Io.KnownBytes.{Appends};
ghost use Rattle.sp_frames.specs.declared.frame.Frame.{Frame};
ghost use Rattle.sp_frames.specs.Banner.{banner};
ghost use Rattle.sp_io.specs.Whole.{AppendsFirst};
ghost use Rattle.sp_frames.specs.Grammar.{Fits, spelling};
ghost use Rattle.sp_server.specs.Serving.{HandsOut};
ghost use Rattle.sp_server.specs.Stdio.{connection, most_input, takes_salt, AreSaltsOf, salt_for, EndsAs, is_read, is_decided};
ghost use Rattle.sp_server.specs.Session.{HasStopCause, Moves, AnswersOne, IsBehind, IsAnsweredSoFar, IsAt, IsMet, IsQueueFront, StopsOne, IsStopText, IsPartBehind, IsOutBehind, IsServedBy};

use crate::serving::{hand_out, work_all};
use crate::stdio::StdioEnd;
use sp_base::{ConnNo, NoMemory, Octets};
use sp_frames::{BANNER, Body, Frame, FrameFault, Framer, encode};
use sp_hub::{Finish, Hub, Reply};
use sp_io::{Failed, Salt, Sink, put_all};
use std::alloc::Global;
use std::mem;

/// The number of the one connection.
const CONNECTION: ConnNo = ConnNo(0);

/// The most bytes of input that are looked at: 1 GiB.
const MOST_INPUT: u64 = 1 << 30;

/// Why a session stops before its input does.
#[derive(Clone, Copy, Debug, PartialEq, Eq)]
pub enum Stop {
    /// The sink failed.
    Output,
    /// The salt failed.
    Salt,
    /// Memory was refused.
    NoMemory,
}

impl From<NoMemory> for Stop {
    ghost use Rattle.sp_server.specs.declared.session.Stop.TheVariants as stop;

    ghost from_gives = { λ _ e. e ≡ stop.NoMemory };

    fn from(_e: NoMemory) -> Stop {
        Stop::NoMemory
    }
}

impl From<Failed> for Stop {
    ghost use Rattle.sp_server.specs.declared.session.Stop.TheVariants as stop;

    ghost from_gives = { λ _ e. e ≡ stop.Output };

    fn from(_e: Failed) -> Stop {
        Stop::Output
    }
}

/// Whether an event happened: the error is want of memory, and then it didn't.
fn happened(reply: Reply) -> Result<(), NoMemory>
    ensures { OnOk result (reply ≢ Reply.NoMemory) }
{
    match reply {
        Reply::NoMemory => Err(NoMemory),
        _ => Ok(()),
    }
}

/// The fault that a framer met; the error is want of memory.
fn met_fault(fed: Result<(), FrameFault>) -> Result<Option<FrameFault>, NoMemory>
    ensures { IfOk result (IsMet fed) }
{
    match fed {
        Ok(()) => Ok(None),
        Err(FrameFault::NoMemory) => Err(NoMemory),
        Err(fault) => Ok(Some(fault)),
    }
}

/// Whether a frame takes a salt.
fn takes_salt(body: &Body) -> bool
    ensures { result ≡ takes_salt body.now }
{
    matches!(body, Body::Prefork | Body::Preexec)
}

/// The salt of a frame: the next one for a frame that takes one, and 0 for any other.
fn salt_for<S: Salt>(frame: &Frame, salt: &mut S) -> Result<u64, Stop>
    ensures ok { IfOk result (λ number. (salts : List ℕ)
        × Appends (S.drawn salt.old) (S.drawn salt.new) salts
        × AreSaltsOf (frame.now ∷ []) salts × (number ≡ salt_for frame.now salts)) }
    ensures err { IfErr result (λ stop. (stop ≡ Stop.Salt) × (takes_salt frame.now.body ≡ true)
        × Appends (S.drawn salt.old) (S.drawn salt.new) []) }
    ensures salt { HasStopCause Stop.Salt (S.faults salt.old) (S.faults salt.new) result }
{
    if !takes_salt(&frame.body) {
        return Ok(0);
    }
    match salt.next() {
        Ok(number) => Ok(number),
        Err(_) => Err(Stop::Salt),
    }
}

/// An empty text in the room of another one, which is lost.
fn empty_text(alloc: Global, room: &mut Vec<u8>) -> Octets
    ensures { result ≡ [] }
{
    let mut bytes = mem::replace(room, Vec::new(alloc));
    bytes.clear();
    Octets::from_vec(bytes)
}

/// Takes all that is queued for the connection, and writes it; the room is for the text, and what it holds is lost.
fn put_queued<O: Sink>(
    alloc: Global,
    hub: &mut Hub,
    room: &mut Vec<u8>,
    sink: &mut O,
) -> Result<(), Stop>
    requires { O.is_done sink.old ≡ false }
    ensures ok { OnOk result ((frames : List Frame) × HandsOut hub.old connection frames hub.new
        × Appends (O.held sink.old) (O.held sink.new) (flat_map spelling frames)) }
    ensures err { OnErr result ((text : List ℕ) × Appends (O.held sink.old) (O.held sink.new) text
        × IsQueueFront hub.old text) }
    ensures unsalted { IfErr result (λ stop. stop ≢ Stop.Salt) }
    ensures cause { HasStopCause Stop.Output (O.faults sink.old) (O.faults sink.new) result }
    ensures open { O.is_done sink.new ≡ false }
{
    let mut text = empty_text(alloc, room);
    hand_out(alloc, hub, CONNECTION, &mut text)?;
    put_all(sink, text.slice())?;
    *room = text.into_vec();
    Ok(())
}

/// Writes a response; the room is for its text, and what it holds is lost.
fn put_response<O: Sink>(
    alloc: Global,
    response: &Frame,
    room: &mut Vec<u8>,
    sink: &mut O,
) -> Result<(), Stop>
    requires fits { Fits response.now }
    requires open { O.is_done sink.old ≡ false }
    ensures ok { OnOk result
        (Appends (O.held sink.old) (O.held sink.new) (spelling response.now)) }
    ensures err { OnErr result
        (AppendsFirst (O.held sink.old) (O.held sink.new) (spelling response.now)) }
    ensures unsalted { IfErr result (λ stop. stop ≢ Stop.Salt) }
    ensures cause { HasStopCause Stop.Output (O.faults sink.old) (O.faults sink.new) result }
    ensures open { O.is_done sink.new ≡ false }
{
    let mut spelled = empty_text(alloc, room);
    encode(alloc, response, &mut spelled)?;
    put_all(sink, spelled.slice())?;
    *room = spelled.into_vec();
    Ok(())
}

/// A frame comes: it happens to the server with its salt, its open calls are worked, and what is queued then is written; all at once
/// where it can be.
fn answer<O: Sink, S: Salt>(
    alloc: Global,
    hub: &mut Hub,
    frame: Frame,
    room: &mut Vec<u8>,
    sink: &mut O,
    salt: &mut S,
) -> Result<(), Stop>
    requires { O.is_done sink.old ≡ false }
    ensures ok { OnOk result (Moves (S.drawn salt.old) (S.drawn salt.new)
        (O.held sink.old) (O.held sink.new)
        (λ salts text. AnswersOne hub.old frame salts text hub.new)) }
    ensures err { IfErr result (λ stop. Moves (S.drawn salt.old) (S.drawn salt.new)
        (O.held sink.old) (O.held sink.new) (StopsOne stop hub.old frame)) }
    ensures cause { HasStopCause Stop.Output (O.faults sink.old) (O.faults sink.new) result }
    ensures salt { HasStopCause Stop.Salt (S.faults salt.old) (S.faults salt.new) result }
    ensures open { O.is_done sink.new ≡ false }
{
    let number = salt_for(&frame, salt)?;
    match hub.at_once(CONNECTION, &frame) {
        Some(response) => put_response(alloc, &response, room, sink),
        None => {
            happened(hub.frame(CONNECTION, frame, number))?;
            work_all(hub, CONNECTION)?;
            put_queued(alloc, hub, room, sink)
        }
    }
}

/// Answers all frames that are ready.
fn answer_ready<O: Sink, S: Salt>(
    alloc: Global,
    hub: &mut Hub,
    framer: &mut Framer,
    room: &mut Vec<u8>,
    sink: &mut O,
    salt: &mut S,
) -> Result<(), Stop>
    requires { O.is_done sink.old ≡ false }
    ensures ok { OnOk result ((input before written : List ℕ)
        → IsBehind framer.old hub.old input before written
        → Moves (S.drawn salt.old) (S.drawn salt.new) (O.held sink.old) (O.held sink.new)
        (λ salts text. IsAnsweredSoFar input (before ++ salts) (written ++ text) framer.new.rest
        hub.new)) }
    ensures err { IfErr result (λ stop. (input before written : List ℕ)
        → IsBehind framer.old hub.old input before written
        → Moves (S.drawn salt.old) (S.drawn salt.new) (O.held sink.old) (O.held sink.new)
        (λ salts text. IsStopText stop input (before ++ salts) (written ++ text))) }
    ensures ready { OnOk result (framer.new.ready ≡ []) }
    ensures rest { OnOk result (framer.new.rest ≡ framer.old.rest) }
    ensures stop { OnOk result (framer.new.stop ≡ framer.old.stop) }
    ensures cause { HasStopCause Stop.Output (O.faults sink.old) (O.faults sink.new) result }
    ensures salt { HasStopCause Stop.Salt (S.faults salt.old) (S.faults salt.new) result }
    ensures open { O.is_done sink.new ≡ false }
{
    while let Some(frame) = framer.next() {
        answer(alloc, hub, frame, room, sink, salt)?;
    }
    Ok(())
}

/// A server with its one connection, and what it was fed so far.
#[derive(Drop)]
pub struct Session {
    alloc: Global,
    hub: Hub,
    framer: Framer,
    room: Vec<u8>,
    fed: u64,
}

impl Session {
    /// Opens the connection, and writes the banner.
    pub fn begin<O: Sink>(alloc: Global, sink: &mut O) -> Result<Session, Stop>
        requires { O.is_done sink.old ≡ false }
        ensures ok { IfOk result (λ session. IsAt session None [] [] banner) }
        ensures banner { OnOk result (Appends (O.held sink.old) (O.held sink.new) banner) }
        ensures err { OnErr result (IsPartBehind [] [] [] (O.held sink.old) (O.held sink.new)) }
        ensures unsalted { IfErr result (λ stop. stop ≢ Stop.Salt) }
        ensures cause { HasStopCause Stop.Output (O.faults sink.old) (O.faults sink.new) result }
        ensures open { O.is_done sink.new ≡ false }
    {
        let framer = Framer::fresh(alloc);
        let mut hub = Hub::fresh(alloc)?;
        happened(hub.opened(CONNECTION))?;
        put_all(sink, &BANNER)?;
        Ok(Session {
            alloc,
            hub,
            framer,
            room: Vec::new(alloc),
            fed: 0,
        })
    }

    /// The offset behind the last whole frame.
    fn offset(&self) -> u64
        requires { length self.now.framer.rest ≤ self.now.fed }
        ensures { result + length self.now.framer.rest ≡ self.now.fed }
    {
        self.fed - self.framer.unread() as u64
    }

    /// The input ends: that happens to the server, and what is queued then is written.
    fn close<O: Sink>(&mut self, how: Finish, sink: &mut O) -> Result<(), Stop>
        requires { O.is_done sink.old ≡ false }
        ensures ok { OnOk result ((input salts before rest : List ℕ) (offset : ℕ)
            → IsAnsweredSoFar input salts before rest self.old.hub → EndsAs how rest
            → offset + length rest ≡ length input
            → IsOutBehind input salts how offset before (O.held sink.old) (O.held sink.new)) }
        ensures err { OnErr result ((input salts before rest : List ℕ) (offset : ℕ)
            → IsAnsweredSoFar input salts before rest self.old.hub → EndsAs how rest
            → offset + length rest ≡ length input
            → IsPartBehind input salts before (O.held sink.old) (O.held sink.new)) }
        ensures unsalted { IfErr result (λ stop. stop ≢ Stop.Salt) }
        ensures cause { HasStopCause Stop.Output (O.faults sink.old) (O.faults sink.new) result }
        ensures open { O.is_done sink.new ≡ false }
    {
        let _ = self.hub.ended(CONNECTION, how);
        put_queued(self.alloc, &mut self.hub, &mut self.room, sink)
    }

    /// The input is no frame from here on; gives the offset of the first byte that is none.
    fn break_off<O: Sink>(&mut self, fault: FrameFault, sink: &mut O) -> Result<u64, Stop>
        requires open { O.is_done sink.old ≡ false }
        requires at { (input : List ℕ) × (salts : List ℕ) × (before : List ℕ)
            × IsAt self.old (Some fault) input salts before }
        ensures ok { IfOk result (λ offset. (input salts before : List ℕ)
            → IsAt self.old (Some fault) input salts before
            → IsOutBehind input salts (Finish.Bad fault) offset before (O.held sink.old)
            (O.held sink.new)) }
        ensures err { OnErr result ((input salts before : List ℕ)
            → IsAt self.old (Some fault) input salts before
            → IsPartBehind input salts before (O.held sink.old) (O.held sink.new)) }
        ensures unsalted { IfErr result (λ stop. stop ≢ Stop.Salt) }
        ensures cause { HasStopCause Stop.Output (O.faults sink.old) (O.faults sink.new) result }
        ensures open { O.is_done sink.new ≡ false }
    {
        let offset = self.offset();
        self.close(Finish::Bad(fault), sink)?;
        Ok(offset)
    }

    /// Bytes of the input come, and what they complete is answered; the fault that stands behind it, if one does.
    fn feed<O: Sink, S: Salt>(
        &mut self,
        bytes: &[u8],
        sink: &mut O,
        salt: &mut S,
    ) -> Result<Option<FrameFault>, Stop>
        requires open { O.is_done sink.old ≡ false }
        requires few { self.old.fed + length bytes.now ≤ most_input }
        ensures ok { IfOk result (λ fault. (input before written : List ℕ)
            → IsAt self.old None input before written
            → Moves (S.drawn salt.old) (S.drawn salt.new) (O.held sink.old) (O.held sink.new)
            (λ salts text. IsAt self.new fault (input ++ bytes.now) (before ++ salts)
            (written ++ text))) }
        ensures err { IfErr result (λ stop. (input before written : List ℕ)
            → IsAt self.old None input before written
            → Moves (S.drawn salt.old) (S.drawn salt.new) (O.held sink.old) (O.held sink.new)
            (λ salts text. IsStopText stop (input ++ bytes.now) (before ++ salts)
            (written ++ text))) }
        ensures cause { HasStopCause Stop.Output (O.faults sink.old) (O.faults sink.new) result }
        ensures salt { HasStopCause Stop.Salt (S.faults salt.old) (S.faults salt.new) result }
        ensures open { O.is_done sink.new ≡ false }
    {
        let fault = met_fault(self.framer.feed(bytes))?;
        self.fed += bytes.len() as u64;
        answer_ready(
            self.alloc,
            &mut self.hub,
            &mut self.framer,
            &mut self.room,
            sink,
            salt,
        )?;
        Ok(fault)
    }

    /// A piece of the input comes, and what it completes is answered; gives the end, if the piece brings one about.
    pub fn receive<O: Sink, S: Salt>(
        &mut self,
        piece: &[u8],
        sink: &mut O,
        salt: &mut S,
    ) -> Result<Option<StdioEnd>, Stop>
        requires open { O.is_done sink.old ≡ false }
        requires at { (input : List ℕ) × (salts : List ℕ) × (before : List ℕ)
            × IsAt self.old None input salts before }
        ensures goes_on { IfOk result (λ end. IfNone end ((input before written : List ℕ)
            → IsAt self.old None input before written
            → Moves (S.drawn salt.old) (S.drawn salt.new) (O.held sink.old) (O.held sink.new)
            (λ salts text. IsAt self.new None (input ++ piece.now) (before ++ salts)
            (written ++ text)))) }
        ensures ends { IfOk result (λ end. IfSome end (λ end. (input before written : List ℕ)
            → IsAt self.old None input before written
            → Moves (S.drawn salt.old) (S.drawn salt.new) (O.held sink.old) (O.held sink.new)
            (λ salts text. IsServedBy end (input ++ piece.now) (before ++ salts)
            (written ++ text)))) }
        ensures unread { IfOk result (λ end. IfSome end (λ end. is_read end ≡ false)) }
        ensures outside { IfOk result (λ end. IfSome end (λ end. is_decided end ≡ true)) }
        ensures err { IfErr result (λ stop. (input before written : List ℕ)
            → IsAt self.old None input before written
            → Moves (S.drawn salt.old) (S.drawn salt.new) (O.held sink.old) (O.held sink.new)
            (λ salts text. IsStopText stop (take most_input (input ++ piece.now))
            (before ++ salts) (written ++ text))) }
        ensures cause { HasStopCause Stop.Output (O.faults sink.old) (O.faults sink.new) result }
        ensures salt { HasStopCause Stop.Salt (S.faults salt.old) (S.faults salt.new) result }
        ensures open { O.is_done sink.new ≡ false }
    {
        let room = (MOST_INPUT - self.fed).min(piece.len() as u64) as usize;
        let (inside, beyond) = piece.split_at(room);
        match self.feed(inside, sink, salt)? {
            Some(fault) => {
                let offset = self.break_off(fault, sink)?;
                Ok(Some(StdioEnd::BadAt(offset)))
            }
            None if beyond.is_empty() => Ok(None),
            None => Ok(Some(StdioEnd::TooMuch)),
        }
    }

    /// The input ended behind what was fed.
    pub fn finish<O: Sink>(&mut self, sink: &mut O) -> Result<StdioEnd, Stop>
        requires open { O.is_done sink.old ≡ false }
        requires at { (input : List ℕ) × (salts : List ℕ) × (before : List ℕ)
            × IsAt self.old None input salts before }
        ensures ok { IfOk result (λ end. (input salts before : List ℕ)
            → IsAt self.old None input salts before
            → (text : List ℕ) × Appends (O.held sink.old) (O.held sink.new) text
            × IsServedBy end input salts (before ++ text)) }
        ensures outside { IfOk result (λ end. is_decided end ≡ true) }
        ensures err { OnErr result ((input salts before : List ℕ)
            → IsAt self.old None input salts before
            → IsPartBehind input salts before (O.held sink.old) (O.held sink.new)) }
        ensures unsalted { IfErr result (λ stop. stop ≢ Stop.Salt) }
        ensures cause { HasStopCause Stop.Output (O.faults sink.old) (O.faults sink.new) result }
        ensures open { O.is_done sink.new ≡ false }
    {
        if self.framer.inside() {
            let offset = self.offset();
            self.close(Finish::Inside, sink)?;
            Ok(StdioEnd::InsideAt(offset))
        } else {
            self.close(Finish::Clean, sink)?;
            Ok(StdioEnd::Clean)
        }
    }
}
