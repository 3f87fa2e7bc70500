// Copies of what happens, for the log, and of frames, which stay under way until they have come.
ghost use Rattle.std.specs.Prelude.{◌≡◌, IfOk};

use client_model::Hello;
use kern_model::Op;
use sp_base::{NoMemory, Octets};
use sp_frames::{Body, Frame};
use std::alloc::Global;
use world_model::Event;

/// The same body, by the rows of the table: bytes are copied, and all other fields too.
macro_rules! same_body {
    ($alloc:expr, $given:expr; $($body:ident { $($field:ident),*; $($bytes:ident),* },)*) => {
        match $given {
            $(Body::$body { $($field,)* $($bytes,)* } => Body::$body {
                $($field: *$field,)*
                $($bytes: Octets::of($alloc, $bytes.slice())?,)*
            },)*
            Body::Sys { num, words } => Body::Sys {
                num: *num,
                words: words.copy(),
            },
            Body::Answered(answer) => Body::Answered(*answer),
        }
    };
}

/// A copy of what a frame says. The only error is want of memory.
fn copy_of_body(alloc: Global, body: &Body) -> Result<Body, NoMemory>
    ensures { IfOk result (λ copy. copy ≡ body.now) }
{
    Ok(same_body!(alloc, body;
        Guest {; name },
        Join { cookie; name },
        Image { cookie; name },
        AskBytes { index, addr, len; },
        AskText { index, addr, max; },
        Put { index, addr; bytes },
        Prefork {; },
        Cancel { cookie; },
        Preexec {; },
        Hello { pid; },
        Joined { pid; },
        Imaged { pid, place; },
        GotBytes { index, err; bytes },
        GotText { index, err; bytes },
        Forked { cookie, place, pid; },
        Cancelled {; },
        ExecReady { cookie; },
        Refused { kind, why; },
    ))
}

/// A copy of a frame. The only error is want of memory.
pub(crate) fn copy_of_frame(alloc: Global, frame: &Frame) -> Result<Frame, NoMemory>
    ensures { IfOk result (λ copy. copy ≡ frame.now) }
{
    Ok(Frame {
        number: frame.number,
        body: copy_of_body(alloc, &frame.body)?,
    })
}

/// A copy of how a client begins. The only error is want of memory.
fn copy_of_hello(alloc: Global, hello: &Hello) -> Result<Hello, NoMemory>
    ensures { IfOk result (λ copy. copy ≡ hello.now) }
{
    Ok(match hello {
        Hello::Guest(name) => Hello::Guest(Octets::of(alloc, name.slice())?),
        Hello::Join(cookie, name) => Hello::Join(*cookie, Octets::of(alloc, name.slice())?),
        Hello::Image(cookie, name) => Hello::Image(*cookie, Octets::of(alloc, name.slice())?),
    })
}

/// A copy of an operation; takes no memory.
fn copy_of_op(op: &Op) -> Op
    ensures { result ≡ op.now }
{
    match op {
        Op::Sys(call) => Op::Sys(call.copy()),
        Op::Attach => Op::Attach,
        Op::Fork => Op::Fork,
        Op::Exec => Op::Exec,
        Op::Exit => Op::Exit,
    }
}

/// A copy of an event. The only error is want of memory.
pub(crate) fn copy_of_event(alloc: Global, event: &Event) -> Result<Event, NoMemory>
    ensures { IfOk result (λ copy. copy ≡ event.now) }
{
    Ok(match event {
        Event::Connect(no, hello) => Event::Connect(*no, copy_of_hello(alloc, hello)?),
        Event::Start(no, caller, call, mem) => {
            Event::Start(*no, *caller, call.copy(), mem.copy(alloc)?)
        }
        Event::Prefork(no, caller, want) => Event::Prefork(*no, *caller, *want),
        Event::Preexec(no, caller) => Event::Preexec(*no, *caller),
        Event::Collect(no, number) => Event::Collect(*no, *number),
        Event::ToServer(no, salt) => Event::ToServer(*no, *salt),
        Event::FromServer(no) => Event::FromServer(*no),
        Event::ToClient(no) => Event::ToClient(*no),
        Event::FromClient(no) => Event::FromClient(*no),
        Event::Work(no, number) => Event::Work(*no, *number),
        Event::Cut(no) => Event::Cut(*no),
        Event::Ends(no) => Event::Ends(*no),
        Event::Host(guest, caller, pid, op, mem) => {
            Event::Host(*guest, *caller, *pid, copy_of_op(op), mem.copy(alloc)?)
        }
        Event::GiveUp => Event::GiveUp,
        Event::Halt => Event::Halt,
    })
}
