//! A world in which events happen one after another.
ghost use Rattle.sp_world.specs.Happens.{IsNamed};

use client_model::Reply as ClientReply;
use hub_model::Reply as ServerReply;
use sp_base::{Call, Caller, ConnNo, Items, NoMemory, ReqNo};
use sp_copy::Mem;
use sp_world::{Event, Reply, World};
use std::alloc::Global;
use std::mem::ManuallyDrop;

/// The salt of every cookie that is made on the way of frames.
const SALT: u64 = 1_000;

/// How many kinds of steps the way of a call has.
const KINDS: u64 = 5;

/// No way has more steps.
const MOST_STEPS: u64 = 200;

/// A step on the way of a call to the server and back.
#[derive(Clone, Copy, Debug)]
enum Way {
    FromClient,
    ToServer,
    Work,
    FromServer,
    ToClient,
}

/// A call that the server can work.
#[derive(Clone, Copy, Debug)]
struct Task {
    no: ConnNo,
    number: ReqNo,
}

/// The link of a connection that is to break once so many events happened.
#[derive(Clone, Copy, Debug)]
pub struct Break {
    pub no: ConnNo,
    pub at: u64,
}

/// A world, and what the server can work in it.
///
/// The world's memory isn't given back: the program ends once its rows are told.
#[derive(Drop)]
pub struct Player {
    pub world: ManuallyDrop<World>,
    tasks: Items<Task>,
    happened: u64,
    to_break: Option<Break>,
}

/// Which step has this number, counted from 1.
fn way_of(step: u64) -> Way {
    match step % KINDS {
        1 => Way::FromClient,
        2 => Way::ToServer,
        3 => Way::Work,
        4 => Way::FromServer,
        _ => Way::ToClient,
    }
}

/// The connection of a frame that comes to the server.
fn arrives_over(event: &Event) -> Option<ConnNo> {
    match event {
        Event::ToServer(no, _) => Some(*no),
        _ => None,
    }
}

/// Whether the answer tells that nothing happened.
fn is_nothing(reply: &Reply) -> bool {
    matches!(
        reply,
        Reply::Nothing | Reply::Closed | Reply::Server(ServerReply::Nothing)
    )
}

impl Player {
    /// A world in which nothing happened. The only error is want of memory.
    pub fn fresh(alloc: Global, to_break: Option<Break>) -> Result<Player, NoMemory> {
        Ok(Player {
            world: ManuallyDrop::new(World::fresh(alloc)?),
            tasks: Items::none(alloc),
            happened: 0,
            to_break,
        })
    }

    /// How many events happened that were answered otherwise than with Nothing or Closed.
    pub fn happened(&self) -> u64 {
        self.happened
    }

    /// Breaks the link whose turn has come, once.
    fn break_link(&mut self) {
        if let Some(Break { no, at }) = self.to_break {
            if at == self.happened {
                self.to_break = None;
                self.world.play(Event::Cut(no));
            }
        }
    }

    /// An event happens: what is answered. The only error is want of memory.
    pub fn play(&mut self, event: Event) -> Result<Reply, NoMemory>
        requires { IsNamed event }
    {
        self.break_link();
        let over = arrives_over(&event);
        let reply = self.world.play(event);
        if !is_nothing(&reply) {
            self.happened = self.happened.saturating_add(1);
        }
        match (over, &reply) {
            (_, Reply::NoMemory) => return Err(NoMemory),
            (Some(no), Reply::Server(ServerReply::Task(number))) => {
                let number = *number;
                self.tasks.push(Task { no, number })?;
            }
            _ => {}
        }
        Ok(reply)
    }

    /// Takes the first task of a connection out; those that it passes over stay behind the others.
    fn take_task(&mut self, no: ConnNo) -> Result<Option<Task>, NoMemory> {
        for _ in 0..self.tasks.len() {
            let Some(task) = self.tasks.take_first() else {
                return Ok(None);
            };
            if task.no == no {
                return Ok(Some(task));
            }
            self.tasks.push(task)?;
        }
        Ok(None)
    }

    /// The server works a call of a connection that it can work, and keeps it where it isn't ready;
    /// gives whether something happened.
    fn work(&mut self, no: ConnNo) -> Result<bool, NoMemory> {
        let Some(task) = self.take_task(no)? else {
            return Ok(false);
        };
        match self.play(Event::Work(no, task.number))? {
            Reply::Server(ServerReply::NotReady) => {
                self.tasks.push(task)?;
                Ok(false)
            }
            reply => Ok(!is_nothing(&reply)),
        }
    }

    /// A step of a connection; gives whether something happened.
    fn go(&mut self, no: ConnNo, way: Way) -> Result<bool, NoMemory> {
        let reply = match way {
            Way::FromClient => self.play(Event::FromClient(no))?,
            Way::ToServer => self.play(Event::ToServer(no, SALT))?,
            Way::Work => return self.work(no),
            Way::FromServer => self.play(Event::FromServer(no))?,
            Way::ToClient => self.play(Event::ToClient(no))?,
        };
        Ok(!is_nothing(&reply))
    }

    /// The frames of a connection move on, and the server works its calls, till nothing moves.
    pub fn through(&mut self, no: ConnNo) -> Result<(), NoMemory> {
        let mut last: u64 = 0;
        for step in 1..MOST_STEPS {
            if self.go(no, way_of(step))? {
                last = step;
            }
            if step.saturating_sub(last) >= KINDS {
                return Ok(());
            }
        }
        Ok(())
    }

    /// The same of two connections, by turns: the first one goes first, but the second one at the
    /// step of a number, counted from 1.
    pub fn turns(&mut self, no: ConnNo, other: ConnNo, exchanged: u64) -> Result<(), NoMemory> {
        let mut last: u64 = 0;
        for step in 1..MOST_STEPS {
            let (first, second) = if step == exchanged {
                (other, no)
            } else {
                (no, other)
            };
            let way = way_of(step);
            let goes = self.go(first, way)?;
            if self.go(second, way)? || goes {
                last = step;
            }
            if step.saturating_sub(last) >= KINDS {
                return Ok(());
            }
        }
        Ok(())
    }

    /// A caller asks for a call, its frames move on till nothing moves, and it is collected: the
    /// request's number, where it has one, and the last answer.
    pub fn call(
        &mut self,
        no: ConnNo,
        caller: Caller,
        call: Call,
        mem: Mem,
    ) -> Result<(Option<ReqNo>, Reply), NoMemory> {
        match self.play(Event::Start(no, caller, call, mem))? {
            Reply::Client(ClientReply::Started(number)) => {
                self.through(no)?;
                let reply = self.play(Event::Collect(no, number))?;
                Ok((Some(number), reply))
            }
            reply => Ok((None, reply)),
        }
    }
}
