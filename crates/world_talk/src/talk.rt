//! A talk with a world, in rows.

use crate::call::call_in;
use crate::cuts::put_cuts;
use crate::event::event_in;
use crate::fault::Fault;
use crate::player::Player;
use crate::reply::put_reply;
use crate::word::{caller_in, connection_in, number_in, text_in};
use guest_journal::put_entry;
use kern_model::Entry;
use script_words::{first_word, pieces, put_number, words_of};
use sp_base::{NoMemory, Octets, Place, ReqNo};
use std::alloc::Global;

/// A world, what was said so far, and whether each step was done.
#[derive(Drop)]
pub struct Talk {
    alloc: Global,
    player: Player,
    out: Octets,
    is_done: bool,
}

/// Appends how many entries a journal has, and the line of each.
fn put_journal(alloc: Global, out: &mut Octets, journal: &[Entry]) -> Result<(), NoMemory> {
    put_number(out, journal.len() as u64)?;
    out.push(b'\n')?;
    for (place, entry) in journal.iter().enumerate() {
        put_entry(alloc, out, Place(place as u64), entry)?;
    }
    Ok(())
}

/// Appends yes or no.
fn put_whether(out: &mut Octets, is_so: bool) -> Result<(), NoMemory> {
    out.extend(if is_so {
        b"yes".as_slice()
    } else {
        b"no".as_slice()
    })
}

impl Talk {
    /// A talk with a world in which nothing happened. The only error is want of memory.
    pub fn fresh(alloc: Global) -> Result<Talk, NoMemory> {
        Ok(Talk {
            alloc,
            player: Player::fresh(alloc, None)?,
            out: Octets::none(alloc),
            is_done: true,
        })
    }

    /// All that is to be printed.
    pub fn out(&self) -> &[u8] {
        self.out.slice()
    }

    /// Whether each step was understood, and each check held.
    pub fn is_done(&self) -> bool {
        self.is_done
    }

    /// Tells how many events happened, and each on a row.
    fn log(&mut self) -> Result<(), NoMemory> {
        put_number(&mut self.out, self.player.world.log().len() as u64)?;
        for event in self.player.world.log() {
            let text = format!(in self.alloc; "\n  {event:?}")?;
            self.out.extend(text.as_bytes())?;
        }
        Ok(())
    }

    /// Tells what stands in the world, where the words ask for it; gives whether they do.
    fn tell(&mut self, words: &[&[u8]]) -> Result<bool, Fault> {
        let [name, rest @ ..] = words else {
            return Err(Fault::NotUnderstood);
        };
        match (text_in(name), rest) {
            ("log", []) => self.log()?,
            ("rump", []) => put_journal(self.alloc, &mut self.out, self.player.world.rump())?,
            ("host", []) => put_journal(self.alloc, &mut self.out, self.player.world.host())?,
            ("still", []) => put_whether(&mut self.out, self.player.world.is_still())?,
            ("refused", []) => {
                put_number(&mut self.out, self.player.world.refused().len() as u64)?;
            }
            ("faults", [no]) => {
                let faults = self.player.world.link_faults(connection_in(no)?);
                put_number(&mut self.out, faults)?;
            }
            ("busy", [no]) => {
                let is_busy = self.player.world.is_busy(connection_in(no)?);
                put_whether(&mut self.out, is_busy)?;
            }
            ("answered", [no, number]) => {
                let number = ReqNo(number_in(number)?);
                let is_answered = self.player.world.is_answered(connection_in(no)?, number);
                put_whether(&mut self.out, is_answered)?;
            }
            _ => return Ok(false),
        }
        Ok(true)
    }

    /// Has frames move on, and tells how many events happened, where the words ask for it; gives
    /// whether they do.
    fn go(&mut self, words: &[&[u8]]) -> Result<bool, Fault> {
        let [name, rest @ ..] = words else {
            return Err(Fault::NotUnderstood);
        };
        let before = self.player.happened();
        match (text_in(name), rest) {
            ("through", [no]) => self.player.through(connection_in(no)?)?,
            ("turns", [no, other, exchanged]) => {
                let no = connection_in(no)?;
                let other = connection_in(other)?;
                self.player.turns(no, other, number_in(exchanged)?)?;
            }
            _ => return Ok(false),
        }
        let happened = self.player.happened().saturating_sub(before);
        put_number(&mut self.out, happened)?;
        Ok(true)
    }

    /// Has an event happen, or a whole call, and tells what is answered.
    fn event(&mut self, words: &[&[u8]]) -> Result<(), Fault> {
        let reply = match words {
            [name, no, caller, call @ ..] if *name == b"call".as_slice() => {
                let no = connection_in(no)?;
                let caller = caller_in(caller)?;
                let (call, mem) = call_in(self.alloc, call)?;
                let (_, reply) = self.player.call(no, caller, call, mem)?;
                reply
            }
            _ => {
                let event = event_in(self.alloc, words)?;
                self.player.play(event)?
            }
        };
        put_reply(self.alloc, &mut self.out, &reply)?;
        Ok(())
    }

    /// Does what the words ask for, and tells the answer.
    fn act(&mut self, words: &[&[u8]]) -> Result<(), Fault> {
        match words {
            [name] if *name == b"fresh".as_slice() => {
                self.player = Player::fresh(self.alloc, None)?;
                self.out.extend(b"Nothing")?;
                Ok(())
            }
            _ => {
                if self.tell(words)? || self.go(words)? {
                    return Ok(());
                }
                self.event(words)
            }
        }
    }

    /// Tells why a step isn't done.
    fn refuse(&mut self, fault: Fault) -> Result<(), NoMemory> {
        self.is_done = false;
        match fault {
            Fault::NoMemory => Err(NoMemory),
            Fault::NotUnderstood => self.out.extend(b"not understood"),
            Fault::Wrong(why) => self.out.extend(why.as_bytes()),
        }
    }

    /// Does a step, and tells the answer, or why it isn't done.
    fn step(&mut self, step: &[u8]) -> Result<(), NoMemory> {
        let words = words_of(self.alloc, step)?;
        match self.act(words.as_slice()) {
            Ok(()) => Ok(()),
            Err(fault) => self.refuse(fault),
        }
    }

    /// Does steps with `;` between them, and tells the answer of each.
    fn steps(&mut self, steps: &[u8]) -> Result<(), NoMemory> {
        let steps = pieces(self.alloc, steps, b';')?;
        for (i, step) in steps.iter().enumerate() {
            if i > 0 {
                self.out.extend(b"; ")?;
            }
            self.step(step)?;
        }
        Ok(())
    }

    /// Has the conversation of a row `cuts: CALLS` at every cut, and tells what came of it.
    fn cuts(&mut self, row: &[u8]) -> Result<(), NoMemory> {
        let parts = pieces(self.alloc, row, b':')?;
        let [_, calls] = parts.as_slice() else {
            return self.refuse(Fault::NotUnderstood);
        };
        match put_cuts(self.alloc, &mut self.out, calls) {
            Ok(()) => Ok(()),
            Err(fault) => self.refuse(fault),
        }
    }

    /// Does a row, and tells it with its answers.
    fn row(&mut self, row: &[u8]) -> Result<(), NoMemory> {
        self.out.extend(row)?;
        let first = first_word(row);
        if first.is_empty() || first == b"#".as_slice() {
            return Ok(());
        }
        self.out.extend(b" -> ")?;
        if first == b"cuts:".as_slice() {
            self.cuts(row)
        } else {
            self.steps(row)
        }
    }

    /// Does all rows, and tells each. An error leaves the talk where it came.
    pub fn rows(&mut self, rows: &[u8]) -> Result<(), NoMemory> {
        let rows = match rows {
            [rows @ .., b'\n'] => rows,
            _ => rows,
        };
        for row in pieces(self.alloc, rows, b'\n')?.iter() {
            self.row(row)?;
            self.out.push(b'\n')?;
        }
        Ok(())
    }
}
