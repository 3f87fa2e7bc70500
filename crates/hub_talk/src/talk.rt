//! A talk with a hub.

use crate::fault::Fault;
use crate::step::{Step, step_in};
use crate::word::number_in;
use kern_model::Entry;
use script_words::{first_word, pieces, put_number, words_of};
use sp_base::{ConnNo, NoMemory, Octets};
use sp_frames::encode;
use sp_hub::{Event, Hub, Reply};
use std::alloc::Global;

/// A hub, and what was said so far.
#[derive(Drop)]
pub struct Talk {
    alloc: Global,
    hub: Hub,
    out: Octets,
    understood: bool,
}

/// Appends an entry of the journal: its process, what it was made for, and its operation.
fn put_entry(alloc: Global, out: &mut Octets, entry: &Entry) -> Result<(), NoMemory> {
    let text = format!(in alloc; "{:?} {:?} {:?}", entry.pid, entry.who, entry.op)?;
    out.extend(text.as_bytes())
}

/// The numbers and the steps of a row `each FIRST LAST: STEPS`.
fn each_in(alloc: Global, row: &[u8]) -> Result<(u64, u64, &[u8]), Fault> {
    let parts = pieces(alloc, row, b':')?;
    let [head, steps] = parts.as_slice() else {
        return Err(Fault::NotUnderstood);
    };
    let words = words_of(alloc, head)?;
    let [_, first, last] = words.as_slice() else {
        return Err(Fault::NotUnderstood);
    };
    Ok((number_in(first, 0)?, number_in(last, 0)?, *steps))
}

impl Talk {
    /// A talk with a hub to which nothing happened.
    pub fn fresh(alloc: Global) -> Result<Talk, NoMemory> {
        Ok(Talk {
            alloc,
            hub: Hub::fresh(alloc)?,
            out: Octets::none(alloc),
            understood: true,
        })
    }

    /// All that is to be printed.
    pub fn out(&self) -> &[u8] {
        self.out.slice()
    }

    /// Whether each step was understood.
    pub fn is_understood(&self) -> bool {
        self.understood
    }

    /// Tells that a step isn't understood.
    fn refuse(&mut self) -> Result<(), NoMemory> {
        self.understood = false;
        self.out.extend(b"not understood")
    }

    /// Tells the hub of an event, and what it answers.
    fn event(&mut self, event: Event) -> Result<(), NoMemory> {
        let reply = self.hub.play(event);
        let text = format!(in self.alloc; "{reply:?}")?;
        self.out.extend(text.as_bytes())
    }

    /// Takes a frame, and tells its bytes.
    fn spell(&mut self, no: ConnNo) -> Result<(), NoMemory> {
        let mut spelled = Octets::none(self.alloc);
        if let Reply::Out(frame) = self.hub.play(Event::Take(no)) {
            encode(self.alloc, &frame, &mut spelled)?;
        }
        let text = hex::encode(self.alloc, spelled.slice())?;
        self.out.extend(text.as_bytes())
    }

    /// Tells how many entries the journal has, and each on a row.
    fn journal(&mut self) -> Result<(), NoMemory> {
        put_number(&mut self.out, self.hub.journal().len() as u64)?;
        for entry in self.hub.journal() {
            self.out.extend(b"\n  ")?;
            put_entry(self.alloc, &mut self.out, entry)?;
        }
        Ok(())
    }

    /// Tells how many entries the journal has, and the last one.
    fn last(&mut self) -> Result<(), NoMemory> {
        put_number(&mut self.out, self.hub.journal().len() as u64)?;
        if let Some(entry) = self.hub.journal().last() {
            self.out.extend(b", ")?;
            put_entry(self.alloc, &mut self.out, entry)?;
        }
        Ok(())
    }

    /// Does what the words ask for, and tells the answer.
    fn step(&mut self, words: &[&[u8]], count: u64) -> Result<(), NoMemory> {
        match step_in(self.alloc, words, count) {
            Err(Fault::NoMemory) => Err(NoMemory),
            Err(Fault::NotUnderstood) => self.refuse(),
            Ok(Step::Fresh) => {
                self.hub = Hub::fresh(self.alloc)?;
                self.out.extend(b"Nothing")
            }
            Ok(Step::Event(event)) => self.event(event),
            Ok(Step::Spell(no)) => self.spell(no),
            Ok(Step::Lowest(no, above)) => {
                let lowest = self.hub.lowest_task(no, above);
                let text = format!(in self.alloc; "{lowest:?}")?;
                self.out.extend(text.as_bytes())
            }
            Ok(Step::Journal) => self.journal(),
            Ok(Step::Last) => self.last(),
        }
    }

    /// Does steps with `;` between them, and tells the answer of each.
    fn steps(&mut self, steps: &[u8], count: u64) -> Result<(), NoMemory> {
        let steps = pieces(self.alloc, steps, b';')?;
        for (i, step) in steps.iter().enumerate() {
            if i > 0 {
                self.out.extend(b"; ")?;
            }
            let words = words_of(self.alloc, step)?;
            self.step(words.as_slice(), count)?;
        }
        Ok(())
    }

    /// Does the steps once for each number, the last one too, and tells the answers of each on a row.
    fn each(&mut self, first: u64, last: u64, steps: &[u8]) -> Result<(), NoMemory> {
        for count in first..last.saturating_add(1) {
            self.out.extend(b"\n  ")?;
            put_number(&mut self.out, count)?;
            self.out.extend(b" -> ")?;
            self.steps(steps, count)?;
        }
        Ok(())
    }

    /// Does a row, and tells it with its answers.
    fn row(&mut self, row: &[u8]) -> Result<(), NoMemory> {
        self.out.extend(row)?;
        let first = first_word(row);
        if first.is_empty() || first == b"#".as_slice() {
            return Ok(());
        }
        if first != b"each".as_slice() {
            self.out.extend(b" -> ")?;
            return self.steps(row, 0);
        }
        match each_in(self.alloc, row) {
            Ok((first, last, steps)) => self.each(first, last, steps),
            Err(Fault::NoMemory) => Err(NoMemory),
            Err(Fault::NotUnderstood) => {
                self.out.extend(b" -> ")?;
                self.refuse()
            }
        }
    }

    /// Does all rows, and tells each. An error leaves the talk where it came.
    pub fn rows(&mut self, rows: &[u8]) -> Result<(), NoMemory> {
        let rows = match rows {
            [rows @ .., b'\n'] => rows,
            _ => rows,
        };
        for row in pieces(self.alloc, rows, b'\n')?.iter() {
            self.row(row)?;
            self.out.push(b'\n')?;
        }
        Ok(())
    }
}
