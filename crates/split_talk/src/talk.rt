//! A talk with rules, a view and the splitter.

use crate::call::{answers_of, call_of};
use crate::names::{name_in, side_in, side_name};
use crate::reading::memory_of;
use crate::telling::{put_fault, put_named, put_plan, put_routed};
use hijack_rules::{RuleFault, Rules};
use hijack_split::View;
use script_words::{first_word, number_of, pieces, put_number, text_of, words_of};
use sp_base::{NoMemory, Octets};
use sp_copy::Mem;
use std::alloc::Global;

/// No text that is looked at for its side is longer.
const LONGEST_PATH: usize = 4096;

/// The rules, the view and the memory, and what was said so far.
#[derive(Drop)]
pub struct Talk {
    alloc: Global,
    rules: Rules,
    view: View,
    mem: Mem,
    out: Octets,
    understood: bool,
}

impl Talk {
    /// A talk to which nothing was said.
    pub fn begun(alloc: Global) -> Talk {
        let rules = Rules::raw();
        let view = View::fresh(&rules);
        Talk {
            alloc,
            rules,
            view,
            mem: Mem::none(alloc),
            out: Octets::none(alloc),
            understood: true,
        }
    }

    /// All that is to be printed.
    pub fn out(&self) -> &[u8] {
        self.out.slice()
    }

    /// Whether each row was understood.
    pub fn is_understood(&self) -> bool {
        self.understood
    }

    /// Tells that a row isn't understood.
    fn refuse(&mut self) -> Result<(), NoMemory> {
        self.understood = false;
        self.out.extend(b"not understood")
    }

    /// Goes on under other rules, with a fresh view.
    fn put_rules(&mut self, rules: Rules) -> Result<(), NoMemory> {
        self.view = View::fresh(&rules);
        self.rules = rules;
        self.out.extend(b"ok")
    }

    /// Takes the rules of a text, or tells what is wrong with it.
    fn read_rules(&mut self, word: &[u8]) -> Result<(), NoMemory> {
        if word == b"raw".as_slice() {
            return self.put_rules(Rules::raw());
        }
        let Some(text) = text_of(self.alloc, word)? else {
            return self.refuse();
        };
        match Rules::read(self.alloc, text.slice()) {
            Ok(rules) => self.put_rules(rules),
            Err(RuleFault::NoMemory) => Err(NoMemory),
            Err(fault) => put_fault(&mut self.out, &fault),
        }
    }

    /// Tells where a path goes.
    fn path(&mut self, side: &[u8], word: &[u8]) -> Result<(), NoMemory> {
        let text = text_of(self.alloc, word)?;
        match (side_in(name_in(side)), text) {
            (Some(cwd), Some(text)) => {
                let path = text.slice();
                if path.len() > LONGEST_PATH {
                    return self.refuse();
                }
                let routed = self.rules.path_side(cwd, path);
                put_routed(&mut self.out, routed)
            }
            _ => self.refuse(),
        }
    }

    /// Tells where sockets of a family go.
    fn family(&mut self, word: &[u8]) -> Result<(), NoMemory> {
        match number_of(word) {
            Some(family) => {
                let side = self.rules.socket_side(family);
                self.out.extend(side_name(side).as_bytes())
            }
            None => self.refuse(),
        }
    }

    /// Tells the view.
    fn tell_view(&mut self) -> Result<(), NoMemory> {
        let text = self.view.text(self.alloc)?;
        self.out.extend(text.slice())
    }

    /// Takes the view of a text, and tells it.
    fn read_view(&mut self, word: &[u8]) -> Result<(), NoMemory> {
        let Some(text) = text_of(self.alloc, word)? else {
            return self.refuse();
        };
        match View::read(text.slice()) {
            Some(view) => {
                self.view = view;
                self.tell_view()
            }
            None => self.out.extend(b"no view"),
        }
    }

    /// Tells what a descriptor names.
    fn names(&mut self, word: &[u8]) -> Result<(), NoMemory> {
        match number_of(word) {
            Some(fd) => {
                let named = self.view.named(fd);
                put_named(&mut self.out, named)
            }
            None => self.refuse(),
        }
    }

    /// Takes the memory of these parts.
    fn read_memory(&mut self, parts: &[&[u8]]) -> Result<(), NoMemory> {
        match memory_of(self.alloc, parts)? {
            Some(mem) => {
                self.mem = mem;
                self.out.extend(b"ok")
            }
            None => self.refuse(),
        }
    }

    /// Tells what comes next for a call whose first steps have these answers.
    fn call(&mut self, name: &str, words: &[&[u8]], parts: &[&[u8]]) -> Result<(), NoMemory> {
        let answers = answers_of(self.alloc, parts)?;
        match (call_of(name, words), answers) {
            (Some(call), Some(answers)) => {
                let plan = if parts.is_empty() {
                    self.view.plan(&self.rules, &call, &self.mem)
                } else {
                    self.view.after(&self.rules, &call, &self.mem, &answers)
                };
                put_plan(&mut self.out, &plan)
            }
            _ => self.refuse(),
        }
    }

    /// Answers a row of these words, and of these parts behind them.
    fn answer(&mut self, words: &[&[u8]], parts: &[&[u8]]) -> Result<(), NoMemory> {
        let [name, words @ ..] = words else {
            return self.refuse();
        };
        match (name_in(name), words) {
            ("rules", [text]) => self.read_rules(text),
            ("offset", []) => put_number(&mut self.out, u64::from(self.rules.offset())),
            ("family", [number]) => self.family(number),
            ("path", [side, text]) => self.path(side, text),
            ("view", []) => self.tell_view(),
            ("view", [text]) => self.read_view(text),
            ("exec", []) => {
                self.view.after_exec();
                self.tell_view()
            }
            ("names", [fd]) => self.names(fd),
            ("memory", []) => self.read_memory(parts),
            (name, words) => self.call(name, words, parts),
        }
    }

    /// Tells a row with its answer.
    fn row(&mut self, row: &[u8]) -> Result<(), NoMemory> {
        self.out.extend(row)?;
        let first = first_word(row);
        if first.is_empty() || first == b"#".as_slice() {
            return Ok(());
        }
        self.out.extend(b" -> ")?;
        let parts = pieces(self.alloc, row, b';')?;
        let [head, parts @ ..] = parts.as_slice() else {
            return self.refuse();
        };
        let words = words_of(self.alloc, head)?;
        self.answer(words.as_slice(), parts)
    }

    /// Tells all rows with their answers. An error leaves the talk where it came.
    pub fn rows(&mut self, rows: &[u8]) -> Result<(), NoMemory> {
        let rows = rows.strip_suffix(b"\n").unwrap_or(rows);
        let rows = pieces(self.alloc, rows, b'\n')?;
        for row in rows.as_slice() {
            self.row(row)?;
            self.out.push(b'\n')?;
        }
        Ok(())
    }
}
