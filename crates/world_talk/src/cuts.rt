//! A conversation whose link breaks, once for each number of events after which it can.

use crate::call::call_in;
use crate::event::guest_name;
use crate::fault::Fault;
use crate::once::{Asked, Outcome, entries_of, happened_once};
use crate::player::{Break, Player};
use client_model::{Hello, Reply as ClientReply};
use script_words::{pieces, put_number, words_of};
use sp_base::{Caller, ConnNo, Items, NoMemory, Octets, ReqNo};
use sp_world::{Event, Reply};
use std::alloc::Global;

/// The connection of the conversation.
const NO: ConnNo = ConnNo(1);

/// Who asks for the calls.
const CALLER: Caller = Caller(0);

/// How many links broke, and what became of the calls.
#[derive(Clone, Copy, Debug)]
struct Tally {
    cuts: u64,
    answered: u64,
    lost_with_entry: u64,
    lost_without: u64,
}

/// What became of the calls of a conversation, and the world afterwards.
#[derive(Drop)]
struct Conversation {
    player: Player,
    asked: Items<Asked>,
}

/// The outcome that an answer tells.
fn outcome_of(reply: &Reply) -> Result<Outcome, Fault> {
    match reply {
        Reply::Client(ClientReply::Got(answer, _)) => Ok(Outcome::Got(*answer)),
        Reply::Client(ClientReply::Lost(_)) => Ok(Outcome::Lost),
        _ => Err(Fault::Wrong("a call is neither answered nor lost")),
    }
}

/// A call of a conversation from its start to its end.
fn ask(alloc: Global, player: &mut Player, line: &[u8]) -> Result<Asked, Fault> {
    let words = words_of(alloc, line)?;
    let (call, mem) = call_in(alloc, words.as_slice())?;
    let (number, reply) = player.call(NO, CALLER, call.copy(), mem)?;
    let outcome = outcome_of(&reply)?;
    Ok(Asked {
        number,
        call,
        outcome,
    })
}

/// A guest connects, and takes the answer to its handshake.
fn greet(alloc: Global, player: &mut Player) -> Result<(), Fault> {
    let hello = Hello::Guest(guest_name(alloc)?);
    player.play(Event::Connect(NO, hello))?;
    player.through(NO)?;
    player.play(Event::Collect(NO, ReqNo(1)))?;
    Ok(())
}

/// The calls of a conversation, one after another.
fn ask_all(alloc: Global, player: &mut Player, calls: &[&[u8]]) -> Result<Items<Asked>, Fault> {
    let mut asked = Items::none(alloc);
    for line in calls {
        let one = ask(alloc, player, line)?;
        asked.push(one)?;
    }
    Ok(asked)
}

/// The whole conversation: a guest connects, asks for the calls one after another, and ends. It is
/// checked that the journal is what the calls' outcomes say.
fn converse(
    alloc: Global,
    calls: &[&[u8]],
    to_break: Option<Break>,
) -> Result<Conversation, Fault> {
    let mut player = Player::fresh(alloc, to_break)?;
    greet(alloc, &mut player)?;
    let asked = ask_all(alloc, &mut player, calls)?;
    player.play(Event::Ends(NO))?;
    if happened_once(player.world.rump(), NO, asked.slice()) {
        Ok(Conversation { player, asked })
    } else {
        Err(Fault::Wrong("the journal isn't what the calls' outcomes say"))
    }
}

impl Tally {
    /// Counts what became of a call, which has so many entries.
    fn count(&mut self, outcome: Outcome, entries: usize) {
        match (outcome, entries) {
            (Outcome::Got(_), _) => self.answered = self.answered.saturating_add(1),
            (Outcome::Lost, 0) => self.lost_without = self.lost_without.saturating_add(1),
            (Outcome::Lost, _) => self.lost_with_entry = self.lost_with_entry.saturating_add(1),
        }
    }

    /// Counts a conversation whose link was cut, and what became of its calls.
    fn add(&mut self, conversation: &Conversation) {
        self.cuts = self.cuts.saturating_add(1);
        let journal = conversation.player.world.rump();
        for call in conversation.asked.slice() {
            self.count(call.outcome, entries_of(journal, NO, call.number));
        }
    }

    /// Appends the counts.
    fn put(&self, out: &mut Octets) -> Result<(), NoMemory> {
        put_number(out, self.cuts)?;
        out.extend(b" cuts; calls answered ")?;
        put_number(out, self.answered)?;
        out.extend(b", lost with an entry ")?;
        put_number(out, self.lost_with_entry)?;
        out.extend(b", lost without one ")?;
        put_number(out, self.lost_without)
    }
}

/// Has the conversation of some calls once without a cut, and then once for each number of events
/// after which its link is cut, and appends the counts of the cut ones.
pub fn put_cuts(alloc: Global, out: &mut Octets, calls: &[u8]) -> Result<(), Fault> {
    let calls = pieces(alloc, calls, b';')?;
    let mut tally = Tally {
        cuts: 0,
        answered: 0,
        lost_with_entry: 0,
        lost_without: 0,
    };
    let whole = converse(alloc, calls.as_slice(), None)?;
    for at in 1..whole.player.happened() {
        let cut = converse(alloc, calls.as_slice(), Some(Break { no: NO, at }))?;
        tally.add(&cut);
    }
    tally.put(out)?;
    Ok(())
}
