//! Whether each call of a conversation stands in the journal as its outcome says.

use kern_model::{Entry, Op, Who};
use sp_base::{Answer, Call, ConnNo, ReqNo};

/// The number of a handshake's request.
const HANDSHAKE: ReqNo = ReqNo(1);

/// What became of a call.
#[derive(Clone, Copy, Debug)]
pub enum Outcome {
    Got(Answer),
    Lost,
}

/// A call that was asked for, with its request's number, where it has one, and what became of it.
#[derive(Drop)]
pub struct Asked {
    pub number: Option<ReqNo>,
    pub call: Call,
    pub outcome: Outcome,
}

/// Whether an entry was made for a request of a connection.
fn is_of(entry: &Entry, no: ConnNo, number: ReqNo) -> bool {
    entry.who == Who::Request(no, number)
}

/// How many entries of a journal were made for a request of a connection.
pub fn entries_of(journal: &[Entry], no: ConnNo, number: Option<ReqNo>) -> usize {
    let Some(number) = number else {
        return 0;
    };
    let mut count: usize = 0;
    for entry in journal {
        if is_of(entry, no, number) {
            count = count.saturating_add(1);
        }
    }
    count
}

/// Whether an operation is a call.
fn is_call(op: &Op, call: &Call) -> bool {
    match op {
        Op::Sys(done) => done.num() == call.num() && done.words().slice() == call.words().slice(),
        _ => false,
    }
}

/// Whether the entry at an answer's place was made for the request, performed the call, and gives
/// the answer.
fn stands(journal: &[Entry], no: ConnNo, number: ReqNo, call: &Call, answer: &Answer) -> bool {
    match journal.get(answer.place.0 as usize) {
        Some(entry) => {
            is_of(entry, no, number)
                && is_call(&entry.op, call)
                && entry.outcome.err == answer.err
                && entry.outcome.ret0 == answer.ret0
                && entry.outcome.ret1 == answer.ret1
        }
        None => false,
    }
}

/// Whether a call has as many entries as its outcome says: one, at the answer's place, where it was
/// answered, and one at the most where it was lost.
fn is_kept(journal: &[Entry], no: ConnNo, asked: &Asked) -> bool {
    let count = entries_of(journal, no, asked.number);
    match (asked.outcome, asked.number) {
        (Outcome::Got(answer), Some(number)) => {
            count == 1 && stands(journal, no, number, &asked.call, &answer)
        }
        (Outcome::Got(_), None) => false,
        (Outcome::Lost, _) => count <= 1,
    }
}

/// Whether an entry performed a call for its request.
fn is_for(entry: &Entry, no: ConnNo, asked: &Asked) -> bool {
    match asked.number {
        Some(number) => is_of(entry, no, number) && is_call(&entry.op, &asked.call),
        None => false,
    }
}

/// Whether an entry is that of the handshake or of the end of a connection, or performed one of
/// these calls for its request.
fn is_asked(entry: &Entry, no: ConnNo, asked: &[Asked]) -> bool {
    match &entry.op {
        Op::Attach => is_of(entry, no, HANDSHAKE),
        Op::Exit => entry.who == Who::End(no),
        _ => asked.iter().any(|asked| is_for(entry, no, asked)),
    }
}

/// Whether each call that was answered has exactly one entry in the journal, which performed it,
/// stands at the answer's place and gives the answer; whether each lost one has one at the most;
/// and whether no other entries stand there but those of the connection's handshake and end.
pub fn happened_once(journal: &[Entry], no: ConnNo, asked: &[Asked]) -> bool {
    asked.iter().all(|asked| is_kept(journal, no, asked))
        && journal.iter().all(|entry| is_asked(entry, no, asked))
}
