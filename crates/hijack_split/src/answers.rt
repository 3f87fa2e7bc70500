ghost use Rattle.std.specs.Prelude.{◌≡◌, ◌<◌, ◌≤◌, [], ◌∷◌, ◌++◌, length};

use sp_base::{Answer, Place};
use std::marker::Model;

/// How many steps one call has at the most.
const MOST: usize = 8;

/// The answers of the steps of one call, in order; at most eight. They lie in place and take no
/// memory.
#[derive(Debug, Drop)]
pub struct Answers {
    items: [Answer; 8],
    count: usize,
}

impl Model for Answers {
    ghost use Rattle.std.specs.Prelude.{◌≤◌, List, take};
    ghost use Rattle.sp_base.specs.declared.names.Answer.{Answer};

    ghost Value = { List Answer };

    ghost view = { λ a. take a.count a.items };

    ghost invariant = { λ a. a.count ≤ 8 };
}

impl Answers {
    /// No answers.
    pub fn none() -> Answers
        ensures { result ≡ [] }
    {
        let nothing = Answer {
            err: 0,
            ret0: 0,
            ret1: 0,
            place: Place(0),
        };
        Answers {
            items: [nothing; MOST],
            count: 0,
        }
    }

    /// Puts an answer behind the others, where there are fewer than eight.
    pub fn push(&mut self, answer: Answer)
        requires { length self.old < 8 }
        ensures { self.new ≡ self.old ++ answer ∷ [] }
    {
        self.items[self.count] = answer;
        self.count += 1;
    }

    /// The answers, in order.
    pub fn slice(&self) -> &[Answer]
        ensures { result.now ≡ self.now }
    {
        &self.items[..self.count]
    }
}
