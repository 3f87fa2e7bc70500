// Passes that are split off each other three deep, each of which plays, and what closing gives.
use crate::Turn;
use sp_base::Object;
use std::test::Fail;

/// A text that grows by a byte a call.
#[derive(Drop)]
struct Tape {
    text: Vec<u8>,
}

impl Object for Tape {
    type Event = u8;

    type Reply = usize;

    ghost may_play = { λ _. Unit {0} };

    ghost step = { λ _ _ _ _. Unit {0} };

    fn play(&mut self, event: u8) -> usize {
        let _ = self.text.push(event);
        self.text.len()
    }
}

#[test]
fn splits_three_deep(rt: HostRuntime) -> Result<(), Fail> {
    let tape = Tape {
        text: Vec::new(rt.alloc()),
    };
    let (turn, mut first) = Turn::new(rt.alloc(), tape)?;
    assert_eq!(rt; turn.play(&rt, &mut first, b'a'), 1);
    let mut child = turn.split(&mut first);
    let mut grandchild = turn.split(&mut child);
    let mut last = turn.split(&mut grandchild);
    assert_eq!(rt; turn.play(&rt, &mut last, b'b'), 2);
    assert_eq!(rt; turn.play(&rt, &mut grandchild, b'c'), 3);
    assert_eq!(rt; turn.play(&rt, &mut child, b'd'), 4);
    turn.join(&mut grandchild, last);
    turn.join(&mut child, grandchild);
    turn.join(&mut first, child);
    assert_eq!(rt; turn.play(&rt, &mut first, b'e'), 5);
    let tape = turn.close(&rt, first);
    assert_eq!(rt; tape.text.as_slice(), b"abcde".as_slice());
    Ok(())
}
