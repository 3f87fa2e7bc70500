/// A machine that takes one event at a time, and answers each.
///
/// What it does is said by `step`, so that whoever runs one, alone or under a lock, can tell what all its answers are.
pub trait Object: Sized + Drop {
    /// What happens to it.
    type Event: Drop;

    /// What it answers.
    type Reply: Drop;

    /// The events that it may be given.
    ghost may_play: { Self.Event → Type 0 };

    /// What one event may do: the object before it, the event, the answer, and the object after it.
    ghost step: { Self → Self.Event → Self.Reply → Self → Type 0 };

    /// Takes an event, and answers it.
    fn play(&mut self, event: Self::Event) -> Self::Reply
        requires { may_play event }
        ensures { step self.old event result self.new };
}
