//! The names that a script has for words.
ghost use Rattle.std.specs.Prelude.{◌≡◌, MatchOption, None, Some};
ghost use Rattle.guest_journal.specs.Names.{command_name, family_name, how_name, kind_name, whence_name};

/// From where an offset counts.
#[tactic(auto, unfolding(crate::specs::Names::whence_name))]
pub fn whence_name(whence: u64) -> Option<&'static [u8]>
    ensures { MatchOption result
        (whence_name whence ≡ None)
        (λ name. whence_name whence ≡ Some name.now) }
{
    match whence {
        0 => Some(b"set".as_slice()),
        1 => Some(b"cur".as_slice()),
        2 => Some(b"end".as_slice()),
        _ => None,
    }
}

/// A command of fcntl.
#[tactic(auto, unfolding(crate::specs::Names::command_name))]
pub fn command_name(command: u64) -> Option<&'static [u8]>
    ensures { MatchOption result
        (command_name command ≡ None)
        (λ name. command_name command ≡ Some name.now) }
{
    match command {
        0 => Some(b"dupfd".as_slice()),
        1 => Some(b"getfd".as_slice()),
        2 => Some(b"setfd".as_slice()),
        3 => Some(b"getfl".as_slice()),
        4 => Some(b"setfl".as_slice()),
        _ => None,
    }
}

/// What a shutdown ends.
#[tactic(auto, unfolding(crate::specs::Names::how_name))]
pub fn how_name(how: u64) -> Option<&'static [u8]>
    ensures { MatchOption result
        (how_name how ≡ None)
        (λ name. how_name how ≡ Some name.now) }
{
    match how {
        0 => Some(b"read".as_slice()),
        1 => Some(b"write".as_slice()),
        2 => Some(b"both".as_slice()),
        _ => None,
    }
}

/// A family of sockets.
#[tactic(auto, unfolding(crate::specs::Names::family_name))]
pub fn family_name(family: u64) -> Option<&'static [u8]>
    ensures { MatchOption result
        (family_name family ≡ None)
        (λ name. family_name family ≡ Some name.now) }
{
    match family {
        1 => Some(b"local".as_slice()),
        2 => Some(b"inet".as_slice()),
        _ => None,
    }
}

/// A kind of sockets.
#[tactic(auto, unfolding(crate::specs::Names::kind_name))]
pub fn kind_name(kind: u64) -> Option<&'static [u8]>
    ensures { MatchOption result
        (kind_name kind ≡ None)
        (λ name. kind_name kind ≡ Some name.now) }
{
    match kind {
        1 => Some(b"stream".as_slice()),
        2 => Some(b"dgram".as_slice()),
        _ => None,
    }
}
