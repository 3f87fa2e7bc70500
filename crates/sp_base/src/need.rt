ghost use Rattle.sp_base.specs.declared.need.Need.{Need};
ghost use Rattle.sp_base.specs.declared.need.Range.{Range};
ghost use Rattle.std.specs.Prelude.{◌≡◌, ◌<◌, ◌≤◌, ◌+◌, ◌++◌, [], ◌∷◌, List, length};
ghost use Rattle.std.specs.Option.{option_to_list};

use arrayvec::ArrayVec;
use std::marker::Model;

/// One thing that a call reads of its caller's memory.
#[derive(Clone, Copy, Debug, PartialEq, Eq)]
pub enum Need {
    /// As many bytes as the second number says, from the first, an address, on.
    Bytes(u64, u64),
    /// The bytes from an address on before the first zero byte, which is looked for among so many.
    Text(u64, u64),
}

impl Default for Need {
    fn default() -> Need {
        Need::Bytes(0, 0)
    }
}

/// A part of the caller's memory: an address, and how many bytes lie from there on.
#[derive(Clone, Copy, Debug, Default, PartialEq, Eq)]
pub struct Range {
    pub addr: u64,
    pub len: u64,
}

/// What one call reads, in order; at most eight needs. They lie in place and take no memory.
#[derive(Debug, Drop)]
pub struct Needs {
    items: ArrayVec<Need, 8>,
}

impl Model for Needs {
    ghost Value = { List Need };

    ghost view = { λ n. n.items.items };
}

/// Where one call may write, in order; at most eight ranges. They lie in place and take no memory.
#[derive(Debug, Drop)]
pub struct Ranges {
    items: ArrayVec<Range, 8>,
}

impl Model for Ranges {
    ghost Value = { List Range };

    ghost view = { λ r. r.items.items };
}

impl Needs {
    /// The needs that there are, in this order.
    pub fn of(first: Option<Need>, second: Option<Need>) -> Needs
        ensures { result ≡ option_to_list first ++ option_to_list second }
    {
        let mut items = ArrayVec::new();
        if let Some(need) = first {
            items.push(need);
        }
        if let Some(need) = second {
            items.push(need);
        }
        Needs { items }
    }

    /// The needs, in order.
    pub fn slice(&self) -> &[Need]
        ensures { result.now ≡ self.now }
    {
        self.items.as_slice()
    }
}

impl Ranges {
    /// The ranges that there are, in this order.
    pub fn of(first: Option<Range>, second: Option<Range>) -> Ranges
        ensures { result ≡ option_to_list first ++ option_to_list second }
    {
        let mut items = ArrayVec::new();
        if let Some(range) = first {
            items.push(range);
        }
        if let Some(range) = second {
            items.push(range);
        }
        Ranges { items }
    }

    /// The ranges, in order.
    pub fn slice(&self) -> &[Range]
        ensures { result.now ≡ self.now }
    {
        self.items.as_slice()
    }
}
