ghost use Rattle.std.specs.Prelude.{◌≡◌, slice_get};
ghost use Rattle.sp_base.specs.Needs.{range_of, transfer_range, address_in, address_out, stat_range, poll_range, path_need, bytes_need, asks_of, places_of, needs_of, outs_of};

use crate::call::Call;
use crate::limits::{ADDRESS, PATH_TEXT, POLL_ENTRIES, POLL_ENTRY, STAT, TRANSFER};
use crate::need::{Need, Needs, Range, Ranges};

/// A range, where it has bytes.
fn stretch(addr: u64, len: u64) -> Option<Range>
    ensures { result ≡ range_of addr len }
{
    if len == 0 {
        None
    } else {
        Some(Range { addr, len })
    }
}

/// The bytes that one call moves.
fn transfer(addr: u64, len: u64) -> Option<Range>
    ensures { result ≡ transfer_range addr len }
{
    stretch(addr, len.min(TRANSFER))
}

/// An address that a call is given.
fn address_given(addr: u64, len: u64) -> Option<Range>
    ensures { result ≡ address_in addr len }
{
    if len <= ADDRESS {
        stretch(addr, len)
    } else {
        None
    }
}

/// An address that a call gives.
fn address_taken(addr: u64, most: u64) -> Option<Range>
    ensures { result ≡ address_out addr most }
{
    stretch(addr, most.min(ADDRESS))
}

/// The entries of a poll.
fn entries(addr: u64, count: u64) -> Option<Range>
    ensures { result ≡ poll_range addr count }
{
    if count <= POLL_ENTRIES {
        stretch(addr, POLL_ENTRY * count)
    } else {
        None
    }
}

/// A path.
fn path_text(addr: u64) -> Option<Need>
    ensures { result ≡ path_need addr }
{
    Some(Need::Text(addr, PATH_TEXT))
}

/// The bytes of a range.
fn bytes(range: Option<Range>) -> Option<Need>
    ensures { result ≡ bytes_need range }
{
    match range {
        Some(range) => Some(Need::Bytes(range.addr, range.len)),
        None => None,
    }
}

impl Call {
    /// The texts and the bytes that the call reads.
    fn asks(&self) -> (Option<Need>, Option<Need>)
        ensures { result ≡ asks_of self.now }
    {
        match self {
            Call::Open { path, .. }
            | Call::Stat { path, .. }
            | Call::Unlink { path }
            | Call::Mkdir { path }
            | Call::Rmdir { path }
            | Call::Chdir { path } => (path_text(*path), None),
            Call::Link { path, new_path } | Call::Rename { path, new_path } => {
                (path_text(*path), path_text(*new_path))
            }
            Call::Write { input, len, .. } | Call::Pwrite { input, len, .. } => {
                (bytes(transfer(*input, *len)), None)
            }
            Call::Bind {
                address,
                address_len,
                ..
            }
            | Call::Connect {
                address,
                address_len,
                ..
            } => (bytes(address_given(*address, *address_len)), None),
            Call::Sendto {
                input,
                len,
                address,
                address_len,
                ..
            } => (
                bytes(transfer(*input, *len)),
                bytes(address_given(*address, *address_len)),
            ),
            Call::Poll {
                entries: addr,
                count,
                ..
            } => (bytes(entries(*addr, *count)), None),
            _ => (None, None),
        }
    }

    /// The ranges that the call may write to.
    fn places(&self) -> (Option<Range>, Option<Range>)
        ensures { result ≡ places_of self.now }
    {
        match self {
            Call::Read { out, len, .. } | Call::Pread { out, len, .. } => {
                (transfer(*out, *len), None)
            }
            Call::Fstat { out, .. } | Call::Stat { out, .. } => (stretch(*out, STAT), None),
            Call::Recvfrom {
                out,
                len,
                address,
                address_max,
                ..
            } => (transfer(*out, *len), address_taken(*address, *address_max)),
            Call::Getsockname { out, max, .. } | Call::Getpeername { out, max, .. } => {
                (address_taken(*out, *max), None)
            }
            Call::Poll {
                entries: addr,
                count,
                ..
            } => (entries(*addr, *count), None),
            _ => (None, None),
        }
    }

    /// What the call reads of its caller's memory, in order. Takes no memory.
    pub fn needs(&self) -> Needs
        ensures { result ≡ needs_of self.now }
    {
        let (first, second) = self.asks();
        Needs::of(first, second)
    }

    /// The need of an index, from 0; none where the call has fewer.
    pub fn need_at(&self, index: u32) -> Option<Need>
        ensures { result ≡ slice_get (needs_of self.now) index }
    {
        let (first, second) = self.asks();
        match (first, second, index) {
            (Some(need), _, 0) => Some(need),
            (None, Some(need), 0) => Some(need),
            (Some(_), Some(need), 1) => Some(need),
            _ => None,
        }
    }

    /// Where the call may write in its caller's memory, in order. Takes no memory.
    pub fn outs_allowed(&self) -> Ranges
        ensures { result ≡ outs_of self.now }
    {
        let (first, second) = self.places();
        Ranges::of(first, second)
    }
}
