ghost use Rattle.std.specs.Prelude.{◌≡◌, ◌++◌, ◌+◌, drop, sum_by, length, replicate, IfOk, OnOk};
ghost use Rattle.kern_model.specs.State.{bytes_in};
ghost use Rattle.kern_model.specs.Files.{resized, put_over, fitting};

use crate::limits::FILE_LIMIT;
use crate::node::Node;
use sp_base::{NoMemory, Octets};
use std::alloc::Global;

/// The bytes of a node, none where there is no node.
pub(crate) fn bytes_in(node: &Option<Node>) -> &[u8]
    ensures { result.now ≡ bytes_in node.now }
{
    match node {
        Some(node) => node.bytes.slice(),
        None => &[],
    }
}

/// How many bytes nodes have together.
pub(crate) fn size_of_all(nodes: &[Option<Node>]) -> u128
    ensures { result ≡ sum_by (λ node. length (bytes_in node)) nodes.now }
{
    let mut total: u128 = 0;
    for node in nodes {
        total += bytes_in(node).len() as u128;
    }
    total
}

/// Puts zeros behind bytes. Want of memory may leave a part of them there.
fn add_zeros(bytes: &mut Octets, count: usize) -> Result<(), NoMemory>
    ensures { OnOk result (bytes.new ≡ bytes.old ++ replicate count 0) }
{
    for _ in 0..count {
        bytes.push(0)?;
    }
    Ok(())
}

/// A copy of bytes, cut to a length or filled with zeros.
pub(crate) fn resized(alloc: Global, bytes: &[u8], len: usize) -> Result<Octets, NoMemory>
    ensures { IfOk result (λ copy. copy ≡ resized bytes.now len) }
{
    if len <= bytes.len() {
        let (front, _) = bytes.split_at(len);
        return Octets::of(alloc, front);
    }
    let mut copy = Octets::of(alloc, bytes)?;
    add_zeros(&mut copy, len - bytes.len())?;
    Ok(copy)
}

/// The bytes behind so many from an offset on.
fn behind(bytes: &[u8], offset: usize, count: usize) -> &[u8]
    ensures { result.now ≡ drop (offset + count) bytes.now }
{
    if offset >= bytes.len() {
        return &[];
    }
    let (_, rest) = bytes.split_at(offset);
    if count >= rest.len() {
        return &[];
    }
    let (_, rest) = rest.split_at(count);
    rest
}

/// A copy of bytes with others put over them from an offset on; a gap before them is zeros.
pub(crate) fn put_over(
    alloc: Global,
    old: &[u8],
    offset: usize,
    new: &[u8],
) -> Result<Octets, NoMemory>
    ensures { IfOk result (λ bytes. bytes ≡ put_over old.now offset new.now) }
{
    let mut bytes = resized(alloc, old, offset)?;
    bytes.extend(new)?;
    bytes.extend(behind(old, offset, new.len()))?;
    Ok(bytes)
}

/// What of the bytes fits below a file's limit.
pub(crate) fn fitting(start: u64, bytes: &[u8]) -> &[u8]
    ensures { result.now ≡ fitting start bytes.now }
{
    if start >= FILE_LIMIT {
        return &[];
    }
    let room = (FILE_LIMIT - start) as usize;
    if room >= bytes.len() {
        return bytes;
    }
    let (front, _) = bytes.split_at(room);
    front
}
