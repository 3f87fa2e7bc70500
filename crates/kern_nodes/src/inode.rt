ghost use Rattle.std.specs.Prelude.{◌≡◌, ◌+◌, ◌^◌, ◌<◌, [], length, OnOk, OnErr, IsSome, Some, None};
ghost use Rattle.std.specs.HashMap.{IsUnchanged};
ghost use Rattle.kern_model.specs.Files.{put_over, resized};
ghost use Rattle.kern_nodes.specs.Inode.{entry, Changes, ChangesBy};

use crate::contents::Contents;
use kern_model::NodeKind;
use sp_base::NoMemory;
use std::alloc::Global;
use std::collections::HashMap;

/// The entries of nodes by number.
pub(crate) type Inodes = HashMap<u64, Inode>;

/// A node, how many names it has, and how many open files hold it.
#[derive(Drop)]
pub(crate) struct Inode {
    pub(crate) kind: NodeKind,
    pub(crate) contents: Contents,
    pub(crate) links: u32,
    pub(crate) holders: u64,
}

/// Sets the count of links of a node.
pub(crate) fn set_links(inodes: &mut Inodes, number: u64, links: u32)
    requires { IsSome (entry inodes.old number) }
    ensures { ChangesBy (λ inode. record inode { links = links }) inodes.old inodes.new number }
{
    match inodes.get_mut(&number) {
        Some(inode) => inode.links = links,
        None => unreachable!(),
    }
}

/// Sets the count of holders of a node.
pub(crate) fn set_holders(inodes: &mut Inodes, number: u64, holders: u64)
    requires { IsSome (entry inodes.old number) }
    ensures { ChangesBy (λ inode. record inode { holders = holders }) inodes.old inodes.new number }
{
    match inodes.get_mut(&number) {
        Some(inode) => inode.holders = holders,
        None => unreachable!(),
    }
}

/// Puts bytes over those of a node from an offset on. An error leaves all as it was.
#[tactic(auto, using(std::proofs::lemmas::Map::Steps::set_value_same))]
pub(crate) fn put(
    inodes: &mut Inodes,
    number: u64,
    from: usize,
    bytes: &[u8],
) -> Result<(), NoMemory>
    requires live { IsSome (entry inodes.old number) }
    requires fits { from + length bytes.now < 2 ^ 64 }
    ensures ok { OnOk result
        (ChangesBy (λ inode. record inode { contents = put_over inode.contents from bytes.now })
        inodes.old inodes.new number) }
    ensures err { OnErr result (IsUnchanged inodes.old inodes.new) }
{
    match inodes.get_mut(&number) {
        Some(inode) => inode.contents.put(from, bytes),
        None => unreachable!(),
    }
}

/// Cuts the bytes of a node to a length, or fills them up to it with zeros. An error leaves all as it
/// was.
#[tactic(auto, using(std::proofs::lemmas::Map::Steps::set_value_same))]
pub(crate) fn resize(inodes: &mut Inodes, number: u64, len: usize) -> Result<(), NoMemory>
    requires { IsSome (entry inodes.old number) }
    ensures ok { OnOk result
        (ChangesBy (λ inode. record inode { contents = resized inode.contents len })
        inodes.old inodes.new number) }
    ensures err { OnErr result (IsUnchanged inodes.old inodes.new) }
{
    match inodes.get_mut(&number) {
        Some(inode) => inode.contents.resize(len),
        None => unreachable!(),
    }
}

/// Takes all bytes of a node away.
pub(crate) fn clear(inodes: &mut Inodes, number: u64)
    requires { IsSome (entry inodes.old number) }
    ensures { ChangesBy (λ inode. record inode { contents = [] }) inodes.old inodes.new number }
{
    match inodes.get_mut(&number) {
        Some(inode) => inode.contents.clear(),
        None => unreachable!(),
    }
}

/// Takes the entry of a node away.
pub(crate) fn remove(inodes: &mut Inodes, number: u64)
    ensures { Changes inodes.old inodes.new number None }
{
    let _ = inodes.remove(&number);
}

/// Adds an empty node with one link under an unused number. An error leaves all as it was.
pub(crate) fn add(
    inodes: &mut Inodes,
    alloc: Global,
    number: u64,
    kind: NodeKind,
) -> Result<(), NoMemory>
    requires { entry inodes.old number ≡ None }
    ensures ok { OnOk result (Changes inodes.old inodes.new number
        (Some (record { kind = kind; contents = []; links = 1; holders = 0 }))) }
    ensures err { OnErr result (IsUnchanged inodes.old inodes.new) }
{
    let inode = Inode {
        kind,
        contents: Contents::none(alloc),
        links: 1,
        holders: 0,
    };
    if inodes.insert(number, inode).is_err() {
        return Err(NoMemory);
    }
    Ok(())
}
