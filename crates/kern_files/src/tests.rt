// Files are made, written, read and renamed with ample memory.
ghost use Rattle.std.specs.Prelude.{◌≡◌, ℕ, IfOk, IsSome};
ghost use Rattle.sp_base.specs.Table.{at};
ghost use Rattle.kern_files.specs.Files.{Files};
ghost use Rattle.kern_files.specs.Requests.{IsDirectory};

use crate::{NodeKind, Tree, TreeFault};
use kern_names::ROOT;
use sp_base::{Errno, NodeNo};
use std::alloc::Global;
use std::test::Fail;

/// A directory of the tree that is planted.
#[derive(Clone, Copy)]
enum Place {
    Root,
    Below,
}

/// A name in a directory, another, and why the first can't become the second.
const RENAMES: [(Place, &str, Place, &str, Option<Errno>); 10] = [
    (Place::Root, "a", Place::Root, "c", None),
    (Place::Root, "a", Place::Root, "a", None),
    (Place::Root, "a", Place::Root, "b", None),
    (Place::Root, "a", Place::Below, "f", None),
    (Place::Root, "c", Place::Root, "a", Some(Errno::Enoent)),
    (Place::Root, "d", Place::Below, "d", Some(Errno::Einval)),
    (Place::Below, "f", Place::Root, "d", Some(Errno::Eisdir)),
    (Place::Root, "d", Place::Root, "a", Some(Errno::Enotdir)),
    (Place::Root, "e", Place::Root, "d", Some(Errno::Enotempty)),
    (Place::Root, "d", Place::Root, "e", None),
];

/// Makes a node under a name of a directory.
fn make(tree: &mut Tree, directory: NodeNo, name: &str, kind: NodeKind) -> Result<NodeNo, Fail>
    requires { IsDirectory tree.old directory.0 }
    ensures stays { (n : ℕ) → IsDirectory tree.old n → IsDirectory tree.new n }
    ensures within { IfOk result (λ node. kind ≡ NodeKind.Directory → IsDirectory tree.new node.0) }
    ensures live { IfOk result (λ node. IsSome (at tree.new.nodes node.0)) }
{
    match tree.create(directory, name.as_bytes(), kind) {
        Ok(node) => Ok(node),
        Err(_) => Err(Fail::new("a node can't be made")),
    }
}

/// Gives a file one name more in a directory.
fn link(tree: &mut Tree, file: NodeNo, directory: NodeNo, name: &str) -> Result<(), TreeFault>
    requires live { IsSome (at tree.old.nodes file.0) }
    requires within { IsDirectory tree.old directory.0 }
    ensures stays { (n : ℕ) → IsDirectory tree.old n → IsDirectory tree.new n }
    ensures live { IsSome (at tree.new.nodes file.0) }
{
    tree.link(file, directory, name.as_bytes())
}

/// Writes to a file.
fn write(tree: &mut Tree, file: NodeNo, from: u64, text: &str) -> Result<u32, TreeFault>
    requires { IsSome (at tree.old.nodes file.0) }
    ensures { IsSome (at tree.new.nodes file.0) }
{
    tree.write_at(file, from, text.as_bytes())
}

/// Cuts a file.
fn cut(tree: &mut Tree, file: NodeNo, len: u64) -> Result<(), TreeFault>
    requires { IsSome (at tree.old.nodes file.0) }
    ensures { IsSome (at tree.new.nodes file.0) }
{
    tree.cut(file, len)
}

/// A tree with a file under the names `a` and `b`.
#[tactic(auto, using(crate::proofs::FreshLaws::fresh_root))]
fn with_file(alloc: Global) -> Result<Tree, Fail>
    ensures { IfOk result (λ tree. IsDirectory tree 1) }
{
    let mut tree = Tree::fresh(alloc)?;
    let file = make(&mut tree, ROOT, "a", NodeKind::File)?;
    match link(&mut tree, file, ROOT, "b") {
        Ok(()) => Ok(tree),
        Err(_) => Err(Fail::new("a file can't have another name")),
    }
}

/// The same tree with a directory `d` and in it a file `f`; and the number of `d`.
fn with_directory(alloc: Global) -> Result<(Tree, NodeNo), Fail>
    ensures root { IfOk result (λ planted. IsDirectory planted.0 1) }
    ensures below { IfOk result (λ planted. IsDirectory planted.0 planted.1.0) }
{
    let mut tree = with_file(alloc)?;
    let below = make(&mut tree, ROOT, "d", NodeKind::Directory)?;
    let _ = make(&mut tree, below, "f", NodeKind::File)?;
    Ok((tree, below))
}

/// The same tree with an empty directory `e`.
fn planted(alloc: Global) -> Result<(Tree, NodeNo), Fail>
    ensures root { IfOk result (λ planted. IsDirectory planted.0 1) }
    ensures below { IfOk result (λ planted. IsDirectory planted.0 planted.1.0) }
{
    let (mut tree, below) = with_directory(alloc)?;
    let _ = make(&mut tree, ROOT, "e", NodeKind::Directory)?;
    Ok((tree, below))
}

/// The number of a directory of a tree that was planted.
fn number(place: Place, below: NodeNo) -> NodeNo
    ensures { (f : Files) → IsDirectory f 1 → IsDirectory f below.0 → IsDirectory f result.0 }
{
    match place {
        Place::Root => ROOT,
        Place::Below => below,
    }
}

#[test]
fn what_can_be_renamed_is(rt: HostRuntime) -> Result<(), Fail> {
    for (from, old, to, new, fault) in RENAMES {
        let (mut tree, below) = planted(rt.alloc())?;
        let (from, to) = (number(from, below), number(to, below));
        let (old, new) = (old.as_bytes(), new.as_bytes());
        assert_eq!(rt; tree.rename_fault(from, old, to, new), fault);
        let answer = match fault {
            Some(error) => Err(TreeFault::Errno(error)),
            None => Ok(()),
        };
        assert_eq!(rt; tree.rename(from, old, to, new), answer);
    }
    Ok(())
}

#[test]
#[tactic(auto, using(crate::proofs::FreshLaws::fresh_root))]
fn what_is_written_is_read(rt: HostRuntime) -> Result<(), Fail> {
    let mut tree = Tree::fresh(rt.alloc())?;
    assert!(rt; tree.is_empty(ROOT));
    let file = make(&mut tree, ROOT, "file", NodeKind::File)?;
    assert_eq!(rt; link(&mut tree, file, ROOT, "other"), Ok(()));
    let fault = TreeFault::Errno(Errno::Eexist);
    assert_eq!(rt; link(&mut tree, file, ROOT, "other"), Err(fault));
    assert_eq!(rt; write(&mut tree, file, 2, "text"), Ok(4));
    assert_eq!(rt; tree.read_at(file, 1, 9)?.slice(), b"\0text".as_slice());
    assert_eq!(rt; cut(&mut tree, file, 3), Ok(()));
    assert_eq!(rt; tree.read_at(file, 0, 9)?.slice(), b"\0\0t".as_slice());
    let stat = tree.stat(file);
    assert_eq!(rt; (stat.node, stat.links, stat.size), (file, 2, 3));
    Ok(())
}
