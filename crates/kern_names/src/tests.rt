// A small tree that changes, and where paths lead in it.
ghost use Rattle.std.specs.Prelude.{IfOk, IsTrue, ◌≡◌, true};
ghost use Rattle.kern_names.specs.Tree.{has_directory};

use crate::{Directories, Last, ROOT, Walked};
use sp_base::{Errno, NodeNo};
use std::alloc::Global;
use std::process::Abort;
use std::test::Fail;

const DIRECTORY: NodeNo = NodeNo(2);

const FILE: NodeNo = NodeNo(3);

const OTHER: NodeNo = NodeNo(4);

/// What a row that no caller could ask for answers.
fn unfit() -> Fail {
    Fail::new("a row that no caller could ask for")
}

/// The root with a directory `d`, number 2.
#[tactic(auto, using(crate::proofs::RootLaws::root_has_no_other))]
fn with_directory(alloc: Global) -> Result<Directories, Fail> {
    let mut tree = Directories::fresh(alloc)?;
    tree.add(ROOT, b"d", DIRECTORY, true)?;
    Ok(tree)
}

/// Gives a file a name.
fn add_file(
    tree: &mut Directories,
    directory: NodeNo,
    name: &[u8],
    node: NodeNo,
) -> Result<(), Fail> {
    if !tree.is_directory(directory)
        || tree.is_directory(node)
        || tree.child(directory, name).is_some()
    {
        return Err(unfit());
    }
    tree.add(directory, name, node, false)?;
    Ok(())
}

/// Takes a name away, if it isn't that of a directory with entries.
fn remove_name(tree: &mut Directories, directory: NodeNo, name: &[u8]) -> Result<(), Fail> {
    if !tree.is_directory(directory) {
        return Err(unfit());
    }
    let Some(node) = tree.child(directory, name) else {
        return Err(unfit());
    };
    if tree.is_directory(node) && !tree.is_empty(node) {
        return Err(unfit());
    }
    tree.remove(directory, name);
    Ok(())
}

/// Gives what stands under a name a free one.
#[tactic(auto, using(crate::proofs::AboveLaws::below_child))]
fn rename_to_free(
    tree: &mut Directories,
    from: NodeNo,
    old_name: &[u8],
    to: NodeNo,
    new_name: &[u8],
) -> Result<(), Fail> {
    if !tree.is_directory(from) || !tree.is_directory(to) || tree.child(to, new_name).is_some() {
        return Err(unfit());
    }
    let Some(node) = tree.child(from, old_name) else {
        return Err(unfit());
    };
    if tree.is_inside(to, node) {
        return Err(unfit());
    }
    tree.rename(from, old_name, to, new_name)?;
    Ok(())
}

/// Gives what stands under a name the name of another node.
#[tactic(auto, using(crate::proofs::AboveLaws::below_child))]
fn rename_over(
    tree: &mut Directories,
    from: NodeNo,
    old_name: &[u8],
    to: NodeNo,
    new_name: &[u8],
) -> Result<(), Fail> {
    if !tree.is_directory(from) || !tree.is_directory(to) {
        return Err(unfit());
    }
    let Some(node) = tree.child(from, old_name) else {
        return Err(unfit());
    };
    let Some(replaced) = tree.child(to, new_name) else {
        return Err(unfit());
    };
    if node.0 == replaced.0 || tree.is_inside(to, node) {
        return Err(unfit());
    }
    if tree.is_directory(replaced) && !tree.is_empty(replaced) {
        return Err(unfit());
    }
    tree.replace(from, old_name, to, new_name);
    Ok(())
}

/// A walk from a directory.
fn walk_from(tree: &Directories, working: NodeNo, text: &str) -> Result<Walked, Fail> {
    let text = text.as_bytes();
    if !tree.is_directory(working) || text.len() > 1023 {
        return Err(unfit());
    }
    Ok(tree.walk(working, text))
}

/// A last component that no slash follows.
fn last(directory: NodeNo, from: u32, len: u32) -> Last {
    Last {
        directory,
        from,
        len,
        slash: false,
    }
}

/// Compares walks from the directory with what stands beside them.
fn compare(rt: &impl Abort, tree: &Directories, rows: &[(&str, Walked)]) -> Result<(), Fail> {
    for (text, want) in rows {
        assert_eq!(rt; walk_from(tree, DIRECTORY, text)?, *want, "at {text}");
    }
    Ok(())
}

#[test]
fn names_lead_to_nodes(rt: HostRuntime) -> Result<(), Fail> {
    let mut tree = with_directory(rt.alloc())?;
    add_file(&mut tree, DIRECTORY, b"f", FILE)?;
    let rows = [
        ("f", Walked::Found(FILE, Some(last(DIRECTORY, 0, 1)))),
        ("/d/./f", Walked::Found(FILE, Some(last(DIRECTORY, 5, 1)))),
        ("/d/..", Walked::Found(ROOT, None)),
        ("../..", Walked::Found(ROOT, None)),
        (".", Walked::Found(DIRECTORY, None)),
        ("//", Walked::Found(ROOT, None)),
        ("f/", Walked::Fault(Errno::Enotdir)),
        ("f/.", Walked::Fault(Errno::Enotdir)),
        ("no/x", Walked::Fault(Errno::Enoent)),
        ("", Walked::Fault(Errno::Enoent)),
        ("/e", Walked::Missing(last(ROOT, 1, 1))),
    ];
    compare(&rt, &tree, &rows)
}

#[test]
fn long_components_are_refused(rt: HostRuntime) -> Result<(), Fail> {
    let tree = with_directory(rt.alloc())?;
    let mut text = String::from_str(rt.alloc(), "no/")?;
    for _ in 0..256 {
        text.push_str("x")?;
    }
    assert_eq!(rt;
        walk_from(&tree, ROOT, text.as_str())?,
        Walked::Fault(Errno::Enametoolong)
    );
    Ok(())
}

#[test]
fn a_renamed_directory_takes_its_names_along(rt: HostRuntime) -> Result<(), Fail> {
    let mut tree = with_directory(rt.alloc())?;
    add_file(&mut tree, DIRECTORY, b"f", FILE)?;
    rename_to_free(&mut tree, ROOT, b"d", ROOT, b"e")?;
    let rows = [
        ("/e/f", Walked::Found(FILE, Some(last(DIRECTORY, 3, 1)))),
        ("/d/f", Walked::Fault(Errno::Enoent)),
        ("..", Walked::Found(ROOT, None)),
    ];
    compare(&rt, &tree, &rows)
}

#[test]
fn a_name_goes_to_another_node(rt: HostRuntime) -> Result<(), Fail> {
    let mut tree = with_directory(rt.alloc())?;
    add_file(&mut tree, DIRECTORY, b"f", FILE)?;
    add_file(&mut tree, ROOT, b"g", OTHER)?;
    rename_over(&mut tree, ROOT, b"g", DIRECTORY, b"f")?;
    let rows = [
        ("f", Walked::Found(OTHER, Some(last(DIRECTORY, 0, 1)))),
        ("/g", Walked::Missing(last(ROOT, 1, 1))),
    ];
    compare(&rt, &tree, &rows)?;
    remove_name(&mut tree, DIRECTORY, b"f")?;
    remove_name(&mut tree, ROOT, b"d")?;
    assert!(rt; !tree.is_directory(DIRECTORY));
    Ok(())
}
