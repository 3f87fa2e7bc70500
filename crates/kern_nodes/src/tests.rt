// What a file holds after writes and cuts, and that a call with ample memory succeeds.
use crate::{NodeNo, Nodes, TreeFault};
use kern_model::NodeKind;
use sp_base::Errno;
use std::test::Fail;

/// A write at an offset, or a cut to a length.
#[derive(Clone, Copy)]
enum Change {
    Write(u64, &'static str),
    Cut(u64),
}

/// The most bytes that a file has.
const FULL: u64 = 1 << 24;

const TOO_BIG: Result<u32, TreeFault> = Err(TreeFault::Errno(Errno::Efbig));

/// A change, its answer, an offset, and the bytes from there on.
const CHANGES: [(Change, Result<u32, TreeFault>, u64, &str); 16] = [
    (Change::Write(0, "hello"), Ok(5), 0, "hello"),
    (Change::Write(3, "p!!"), Ok(3), 0, "help!!"),
    (Change::Write(1, "a"), Ok(1), 0, "halp!!"),
    (Change::Write(6, "?"), Ok(1), 2, "lp!!?"),
    (Change::Write(9, "x"), Ok(1), 4, "!!?\0\0x"),
    (Change::Write(20, ""), Ok(0), 9, "x"),
    (Change::Write(FULL, ""), Ok(0), 9, "x"),
    (Change::Write(FULL, "x"), TOO_BIG, 9, "x"),
    (Change::Cut(FULL + 1), TOO_BIG, 9, "x"),
    (Change::Cut(2), Ok(0), 0, "ha"),
    (Change::Cut(4), Ok(0), 0, "ha\0\0"),
    (Change::Write(FULL - 2, "abc"), Ok(2), FULL - 3, "\0ab"),
    (Change::Cut(3), Ok(0), 0, "ha\0"),
    (Change::Cut(FULL), Ok(0), FULL - 1, "\0"),
    (Change::Cut(0), Ok(0), 0, ""),
    (Change::Write(2, "z"), Ok(1), 0, "\0\0z"),
];

#[test]
fn writes_and_cuts(rt: HostRuntime) -> Result<(), Fail> {
    let mut nodes = Nodes::fresh(rt.alloc())?;
    assert!(rt; nodes.has_room());
    let node = nodes.make(rt.alloc(), NodeKind::File)?;
    for (change, answer, from, bytes) in CHANGES {
        assert!(rt; nodes.is_live(node));
        let told = match change {
            Change::Write(at, text) => nodes.write_at(node, at, text.as_bytes()),
            Change::Cut(len) => nodes.cut(node, len).map(|_| 0),
        };
        assert_eq!(rt; told, answer);
        assert!(rt; nodes.is_live(node));
        let read = nodes.read_at(rt.alloc(), node, from, 9)?;
        assert_eq!(rt; read.slice(), bytes.as_bytes());
    }
    Ok(())
}

#[test]
fn nodes_go_with_what_keeps_them(rt: HostRuntime) -> Result<(), Fail> {
    let mut nodes = Nodes::fresh(rt.alloc())?;
    assert!(rt; nodes.is_live(NodeNo(1)) && nodes.is_directory(NodeNo(1)) && nodes.has_room());
    let node = nodes.make(rt.alloc(), NodeKind::File)?;
    assert!(rt; node == NodeNo(2) && nodes.is_live(node) && nodes.holders(node) == 0);
    nodes.hold(node);
    assert!(rt; nodes.is_live(node) && nodes.links(node) == 1);
    nodes.drop_link(node);
    assert!(rt; nodes.is_live(node) && nodes.holders(node) == 1);
    nodes.release(node);
    assert!(rt; !nodes.is_live(node) && nodes.has_room());
    assert_eq!(rt; nodes.make(rt.alloc(), NodeKind::Directory)?, NodeNo(3));
    Ok(())
}
