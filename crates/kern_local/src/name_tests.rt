// Which sockets nodes are the names of, worked out by hand.
use crate::Names;
use socket_model::SockNo;
use sp_base::NodeNo;
use std::test::Fail;

/// What is done to names; a find with the socket that it finds.
#[derive(Clone, Copy)]
enum Step {
    Bind(u64, u64),
    Release(u64),
    Find(u64, Option<SockNo>),
}

const STEPS: [Step; 14] = [
    Step::Find(7, None),
    Step::Bind(7, 0),
    Step::Bind(8, 1),
    Step::Find(7, Some(SockNo(0))),
    Step::Find(8, Some(SockNo(1))),
    Step::Release(0),
    Step::Find(7, None),
    Step::Bind(7, 2),
    Step::Bind(9, 2),
    Step::Find(7, None),
    Step::Bind(9, 1),
    Step::Find(8, None),
    Step::Release(2),
    Step::Find(9, Some(SockNo(1))),
];

#[test]
fn names_come_and_go(rt: HostRuntime) -> Result<(), Fail> {
    let mut names = Names::fresh(rt.alloc());
    for step in STEPS {
        match step {
            Step::Bind(node, s) => names.bind(NodeNo(node), SockNo(s))?,
            Step::Release(s) => names.release(SockNo(s)),
            Step::Find(node, found) => assert_eq!(rt; names.find(NodeNo(node)), found),
        }
    }
    Ok(())
}
