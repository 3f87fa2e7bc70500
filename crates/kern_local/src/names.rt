ghost use Rattle.std.specs.Prelude.{◌≡◌, OnOk, OnErr, None, Some, if◌then◌else◌};
ghost use Rattle.std.specs.FinMap as map;
ghost use Rattle.kern_local.specs.Names.{with_name, without_name, is_socket, AreKnown};
ghost use Rattle.kern_local.specs.SocketNumbers.{number_of};

use socket_model::SockNo;
use sp_base::{NoMemory, NodeNo};
use std::alloc::Global;
use std::marker::Model;
use tables::Table;

/// The sockets that nodes are the names of. A node names one socket, and a socket has one name.
#[derive(Drop)]
pub struct Names {
    sockets: Table<u64>,
    nodes: Table<u64>,
}

impl Model for Names {
    ghost use Rattle.std.specs.Prelude.{ℕ};
    ghost use Rattle.std.specs.Coded.{coded_ℕ};
    ghost use Rattle.std.specs.FinMap as map;
    ghost use Rattle.kern_local.specs.Names.{Named, AreKnown};

    ghost Value = { Named };

    ghost coded = { map.code coded_ℕ coded_ℕ };

    ghost view = { λ n. n.sockets };

    ghost invariant = { λ n. AreKnown n.sockets n.nodes };
}

impl Names {
    /// No name; takes no memory.
    #[tactic(auto, using(crate::proofs::NameLemmas::known_none))]
    pub fn fresh(alloc: Global) -> Names
        ensures { result ≡ map.empty }
    {
        Names {
            sockets: Table::new(alloc),
            nodes: Table::new(alloc),
        }
    }

    /// The socket that a node is the name of; None where it is no socket's. Takes no memory.
    pub fn find(&self, node: NodeNo) -> Option<SockNo>
        ensures { number_of result ≡ map.get self.now node.0 }
    {
        match self.sockets.get(node.0) {
            Some(s) => Some(SockNo(*s)),
            None => None,
        }
    }

    /// Makes a node the name of a socket, in place of the name that it had. The only error is want of
    /// memory, and leaves all as it was.
    pub fn bind(&mut self, node: NodeNo, s: SockNo) -> Result<(), NoMemory>
        ensures ok { OnOk result (self.new ≡ with_name self.old node.0 s.0) }
        ensures err { OnErr result (self.new ≡ self.old) }
    {
        match self.nodes.get(s.0) {
            Some(old) => {
                let old = *old;
                rename(&mut self.sockets, &mut self.nodes, old, node.0, s.0)
            }
            None => name(&mut self.sockets, &mut self.nodes, node.0, s.0),
        }
    }

    /// Takes the name of a socket away, if it has one; takes no memory.
    pub fn release(&mut self, s: SockNo)
        ensures { self.new ≡ without_name self.old s.0 }
    {
        match self.nodes.remove(s.0) {
            Some(node) => unname(&mut self.sockets, node, s.0),
            None => {}
        }
    }
}

/// Takes a node's name away, where it is that of a socket.
fn unname(sockets: &mut Table<u64>, node: u64, s: u64)
    ensures { sockets.new ≡ (if is_socket (map.get sockets.old node) s
        then map.remove sockets.old node else sockets.old) }
{
    if let Some(there) = sockets.get(node) {
        if *there == s {
            sockets.remove(node);
        }
    }
}

/// Makes a node the name of a socket that has none. An error leaves all as it was.
fn name(sockets: &mut Table<u64>, nodes: &mut Table<u64>, node: u64, s: u64) -> Result<(), NoMemory>
    requires known { AreKnown sockets.old nodes.old }
    requires none { map.get nodes.old s ≡ None }
    ensures ok { OnOk result (sockets.new ≡ with_name sockets.old node s) }
    ensures err { OnErr result (sockets.new ≡ sockets.old) }
    ensures known { AreKnown sockets.new nodes.new }
{
    nodes.insert(s, node)?;
    match sockets.insert(node, s) {
        Ok(()) => Ok(()),
        Err(e) => {
            nodes.remove(s);
            Err(e)
        }
    }
}

/// Makes a node the name of a socket that was known by another one. An error leaves all as it was.
fn rename(
    sockets: &mut Table<u64>,
    nodes: &mut Table<u64>,
    old: u64,
    node: u64,
    s: u64,
) -> Result<(), NoMemory>
    requires known { AreKnown sockets.old nodes.old }
    requires had { map.get nodes.old s ≡ Some old }
    ensures ok { OnOk result (sockets.new ≡ with_name sockets.old node s) }
    ensures err { OnErr result (sockets.new ≡ sockets.old) }
    ensures known { AreKnown sockets.new nodes.new }
{
    sockets.insert(node, s)?;
    if old == node {
        return Ok(());
    }
    unname(sockets, old, s);
    let mut node = node;
    nodes.swap(s, &mut node);
    Ok(())
}
