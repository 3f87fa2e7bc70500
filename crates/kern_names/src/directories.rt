ghost use Rattle.std.specs.Prelude.{◌≡◌, ◌≢◌, ℕ, ◌∷◌, None, Some, IsSome, IsTrue, IfOk, OnOk, OnErr, is_some, not};
ghost use Rattle.std.specs.Option.{option_map};
ghost use Rattle.std.specs.FinMap.{get, remove};
ghost use Rattle.kern_model.specs.Name.{Path, name_count, has_entries, parent, below};
ghost use Rattle.kern_names.specs.Shown.{ShownBy, ShownBy-prop};
ghost use Rattle.kern_names.specs.Tree.{IsWhole, LeadsTo, root_alone, has_directory, with_name, without_name, moved};
ghost use Rattle.kern_names.specs.Requests.{MayHaveName, MayGo, MayMove, MayReplace};

mod walk;

use crate::entries;
use crate::listing::Listing;
use sp_base::{NoMemory, NodeNo};
use std::alloc::Global;
use std::collections::BTreeMap;
use std::marker::Model;

/// The node of the root directory.
pub const ROOT: NodeNo = NodeNo(1);

/// A directory: the one that it stands in, the root's the root itself, and its names.
#[derive(Drop)]
pub struct Directory {
    pub(crate) parent: u64,
    pub(crate) entries: Listing,
}

/// The directories of a file system, by their nodes. What they are to a caller is the map of all
/// nodes by their absolute paths, and the set of the nodes that are directories.
#[derive(Drop)]
pub struct Directories {
    alloc: Global,
    directories: BTreeMap<u64, Directory>,
    ghost shown: { ShownBy directories } by { ShownBy-prop directories },
}

impl Model for Directories {
    ghost use Rattle.kern_names.specs.Tree.{Tree, tree_code};

    ghost Value = { Tree };

    ghost coded = { tree_code };

    ghost use Rattle.kern_names.specs.Edges.{IsTree, edges_of, parents_of};

    ghost invariant = { λ t. IsTree (edges_of t.directories) (parents_of t.directories) };

    ghost view = { λ t. t.shown.0 };
}

impl Directories {
    /// The root directory alone.
    pub fn fresh(alloc: Global) -> Result<Directories, NoMemory>
        ensures { IfOk result (λ directories. directories ≡ root_alone) }
    {
        Ok(Directories {
            alloc,
            directories: entries::root_alone(alloc)?,
        })
    }

    /// A law, which does nothing: the root is a directory, each other path stands in one, and a
    /// directory has one path.
    pub fn names_are_a_tree(&self)
        ensures { IsWhole self.now }
    {
        let _ = &self.directories;
    }

    /// The node under a name in a directory.
    pub fn child(&self, directory: NodeNo, name: &[u8]) -> Option<NodeNo>
        ensures { (path : Path) → LeadsTo self.now path directory.0
            → get self.now.names (name.now ∷ path) ≡ option_map (λ node. node.0) result }
    {
        entries::child(&self.directories, directory.0, name).map(NodeNo)
    }

    /// Whether a node is a directory.
    pub fn is_directory(&self, node: NodeNo) -> bool
        ensures { result ≡ has_directory self.now node.0 }
    {
        self.directories.contains_key(&node.0)
    }

    /// Whether a directory is another node, or stands somewhere below it.
    pub fn is_inside(&self, directory: NodeNo, top: NodeNo) -> bool
        requires { IsTrue (has_directory self.now directory.0) }
        ensures { (path above : Path) → LeadsTo self.now path directory.0
            → LeadsTo self.now above top.0
            → result ≡ is_some (below path above) }
    {
        let directories = &self.directories;
        let mut at = directory.0;
        while at != top.0 {
            if at == ROOT.0 {
                return false;
            }
            at = entries::parent(directories, at);
        }
        true
    }

    /// Gives a node a name that is free in a directory; where it is to be a directory, it is an
    /// empty one. Want of memory leaves the directories as they were.
    pub fn add(
        &mut self,
        directory: NodeNo,
        name: &[u8],
        node: NodeNo,
        is_directory: bool,
    ) -> Result<(), NoMemory>
        requires within { IsTrue (has_directory self.old directory.0) }
        requires free { (path : Path) → LeadsTo self.old path directory.0
            → get self.old.names (name.now ∷ path) ≡ None }
        requires new { MayHaveName self.old node.0 is_directory }
        ensures ok { (path : Path) → LeadsTo self.old path directory.0
            → OnOk result (self.new ≡ with_name self.old (name.now ∷ path) node.0 is_directory) }
        ensures err { OnErr result (self.new ≡ self.old) }
    {
        entries::add(
            self.alloc,
            &mut self.directories,
            directory.0,
            name,
            node.0,
            is_directory,
        )
    }

    /// Takes a name of a directory away. Its node is no directory from then on.
    pub fn remove(&mut self, directory: NodeNo, name: &[u8])
        requires within { IsTrue (has_directory self.old directory.0) }
        requires may { (path : Path) → LeadsTo self.old path directory.0
            → MayGo self.old (name.now ∷ path) }
        ensures { (path : Path) (node : ℕ)
            → LeadsTo self.old path directory.0 → LeadsTo self.old (name.now ∷ path) node
            → self.new ≡ without_name self.old (name.now ∷ path) node }
    {
        match entries::child(&self.directories, directory.0, name) {
            Some(node) => entries::remove(&mut self.directories, directory.0, name, node),
            None => unreachable!(),
        }
    }

    /// Whether a directory has no names.
    pub fn is_empty(&self, directory: NodeNo) -> bool
        requires { IsTrue (has_directory self.now directory.0) }
        ensures { (path : Path) → LeadsTo self.now path directory.0
            → has_entries self.now.names path ≡ not result }
    {
        match self.directories.get(&directory.0) {
            Some(directory) => directory.entries.is_empty(),
            None => unreachable!(),
        }
    }

    /// The directory that a directory stands in, for the root the root.
    pub fn parent(&self, directory: NodeNo) -> NodeNo
        requires { IsTrue (has_directory self.now directory.0) }
        ensures within { IsTrue (has_directory self.now result.0) }
        ensures above { (path : Path) → LeadsTo self.now path directory.0
            → LeadsTo self.now (parent path) result.0 }
    {
        NodeNo(entries::parent(&self.directories, directory.0))
    }

    /// Gives what stands under a name of a directory a name that is free, in the same directory or
    /// another. A directory takes with it what stands below it. Want of memory leaves the
    /// directories as they were.
    pub fn rename(
        &mut self,
        from: NodeNo,
        old_name: &[u8],
        to: NodeNo,
        new_name: &[u8],
    ) -> Result<(), NoMemory>
        requires within { IsTrue (has_directory self.old from.0) }
        requires under { IsTrue (has_directory self.old to.0) }
        requires may { (path above : Path) → LeadsTo self.old path from.0
            → LeadsTo self.old above to.0
            → MayMove self.old (old_name.now ∷ path) (new_name.now ∷ above) }
        ensures ok { (path above : Path) → LeadsTo self.old path from.0
            → LeadsTo self.old above to.0
            → OnOk result (self.new ≡ moved self.old (old_name.now ∷ path) (new_name.now ∷ above)) }
        ensures counts { (node : ℕ)
            → OnOk result (name_count self.new.names node ≡ name_count self.old.names node) }
        ensures err { OnErr result (self.new ≡ self.old) }
    {
        match entries::child(&self.directories, from.0, old_name) {
            Some(node) => entries::rename(
                self.alloc,
                &mut self.directories,
                from.0,
                old_name,
                to.0,
                new_name,
                node,
            ),
            None => unreachable!(),
        }
    }

    /// Gives what stands under a name of a directory the name of another node, which is gone, and
    /// no directory from then on. Takes no memory.
    pub fn replace(&mut self, from: NodeNo, old_name: &[u8], to: NodeNo, new_name: &[u8])
        requires within { IsTrue (has_directory self.old from.0) }
        requires under { IsTrue (has_directory self.old to.0) }
        requires may { (path above : Path) → LeadsTo self.old path from.0
            → LeadsTo self.old above to.0
            → MayReplace self.old (old_name.now ∷ path) (new_name.now ∷ above) }
        ensures names { (path above : Path) (replaced : ℕ)
            → LeadsTo self.old path from.0 → LeadsTo self.old above to.0
            → LeadsTo self.old (new_name.now ∷ above) replaced
            → self.new ≡ moved (without_name self.old (new_name.now ∷ above) replaced)
            (old_name.now ∷ path) (new_name.now ∷ above) }
        ensures counts { (above : Path) (node : ℕ) → LeadsTo self.old above to.0
            → name_count self.new.names node
            ≡ name_count (remove self.old.names (new_name.now ∷ above)) node }
    {
        let Some(node) = entries::child(&self.directories, from.0, old_name) else {
            unreachable!()
        };
        let Some(replaced) = entries::child(&self.directories, to.0, new_name) else {
            unreachable!()
        };
        entries::replace(
            &mut self.directories,
            from.0,
            old_name,
            to.0,
            new_name,
            node,
            replaced,
        );
    }
}
