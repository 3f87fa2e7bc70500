ghost use Rattle.std.specs.Prelude.{◌≡◌, ℕ, ◌+◌, ◌≤◌, ◌==◌, not, List, length, take, drop, Option, IfOk, OnOk, OnErr, IsTrue, false, filter, find as list_find};
ghost use Rattle.std.specs.FinMap.{get, insert, remove, empty, from_entries, find, put};
ghost use Rattle.std.specs.List.{AllByRecursion, list_any};
ghost use Rattle.std.specs.Option.{option_map};
ghost use Rattle.kern_model.specs.Name.{path_cmp, is_same_path, is_in, name_count, path_of, has_entries, renamed, moved_entries};
ghost use Rattle.kern_model.specs.NameMap.{list_of, IsBefore, IsAtPlace, IsSame, IsOther};

use crate::node::Path;
use crate::path::{compare, copy, is_in, is_same, moved};
use sp_base::{NoMemory, Octets};
use std::alloc::Global;
use std::cmp::Ordering;
use std::marker::Model;

/// A node's name: an absolute path, its components with the last one first, and the node's number.
#[derive(Debug, Drop)]
pub struct Name {
    pub path: Path,
    pub node: u64,
}

/// The names of nodes, in the order of their paths.
#[derive(Drop)]
pub struct NameMap {
    names: Vec<Name>,
}

impl Model for NameMap {
    ghost use Rattle.std.specs.Prelude.{T};
    ghost use Rattle.std.specs.FinMap.{is_sorted};
    ghost use Rattle.kern_model.specs.Name.{Names, path_cmp};
    ghost use Rattle.kern_model.specs.NameMap.{list_of, map_of, names_code};

    ghost Value = { Names };

    ghost coded = { names_code };

    ghost view = { λ m. map_of (list_of m.names.items) };

    ghost invariant = { λ m. T (is_sorted path_cmp (list_of m.names.items)) };
}

/// The node under a path in a list of names.
fn find_node(names: &[Name], path: &[Octets]) -> Option<u64>
    ensures { result ≡ find path_cmp path.now (list_of names.now) }
{
    for name in names {
        if is_same(path, name.path.slice()) {
            return Some(name.node);
        }
    }
    None
}

/// How many names stand before a path in the order.
fn place_of(names: &[Name], path: &[Octets]) -> usize
    ensures inside { result ≤ length names.now }
    ensures before { AllByRecursion (IsBefore path.now) (take result names.now) }
    ensures behind { IsAtPlace path.now (drop result names.now) }
{
    for (i, name) in names.iter().enumerate() {
        if !matches!(compare(path, name.path.slice()), Ordering::Greater) {
            return i;
        }
    }
    names.len()
}

/// Whether the first name has this path.
fn is_first(names: &[Name], path: &[Octets]) -> bool
    ensures yes { IsTrue result → IsSame path.now names.now }
    ensures no { result ≡ false → IsOther path.now names.now }
{
    match names.first() {
        Some(name) => is_same(path, name.path.slice()),
        None => false,
    }
}

/// How many names a node has.
fn count_of(names: &[Name], node: u64) -> usize
    ensures { result ≡ length (filter (λ e. e.1 == node) (list_of names.now)) }
{
    let mut count: usize = 0;
    for name in names {
        if name.node == node {
            count += 1;
        }
    }
    count
}

/// The path of the first name that a node has.
fn path_in(alloc: Global, names: &[Name], node: u64) -> Result<Option<Path>, NoMemory>
    ensures { IfOk result (λ path. path
        ≡ option_map (λ e. e.0) (list_find (λ e. e.1 == node) (list_of names.now))) }
{
    for name in names {
        if name.node == node {
            return Ok(Some(copy(alloc, name.path.slice())?));
        }
    }
    Ok(None)
}

/// Whether some name stands right in a directory.
fn has_name_in(names: &[Name], directory: &[Octets]) -> bool
    ensures { result ≡ list_any (λ e. is_in directory.now e.0) (list_of names.now) }
{
    for name in names {
        if is_in(directory, name.path.slice()) {
            return true;
        }
    }
    false
}

/// Takes a path's name away.
fn drop_name(names: &mut Vec<Name>, path: &[Octets])
    ensures { list_of names.new.items
        ≡ filter (λ e. not (is_same_path e.0 path.now)) (list_of names.old.items) }
{
    names.retain(|name| !is_same(name.path.slice(), path));
}

/// The map of names once what was `old` is `new`.
fn renamed_names(
    alloc: Global,
    names: &[Name],
    old: &[Octets],
    new: &[Octets],
) -> Result<NameMap, NoMemory>
    ensures { IfOk result (λ map. map
        ≡ from_entries (moved_entries old.now new.now (list_of names.now))) }
{
    let mut renamed = NameMap::fresh(alloc);
    for i in (0..names.len()).rev() {
        let path = moved(alloc, names[i].path.slice(), old, new)?;
        renamed.insert(path, names[i].node)?;
    }
    Ok(renamed)
}

/// A copy of names.
fn copy_names(alloc: Global, names: &[Name]) -> Result<Vec<Name>, NoMemory>
    ensures { IfOk result (λ copy. copy.items ≡ names.now) }
{
    let mut copies = Vec::new(alloc);
    for name in names {
        let path = copy(alloc, name.path.slice())?;
        copies.push(Name {
            path,
            node: name.node,
        })?;
    }
    Ok(copies)
}

/// Puts a name into its place in the order; a path that is there gets another node.
fn put_name(names: &mut Vec<Name>, path: Path, node: u64) -> Result<(), NoMemory>
    ensures ok { OnOk result (list_of names.new.items
        ≡ put path_cmp path node (list_of names.old.items)) }
    ensures err { OnErr result (names.new.items ≡ names.old.items) }
{
    let place = place_of(names, path.slice());
    let (_, behind) = names.split_at(place);
    if is_first(behind, path.slice()) {
        names[place].node = node;
        return Ok(());
    }
    names.insert(place, Name { path, node })?;
    Ok(())
}

impl NameMap {
    /// A map without names.
    pub fn fresh(alloc: Global) -> NameMap
        ensures { result ≡ empty }
    {
        NameMap {
            names: Vec::new(alloc),
        }
    }

    /// The same names once more.
    pub fn copy(&self, alloc: Global) -> Result<NameMap, NoMemory>
        ensures { IfOk result (λ copy. copy ≡ self.now) }
    {
        Ok(NameMap {
            names: copy_names(alloc, &self.names)?,
        })
    }

    /// The node under a path, if there is one.
    pub fn get(&self, path: &[Octets]) -> Option<u64>
        ensures { result ≡ get self.now path.now }
    {
        find_node(&self.names, path)
    }

    /// Puts a node under a path. Want of memory leaves the map as it was.
    pub fn insert(&mut self, path: Path, node: u64) -> Result<(), NoMemory>
        ensures ok { OnOk result (self.new ≡ insert self.old path node) }
        ensures err { OnErr result (self.new ≡ self.old) }
    {
        put_name(&mut self.names, path, node)?;
        Ok(())
    }

    /// Takes a path away, if it is there.
    pub fn remove(&mut self, path: &[Octets])
        ensures { self.new ≡ remove self.old path.now }
    {
        drop_name(&mut self.names, path);
    }

    /// Gives each path that is `old`, or below it, the place that it has once `old` is `new`. Want
    /// of memory leaves the map as it was.
    pub fn rename(&mut self, alloc: Global, old: &[Octets], new: &[Octets]) -> Result<(), NoMemory>
        ensures ok { OnOk result (self.new ≡ renamed self.old old.now new.now) }
        ensures err { OnErr result (self.new ≡ self.old) }
    {
        let renamed = renamed_names(alloc, &self.names, old, new)?;
        *self = renamed;
        Ok(())
    }

    /// How many paths name a node.
    pub fn name_count(&self, node: u64) -> usize
        ensures { result ≡ name_count self.now node }
    {
        count_of(&self.names, node)
    }

    /// The first path that names a node, for a directory its only one.
    pub fn path_of(&self, alloc: Global, node: u64) -> Result<Option<Path>, NoMemory>
        ensures { IfOk result (λ path. path ≡ path_of self.now node) }
    {
        path_in(alloc, &self.names, node)
    }

    /// Whether something stands in a directory.
    pub fn has_entries(&self, directory: &[Octets]) -> bool
        ensures { result ≡ has_entries self.now directory.now }
    {
        has_name_in(&self.names, directory)
    }
}
