ghost use Rattle.std.specs.Prelude.{◌≡◌, ℕ, ◌≤◌, ◌∷◌, ◌++◌, length, take, IfOk, IfSome, OnOk};
ghost use Rattle.std.specs.Option.{option_map};
ghost use Rattle.kern_model.specs.Name.{path_cmp, is_same_path, parent, is_in, below, moved_by};

use crate::node::Path;
use sp_base::{Items, NoMemory, Octets};
use std::alloc::Global;
use std::cmp::Ordering;

/// The order of two paths.
pub fn compare(left: &[Octets], right: &[Octets]) -> Ordering
    ensures { result ≡ path_cmp left.now right.now }
{
    let Some((a, left)) = left.split_first() else {
        return if right.is_empty() {
            Ordering::Equal
        } else {
            Ordering::Less
        };
    };
    let Some((b, right)) = right.split_first() else {
        return Ordering::Greater;
    };
    match a.slice().cmp(b.slice()) {
        Ordering::Equal => compare(left, right),
        unequal => unequal,
    }
}

/// Whether two paths are the same.
pub fn is_same(left: &[Octets], right: &[Octets]) -> bool
    ensures { result ≡ is_same_path left.now right.now }
{
    matches!(compare(left, right), Ordering::Equal)
}

/// The directory that a path stands in; the root's is the root.
pub fn parent(path: &[Octets]) -> &[Octets]
    ensures { result.now ≡ parent path.now }
{
    match path.split_first() {
        Some((_, above)) => above,
        None => path,
    }
}

/// Whether a path stands right in a directory.
pub fn is_in(directory: &[Octets], path: &[Octets]) -> bool
    ensures { result ≡ is_in directory.now path.now }
{
    match path.split_first() {
        Some((_, above)) => is_same(above, directory),
        None => false,
    }
}

/// Puts copies of components behind a path's. Want of memory may leave a part of them there.
fn extend(alloc: Global, path: &mut Path, more: &[Octets]) -> Result<(), NoMemory>
    ensures { OnOk result (path.new ≡ path.old ++ more.now) }
{
    for component in more {
        path.push(Octets::of(alloc, component.slice())?)?;
    }
    Ok(())
}

/// The path of these components and, behind them, those of another path.
pub fn joined(alloc: Global, before: &[Octets], above: &[Octets]) -> Result<Path, NoMemory>
    ensures { IfOk result (λ path. path ≡ before.now ++ above.now) }
{
    let mut path = Items::none(alloc);
    extend(alloc, &mut path, before)?;
    extend(alloc, &mut path, above)?;
    Ok(path)
}

/// A copy of a path.
pub fn copy(alloc: Global, path: &[Octets]) -> Result<Path, NoMemory>
    ensures { IfOk result (λ copy. copy ≡ path.now) }
{
    let mut copy = Items::none(alloc);
    extend(alloc, &mut copy, path)?;
    Ok(copy)
}

/// The path of a component in a directory.
pub fn child(alloc: Global, component: &[u8], directory: &[Octets]) -> Result<Path, NoMemory>
    ensures { IfOk result (λ path. path ≡ component.now ∷ directory.now) }
{
    let mut path = Items::none(alloc);
    path.push(Octets::of(alloc, component)?)?;
    extend(alloc, &mut path, directory)?;
    Ok(path)
}

/// How many components stand before `top` in a path that is `top` or below it.
pub fn depth_below(path: &[Octets], top: &[Octets]) -> Option<usize>
    ensures which { option_map (λ depth. take depth path.now) result ≡ below path.now top.now }
    ensures inside { IfSome result (λ depth. depth ≤ length path.now) }
{
    if is_same(path, top) {
        return Some(0);
    }
    let (_, rest) = path.split_first()?;
    Some(depth_below(rest, top)? + 1)
}

/// The path that `path` has once what was `old` is `new`.
pub fn moved(
    alloc: Global,
    path: &[Octets],
    old: &[Octets],
    new: &[Octets],
) -> Result<Path, NoMemory>
    ensures { IfOk result (λ moved. moved ≡ moved_by path.now new.now (below path.now old.now)) }
{
    match depth_below(path, old) {
        Some(depth) => {
            let (before, _) = path.split_at(depth);
            joined(alloc, before, new)
        }
        None => copy(alloc, path),
    }
}
