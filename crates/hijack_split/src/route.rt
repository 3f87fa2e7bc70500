//! Where a guest's call goes.
ghost use Rattle.std.specs.Prelude.{◌≡◌};
ghost use Rattle.hijack_split.specs.Split.{by_routed, is_divided, path_of, route_by, route_of};

use crate::kind::{Kind, kind_of};
use crate::turn::Route;
use crate::view::View;
use hijack_rules::{Routed, Rules, SideName};
use sp_base::{Call, Need, PATH_TEXT, POLL_ENTRIES, POLL_ENTRY};
use sp_copy::{Mem, ROOT_BASE};

/// Where a path at an address goes, and its address there.
fn by_routed(path: u64, routed: Routed) -> (SideName, u64)
    ensures { result ≡ by_routed path routed }
{
    match routed {
        Routed::Rump(n) => (SideName::Rump, path.wrapping_add(u64::from(n))),
        Routed::RumpRoot => (SideName::Rump, ROOT_BASE),
        Routed::Host => (SideName::Host, path),
    }
}

/// Where a path goes, and its address there.
#[tactic(auto, unfolding(crate::specs::Split::path_of))]
fn path_of(rules: &Rules, view: &View, mem: &Mem, path: u64) -> (SideName, u64)
    ensures { result ≡ path_of rules.now view.now mem.now path }
{
    match mem.look(&Need::Text(path, PATH_TEXT)) {
        Ok(text) => by_routed(path, rules.path_side(view.cwd(), text)),
        Err(_) => (SideName::Host, path),
    }
}

/// Whether a poll is one that the kernel would not refuse.
#[tactic(auto, unfolding(crate::specs::Split::is_divided))]
fn is_divided(mem: &Mem, entries: u64, count: u64, timeout: u64) -> bool
    ensures { result ≡ is_divided mem.now entries count timeout }
{
    if count > POLL_ENTRIES {
        return false;
    }
    if timeout != 0 && timeout != u64::MAX {
        return false;
    }
    if count == 0 {
        return true;
    }
    match mem.look(&Need::Bytes(entries, POLL_ENTRY * count)) {
        Ok(_) => true,
        Err(_) => false,
    }
}

/// Where a call goes by what decides it.
fn route_by(rules: &Rules, view: &View, mem: &Mem, kind: Kind) -> Route
    ensures { result ≡ route_by rules.now view.now mem.now kind }
{
    match kind {
        Kind::Descriptor(fd) => Route::Descriptor(view.named(fd)),
        Kind::Path(path) => Route::Path(path_of(rules, view, mem, path)),
        Kind::Paths(path, new_path) => Route::Paths(
            path_of(rules, view, mem, path),
            path_of(rules, view, mem, new_path),
        ),
        Kind::Family(family) => Route::Whole(rules.socket_side(family)),
        Kind::Dup2(fd, new_fd) => Route::Dup2(fd, new_fd),
        Kind::Poll(entries, count, timeout) => {
            if is_divided(mem, entries, count, timeout) {
                return Route::Divided;
            }
            Route::Whole(SideName::Host)
        }
        Kind::Host => Route::Whole(SideName::Host),
    }
}

impl View {
    /// Where a guest's call goes, decided from its memory before the first step. Takes no memory.
    #[tactic(auto, unfolding(crate::specs::Split::route_of))]
    pub fn route(&self, rules: &Rules, call: &Call, mem: &Mem) -> Route
        ensures { result ≡ route_of rules.now self.now mem.now call.now }
    {
        match rules {
            Rules::Raw => Route::Raw,
            Rules::Divided(_) => route_by(rules, self, mem, kind_of(call)),
        }
    }
}
