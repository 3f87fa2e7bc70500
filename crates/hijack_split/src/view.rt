ghost use Rattle.std.specs.Prelude.{◌≡◌, ◌≤◌, length, map, slice_set};
ghost use Rattle.sp_base.specs.Table.{at};
ghost use Rattle.hijack_split.specs.View.{above_all, after_exec, changed, fresh_view, holds};
ghost use Rattle.hijack_split.specs.View.{kept_by_exec, named, unaliased};

use crate::change::{Alias, Change, Named};
use hijack_rules::{Offset, Rules, SideName};
use sp_base::table::at;
use std::marker::Model;

/// How many descriptors may be aliases: those below 32.
const ALIASES: usize = 32;

/// What each of a guest's descriptors names, and on which side its working directory is.
#[derive(Debug, Drop)]
pub struct View {
    offset: Offset,
    cwd: SideName,
    aliases: [Option<Alias>; 32],
}

impl Model for View {
    ghost use Rattle.hijack_split.specs.View.{Naming};

    ghost Value = { Naming };

    ghost view = { λ v. record { offset = v.offset; cwd = v.cwd; aliases = v.aliases } };
}

/// Whether some alias holds a rump descriptor.
fn holds(aliases: &[Option<Alias>], r: u64) -> bool
    ensures { result ≡ holds aliases.now r }
{
    for alias in aliases {
        if let Some(alias) = alias {
            if alias.rump == r {
                return true;
            }
        }
    }
    false
}

/// The lowest number above all aliases.
fn above_all(aliases: &[Option<Alias>]) -> u64
    ensures value { result ≡ above_all aliases.now }
    ensures most { result ≤ length aliases.now }
{
    match aliases {
        [] => 0,
        [alias, rest @ ..] => {
            let above = above_all(rest);
            if alias.is_some() || above > 0 {
                return above + 1;
            }
            0
        }
    }
}

/// Sets a descriptor's alias; past the table nothing changes.
fn put(aliases: &mut [Option<Alias>], g: u64, alias: Option<Alias>)
    ensures { aliases.new ≡ slice_set aliases.old g alias }
{
    if g < aliases.len() as u64 {
        aliases[g as usize] = alias;
    }
}

/// An alias behind an exec.
fn kept_by_exec(alias: Option<Alias>) -> Option<Alias>
    ensures { result ≡ kept_by_exec alias }
{
    match alias {
        Some(alias) => {
            if alias.cloexec {
                return None;
            }
            Some(alias)
        }
        None => None,
    }
}

/// Takes the aliases away that have the flag.
fn drop_marked(aliases: &mut [Option<Alias>])
    ensures { aliases.new ≡ map kept_by_exec aliases.old }
{
    for i in 0..aliases.len() {
        let alias = aliases[i];
        aliases[i] = kept_by_exec(alias);
    }
}

impl View {
    /// The view of a guest that starts: no aliases, and the working directory on the host's side.
    /// Takes no memory.
    pub fn fresh(rules: &Rules) -> View
        ensures { result ≡ fresh_view rules.now }
    {
        View {
            offset: Offset::new(rules.offset()),
            cwd: SideName::Host,
            aliases: [None; ALIASES],
        }
    }

    /// The view of these parts.
    pub fn of(offset: Offset, cwd: SideName, aliases: [Option<Alias>; 32]) -> View
        ensures { result ≡ record { offset = offset; cwd = cwd; aliases = aliases } }
    {
        View {
            offset,
            cwd,
            aliases,
        }
    }

    /// The alias of each descriptor below 32.
    pub fn aliases(&self) -> &[Option<Alias>]
        ensures { result.now ≡ self.now.aliases }
    {
        &self.aliases
    }

    /// The first number of the rump kernel's descriptors.
    pub fn offset(&self) -> u64
        ensures { result ≡ self.now.offset }
    {
        u64::from(self.offset.number())
    }

    /// The side of the working directory.
    pub fn cwd(&self) -> SideName
        ensures { result ≡ self.now.cwd }
    {
        self.cwd
    }

    /// A descriptor's alias; None where it has none.
    pub fn alias(&self, g: u64) -> Option<Alias>
        ensures { result ≡ at self.now.aliases g }
    {
        at(&self.aliases, g)
    }

    /// Whether some alias holds a rump descriptor.
    pub fn holds(&self, r: u64) -> bool
        ensures { result ≡ holds self.now.aliases r }
    {
        holds(&self.aliases, r)
    }

    /// The lowest number above all aliases; 0 where there is none.
    pub fn above_all(&self) -> u64
        ensures { result ≡ above_all self.now.aliases }
    {
        above_all(&self.aliases)
    }

    /// What a descriptor without an alias names.
    fn unaliased(&self, g: u64) -> Named
        ensures { result ≡ unaliased self.now g }
    {
        let offset = self.offset();
        if g < offset {
            return Named::Host(g);
        }
        if self.holds(g - offset) {
            return Named::Nothing;
        }
        Named::Rump(g - offset)
    }

    /// What a descriptor of the guest names.
    #[tactic(auto, unfolding(crate::specs::View::named))]
    pub fn named(&self, g: u64) -> Named
        ensures { result ≡ named self.now g }
    {
        match self.alias(g) {
            Some(alias) => Named::Rump(alias.rump),
            None => self.unaliased(g),
        }
    }

    /// Takes a change in.
    pub fn change(&mut self, change: Change)
        ensures { self.new ≡ changed self.old change }
    {
        match change {
            Change::Stays => {}
            Change::Sits(side) => {
                self.cwd = side;
            }
            Change::Marks(g, on) => {
                let alias = match at(&self.aliases, g) {
                    Some(alias) => Some(Alias {
                        rump: alias.rump,
                        cloexec: on,
                    }),
                    None => None,
                };
                put(&mut self.aliases, g, alias);
            }
            Change::Drops(g) => put(&mut self.aliases, g, None),
            Change::Sets(g, rump) => put(
                &mut self.aliases,
                g,
                Some(Alias {
                    rump,
                    cloexec: false,
                }),
            ),
        }
    }

    /// The view behind an exec: the aliases that have the flag go. Takes no memory.
    pub fn after_exec(&mut self)
        ensures { self.new ≡ after_exec self.old }
    {
        drop_marked(&mut self.aliases);
    }
}
