//! The text of a view.
ghost use Rattle.std.specs.Prelude.{◌≡◌, ◌++◌, IfOk, OnOk};
ghost use Rattle.hijack_split.specs.Text.{flag_text, row_text, rows_text, side_text, view_text};

use crate::change::Alias;
use crate::view::View;
use hijack_rules::SideName;
use script_words::put_number;
use sp_base::{NoMemory, Octets};
use std::alloc::Global;

/// A side's name.
fn side_text(side: SideName) -> &'static [u8]
    ensures { result.now ≡ side_text side }
{
    match side {
        SideName::Rump => b"rump",
        SideName::Host => b"host",
    }
}

/// What stands behind an alias for its flag.
fn flag_text(flag: bool) -> &'static [u8]
    ensures { result.now ≡ flag_text flag }
{
    if flag {
        b"+".as_slice()
    } else {
        b"".as_slice()
    }
}

/// Appends a descriptor and its alias.
#[tactic(auto, unfolding(crate::specs::Text::row_text))]
fn put_row(out: &mut Octets, g: u64, alias: &Alias) -> Result<(), NoMemory>
    ensures { OnOk result (out.new ≡ out.old ++ row_text g alias.now) }
{
    out.extend(b",")?;
    put_number(out, g)?;
    out.extend(b"=")?;
    put_number(out, alias.rump)?;
    out.extend(flag_text(alias.cloexec))?;
    Ok(())
}

/// Appends all aliases.
fn put_rows(out: &mut Octets, aliases: &[Option<Alias>]) -> Result<(), NoMemory>
    ensures { OnOk result (out.new ≡ out.old ++ rows_text 0 aliases.now) }
{
    for (i, alias) in aliases.iter().enumerate() {
        if let Some(alias) = alias {
            put_row(out, i as u64, alias)?;
        }
    }
    Ok(())
}

impl View {
    /// The text of a view. The only error is want of memory.
    #[tactic(auto, unfolding(crate::specs::Text::view_text))]
    pub fn text(&self, alloc: Global) -> Result<Octets, NoMemory>
        ensures { IfOk result (λ text. text ≡ view_text self.now) }
    {
        let mut out = Octets::none(alloc);
        put_number(&mut out, self.offset())?;
        out.extend(b",")?;
        out.extend(side_text(self.cwd()))?;
        put_rows(&mut out, self.aliases())?;
        Ok(out)
    }
}
