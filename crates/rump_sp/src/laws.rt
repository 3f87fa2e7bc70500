//! The law of a script's run: a function that does nothing, and whose contract is the law.
ghost use Rattle.std.specs.Prelude.{ℕ, ◌≡◌, Bool, List, true};
ghost use Rattle.rump_sp.specs.Top.{Shows};

/// What a script shows whole is one text: the kernel's answers decide the rows and the journals.
pub fn one_shown()
    ensures { (text : List ℕ) (journals : Bool) (a b : List ℕ)
        → Shows text journals true a → Shows text journals true b → a ≡ b }
{}
