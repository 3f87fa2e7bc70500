//! The laws of views and splits: functions that do nothing, and whose contracts are the laws.
ghost use Rattle.std.specs.Prelude.{◌≡◌, ◌≢◌, ◌<◌, ◌+◌, ◌%◌, ◌^◌, ℕ, Bool, true, false};
ghost use Rattle.std.specs.Prelude.{[], ◌∷◌, List, None, Ok, Some, drop, length};
ghost use Rattle.sp_base.specs.Table.{at};
ghost use Rattle.sp_base.specs.declared.call.Call.{Call};
ghost use Rattle.sp_base.specs.declared.names.Answer.{Answer};
ghost use Rattle.sp_copy.specs.declared.part.Part.{Part};
ghost use Rattle.hijack_rules.specs.declared.names.SideName.{SideName};
ghost use Rattle.hijack_rules.specs.declared.rules.Rules.{Rules};
ghost use Rattle.sp_base.specs.declared.limits.TheConstants.{PATH_TEXT};
ghost use Rattle.sp_base.specs.declared.need.Need.TheVariants.{Text};
ghost use Rattle.sp_copy.specs.Faults.{fault_of};
ghost use Rattle.sp_copy.specs.Reading.{read_of};
ghost use Rattle.sp_copy.specs.declared.part.TheConstants.{ROOT_BASE};
ghost use Rattle.hijack_rules.specs.Sides.{path_side};
ghost use Rattle.hijack_rules.specs.declared.names.Routed.TheVariants as routed;
ghost use Rattle.hijack_split.specs.Calls.{with_first, with_paths};
ghost use Rattle.hijack_split.specs.Laws.{Always, AnswersItself, Anyhow, IsChangeOf, IsDistinct};
ghost use Rattle.hijack_split.specs.Laws.{IsFair, IsRenamed, NamesHost, NamesHosts};
ghost use Rattle.hijack_split.specs.NewDescriptors.{settles_one, settles_two};
ghost use Rattle.hijack_split.specs.Split.{steps_of};
ghost use Rattle.hijack_split.specs.Text.{IsSpelled, view_of, view_text};
ghost use Rattle.hijack_split.specs.View.{Naming, after_exec, changed, holds, named};
ghost use Rattle.hijack_split.specs.declared.change.Alias.{Alias};
ghost use Rattle.hijack_split.specs.declared.change.Change.TheVariants.{Drops, Marks, Sets, Sits};
ghost use Rattle.hijack_split.specs.declared.change.Named.TheVariants.{Host, Rump};

/// No two descriptors of a guest name one descriptor of the rump kernel, as long as no two aliases
/// hold one. That stays so where an alias goes, and where one is set of a descriptor that none
/// holds.
pub fn names_are_distinct()
    ensures names { (v : Naming) → IsDistinct v → (g h r : ℕ)
        → named v g ≡ Rump r → named v h ≡ Rump r → g ≡ h }
    ensures drops { (v : Naming) (g : ℕ) → IsDistinct v → IsDistinct (changed v (Drops g)) }
    ensures sets { (v : Naming) (g r : ℕ) → IsDistinct v
        → holds v.aliases r ≡ false → IsDistinct (changed v (Sets g r)) }
    ensures exec { (v : Naming) → IsDistinct v → IsDistinct (after_exec v) }
{}

/// What each change of a view does to what a descriptor names: only the descriptor's own alias
/// decides, below the offset.
pub fn changes_rename_one()
    ensures sits { (v : Naming) (side : SideName) (g : ℕ)
        → named (changed v (Sits side)) g ≡ named v g }
    ensures marks { (v : Naming) (h : ℕ) (on : Bool) (g : ℕ)
        → named (changed v (Marks h on)) g ≡ named v g }
    ensures drops { (v : Naming) (h g : ℕ)
        → g < v.offset → g ≢ h → named (changed v (Drops h)) g ≡ named v g }
    ensures sets { (v : Naming) (h r g : ℕ)
        → g < v.offset → g ≢ h → named (changed v (Sets h r)) g ≡ named v g }
    ensures dropped { (v : Naming) (h : ℕ)
        → h < v.offset → named (changed v (Drops h)) h ≡ Host h }
    ensures set { (v : Naming) (h r : ℕ)
        → h < length v.aliases → named (changed v (Sets h r)) h ≡ Rump r }
{}

/// An exec takes the aliases away that have the flag, and leaves what the other descriptors name.
pub fn exec_takes_marked_aliases()
    ensures taken { (v : Naming) (g : ℕ) (alias : Alias) → at v.aliases g ≡ Some alias
        → alias.cloexec ≡ true → g < v.offset → named (after_exec v) g ≡ Host g }
    ensures kept { (v : Naming) (g : ℕ) (alias : Alias) → at v.aliases g ≡ Some alias
        → alias.cloexec ≡ false → named (after_exec v) g ≡ Rump alias.rump }
    ensures others { (v : Naming) (g : ℕ) → at v.aliases g ≡ None
        → g < v.offset → named (after_exec v) g ≡ named v g }
{}

/// A host descriptor that is given out names what the host made: it is no alias, and below the
/// offset.
pub fn new_host_descriptors_are_names()
    ensures one { (v : Naming) (flag : Bool) (answer : Answer)
        → Always IsFair (NamesHost v) (settles_one v flag answer) }
    ensures two { (v : Naming) (answer : Answer)
        → Always IsFair (NamesHosts v) (settles_two v answer) }
{}

/// Which calls change a view, and how, whatever the kernels answer.
pub fn only_some_calls_change_the_view()
    ensures { (rules : Rules) (v : Naming) (mem : List Part) (call : Call)
        → Always Anyhow (IsChangeOf call) (steps_of rules v mem call) }
{}

/// What the splitter answers by itself has no call on either kernel before it, and changes nothing;
/// only EMFILE comes after calls.
pub fn own_errors_come_without_calls()
    ensures { (rules : Rules) (v : Naming) (mem : List Part) (call : Call)
        → AnswersItself (steps_of rules v mem call) }
{}

/// A call that is handed on is the guest's call with another descriptor or other paths in front.
pub fn calls_keep_their_words()
    ensures first { (call : Call) (word : ℕ) → IsRenamed call (with_first call word) 1 }
    ensures paths { (call : Call) (path new_path : ℕ)
        → IsRenamed call (with_paths call path new_path) 2 }
{}

/// The text of a view is read as the view.
pub fn texts_are_read_as_views()
    ensures { (v : Naming) → IsSpelled v → view_of (view_text v) ≡ Some v }
{}

/// A path that is cut by its prefix reads, at its new address, as what stands behind the prefix; the
/// prefix alone reads as `/`.
pub fn cut_paths_read_as_the_rest()
    ensures cut { (rules : Rules) (cwd : SideName) (mem : List Part) (path n : ℕ)
        (text : List ℕ) → fault_of mem ≡ None → read_of mem (Text path PATH_TEXT) ≡ Ok text
        → path_side rules cwd text ≡ routed.Rump n
        → read_of mem (Text ((path + n) % 2 ^ 64) PATH_TEXT) ≡ Ok (drop n text) }
    ensures root { (mem : List Part)
        → read_of mem (Text ROOT_BASE PATH_TEXT) ≡ Ok (47 ∷ []) }
{}
