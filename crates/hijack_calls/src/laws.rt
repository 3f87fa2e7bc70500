//! Laws of a guest's calls over two sides.
ghost use Rattle.std.specs.Prelude.{◌≡◌, ◌≢◌, List, None, Ok};
ghost use Rattle.sp_base.specs.Errno.{errno_number};
ghost use Rattle.sp_base.specs.declared.call.Call.{Call};
ghost use Rattle.sp_base.specs.declared.errno.Errno.TheVariants.{Emfile};
ghost use Rattle.sp_copy.specs.declared.part.Part.{Part};
ghost use Rattle.hijack_rules.specs.declared.rules.Rules.{Rules};
ghost use Rattle.hijack_split.specs.Split.{steps_by, steps_of};
ghost use Rattle.hijack_split.specs.View.{Naming};
ghost use Rattle.hijack_split.specs.declared.turn.Route.{Route};
ghost use Rattle.hijack_calls.specs.Laws.{IsUntouched};
ghost use Rattle.hijack_calls.specs.Runs.{Splits};
ghost use Rattle.hijack_calls.specs.Turns.{Ends, IsWhole};
ghost use Rattle.hijack_calls.specs.declared.splitter.Replied.{Replied};

use crate::side::Side;

/// However its steps are answered, a call that is no poll of both kernels has eight at the most, and
/// then a reply.
pub fn calls_have_few_steps()
    ensures { (v : Naming) (call : Call) (route : Route)
        → IsWhole route → Ends 9 (steps_by v call route) }
{}

/// Where the splitter answers by itself, and not EMFILE, neither side was called: both, the guest's
/// memory and its view are as they were.
pub fn own_errors_leave_both_sides<R: Side, H: Side>()
    ensures { (rules : Rules) (v v' : Naming) (call : Call) (mem : List Part)
        (r r' : R) (h h' : H) (told : Replied)
        → Splits R.does H.does (steps_of rules v mem call) r h mem v (Ok told) r' h' v'
        → told.by ≡ None → told.answer.err ≢ errno_number Emfile
        → IsUntouched r h mem v r' h' told.mem v' }
{}
