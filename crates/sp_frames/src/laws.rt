//! The laws of the grammar: functions that do nothing, and whose contracts are the laws.
ghost use Rattle.std.specs.Prelude.{List, ℕ, ◌≡◌, [], ◌++◌};
ghost use Rattle.sp_frames.specs.declared.fault.FrameFault.{FrameFault};
ghost use Rattle.sp_frames.specs.declared.frame.Frame.{Frame};
ghost use Rattle.sp_frames.specs.Banner.{banner};
ghost use Rattle.sp_frames.specs.Grammar.{spelling, Fits};
ghost use Rattle.sp_frames.specs.Stream.{IsWhole, NoFront};
ghost use Rattle.sp_frames.specs.Faults.{HasFault};
ghost use Rattle.sp_frames.specs.Fields.{IsBytes};

use crate::banner::BANNER;

/// What a server sends first is the protocol's name and version, and a line end.
pub fn banner_is_the_text()
    ensures { BANNER ≡ banner }
{}

/// Frames within their rows that are spelled alike are the same frame.
pub fn one_spelling()
    ensures { (f g : Frame) → Fits f → Fits g → spelling f ≡ spelling g → f ≡ g }
{}

/// No spelling is a proper prefix of another.
pub fn no_prefix()
    ensures { (f g : Frame) (more : List ℕ) → Fits f → Fits g
        → spelling g ≡ spelling f ++ more → more ≡ [] }
{}

/// Bytes are the spellings of one list of frames, with one rest that no spelling begins.
pub fn one_whole()
    ensures { (bytes : List ℕ) (fs gs : List Frame) (r s : List ℕ)
        → IsWhole bytes fs r → IsWhole bytes gs s → (fs ≡ gs) × (r ≡ s) }
{}

/// Bytes begin with at most one fault.
pub fn one_fault()
    ensures { (bytes : List ℕ) (a b : FrameFault) → HasFault bytes a → HasFault bytes b → a ≡ b }
{}

/// Bytes that begin with a fault still begin with it whatever comes behind them, and with no frame.
pub fn fault_stays()
    ensures { (bytes more : List ℕ) (e : FrameFault) → IsBytes more → HasFault bytes e
        → HasFault (bytes ++ more) e × NoFront (bytes ++ more) }
{}

/// What follows a fault changes nothing: the frames before it are the frames of the whole.
pub fn fault_ends_the_frames()
    ensures { (bytes more : List ℕ) (frames : List Frame) (rest : List ℕ) (e : FrameFault)
        → IsBytes more → IsWhole bytes frames rest → HasFault rest e
        → IsWhole (bytes ++ more) frames (rest ++ more) }
{}
