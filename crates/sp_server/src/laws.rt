//! The laws of a run: functions that do nothing, and whose contracts are the laws.
ghost use Rattle.std.specs.Prelude.{ℕ, ◌≡◌, ◌++◌, List, true};
ghost use Rattle.std.specs.List.{flat_map};
ghost use Rattle.sp_frames.specs.Banner.{banner};
ghost use Rattle.sp_frames.specs.Fields.{IsBytes};
ghost use Rattle.sp_frames.specs.Grammar.{spelling};
ghost use Rattle.sp_base.specs.declared.names.ReqNo.{ReqNo};
ghost use Rattle.sp_frames.specs.declared.version.Version.TheVariants.{Four};
ghost use Rattle.hub_model.specs.declared.event.Finish.{Finish};
ghost use Rattle.hub_model.specs.State.{Machine, fresh_machine};
ghost use Rattle.hub_model.specs.Run.{Exchange, Runs};
ghost use Rattle.sp_server.specs.declared.stdio.StdioEnd.{StdioEnd};
ghost use Rattle.sp_server.specs.declared.stdio.StdioEnd.TheVariants as end;
ghost use Rattle.sp_server.specs.Serving.{handed_out};
ghost use Rattle.sp_server.specs.Stdio.{IsStdioOut, IsUnended, IsToldBy, is_decided, Ends, Serves};

/// The input, the salts and the calls that are refused for memory decide a run's end and what is written, however much of the input is
/// taken; a fault of the outside and want of memory excepted.
pub fn one_end()
    ensures end { (a b : StdioEnd) (input salts text more : List ℕ) (refused : List ReqNo)
        → IsBytes input → is_decided a ≡ true → is_decided b ≡ true
        → Ends a input salts refused text → Ends b input salts refused more → a ≡ b }
    ensures text { (a b : StdioEnd) (input salts text more : List ℕ) (refused : List ReqNo)
        → IsBytes input → is_decided a ≡ true → is_decided b ≡ true
        → Ends a input salts refused text → Ends b input salts refused more → text ≡ more }
{}

/// What is written is the banner, and then the spellings of the frames that a run of the server's machine hands out.
pub fn one_run()
    ensures { (input salts : List ℕ) (refused : List ReqNo) (how : Finish) (offset : ℕ)
        (text : List ℕ) → IsStdioOut input salts refused how offset text
        → (exchanges : List Exchange) × (last : Machine)
        × Runs (fresh_machine Four) exchanges last
        × (text ≡ banner ++ flat_map spelling (handed_out exchanges)) }
{}

/// The calls that are refused for memory are just those whose error frames are written, in order: where the input ends, and where it
/// goes on behind its whole frames. So the text, which they decide with the input, tells them.
pub fn refused_calls()
    ensures ended { (input salts : List ℕ) (refused : List ReqNo) (how : Finish) (offset : ℕ)
        (text : List ℕ) → IsStdioOut input salts refused how offset text → IsToldBy refused text }
    ensures unended { (input salts : List ℕ) (refused : List ReqNo) (text : List ℕ)
        → IsUnended input salts refused text → IsToldBy refused text }
{}

/// Bytes that come behind a frame's fault, or behind more than is looked at, change nothing.
pub fn later_bytes()
    ensures bad { (offset : ℕ) (taken later salts text : List ℕ) (refused : List ReqNo)
        → IsBytes later → Serves (end.BadAt offset) taken salts refused text
        → Serves (end.BadAt offset) (taken ++ later) salts refused text }
    ensures much { (taken later salts text : List ℕ) (refused : List ReqNo)
        → Serves end.TooMuch taken salts refused text
        → Serves end.TooMuch (taken ++ later) salts refused text }
{}
