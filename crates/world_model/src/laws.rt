//! The law of the world: a function that does nothing, and whose contract is the law.
ghost use Rattle.std.specs.Prelude.{List};
ghost use Rattle.std.specs.List.{AllByRecursion};
ghost use Rattle.sp_frames.specs.declared.version.Version.{Version};
ghost use Rattle.world_model.specs.After.{HappensAfter, HostedAfter};
ghost use Rattle.world_model.specs.Once.{HappensOnce};
ghost use Rattle.world_model.specs.Run.{IsFit, Move, fresh_history, run};
ghost use Rattle.kern_model.specs.Journal.{IsLegal};
ghost use Rattle.hub_law.specs.Serves.{Agrees};

/// Whatever the guests ask, and however frames move, links break and the server works: each call
/// that was answered stands exactly once in its kernel's journal, and each lost one at most once.
///
/// Both journals replay on their kernels, one operation after another (`rump`, `host`). Each entry
/// was asked for once, with the bytes that its caller's memory had then; each answer is that of its
/// entry; what is refused has none (`once`). What was asked for after an answer came stands behind
/// that answer's entry (`after`, `after_host`). And what the server sent agrees with the frames
/// that came to it (`serves`).
pub fn world_law()
    ensures rump { (version : Version) (moves : List Move) → AllByRecursion IsFit moves
        → IsLegal (run (fresh_history version) moves).world.rump.journal }
    ensures host { (version : Version) (moves : List Move) → AllByRecursion IsFit moves
        → IsLegal (run (fresh_history version) moves).world.host }
    ensures once { (version : Version) (moves : List Move) → AllByRecursion IsFit moves
        → HappensOnce (run (fresh_history version) moves) }
    ensures after { (version : Version) (moves : List Move) → AllByRecursion IsFit moves
        → HappensAfter (run (fresh_history version) moves) }
    ensures after_host { (version : Version) (moves : List Move) → AllByRecursion IsFit moves
        → HostedAfter (run (fresh_history version) moves) }
    ensures serves { (version : Version) (moves : List Move) → AllByRecursion IsFit moves
        → let history = run (fresh_history version) moves in
        Agrees history.exchanges history.world.rump.journal }
{}
