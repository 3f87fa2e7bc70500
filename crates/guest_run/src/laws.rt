//! The laws of a guest's lines: functions that do nothing, and whose contracts are the laws.
ghost use Rattle.guest_run.specs.Laws.{ExecsKeepClearRows, ExecsKeepTheDirectory};

/// The entry of an exec line leaves of its process's rows exactly those whose close-on-exec flag is
/// clear, each at its descriptor, and the working directory.
pub fn execs_keep_clear_rows()
    ensures rows { ExecsKeepClearRows }
    ensures directory { ExecsKeepTheDirectory }
{}
