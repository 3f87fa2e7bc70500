//! The laws of the kernel: functions that do nothing, and whose contracts are the laws.
ghost use Rattle.kern_model.specs.declared.operation.Op.TheVariants.{Attach, Fork};
ghost use Rattle.kern_model.specs.Laws.{ErrorsGiveNothing, FaultsLeaveTheState, OthersStay, CallsKeepWhoIsLive, ExecsKeepWhoIsLive, AttachesMake, ForksCopy, ForksKeepTheParent, IsFullError, ExecsCloseMarkedRows, ExecsKeepTheDirectory, ExecsShare, ExitsEnd, ExitsShare, OperationsKeepSound, JournalsLeaveSound};
ghost use Rattle.kern_model.specs.FileLaws.{WrittenIsRead};
ghost use Rattle.kern_model.specs.NameLaws.{RenamesKeepBytes, RenamesMoveBelow, RenamesEmptyTheOld, RenamesKeepTheRest};
ghost use Rattle.kern_model.specs.Journal.{LegalJournalsReplay};

/// An outcome that is an error has no values and writes nothing, and the state stays.
pub fn error_gives_nothing()
    ensures { ErrorsGiveNothing }
{}

/// Ins that are a fault give that error, and the state stays.
pub fn fault_leaves_the_state()
    ensures { FaultsLeaveTheState }
{}

/// An operation on one process leaves every other one as it is: its rows, its working directory,
/// and that it is there or isn't. A process that is made is another one only at its own number.
pub fn others_stay()
    ensures { OthersStay }
{}

/// A system call and an exec leave the same processes live.
pub fn calls_keep_who_is_live()
    ensures call { CallsKeepWhoIsLive }
    ensures exec { ExecsKeepWhoIsLive }
{}

/// An attach that is answered without an error makes the process of the lowest unused number; it is
/// answered EAGAIN exactly where there is none. Names, nodes and open files stay.
pub fn attach_takes_the_lowest_number()
    ensures made { AttachesMake }
    ensures full { IsFullError Attach }
{}

/// A fork that is answered without an error gives the child the lowest unused number and all that
/// its parent has, rows and working directory; the parent, a process, keeps both. They share the
/// open files, which stay, as all names and nodes do.
pub fn fork_copies_the_parent()
    ensures child { ForksCopy }
    ensures parent { ForksKeepTheParent }
    ensures full { IsFullError Fork }
{}

/// An exec leaves of a process's 128 rows exactly those whose flag is clear, each at its
/// descriptor, and the working directory. All names stay; no node and no open file is made or
/// changed.
pub fn exec_closes_marked_rows()
    ensures rows { ExecsCloseMarkedRows }
    ensures directory { ExecsKeepTheDirectory }
    ensures shared { ExecsShare }
{}

/// After an exit the process is gone, with all its rows. All names stay; no node and no open file
/// is made or changed.
pub fn exit_ends_the_process()
    ensures gone { ExitsEnd }
    ensures shared { ExitsShare }
{}

/// A directory that goes to a missing place, or takes that of an empty directory, takes along all
/// that is below it, and nothing else: each path below the new name has the node that the same path
/// below the old name had.
pub fn rename_moves_the_tree()
    ensures bytes { RenamesKeepBytes }
    ensures below_new { RenamesMoveBelow }
    ensures below_old { RenamesEmptyTheOld }
    ensures elsewhere { RenamesKeepTheRest }
{}

/// What a write wrote is what a read of the same node then gives, byte for byte, through whatever
/// descriptor of whatever process.
pub fn reads_give_what_was_written()
    ensures { WrittenIsRead }
{}

/// From the opening on, the tables have their lengths, the names are a tree, what is held is there
/// and what is there is held, and the limits aren't passed.
pub fn states_stay_sound()
    ensures operation { OperationsKeepSound }
    ensures journal { JournalsLeaveSound }
{}

/// In a legal journal each entry has the outcome that the kernel gives in the state before its
/// place, and leaves the state before the next one.
pub fn legal_journals_replay()
    ensures { LegalJournalsReplay }
{}
