//! The laws of the server's machine: functions that do nothing, and whose contracts are the laws.
ghost use Rattle.std.specs.Prelude.{List};
ghost use Rattle.kern_model.specs.Journal.{IsLegal, HasOwnKeys};
ghost use Rattle.hub_model.specs.Closing.{ClosingTakesBack};
ghost use Rattle.hub_model.specs.Inherit.{ChildrenWait, ForksInherit, ImagesInherit, JoinsInherit};
ghost use Rattle.hub_model.specs.Owners.{HasOwners};
ghost use Rattle.hub_model.specs.Run.{Exchange, Runs};
ghost use Rattle.hub_model.specs.Sound.{IsSound, PlaysKeepSound};
ghost use Rattle.hub_model.specs.State.{Machine, fresh_machine};
ghost use Rattle.sp_frames.specs.declared.version.Version.{Version};

/// Whatever event a sound machine plays, with memory or without, it is sound afterwards.
pub fn events_keep_what_holds()
    ensures { PlaysKeepSound }
{}

/// Every run from the start leaves a legal journal, in which no two entries were made for the same.
pub fn runs_leave_legal_journals()
    ensures sound { (version : Version) (exchanges : List Exchange) (m : Machine)
        → Runs (fresh_machine version) exchanges m → IsSound m }
    ensures legal { (version : Version) (exchanges : List Exchange) (m : Machine)
        → Runs (fresh_machine version) exchanges m → IsLegal m.journal }
    ensures keys { (version : Version) (exchanges : List Exchange) (m : Machine)
        → Runs (fresh_machine version) exchanges m → HasOwnKeys m.journal }
{}

/// After every run from the start, each connection speaks for its owner, each entry of a request is
/// by the owner of its connection, over or not, and each cookie is used up once at the most.
pub fn owners_are_inherited()
    ensures { (version : Version) (exchanges : List Exchange) (m : Machine)
        → Runs (fresh_machine version) exchanges m → HasOwners m }
{}

/// A process takes over what it is to: a child all that its parent had as it forked, whatever
/// happens before it joins; a connection the process that its cookie hands over; and a process that
/// goes on as its next program the rows whose flag is clear.
pub fn processes_are_inherited()
    ensures forks { ForksInherit }
    ensures waits { ChildrenWait }
    ensures joins { JoinsInherit }
    ensures images { ImagesInherit }
{}

/// Whatever closes a connection, a lost link, the end of its input or a malformed frame, takes back
/// the unused cookies that it made, and no others. The journal then has the exits of the children
/// that nobody joined, in rising order of their cookies' numbers, and last that of its process.
pub fn closing_takes_cookies_back()
    ensures { ClosingTakesBack }
{}
