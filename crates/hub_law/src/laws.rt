//! The law of what a server serves: a function that does nothing, and whose contract is the law.
ghost use Rattle.std.specs.Prelude.{List};
ghost use Rattle.sp_frames.specs.declared.version.Version.{Version};
ghost use Rattle.hub_model.specs.Run.{Exchange, Runs};
ghost use Rattle.hub_model.specs.State.{Machine, fresh_machine};
ghost use Rattle.hub_law.specs.Serves.{Agrees};

/// Whatever happens to a server, its journal and what it sends agree with the frames that came:
/// each entry is what the first request of its number asked for, with the copies that came for it,
/// and each request is answered once at the most, as its entry says.
pub fn server_agrees()
    ensures { (version : Version) (exchanges : List Exchange) (m : Machine)
        → Runs (fresh_machine version) exchanges m → Agrees exchanges m.journal }
{}
