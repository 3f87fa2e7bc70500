//! The laws of the client's machine: functions that do nothing, and whose contracts are the laws.
ghost use Rattle.std.specs.Prelude.{◌≡◌, ◌≤◌, ◌+◌, ◌∷◌, List, Some, false, true};
ghost use Rattle.std.specs.FinMap as map;
ghost use Rattle.std.specs.List.Sorted.{IsStrictlySortedBy};
ghost use Rattle.std.specs.Ordering.{nat_cmp};
ghost use Rattle.client_model.specs.Machine.{Plays};
ghost use Rattle.client_model.specs.Run.{Exchange, Runs};
ghost use Rattle.client_model.specs.State.{Client, Open, asked_by, fresh_client};
ghost use Rattle.client_model.specs.Told.{WasGiven, WasStarted, asked_in, is_allowed, is_in_kind, is_refusal, memory_back, numbers_given};
ghost use Rattle.client_model.specs.declared.event.Event.{Event};
ghost use Rattle.client_model.specs.declared.event.Event.TheVariants as event;
ghost use Rattle.client_model.specs.declared.event.Hello.{Hello};
ghost use Rattle.client_model.specs.declared.event.Reply.{Reply};
ghost use Rattle.client_model.specs.declared.event.Reply.TheVariants as reply;
ghost use Rattle.client_model.specs.declared.request.Ending.{Ending};
ghost use Rattle.client_model.specs.declared.request.Request.{Request};
ghost use Rattle.sp_base.specs.declared.call.Call.{Call};
ghost use Rattle.sp_base.specs.declared.names.Caller.{Caller};
ghost use Rattle.sp_base.specs.declared.names.ReqNo.{ReqNo};
ghost use Rattle.sp_copy.specs.Writing.{ChangesOnly};
ghost use Rattle.sp_copy.specs.declared.part.Part.{Part};
ghost use Rattle.sp_frames.specs.declared.version.Version.{Version};

/// The numbers of requests rise: each is above every number that was given before, so none comes
/// again.
pub fn numbers_rise()
    ensures last { (old new : Client) (event : Event) (answer : Reply)
        → Plays old event answer new → old.last ≤ new.last }
    ensures next { (old new : Client) (event : Event) (r : ReqNo)
        → Plays old event (reply.Started r) new → r.0 ≡ old.last + 1 }
    ensures highest { (old new : Client) (event : Event) (r : ReqNo)
        → Plays old event (reply.Started r) new → new.last ≡ r.0 }
    ensures rising { (old new : Client) (exchanges : List Exchange)
        → Runs old exchanges new → IsStrictlySortedBy nat_cmp (old.last ∷ numbers_given exchanges) }
{}

/// Whatever frames come, the memory that is lent for a call changes in the ranges alone that the
/// call may write: at any time, and also where it comes back with a call that was lost.
pub fn memory_changes_where_allowed()
    ensures open { (now : Client) (call : Call) (mem : List Part) (r : ReqNo) (x : Open)
        → WasStarted call mem r now → map.get now.requests r.0 ≡ Some x
        → ChangesOnly (is_allowed call) mem x.delivery.mem }
    ensures collected { (now new : Client) (call : Call) (mem back : List Part)
        (r : ReqNo) (answer : Reply) → WasStarted call mem r now
        → Plays now (event.Collect r) answer new → is_refusal answer ≡ false → memory_back answer ≡ Some back
        → ChangesOnly (is_allowed call) mem back }
    ensures refused { (old new : Client) (caller : Caller) (call : Call)
        (mem back : List Part) (answer : Reply) → Plays old (event.Start caller call mem) answer new
        → memory_back answer ≡ Some back → back ≡ mem }
{}

/// Whatever frames come, a request is answered in kind. Who collects it gets the answer to what was
/// asked, unless it was refused, the talk with the server is over, no answer came yet, or it was
/// collected before.
pub fn requests_are_answered_in_kind()
    ensures handshake { (version : Version) (hello : Hello) (exchanges : List Exchange)
        (now new : Client) (answer : Reply)
        → Runs (fresh_client version hello) exchanges now
        → Plays now (event.Collect (record { 0 = 1 })) answer new
        → is_in_kind (asked_by hello) answer ≡ true }
    ensures request { (asks : Event) (what : Request) (r : ReqNo) (now new : Client)
        (answer : Reply) → WasGiven asks r now → asked_in asks ≡ Some what
        → Plays now (event.Collect r) answer new → is_in_kind what answer ≡ true }
{}

/// What ended the talk with the server first stays so for good.
pub fn first_ending_stays()
    ensures event { (old new : Client) (event : Event) (answer : Reply) (ending : Ending)
        → Plays old event answer new → old.ending ≡ Some ending → new.ending ≡ Some ending }
    ensures run { (old new : Client) (exchanges : List Exchange) (ending : Ending)
        → Runs old exchanges new → old.ending ≡ Some ending → new.ending ≡ Some ending }
{}

/// An event that is answered NotYet, Busy, Unknown or NoMemory changes nothing.
pub fn refusals_change_nothing()
    ensures { (old new : Client) (event : Event) (answer : Reply)
        → Plays old event answer new → is_refusal answer ≡ true → new ≡ old }
{}
