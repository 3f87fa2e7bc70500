// What a caller asks of its connection's client.
ghost use Rattle.std.specs.Prelude.{◌≡◌};
ghost use Rattle.sp_world.specs.Ends.{Asks, of_client};
ghost use Rattle.sp_world.specs.Happens.{Happens};

use crate::parts::Parts;
use client_model::{Event as ClientEvent, Reply as ClientReply, Want};
use sp_base::{Call, Caller, ConnNo, ReqNo};
use sp_copy::Mem;
use world_model::{Event, Reply};

/// The world's reply where a client answers.
fn of_client(reply: ClientReply) -> Reply
    ensures { result ≡ of_client reply }
{
    match reply {
        ClientReply::NoMemory(mem) => {
            drop(mem);
            Reply::NoMemory
        }
        reply => Reply::Client(reply),
    }
}

impl Parts {
    /// The client of a connection plays an event; Closed where the connection isn't there. After
    /// NoMemory all is as it was.
    fn ask(&mut self, no: ConnNo, event: ClientEvent) -> Reply
        ensures { Asks self.old no event result self.new }
    {
        let Some(mut ends) = self.take_out(no) else {
            return Reply::Closed;
        };
        let reply = of_client(ends.client.play(event));
        self.put_back(no, ends);
        reply
    }

    /// A caller asks for a system call over a connection, and lends its memory for it.
    #[tactic(auto, using(crate::proofs::Asked::start_happens))]
    pub(crate) fn start(&mut self, no: ConnNo, caller: Caller, call: Call, mem: Mem) -> Reply
        ensures { Happens self.old (Event.Start no caller call mem) result self.new }
    {
        self.ask(no, ClientEvent::Start(caller, call, mem))
    }

    /// A caller wants a child that a cookie hands over, or a cookie to be taken back.
    #[tactic(auto, using(crate::proofs::Asked::prefork_happens))]
    pub(crate) fn prefork(&mut self, no: ConnNo, caller: Caller, want: Want) -> Reply
        ensures { Happens self.old (Event.Prefork no caller want) result self.new }
    {
        self.ask(no, ClientEvent::Prefork(caller, want))
    }

    /// A caller asks for a cookie, with which its process goes on as its next program.
    #[tactic(auto, using(crate::proofs::Asked::preexec_happens))]
    pub(crate) fn preexec(&mut self, no: ConnNo, caller: Caller) -> Reply
        ensures { Happens self.old (Event.Preexec no caller) result self.new }
    {
        self.ask(no, ClientEvent::Preexec(caller))
    }

    /// A caller asks for the answer to a request.
    #[tactic(auto, using(crate::proofs::Asked::collect_happens))]
    pub(crate) fn collect(&mut self, no: ConnNo, number: ReqNo) -> Reply
        ensures { Happens self.old (Event.Collect no number) result self.new }
    {
        self.ask(no, ClientEvent::Collect(number))
    }
}
