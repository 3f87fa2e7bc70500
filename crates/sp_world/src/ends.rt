// How frames move over a link.
ghost use Rattle.sp_world.specs.Happens.{Happens};

use crate::link::Link;
use crate::parts::Parts;
use sp_base::ConnNo;
use sp_client::ClientCore;
use world_model::{Event, Reply};

/// The client and the link of a connection, taken out of their tables.
#[derive(Drop)]
pub(crate) struct Ends {
    pub(crate) client: ClientCore,
    pub(crate) link: Link,
}

impl Parts {
    /// The client sends its oldest frame.
    pub(crate) fn from_client(&mut self, no: ConnNo) -> Reply
        ensures { Happens self.old (Event.FromClient no) result self.new }
    {
        let Some(mut ends) = self.take_out(no) else {
            return Reply::Closed;
        };
        let reply = ends.link.send_up(&mut ends.client);
        self.put_back(no, ends);
        reply
    }

    /// The oldest frame that is under way to the server comes there.
    pub(crate) fn to_server(&mut self, no: ConnNo, salt: u64) -> Reply
        ensures { Happens self.old (Event.ToServer no salt) result self.new }
    {
        let Some(mut ends) = self.take_out(no) else {
            return Reply::Closed;
        };
        let reply = ends.link.bring_up(&mut self.hub, no, salt);
        self.put_back(no, ends);
        reply
    }

    /// The server sends its oldest frame for a connection.
    pub(crate) fn from_server(&mut self, no: ConnNo) -> Reply
        ensures { Happens self.old (Event.FromServer no) result self.new }
    {
        let Some(mut ends) = self.take_out(no) else {
            return Reply::Closed;
        };
        let reply = ends.link.send_down(&mut self.hub, no);
        self.put_back(no, ends);
        reply
    }

    /// The oldest frame that is under way to the client comes there.
    pub(crate) fn to_client(&mut self, no: ConnNo) -> Reply
        ensures { Happens self.old (Event.ToClient no) result self.new }
    {
        let Some(mut ends) = self.take_out(no) else {
            return Reply::Closed;
        };
        let reply = ends.link.bring_down(&mut ends.client);
        self.put_back(no, ends);
        reply
    }
}
