ghost use Rattle.std.specs.Prelude.{◌≡◌, ◌<◌, ◌∷◌, ◌++◌, [], Some, false};
ghost use Rattle.client_model.specs.Fitness.{may_come};
ghost use Rattle.client_model.specs.Run.{has_response};
ghost use Rattle.client_model.specs.State.{fresh_request};
ghost use Rattle.sp_client.specs.Asked.{was_asked};
ghost use Rattle.sp_copy.specs.Delivering.{put_piece};

use crate::fitness::fits_request;
use arrayvec::ArrayVec;
use client_model::{Request, Response};
use sp_copy::{Delivery, Mem};
use sp_frames::Body;
use std::marker::Model;

/// A request that isn't collected yet, with the memory that its caller lent.
#[derive(Drop)]
pub(crate) struct OpenRequest {
    request: Request,
    delivery: Delivery,
    asked: ArrayVec<u32, 8>,
    response: Option<Response>,
}

impl Model for OpenRequest {
    ghost use Rattle.client_model.specs.Code.{open_code};
    ghost use Rattle.client_model.specs.State.{Open};
    ghost use Rattle.sp_client.specs.Asked.{AskedOnce};

    ghost Value = { Open };

    ghost coded = { open_code };

    ghost view = { λ x. record {
      request = x.request;
      delivery = x.delivery;
      asked = x.asked.items;
      response = x.response;
    } };

    ghost invariant = { λ x. AskedOnce x.asked.items };
}

impl OpenRequest {
    /// A request that was just sent, with the memory that is lent for it.
    pub(crate) fn sent(request: Request, mem: Mem) -> OpenRequest
        ensures { result ≡ fresh_request request mem }
    {
        OpenRequest {
            request,
            delivery: Delivery::into(mem),
            asked: ArrayVec::new(),
            response: None,
        }
    }

    /// What the server answered; None before it did.
    pub(crate) fn response(&self) -> Option<Response>
        ensures { result ≡ self.now.response }
    {
        self.response
    }

    /// Whether the server answered.
    pub(crate) fn has_response(&self) -> bool
        ensures { result ≡ has_response self.now }
    {
        self.response.is_some()
    }

    /// The caller's memory, as it is.
    pub(crate) fn mem(&self) -> &Mem
        ensures { result.now ≡ self.now.delivery.mem }
    {
        &self.delivery.mem
    }

    /// What was delivered for it.
    pub(crate) fn into_delivery(self) -> Delivery
        ensures { result ≡ self.delivery }
    {
        self.delivery
    }

    /// Whether the server may send this for it.
    pub(crate) fn may_come(&self, body: &Body) -> bool
        ensures { result ≡ may_come (Some self.now) body.now }
    {
        self.response.is_none() && fits_request(&self.request, self.asked.as_slice(), body)
    }

    /// Notes that the server asked for the need of an index, for the first time.
    #[tactic(auto, using(crate::proofs::AskedLaws::asked_more))]
    pub(crate) fn note(&mut self, index: u32)
        requires index { index < 2 }
        requires new { was_asked self.old.asked index ≡ false }
        ensures { self.new ≡ record self.old { asked = self.old.asked ++ index ∷ [] } }
    {
        self.asked.push(index);
    }

    /// Writes bytes into the caller's memory; where it has no place for them, the answer becomes
    /// EFAULT.
    pub(crate) fn put(&mut self, addr: u64, bytes: &[u8])
        ensures { self.new ≡ record self.old {
          delivery = put_piece self.old.delivery (record { addr = addr; bytes = bytes.now });
        } }
    {
        self.delivery.put(addr, bytes);
    }

    /// Keeps the server's response.
    pub(crate) fn respond(&mut self, response: Response)
        ensures { self.new ≡ record self.old { response = Some response } }
    {
        self.response = Some(response);
    }
}
