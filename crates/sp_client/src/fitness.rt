//! Which frames a server may send for a request, by what was asked and which needs were asked for.
ghost use Rattle.std.specs.Prelude.{◌≡◌};
ghost use Rattle.client_model.specs.Fitness.{lies_inside, may_write, is_ask_for, may_ask, fits_call, fits_request, is_error, is_response, kind_of};
ghost use Rattle.sp_client.specs.Asked.{was_asked};

use client_model::Request;
use sp_base::{Call, Need, Range};
use sp_frames::Body;

/// Whether so many bytes from an address on lie wholly inside a range. Ends may pass 2^64.
fn lies_inside(addr: u64, len: u64, range: &Range) -> bool
    ensures { result ≡ lies_inside addr len range.now }
{
    range.addr <= addr && len <= range.len && addr - range.addr <= range.len - len
}

/// Whether a call may write so many bytes from an address on.
fn may_write(call: &Call, addr: u64, len: u64) -> bool
    ensures { result ≡ may_write call.now addr len }
{
    let ranges = call.outs_allowed();
    ranges
        .slice()
        .iter()
        .any(|range| lies_inside(addr, len, range))
}

/// Whether a frame asks for exactly this need.
fn is_ask_for(need: Option<Need>, ask: &Body) -> bool
    ensures { result ≡ is_ask_for need ask.now }
{
    match (need, ask) {
        (
            Some(Need::Bytes(addr, len)),
            Body::AskBytes {
                addr: a,
                len: l,
                ..
            },
        ) => { *a == addr && *l == len }
        (Some(Need::Text(addr, limit)), Body::AskText { addr: a, max, .. }) => {
            *a == addr && *max == limit
        }
        _ => false,
    }
}

/// Whether the need of an index was asked for.
fn was_asked(asked: &[u32], index: u32) -> bool
    ensures { result ≡ was_asked asked.now index }
{
    asked.iter().any(|i| *i == index)
}

/// Whether a frame asks for the need of its index, which wasn't asked for before.
fn may_ask(call: &Call, asked: &[u32], index: u32, ask: &Body) -> bool
    ensures { result ≡ may_ask call.now asked.now index ask.now }
{
    is_ask_for(call.need_at(index), ask) && !was_asked(asked, index)
}

/// Whether the server may send this for a call.
fn fits_call(call: &Call, asked: &[u32], body: &Body) -> bool
    ensures { result ≡ fits_call call.now asked.now body.now }
{
    match body {
        Body::AskBytes { index, .. } | Body::AskText { index, .. } => {
            may_ask(call, asked, *index, body)
        }
        Body::Put { addr, bytes, .. } => may_write(call, *addr, bytes.len() as u64),
        Body::Answered(_) => true,
        Body::Refused { kind, .. } => *kind == 1,
        _ => false,
    }
}

/// Whether the server answers this to a request that isn't a call.
fn is_response(request: &Request, body: &Body) -> bool
    ensures { result ≡ is_response request.now body.now }
{
    match request {
        Request::Attach => matches!(body, Body::Hello { .. }),
        Request::Join => matches!(body, Body::Joined { .. }),
        Request::Image => matches!(body, Body::Imaged { .. }),
        Request::Prefork => matches!(body, Body::Forked { .. }),
        Request::Cancel => matches!(body, Body::Cancelled),
        Request::Preexec => matches!(body, Body::ExecReady { .. }),
        Request::Call(_) => false,
    }
}

/// The type of a request that isn't a call, as its error names it.
fn kind_of(request: &Request) -> u16
    ensures { result ≡ kind_of request.now }
{
    match request {
        Request::Prefork | Request::Cancel => 5,
        Request::Preexec => 6,
        _ => 0,
    }
}

/// Whether this is an error of a type.
fn is_error(kind: u16, body: &Body) -> bool
    ensures { result ≡ is_error kind body.now }
{
    match body {
        Body::Refused { kind: k, .. } => *k == kind,
        _ => false,
    }
}

/// Whether the server may send this for a request that has no response yet.
pub(crate) fn fits_request(request: &Request, asked: &[u32], body: &Body) -> bool
    ensures { result ≡ fits_request request.now asked.now body.now }
{
    match request {
        Request::Call(call) => fits_call(call, asked, body),
        _ => is_response(request, body) || is_error(kind_of(request), body),
    }
}
