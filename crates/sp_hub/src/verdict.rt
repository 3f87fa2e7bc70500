ghost use Rattle.std.specs.Prelude.{◌≡◌, IsTrue, Option, Some, None, length};
ghost use Rattle.std.specs.Option.{option_copied};
ghost use Rattle.kern_model.specs.Journal.{state_after};
ghost use Rattle.sp_base.specs.declared.need.Need.{Need};
ghost use Rattle.sp_fork.specs.Jar.{cancellable, redeemable};
ghost use Rattle.sp_fork.specs.declared.unused.CookieKind.TheVariants as kind;
ghost use Rattle.sp_frames.specs.Grammar.{is_answer, is_text_answer};
ghost use Rattle.hub_model.specs.State.{is_live, is_fresh, is_draining};
ghost use Rattle.hub_model.specs.Verdict.{body_verdict, call_verdict, cancel_verdict};
ghost use Rattle.hub_model.specs.Verdict.{copy_by_error, copy_verdict, error_in, fork_verdict};
ghost use Rattle.hub_model.specs.Verdict.{guest_verdict, index_in, is_copy_of, need_verdict};
ghost use Rattle.hub_model.specs.Verdict.{ready_verdict, request_verdict, takeover_verdict};
ghost use Rattle.hub_model.specs.Verdict.{verdict_of};
ghost use Rattle.hub_model.specs.declared.verdict.Verdict.TheVariants as verdict;

use crate::connection::Connection;
use hub_model::{Condition, OPEN_CALLS, OpenCall, Verdict};
use kern_calls::Kernel;
use sp_base::{Call, ConnNo, Cookie, Errno, Need, ReqNo, SpError, Words};
use sp_fork::{CookieKind, Cookies, Unused};
use sp_frames::{Body, Frame};

/// What becomes of a system call.
fn on_call(connection: &Connection, num: u32, words: &Words) -> Verdict
    ensures { result ≡ call_verdict connection.now num words.now }
{
    if connection.condition() == Condition::Fresh {
        return Verdict::Malformed;
    }
    let Ok(call) = Call::of_words(num, words) else {
        return Verdict::Malformed;
    };
    if (21..=33).contains(&num) {
        Verdict::Malformed
    } else if !matches!(connection.condition(), Condition::Live(_)) {
        Verdict::Refused(SpError::InExec)
    } else if connection.open_count() as u64 >= OPEN_CALLS {
        Verdict::Refused(SpError::TryAgain)
    } else {
        Verdict::Task(call)
    }
}

/// What becomes of a guest's handshake.
fn on_guest(kernel: &Kernel, connection: &Connection) -> Verdict
    ensures { result ≡ guest_verdict (state_after kernel.now.items) connection.now }
{
    if connection.condition() != Condition::Fresh {
        Verdict::Malformed
    } else if kernel.is_full() {
        Verdict::Refused(SpError::ProcFull)
    } else {
        Verdict::Attach
    }
}

/// What becomes of a handshake by a cookie: the verdict where the cookie is an unused one.
fn on_takeover(connection: &Connection, cookie: Option<Unused>, verdict: Verdict) -> Verdict
    ensures { result ≡ takeover_verdict connection.now cookie verdict }
{
    if connection.condition() != Condition::Fresh {
        Verdict::Malformed
    } else if cookie.is_none() {
        Verdict::Refused(SpError::BadCookie)
    } else {
        verdict
    }
}

/// What becomes of a child's handshake.
fn on_join(cookies: &Cookies, connection: &Connection, cookie: Cookie) -> Verdict
    ensures { result ≡ takeover_verdict connection.now (redeemable cookies.now cookie kind.Fork)
        (verdict.Join cookie) }
{
    let unused = cookies.redeemable(cookie, CookieKind::Fork);
    on_takeover(connection, unused, Verdict::Join(cookie))
}

/// What becomes of the handshake of a process's next program.
fn on_image(cookies: &Cookies, connection: &Connection, cookie: Cookie) -> Verdict
    ensures { result ≡ takeover_verdict connection.now (redeemable cookies.now cookie kind.Exec)
        (verdict.Image cookie) }
{
    let unused = cookies.redeemable(cookie, CookieKind::Exec);
    on_takeover(connection, unused, Verdict::Image(cookie))
}

/// What becomes of a fork.
fn on_fork(kernel: &Kernel, cookies: &Cookies, connection: &Connection) -> Verdict
    ensures { result ≡ fork_verdict (state_after kernel.now.items) cookies.now connection.now }
{
    if connection.condition() == Condition::Fresh {
        Verdict::Malformed
    } else if !matches!(connection.condition(), Condition::Live(_)) {
        Verdict::Refused(SpError::InExec)
    } else if cookies.full() {
        Verdict::Refused(SpError::TryAgain)
    } else if kernel.is_full() {
        Verdict::Refused(SpError::ProcFull)
    } else {
        Verdict::Fork
    }
}

/// What becomes of a process that is to go on as its next program.
fn on_ready(cookies: &Cookies, connection: &Connection) -> Verdict
    ensures { result ≡ ready_verdict cookies.now connection.now }
{
    if connection.condition() == Condition::Fresh {
        Verdict::Malformed
    } else if !matches!(connection.condition(), Condition::Live(_)) {
        Verdict::Refused(SpError::InExec)
    } else if connection.open_count() != 0 || cookies.full() {
        Verdict::Refused(SpError::TryAgain)
    } else {
        Verdict::Ready
    }
}

/// What becomes of a cookie that is to be taken back.
fn on_cancel(cookies: &Cookies, no: ConnNo, connection: &Connection, cookie: Cookie) -> Verdict
    ensures { result ≡ cancel_verdict connection.now (cancellable cookies.now cookie no)
        (verdict.Cancel cookie) }
{
    if connection.condition() == Condition::Fresh {
        Verdict::Malformed
    } else if cookies.cancellable(cookie, no).is_none() {
        Verdict::Refused(SpError::BadCookie)
    } else {
        Verdict::Cancel(cookie)
    }
}

/// Whether these bytes are what was asked for, or none with an error.
fn is_copy_of(need: Need, body: &Body) -> bool
    ensures { result ≡ is_copy_of need body.now }
{
    match (need, body) {
        (Need::Bytes(_, len), Body::GotBytes { err, bytes, .. }) => {
            let none = *err == 14 && bytes.is_empty();
            none || (*err == 0 && bytes.len() as u64 == len)
        }
        (Need::Text(_, limit), Body::GotText { err, bytes, .. }) => {
            let none = (*err == 14 || *err == 63) && bytes.is_empty();
            let text = !bytes.slice().contains(&0);
            (*err == 0 || none) && text && (bytes.len() as u64) < limit
        }
        _ => false,
    }
}

/// A copy, by its error number.
fn by_error(err: u32) -> Verdict
    ensures { result ≡ copy_by_error err }
{
    match err {
        0 => Verdict::Copy,
        14 => Verdict::CopyFault(Errno::Efault),
        _ => Verdict::CopyFault(Errno::Enametoolong),
    }
}

/// What becomes of a copy of an index and with an error, where that is the index of what was asked
/// for.
fn on_need(need: Option<Need>, index: u32, err: u32, body: &Body) -> Verdict
    requires index { index_in body.now ≡ Some index }
    requires error { error_in body.now ≡ err }
    ensures { result ≡ need_verdict need index body.now }
{
    match need {
        Some(need) if is_copy_of(need, body) => by_error(err),
        _ => Verdict::Malformed,
    }
}

/// What becomes of a copy of an index and with an error, for the call of its number.
#[tactic(auto, using(crate::proofs::Copies::other_index))]
fn on_copy(task: Option<&OpenCall>, index: u32, err: u32, body: &Body) -> Verdict
    requires index { index_in body.now ≡ Some index }
    requires error { error_in body.now ≡ err }
    ensures { result ≡ copy_verdict (option_copied task.entry) body.now }
{
    match task {
        Some(
            OpenCall::Gathers {
                call,
                got,
                asked: true,
            },
        ) => {
            if index as usize == got.len() {
                on_need(call.need_at(index), index, err, body)
            } else {
                Verdict::Malformed
            }
        }
        _ => Verdict::Malformed,
    }
}

/// What becomes of a request, whose number must be above the last one.
fn on_request(connection: &Connection, number: ReqNo, verdict: Verdict) -> Verdict
    ensures { result ≡ request_verdict connection.now number.0 verdict }
{
    if number.0 <= connection.last() {
        Verdict::Malformed
    } else {
        verdict
    }
}

/// What becomes of a frame, by its body, on a connection that takes frames.
fn on_body(
    kernel: &Kernel,
    cookies: &Cookies,
    no: ConnNo,
    connection: &Connection,
    frame: &Frame,
) -> Verdict
    ensures { result ≡ body_verdict (state_after kernel.now.items) cookies.now no connection.now
        frame.now.number.0 frame.now.body }
{
    let number = frame.number;
    match &frame.body {
        Body::Guest { .. } => on_request(connection, number, on_guest(kernel, connection)),
        Body::Join { cookie, .. } => {
            on_request(connection, number, on_join(cookies, connection, *cookie))
        }
        Body::Image { cookie, .. } => {
            on_request(connection, number, on_image(cookies, connection, *cookie))
        }
        Body::Sys { num, words } => on_request(
            connection,
            number,
            on_call(connection, *num, words),
        ),
        Body::Prefork => on_request(connection, number, on_fork(kernel, cookies, connection)),
        Body::Cancel { cookie } => {
            on_request(
                connection,
                number,
                on_cancel(cookies, no, connection, *cookie),
            )
        }
        Body::Preexec => on_request(connection, number, on_ready(cookies, connection)),
        Body::GotBytes { index, err, .. } => {
            on_copy(connection.call(number), *index, *err, &frame.body)
        }
        Body::GotText { index, err, .. } => {
            on_copy(connection.call(number), *index, *err, &frame.body)
        }
        _ => Verdict::Malformed,
    }
}

/// What becomes of a frame of a connection.
pub(crate) fn on_frame(
    kernel: &Kernel,
    cookies: &Cookies,
    no: ConnNo,
    connection: &Connection,
    frame: &Frame,
) -> Verdict
    ensures { result ≡ verdict_of (state_after kernel.now.items) cookies.now no connection.now
        frame.now }
{
    if connection.condition() == Condition::Draining {
        Verdict::Closed
    } else {
        on_body(kernel, cookies, no, connection, frame)
    }
}
