//! What is asked of the server, and what its frames say.
ghost use Rattle.std.specs.Prelude.{◌≡◌};
ghost use Rattle.client_model.specs.Requests.{call_body, want_body, wanted};
ghost use Rattle.client_model.specs.State.{HasName, asked_by, said_by};
ghost use Rattle.sp_frames.specs.Grammar.{BodyFits};
ghost use Rattle.sp_frames.specs.declared.frame.Body.TheVariants as body;

use client_model::{Hello, Request, Want};
use sp_base::Call;
use sp_frames::Body;

/// What a handshake asks.
pub(crate) fn asked_by(hello: &Hello) -> Request
    ensures { result ≡ asked_by hello.now }
{
    match hello {
        Hello::Guest(_) => Request::Attach,
        Hello::Join(..) => Request::Join,
        Hello::Image(..) => Request::Image,
    }
}

/// What the frame of a handshake says.
#[tactic(auto, using(crate::proofs::Fit::guest_fits, crate::proofs::Fit::join_fits, crate::proofs::Fit::image_fits))]
pub(crate) fn said_by(hello: Hello) -> Body
    requires { HasName hello }
    ensures says { result ≡ said_by hello }
    ensures fits { BodyFits result }
{
    match hello {
        Hello::Guest(name) => Body::Guest { name },
        Hello::Join(cookie, name) => Body::Join { cookie, name },
        Hello::Image(cookie, name) => Body::Image { cookie, name },
    }
}

/// What the frame of a system call says.
#[tactic(auto, using(crate::proofs::Fit::call_fits))]
pub(crate) fn call_body(call: &Call) -> Body
    ensures says { result ≡ call_body call.now }
    ensures fits { BodyFits result }
{
    let words = call.words();
    let _words = words.slice();
    Body::Sys {
        num: call.num(),
        words,
    }
}

/// What is asked by a want.
pub(crate) fn wanted(want: Want) -> Request
    ensures { result ≡ wanted want }
{
    match want {
        Want::Make => Request::Prefork,
        Want::Cancel(_) => Request::Cancel,
    }
}

/// What the frame of a want says.
#[tactic(auto, using(crate::proofs::Fit::prefork_fits, crate::proofs::Fit::cancel_fits))]
pub(crate) fn want_body(want: Want) -> Body
    ensures says { result ≡ want_body want }
    ensures fits { BodyFits result }
{
    match want {
        Want::Make => Body::Prefork,
        Want::Cancel(cookie) => Body::Cancel { cookie },
    }
}

/// What the frame says by which a process is to go on as its next program.
#[tactic(auto, using(crate::proofs::Fit::preexec_fits))]
pub(crate) fn preexec_body() -> Body
    ensures says { result ≡ body.Preexec }
    ensures fits { BodyFits result }
{
    Body::Preexec
}
