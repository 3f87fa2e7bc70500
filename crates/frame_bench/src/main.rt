//! Feeds frames to a framer, so that what feeding costs can be measured.
//!
//! `frame_bench COUNT WAY [PUT]` spells COUNT frames. Each has 32 bytes, or where PUT is given
//! carries PUT bytes more, 1 to 131,040. WAY is what is done with the spelled bytes: a number is
//! the size of the pieces that they are fed in (0 means all at once, and every frame is taken),
//! `copy` copies them once, and `spell` does nothing more.
#![tactic(auto)]

ghost use Rattle.std.specs.Prelude.{◌≤◌};

mod passing;
mod stream;

use passing::{Passed, Way, pass};
use std::env;
use std::process::ExitCode;

const USAGE: u8 = 64;

const FAILED: u8 = 75;

/// What the command line asks for.
#[derive(Clone, Copy)]
struct Order {
    count: u32,
    way: Way,
    put: u32,
    ghost few: { put ≤ 131040 },
}

fn way(word: &str) -> Option<Way> {
    match word {
        "copy" => Some(Way::Copy),
        "spell" => Some(Way::Spell),
        _ => Some(Way::Feed(word.parse::<usize>().ok()?)),
    }
}

/// The order that the words of the command line are, if they are one.
fn ordered(rt: &HostRuntime) -> Option<Order> {
    let Ok(args) = env::args(rt) else {
        return None;
    };
    let mut words = args.skip(1);
    let count = words.next()?.parse::<u32>().ok()?;
    let way = way(words.next()?.as_str())?;
    let put = match words.next() {
        None => 0,
        Some(word) => word.parse::<u32>().ok()?,
    };
    if words.next().is_some() || put > 131_040 {
        return None;
    }
    Some(Order { count, way, put })
}

fn main(rt: HostRuntime) -> ExitCode {
    let Some(order) = ordered(&rt) else {
        let _ = eprintln!(rt; "frame_bench: usage: frame_bench COUNT PIECE|copy|spell [PUT]");
        return ExitCode::from(USAGE);
    };
    let Ok(Passed { frames, bytes }) = pass(rt.alloc(), order.count, order.way, order.put) else {
        return ExitCode::from(FAILED);
    };
    match println!(rt; "frames {frames} bytes {bytes}") {
        Ok(()) => ExitCode::SUCCESS,
        Err(_) => ExitCode::from(FAILED),
    }
}
