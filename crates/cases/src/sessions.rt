//! Whole sessions: what a client sends, how the server is set, and what the client gets back, byte for byte, with the
//! end of the session. Each is served with each kind of client, in pieces of 1 and of 65,536 bytes.

mod breaks;
mod bytes;
mod case;
mod clock;
mod serving;
mod sockets;
mod trying;
mod wanted;

use crate::rows::{Tally, words_of};
use crate::sessions::serving::Kind;
use crate::sessions::trying::others_of;
use kube_meta::Memory;
use std::alloc::Global;
use std::sync::Wait;

/// Runs the cases of a file, each of which begins with a line `case NAME`.
pub fn run_sessions<R: Wait + Copy + Drop>(
    rt: R,
    alloc: Global,
    text: &str,
    tally: &mut Tally,
) -> Result<(), Memory> {
    for case in text.split("\ncase ").skip(1) {
        run_session(rt, alloc, case, tally)?;
    }
    Ok(())
}

// Runs the case of a session with each kind of client; a load has one of its own.
fn run_session<R: Wait + Copy + Drop>(
    rt: R,
    alloc: Global,
    case: &str,
    tally: &mut Tally,
) -> Result<(), Memory> {
    run_case(rt, alloc, Kind::Local, case, tally)?;
    if words_of(case, "load").is_some() {
        return Ok(());
    }
    run_case(rt, alloc, Kind::Shared, case, tally)
}

// Runs a case, whose first line is its name, and counts it. What comes out otherwise is told.
fn run_case<R: Wait + Copy + Drop>(
    rt: R,
    alloc: Global,
    kind: Kind,
    case: &str,
    tally: &mut Tally,
) -> Result<(), Memory> {
    let (name, lines) = case.split_once('\n').unwrap_or((case, ""));
    let others = others_of(rt, alloc, kind, lines)?;
    tally.take_case((name, kind.word()), others.as_str());
    Ok(())
}
