//! Whether a case comes out as it is wanted, and if not, what comes out.

ghost use Rattle.std.specs.Prelude.{◌≤◌, ◌^◌};

use crate::rows::{Wording, compare, number, split, words_of};
use crate::sessions::breaks::try_break;
use crate::sessions::case::Case;
use crate::sessions::serving::{Kind, Outcome, Way, serve};
use crate::sessions::sockets::reads_back;
use edge_io::MemSink;
use kube_meta::Memory;
use load_gen::run_load;
use std::alloc::Global;
use std::sync::Wait;

/// The most bytes that are read and written at once.
pub const PIECE: usize = 65_536;

/// What comes out otherwise than the lines of a case want it, with a kind of client; nothing, where all is as it is
/// wanted.
pub fn others_of<R: Wait + Copy + Drop>(
    rt: R,
    alloc: Global,
    kind: Kind,
    lines: &str,
) -> Result<String, Memory> {
    let mut told = Wording::new(alloc);
    let case = Case::read(alloc, lines, &mut told);
    let tried = try_case(rt, alloc, kind, &case, &mut told);
    drop(case);
    match tried {
        Ok(()) => told.whole(),
        Err(no) => Err(no),
    }
}

// Makes a load, or serves a session, in pieces of either length, and then so that it breaks off, which is no matter of
// the client: a shared one is enough.
fn try_case<R: Wait + Copy + Drop>(
    rt: R,
    alloc: Global,
    kind: Kind,
    case: &Case<'_>,
    told: &mut Wording,
) -> Result<(), Memory> {
    if !case.is_whole() {
        return Err(Memory);
    }
    if let Some(numbers) = words_of(case.lines, "load") {
        return try_load(alloc, numbers, case.wanted.bytes.as_slice(), told);
    }
    for step in [1, PIECE] {
        try_session(rt, alloc, kind, case, step, told)?;
    }
    if let Kind::Local = kind {
        return Ok(());
    }
    for line in case.lines.lines() {
        if let Some(words) = line.strip_prefix("breaks ") {
            try_break(rt, alloc, kind, case, words, told)?;
        }
    }
    Ok(())
}

// Compares what the load generator prints, which serves a load with a local client.
fn try_load(alloc: Global, numbers: &str, wanted: &[u8], told: &mut Wording) -> Result<(), Memory> {
    let (from, requests) = split(numbers);
    let mut sink = MemSink::new(7, Vec::new(alloc));
    match run_load(
        alloc,
        number(from).min(1 << 62),
        number(requests).min(100_000),
        &mut sink,
    ) {
        Ok(()) => compare(wanted, sink.bytes(), told),
        Err(_) => told.add("    the load came to no end\n"),
    }
    Ok(())
}

// Compares what comes back of a session that is served in such pieces, and its end.
fn try_session<R: Wait + Copy + Drop>(
    rt: R,
    alloc: Global,
    kind: Kind,
    case: &Case<'_>,
    step: usize,
    told: &mut Wording,
) -> Result<(), Memory> {
    let way = Way::in_pieces(step);
    let outcome = serve(rt, alloc, kind, case.lines, case.sent.bytes.as_slice(), way)?;
    let compared = tell_outcome(alloc, case, &outcome, told);
    drop(outcome);
    compared
}

fn tell_outcome(
    alloc: Global,
    case: &Case<'_>,
    outcome: &Outcome,
    told: &mut Wording,
) -> Result<(), Memory> {
    compare(case.wanted.bytes.as_slice(), outcome.bytes(), told);
    if let Some(at) = case.frames_at {
        let frames = outcome.bytes().get(at..).unwrap_or(b"");
        if !reads_back(alloc, case.lines, frames) {
            told.add("    a WebSocket's client reads other messages\n");
        }
    }
    let mut end = Wording::new(alloc);
    end.debug(&outcome.end);
    let wanted = words_of(case.lines, "end").unwrap_or("");
    compare(wanted.as_bytes(), end.whole()?.as_bytes(), told);
    Ok(())
}
