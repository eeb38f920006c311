//! Sessions that break off at one place after the other.

use crate::rows::{Wording, compare, number, split};
use crate::sessions::case::Case;
use crate::sessions::serving::{Kind, Outcome, Way, serve};
use crate::sessions::trying::PIECE;
use kube_meta::Memory;
use sess_serve::SessionEnd;
use std::alloc::Global;
use std::sync::Wait;

/// More calls of a sink than a session makes.
const CALLS: u64 = 1_000_000;

/// Serves a case so that it breaks off at each place in turn, and tells what comes out otherwise: `input` where its
/// input ends behind each number of its bytes; `source` where that gives a byte a call, and fails at each call; each
/// with what these sessions come to; and `sink` where that takes so many bytes a call, and fails at each.
pub fn try_break<R: Wait + Copy + Drop>(
    rt: R,
    alloc: Global,
    kind: Kind,
    case: &Case<'_>,
    words: &str,
    told: &mut Wording,
) -> Result<(), Memory> {
    let (place, rest) = split(words);
    if place == "sink" {
        let step = (number(rest) as usize).max(1);
        let amiss = first_call_amiss(rt, alloc, kind, case, step)?;
        if let Some(call) = amiss {
            told.show(&format_args!("    otherwise where call {call} of its sink fails\n"));
        }
        return Ok(());
    }
    let mut is = Wording::new(alloc);
    tell_runs(rt, alloc, kind, case, place == "source", &mut is)?;
    compare(rest.as_bytes(), is.whole()?.as_bytes(), told);
    Ok(())
}

/// Sessions that came to the same: how many they are, their end, and how many bytes they wrote.
#[derive(Clone, Copy)]
struct Run {
    times: u64,
    end: SessionEnd,
    length: usize,
}

impl Run {
    // Tells them as `104 CutShort 0`.
    fn tell(self, told: &mut Wording) {
        told.show(&format_args!("{} {:?} {}", self.times, self.end, self.length));
    }
}

// Tells what sessions come to whose input ends, or whose source fails, behind each number of bytes in turn.
fn tell_runs<R: Wait + Copy + Drop>(
    rt: R,
    alloc: Global,
    kind: Kind,
    case: &Case<'_>,
    fails: bool,
    told: &mut Wording,
) -> Result<(), Memory> {
    let mut last = broken_at(rt, alloc, kind, case, fails, 0)?;
    for at in 0..case.sent.bytes.as_slice().len() {
        let next = broken_at(rt, alloc, kind, case, fails, at.saturating_add(1))?;
        if next.end == last.end && next.length == last.length {
            last.times = last.times.saturating_add(1);
        } else {
            last.tell(told);
            told.add(", ");
            last = next;
        }
    }
    last.tell(told);
    Ok(())
}

// What a session comes to that breaks off behind so many bytes of its input. What it wrote is a beginning of what is
// wanted, or else it is told to be longer than anything.
fn broken_at<R: Wait + Copy + Drop>(
    rt: R,
    alloc: Global,
    kind: Kind,
    case: &Case<'_>,
    fails: bool,
    at: usize,
) -> Result<Run, Memory> {
    let whole = case.sent.bytes.as_slice();
    let read_fault = if fails { Some(at as u64) } else { None };
    let way = Way {
        read: 1,
        read_fault,
        ..Way::in_pieces(PIECE)
    };
    let input = if fails {
        whole
    } else {
        whole.get(..at).unwrap_or(whole)
    };
    served(rt, alloc, kind, case, input, way)
}

// What a session comes to.
fn served<R: Wait + Copy + Drop>(
    rt: R,
    alloc: Global,
    kind: Kind,
    case: &Case<'_>,
    input: &[u8],
    way: Way,
) -> Result<Run, Memory> {
    let outcome = serve(rt, alloc, kind, case.lines, input, way)?;
    let run = run_of(case, &outcome);
    drop(outcome);
    Ok(run)
}

fn run_of(case: &Case<'_>, outcome: &Outcome) -> Run {
    let bytes = outcome.bytes();
    let is_wanted = case.wanted.bytes.as_slice().starts_with(bytes);
    Run {
        times: 1,
        end: outcome.end,
        length: if is_wanted { bytes.len() } else { usize::MAX },
    }
}

// The first call of a sink at which a session that fails there doesn't come out as it should: its end is WriteFault,
// and what is written is what the calls before took, of which each took at most so many bytes. Where the session makes
// no such call, all that is wanted is written.
fn first_call_amiss<R: Wait + Copy + Drop>(
    rt: R,
    alloc: Global,
    kind: Kind,
    case: &Case<'_>,
    step: usize,
) -> Result<Option<u64>, Memory> {
    let sent = case.sent.bytes.as_slice();
    let mut before = 0usize;
    for call in 0..CALLS {
        let way = Way {
            write: step,
            write_fault: Some(call),
            ..Way::in_pieces(PIECE)
        };
        let run = served(rt, alloc, kind, case, sent, way)?;
        let most = if call == 0 {
            0
        } else {
            before.saturating_add(step)
        };
        if run.length < before || most < run.length {
            return Ok(Some(call));
        }
        if run.end != SessionEnd::WriteFault {
            let is_whole = run.length == case.wanted.bytes.as_slice().len();
            return Ok(if is_whole { None } else { Some(call) });
        }
        before = run.length;
    }
    Ok(Some(CALLS))
}
