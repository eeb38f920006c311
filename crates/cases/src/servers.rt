//! Servers with many connections in threads, which may wait for each other; mirrors and their peers.

mod board;
mod case;
mod clusters;
mod ends;
mod mirroring;
mod serving;

use crate::Host;
use crate::rows::{Tally, Wording};
use crate::servers::case::tell_unknown;
use crate::servers::serving::serve_case;
use kube_meta::Memory;
use std::alloc::Global;

/// Runs the cases of a file, each of which begins with a line `case NAME`. What comes out otherwise is told.
pub fn run_servers<R: Host>(
    rt: R,
    alloc: Global,
    text: &str,
    tally: &mut Tally,
) -> Result<(), Memory> {
    for case in text.split("\ncase ").skip(1) {
        run_server(rt, alloc, case, tally)?;
    }
    Ok(())
}

// Runs a case, whose first line is its name.
fn run_server<R: Host>(rt: R, alloc: Global, case: &str, tally: &mut Tally) -> Result<(), Memory> {
    let (name, _) = case.split_once('\n').unwrap_or((case, ""));
    let mut told = Wording::new(alloc);
    tell_unknown(case, &mut told);
    serve_case(rt, alloc, case, &mut told)?;
    let others = told.whole()?;
    tally.take_case((name, "a server"), others.as_str());
    Ok(())
}
