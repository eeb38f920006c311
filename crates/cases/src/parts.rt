//! Steps on one part: texts that are read, logs and their passes, rings, trees, lanes.

mod lanes;
mod passes;
mod rings;
mod texts;
mod trees;

use crate::parts::lanes::Lanes;
use crate::parts::passes::Passes;
use crate::parts::rings::Rings;
use crate::parts::texts::Texts;
use crate::parts::trees::Trees;
use crate::rows::{Lines, Steps, Tally, run_rows};
use kube_meta::Memory;
use std::alloc::Global;

/// Makes the steps of a file on the part that its name says. One that names no part is a mismatch.
pub fn run_parts(alloc: Global, lines: Lines<'_>, tally: &mut Tally) -> Result<(), Memory> {
    match lines.file {
        "texts.txt" => run_on(alloc, lines, Texts, tally),
        "passes.txt" => run_on(alloc, lines, Passes, tally),
        "rings.txt" => run_on(alloc, lines, Rings::new(alloc)?, tally),
        "trees.txt" => run_on(alloc, lines, Trees::new(alloc)?, tally),
        "lanes.txt" => run_on(alloc, lines, Lanes::new(alloc), tally),
        _ => {
            tally.count(false);
            Ok(())
        }
    }
}

/// Makes the steps of a file on a part that stands until its last line.
fn run_on<S: Steps + Drop>(
    alloc: Global,
    lines: Lines<'_>,
    mut part: S,
    tally: &mut Tally,
) -> Result<(), Memory> {
    run_rows(alloc, lines, &mut part, tally)
}
