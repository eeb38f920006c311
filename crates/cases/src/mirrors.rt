//! Cases of mirrors, of peers and of clusters: what they hear of the bytes of connections, and what they have then.

mod clusters;
mod follows;
mod links;
mod words;

use crate::mirrors::clusters::Clusters;
use crate::mirrors::links::Links;
use crate::rows::{Lines, Tally, run_rows};
use kube_meta::Memory;
use std::alloc::Global;
use std::sync::Wait;

/// Makes the steps of a file: of clusters where its name says so, and else of peers.
pub fn run_mirrors<R: Wait + Copy>(
    rt: R,
    alloc: Global,
    lines: Lines<'_>,
    tally: &mut Tally,
) -> Result<(), Memory> {
    if lines.file == "mirrors/clusters.txt" {
        run_rows(alloc, lines, &mut Clusters { rt }, tally)
    } else {
        run_rows(alloc, lines, &mut Links { rt }, tally)
    }
}
