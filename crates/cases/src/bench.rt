//! Times parts of the cache beside plain fellows in the same run: for each step the nanoseconds that it and its plain
//! fellow take are told, and their ratio, as the best of some runs that take turns. Or counts what a subject does at a
//! small size.

mod figures;
mod hub;
mod lanes;
mod looks;
mod sides;
mod store;

use crate::rows::Wording;
use kube_meta::Memory;
use std::alloc::Global;

/// Times a subject, or has it count.
pub fn run_subject(
    rt: &HostRuntime,
    alloc: Global,
    subject: &str,
    timed: bool,
    told: &mut Wording,
) -> Result<(), Memory> {
    match subject {
        "hub" => hub::run(rt, alloc, timed, told),
        "store" => store::run(rt, alloc, timed, told),
        _ => {
            told.show(&format_args!("nothing is timed by the name {subject}\n"));
            Ok(())
        }
    }
}
