//! The tree of a cache's objects beside a plain map of std, and what selections find in one beside a walk.

use crate::bench::figures::{Race, time_race};
use crate::bench::looks::run_looks;
use crate::bench::sides::{Sides, TURNS};
use crate::rows::{Wording, object};
use encode_once::Shown;
use kube_meta::{Memory, Resource, Row};
use std::alloc::Global;
use std::sync::Arc;

/// Counts what is done and found at 300 objects; or times it, at 1,000 and at 100,000.
pub fn run(rt: &HostRuntime, alloc: Global, timed: bool, told: &mut Wording) -> Result<(), Memory> {
    for objects in [300, 1_000, 100_000] {
        if timed == (objects > 300) {
            let mut sides = Sides::new(alloc, objects)?;
            run_turns(rt, &mut sides, timed, told)?;
        }
    }
    run_looks(rt, alloc, timed, told)
}

/// Times all turns at one size, or tells how often each does something on either side.
fn run_turns(
    rt: &HostRuntime,
    sides: &mut Sides,
    timed: bool,
    told: &mut Wording,
) -> Result<(), Memory> {
    let steps = sides.due();
    let runs = if steps > 1_000 { 5 } else { 50 };
    told.show(&format_args!("of {steps} objects:\n"));
    for (turn, words) in TURNS {
        sides.turn = turn;
        if timed {
            time_race(rt, words, sides, (runs, steps), told)?;
        } else {
            sides.ready()?;
            let (step, plain) = (sides.step(), sides.plain());
            told.show(&format_args!("{words}: {step} times in a tree, {plain} in a map\n"));
        }
    }
    Ok(())
}

/// The pod of a number, of so many, with these labels; ten are on each node.
pub fn shown(
    alloc: Global,
    number: usize,
    count: usize,
    labels: &str,
) -> Result<Arc<Shown>, Memory> {
    let name = format!(in alloc; "web-6d4b75cb6d-{}", 1_000_000usize.wrapping_add(number))?;
    let node = format!(in alloc; "node-{}", number % (count / 10).max(1))?;
    let place = ("default", name.as_str());
    let obj = object(alloc, Resource::Pods, place, node.as_str(), labels)?;
    let obj = Arc::new(alloc, obj)?;
    Shown::new(alloc, Row { obj, rev: 1 })
}
