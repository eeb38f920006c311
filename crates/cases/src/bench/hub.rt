//! A cache with lanes beside one without, at 1,000 and at 100,000 objects, and lists and pages of its store beside
//! copies of a list.

ghost use Rattle.std.specs.Prelude.{◌≡◌, [], false};

use crate::bench::figures::{Race, tell_pair, time_race};
use crate::bench::lanes::{Bench, Kind, Read};
use crate::rows::Wording;
use crate::scripts::Scene;
use kube_meta::Memory;
use rev_front::{Blank, blank};
use rev_log::Revision;
use std::alloc::Global;
use std::marker::Brand;
use up_api::LogFacts;

/// How the store and the cache are set. The cache asks for one revision at a time.
const SETTINGS: &str = "settings --window 2000 --lane 256 --history 1000000 --batch 1";

/// Lanes of a kind, by their numbers, and how changes are called that are taken in behind them.
type Lanes = (Kind, usize, usize, &'static str);

/// Lanes of fifty nodes.
const FEW: Lanes = (Kind::Node, 0, 50, "apply with 50 lanes");

/// Lanes of nodes, of which changes touch the first fifty.
const BY_NODE: [Lanes; 3] = [
    (Kind::Node, 0, 0, "apply without lanes"),
    FEW,
    (Kind::Node, 50, 1_000, "apply with 1000 lanes"),
];

/// Lanes of namespaces, and of all beside them.
const BY_KIND: [Lanes; 3] = [
    (Kind::All, 0, 0, "apply to no lane"),
    (
        Kind::Namespace,
        0,
        5_000,
        "apply beside 5000 lanes of a namespace each",
    ),
    (Kind::All, 0, 10_000, "apply to 10000 more of all"),
];

/// Counts what 50 lanes are told of a cache of 300 objects; or times one of 1,000 and one of 100,000.
pub fn run(rt: &HostRuntime, alloc: Global, timed: bool, told: &mut Wording) -> Result<(), Memory> {
    for objects in [300, 1_000, 100_000] {
        if timed == (objects > 300) {
            run_over::<Brand>(rt, alloc, blank(alloc, 1)?, timed, objects, told)?;
        }
    }
    Ok(())
}

/// Runs a cache of so many objects over a new log.
fn run_over<N: LogFacts>(
    rt: &HostRuntime,
    alloc: Global,
    made: Blank<Revision>,
    timed: bool,
    objects: usize,
    told: &mut Wording,
) -> Result<(), Memory>
    requires name { made ≡ N.log }
    requires base { N.base ≡ [] }
    requires own { N.mirror ≡ false }
{
    let scene: Scene<N> = Scene::new(alloc, made, SETTINGS)?;
    let mut bench = Bench {
        read: Read::List,
        behind: 0,
        objects,
        alloc,
        scene,
        plain: Vec::new(alloc),
        lanes: Vec::new(alloc),
    };
    let ran = run_on(rt, &mut bench, timed, told);
    drop(bench);
    ran
}

fn run_on<N: LogFacts>(
    rt: &HostRuntime,
    bench: &mut Bench<N>,
    timed: bool,
    told: &mut Wording,
) -> Result<(), Memory> {
    bench.fill()?;
    if !timed {
        open(bench, FEW)?;
        let _took = bench.changes(rt, 200)?;
        let lines = bench.drain();
        told.show(&format_args!("hub: 200 changes gave 50 lanes {lines} lines\n"));
        let held = bench.held();
        told.show(&format_args!(
            "hub: a store, its history, a cache and a list hold 300 objects {held} times\n"
        ));
        return Ok(());
    }
    if bench.objects > 1_000 {
        report_changes(rt, bench, &BY_NODE, (3, 10_000), told)?;
    } else {
        report_changes(rt, bench, &BY_KIND, (20, 10), told)?;
    }
    report_reads(rt, bench, told)
}

fn open<N: LogFacts>(bench: &mut Bench<N>, (kind, from, to, _): Lanes) -> Result<(), Memory> {
    for number in from..to {
        bench.open(kind, number)?;
    }
    Ok(())
}

/// Times so many changes behind each of these lanes and those before, and tells the best of some runs, beside the best
/// of all so far.
fn report_changes<N: LogFacts>(
    rt: &HostRuntime,
    bench: &mut Bench<N>,
    all: &[Lanes],
    (runs, many): (usize, usize),
    told: &mut Wording,
) -> Result<(), Memory> {
    let mut plain = u64::MAX;
    for lanes in all {
        open(bench, *lanes)?;
        let step = best(rt, bench, runs, many)?;
        plain = plain.min(step);
        tell_pair(lanes.3, (step, plain), many as u64, told);
    }
    Ok(())
}

/// What so many changes take in the best of some runs.
fn best<N: LogFacts>(
    rt: &HostRuntime,
    bench: &mut Bench<N>,
    runs: usize,
    many: usize,
) -> Result<u64, Memory> {
    let mut best = u64::MAX;
    for _ in 0..runs {
        best = best.min(bench.changes(rt, many)?);
        let _lines = bench.drain();
    }
    Ok(best)
}

/// Times lists and pages of a store that keeps 2,000 revisions: at its floor, half way and at its end. Half way they
/// are made by 1,000 changes of a copy of the floor's rows. Tells the best of each.
fn report_reads<N: LogFacts>(
    rt: &HostRuntime,
    bench: &mut Bench<N>,
    told: &mut Wording,
) -> Result<(), Memory> {
    let _took = bench.changes(rt, 2_000)?;
    let _lines = bench.drain();
    let floor = bench.scene.told.shown().saturating_sub(2_000);
    let _ = bench.scene.compact(floor);
    for (behind, list, page) in [
        (2_000u64, "list at the floor, each row", "page at the floor"),
        (1_000, "list half way, each row", "page half way"),
        (0, "list at the end, each row", "page at the end"),
    ] {
        bench.behind = behind;
        bench.read = Read::List;
        let rows = bench.plain();
        time_race(rt, list, bench, (20, rows), told)?;
        bench.read = Read::Page;
        time_race(rt, page, bench, (20, 1), told)?;
    }
    Ok(())
}
