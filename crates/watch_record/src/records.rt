//! Records.

ghost use Rattle.std.specs.Prelude.{◌+◌, ◌^◌, ◌<◌, ◌≤◌, All, length};
ghost use Rattle.std.proofs.Props.{props};
ghost use Rattle.rev_front.specs.Passes.{FitFrom};
ghost use Rattle.rev_log.specs.Logs.{Fits};

use kube_meta::Text;
use rev_log::Revision;
use watch_rules::WatchAsk;

/// A watch as it was recorded: the revisions that were accepted above `first`, where the log is taken to be empty, and
/// the body's lines. Each revision has a change.
#[derive(Debug, Drop)]
pub struct Record {
    pub log: Vec<Revision>,
    /// The revision below the log's first one.
    pub first: u64,
    /// The greatest revision up to which the log was compacted, or `first`.
    pub floor: u64,
    /// How many of a resource's changes its watch cache keeps at least.
    pub window: u64,
    /// What the watch asks for.
    pub ask: WatchAsk,
    /// The lines of the body, without their line feeds.
    pub lines: Vec<Text>,
    ghost first_in_range: { (1 ≤ first) × (first ≤ 2 ^ 62) },
    ghost window_in_range: { 1 ≤ window },
    ghost fitting: { FitFrom Fits first log.items } by { Prim.hlevel props },
    ghost some_changes: { All (λ revision. 0 < length revision.changes) log.items } by { Prim.hlevel props },
    ghost ends: { first + length log.items ≤ 2 ^ 62 },
    ghost floor_in_range: { (first ≤ floor) × (floor ≤ first + length log.items) },
}
