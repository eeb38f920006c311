//! What a cache answers a watch, as what a turn gives; and how far the log is seen.

ghost use Rattle.std.specs.Prelude.{◌≡◌, ◌≤◌, ◌<◌, ℕ, length, IfOk, IfErr, OnOk};
ghost use Rattle.rev_front.specs.Passes.{Pass as PassData, end_from, last_of};
ghost use Rattle.rev_log.specs.Changes.{RevisionData};
ghost use Rattle.select_all.specs.declared.selection.Selection.{Selection as SelectionData};
ghost use Rattle.up_api.specs.Sections.{Learns};
ghost use Rattle.client_api.specs.Caches.{TakesWithin};
ghost use Rattle.cached_client.specs.Watching.{IsLoadedTurn, IsLostAt, IsTold};

use crate::turn_answers::took;
use cache_hub::{CatchNo, Caught};
use client_api::Took;
use kube_meta::{Memory, Resource};
use up_api::{LogFacts, Pass, UpNo, Upstream};

/// What the cache answers a watch at a position, as what a turn gives.
pub fn turn_of<N: LogFacts>(
    told: &Pass<N>,
    position: u64,
    answer: Result<Caught, CatchNo>,
) -> Result<Took, Memory>
    ensures turn { (s : SelectionData) (r : PassData RevisionData) (window : ℕ) → last_of r ≤ r.shown → Learns r told.now →
        IfOk answer (IsTold N.base s position r.shown told.now) → IfErr answer (IsLostAt N.base window s position told.now) →
        IfOk result (λ took. IsLoadedTurn N.base window r (record { selection = s; position = position }) took told.now) }
    ensures within { (end : ℕ) → IfOk answer (λ caught. 0 < length caught.lines → caught.upto ≤ end) → IfOk result (λ took. TakesWithin took end) }
{
    match answer {
        Ok(caught) => Ok(heard(told, position, caught)),
        Err(CatchNo::Lost { at, floor }) => Ok(Took::Lost { at, floor }),
        Err(CatchNo::Memory) => Err(Memory),
    }
}

/// What the cache tells a watch at a position, as what a turn gives.
pub fn heard<N: LogFacts>(told: &Pass<N>, position: u64, caught: Caught) -> Took
    ensures turn { (s : SelectionData) (r : PassData RevisionData) (window : ℕ) → last_of r ≤ r.shown → Learns r told.now → IsTold N.base s position r.shown told.now caught →
        IsLoadedTurn N.base window r (record { selection = s; position = position }) result told.now }
    ensures within { (end : ℕ) → (0 < length caught.lines → caught.upto ≤ end) → TakesWithin result end }
{
    let seen = told.end();
    let Caught { upto, lines } = caught;
    took(position, upto, lines, seen)
}

/// Sees all of the log by the beginning of a feed at a revision that was shown, which is let go. Answers the log's
/// generation then.
pub fn see_from<N: LogFacts, U: Upstream<N>>(
    up: &mut U,
    told: &mut Pass<N>,
    reached: u64,
) -> Result<u64, Memory>
    requires shown { reached ≤ told.old.shown }
    ensures learns { Learns told.old told.new }
    ensures fresh { OnOk result (reached ≤ end_from told.new.first told.new.seen) }
    ensures generation { IfOk result (λ generation. generation ≡ told.new.gen) }
    ensures own { U.own up.new ≡ U.own up.old }
    ensures history { U.history up.new ≡ U.history up.old }
    ensures reads { U.reads up.new ≡ U.reads up.old }
{
    match up.begin(Resource::Pods, reached, told) {
        Ok(feed) => Ok(feed.gen_),
        Err(UpNo::Compacted { .. }) => Ok(told.look_gen()),
        Err(UpNo::Memory) => Err(Memory),
        Err(UpNo::Future { .. } | UpNo::Cut { .. }) => unreachable!(),
    }
}
