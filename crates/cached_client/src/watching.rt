//! Watches: where they begin, and what their turns give.

ghost use Rattle.std.specs.Prelude.{◌≡◌, ◌≤◌, [], IfOk, IfErr, Err, if◌then◌else◌, nat_le, option_and_then};
ghost use Rattle.rev_front.specs.Passes.{IsPass, end_from};
ghost use Rattle.rev_log.specs.Logs.{Fits};
ghost use Rattle.up_api.specs.Sections.{Learns};
ghost use Rattle.select_all.specs.Listings.{listing};
ghost use Rattle.client_api.specs.declared.answers.Took.TheVariants.{Quiet};
ghost use Rattle.client_api.specs.Caches.{StartsWithin, TakesWithin};
ghost use Rattle.client_api.specs.Facts.{IsOnward};
ghost use Rattle.client_api.specs.Starts.{IsWatchAnswer, IsWatchStart};
ghost use Rattle.client_api.specs.Turns.{IsWatchTurn, watch_after};
ghost use Rattle.cached_client.specs.Turns.{moved_to};
ghost use Rattle.cached_client.specs.Caches.{KnowsOwn, LoadsBetween, ReadsFor};
ghost use Rattle.cached_client.specs.Watching.{BeginsAtEnd, IsStartLost};

use crate::answering::load;
use crate::caches::Watches;
use crate::lanes::LaneSign;
use crate::start_answers::{bare, opened, unreached};
use crate::turn_answers::rests;
use cache_hub::CatchNo;
use client_api::{Begun, ListNo, Took};
use kube_meta::Memory;
use obj_tree::Snapshot;
use select_all::Selection;
use std::alloc::Global;
use std::marker::Model;
use up_api::{LogFacts, Pass};
use watch_rules::{Start, WatchAsk};

/// A watch, up to where it is told, and what its caches have of it.
#[derive(Drop)]
pub struct Watch<L> {
    pub selection: Selection,
    pub position: u64,
    pub lane: L,
}

impl<L> Model for Watch<L> {
    ghost use Rattle.client_api.specs.Facts.{Watched};

    ghost Value = { Watched };

    ghost view = { λ w. record { selection = w.selection; position = w.position } };
}

/// Where a watch begins, and the watch.
#[tactic(auto, using(crate::proofs::CallLemmas::loads_on, crate::proofs::CallLemmas::reads_since))]
pub fn begin<N: LogFacts, C: Watches<N>>(
    alloc: Global,
    caches: &mut C,
    told: &mut Pass<N>,
    ask: &WatchAsk,
) -> Result<(Begun, Watch<C::Lane>), ListNo>
    ensures facts { C.facts caches.new ≡ C.facts caches.old }
    ensures onward { IsOnward told.old told.new }
    ensures loads { LoadsBetween told.old told.new }
    ensures knows { KnowsOwn (C.facts caches.new) told.new }
    ensures started { IfOk result (λ r. IsWatchStart N.base told.old ask.now r.0 told.new) }
    ensures watch { IfOk result (λ r. r.1 ≡ record { selection = ask.now.selection; position = r.0.at }) }
    ensures refused { IfErr result (λ no. IsWatchAnswer N.base (C.facts caches.old).window told.old ask.now (Err no) told.new) }
    ensures reads { ReadsFor ask.now.selection.resource told.old told.new (C.cached caches.old) (C.cached caches.new) }
    ensures within { C.alone → IfOk result (λ r. StartsWithin ask.now.start r.0 ((C.cached caches.new).ends ask.now.selection.resource)) }
{
    let loaded = load(caches, told);
    if let Some(no) = unreached(ask.start, loaded) {
        return Err(no);
    }
    match ask.start {
        Start::FromState(_) => begin_at_end(alloc, caches, told, &ask.selection, true),
        Start::FromHere(_) => begin_at_end(alloc, caches, told, &ask.selection, false),
        Start::FromRevision(asked) => begin_from(alloc, caches, told, &ask.selection, asked),
    }
}

// At the end of the cache, with the selected objects there where they are sent.
#[tactic(auto, using(crate::proofs::CallLemmas::knew))]
fn begin_at_end<N: LogFacts, C: Watches<N>>(
    alloc: Global,
    caches: &mut C,
    told: &mut Pass<N>,
    wanted: &Selection,
    sends: bool,
) -> Result<(Begun, Watch<C::Lane>), ListNo>
    requires knew { KnowsOwn (C.facts caches.old) told.old }
    ensures facts { C.facts caches.new ≡ C.facts caches.old }
    ensures learns { Learns told.old told.new }
    ensures lawful { IsPass Fits told.new }
    ensures knows { KnowsOwn (C.facts caches.new) told.new }
    ensures begun { IfOk result (λ r. BeginsAtEnd N.base wanted.now told.old.shown sends r.0 told.new) }
    ensures watch { IfOk result (λ r. r.1 ≡ record { selection = wanted.now; position = r.0.at }) }
    ensures refused { IfErr result (λ no. no ≡ ListNo.Memory) }
    ensures reads { ReadsFor wanted.now.resource told.old told.new (C.cached caches.old) (C.cached caches.new) }
    ensures within { C.alone → IfOk result (λ r. r.0.at ≤ (C.cached caches.new).ends wanted.now.resource) }
{
    let started = caches.start_at_end(told, wanted);
    caches.settle(told);
    let _known = told.shown();
    let (position, state, lane) = started?;
    match opening(alloc, wanted, position, &state, sends) {
        Ok(begun) => {
            let watch = watch_at(alloc, caches, wanted, position, lane)?;
            Ok((begun, watch))
        }
        Err(_) => {
            caches.close(lane);
            Err(ListNo::Memory)
        }
    }
}

// What a watch begins with at a state.
fn opening(
    alloc: Global,
    wanted: &Selection,
    at: u64,
    state: &Snapshot,
    sends: bool,
) -> Result<Begun, Memory>
    ensures { IfOk result (λ begun. begun ≡ record { at = at; rows = if sends then listing wanted.now state.now else [] }) }
{
    if sends {
        opened(alloc, wanted, at, state)
    } else {
        Ok(bare(alloc, at))
    }
}

// At a revision.
#[tactic(auto, using(crate::proofs::CallLemmas::knew))]
fn begin_from<N: LogFacts, C: Watches<N>>(
    alloc: Global,
    caches: &mut C,
    told: &mut Pass<N>,
    wanted: &Selection,
    position: u64,
) -> Result<(Begun, Watch<C::Lane>), ListNo>
    requires knew { KnowsOwn (C.facts caches.old) told.old }
    ensures facts { C.facts caches.new ≡ C.facts caches.old }
    ensures learns { Learns told.old told.new }
    ensures lawful { IsPass Fits told.new }
    ensures knows { KnowsOwn (C.facts caches.new) told.new }
    ensures begun { IfOk result (λ r. r.0 ≡ record { at = position; rows = [] }) }
    ensures watch { IfOk result (λ r. r.1 ≡ record { selection = wanted.now; position = position }) }
    ensures refused { IfErr result (IsStartLost N.base (C.facts caches.old).window wanted.now position told.new) }
    ensures reads { ReadsFor wanted.now.resource told.old told.new (C.cached caches.old) (C.cached caches.new) }
{
    let started = caches.start_from(told, wanted, position);
    caches.settle(told);
    let _known = told.shown();
    match started {
        Ok(lane) => {
            let watch = watch_at(alloc, caches, wanted, position, lane)?;
            Ok((bare(alloc, position), watch))
        }
        Err(CatchNo::Lost { at, floor }) => Err(ListNo::Expired { asked: at, floor }),
        Err(CatchNo::Memory) => Err(ListNo::Memory),
    }
}

// A watch that stands at a revision. What the caches have of it is closed where there is no memory for the watch.
fn watch_at<N: LogFacts, C: Watches<N>>(
    alloc: Global,
    caches: &C,
    wanted: &Selection,
    position: u64,
    lane: C::Lane,
) -> Result<Watch<C::Lane>, Memory>
    ensures { IfOk result (λ watch. watch ≡ record { selection = wanted.now; position = position }) }
{
    match wanted.copy(alloc) {
        Ok(selection) => Ok(Watch {
            selection,
            position,
            lane,
        }),
        Err(refused) => {
            caches.close(lane);
            Err(refused)
        }
    }
}

/// A turn of a watch. What was sent to it comes first; where nothing was, the revision that the log has reached is
/// loaded. Where it is at the watch's position the turn is quiet, unless the watch's lane is behind: such a lane calls
/// nobody any more, so the caches are asked then, also where there is nothing to tell.
#[tactic(auto, using(crate::proofs::CallLemmas::loads_none, crate::proofs::CallLemmas::loads_on, crate::proofs::CallLemmas::knew, crate::proofs::CallLemmas::reads_since))]
pub fn turn<N: LogFacts, C: Watches<N>>(
    caches: &mut C,
    told: &mut Pass<N>,
    watch: &mut Watch<C::Lane>,
    max: usize,
    ms: u64,
) -> Result<Took, Memory>
    requires max { 1 ≤ max }
    ensures facts { C.facts caches.new ≡ C.facts caches.old }
    ensures onward { IsOnward told.old told.new }
    ensures loads { LoadsBetween told.old told.new }
    ensures knows { KnowsOwn (C.facts caches.new) told.new }
    ensures watch { watch.new ≡ watch.old }
    ensures turn { IfOk result (λ took. IsWatchTurn N.base (C.facts caches.old).window told.old watch.old took told.new) }
    ensures reads { ReadsFor watch.old.selection.resource told.old told.new (C.cached caches.old) (C.cached caches.new) }
    ensures within { C.alone → IfOk result (λ took. TakesWithin took ((C.cached caches.new).ends watch.old.selection.resource)) }
{
    let sent = caches.sent(told, &mut watch.lane, &watch.selection, watch.position);
    let _met = told.shown();
    if let Some(took) = sent {
        return took;
    }
    let loaded = load(caches, told);
    if rests(watch.lane.is_behind(), loaded, watch.position, told.end()) {
        return Ok(quiet(told, watch.position));
    }
    let took = caches.turn(
        told,
        &mut watch.lane,
        &watch.selection,
        watch.position,
        max,
        ms,
    );
    caches.settle(told);
    let _known = told.shown();
    took
}

// A turn at which the watch stays where it is.
fn quiet<N: LogFacts>(told: &Pass<N>, position: u64) -> Took
    ensures { result ≡ Quiet position (nat_le position (end_from told.now.first told.now.seen)) }
{
    Took::Quiet {
        upto: position,
        reached: position <= told.end(),
    }
}

/// Leaves the watch where a turn leaves it. A watch that is lost is given back: whoever has the caches closes what they
/// have of it.
pub fn stand<L>(watch: &mut Option<Watch<L>>, took: &Took) -> Option<Watch<L>>
    ensures { watch.new ≡ option_and_then (watch_after took.now) watch.old }
{
    match took {
        Took::Events { upto, .. } | Took::Quiet { upto, .. } => {
            move_to(watch, *upto);
            None
        }
        Took::Lost { .. } => watch.take(),
    }
}

// Moves the watch to a revision.
fn move_to<L>(watch: &mut Option<Watch<L>>, upto: u64)
    ensures { watch.new ≡ moved_to upto watch.old }
{
    if let Some(watch) = watch {
        watch.position = upto;
    }
}
