//! What a client answers from caches, however they are held.

ghost use Rattle.std.specs.Prelude.{◌≡◌, ◌≤◌, ℕ, IfOk, IfErr, IfSome, None};
ghost use Rattle.rev_front.specs.Passes.{end_from, last_of};
ghost use Rattle.rev_log.specs.States.{IsStateAt};
ghost use Rattle.up_api.specs.Sections.{Learns, log_of};
ghost use Rattle.client_api.specs.Caches.{UnlessExact};
ghost use Rattle.client_api.specs.Facts.{HasLoaded, IsOnward};
ghost use Rattle.client_api.specs.Fresh.{IsFresh};
ghost use Rattle.client_api.specs.Gets.{IsGetAnswer};
ghost use Rattle.client_api.specs.Lists.{IsListAnswer};
ghost use Rattle.client_api.specs.Metered.{AreMetricsAnswered};
ghost use Rattle.cached_client.specs.Caches.{KnowsOwn, LoadsBetween, ReadsFor};
ghost use Rattle.cached_client.specs.Serving.{IsReached, IsRefused, IsServed, IsShown, IsUnreached, IsUnserved, needs_load};

use crate::caches::{Caches, Measures, Reads};
use crate::read_answers::{found, listed};
use crate::reads::Found;
use client_api::{Got, ListNo, Listed, too_large};
use kube_meta::{Memory, Resource};
use list_rules::{GetAsk, ListAsk};
use metrics::Metrics;
use obj_tree::Snapshot;
use select_all::Meaning;
use std::alloc::Global;
use up_api::{LogFacts, Pass};

/// One object, as it stands at a revision of the ask's meaning.
#[tactic(auto, using(crate::proofs::CallLemmas::unexact, crate::proofs::CallLemmas::unexact_ok))]
pub fn get<N: LogFacts, C: Reads<N>>(
    caches: &mut C,
    told: &mut Pass<N>,
    ask: &GetAsk,
) -> Result<Got, ListNo>
    ensures facts { C.facts caches.new ≡ C.facts caches.old }
    ensures onward { IsOnward told.old told.new }
    ensures loads { LoadsBetween told.old told.new }
    ensures knows { KnowsOwn (C.facts caches.new) told.new }
    ensures answer { IsGetAnswer N.base told.old ask.now result told.new }
    ensures reads { ReadsFor ask.now.resource told.old told.new (C.cached caches.old) (C.cached caches.new) }
    ensures within { C.alone → IfOk result (λ got. got.at ≡ (C.cached caches.new).ends ask.now.resource) }
{
    let (at, state) = read(caches, ask.resource, told, ask.meaning)?;
    found(&state, &ask.key, at)
}

/// The objects of a selection, as they stand at a revision of the ask's meaning, or a page of them.
pub fn list<N: LogFacts, C: Reads<N>>(
    alloc: Global,
    caches: &mut C,
    told: &mut Pass<N>,
    ask: &ListAsk,
) -> Result<Listed, ListNo>
    ensures facts { C.facts caches.new ≡ C.facts caches.old }
    ensures onward { IsOnward told.old told.new }
    ensures loads { LoadsBetween told.old told.new }
    ensures knows { KnowsOwn (C.facts caches.new) told.new }
    ensures answer { IsListAnswer N.base told.old ask.now result told.new }
    ensures reads { UnlessExact ask.now.meaning
        (ReadsFor ask.now.selection.resource told.old told.new (C.cached caches.old) (C.cached caches.new)) }
    ensures within { C.alone → IfOk result (λ listed. UnlessExact ask.now.meaning (listed.rev ≡ (C.cached caches.new).ends ask.now.selection.resource)) }
{
    let (at, state) = read(caches, ask.selection.resource, told, ask.meaning)?;
    Ok(listed(alloc, ask, at, state)?)
}

// The objects of a resource at a revision that will do for the meaning. What has to be loaded is loaded before any
// cache is asked.
#[tactic(auto, using(crate::proofs::CallLemmas::loads_on, crate::proofs::CallLemmas::knew, crate::proofs::CallLemmas::reads_since))]
fn read<N: LogFacts, C: Reads<N>>(
    caches: &mut C,
    resource: Resource,
    told: &mut Pass<N>,
    meaning: Meaning,
) -> Result<(u64, Snapshot), ListNo>
    ensures facts { C.facts caches.new ≡ C.facts caches.old }
    ensures onward { IsOnward told.old told.new }
    ensures loads { LoadsBetween told.old told.new }
    ensures knows { KnowsOwn (C.facts caches.new) told.new }
    ensures state { IfOk result (λ r. IsStateAt (log_of N.base told.new) resource r.0 r.1) }
    ensures fresh { IfOk result (λ r. IsFresh told.old meaning r.0 told.new) }
    ensures refused { IfErr result (IsRefused told.old meaning told.new) }
    ensures reads { UnlessExact meaning (ReadsFor resource told.old told.new (C.cached caches.old) (C.cached caches.new)) }
    ensures within { C.alone → IfOk result (λ r. UnlessExact meaning (r.0 ≡ (C.cached caches.new).ends resource)) }
{
    if let Some(no) = reach(caches, told, meaning) {
        return Err(no);
    }
    let answer = serve(caches, resource, told, meaning);
    caches.settle(told);
    let _known = told.shown();
    answer
}

// Loads the revision that the log has reached, where the meaning needs that: the most recent always does, and a
// revision that it names does where it wasn't shown yet. One that isn't reached then is refused.
#[tactic(auto, using(crate::proofs::CallLemmas::loads_none))]
fn reach<N: LogFacts, C: Caches<N>>(
    caches: &mut C,
    told: &mut Pass<N>,
    meaning: Meaning,
) -> Option<ListNo>
    ensures same { caches.new ≡ caches.old }
    ensures onward { IsOnward told.old told.new }
    ensures loads { LoadsBetween told.old told.new }
    ensures knows { KnowsOwn (C.facts caches.new) told.new }
    ensures reached { result ≡ None → IsReached told.old meaning told.new }
    ensures refused { IfSome result (IsUnreached told.old meaning told.new) }
{
    if !needs_load(meaning, told.shown()) {
        caches.meet(told);
        let _known = told.shown();
        return None;
    }
    let loaded = load(caches, told);
    too_large(meaning, loaded)
}

// Whether a read of this meaning makes a load.
fn needs_load(meaning: Meaning, shown: u64) -> bool
    ensures { result ≡ needs_load meaning shown }
{
    match meaning {
        Meaning::MostRecent => true,
        Meaning::Any => false,
        Meaning::NotOlder(asked) | Meaning::Exact(asked) => shown < asked,
    }
}

/// Loads the revision that the log has reached, and tells the pass all of the log where nobody else holds it.
#[tactic(auto, using(crate::proofs::CallLemmas::loads_one))]
pub(crate) fn load<N: LogFacts, C: Caches<N>>(caches: &mut C, told: &mut Pass<N>) -> u64
    ensures same { caches.new ≡ caches.old }
    ensures onward { IsOnward told.old told.new }
    ensures loads { LoadsBetween told.old told.new }
    ensures knows { KnowsOwn (C.facts caches.new) told.new }
    ensures loaded { HasLoaded told.old told.new }
    ensures last { last_of told.new ≡ result }
    ensures shown { result ≤ told.new.shown }
{
    let loaded = told.look();
    caches.meet(told);
    let _known = told.shown();
    loaded
}

// The objects of a resource at a revision that will do for the meaning, which was reached.
fn serve<N: LogFacts, C: Reads<N>>(
    caches: &mut C,
    resource: Resource,
    told: &mut Pass<N>,
    meaning: Meaning,
) -> Result<(u64, Snapshot), ListNo>
    requires shown { IsShown meaning told.old.shown }
    ensures facts { C.facts caches.new ≡ C.facts caches.old }
    ensures learns { Learns told.old told.new }
    ensures served { IfOk result (λ r. IsServed N.base resource meaning told.old.shown told.new r.0 r.1) }
    ensures refused { IfErr result (IsUnserved meaning told.new) }
    ensures reads { UnlessExact meaning (ReadsFor resource told.old told.new (C.cached caches.old) (C.cached caches.new)) }
    ensures within { C.alone → IfOk result (λ r. UnlessExact meaning (r.0 ≡ (C.cached caches.new).ends resource)) }
{
    match caches.find(resource, told, meaning)? {
        Found::State(at, state) => Ok((at, state)),
        Found::Older(at) => Ok((at, caches.older(resource, told, at)?)),
    }
}

/// What a monitor is told: the metrics of the caches, and then those of the log. So no cache is ahead of the revision
/// that is told.
pub fn measure<N: LogFacts, C: Measures<N>>(
    caches: &mut C,
    told: &mut Pass<N>,
) -> Result<Metrics, Memory>
    ensures facts { C.facts caches.new ≡ C.facts caches.old }
    ensures cached { C.cached caches.new ≡ C.cached caches.old }
    ensures onward { IsOnward told.old told.new }
    ensures loads { LoadsBetween told.old told.new }
    ensures knows { KnowsOwn (C.facts caches.new) told.new }
    ensures answer { AreMetricsAnswered N.base told.old result told.new }
{
    let pods = caches.metrics(Resource::Pods, told);
    let config_maps = caches.metrics(Resource::ConfigMaps, told);
    let deployments = caches.metrics(Resource::Deployments, told);
    let reached = load(caches, told);
    let seen = caches.see(told, reached);
    caches.settle(told);
    let _known = told.shown();
    let generation = seen?;
    Ok(Metrics {
        revision: told.end(),
        floor: told.floor(),
        generation,
        pods: Some(pods),
        config_maps: Some(config_maps),
        deployments: Some(deployments),
        served: None,
    })
}
