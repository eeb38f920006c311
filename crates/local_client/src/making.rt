//! New caches of a new log.

ghost use Rattle.std.specs.Prelude.{◌≡◌, ◌≤◌, ◌⊎◌, [], false, Ok, IfOk, OnOk, OnErr};
ghost use Rattle.rev_front.specs.Passes.{empty_log, idle_author, pass_from, whole_right};
ghost use Rattle.up_api.specs.Settings.{AreInRange};
ghost use Rattle.local_client.specs.Caches.{window_in};

use crate::sole::SoleCaches;
use cached_client::{CacheState, OfResource, SeenWindow};
use kube_meta::Memory;
use rev_front::{Author, Blank};
use rev_log::Revision;
use std::alloc::Global;
use up_api::{LogFacts, Pass, Settings};
use up_store::Store;

/// The store of a new log, with its caches, a pass that knows it whole, and the right to change it.
pub fn new_caches<N: LogFacts>(
    alloc: Global,
    blank: Blank<Revision>,
    settings: &Settings,
) -> Result<(SoleCaches<N>, Pass<N>, Author<N>), Memory>
    requires name { blank ≡ N.log }
    requires base { N.base ≡ [] }
    requires own { N.mirror ≡ false }
    requires settings { AreInRange settings.now }
    ensures log { IfOk result (λ r. r.0.store.whole ≡ empty_log N.log.first) }
    ensures history { IfOk result (λ r. r.0.store.history ≡ settings.now.history) }
    ensures window { IfOk result (λ r. window_in r.0.caches ≡ settings.now.window) }
    ensures pass { IfOk result (λ r. r.1 ≡ pass_from (empty_log N.log.first) r.1.seat) }
    ensures author { IfOk result (λ r. r.2 ≡ idle_author whole_right) }
{
    let (mut store, author) = Store::new(alloc, blank, settings.history)?;
    let pods = cache(alloc, settings, &mut store);
    let config_maps = cache(alloc, settings, &mut store);
    let deployments = cache(alloc, settings, &mut store);
    let told = store.pass();
    let ((pods, config_maps), (deployments, (store, told))) = both(
        both(pods, config_maps),
        both(deployments, both(Ok(store), told)),
    )?;
    let caches = SoleCaches {
        alloc,
        store,
        pods,
        config_maps,
        deployments,
    };
    Ok((caches, told, author))
}

// A cache of one resource of the store.
fn cache<N: LogFacts, One: OfResource>(
    alloc: Global,
    settings: &Settings,
    store: &mut Store<N>,
) -> Result<CacheState<N, One, SeenWindow>, Memory>
    requires settings { AreInRange settings.now }
    ensures whole { store.new.whole ≡ store.old.whole }
    ensures history { store.new.history ≡ store.old.history }
    ensures window { IfOk result (λ cache. cache.hub.cache.ring.window ≡ settings.now.window) }
{
    let pass = store.pass()?;
    CacheState::new(alloc, store, pass, settings)
}

// What was made of both, or want of memory where it was of one. So caches are let go in one place, and not behind each
// call that may lack memory.
fn both<A: Drop, B: Drop>(
    first: Result<A, Memory>,
    second: Result<B, Memory>,
) -> Result<(A, B), Memory>
    ensures made { IfOk result (λ made. (first ≡ Ok made.0) × (second ≡ Ok made.1)) }
    ensures missed { OnErr result (OnOk first ⊥ ⊎ OnOk second ⊥) }
{
    match (first, second) {
        (Ok(first), Ok(second)) => Ok((first, second)),
        _ => Err(Memory),
    }
}
