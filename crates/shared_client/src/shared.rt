//! How one of many clients asks the caches: each call is one section under the lock of one cache, or of the store.

ghost use Rattle.rev_front.specs.Passes.{last_of};
ghost use Rattle.std.specs.Prelude.{◌≡◌, ◌≤◌, IfOk, IfErr, IfSome};
ghost use Rattle.up_api.specs.Sections.{Learns};
ghost use Rattle.select_all.specs.declared.selection.Selection.{Selection as SelectionData};
ghost use Rattle.watch_lane.specs.Batches.{IsBatch};
ghost use Rattle.cached_client.specs.Watching.{IsLoadedTurn, IsLostAt, IsTold};

use crate::cacher::Cacher;
use crate::lanes::{next_batch, received};
use bells::{Bell, NO_PEER};
use cache_hub::{CatchNo, Caught};
use cached_client::{
    Caches, Found, Measures, Reads, Turn, Watch, WatchLane, Watches, heard, see_from, turn_of,
};
use client_api::{ListNo, Took};
use kube_meta::{Memory, Resource};
use metrics::CacheMetrics;
use obj_tree::Snapshot;
use select_all::{Meaning, Selection};
use std::alloc::Global;
use std::sync::{Arc, Wait};
use up_api::{LogFacts, Pass, UpNo};
use up_store::ReadDoor;
use watch_lane::Batch;

// How often a turn looks for what is under way to its lane, and for how many milliseconds it rests behind the first
// look; each other rest takes twice as long as the one before.
const MOST_LOOKS: u64 = 7;

const LOOK_MS: u64 = 10;

// Calls this of the cache of a resource, which is locked meanwhile.
macro_rules! with_cache {
    ($cacher:expr, $resource:expr, $call:ident($($given:expr),*)) => {
        match $resource {
            Resource::Pods => $cacher.pods.lock(&$cacher.rt).$call($($given),*),
            Resource::ConfigMaps => $cacher.config_maps.lock(&$cacher.rt).$call($($given),*),
            Resource::Deployments => $cacher.deployments.lock(&$cacher.rt).$call($($given),*),
        }
    };
}

/// The caches of a `Cacher` as one client has them, with a door of its own through which the store is read, and the
/// bell that ends the rests of its watches, if there is one.
#[derive(Drop)]
pub struct SharedCaches<'a, N: LogFacts, R: Wait + Copy> {
    pub(crate) cacher: &'a Cacher<N, R>,
    pub(crate) door: ReadDoor<N, R>,
    pub(crate) bell: Option<Arc<Bell>>,
}

impl<N: LogFacts, R: Wait + Copy> SharedCaches<'_, N, R> {
    /// Gives the lanes that are opened from now on this bell.
    pub fn ring_by(&mut self, bell: Option<Arc<Bell>>) {
        self.bell = bell;
    }

    /// Closes the lane of a watch, if there is one.
    pub fn end(&self, watch: Option<Watch<WatchLane<N>>>) {
        if let Some(watch) = watch {
            let Watch {
                selection: _,
                position: _,
                lane,
            } = watch;
            self.close(lane);
        }
    }

    // What a watch of this selection is told at a turn: `None` where a batch lies in its lane.
    fn ask_cache(
        &mut self,
        told: &mut Pass<N>,
        wanted: &Selection,
        turn: Turn,
    ) -> Result<Option<Caught>, CatchNo>
        requires max { 1 ≤ turn.max }
        ensures learns { Learns told.old told.new }
        ensures told { IfOk result (λ caught. IfSome caught (IsTold N.base wanted.now turn.at told.old.shown told.new)) }
        ensures lost { IfErr result (IsLostAt N.base N.window wanted.now turn.at told.new) }
    {
        let (cacher, door) = (self.cacher, &mut self.door);
        with_cache!(cacher, wanted.resource, turn(door, told, wanted, turn))
    }

    // The same from the ring alone.
    fn ask_ring(
        &mut self,
        told: &mut Pass<N>,
        selection: &Selection,
        turn: Turn,
    ) -> Result<Caught, CatchNo>
        requires max { 1 ≤ turn.max }
        ensures learns { Learns told.old told.new }
        ensures told { IfOk result (IsTold N.base selection.now turn.at told.old.shown told.new) }
        ensures lost { IfErr result (IsLostAt N.base N.window selection.now turn.at told.new) }
    {
        let (cacher, door) = (self.cacher, &mut self.door);
        with_cache!(
            cacher,
            selection.resource,
            turn_by_ring(door, told, selection, turn)
        )
    }

    // The next batch of a lane that isn't behind, where whoever feeds the caches is on the way with the log up to a
    // revision and brings one soon. So where much is written each watch waits at its own bell, and not all at the
    // cache's lock. Whether the caches are fed, and the rings, are read before the lane is: what was told is seen, and
    // what is told later rings behind the count (`Bell`).
    fn under_way(
        &self,
        lane: &mut WatchLane<N>,
        selection: &Selection,
        position: u64,
        upto: u64,
    ) -> Option<Batch<N>>
        ensures batch { IfSome result (IsBatch N.base) }
        ensures goes_on { IfSome result (λ batch. (batch.from ≡ position) × (batch.selection ≡ selection.now)) }
    {
        let Some(bell) = &self.bell else {
            return None;
        };
        let mut ms = LOOK_MS;
        for _ in 0..MOST_LOOKS {
            let count = bell.count();
            let is_all = self.cacher.is_fed(upto) || lane.out.is_behind();
            let batch = next_batch(&mut lane.out, selection, position);
            if batch.is_some() || is_all {
                return batch;
            }
            bell.rest(&self.cacher.rt, count, &NO_PEER, ms);
            ms = ms.saturating_mul(2);
        }
        None
    }

    // A turn at which a batch came into the lane since the lane was asked. It was pushed under the lock, so it is
    // there; were it not, the ring would tell what it told.
    fn ask_lane(
        &mut self,
        told: &mut Pass<N>,
        lane: &mut WatchLane<N>,
        selection: &Selection,
        turn: Turn,
    ) -> Result<Took, Memory>
        requires max { 1 ≤ turn.max }
        requires loaded { last_of told.old ≤ told.old.shown }
        ensures learns { Learns told.old told.new }
        ensures turn { IfOk result (λ took. IsLoadedTurn N.base N.window told.old (record { selection = selection.now; position = turn.at }) took told.new) }
    {
        match next_batch(&mut lane.out, selection, turn.at) {
            Some(batch) => received(self.cacher.alloc, told, batch),
            None => {
                let answer = self.ask_ring(told, selection, turn);
                turn_of(told, turn.at, answer)
            }
        }
    }
}

impl<N: LogFacts, R: Wait + Copy> Caches<N> for SharedCaches<'_, N, R> {
    ghost use Rattle.std.specs.Prelude.{None};

    // others hold the log too
    ghost alone = { ⊥ };

    ghost facts = { λ _. record {
      own = None;
      history = None;
      window = N.window;
      pods_time = None;
      config_maps_time = None;
      deployments_time = None;
    } };

    ghost cached = { λ _. record { reads = None; ends = λ _. 0 } };

    fn meet(&mut self, _told: &mut Pass<N>) {}

    fn settle(&mut self, _told: &mut Pass<N>) {}
}

impl<N: LogFacts, R: Wait + Copy> Reads<N> for SharedCaches<'_, N, R> {
    fn find(
        &mut self,
        resource: Resource,
        told: &mut Pass<N>,
        meaning: Meaning,
    ) -> Result<Found, ListNo> {
        let (cacher, door) = (self.cacher, &mut self.door);
        with_cache!(cacher, resource, find(door, told, meaning))
    }

    // No cache is locked meanwhile, so that nobody waits for an older state that is made of the log; no clause says
    // that.
    fn older(
        &mut self,
        resource: Resource,
        told: &mut Pass<N>,
        at: u64,
    ) -> Result<Snapshot, ListNo> {
        match self.door.state_at(resource, at, told) {
            Ok(state) => Ok(state),
            Err(UpNo::Compacted { asked, floor }) => Err(ListNo::Expired { asked, floor }),
            Err(UpNo::Memory) => Err(ListNo::Memory),
            Err(UpNo::Future { .. } | UpNo::Cut { .. }) => unreachable!(),
        }
    }
}

impl<N: LogFacts, R: Wait + Copy> Watches<N> for SharedCaches<'_, N, R> {
    type Lane = WatchLane<N>;

    fn start_at_end(
        &mut self,
        told: &mut Pass<N>,
        selection: &Selection,
    ) -> Result<(u64, Snapshot, WatchLane<N>), ListNo> {
        let (cacher, door, bell) = (self.cacher, &mut self.door, &self.bell);
        with_cache!(
            cacher,
            selection.resource,
            start_at_end(door, told, selection, bell)
        )
    }

    fn start_from(
        &mut self,
        told: &mut Pass<N>,
        selection: &Selection,
        at: u64,
    ) -> Result<WatchLane<N>, CatchNo> {
        let (cacher, door, bell) = (self.cacher, &mut self.door, &self.bell);
        with_cache!(
            cacher,
            selection.resource,
            start_from(door, told, selection, at, bell)
        )
    }

    fn sent(
        &mut self,
        told: &mut Pass<N>,
        lane: &mut WatchLane<N>,
        selection: &Selection,
        position: u64,
    ) -> Option<Result<Took, Memory>> {
        match next_batch(&mut lane.out, selection, position) {
            Some(batch) => Some(received(self.cacher.alloc, told, batch)),
            None => None,
        }
    }

    fn close(&self, lane: WatchLane<N>) {
        let WatchLane {
            resource,
            id,
            out: _,
        } = lane;
        with_cache!(self.cacher, resource, close(id))
    }

    fn turn(
        &mut self,
        told: &mut Pass<N>,
        lane: &mut WatchLane<N>,
        selection: &Selection,
        position: u64,
        max: usize,
        ms: u64,
    ) -> Result<Took, Memory> {
        let upto = told.shown();
        if let Some(batch) = self.under_way(lane, selection, position, upto) {
            return received(self.cacher.alloc, told, batch);
        }
        let turn = Turn {
            lane: lane.id,
            at: position,
            max,
            ms,
        };
        match self.ask_cache(told, selection, turn) {
            Ok(Some(caught)) => Ok(heard(told, position, caught)),
            Ok(None) => self.ask_lane(told, lane, selection, turn),
            Err(CatchNo::Lost { at, floor }) => Ok(Took::Lost { at, floor }),
            Err(CatchNo::Memory) => Err(Memory),
        }
    }
}

impl<N: LogFacts, R: Wait + Copy> Measures<N> for SharedCaches<'_, N, R> {
    fn metrics(&mut self, resource: Resource, told: &mut Pass<N>) -> CacheMetrics {
        with_cache!(self.cacher, resource, metrics(told))
    }

    fn see(&mut self, told: &mut Pass<N>, reached: u64) -> Result<u64, Memory> {
        see_from(&mut self.door, told, reached)
    }
}
