//! How a client that is alone asks its caches.

ghost use Rattle.std.specs.Prelude.{◌≡◌, ◌≤◌, ◌<◌, length, IfOk, IfErr};
ghost use Rattle.up_api.specs.Sections.{Learns};
ghost use Rattle.select_all.specs.declared.selection.Meaning.TheVariants.{Any};
ghost use Rattle.cached_client.specs.Caches.{ReadsFor};
ghost use Rattle.cached_client.specs.Serving.{IsServed};
ghost use Rattle.cached_client.specs.Watching.{IsLostAt, IsTold};
ghost use Rattle.local_client.specs.Caches.{facts_in, state_in, window_in};

use crate::sole::SoleCaches;
use cache_hub::{CatchNo, Caught};
use cached_client::{Caches, Found, Measures, Reads, Turn, Watches, see_from, turn_of};
use client_api::{ListNo, Took};
use kube_meta::{Memory, Resource};
use metrics::CacheMetrics;
use obj_tree::Snapshot;
use select_all::{Meaning, Selection};
use up_api::{LogFacts, Pass, UpNo};

impl<N: LogFacts> SoleCaches<N> {
    // The objects of a resource at the end of its cache, once that was brought to all that the caller was shown.
    fn state_at_end(
        &mut self,
        resource: Resource,
        told: &mut Pass<N>,
    ) -> Result<(u64, Snapshot), Memory>
        ensures facts { facts_in self.new ≡ facts_in self.old }
        ensures learns { Learns told.old told.new }
        ensures served { IfOk result (λ r. IsServed N.base resource Any told.old.shown told.new r.0 r.1) }
        ensures reads { ReadsFor resource told.old told.new (state_in self.old) (state_in self.new) }
        ensures within { IfOk result (λ r. r.0 ≡ (state_in self.new).ends resource) }
    {
        match resource {
            Resource::Pods => self.pods.state_at_end(&mut self.store, told),
            Resource::ConfigMaps => self.config_maps.state_at_end(&mut self.store, told),
            Resource::Deployments => self.deployments.state_at_end(&mut self.store, told),
        }
    }

    // What a watch at a position is told from the ring of its resource's cache, once that was brought to all that the
    // caller was shown. The cache has no lane, under this number or any other, and was told the time already.
    fn turn_by_ring(
        &mut self,
        told: &mut Pass<N>,
        selection: &Selection,
        at: u64,
        max: usize,
    ) -> Result<Caught, CatchNo>
        requires max { 1 ≤ max }
        ensures facts { facts_in self.new ≡ facts_in self.old }
        ensures learns { Learns told.old told.new }
        ensures told { IfOk result (IsTold N.base selection.now at told.old.shown told.new) }
        ensures lost { IfErr result (IsLostAt N.base (window_in self.old.caches) selection.now at told.new) }
        ensures reads { ReadsFor selection.now.resource told.old told.new (state_in self.old) (state_in self.new) }
        ensures within { IfOk result (λ caught. 0 < length caught.lines → caught.upto ≤ (state_in self.new).ends selection.now.resource) }
    {
        let turn = Turn {
            lane: 0,
            at,
            max,
            ms: 0,
        };
        match selection.resource {
            Resource::Pods => self
                .pods
                .turn_by_ring(&mut self.store, told, selection, turn),
            Resource::ConfigMaps => self
                .config_maps
                .turn_by_ring(&mut self.store, told, selection, turn),
            Resource::Deployments => self
                .deployments
                .turn_by_ring(&mut self.store, told, selection, turn),
        }
    }
}

impl<N: LogFacts> Caches<N> for SoleCaches<N> {
    ghost use Rattle.local_client.specs.Caches.{facts_in, state_in};

    ghost alone = { Unit {0} };

    ghost facts = { facts_in };

    ghost cached = { state_in };

    fn meet(&mut self, told: &mut Pass<N>) {
        self.store.tell(told);
    }

    fn settle(&mut self, told: &mut Pass<N>) {
        let _before = told.shown();
        self.store.tell(told);
        let _after = told.shown();
    }
}

impl<N: LogFacts> Reads<N> for SoleCaches<N> {
    fn find(
        &mut self,
        resource: Resource,
        told: &mut Pass<N>,
        meaning: Meaning,
    ) -> Result<Found, ListNo> {
        match resource {
            Resource::Pods => self.pods.find(&mut self.store, told, meaning),
            Resource::ConfigMaps => self.config_maps.find(&mut self.store, told, meaning),
            Resource::Deployments => self.deployments.find(&mut self.store, told, meaning),
        }
    }

    fn older(
        &mut self,
        resource: Resource,
        told: &mut Pass<N>,
        at: u64,
    ) -> Result<Snapshot, ListNo> {
        match self.store.old_state(resource, at, told) {
            Ok(old) => Ok(old.made()?),
            Err(UpNo::Compacted { asked, floor }) => Err(ListNo::Expired { asked, floor }),
            Err(UpNo::Memory) => Err(ListNo::Memory),
            Err(UpNo::Future { .. } | UpNo::Cut { .. }) => unreachable!(),
        }
    }
}

impl<N: LogFacts> Watches<N> for SoleCaches<N> {
    // the caches have nothing of a watch: it is told from the ring alone
    type Lane = ();

    fn start_at_end(
        &mut self,
        told: &mut Pass<N>,
        selection: &Selection,
    ) -> Result<(u64, Snapshot, ()), ListNo> {
        let (at, state) = self.state_at_end(selection.resource, told)?;
        Ok((at, state, ()))
    }

    fn start_from(
        &mut self,
        told: &mut Pass<N>,
        selection: &Selection,
        at: u64,
    ) -> Result<(), CatchNo> {
        match selection.resource {
            Resource::Pods => self.pods.follows_from(&mut self.store, told, selection, at),
            Resource::ConfigMaps => self
                .config_maps
                .follows_from(&mut self.store, told, selection, at),
            Resource::Deployments => self
                .deployments
                .follows_from(&mut self.store, told, selection, at),
        }
    }

    fn sent(
        &mut self,
        _told: &mut Pass<N>,
        _lane: &mut (),
        _selection: &Selection,
        _position: u64,
    ) -> Option<Result<Took, Memory>> {
        None
    }

    fn close(&self, _lane: ()) {}

    fn turn(
        &mut self,
        told: &mut Pass<N>,
        _lane: &mut (),
        selection: &Selection,
        position: u64,
        max: usize,
        _ms: u64,
    ) -> Result<Took, Memory> {
        let answer = self.turn_by_ring(told, selection, position, max);
        turn_of(told, position, answer)
    }
}

impl<N: LogFacts> Measures<N> for SoleCaches<N> {
    fn metrics(&mut self, resource: Resource, told: &mut Pass<N>) -> CacheMetrics {
        match resource {
            Resource::Pods => self.pods.metrics(told),
            Resource::ConfigMaps => self.config_maps.metrics(told),
            Resource::Deployments => self.deployments.metrics(told),
        }
    }

    fn see(&mut self, told: &mut Pass<N>, reached: u64) -> Result<u64, Memory> {
        see_from(&mut self.store, told, reached)
    }
}
