//! The cache with its lanes.

ghost use Rattle.std.specs.Prelude.{◌≡◌, ◌≤◌, ◌<◌, ◌↔◌, ℕ, max, List, [], length, None, Some, Err, IfOk, IfErr, IfSome, IfNone, IsSome, IsTrue, OnOk, OnErr};
ghost use Rattle.kube_meta.specs.Rows.{RowData};
ghost use Rattle.rev_log.specs.Logs.{Log};
ghost use Rattle.rev_log.specs.States.{IsStateAt};
ghost use Rattle.up_api.specs.Feeds.{IsFed, IsHistory};
ghost use Rattle.up_api.specs.Sections.{StandsAt, log_of, raised_once};
ghost use Rattle.up_api.specs.Settings.{AreInRange};
ghost use Rattle.cache_core.specs.Caches.{RefusesAt};
ghost use Rattle.cache_core.specs.Feeding.{IsBuilt, IsRebuilt, Stays};
ghost use Rattle.cache_hub.specs.Catching.{IsCaught, RefusesCatch};
ghost use Rattle.cache_hub.specs.Hubs.{StandsFor, OnlyLanes, HasCaughtUp};
ghost use Rattle.cache_hub.specs.OpenLanes.{AreTold, AreChanged, GetsAll, GoesAlong, SetsLane, count_behind, newly_open, left_behind, open_at};
ghost use Rattle.cache_hub.specs.declared.catching.CatchNo.TheVariants.{Lost};

use crate::catching::{CatchNo, Caught, first_lines};
use crate::lanes::Lanes;
use bells::{Bell, Calls};
use cache_core::{AtNo, Cache};
use kube_meta::{Memory, Resource};
use metrics::CacheMetrics;
use obj_tree::Snapshot;
use select_all::Selection;
use std::alloc::Global;
use std::marker::Model;
use std::sync::Arc;
use up_api::{Held, History, LogFacts, Pass, Polled, Settings};
use watch_lane::LaneOut;

/// The cache of one resource, with the lanes of those who watch it.
#[derive(Drop)]
pub struct Hub<N: LogFacts> {
    alloc: Global,
    cache: Cache,
    rebuilds: u64,
    // How many events polls gave it, up to 2^64 - 1. Only a monitor is told of it.
    received: u64,
    lanes: Lanes<N>,
}

impl<N: LogFacts> Model for Hub<N> {
    ghost use Rattle.cache_hub.specs.Hubs.{HubData};

    ghost Value = { HubData };

    ghost view = { λ h. record { cache = h.cache; rebuilds = h.rebuilds; lanes = h.lanes } };
}

impl<N: LogFacts> Hub<N> {
    /// The cache that a history of the resource makes, without lanes. Each lane will have room for `settings.lane`
    /// batches.
    pub fn new(
        alloc: Global,
        resource: Resource,
        history: History,
        settings: &Settings,
        told: &mut Pass<N>,
    ) -> Result<Hub<N>, Memory>
        requires settings { AreInRange settings.now }
        requires history { IsHistory (log_of N.base told.old) told.old.floor resource history }
        ensures told { told.new ≡ told.old }
        ensures built { IfOk result (λ hub. IsBuilt resource history settings.now hub.cache) }
        ensures empty { IfOk result (λ hub. (hub.rebuilds ≡ 0) × (hub.lanes ≡ record { room = settings.now.lane; all = [] })) }
        ensures stands { IfOk result (λ hub. StandsAt (λ log. StandsFor log hub) N.base told.new hub.cache.end) }
    {
        let _known = told.shown();
        let cache = Cache::new(alloc, resource, history, settings)?;
        Ok(Hub {
            alloc,
            cache,
            rebuilds: 0,
            received: 0,
            lanes: Lanes::new(alloc, settings.lane),
        })
    }

    /// The floor of the ring: from this revision on a watch may start or catch up.
    pub fn floor(&self) -> u64
        ensures { result ≡ self.now.cache.ring.floor }
    {
        self.cache.floor()
    }

    /// The revision up to which the cache stands for the log.
    pub fn end(&self) -> u64
        ensures { result ≡ self.now.cache.end }
    {
        self.cache.end()
    }

    /// What a monitor is told of it. `cuts` is how often its feed was found cut, which it can't know itself.
    pub fn metrics(&self, cuts: u64) -> CacheMetrics
        ensures end { result.end ≡ self.now.cache.end }
        ensures objects { (log : Log) → StandsFor log self.now →
            (rows : List RowData) × IsStateAt log self.now.cache.resource self.now.cache.end rows × (result.objects ≡ length rows) }
        ensures ring { (result.window ≡ self.now.cache.ring.capacity) × (result.floor ≡ self.now.cache.ring.floor) }
        ensures lanes { (result.watchers ≡ length self.now.lanes.all) × (result.behind ≡ count_behind self.now.lanes.all) }
        ensures counts { (result.rebuilds ≡ self.now.rebuilds) × (result.cuts ≡ cuts) }
    {
        CacheMetrics {
            end: self.cache.end(),
            objects: self.cache.len() as u64,
            window: self.cache.window() as u64,
            floor: self.cache.floor(),
            received: self.received,
            watchers: self.lanes.len() as u64,
            behind: self.lanes.count_behind() as u64,
            rebuilds: self.rebuilds,
            cuts,
        }
    }

    /// The objects at the cache's end. Later changes don't show in it.
    pub fn snapshot(&self) -> Result<Snapshot, Memory>
        ensures { IfOk result (λ snapshot. (log : Log) → StandsFor log self.now → IsStateAt log self.now.cache.resource self.now.cache.end snapshot) }
    {
        self.cache.snapshot()
    }

    /// The objects at an earlier revision, found by undoing the ring's events above it.
    pub fn at(&self, rev: u64) -> Result<Snapshot, AtNo>
        requires { rev ≤ self.now.cache.end }
        ensures state { IfOk result (λ snapshot. (log : Log) → StandsFor log self.now → IsStateAt log self.now.cache.resource rev snapshot) }
        ensures served { OnOk result (self.now.cache.ring.floor ≤ rev) }
        ensures refused { IfErr result (RefusesAt self.now.cache rev) }
    {
        self.cache.at(rev)
    }

    /// Opens a lane for a watch that starts at a position, under a number that no other lane has. Below the cache's end
    /// it is behind until the watch has caught up.
    pub fn open_lane(&mut self, selection: &Selection, at: u64) -> Result<(u64, LaneOut<N>), Memory>
        requires { selection.now.resource ≡ self.old.cache.resource }
        ensures opened { IfOk result (λ r. SetsLane self.old.lanes.all self.new.lanes.all r.0 (Some (newly_open selection.now at self.old.cache.end self.old.lanes.room))) }
        ensures number { IfOk result (λ r. open_at self.old.lanes.all r.0 ≡ None) }
        ensures same { OnlyLanes self.old self.new }
        ensures kept { OnErr result (self.new ≡ self.old) }
        ensures stands { (log : Log) → StandsFor log self.old → StandsFor log self.new }
    {
        self.lanes.add(selection, at, self.cache.end())
    }

    /// Closes a lane, if it is open.
    pub fn close_lane(&mut self, id: u64)
        ensures closed { SetsLane self.old.lanes.all self.new.lanes.all id None }
        ensures same { OnlyLanes self.old self.new }
        ensures stands { (log : Log) → StandsFor log self.old → StandsFor log self.new }
    {
        self.lanes.close(id);
    }

    /// Rings the watcher of a lane, if it is open, by this bell from now on, or not at all. Whoever opens a lane calls
    /// this before anything else is done with the cache, or the watcher isn't called for what came in between.
    pub fn ring_by(&mut self, id: u64, bell: Option<Arc<Bell>>)
        ensures { self.new ≡ self.old }
    {
        self.lanes.ring_by(id, bell);
    }

    /// Puts the bells of all lanes that were told or fell behind since the last such call behind those in `calls`, for
    /// the caller to ring once it has let the cache's lock go. Where there is no memory for one it is rung at once.
    pub fn take_calls(&mut self, calls: &mut Calls)
        ensures { self.new ≡ self.old }
    {
        self.lanes.take_calls(calls);
    }

    /// Whether a watch of this selection gets all that comes: its lane, under this number, is open and isn't behind.
    pub fn gets_all(&self, id: u64, selection: &Selection) -> bool
        ensures { IsTrue result ↔ GetsAll selection.now (open_at self.now.lanes.all id) }
    {
        self.lanes.gets_all(id, selection)
    }

    /// What a watch of this selection is told that stands at a position and was told all that its lane got: nothing, up
    /// to the cache's end, where both go, also from below the floor of the ring. Any other is answered `None`, and
    /// nothing is changed.
    pub fn go_along(&mut self, id: u64, selection: &Selection, at: u64) -> Option<Caught>
        ensures along { IsSome result ↔ GoesAlong selection.now at (open_at self.old.lanes.all id) }
        ensures caught { IfSome result (λ caught. (log : Log) (many : ℕ) → 1 ≤ many → StandsFor log self.old → IsCaught log selection.now at self.old.cache.end many caught) }
        ensures lane { IfSome result (λ caught. HasCaughtUp (Some id) caught.upto self.old self.new) }
        ensures same { OnlyLanes self.old self.new }
        ensures kept { IfNone result (self.new ≡ self.old) }
        ensures stands { (log : Log) → StandsFor log self.old → StandsFor log self.new }
    {
        if !self.lanes.goes_along(id, selection, at) {
            return None;
        }
        let end = self.cache.end();
        let upto = at.max(end);
        self.lanes.note_caught(Some(id), upto, end);
        Some(Caught {
            upto,
            lines: Vec::new(self.alloc),
        })
    }

    /// What a watch of this selection is told that stands at a position, from the events that the cache holds: the
    /// lines of the fewest whole revisions that hold at least `many` lines, or all that are left. The watch's lane,
    /// if it has one, is no longer behind once all was told up to the cache's end.
    pub fn catch_up(
        &mut self,
        id: Option<u64>,
        selection: &Selection,
        at: u64,
        many: usize,
    ) -> Result<Caught, CatchNo>
        requires resource { selection.now.resource ≡ self.old.cache.resource }
        requires some { 1 ≤ many }
        ensures caught { IfOk result (λ caught. (log : Log) → StandsFor log self.old → IsCaught log selection.now at self.old.cache.end many caught) }
        ensures served { OnOk result (self.old.cache.ring.floor ≤ at) }
        ensures refused { IfErr result (RefusesCatch self.old.cache at) }
        ensures lost { at < self.old.cache.ring.floor → result ≡ Err (Lost at self.old.cache.ring.floor) }
        ensures lane { IfOk result (λ caught. HasCaughtUp id caught.upto self.old self.new) }
        ensures same { OnlyLanes self.old self.new }
        ensures kept { OnErr result (self.new ≡ self.old) }
        ensures stands { (log : Log) → StandsFor log self.old → StandsFor log self.new }
    {
        let end = self.cache.end();
        let events = self.cache.events_above(at)?;
        let caught = first_lines(self.alloc, selection, &events, at, at.max(end), many)?;
        self.lanes.note_caught(id, caught.upto, end);
        Ok(caught)
    }

    /// Tells the cache the time, in milliseconds. It never goes back.
    pub fn tick(&mut self, ms: u64)
        ensures time { self.new ≡ record self.old { cache = record self.old.cache { time = max self.old.cache.time ms } } }
        ensures stands { (log : Log) → StandsFor log self.old → StandsFor log self.new }
    {
        self.cache.tick(ms);
    }

    /// Takes in what a poll gave. Each lane that isn't behind and for which something came is told of it by one batch
    /// up to the cache's new end, or falls behind; the others stay as they are.
    pub fn take_in(&mut self, polled: &Polled, told: &mut Pass<N>) -> Result<(), Memory>
        requires stands { StandsAt (λ log. StandsFor log self.old) N.base told.old self.old.cache.end }
        requires from { polled.now.from ≡ self.old.cache.end }
        requires polled { IsFed (log_of N.base told.old) self.old.cache.resource polled.now }
        ensures told { told.new ≡ told.old }
        ensures stands { StandsAt (λ log. StandsFor log self.new) N.base told.new self.new.cache.end }
        ensures done { OnOk result (self.new.cache.end ≡ polled.now.upto) }
        ensures partly { (polled.now.from ≤ self.new.cache.end) × (self.new.cache.end ≤ polled.now.upto) }
        ensures floor { self.old.cache.ring.floor ≤ self.new.cache.ring.floor }
        ensures cache { Stays self.old.cache self.new.cache × (self.new.cache.base ≡ self.old.cache.base) }
        ensures lanes { AreTold (log_of N.base told.old) self.new.cache.end self.old.lanes.all self.new.lanes.all }
        ensures same { (self.new.rebuilds ≡ self.old.rebuilds) × (self.new.lanes.room ≡ self.old.lanes.room) }
    {
        let _known = told.shown();
        let mut fresh = Vec::new(self.alloc);
        let fed = self.cache.apply(polled, &mut fresh);
        self.lanes.tell(&fresh, self.cache.end(), told);
        self.received = self.received.saturating_add(fresh.len() as u64);
        fed
    }

    /// Is built anew from a history; all lanes are behind then. After want of memory it is as it was.
    pub fn build_anew(&mut self, history: History, told: &mut Pass<N>) -> Result<(), Memory>
        requires stands { StandsAt (λ log. StandsFor log self.old) N.base told.old self.old.cache.end }
        requires history { IsHistory (log_of N.base told.old) told.old.floor self.old.cache.resource history }
        ensures told { told.new ≡ told.old }
        ensures stands { OnOk result (StandsAt (λ log. StandsFor log self.new) N.base told.new self.new.cache.end) }
        ensures rebuilt { OnOk result (IsRebuilt history self.old.cache self.new.cache) }
        ensures lanes { OnOk result (AreChanged left_behind self.old.lanes.all self.new.lanes.all) }
        ensures room { self.new.lanes.room ≡ self.old.lanes.room }
        ensures rebuilds { OnOk result (self.new.rebuilds ≡ raised_once self.old.rebuilds) }
        ensures kept { OnErr result (self.new ≡ self.old) }
    {
        let _known = told.shown();
        self.cache.rebuild(history)?;
        self.lanes.lag();
        self.rebuilds = self.rebuilds.saturating_add(1).min(1 << 62);
        Ok(())
    }
}

impl<N: LogFacts> Held<N> for Hub<N> {
    ghost use Rattle.cache_hub.specs.Hubs.{StandsFor};
    ghost use Rattle.cache_hub.specs.OpenLanes.{AreTold, AreChanged, left_behind};

    ghost resource = { λ h. h.cache.resource };

    ghost window = { λ h. h.cache.ring.window };

    ghost base = { λ h. h.cache.base };

    ghost rebuilds = { λ h. h.rebuilds };

    ghost stands_for = { λ h log. StandsFor log h };

    ghost ends_at = { λ h. h.cache.end };

    ghost time = { λ h. h.cache.time };

    ghost goes_along = { λ log old new. AreTold log new.cache.end old.lanes.all new.lanes.all };

    ghost begins_anew = { λ old new. AreChanged left_behind old.lanes.all new.lanes.all };

    fn end(&self) -> u64 {
        self.cache.end()
    }

    fn apply(&mut self, polled: &Polled, told: &mut Pass<N>) -> Result<(), Memory> {
        self.take_in(polled, told)
    }

    fn rebuild(&mut self, history: History, told: &mut Pass<N>) -> Result<(), Memory> {
        self.build_anew(history, told)
    }
}
