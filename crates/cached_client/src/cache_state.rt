//! The cache of one resource, with what keeps it up to date.

ghost use Rattle.std.specs.Prelude.{◌≡◌, ◌<◌, ◌≤◌, ◌↔◌, ℕ, Some, None, max, IfOk, IfErr, IfSome, IfNone, IsSome, IsTrue, OnOk, OnErr, length, unwrap_or};
ghost use Rattle.rev_front.specs.Passes.{Extends, end_from};
ghost use Rattle.rev_log.specs.States.{IsStateAt};
ghost use Rattle.select_all.specs.declared.selection.Meaning.TheVariants.{Any, Exact};
ghost use Rattle.select_all.specs.declared.selection.Selection.{Selection as SelectionData};
ghost use Rattle.up_api.specs.Sections.{Learns, log_of, raised_once};
ghost use Rattle.up_api.specs.Settings.{AreInRange};
ghost use Rattle.reflect_core.specs.Pumps.{HasCause, MayRiseFor, RisesFor};
ghost use Rattle.cache_hub.specs.Catching.{IsCaught, RefusesCatch};
ghost use Rattle.cache_hub.specs.declared.catching.CatchNo.TheVariants.{Lost};
ghost use Rattle.cache_hub.specs.Hubs.{HasCaughtUp};
ghost use Rattle.cache_hub.specs.OpenLanes.{AreChanged, GetsAll, GoesAlong, SetsLane, left_behind, newly_open, open_at};
ghost use Rattle.client_api.specs.Caches.{UnlessExact};
ghost use Rattle.client_api.specs.Metered.{IsCacheMetrics};
ghost use Rattle.cached_client.specs.CacheStates.{GoesOn, IsBrokenOff, IsPumped, IsSection, KeepsCache};
ghost use Rattle.cached_client.specs.Knowing.{KnowsAllOf};
ghost use Rattle.cached_client.specs.Serving.{IsFound, IsServed, IsShown, IsUnserved, found_at};
ghost use Rattle.cached_client.specs.Watching.{HasMore, IsLeftBehind, IsLostAt, IsTold};

use crate::lanes::WatchLane;
use crate::read_answers::revision_alone;
use crate::reads::Found;
use crate::resources::OfResource;
use crate::windows::{NamedWindow, Window};
use bells::{Bell, Calls};
use cache_core::AtNo;
use cache_hub::{CatchNo, Caught, Hub};
use client_api::ListNo;
use kube_meta::Memory;
use metrics::CacheMetrics;
use obj_tree::Snapshot;
use reflect_core::{Pumped, Reflector};
use select_all::{Meaning, Selection};
use std::alloc::Global;
use std::marker::{Model, PhantomData};
use std::sync::Arc;
use up_api::{Held, LogFacts, Pass, Settings, Upstream};
use watch_lane::LaneOut;

/// What a turn of a watch asks: the watch's lane and position, how many lines are wanted, and the time.
#[derive(Clone, Copy, Debug)]
pub struct Turn {
    pub lane: u64,
    pub at: u64,
    pub max: usize,
    pub ms: u64,
}

/// The cache of one resource, the reflector that keeps it up to date, and what is known of the log here. Its type
/// keeps that the cache stands for that log up to the cache's end, that both are of the resource that `One` tells,
/// that the cache's window is the one that `W` tells, where it tells one, and that the reflector's feed is of no
/// later generation than is known. Where several share it, it lies behind a lock.
///
/// Each call meets the caller's pass first: the caller then knows all that is known here, and makes no load. Contracts
/// don't see how often the feed was found cut.
#[derive(Drop)]
pub struct CacheState<N: LogFacts, One: OfResource, W: Window = NamedWindow<N>> {
    alloc: Global,
    hub: Hub<N>,
    reflector: Reflector,
    pass: Pass<N>,
    cuts: u64,
    of: PhantomData<One>,
    keeps: PhantomData<W>,
}

impl<N: LogFacts, One: OfResource, W: Window> Model for CacheState<N, One, W> {
    ghost use Rattle.cached_client.specs.CacheStates.{CacheStateData, IsFollowing};

    ghost Value = { CacheStateData };

    ghost view = { λ c. record { hub = c.hub; reflector = c.reflector; pass = c.pass } };

    ghost invariant = { λ c. IsFollowing N.base W.window One.resource (record { hub = c.hub; reflector = c.reflector; pass = c.pass }) };
}

impl<N: LogFacts, One: OfResource, W: Window> CacheState<N, One, W> {
    /// The cache that upstream's history of the resource makes, without lanes. `pass` is given to it. It asks upstream
    /// for as many changes at a time as the settings say; its window, how that may grow, and the room of each lane are
    /// theirs too.
    pub fn new<U: Upstream<N>>(
        alloc: Global,
        up: &mut U,
        pass: Pass<N>,
        settings: &Settings,
    ) -> Result<CacheState<N, One, W>, Memory>
        requires settings { AreInRange settings.now }
        requires window { unwrap_or W.window settings.now.window ≡ settings.now.window }
        ensures batch { IfOk result (λ cache. cache.reflector.batch ≡ settings.now.batch) }
        ensures window_is { IfOk result (λ cache. cache.hub.cache.ring.window ≡ settings.now.window) }
        ensures window_max { IfOk result (λ cache. cache.hub.cache.ring.window_max ≡ settings.now.window_max) }
        ensures fresh_ms { IfOk result (λ cache. cache.hub.cache.ring.fresh_ms ≡ settings.now.fresh_ms) }
        ensures room { IfOk result (λ cache. cache.hub.lanes.room ≡ settings.now.lane) }
        ensures own { U.own up.new ≡ U.own up.old }
        ensures history { U.history up.new ≡ U.history up.old }
    {
        let mut pass = pass;
        let resource = One::resource();
        let history = up.history(resource, &mut pass)?;
        let hub = Hub::new(alloc, resource, history, settings, &mut pass)?;
        let reflector = Reflector::with_batch(resource, settings.batch);
        Ok(CacheState {
            alloc,
            hub,
            reflector,
            pass,
            cuts: 0,
            of: PhantomData,
            keeps: PhantomData,
        })
    }

    /// Brings the cache to a revision that the caller was shown.
    pub fn pump<U: Upstream<N>>(
        &mut self,
        up: &mut U,
        told: &mut Pass<N>,
        until: u64,
    ) -> Result<Pumped, Memory>
        requires until { until ≤ told.old.shown }
        ensures section { IsSection self.old self.new told.old told.new }
        ensures goes_on { GoesOn self.old self.new told.new }
        ensures pumped { IfOk result (IsPumped self.old self.new told.old told.new until) }
        ensures broken { OnErr result (IsBrokenOff self.old self.new told.old told.new) }
        ensures own { U.own up.new ≡ U.own up.old }
        ensures history { U.history up.new ≡ U.history up.old }
        ensures reads { MayRiseFor (HasCause self.old.hub.cache.end told.old told.new) (U.reads up.old) (U.reads up.new) }
        ensures time { self.new.hub.cache.time ≡ self.old.hub.cache.time }
        ensures window { self.new.hub.cache.ring.window ≡ self.old.hub.cache.ring.window }
    {
        self.share(told);
        let pumped = self.follow(up, until);
        self.share(told);
        pumped
    }

    /// The objects of the resource at a revision that will do for the meaning: the cache's end, once it was brought
    /// to all that the caller was shown, or the one revision that the meaning asks for. Where the cache doesn't go
    /// back to that one it is only named: the caller reads it from upstream, and lets the cache go before. Only that
    /// one can be refused, where it is below the compaction floor, which is loaded then.
    pub fn find<U: Upstream<N>>(
        &mut self,
        up: &mut U,
        told: &mut Pass<N>,
        meaning: Meaning,
    ) -> Result<Found, ListNo>
        requires shown { IsShown meaning told.old.shown }
        ensures section { IsSection self.old self.new told.old told.new }
        ensures found { IfOk result (IsFound N.base One.resource meaning told.old.shown told.new) }
        ensures current { IfOk result (λ found. UnlessExact meaning (found_at found ≡ self.new.hub.cache.end)) }
        ensures refused { IfErr result (IsUnserved meaning told.new) }
        ensures rebuilds { RisesFor (HasCause self.old.hub.cache.end told.old told.new) self.old.hub.rebuilds self.new.hub.rebuilds }
        ensures own { U.own up.new ≡ U.own up.old }
        ensures history { U.history up.new ≡ U.history up.old }
        ensures reads { MayRiseFor (HasCause self.old.hub.cache.end told.old told.new) (U.reads up.old) (U.reads up.new) }
        ensures time { self.new.hub.cache.time ≡ self.old.hub.cache.time }
        ensures window { self.new.hub.cache.ring.window ≡ self.old.hub.cache.ring.window }
    {
        let shown = told.shown();
        self.pump(up, told, shown)?;
        match revision_alone(meaning) {
            Some(at) => self.state_at(told, at),
            None => {
                let (at, state) = self.newest(told)?;
                Ok(Found::State(at, state))
            }
        }
    }

    /// The objects at the cache's end, once it was brought to all that the caller was shown.
    pub fn state_at_end<U: Upstream<N>>(
        &mut self,
        up: &mut U,
        told: &mut Pass<N>,
    ) -> Result<(u64, Snapshot), Memory>
        ensures section { IsSection self.old self.new told.old told.new }
        ensures served { IfOk result (λ r. IsServed N.base One.resource Any told.old.shown told.new r.0 r.1) }
        ensures end { IfOk result (λ r. r.0 ≡ self.new.hub.cache.end) }
        ensures own { U.own up.new ≡ U.own up.old }
        ensures history { U.history up.new ≡ U.history up.old }
        ensures reads { MayRiseFor (HasCause self.old.hub.cache.end told.old told.new) (U.reads up.old) (U.reads up.new) }
        ensures time { self.new.hub.cache.time ≡ self.old.hub.cache.time }
        ensures window { self.new.hub.cache.ring.window ≡ self.old.hub.cache.ring.window }
    {
        let shown = told.shown();
        self.pump(up, told, shown)?;
        self.newest(told)
    }

    /// Opens a lane for a watch that stands at a position, under a number that no other lane has. It is refused where
    /// what came after the position may not all be kept.
    pub fn open(
        &mut self,
        told: &mut Pass<N>,
        selection: &Selection,
        at: u64,
    ) -> Result<(u64, LaneOut<N>), CatchNo>
        requires resource { selection.now.resource ≡ One.resource }
        ensures section { IsSection self.old self.new told.old told.new }
        ensures opened { IfOk result (λ r. SetsLane self.old.hub.lanes.all self.new.hub.lanes.all r.0
            (Some (newly_open selection.now at self.old.hub.cache.end self.old.hub.lanes.room))) }
        ensures number { IfOk result (λ r. open_at self.old.hub.lanes.all r.0 ≡ None) }
        ensures same { KeepsCache self.old self.new }
        ensures served { OnOk result (self.old.hub.cache.ring.floor ≤ at) }
        ensures refused { IfErr result (RefusesCatch self.old.hub.cache at) }
        ensures lost { IfErr result (IsLostAt N.base (unwrap_or W.window self.new.hub.cache.ring.window) selection.now at told.new) }
        ensures kept { OnErr result (self.new.hub ≡ self.old.hub) }
    {
        self.share(told);
        self.keeps_from(told, selection, at)?;
        Ok(self.lane(selection, at)?)
    }

    // Refuses a position where what came after it may not all be kept.
    fn keeps_from(&self, told: &Pass<N>, selection: &Selection, at: u64) -> Result<(), CatchNo>
        requires knows { KnowsAllOf self.now.pass told.now }
        requires resource { selection.now.resource ≡ One.resource }
        ensures served { OnOk result (self.now.hub.cache.ring.floor ≤ at) }
        ensures refused { IfErr result (RefusesCatch self.now.hub.cache at) }
        ensures lost { IfErr result (IsLostAt N.base (unwrap_or W.window self.now.hub.cache.ring.window) selection.now at told.now) }
    {
        let lowest = self.floor(told);
        if at < lowest {
            return Err(CatchNo::Lost { at, floor: lowest });
        }
        Ok(())
    }

    /// Closes a lane, if it is open.
    pub fn close(&mut self, id: u64)
        ensures closed { SetsLane self.old.hub.lanes.all self.new.hub.lanes.all id None }
        ensures same { KeepsCache self.old self.new }
        ensures pass { self.new.pass ≡ self.old.pass }
    {
        self.hub.close_lane(id);
    }

    /// What a watch of this selection is told that stands at a position, and has this lane: the lines of the fewest
    /// whole revisions that hold at least `max` lines, or all that are left. The lane is no longer behind once all was
    /// told up to the cache's end.
    pub fn catch_up(
        &mut self,
        told: &mut Pass<N>,
        id: u64,
        selection: &Selection,
        at: u64,
        max: usize,
    ) -> Result<Caught, CatchNo>
        requires resource { selection.now.resource ≡ One.resource }
        requires max { 1 ≤ max }
        ensures section { IsSection self.old self.new told.old told.new }
        ensures caught { IfOk result (IsCaught (log_of N.base told.new) selection.now at self.old.hub.cache.end max) }
        ensures seen { self.old.hub.cache.end ≤ end_from told.new.first told.new.seen }
        ensures lane { IfOk result (λ caught. HasCaughtUp (Some id) caught.upto self.old.hub self.new.hub) }
        ensures same { KeepsCache self.old self.new }
        ensures served { OnOk result (self.old.hub.cache.ring.floor ≤ at) }
        ensures refused { IfErr result (RefusesCatch self.old.hub.cache at) }
        ensures lost { IfErr result (IsLostAt N.base (unwrap_or W.window self.new.hub.cache.ring.window) selection.now at told.new) }
        ensures kept { OnErr result (self.new.hub ≡ self.old.hub) }
    {
        self.share(told);
        let _floor = self.floor(told);
        self.hub.catch_up(Some(id), selection, at, max)
    }

    /// What a watch of this selection is told that stands at a position, and misses nothing by its lane: nothing, up
    /// to the cache's end, where both go, also from below the floor of the ring. Any other is answered `None`.
    pub fn go_along(
        &mut self,
        told: &mut Pass<N>,
        id: u64,
        selection: &Selection,
        at: u64,
    ) -> Option<Caught>
        ensures section { IsSection self.old self.new told.old told.new }
        ensures along { IsSome result ↔ GoesAlong selection.now at (open_at self.old.hub.lanes.all id) }
        ensures caught { IfSome result (λ caught. (many : ℕ) → 1 ≤ many → IsCaught (log_of N.base told.new) selection.now at self.old.hub.cache.end many caught) }
        ensures seen { self.old.hub.cache.end ≤ end_from told.new.first told.new.seen }
        ensures lane { IfSome result (λ caught. HasCaughtUp (Some id) caught.upto self.old.hub self.new.hub) }
        ensures same { KeepsCache self.old self.new }
        ensures kept { IfNone result (self.new.hub ≡ self.old.hub) }
    {
        self.share(told);
        self.hub.go_along(id, selection, at)
    }

    /// Builds the cache anew from upstream's history, and answers the compaction floor of that section; all lanes are
    /// behind then. After want of memory the cache is as it was.
    pub fn rebuild<U: Upstream<N>>(&mut self, up: &mut U, told: &mut Pass<N>) -> Result<u64, Memory>
        ensures section { IsSection self.old self.new told.old told.new }
        ensures floor { IfOk result (λ floor. (told.old.floor ≤ floor) × (floor ≤ told.new.floor)) }
        ensures base { IfOk result (λ floor. self.new.hub.cache.base ≡ floor) }
        ensures rebuilds { OnOk result (self.new.hub.rebuilds ≡ raised_once self.old.hub.rebuilds) }
        ensures reached { OnOk result (told.old.shown ≤ self.new.hub.cache.end) }
        ensures lanes { OnOk result (AreChanged left_behind self.old.hub.lanes.all self.new.hub.lanes.all) }
        ensures kept { OnErr result (self.new.hub ≡ self.old.hub) }
        ensures own { U.own up.new ≡ U.own up.old }
        ensures history { U.history up.new ≡ U.history up.old }
        ensures time { self.new.hub.cache.time ≡ self.old.hub.cache.time }
        ensures window { self.new.hub.cache.ring.window ≡ self.old.hub.cache.ring.window }
    {
        self.share(told);
        let rebuilt = self.read_anew(up);
        self.share(told);
        rebuilt
    }

    /// What a monitor is told of the cache.
    pub fn metrics(&mut self, told: &mut Pass<N>) -> CacheMetrics
        ensures learns { Learns told.old told.new }
        ensures metrics { IsCacheMetrics N.base One.resource told.new result }
        ensures same { self.new ≡ record self.old { pass = self.new.pass } }
    {
        self.share(told);
        self.measure(told)
    }

    // The same, where the caller knows all that is known here.
    fn measure(&self, told: &Pass<N>) -> CacheMetrics
        requires knows { KnowsAllOf self.now.pass told.now }
        ensures { IsCacheMetrics N.base One.resource told.now result }
    {
        self.hub.metrics(self.cuts)
    }

    /// Tells the cache the time, in milliseconds, by which the age of its events is judged. It never goes back.
    pub fn tick(&mut self, ms: u64)
        ensures { self.new ≡ record self.old { hub = record self.old.hub { cache = record self.old.hub.cache { time = max self.old.hub.cache.time ms } } } }
    {
        self.hub.tick(ms);
    }

    /// Brings the cache to a revision that the caller was shown, as far as there is memory, and gives the bells of the
    /// lanes that were told, or fell behind, since this was last called.
    pub fn feed<U: Upstream<N>>(
        &mut self,
        up: &mut U,
        told: &mut Pass<N>,
        until: u64,
        calls: &mut Calls,
    ) -> Result<(), Memory>
        requires until { until ≤ told.old.shown }
        ensures extends { Extends told.old told.new }
        ensures reached { OnOk result (until ≤ self.new.hub.cache.end) }
    {
        let pumped = self.pump(up, told, until);
        self.hub.take_calls(calls);
        pumped?;
        Ok(())
    }

    /// The objects at the cache's end, once it was brought to all that the caller was shown, and a lane there, whose
    /// watcher is rung by this bell.
    pub fn start_at_end<U: Upstream<N>>(
        &mut self,
        up: &mut U,
        told: &mut Pass<N>,
        selection: &Selection,
        bell: &Option<Arc<Bell>>,
    ) -> Result<(u64, Snapshot, WatchLane<N>), ListNo>
        requires resource { selection.now.resource ≡ One.resource }
        ensures learns { Learns told.old told.new }
        ensures served { IfOk result (λ r. IsServed N.base One.resource Any told.old.shown told.new r.0 r.1) }
        ensures refused { IfErr result (λ no. no ≡ ListNo.Memory) }
    {
        let bell = shared(bell)?;
        let (at, state) = self.state_at_end(up, told)?;
        let lane = self.lane(selection, at)?;
        Ok((at, state, self.rung(lane, bell)))
    }

    /// A lane at a position, once the cache was brought to all that the caller was shown. Its watcher is rung by this
    /// bell.
    pub fn start_from<U: Upstream<N>>(
        &mut self,
        up: &mut U,
        told: &mut Pass<N>,
        selection: &Selection,
        at: u64,
        bell: &Option<Arc<Bell>>,
    ) -> Result<WatchLane<N>, CatchNo>
        requires resource { selection.now.resource ≡ One.resource }
        ensures learns { Learns told.old told.new }
        ensures served { OnOk result (self.new.hub.cache.ring.floor ≤ at) }
        ensures lost { IfErr result (IsLostAt N.base (unwrap_or W.window self.new.hub.cache.ring.window) selection.now at told.new) }
    {
        let bell = shared(bell)?;
        let shown = told.shown();
        self.pump(up, told, shown)?;
        let lane = self.open(told, selection, at)?;
        Ok(self.rung(lane, bell))
    }

    /// Refuses a position where what came after it may not all be kept, once the cache was brought to all that the
    /// caller was shown.
    pub fn follows_from<U: Upstream<N>>(
        &mut self,
        up: &mut U,
        told: &mut Pass<N>,
        selection: &Selection,
        at: u64,
    ) -> Result<(), CatchNo>
        requires resource { selection.now.resource ≡ One.resource }
        ensures section { IsSection self.old self.new told.old told.new }
        ensures served { OnOk result (self.new.hub.cache.ring.floor ≤ at) }
        ensures lost { IfErr result (IsLostAt N.base (unwrap_or W.window self.new.hub.cache.ring.window) selection.now at told.new) }
        ensures own { U.own up.new ≡ U.own up.old }
        ensures history { U.history up.new ≡ U.history up.old }
        ensures reads { MayRiseFor (HasCause self.old.hub.cache.end told.old told.new) (U.reads up.old) (U.reads up.new) }
        ensures time { self.new.hub.cache.time ≡ self.old.hub.cache.time }
        ensures window { self.new.hub.cache.ring.window ≡ self.old.hub.cache.ring.window }
    {
        let shown = told.shown();
        self.pump(up, told, shown)?;
        self.keeps_from(told, selection, at)
    }

    /// What a watch at a position is told, once the cache was brought to all that the caller was shown. Where its lane
    /// isn't behind and got more than it was told, that is `None`: a batch lies in the lane. So a watch that gets all
    /// that comes is never lost, however much of it didn't concern the watch.
    pub fn turn<U: Upstream<N>>(
        &mut self,
        up: &mut U,
        told: &mut Pass<N>,
        selection: &Selection,
        turn: Turn,
    ) -> Result<Option<Caught>, CatchNo>
        requires resource { selection.now.resource ≡ One.resource }
        requires max { 1 ≤ turn.max }
        ensures learns { Learns told.old told.new }
        ensures told { IfOk result (λ caught. IfSome caught (IsTold N.base selection.now turn.at told.old.shown told.new)) }
        ensures sent { IfOk result (λ caught. IfNone caught (HasMore selection.now turn.at (open_at self.new.hub.lanes.all turn.lane))) }
        ensures lost { IfErr result (IsLostAt N.base (unwrap_or W.window self.new.hub.cache.ring.window) selection.now turn.at told.new) }
        ensures behind { IfErr result (IsLeftBehind selection.now (open_at self.new.hub.lanes.all turn.lane)) }
    {
        let shown = told.shown();
        self.tick(turn.ms);
        self.pump(up, told, shown)?;
        self.tell(told, selection, turn)
    }

    // The same at the cache's end.
    fn tell(
        &mut self,
        told: &mut Pass<N>,
        selection: &Selection,
        turn: Turn,
    ) -> Result<Option<Caught>, CatchNo>
        requires resource { selection.now.resource ≡ One.resource }
        requires max { 1 ≤ turn.max }
        ensures learns { Learns told.old told.new }
        ensures caught { IfOk result (λ caught. IfSome caught (IsCaught (log_of N.base told.new) selection.now turn.at self.old.hub.cache.end turn.max)) }
        ensures seen { self.old.hub.cache.end ≤ end_from told.new.first told.new.seen }
        ensures sent { IfOk result (λ caught. IfNone caught (HasMore selection.now turn.at (open_at self.new.hub.lanes.all turn.lane))) }
        ensures lost { IfErr result (IsLostAt N.base (unwrap_or W.window self.new.hub.cache.ring.window) selection.now turn.at told.new) }
        ensures behind { IfErr result (IsLeftBehind selection.now (open_at self.new.hub.lanes.all turn.lane)) }
    {
        if let Some(caught) = self.go_along(told, turn.lane, selection, turn.at) {
            return Ok(Some(caught));
        }
        if self.gets_all(turn.lane, selection) {
            return Ok(None);
        }
        let caught = self.catch_up(told, turn.lane, selection, turn.at, turn.max)?;
        Ok(Some(caught))
    }

    // Whether a watch of this selection gets all that comes by its lane, under this number.
    fn gets_all(&self, id: u64, selection: &Selection) -> bool
        ensures { IsTrue result ↔ GetsAll selection.now (open_at self.now.hub.lanes.all id) }
    {
        self.hub.gets_all(id, selection)
    }

    /// What a watch at a position is told from the ring, once the cache was brought to all that the caller was shown.
    pub fn turn_by_ring<U: Upstream<N>>(
        &mut self,
        up: &mut U,
        told: &mut Pass<N>,
        selection: &Selection,
        turn: Turn,
    ) -> Result<Caught, CatchNo>
        requires resource { selection.now.resource ≡ One.resource }
        requires max { 1 ≤ turn.max }
        ensures learns { Learns told.old told.new }
        ensures told { IfOk result (IsTold N.base selection.now turn.at told.old.shown told.new) }
        ensures lost { IfErr result (IsLostAt N.base (unwrap_or W.window self.new.hub.cache.ring.window) selection.now turn.at told.new) }
        ensures section { IsSection self.old self.new told.old told.new }
        ensures within { IfOk result (λ caught. 0 < length caught.lines → caught.upto ≤ self.new.hub.cache.end) }
        ensures own { U.own up.new ≡ U.own up.old }
        ensures history { U.history up.new ≡ U.history up.old }
        ensures reads { MayRiseFor (HasCause self.old.hub.cache.end told.old told.new) (U.reads up.old) (U.reads up.new) }
        ensures time { self.new.hub.cache.time ≡ max self.old.hub.cache.time turn.ms }
        ensures window { self.new.hub.cache.ring.window ≡ self.old.hub.cache.ring.window }
    {
        let shown = told.shown();
        self.tick(turn.ms);
        self.pump(up, told, shown)?;
        self.catch_up(told, turn.lane, selection, turn.at, turn.max)
    }

    // The caller's pass and the one that is kept here meet.
    fn share(&mut self, told: &mut Pass<N>)
        ensures section { IsSection self.old self.new told.old told.new }
        ensures known { KnowsAllOf told.new self.new.pass }
        ensures same { self.new ≡ record self.old { pass = self.new.pass } }
    {
        let _mine = self.pass.shown();
        let _theirs = told.shown();
        self.pass.share(told);
    }

    // Pumps the cache with what is known here.
    fn follow<U: Upstream<N>>(&mut self, up: &mut U, until: u64) -> Result<Pumped, Memory>
        requires until { until ≤ self.old.pass.shown }
        ensures onward { Extends self.old.pass self.new.pass }
        ensures goes_on { GoesOn self.old self.new self.new.pass }
        ensures pumped { IfOk result (IsPumped self.old self.new self.old.pass self.new.pass until) }
        ensures broken { OnErr result (IsBrokenOff self.old self.new self.old.pass self.new.pass) }
        ensures own { U.own up.new ≡ U.own up.old }
        ensures history { U.history up.new ≡ U.history up.old }
        ensures reads { MayRiseFor (HasCause self.old.hub.cache.end self.old.pass self.new.pass) (U.reads up.old) (U.reads up.new) }
        ensures time { self.new.hub.cache.time ≡ self.old.hub.cache.time }
        ensures window { self.new.hub.cache.ring.window ≡ self.old.hub.cache.ring.window }
    {
        let pumped = self
            .reflector
            .pump(&mut self.hub, up, &mut self.pass, until);
        self.cuts = self.cuts.saturating_add(cuts_in(&pumped));
        pumped
    }

    // Builds the cache anew with what is known here.
    fn read_anew<U: Upstream<N>>(&mut self, up: &mut U) -> Result<u64, Memory>
        ensures onward { Extends self.old.pass self.new.pass }
        ensures floor { IfOk result (λ floor. floor ≡ self.new.pass.floor) }
        ensures base { IfOk result (λ floor. self.new.hub.cache.base ≡ floor) }
        ensures rebuilds { OnOk result (self.new.hub.rebuilds ≡ raised_once self.old.hub.rebuilds) }
        ensures reached { OnOk result (self.old.pass.shown ≤ self.new.hub.cache.end) }
        ensures lanes { OnOk result (AreChanged left_behind self.old.hub.lanes.all self.new.hub.lanes.all) }
        ensures kept { OnErr result (self.new.hub ≡ self.old.hub) }
        ensures own { U.own up.new ≡ U.own up.old }
        ensures history { U.history up.new ≡ U.history up.old }
        ensures time { self.new.hub.cache.time ≡ self.old.hub.cache.time }
        ensures window { self.new.hub.cache.ring.window ≡ self.old.hub.cache.ring.window }
    {
        let history = up.history(One::resource(), &mut self.pass)?;
        let floor = history.floor;
        self.hub.build_anew(history, &mut self.pass)?;
        Ok(floor)
    }

    // The floor of the cache's ring. What came after a lower position may not all be kept.
    fn floor(&self, told: &Pass<N>) -> u64
        requires knows { KnowsAllOf self.now.pass told.now }
        ensures floor { result ≡ self.now.hub.cache.ring.floor }
        ensures lost { (s : SelectionData) (at : ℕ) → s.resource ≡ One.resource → at < result →
            IsLostAt N.base (unwrap_or W.window self.now.hub.cache.ring.window) s at told.now (Lost at result) }
    {
        self.hub.floor()
    }

    // The objects at the cache's end, which the caller has seen.
    fn newest(&self, told: &Pass<N>) -> Result<(u64, Snapshot), Memory>
        requires knows { KnowsAllOf self.now.pass told.now }
        ensures state { IfOk result (λ r. IsStateAt (log_of N.base told.now) One.resource r.0 r.1) }
        ensures end { IfOk result (λ r. r.0 ≡ self.now.hub.cache.end) }
        ensures seen { self.now.hub.cache.end ≤ end_from told.now.first told.now.seen }
    {
        let state = self.hub.snapshot()?;
        Ok((self.hub.end(), state))
    }

    // The objects at one revision that the cache has reached, where its ring goes back that far.
    fn state_at(&self, told: &mut Pass<N>, at: u64) -> Result<Found, ListNo>
        requires knows { KnowsAllOf self.now.pass told.old }
        requires reached { at ≤ self.now.hub.cache.end }
        ensures learns { Learns told.old told.new }
        ensures found { IfOk result (IsFound N.base One.resource (Exact at) 0 told.new) }
        ensures refused { IfErr result (IsUnserved (Exact at) told.new) }
    {
        let _known = told.shown();
        let floor = told.look_floor();
        if at < floor {
            return Err(ListNo::Expired { asked: at, floor });
        }
        match self.hub.at(at) {
            Ok(state) => Ok(Found::State(at, state)),
            Err(AtNo::Below { .. }) => Ok(Found::Older(at)),
            Err(AtNo::Memory) => Err(ListNo::Memory),
        }
    }

    // The lane of a watch, which was just opened, and whose watcher is rung by this bell. Between the two the cache
    // stays locked, so that nothing comes to the lane before it has its bell.
    fn rung(&mut self, lane: (u64, LaneOut<N>), bell: Option<Arc<Bell>>) -> WatchLane<N>
        ensures { self.new ≡ self.old }
    {
        let (id, out) = lane;
        self.hub.ring_by(id, bell);
        WatchLane {
            resource: One::resource(),
            id,
            out,
        }
    }

    // A lane at a position.
    fn lane(&mut self, selection: &Selection, at: u64) -> Result<(u64, LaneOut<N>), Memory>
        requires resource { selection.now.resource ≡ One.resource }
        ensures opened { IfOk result (λ r. SetsLane self.old.hub.lanes.all self.new.hub.lanes.all r.0
            (Some (newly_open selection.now at self.old.hub.cache.end self.old.hub.lanes.room))) }
        ensures number { IfOk result (λ r. open_at self.old.hub.lanes.all r.0 ≡ None) }
        ensures same { KeepsCache self.old self.new }
        ensures pass { self.new.pass ≡ self.old.pass }
        ensures kept { OnErr result (self.new.hub ≡ self.old.hub) }
    {
        self.hub.open_lane(selection, at)
    }
}

// How many cuts a pump found, as far as it told.
fn cuts_in(pumped: &Result<Pumped, Memory>) -> u64 {
    match pumped {
        Ok(pumped) => pumped.cuts,
        Err(Memory) => 0,
    }
}

// The same bell once more.
fn shared(bell: &Option<Arc<Bell>>) -> Result<Option<Arc<Bell>>, Memory> {
    match bell {
        Some(bell) => Ok(Some(Arc::try_clone(bell)?)),
        None => Ok(None),
    }
}
