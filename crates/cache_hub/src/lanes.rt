//! The lanes of a cache.

ghost use Rattle.std.specs.Prelude.{◌≡◌, ◌≤◌, ◌↔◌, true, [], length, None, Some, option_copied, option_map, IfOk, IsTrue, OnOk, OnErr};
ghost use Rattle.rev_front.specs.Passes.{end_from};
ghost use Rattle.up_api.specs.Sections.{log_of};
ghost use Rattle.cache_hub.specs.Due.{AreReady};
ghost use Rattle.cache_hub.specs.OpenLanes.{Each, AreAlike, GetsAll, GoesAlong, IsIndexed, LaneCaughtUp, SetsLane, AreChanged, AreTold, caught_up, left_behind, count_behind, newly_open, open_at};

use crate::calling::{hand_over_all, hang, strike};
use crate::open_lane::OpenLane;
use crate::placed::tell_placed;
use crate::telling::tell_every;
use bells::{Bell, Calls};
use event_ring::Event;
use indexmap::IndexMap;
use kube_meta::Memory;
use select_all::Selection;
use std::alloc::Global;
use std::marker::Model;
use std::sync::Arc;
use up_api::{LogFacts, Pass};
use watch_lane::{LaneIndex, LaneOut, lane};

/// The lanes of a cache under their numbers, which are never used again. Those that want all objects are alike, and
/// stand by themselves; the others have the index that finds the ones which a change may concern: by name, by the first
/// listed field, or by namespace. Beside them stand the numbers of the lanes whose watchers are called, each once.
#[derive(Drop)]
pub(crate) struct Lanes<N: LogFacts> {
    alloc: Global,
    room: usize,
    next: u64,
    placed: IndexMap<u64, OpenLane<N>>,
    index: LaneIndex,
    alike: IndexMap<u64, OpenLane<N>>,
    called: Vec<u64>,
}

impl<N: LogFacts> Model for Lanes<N> {
    ghost use Rattle.std.specs.Prelude.{◌≤◌, ◌++◌};
    ghost use Rattle.cache_hub.specs.OpenLanes.{LanesData, AreAlike, AreApart, AreFree, IsIndexed};

    ghost Value = { LanesData };

    ghost view = { λ l. record { room = l.room; all = l.placed.entries ++ l.alike.entries } };

    ghost invariant = { λ l. (1 ≤ l.room) × (l.room ≤ 1024) × IsIndexed l.index l.placed.entries × AreFree l.next l.placed.entries × AreFree l.next l.alike.entries × AreAlike l.alike.entries × AreApart l.placed.entries l.alike.entries };
}

impl<N: LogFacts> Lanes<N> {
    /// No lanes, each of which will have room for so many batches.
    pub fn new(alloc: Global, room: usize) -> Lanes<N>
        requires some { 1 ≤ room }
        requires bounded { room ≤ 1024 }
        ensures { result ≡ record { room = room; all = [] } }
    {
        Lanes {
            alloc,
            room,
            next: 0,
            placed: IndexMap::new(alloc),
            index: LaneIndex::new(alloc, 0),
            alike: IndexMap::new(alloc),
            called: Vec::new(alloc),
        }
    }

    /// Opens a lane at a position of a cache with this end. Want of memory is also answered where there is no number
    /// left, of 2^64.
    pub fn add(
        &mut self,
        selection: &Selection,
        at: u64,
        end: u64,
    ) -> Result<(u64, LaneOut<N>), Memory>
        ensures fresh { IfOk result (λ r. open_at self.old.all r.0 ≡ None) }
        ensures opened { IfOk result (λ r. SetsLane self.old.all self.new.all r.0 (Some (newly_open selection.now at end self.old.room))) }
        ensures room { self.new.room ≡ self.old.room }
        ensures kept { OnErr result (self.new ≡ self.old) }
    {
        let (queue, out) = lane(self.alloc, self.room)?;
        let shared = self.shared(selection)?;
        let id = self.put(selection, OpenLane::new(shared, at, end, queue))?;
        Ok((id, out))
    }

    // A selection, shared with the lanes that are alike if they are for the same one.
    fn shared(&self, selection: &Selection) -> Result<Arc<Selection>, Memory>
        ensures { IfOk result (λ shared. shared.value ≡ selection.now) }
    {
        if let Some((_, lane)) = self.alike.get_index(0)
            && let Some(shared) = lane.share(selection)
        {
            return Ok(shared);
        }
        Ok(Arc::new(self.alloc, selection.copy(self.alloc)?)?)
    }

    // Puts a lane under a new number among those that are alike, if it is like them, or else among the others.
    fn put(&mut self, selection: &Selection, lane: OpenLane<N>) -> Result<u64, Memory>
        requires { lane.lane.selection ≡ selection.now }
        ensures fresh { IfOk result (λ id. open_at self.old.all id ≡ None) }
        ensures put { IfOk result (λ id. SetsLane self.old.all self.new.all id (Some lane)) }
        ensures room { self.new.room ≡ self.old.room }
        ensures kept { OnErr result (self.new ≡ self.old) }
    {
        let id = self.next;
        let next = id.checked_add(1).ok_or(Memory)?;
        if are_like(&self.alike, selection) {
            self.alike.insert(id, lane)?;
            self.next = next;
            return Ok(id);
        }
        put_placed(&mut self.placed, &mut self.index, id, selection, lane)?;
        self.next = next;
        Ok(id)
    }

    /// Closes a lane, if it is open.
    pub fn close(&mut self, id: u64)
        ensures closed { SetsLane self.old.all self.new.all id None }
        ensures room { self.new.room ≡ self.old.room }
    {
        let placed = self.placed.swap_remove(&id);
        self.index.drop_lane(id);
        strike(&mut self.called, id, placed);
        let alike = self.alike.swap_remove(&id);
        strike(&mut self.called, id, alike);
    }

    /// Calls the watcher of a lane, if it is open, by this bell from now on, or nobody.
    pub fn ring_by(&mut self, id: u64, bell: Option<Arc<Bell>>)
        ensures { self.new ≡ self.old }
    {
        if self.placed.contains_key(&id) {
            hang(&mut self.placed, id, bell);
        } else {
            hang(&mut self.alike, id, bell);
        }
    }

    /// Hands the bells of all watchers that are called to who rings.
    pub fn take_calls(&mut self, calls: &mut Calls)
        ensures { self.new ≡ self.old }
    {
        hand_over_all(&mut self.placed, &mut self.alike, &mut self.called, calls);
    }

    /// Takes note that a watcher has caught up to a revision of a cache with this end.
    pub fn catch_up(&mut self, id: u64, to: u64, end: u64)
        ensures caught { SetsLane self.old.all self.new.all id (option_map (caught_up to end) (open_at self.old.all id)) }
        ensures room { self.new.room ≡ self.old.room }
    {
        take_note(&mut self.placed, id, to, end);
        take_note(&mut self.alike, id, to, end);
    }

    /// The same where a watcher may have no lane.
    pub fn note_caught(&mut self, id: Option<u64>, to: u64, end: u64)
        ensures { LaneCaughtUp id to end self.old self.new }
    {
        if let Some(id) = id {
            self.catch_up(id, to, end);
        }
    }

    /// Whether the lane under a number is open, for this selection, and not behind.
    pub fn gets_all(&self, id: u64, selection: &Selection) -> bool
        ensures { IsTrue result ↔ GetsAll selection.now (open_at self.now.all id) }
    {
        match self.lane(id) {
            Some(lane) => lane.gets_all(selection),
            None => false,
        }
    }

    /// Whether the watch of such a lane, at a position, misses nothing.
    pub fn goes_along(&self, id: u64, selection: &Selection, at: u64) -> bool
        ensures { IsTrue result ↔ GoesAlong selection.now at (open_at self.now.all id) }
    {
        match self.lane(id) {
            Some(lane) => lane.goes_along(selection, at),
            None => false,
        }
    }

    // The lane under a number, if it is open.
    fn lane(&self, id: u64) -> Option<&OpenLane<N>>
        ensures { option_copied result ≡ open_at self.now.all id }
    {
        match self.placed.get(&id) {
            Some(lane) => Some(lane),
            None => self.alike.get(&id),
        }
    }

    /// How many lanes are open.
    pub fn len(&self) -> usize
        ensures { result ≡ length self.now.all }
    {
        self.placed.len() + self.alike.len()
    }

    /// How many of these are behind.
    pub fn count_behind(&self) -> usize
        ensures { result ≡ count_behind self.now.all }
    {
        self.placed
            .values()
            .chain(self.alike.values())
            .filter(|lane| lane.is_behind())
            .count()
    }

    /// Leaves all lanes behind.
    pub fn lag(&mut self)
        ensures behind { AreChanged left_behind self.old.all self.new.all }
        ensures room { self.new.room ≡ self.old.room }
    {
        lag_all(&mut self.placed, &mut self.called);
        lag_all(&mut self.alike, &mut self.called);
    }

    /// Tells the lanes of events up to `end`: each one that an event concerns and that isn't behind gets one batch,
    /// or is behind then.
    pub fn tell(&mut self, events: &[Event], end: u64, told: &mut Pass<N>)
        requires within { end ≤ end_from told.old.first told.old.seen }
        requires ready { AreReady (log_of N.base told.old) end events.now self.old.all }
        ensures told { told.new ≡ told.old }
        ensures lanes { AreTold (log_of N.base told.old) end self.old.all self.new.all }
        ensures room { self.new.room ≡ self.old.room }
    {
        tell_placed(
            &mut self.placed,
            &self.index,
            self.alloc,
            events,
            end,
            told,
            &mut self.called,
        );
        tell_every(
            &mut self.alike,
            self.alloc,
            events,
            end,
            told,
            &mut self.called,
        );
    }
}

// Whether lanes are for this selection; where there are none, whether it is one of all objects.
fn are_like<N: LogFacts>(lanes: &IndexMap<u64, OpenLane<N>>, selection: &Selection) -> bool
    requires { AreAlike lanes.now.entries }
    ensures { IsTrue result → Each (λ o. o.lane.selection ≡ selection.now) lanes.now.entries }
{
    match lanes.get_index(0) {
        Some((_, lane)) => lane.is_for(selection),
        None => selection.ns.is_none()
            && selection.labels.is_empty()
            && selection.fields.is_empty(),
    }
}

// Puts a lane into a map and its index, or into neither.
fn put_placed<N: LogFacts>(
    placed: &mut IndexMap<u64, OpenLane<N>>,
    index: &mut LaneIndex,
    id: u64,
    selection: &Selection,
    lane: OpenLane<N>,
) -> Result<(), Memory>
    requires of { lane.lane.selection ≡ selection.now }
    requires indexed { IsIndexed index.old placed.old.entries }
    requires free { open_at placed.old.entries id ≡ None }
    ensures put { OnOk result (SetsLane placed.old.entries placed.new.entries id (Some lane)) }
    ensures kept { OnErr result (placed.new.entries ≡ placed.old.entries) }
    ensures indexed { IsIndexed index.new placed.new.entries }
{
    index.add(id, selection)?;
    match placed.insert(id, lane) {
        Ok(_) => Ok(()),
        Err(_) => {
            index.drop_lane(id);
            Err(Memory)
        }
    }
}

// Takes note that the watcher of a lane, if it is there, has caught up.
fn take_note<N: LogFacts>(lanes: &mut IndexMap<u64, OpenLane<N>>, id: u64, to: u64, end: u64)
    ensures { SetsLane lanes.old.entries lanes.new.entries id (option_map (caught_up to end) (open_at lanes.old.entries id)) }
{
    if let Some(lane) = lanes.get_mut(&id) {
        lane.catch_up(to, end);
    }
}

fn lag_all<N: LogFacts>(lanes: &mut IndexMap<u64, OpenLane<N>>, called: &mut Vec<u64>)
    ensures { AreChanged left_behind lanes.old.entries lanes.new.entries }
{
    lanes.retain(
        |_, lane|
            ensures stays { result ≡ true }
            ensures lane { lane.new ≡ left_behind lane.old }
        {
            lane.lag(called);
            true
        },
    );
}
