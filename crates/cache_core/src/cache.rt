//! The cache.

ghost use Rattle.std.specs.Prelude.{◌≡◌, ◌<◌, ◌≤◌, ℕ, max, List, [], ◌++◌, length, IfOk, IfErr, OnOk, OnErr};
ghost use Rattle.rev_log.specs.Changes.{RevisionData};
ghost use Rattle.rev_log.specs.Logs.{Log};
ghost use Rattle.rev_log.specs.States.{IsStateAt};
ghost use Rattle.event_ring.specs.Rings.{since};
ghost use Rattle.up_api.specs.Settings.{AreInRange};
ghost use Rattle.cache_core.specs.Caches.{IsCacheOf, RefusesAt, log_at, held_events};
ghost use Rattle.cache_core.specs.Feeding.{IsHistoryOf, Feeds, Stays, IsBuilt, IsRebuilt};
ghost use Rattle.cache_core.specs.Steps.{part_events, MayFollow, HasFollowed, IsFedTo, HasCome, Keeps};

use crate::AtNo;
use crate::making::{events_made, tell};
use crate::replay::{push, push_all, replay, tree_of};
use crate::writing::{undo, write_all};
use event_ring::{Below, Event, Ring, Span};
use kube_meta::{Memory, Resource};
use obj_tree::{Snapshot, Tree};
use rev_log::Revision;
use std::alloc::Global;
use std::marker::Model;
use up_api::{History, Polled, Settings};

/// The cache of one resource: its objects as they stand at its end, and the last events. Times are in milliseconds.
#[derive(Drop)]
pub struct Cache {
    alloc: Global,
    resource: Resource,
    base: u64,
    end: u64,
    time: u64,
    tree: Tree,
    ring: Ring,
}

impl Model for Cache {
    ghost use Rattle.cache_core.specs.Caches.{CacheData};

    ghost Value = { CacheData };

    ghost view = { λ c. record { resource = c.resource; base = c.base; end = c.end; time = c.time; rows = c.tree; ring = c.ring } };
}

impl Cache {
    /// The cache that a history of the resource makes: the rows at its floor, and all revisions after it. Of these the
    /// ring holds what its window allows.
    pub fn new(
        alloc: Global,
        resource: Resource,
        history: History,
        settings: &Settings,
    ) -> Result<Cache, Memory>
        requires settings { AreInRange settings.now }
        requires history { (log : Log) × IsHistoryOf log resource history }
        ensures stands { IfOk result (λ cache. (log : Log) → IsHistoryOf log resource history → IsCacheOf (log_at log history.upto) cache) }
        ensures built { IfOk result (IsBuilt resource history settings.now) }
    {
        let mut ring = Ring::new(
            alloc,
            settings.window,
            settings.window_max,
            settings.fresh_ms,
            history.floor,
        )?;
        let mut tree = tree_of(alloc, history.rows)?;
        let groups = replay(alloc, &mut tree, &history.revisions)?;
        push_all(&mut ring, groups, 0);
        Ok(Cache {
            alloc,
            resource,
            base: history.floor,
            end: history.upto,
            time: 0,
            tree,
            ring,
        })
    }

    /// Takes in what a poll gave, and puts its events behind those of `fresh`. After want of memory the cache has taken
    /// in the first revisions of the poll, and `fresh` has their events.
    pub fn apply(&mut self, polled: &Polled, fresh: &mut Vec<Event>) -> Result<(), Memory>
        requires { (log : Log) × Feeds log self.old polled.now }
        ensures stands { (log : Log) → Feeds log self.old polled.now → IsCacheOf (log_at log self.new.end) self.new }
        ensures told { (log : Log) → Feeds log self.old polled.now →
            fresh.new.items ≡ fresh.old.items ++ held_events log self.old.resource self.old.end self.new.end }
        ensures done { OnOk result (self.new.end ≡ polled.now.upto) }
        ensures onward { (self.old.end ≤ self.new.end) × (self.new.end ≤ polled.now.upto) }
        ensures base { self.new.base ≡ self.old.base }
        ensures floor { self.old.ring.floor ≤ self.new.ring.floor }
        ensures stays { Stays self.old self.new }
    {
        follow(self, &polled.revisions, fresh)?;
        self.end = polled.upto;
        Ok(())
    }

    /// Is built anew from a history. The ring's capacity grows as at any push, but never falls, and what is replayed is
    /// stamped with the present time. After want of memory the cache is as it was.
    pub fn rebuild(&mut self, history: History) -> Result<(), Memory>
        requires { (log : Log) × IsHistoryOf log self.old.resource history }
        ensures stands { OnOk result ((log : Log) → IsHistoryOf log self.old.resource history → IsCacheOf (log_at log history.upto) self.new) }
        ensures rebuilt { OnOk result (IsRebuilt history self.old self.new) }
        ensures kept { OnErr result (self.new ≡ self.old) }
    {
        let (floor, upto) = (history.floor, history.upto);
        let mut tree = tree_of(self.alloc, history.rows)?;
        let groups = replay(self.alloc, &mut tree, &history.revisions)?;
        self.ring.clear(floor);
        push_all(&mut self.ring, groups, self.time);
        self.tree = tree;
        self.base = floor;
        self.end = upto;
        Ok(())
    }

    /// Tells it the time. It never goes back.
    pub fn tick(&mut self, ms: u64)
        ensures { self.new ≡ record self.old { time = max self.old.time ms } }
    {
        self.time = self.time.max(ms);
    }

    /// The resource.
    pub fn resource(&self) -> Resource
        ensures { result ≡ self.now.resource }
    {
        self.resource
    }

    /// The revision up to which it stands for the log.
    pub fn end(&self) -> u64
        ensures { result ≡ self.now.end }
    {
        self.end
    }

    /// The revision from which it was built last.
    pub fn base(&self) -> u64
        ensures { result ≡ self.now.base }
    {
        self.base
    }

    /// The floor of the ring: the least revision from which on all events are held.
    pub fn floor(&self) -> u64
        ensures { result ≡ self.now.ring.floor }
    {
        self.ring.floor()
    }

    /// How many events the ring keeps at most now.
    pub fn window(&self) -> usize
        ensures { result ≡ self.now.ring.capacity }
    {
        self.ring.capacity()
    }

    /// How many objects it holds.
    pub fn len(&self) -> usize
        ensures { result ≡ length self.now.rows }
    {
        self.tree.len()
    }

    /// The objects at its end. Later changes don't show in it.
    pub fn snapshot(&self) -> Result<Snapshot, Memory>
        ensures rows { IfOk result (λ snapshot. snapshot ≡ self.now.rows) }
        ensures state { IfOk result (λ snapshot. (log : Log) → IsCacheOf log self.now → IsStateAt log self.now.resource self.now.end snapshot) }
    {
        self.tree.snapshot()
    }

    /// The objects at an earlier revision, found by undoing the ring's events above it.
    pub fn at(&self, rev: u64) -> Result<Snapshot, AtNo>
        requires { rev ≤ self.now.end }
        ensures state { IfOk result (λ snapshot. (log : Log) → IsCacheOf log self.now → IsStateAt log self.now.resource rev snapshot) }
        ensures served { OnOk result (self.now.ring.floor ≤ rev) }
        ensures refused { IfErr result (RefusesAt self.now rev) }
    {
        let span = self.ring.since(rev)?;
        let mut tree = self.tree.copy()?;
        undo(&mut tree, &span)?;
        // The proof learns here that the keys rise.
        let _len = tree.len();
        Ok(tree.into_snapshot())
    }

    /// Lends the events above a revision, in order. One below the floor is refused.
    pub fn events_above(&self, at: u64) -> Result<Span<'_>, Below>
        ensures lent { IfOk result (λ span. (log : Log) → IsCacheOf log self.now → span ≡ held_events log self.now.resource at self.now.end) }
        ensures served { OnOk result (self.now.ring.floor ≤ at) }
        ensures refused { IfErr result (λ below. (below.asked ≡ at) × (below.floor ≡ self.now.ring.floor) × (at < self.now.ring.floor)) }
    {
        self.ring.since(at)
    }

    // Takes in a revision, and puts its events behind those of `fresh`. After want of memory all is as it was.
    fn step(&mut self, revision: &Revision, fresh: &mut Vec<Event>) -> Result<(), Memory>
        requires { MayFollow self.old revision.now }
        ensures done { OnOk result (HasFollowed self.old revision.now self.new) }
        ensures told { OnOk result (fresh.new.items ≡ fresh.old.items ++ part_events self.old.rows revision.now) }
        ensures kept { OnErr result (self.new ≡ self.old) }
        ensures untold { OnErr result (fresh.new.items ≡ fresh.old.items) }
    {
        let events = events_made(self.alloc, &self.tree, revision)?;
        let known = fresh.len();
        tell(self.alloc, fresh, &events)?;
        if let Err(no) = write_all(&mut self.tree, &events) {
            fresh.truncate(known);
            return Err(no);
        }
        push(&mut self.ring, events, self.time);
        self.end = revision.rev;
        Ok(())
    }
}

// Takes in the revisions of a poll, until memory is wanting.
fn follow(cache: &mut Cache, revisions: &[Revision], fresh: &mut Vec<Event>) -> Result<(), Memory>
    requires { (log : Log) × ((upto : ℕ) × IsFedTo log cache.old revisions.now upto) }
    ensures came { (log : Log) (upto : ℕ) → IsFedTo log cache.old revisions.now upto →
        (left : List RevisionData) × HasCome log cache.old cache.new fresh.old.items fresh.new.items left upto }
    ensures done { OnOk result ((log : Log) (upto : ℕ) → IsFedTo log cache.old revisions.now upto → IsFedTo log cache.new [] upto) }
    ensures keeps { Keeps cache.old cache.new }
{
    for revision in revisions {
        cache.step(revision, fresh)?;
    }
    Ok(())
}
