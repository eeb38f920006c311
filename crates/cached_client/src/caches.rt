//! How clients ask caches, however they are held.

ghost use Rattle.std.specs.Prelude.{◌≡◌, ◌≤◌, ℕ, IfOk, IfErr, IfSome, IfNone, OnOk, OnSome};
ghost use Rattle.rev_front.specs.Passes.{Extends, Pass as PassData, end_from, last_of};
ghost use Rattle.rev_log.specs.Changes.{RevisionData};
ghost use Rattle.select_all.specs.declared.selection.Meaning.TheVariants.{Any, Exact};
ghost use Rattle.up_api.specs.Sections.{Learns};
ghost use Rattle.client_api.specs.Caches.{TakesWithin, UnlessExact};
ghost use Rattle.client_api.specs.Metered.{IsCacheMetrics};
ghost use Rattle.client_api.specs.Turns.{IsWatchTurn};
ghost use Rattle.cached_client.specs.Caches.{CachesFacts, CachesState, KnowsOwn, ReadsFor};
ghost use Rattle.cached_client.specs.Serving.{IsFound, IsServed, IsShown, IsUnserved, found_at};
ghost use Rattle.cached_client.specs.Watching.{IsLoadedTurn, IsLostAt};

use crate::lanes::LaneSign;
use crate::reads::Found;
use cache_hub::CatchNo;
use client_api::{ListNo, Took};
use kube_meta::{Memory, Resource};
use metrics::CacheMetrics;
use obj_tree::Snapshot;
use select_all::{Meaning, Selection};
use up_api::{LogFacts, Pass};

/// A cache of each resource of one log, and the store behind them, as one client has them: alone, or shared with
/// others. What a client asks of them stands in smaller traits above this one, so that a call is proved over what it
/// asks alone. Each call is one section of a cache or of the store; no call makes a load of the revision.
pub trait Caches<N: LogFacts> {
    // nobody else holds the log
    ghost alone: { Type 0 };

    // what none of the calls changes
    ghost facts: { Self → CachesFacts };

    // how often the store was read and how far the caches are, where nobody else holds them
    ghost cached: { Self → CachesState };

    /// Tells the pass all of the log, where nobody else holds it.
    fn meet(&mut self, told: &mut Pass<N>)
        ensures same { self.new ≡ self.old }
        ensures learns { Learns told.old told.new }
        ensures knows { KnowsOwn (facts self.new) told.new };

    /// The pass knows no less of the log than one that knew it whole, so it knows it whole too.
    fn settle(&mut self, told: &mut Pass<N>)
        requires knew { (p : PassData RevisionData) × KnowsOwn (facts self.old) p × Extends p told.old }
        ensures same { self.new ≡ self.old }
        ensures told { told.new ≡ told.old }
        ensures knows { KnowsOwn (facts self.new) told.new };
}

/// What reads ask of caches.
pub trait Reads<N: LogFacts>: Caches<N> {
    /// The objects of a resource at a revision that will do for the meaning, or where they are found.
    fn find(
        &mut self,
        resource: Resource,
        told: &mut Pass<N>,
        meaning: Meaning,
    ) -> Result<Found, ListNo>
        requires shown { IsShown meaning told.old.shown }
        ensures facts { Self.facts self.new ≡ Self.facts self.old }
        ensures learns { Learns told.old told.new }
        ensures found { IfOk result (IsFound N.base resource meaning told.old.shown told.new) }
        ensures refused { IfErr result (IsUnserved meaning told.new) }
        ensures reads { ReadsFor resource told.old told.new (Self.cached self.old) (Self.cached self.new) }
        ensures within { Self.alone → IfOk result (λ found. UnlessExact meaning (found_at found ≡ (Self.cached self.new).ends resource)) };

    /// The objects of a resource at a revision that was shown, from the store.
    fn older(&mut self, resource: Resource, told: &mut Pass<N>, at: u64) -> Result<Snapshot, ListNo>
        requires shown { at ≤ told.old.shown }
        ensures facts { Self.facts self.new ≡ Self.facts self.old }
        ensures learns { Learns told.old told.new }
        ensures served { IfOk result (IsServed N.base resource (Exact at) 0 told.new at) }
        ensures refused { IfErr result (IsUnserved (Exact at) told.new) };
}

/// What watches ask of caches.
pub trait Watches<N: LogFacts>: Caches<N> {
    /// What the caches have of one watch, until it is closed. Its sign is read behind the count of rings on which the
    /// watcher rests then: whatever leaves the lane behind later than that rings it behind that count.
    type Lane: LaneSign;

    /// The objects of the selection's resource at the end of its cache, and what the caches have of a watch from
    /// there.
    fn start_at_end(
        &mut self,
        told: &mut Pass<N>,
        selection: &Selection,
    ) -> Result<(u64, Snapshot, Self::Lane), ListNo>
        ensures facts { Self.facts self.new ≡ Self.facts self.old }
        ensures learns { Learns told.old told.new }
        ensures served { IfOk result (λ r. IsServed N.base selection.now.resource Any told.old.shown told.new r.0 r.1) }
        ensures refused { IfErr result (λ no. no ≡ ListNo.Memory) }
        ensures reads { ReadsFor selection.now.resource told.old told.new (Self.cached self.old) (Self.cached self.new) }
        ensures within { Self.alone → IfOk result (λ r. r.0 ≡ (Self.cached self.new).ends selection.now.resource) };

    /// What the caches have of a watch that stands at a position. It is refused where what came after that may not all
    /// be kept.
    fn start_from(
        &mut self,
        told: &mut Pass<N>,
        selection: &Selection,
        at: u64,
    ) -> Result<Self::Lane, CatchNo>
        ensures facts { Self.facts self.new ≡ Self.facts self.old }
        ensures learns { Learns told.old told.new }
        ensures lost { IfErr result (IsLostAt N.base (Self.facts self.old).window selection.now at told.new) }
        ensures reads { ReadsFor selection.now.resource told.old told.new (Self.cached self.old) (Self.cached self.new) };

    /// What was sent to a watch that stands at a position, if something was.
    fn sent(
        &mut self,
        told: &mut Pass<N>,
        lane: &mut Self::Lane,
        selection: &Selection,
        position: u64,
    ) -> Option<Result<Took, Memory>>
        ensures same { self.new ≡ self.old }
        ensures learns { Learns told.old told.new }
        ensures none { IfNone result (told.new ≡ told.old) }
        ensures knows { OnSome result (KnowsOwn (Self.facts self.new) told.new) }
        ensures turn { IfSome result (λ sent. IfOk sent (λ took. (window : ℕ) (p : PassData RevisionData) →
            IsWatchTurn N.base window p (record { selection = selection.now; position = position }) took told.new)) }
        ensures within { Self.alone → IfSome result (λ sent. IfOk sent (λ took. TakesWithin took ((Self.cached self.new).ends selection.now.resource))) };

    /// Closes what the caches have of a watch.
    fn close(&self, lane: Self::Lane);

    /// What the caches tell a watch at a turn, by about `max` lines at most, at a time in milliseconds.
    fn turn(
        &mut self,
        told: &mut Pass<N>,
        lane: &mut Self::Lane,
        selection: &Selection,
        position: u64,
        max: usize,
        ms: u64,
    ) -> Result<Took, Memory>
        requires max { 1 ≤ max }
        requires loaded { last_of told.old ≤ told.old.shown }
        ensures facts { Self.facts self.new ≡ Self.facts self.old }
        ensures learns { Learns told.old told.new }
        ensures turn { IfOk result (λ took. IsLoadedTurn N.base (Self.facts self.old).window told.old (record { selection = selection.now; position = position }) took told.new) }
        ensures reads { ReadsFor selection.now.resource told.old told.new (Self.cached self.old) (Self.cached self.new) }
        ensures within { Self.alone → IfOk result (λ took. TakesWithin took ((Self.cached self.new).ends selection.now.resource)) };
}

/// What a monitor asks of caches.
pub trait Measures<N: LogFacts>: Caches<N> {
    /// What a monitor is told of the cache of a resource.
    fn metrics(&mut self, resource: Resource, told: &mut Pass<N>) -> CacheMetrics
        ensures facts { Self.facts self.new ≡ Self.facts self.old }
        ensures cached { Self.cached self.new ≡ Self.cached self.old }
        ensures learns { Learns told.old told.new }
        ensures metrics { IsCacheMetrics N.base resource told.new result };

    /// Sees the log at least up to a revision that was shown, and answers its generation then.
    fn see(&mut self, told: &mut Pass<N>, reached: u64) -> Result<u64, Memory>
        requires shown { reached ≤ told.old.shown }
        ensures facts { Self.facts self.new ≡ Self.facts self.old }
        ensures cached { Self.cached self.new ≡ Self.cached self.old }
        ensures learns { Learns told.old told.new }
        ensures fresh { OnOk result (reached ≤ end_from told.new.first told.new.seen) }
        ensures generation { IfOk result (λ generation. generation ≡ told.new.gen) };
}
