//! Doors to one store, for many threads.

ghost use Rattle.std.specs.Prelude.{◌≡◌, ◌-◌, ◌≤◌, ◌^◌, length, IfErr, IfOk, true};
ghost use Rattle.rev_front.specs.Passes.{Whole, ordered, pass_from, whole_right};
ghost use Rattle.rev_log.specs.Changes.{RevisionData};
ghost use Rattle.rev_log.specs.States.{IsStateAt};
ghost use Rattle.up_api.specs.Sections.{log_of, Learns, HasSeenAll, RefusesAt, Sections};
ghost use Rattle.up_store.specs.Hearing.{AreAscending, IsHearReply, IsFollowReply, IsAnewReply};
ghost use Rattle.up_store.specs.Replies.{IsWriteReply, IsTransactionReply, IsCutReply, IsCompactionReply};
ghost use Rattle.up_store.specs.Stores.{obeyed, paid, paid_for};
ghost use Rattle.up_store.specs.Transacting.{answers_in};

use crate::transacting::share_all;
use crate::writing::share;
use crate::{HearNo, OpNo, Store, Transaction, TxWriteNo, WriteAsk, WriteNo, Written};
use kube_meta::{Memory, Resource, Row};
use obj_tree::Snapshot;
use rev_front::Author;
use rev_log::Revision;
use std::alloc::Global;
use std::sync::{Arc, Mutex, Wait};
use up_api::{Feed, History, LogFacts, Pass, Polled, UpNo, Upstream};

/// A door to one store, which stands behind a lock. Each call is one section under the lock. Another thread may have
/// changed the store between two of them, so contracts tell a call by what its pass knew before and knows afterwards.
/// Rows and histories are made once the lock is let go: under it what they are made of is shared.
#[derive(Drop)]
pub struct StoreDoor<N: LogFacts, R: Wait + Copy> {
    rt: R,
    alloc: Global,
    store: Arc<Mutex<Store<N>>>,
}

impl<N: LogFacts, R: Wait + Copy> StoreDoor<N, R> {
    /// The first door to this store, which waits for the lock by `rt`.
    pub fn new(rt: R, store: Store<N>) -> Result<StoreDoor<N, R>, Memory> {
        let alloc = store.alloc;
        Ok(StoreDoor {
            rt,
            alloc,
            store: Arc::new(alloc, Mutex::new(store))?,
        })
    }

    /// Another door to the same store.
    pub fn again(&self) -> Result<StoreDoor<N, R>, Memory> {
        Ok(StoreDoor {
            rt: self.rt,
            alloc: self.alloc,
            store: self.store.clone()?,
        })
    }

    /// Bounds the bytes that the revisions above the floor carry: from now on the floor follows behind each change, in
    /// the same section. The last revision with changes stays. It is an order of this author.
    pub fn bound_bytes(&self, bytes: u64, author: &mut Author<N>)
        ensures { author.new ≡ ordered author.old }
    {
        let mut store = self.store.lock(&self.rt);
        store.bound_bytes(bytes, author);
        store.trim();
    }

    /// Makes a write, if nothing refuses it; the first refusal that holds is answered. The object is copied before the
    /// lock is taken.
    pub fn write(
        &self,
        ask: &WriteAsk,
        told: &mut Pass<N>,
        author: &mut Author<N>,
    ) -> Result<Written, WriteNo>
        ensures learns { Learns told.old told.new }
        ensures section { HasSeenAll told.new }
        ensures reply { IsWriteReply N.base N.mirror told.old ask.now result told.new }
        ensures author { author.new ≡ paid result author.old }
    {
        let shared = share(self.alloc, ask);
        let mut store = self.store.lock(&self.rt);
        let answer = store.write_shared(ask, shared, told, author);
        store.trim();
        answer
    }

    /// Makes a transaction: all its writes at one revision, or none of them. The answers stand in the order of the
    /// writes. The objects are copied before the lock is taken.
    pub fn transact(
        &self,
        ask: &Transaction,
        told: &mut Pass<N>,
        author: &mut Author<N>,
    ) -> Result<Vec<Written>, TxWriteNo>
        ensures learns { Learns told.old told.new }
        ensures section { HasSeenAll told.new }
        ensures reply { IsTransactionReply N.base N.mirror told.old ask.now (answers_in result) told.new }
        ensures author { author.new ≡ paid result author.old }
    {
        let shared = share_all(self.alloc, ask.items());
        let mut store = self.store.lock(&self.rt);
        let answer = store.transact_shared(ask, shared, told, author);
        store.trim();
        answer
    }

    /// Adds a revision of the peer's log, which is a mirror's next one, and answers its number.
    pub fn hear(
        &self,
        revision: Revision,
        told: &mut Pass<N>,
        author: &mut Author<N>,
    ) -> Result<u64, HearNo>
        requires mirror { N.mirror ≡ true }
        requires last { revision.rev ≤ 2 ^ 62 }
        ensures learns { Learns told.old told.new }
        ensures section { HasSeenAll told.new }
        ensures reply { IsHearReply N.base told.old revision result told.new }
        ensures author { author.new ≡ paid result author.old }
    {
        let mut store = self.store.lock(&self.rt);
        let answer = store.hear_next(revision, told, author);
        store.trim();
        answer
    }

    /// Adds the revisions of the peer's log that follow `from`, if that is the mirror's end, up to `to`: these, and all
    /// others between them and behind them, at which nothing changes. It adds all of them or none, in one section.
    /// Answers the log's end.
    pub fn follow(
        &self,
        from: u64,
        revisions: Vec<Revision>,
        to: u64,
        told: &mut Pass<N>,
        author: &mut Author<N>,
    ) -> Result<u64, HearNo>
        requires mirror { N.mirror ≡ true }
        requires rising { AreAscending from revisions.items to }
        requires last { to ≤ 2 ^ 62 }
        ensures learns { Learns told.old told.new }
        ensures section { HasSeenAll told.new }
        ensures reply { IsFollowReply N.base told.old from revisions.items to result told.new }
        ensures author { author.new ≡ paid_for (to - from) result author.old }
    {
        let mut store = self.store.lock(&self.rt);
        let answer = store.follow(from, revisions, to, told, author);
        store.trim();
        answer
    }

    /// Adds the revisions of the peer's log that follow `from`, as `follow` does, and raises the floor to the last of
    /// them, all in one section: no other section sees a part of that, and none is served what is below.
    pub fn begin_anew(
        &self,
        from: u64,
        revisions: Vec<Revision>,
        to: u64,
        told: &mut Pass<N>,
        author: &mut Author<N>,
    ) -> Result<u64, HearNo>
        requires mirror { N.mirror ≡ true }
        requires rising { AreAscending from revisions.items to }
        requires last { to ≤ 2 ^ 62 }
        ensures learns { Learns told.old told.new }
        ensures section { HasSeenAll told.new }
        ensures reply { IsAnewReply N.base told.old from revisions.items to result told.new }
        ensures author { author.new ≡ paid_for (to - from) result author.old }
    {
        self.store
            .lock(&self.rt)
            .begin_anew(from, revisions, to, told, author)
    }

    /// Cuts all feeds: their next polls are refused. Answers the new generation of feeds.
    pub fn drop_feeds(&self, told: &mut Pass<N>, author: &mut Author<N>) -> Result<u64, OpNo>
        ensures learns { Learns told.old told.new }
        ensures section { HasSeenAll told.new }
        ensures reply { IsCutReply told.old result told.new }
        ensures author { author.new ≡ obeyed result author.old }
    {
        self.store.lock(&self.rt).drop_feeds(told, author)
    }

    /// Compacts the log: states and feeds below the revision `at` are refused from then on. Answers the floor.
    pub fn compact(&self, at: u64, told: &mut Pass<N>, author: &mut Author<N>) -> Result<u64, OpNo>
        ensures learns { Learns told.old told.new }
        ensures section { HasSeenAll told.new }
        ensures reply { IsCompactionReply at told.old result told.new }
        ensures author { author.new ≡ obeyed result author.old }
    {
        self.store.lock(&self.rt).compact(at, told, author)
    }

    /// Tells a pass the whole log, and shows that the author that has all parts of the right to commit has committed
    /// all of it, and no other more than there is.
    pub fn audit(&self, told: &mut Pass<N>, author: &mut Author<N>)
        ensures learns { Learns told.old told.new }
        ensures section { HasSeenAll told.new }
        ensures author { author.new ≡ author.old }
        ensures within { author.old.own ≤ length told.new.seen }
        ensures all { author.old.parts ≡ whole_right → author.old.own ≡ length told.new.seen }
    {
        self.store.lock(&self.rt).audit(told, author)
    }

    /// A pass that knows the whole log.
    pub fn pass(&self) -> Result<Pass<N>, Memory>
        ensures { IfOk result (λ p. (whole : Whole RevisionData) × (p ≡ pass_from whole p.seat)) }
    {
        self.store.lock(&self.rt).pass()
    }

    /// The objects of the resource at the revision `at`, in pages of which those that no revision changed are the
    /// store's. They are made once the lock is let go.
    pub fn state_at(
        &self,
        resource: Resource,
        at: u64,
        told: &mut Pass<N>,
    ) -> Result<Snapshot, UpNo>
        ensures learns { Learns told.old told.new }
        ensures section { Sections result told.old told.new }
        ensures state { IfOk result (λ state. IsStateAt (log_of N.base told.new) resource at state) }
        ensures served { IfOk result (λ state. (told.new.floor ≤ at) × (at ≤ told.new.shown)) }
        ensures refused { IfErr result (RefusesAt told.new at) }
    {
        let old = self.store.lock(&self.rt).old_state(resource, at, told)?;
        Ok(old.made()?)
    }

    /// How many times states and histories were read, refused calls included, up to 2 ^ 62.
    pub fn reads(&self) -> u64
        ensures { result ≤ 2 ^ 62 }
    {
        self.store.lock(&self.rt).reads()
    }
}

impl<N: LogFacts, R: Wait + Copy> Upstream<N> for StoreDoor<N, R> {
    ghost use Rattle.std.specs.Prelude.{None};

    ghost own = { λ _. None };

    ghost reads = { λ _. None };

    ghost history = { λ _. None };

    fn list_at(
        &mut self,
        resource: Resource,
        at: u64,
        told: &mut Pass<N>,
    ) -> Result<Vec<Row>, UpNo> {
        let old = self.store.lock(&self.rt).old_state(resource, at, told)?;
        Ok(old.rows(self.alloc)?)
    }

    fn begin(&mut self, resource: Resource, at: u64, told: &mut Pass<N>) -> Result<Feed, UpNo> {
        self.store.lock(&self.rt).begin(resource, at, told)
    }

    fn poll(&mut self, feed: &mut Feed, max: usize, told: &mut Pass<N>) -> Result<Polled, UpNo> {
        self.store.lock(&self.rt).poll(feed, max, told)
    }

    fn history(&mut self, resource: Resource, told: &mut Pass<N>) -> Result<History, Memory> {
        let old = self.store.lock(&self.rt).old_history(resource, told)?;
        Ok(old.made(self.alloc)?)
    }
}
