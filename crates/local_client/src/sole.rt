//! A store with a cache of each resource, which nobody else holds.

ghost use Rattle.std.specs.Prelude.{◌≡◌, ◌≤◌, ◌^◌, ℕ, IfOk, OnOk};
ghost use Rattle.up_api.specs.Sections.{Learns};
ghost use Rattle.up_store.specs.Replies.{IsWriteReply, IsTransactionReply, IsOperationReply};
ghost use Rattle.up_store.specs.Stores.{KnowsAll, commanded, paid};
ghost use Rattle.up_store.specs.Transacting.{answers_in};
ghost use Rattle.up_store.specs.declared.operations.Operate.TheVariants as operations;
ghost use Rattle.client_api.specs.Alone.{SoleWrite, SoleTransact, SoleOperate};
ghost use Rattle.client_api.specs.Facts.{IsOnward, with_time};
ghost use Rattle.local_client.specs.Caches.{AreBuiltAnew, cached_in, facts_in, times_of, window_in};

use cached_client::{CacheState, OfConfigMaps, OfDeployments, OfPods, SeenWindow};
use kube_meta::{Memory, Resource};
use rev_front::Author;
use std::alloc::Global;
use std::marker::Model;
use up_api::{LogFacts, Pass};
use up_store::{OpNo, Operate, Store, Transaction, TxWriteNo, WriteAsk, WriteNo, Written};

/// The store of a log, and a cache of each resource.
#[derive(Drop)]
pub struct SoleCaches<N: LogFacts> {
    pub(crate) alloc: Global,
    pub(crate) store: Store<N>,
    pub(crate) pods: CacheState<N, OfPods, SeenWindow>,
    pub(crate) config_maps: CacheState<N, OfConfigMaps, SeenWindow>,
    pub(crate) deployments: CacheState<N, OfDeployments, SeenWindow>,
}

impl<N: LogFacts> Model for SoleCaches<N> {
    ghost use Rattle.local_client.specs.Caches.{HaveOneWindow, SoleData};

    ghost Value = { SoleData };

    ghost view = { λ c. record {
      store = c.store;
      caches = record { pods = c.pods; config_maps = c.config_maps; deployments = c.deployments };
    } };

    ghost invariant = { λ c. HaveOneWindow (record { pods = c.pods; config_maps = c.config_maps; deployments = c.deployments }) };
}

impl<N: LogFacts> SoleCaches<N> {
    /// Makes a write.
    pub fn write(
        &mut self,
        ask: &WriteAsk,
        told: &mut Pass<N>,
        author: &mut Author<N>,
    ) -> Result<Written, WriteNo>
        ensures onward { IsOnward told.old told.new }
        ensures answer { IsWriteReply N.base N.mirror told.old ask.now result told.new }
        ensures sole { KnowsAll self.old.store.whole told.old → SoleWrite N.base N.mirror self.old.store.history told.old ask.now result told.new }
        ensures whole { KnowsAll self.new.store.whole told.new }
        ensures author { author.new ≡ paid result author.old }
        ensures rest { self.new ≡ record self.old { store = record self.old.store { whole = self.new.store.whole } } }
    {
        let answer = self.store.write(ask, told, author);
        let _known = told.shown();
        answer
    }

    /// Makes a transaction.
    pub fn transact(
        &mut self,
        ask: &Transaction,
        told: &mut Pass<N>,
        author: &mut Author<N>,
    ) -> Result<Vec<Written>, TxWriteNo>
        ensures onward { IsOnward told.old told.new }
        ensures answer { IsTransactionReply N.base N.mirror told.old ask.now (answers_in result) told.new }
        ensures sole { KnowsAll self.old.store.whole told.old → SoleTransact N.base N.mirror self.old.store.history told.old ask.now (answers_in result) told.new }
        ensures whole { KnowsAll self.new.store.whole told.new }
        ensures author { author.new ≡ paid result author.old }
        ensures rest { self.new ≡ record self.old { store = record self.old.store { whole = self.new.store.whole } } }
    {
        let answer = self.store.transact(ask, told, author);
        let _known = told.shown();
        answer
    }

    /// Does an operation. Where all open watches are to end, that is up to whoever serves them.
    pub fn operate(
        &mut self,
        ask: Operate,
        told: &mut Pass<N>,
        author: &mut Author<N>,
    ) -> Result<u64, OpNo>
        ensures onward { IsOnward told.old told.new }
        ensures answer { IsOperationReply told.old ask result told.new }
        ensures sole { KnowsAll self.old.store.whole told.old → SoleOperate told.old ask result told.new }
        ensures whole { KnowsAll self.new.store.whole told.new }
        ensures author { author.new ≡ commanded ask result author.old }
        ensures history { self.new.store.history ≡ self.old.store.history }
        ensures window { window_in self.new.caches ≡ window_in self.old.caches }
        ensures times { times_of self.new.caches ≡ times_of self.old.caches }
        ensures anew { ask ≡ operations.Restart → OnOk result (AreBuiltAnew self.old.caches self.new.caches) }
    {
        match ask {
            Operate::Cut => {
                let answer = self.store.drop_feeds(told, author);
                let _known = told.shown();
                answer
            }
            Operate::Compact { at } => {
                let answer = self.store.compact(at, told, author);
                let _known = told.shown();
                answer
            }
            Operate::Restart => self.restart(told),
            Operate::Disconnect => {
                self.store.tell(told);
                let _known = told.shown();
                Ok(told.floor())
            }
        }
    }

    // Builds all caches anew, and answers the compaction floor.
    fn restart(&mut self, told: &mut Pass<N>) -> Result<u64, OpNo>
        ensures onward { IsOnward told.old told.new }
        ensures answer { IsOperationReply told.old operations.Restart result told.new }
        ensures sole { KnowsAll self.old.store.whole told.old → SoleOperate told.old operations.Restart result told.new }
        ensures whole { KnowsAll self.new.store.whole told.new }
        ensures facts { facts_in self.new ≡ facts_in self.old }
        ensures anew { OnOk result (AreBuiltAnew self.old.caches self.new.caches) }
    {
        let rebuilt = self.rebuild_each(told);
        self.store.tell(told);
        let _known = told.shown();
        rebuilt?;
        Ok(told.floor())
    }

    // Builds each cache anew. After want of memory each is the old one or the new one.
    fn rebuild_each(&mut self, told: &mut Pass<N>) -> Result<u64, Memory>
        ensures learns { Learns told.old told.new }
        ensures facts { facts_in self.new ≡ facts_in self.old }
        ensures anew { OnOk result (AreBuiltAnew self.old.caches self.new.caches) }
    {
        self.pods.rebuild(&mut self.store, told)?;
        self.config_maps.rebuild(&mut self.store, told)?;
        self.deployments.rebuild(&mut self.store, told)
    }

    /// How many times states and histories were read.
    pub fn reads(&self) -> u64
        ensures answer { result ≡ self.now.store.reads }
        ensures fits { self.now.store.reads ≤ 2 ^ 62 }
    {
        self.store.reads()
    }

    /// Tells the cache of a resource the time.
    pub fn tick(&mut self, resource: Resource, ms: u64)
        ensures store { self.new.store ≡ self.old.store }
        ensures times { times_of self.new.caches ≡ with_time resource ms (times_of self.old.caches) }
        ensures cached { cached_in self.new ≡ cached_in self.old }
        ensures window { window_in self.new.caches ≡ window_in self.old.caches }
    {
        match resource {
            Resource::Pods => self.pods.tick(ms),
            Resource::ConfigMaps => self.config_maps.tick(ms),
            Resource::Deployments => self.deployments.tick(ms),
        }
    }
}
