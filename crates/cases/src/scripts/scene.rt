//! A store, and the cache of its pods that follows it.

ghost use Rattle.std.specs.Prelude.{◌≡◌, ◌≤◌, [], false};
ghost use Rattle.kube_meta.specs.declared.resources.Resource.TheVariants.{Pods};

use crate::settings::{compactions_of, cuts_of, settings_of};
use cache_hub::{CatchNo, Caught, Hub};
use kube_meta::{Memory, Resource, Row};
use reflect_core::{Pumped, Reflector};
use rev_front::{Author, Blank};
use rev_log::Revision;
use select_all::Selection;
use std::alloc::Global;
use std::marker::Model;
use up_api::{Feed, History, LogFacts, Pass, Polled, UpNo, Upstream};
use up_store::{
    OldState, OpNo, ScriptedStore, Store, Transaction, TxWriteNo, WriteAsk, WriteNo, Written,
};
use watch_lane::LaneOut;

/// A store, a pass of it, the cache of its pods, and what keeps that up to date.
#[derive(Drop)]
pub struct Scene<N: LogFacts> {
    store: ScriptedStore<N>,
    pub told: Pass<N>,
    author: Author<N>,
    pub hub: Hub<N>,
    reflector: Reflector,
}

impl<N: LogFacts> Model for Scene<N> {
    ghost use Rattle.cache_hub.specs.Hubs.{HubData};

    ghost Value = { HubData };

    ghost view = { λ s. s.hub };

    ghost use Rattle.cases.specs.Scenes.{IsScene};

    ghost invariant = { λ s. IsScene N.base s.hub s.told s.reflector };
}

impl<N: LogFacts> Scene<N> {
    /// A new store and a cache at its first revision, set as a line says.
    pub fn new(alloc: Global, made: Blank<Revision>, line: &str) -> Result<Scene<N>, Memory>
        requires name { made ≡ N.log }
        requires base { N.base ≡ [] }
        requires own { N.mirror ≡ false }
    {
        let settings = settings_of(line);
        let (cuts, compactions) = (cuts_of(alloc, line)?, compactions_of(alloc, line)?);
        let (store, mut author) = Store::new(alloc, made, settings.history)?;
        let Some(script) = author.split(1) else {
            return Err(Memory);
        };
        let mut store = ScriptedStore::new(store, script, cuts);
        store.also_compact(compactions);
        let mut told = store.store().pass()?;
        let history = store.history(Resource::Pods, &mut told)?;
        let hub = Hub::new(alloc, Resource::Pods, history, &settings, &mut told)?;
        Ok(Scene {
            store,
            told,
            author,
            hub,
            reflector: Reflector::with_batch(Resource::Pods, settings.batch),
        })
    }

    /// A write.
    pub fn write(&mut self, ask: &WriteAsk) -> Result<Written, WriteNo> {
        self.store
            .store()
            .write(ask, &mut self.told, &mut self.author)
    }

    /// A transaction.
    pub fn transact(&mut self, transaction: &Transaction) -> Result<Vec<Written>, TxWriteNo> {
        self.store
            .store()
            .transact(transaction, &mut self.told, &mut self.author)
    }

    /// Cuts all feeds.
    pub fn cut(&mut self) -> Result<u64, OpNo> {
        self.store
            .store()
            .drop_feeds(&mut self.told, &mut self.author)
    }

    /// Compacts the log.
    pub fn compact(&mut self, at: u64) -> Result<u64, OpNo> {
        self.store
            .store()
            .compact(at, &mut self.told, &mut self.author)
    }

    /// The store's pods at a revision.
    pub fn list(&mut self, at: u64) -> Result<Vec<Row>, UpNo> {
        self.store.list_at(Resource::Pods, at, &mut self.told)
    }

    /// A feed of the store's pods behind a revision.
    pub fn begin(&mut self, at: u64) -> Result<Feed, UpNo> {
        self.store.begin(Resource::Pods, at, &mut self.told)
    }

    /// The next revisions of a feed.
    pub fn poll(&mut self, feed: &mut Feed, many: usize) -> Result<Polled, UpNo>
        requires some { 1 ≤ many }
    {
        feed.upto = feed.upto.min(self.told.end());
        self.store.poll(feed, many, &mut self.told)
    }

    /// All that the store still has of its pods.
    pub fn history(&mut self) -> Result<History, Memory> {
        self.store.history(Resource::Pods, &mut self.told)
    }

    /// What the store's pods at a revision are made of.
    pub fn old(&mut self, at: u64) -> Result<OldState, UpNo> {
        self.store
            .store()
            .old_state(Resource::Pods, at, &mut self.told)
    }

    /// The cache follows at least to a revision, or to the last one where that is below it.
    pub fn pump(&mut self, until: u64) -> Result<Pumped, Memory> {
        let until = until.min(self.told.shown());
        self.reflector
            .pump(&mut self.hub, &mut self.store, &mut self.told, until)
    }

    /// The cache is told the time.
    pub fn tick(&mut self, ms: u64) {
        self.hub.tick(ms);
    }

    /// A lane of the cache, behind its number.
    pub fn open(&mut self, selection: &Selection) -> Result<(u64, LaneOut<N>), Memory>
        requires { selection.now.resource ≡ Pods }
    {
        self.hub.open_lane(selection, self.hub.end())
    }

    /// What a watch without a lane is told that catches up.
    pub fn catch_up(
        &mut self,
        selection: &Selection,
        position: u64,
        many: usize,
    ) -> Result<Caught, CatchNo>
        requires of { selection.now.resource ≡ Pods }
        requires some { 1 ≤ many }
    {
        self.hub.catch_up(None, selection, position, many)
    }
}
