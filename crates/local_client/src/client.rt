//! The local client.

ghost use Rattle.std.specs.Prelude.{◌≡◌, ℕ, ◌≤◌, [], false, None, IfOk};
ghost use Rattle.up_api.specs.Settings.{AreInRange};
ghost use Rattle.rev_front.specs.Passes.{idle_author, whole_right};
ghost use Rattle.local_client.specs.CachedLogs.{IsNewLog, known_log};

use crate::making::new_caches;
use crate::sole::SoleCaches;
use cached_client::{Watch, begin, get, list, measure, stand, turn};
use client_api::{Begun, Client, Got, ListNo, Listed, Resources, Took};
use kube_meta::Memory;
use list_rules::{GetAsk, ListAsk};
use metrics::Metrics;
use rev_front::{Author, Blank};
use rev_log::Revision;
use std::alloc::Global;
use up_api::{LogFacts, Pass, Settings};
use up_store::{OpNo, Operate, Transaction, TxWriteNo, WriteAsk, WriteNo, Written};
use watch_rules::WatchAsk;

/// A client of a log that nobody else holds, which answers from a cache of each resource.
#[derive(Drop)]
pub struct LocalClient<N: LogFacts> {
    caches: SoleCaches<N>,
    told: Pass<N>,
    author: Author<N>,
    watch: Option<Watch<()>>,
    heard: u64,
}

impl<N: LogFacts> LocalClient<N> {
    /// A client of a new log.
    pub fn new(
        alloc: Global,
        blank: Blank<Revision>,
        settings: &Settings,
    ) -> Result<LocalClient<N>, Memory>
        requires name { blank ≡ N.log }
        requires base { N.base ≡ [] }
        requires own { N.mirror ≡ false }
        requires settings { AreInRange settings.now }
        ensures log { IfOk result (λ client. IsNewLog N.log.first settings.now (known_log client.caches client.told)) }
        ensures idle { IfOk result (λ client. (client.watch ≡ None) × (client.heard ≡ 0)) }
        ensures author { IfOk result (λ client. client.author ≡ idle_author whole_right) }
    {
        let (caches, told, author) = new_caches(alloc, blank, settings)?;
        Ok(LocalClient {
            caches,
            told,
            author,
            watch: None,
            heard: 0,
        })
    }

    /// Lets the client go, and with it the log and its caches.
    pub fn close(self) {
        drop(self);
    }
}

impl<N: LogFacts> Client for LocalClient<N> {
    ghost use Rattle.std.specs.Prelude.{Some, true};
    ghost use Rattle.client_api.specs.Facts.{all_served};
    ghost use Rattle.up_store.specs.Stores.{KnowsAll};
    ghost use Rattle.local_client.specs.Caches.{cached_in, times_of, window_in};

    ghost base = { N.base };

    ghost mirror = { N.mirror };

    ghost pass = { λ c. c.told };

    ghost facts = { λ c. record {
      watching = c.watch;
      heard = c.heard;
      did = c.author;
      window = window_in c.caches.caches;
      sole_history = Some c.caches.store.history;
      resources = all_served;
      operable = true;
    } };

    ghost whole = { λ c. KnowsAll c.caches.store.whole c.told };

    ghost cached = { λ c. cached_in c.caches };

    ghost times = { λ c. times_of c.caches.caches };

    fn write(&mut self, ask: &WriteAsk) -> Result<Written, WriteNo> {
        self.caches.write(ask, &mut self.told, &mut self.author)
    }

    fn transact(&mut self, ask: &Transaction) -> Result<Vec<Written>, TxWriteNo> {
        self.caches.transact(ask, &mut self.told, &mut self.author)
    }

    fn get(&mut self, ask: &GetAsk) -> Result<Got, ListNo> {
        // The proof learns here that the count of reads fits.
        let _reads = self.caches.reads();
        get(&mut self.caches, &mut self.told, ask)
    }

    fn list(&mut self, ask: &ListAsk) -> Result<Listed, ListNo> {
        let _reads = self.caches.reads();
        list(self.caches.alloc, &mut self.caches, &mut self.told, ask)
    }

    fn watch(&mut self, ask: &WatchAsk) -> Result<Begun, ListNo> {
        let _reads = self.caches.reads();
        let (begun, watch) = begin(self.caches.alloc, &mut self.caches, &mut self.told, ask)?;
        self.watch = Some(watch);
        Ok(begun)
    }

    fn take(&mut self, max: usize) -> Result<Took, Memory> {
        let _reads = self.caches.reads();
        let Some(watch) = &mut self.watch else {
            unreachable!()
        };
        let took = turn(&mut self.caches, &mut self.told, watch, max, self.heard)?;
        let _lost = stand(&mut self.watch, &took);
        Ok(took)
    }

    fn end_watch(&mut self) {
        self.watch = None;
    }

    fn operate(&mut self, ask: Operate) -> Result<u64, OpNo> {
        self.caches.operate(ask, &mut self.told, &mut self.author)
    }

    fn metrics(&mut self) -> Result<Metrics, Memory> {
        measure(&mut self.caches, &mut self.told)
    }

    fn resources(&self) -> Resources {
        Resources::ALL
    }

    fn is_operable(&self) -> bool {
        true
    }

    fn is_ready(&self) -> bool {
        true
    }

    fn tick(&mut self, ms: u64) {
        self.heard = self.heard.max(ms);
        if let Some(watch) = &self.watch {
            self.caches.tick(watch.selection.resource, ms);
        }
    }
}
