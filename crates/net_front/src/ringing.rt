//! A client that rings the bell behind each write, counts its answers, notes when its watch has something to do, and
//! ends all watches where it is asked to.

ghost use Rattle.std.specs.Prelude.{◌≡◌, ◌⊎◌, true, false, None, Some, IsSome};
ghost use Rattle.net_front.specs.Probes.{facts_of};

use crate::probes::{is_live, is_ready};
use crate::schedule::Schedule;
use crate::shared::Desk;
use client_api::{Begun, Client, Got, ListNo, Listed, Resources, Took};
use kube_meta::{Memory, Resource};
use list_rules::{GetAsk, ListAsk};
use metrics::{CacheMetrics, Metrics, Verb};
use up_store::{OpNo, Operate, Transaction, TxWriteNo, WriteAsk, WriteNo, Written};
use watch_rules::WatchAsk;

/// A client, what its connection shares with others, the schedule of its watch, and the one resource that its log has,
/// where each has a log of its own.
#[derive(Drop)]
pub struct RingingClient<'a, C: Client> {
    client: C,
    desk: &'a Desk,
    schedule: &'a Schedule,
    own: Option<Resource>,
    ghost mirrored: { IsSome desk.now.followed → C.mirror ≡ true },
}

impl<'a, C: Client> RingingClient<'a, C> {
    /// This client, at this desk. Only a mirror's log has a peer that is followed.
    pub fn new(client: C, desk: &'a Desk, schedule: &'a Schedule) -> RingingClient<'a, C>
        requires mirrored { IsSome desk.now.followed → C.mirror ≡ true }
        ensures client { result.client ≡ client }
        ensures desk { result.desk.now ≡ desk.now }
        ensures alone { result.own ≡ None }
    {
        RingingClient {
            client,
            desk,
            schedule,
            own: None,
        }
    }

    /// The same, of a log that has this resource alone, as each has one at its server, which takes no operations.
    pub fn of(self, own: Resource) -> RingingClient<'a, C>
        ensures client { result.client ≡ self.entry.client }
        ensures desk { result.desk.now ≡ self.entry.desk.now }
        ensures alone { result.own ≡ Some own }
    {
        RingingClient {
            client: self.client,
            desk: self.desk,
            schedule: self.schedule,
            own: Some(own),
        }
    }

    // What its log's cache of a resource tells, if that is one of its own which the server has.
    fn shown(&self, cache: Option<CacheMetrics>, resource: Resource) -> Option<CacheMetrics>
        ensures { (result ≡ None) ⊎ (result ≡ cache) }
    {
        match self.own {
            Some(own) if own != resource || !self.desk.resources().has(own) => None,
            _ => cache,
        }
    }

    // Whether the peer is followed, where the log is a mirror's.
    fn is_followed(&self) -> Option<bool>
        ensures { C.mirror ≡ false → result ≡ None }
    {
        match &self.desk.followed {
            Some(followed) => Some(followed.is_followed()),
            None => None,
        }
    }

    // And whether it ever will be again.
    fn is_over(&self) -> Option<bool>
        ensures { C.mirror ≡ false → result ≡ None }
    {
        match &self.desk.followed {
            Some(followed) => Some(followed.is_over()),
            None => None,
        }
    }
}

impl<'a, C: Client> Client for RingingClient<'a, C> {
    ghost base = { C.base };

    ghost mirror = { C.mirror };

    ghost pass = { λ c. C.pass c.client };

    ghost facts = { λ c. facts_of c.own c.desk.now.followed (C.facts c.client) };

    ghost whole = { λ c. C.whole c.client };

    ghost cached = { λ c. C.cached c.client };

    ghost times = { λ c. C.times c.client };

    // Behind want of memory a write may be done; a refusal has changed nothing.
    fn write(&mut self, ask: &WriteAsk) -> Result<Written, WriteNo> {
        let written = self.client.write(ask);
        self.desk.counts.wrote(ask, &written);
        if matches!(written, Ok(_) | Err(WriteNo::Memory)) {
            self.desk.doorbell.ring();
        }
        written
    }

    fn transact(&mut self, ask: &Transaction) -> Result<Vec<Written>, TxWriteNo> {
        let written = self.client.transact(ask);
        self.desk.counts.transacted(&written);
        if matches!(written, Ok(_) | Err(TxWriteNo::Memory)) {
            self.desk.doorbell.ring();
        }
        written
    }

    fn get(&mut self, ask: &GetAsk) -> Result<Got, ListNo> {
        let answer = self.client.get(ask);
        self.desk.counts.read(Verb::Get, ask.resource, &answer);
        answer
    }

    fn list(&mut self, ask: &ListAsk) -> Result<Listed, ListNo> {
        let answer = self.client.list(ask);
        self.desk
            .counts
            .read(Verb::List, ask.selection.resource, &answer);
        answer
    }

    fn watch(&mut self, ask: &WatchAsk) -> Result<Begun, ListNo> {
        self.schedule.set(ask);
        let answer = self.client.watch(ask);
        self.desk
            .counts
            .read(Verb::Watch, ask.selection.resource, &answer);
        answer
    }

    fn take(&mut self, max: usize) -> Result<Took, Memory> {
        let took = self.client.take(max)?;
        self.desk.counts.took(&took);
        Ok(took)
    }

    fn end_watch(&mut self) {
        self.client.end_watch();
    }

    // A restart leaves all watches behind, and a disconnect ends them, as their clocks tell once they are rung.
    fn operate(&mut self, ask: Operate) -> Result<u64, OpNo> {
        let rings = matches!(ask, Operate::Restart | Operate::Disconnect);
        let disconnects = matches!(ask, Operate::Disconnect);
        let answer = self.client.operate(ask);
        self.desk.counts.operated(&answer);
        if disconnects {
            self.desk.disconnects.raise();
        }
        if rings {
            self.desk.doorbell.ring();
        }
        answer
    }

    fn metrics(&mut self) -> Result<Metrics, Memory> {
        let told = self.client.metrics()?;
        let served = Some(self.desk.counts.served(self.desk.mirrors()?)?);
        Ok(Metrics {
            revision: told.revision,
            floor: told.floor,
            generation: told.generation,
            pods: self.shown(told.pods, Resource::Pods),
            config_maps: self.shown(told.config_maps, Resource::ConfigMaps),
            deployments: self.shown(told.deployments, Resource::Deployments),
            served,
        })
    }

    fn resources(&self) -> Resources {
        self.desk.resources()
    }

    fn is_operable(&self) -> bool {
        match self.own {
            Some(_) => false,
            None => self.client.is_operable(),
        }
    }

    fn is_ready(&self) -> bool {
        is_ready(self.is_followed(), self.client.is_ready())
    }

    fn is_live(&self) -> bool {
        is_live(self.is_over())
    }

    fn refused(&mut self, method: &str, code: u16) {
        self.client.refused(method, code);
        self.desk.counts.refused(method, code);
    }

    fn tick(&mut self, ms: u64) {
        self.client.tick(ms);
    }
}
