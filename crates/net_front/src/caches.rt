//! The caches of the logs that a server has beside its pods', where each resource has a log of its own.

use bells::Calls;
use kube_meta::Memory;
use shared_client::Cacher;
use std::sync::Wait;
use up_api::{LogFacts, Pass};

/// Something for each resource.
#[derive(Drop)]
pub struct Each<P, M, D> {
    pub pods: P,
    pub config_maps: M,
    pub deployments: D,
}

/// The caches of the config maps' log, and of the deployments', where the pods' log has pods alone.
#[derive(Drop)]
pub struct Others<M: LogFacts, D: LogFacts, W: Wait + Copy> {
    pub config_maps: Cacher<M, W>,
    pub deployments: Cacher<D, W>,
}

/// What a pump knows of these logs.
#[derive(Drop)]
pub struct Told<M: LogFacts, D: LogFacts> {
    config_maps: Pass<M>,
    deployments: Pass<D>,
}

impl<M: LogFacts, D: LogFacts, W: Wait + Copy> Others<M, D, W> {
    /// A pass of each log.
    pub fn pass(&self) -> Result<Told<M, D>, Memory> {
        Ok(Told {
            config_maps: self.config_maps.pass()?,
            deployments: self.deployments.pass()?,
        })
    }

    /// Tells the caches the time, in milliseconds.
    pub fn tick(&self, ms: u64) {
        self.config_maps.tick(ms);
        self.deployments.tick(ms);
    }

    /// Brings the caches to where their logs are, as far as there is memory, and gives the bells that are due.
    pub fn feed(&self, told: &mut Told<M, D>, calls: &mut Calls) {
        let _ = self.config_maps.feed(&mut told.config_maps, calls);
        let _ = self.deployments.feed(&mut told.deployments, calls);
    }
}
