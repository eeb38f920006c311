//! The caches of a log, for many threads.

ghost use Rattle.std.specs.Prelude.{◌≡◌, ◌≤◌, None, IfOk};
ghost use Rattle.rev_front.specs.Passes.{Extends, IsPass, Whole, idle_author, pass_from};
ghost use Rattle.rev_log.specs.Changes.{RevisionData};
ghost use Rattle.rev_log.specs.Logs.{Fits};
ghost use Rattle.up_api.specs.Sections.{Learns};
ghost use Rattle.up_api.specs.Settings.{AreInRange};

use crate::client::{SharedClient, WriteDoor};
use bells::Calls;
use cached_client::{CacheState, OfConfigMaps, OfDeployments, OfPods, OfResource};
use kube_meta::Memory;
use rev_front::Author;
use std::alloc::Global;
use std::sync::atomic::AtomicU64;
use std::sync::atomic::Ordering::SeqCst;
use std::sync::{Mutex, Wait};
use up_api::{LogFacts, Pass, Settings};
use up_store::{ReadDoor, StoreDoor};

/// A cache of each resource of one log, each behind a lock of its own. It is shared by reference among threads, and
/// each of them makes clients of its own. The caches are fed through a door that only reads; the one that writes is its
/// clients' own.
#[derive(Drop)]
pub struct Cacher<N: LogFacts, R: Wait + Copy> {
    pub(crate) rt: R,
    pub(crate) alloc: Global,
    pub(crate) write_door: WriteDoor<N, R>,
    pub(crate) pods: Mutex<CacheState<N, OfPods>>,
    pub(crate) config_maps: Mutex<CacheState<N, OfConfigMaps>>,
    pub(crate) deployments: Mutex<CacheState<N, OfDeployments>>,
    // Up to which revision the caches were fed last; before they were at all, the greatest number.
    fed: AtomicU64,
}

impl<N: LogFacts, R: Wait + Copy> Cacher<N, R> {
    /// The caches of the log behind this door, which wait for their locks by `rt`, and whose clients change the log by
    /// parts of this author's right.
    pub fn new(
        rt: R,
        alloc: Global,
        door: StoreDoor<N, R>,
        author: Author<N>,
        settings: &Settings,
    ) -> Result<Cacher<N, R>, Memory>
        requires settings { AreInRange settings.now }
        requires window { N.window ≡ settings.now.window }
    {
        let mut reader = door.reader()?;
        let pods = locked(alloc, &mut reader, settings);
        let config_maps = locked(alloc, &mut reader, settings);
        let deployments = locked(alloc, &mut reader, settings);
        match (pods, config_maps, deployments) {
            (Ok(pods), Ok(config_maps), Ok(deployments)) => Ok(Cacher {
                rt,
                alloc,
                write_door: WriteDoor::new(rt, door, author),
                pods,
                config_maps,
                deployments,
                fed: AtomicU64::new(u64::MAX),
            }),
            _ => Err(Memory),
        }
    }

    /// Lets the caches go, and with them the door to the log. The right to change it comes back, as far as no client
    /// was lost, with all that was done by it.
    pub fn close(self) -> Author<N> {
        let Cacher {
            rt: _,
            alloc: _,
            write_door,
            pods: _,
            config_maps: _,
            deployments: _,
            fed: _,
        } = self;
        write_door.close()
    }

    /// A client of the log, with no watch, that has done nothing yet.
    pub fn client(&self) -> Result<SharedClient<'_, N, R>, Memory>
        ensures idle { IfOk result (λ client. (client.watch ≡ None) × (client.heard ≡ 0)) }
        ensures pass { IfOk result (λ client. (whole : Whole RevisionData) × (client.told ≡ pass_from whole client.told.seat)) }
        ensures lawful { IfOk result (λ client. IsPass Fits client.told) }
        ensures author { IfOk result (λ client. client.author ≡ idle_author 1) }
    {
        SharedClient::new(self)
    }

    /// A pass of the log, which knows it whole.
    pub fn pass(&self) -> Result<Pass<N>, Memory>
        ensures { IfOk result (λ p. (whole : Whole RevisionData) × (p ≡ pass_from whole p.seat)) }
    {
        self.write_door.pass()
    }

    /// Loads the revision that the log has reached, brings each cache there, and gives the bells of the lanes that
    /// were told, or fell behind, since this was last called, for the caller to ring: no lock is held then. Want of
    /// memory of one cache is answered once the others were brought there.
    pub fn feed(&self, told: &mut Pass<N>, calls: &mut Calls) -> Result<(), Memory>
        ensures extends { Extends told.old told.new }
    {
        let until = told.look();
        let mut door = self.write_door.reader()?;
        let pods = self.pods.lock(&self.rt).feed(&mut door, told, until, calls);
        let config_maps = self
            .config_maps
            .lock(&self.rt)
            .feed(&mut door, told, until, calls);
        let deployments = self
            .deployments
            .lock(&self.rt)
            .feed(&mut door, told, until, calls);
        self.fed.store(until, SeqCst);
        pods.and(config_maps).and(deployments)
    }

    /// Whether nobody is on the way to feed the caches with what the log has up to a revision, as far as is known. No
    /// contract speaks of it.
    pub(crate) fn is_fed(&self, upto: u64) -> bool {
        upto <= self.fed.load(SeqCst)
    }

    /// Tells each cache the time, in milliseconds, by which the age of its events is judged. It never goes back.
    pub fn tick(&self, ms: u64) {
        self.pods.lock(&self.rt).tick(ms);
        self.config_maps.lock(&self.rt).tick(ms);
        self.deployments.lock(&self.rt).tick(ms);
    }

    /// Builds each cache anew, and answers the compaction floor from which the last one was built. After want of
    /// memory each is the old one or the new one.
    pub fn restart(&self, told: &mut Pass<N>) -> Result<u64, Memory>
        ensures learns { Learns told.old told.new }
        ensures floor { IfOk result (λ floor. (told.old.floor ≤ floor) × (floor ≤ told.new.floor)) }
    {
        let mut door = self.write_door.reader()?;
        self.rebuild_each(&mut door, told)
    }

    // The same, through this door.
    fn rebuild_each(&self, door: &mut ReadDoor<N, R>, told: &mut Pass<N>) -> Result<u64, Memory>
        ensures learns { Learns told.old told.new }
        ensures floor { IfOk result (λ floor. (told.old.floor ≤ floor) × (floor ≤ told.new.floor)) }
    {
        self.pods.lock(&self.rt).rebuild(door, told)?;
        self.config_maps.lock(&self.rt).rebuild(door, told)?;
        self.deployments.lock(&self.rt).rebuild(door, told)
    }
}

// The cache of one resource behind its lock.
fn locked<N: LogFacts, R: Wait + Copy, One: OfResource>(
    alloc: Global,
    door: &mut ReadDoor<N, R>,
    settings: &Settings,
) -> Result<Mutex<CacheState<N, One>>, Memory>
    requires settings { AreInRange settings.now }
    requires window { N.window ≡ settings.now.window }
{
    let pass = door.pass()?;
    let cache = CacheState::new(alloc, door, pass, settings)?;
    Ok(Mutex::new(cache))
}
