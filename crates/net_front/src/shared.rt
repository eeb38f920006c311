//! What the threads of a server share.

ghost use Rattle.std.specs.Prelude.{◌≡◌, true, IsSome};
ghost use Rattle.net_front.specs.Probes.{resources_of};

use crate::caches::Others;
use crate::counts::Counts;
use crate::disconnects::Disconnects;
use crate::doorbell::Doorbell;
use crate::end::End;
use crate::followed::Followed;
use crate::house::House;
use crate::intake::{Intake, Limit};
use crate::tally::Tally;
use client_api::Resources;
use edge_io::Listener;
use kube_meta::{Memory, Resource};
use metrics::Mirrored;
use shared_client::Cacher;
use std::alloc::Global;
use std::io::Eprint;
use std::sync::{Mutex, Wait};
use std::thread::Threads;
use up_api::LogFacts;

/// What a server needs of the runtime.
pub trait Host: Threads + Wait + Eprint + Copy + Send + Sync {}

impl<R: Threads + Wait + Eprint + Copy + Send + Sync> Host for R {}

/// What the connections of a server share beside its log: the peers that mirrors' logs follow, the counts for
/// monitors, the bell of the pump, and what ends all watches.
#[derive(Drop)]
pub struct Desk {
    pub alloc: Global,
    pub followed: Option<Followed>,
    pub counts: Counts,
    pub doorbell: Doorbell,
    pub disconnects: Disconnects,
}

impl Desk {
    /// That of a server where nobody accepts yet.
    pub fn new(alloc: Global, followed: Option<Followed>, counts: Counts) -> Desk
        ensures followed { result.followed ≡ followed }
    {
        Desk {
            alloc,
            followed,
            counts,
            doorbell: Doorbell::new(),
            disconnects: Disconnects::new(alloc),
        }
    }

    /// The resources that the server has: those that it mirrors, or else all.
    pub fn resources(&self) -> Resources
        ensures { result ≡ resources_of self.now.followed }
    {
        match &self.followed {
            Some(followed) => followed.resources,
            None => Resources::ALL,
        }
    }

    /// What a monitor is told of its mirrors.
    pub fn mirrors(&self) -> Result<Vec<Mirrored>, Memory> {
        match &self.followed {
            Some(followed) => followed.mirrors(self.alloc),
            None => Ok(Vec::new(self.alloc)),
        }
    }

    /// So late it is now.
    pub fn tell_time(&self, now_ms: u64) {
        if let Some(followed) = &self.followed {
            followed.tell_time(now_ms);
        }
    }
}

/// What each thread serves by: the caches of the log, and where that is the pods' those of the others; what connections
/// share beside it, the counts of the host, and the end of the sessions.
#[derive(Drop)]
pub struct Front<'a, P: LogFacts, M: LogFacts, D: LogFacts, R: Wait + Copy> {
    pub rt: &'a R,
    pub alloc: Global,
    pub cacher: &'a Cacher<P, R>,
    pub others: Option<&'a Others<M, D, R>>,
    pub desk: Desk,
    pub house: House,
    pub end: End,
    ghost mirrored: { IsSome desk.followed → P.mirror ≡ true },
    ghost mirrored_config_maps: { IsSome desk.followed → M.mirror ≡ true },
    ghost mirrored_deployments: { IsSome desk.followed → D.mirror ≡ true },
}

impl<'a, P: LogFacts, M: LogFacts, D: LogFacts, R: Wait + Copy> Front<'a, P, M, D, R> {
    /// That of a server of one log, where nobody accepts yet. Only a mirror's log has a peer that is followed.
    pub fn new(
        rt: &'a R,
        alloc: Global,
        cacher: &'a Cacher<P, R>,
        desk: Desk,
    ) -> Front<'a, P, M, D, R>
        requires mirrored { IsSome desk.followed → P.mirror ≡ true }
        requires mirrored_config_maps { IsSome desk.followed → M.mirror ≡ true }
        requires mirrored_deployments { IsSome desk.followed → D.mirror ≡ true }
    {
        Front {
            rt,
            alloc,
            cacher,
            others: None,
            desk,
            house: House::new(),
            end: End::new(),
        }
    }

    /// That of a server of a log for each resource.
    pub fn of_each(
        rt: &'a R,
        alloc: Global,
        cacher: &'a Cacher<P, R>,
        others: &'a Others<M, D, R>,
        desk: Desk,
    ) -> Front<'a, P, M, D, R>
        requires mirrored { IsSome desk.followed → P.mirror ≡ true }
        requires mirrored_config_maps { IsSome desk.followed → M.mirror ≡ true }
        requires mirrored_deployments { IsSome desk.followed → D.mirror ≡ true }
    {
        Front {
            rt,
            alloc,
            cacher,
            others: Some(others),
            desk,
            house: House::new(),
            end: End::new(),
        }
    }

    /// The mirror of a resource follows its peer.
    pub fn found_peer(&self, resource: Resource) {
        if let Some(followed) = &self.desk.followed {
            followed.found(resource);
        }
    }

    /// It doesn't follow its peer, and could not when it tried to.
    pub fn lost_peer(&self, resource: Resource) {
        if let Some(followed) = &self.desk.followed {
            followed.lost(resource);
        }
    }

    /// It follows its peer no more, for good.
    pub fn end_following(&self, resource: Resource) {
        if let Some(followed) = &self.desk.followed {
            followed.end(resource);
        }
    }

    /// A whole reply came from its peer, and it is at this revision.
    pub fn heard_reply(&self, resource: Resource, to: u64) {
        if let Some(followed) = &self.desk.followed {
            followed.heard_reply(resource, to);
        }
    }

    /// A line came from its peer, and it is at this revision.
    pub fn heard_line(&self, resource: Resource, to: u64) {
        if let Some(followed) = &self.desk.followed {
            followed.heard_line(resource, to);
        }
    }

    /// All that its peer had came from it, and it began anew from that, at this revision.
    pub fn began_anew(&self, resource: Resource, to: u64) {
        if let Some(followed) = &self.desk.followed {
            followed.began_anew(resource, to);
        }
    }
}

/// What they take their connections from, and what they served.
#[derive(Drop)]
pub struct Gate<L: Listener, B: Limit> {
    pub intake: Mutex<Intake<L, B>>,
    /// That of all who ended.
    pub tally: Mutex<Tally<B>>,
}
