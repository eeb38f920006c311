//! The peers of mirrors, as the threads of their server know them.

ghost use Rattle.std.specs.Prelude.{◌≡◌};

use crate::probes::{of_all, seconds_since};
use client_api::Resources;
use kube_meta::{Memory, Resource};
use metrics::Mirrored;
use std::alloc::Global;
use std::sync::atomic::Ordering::SeqCst;
use std::sync::atomic::{AtomicBool, AtomicU64};

/// Which resources a server mirrors, and what each of these mirrors has come to. Who follows a peer says so here, and
/// clients of the mirrors' logs tell it. No contract speaks of more than which resources they are.
#[derive(Drop)]
pub struct Followed {
    pub resources: Resources,
    pods: Course,
    config_maps: Course,
    deployments: Course,
    now_ms: AtomicU64,
}

// What the mirror of one resource has come to.
#[derive(Drop)]
struct Course {
    is_lost: AtomicBool,
    is_over: AtomicBool,
    revision: AtomicU64,
    heard_ms: AtomicU64,
    began_anew: AtomicU64,
    lines: AtomicU64,
}

impl Course {
    // That of a mirror which follows its peer from this time on.
    fn new(now_ms: u64) -> Course {
        Course {
            is_lost: AtomicBool::new(false),
            is_over: AtomicBool::new(false),
            revision: AtomicU64::new(0),
            heard_ms: AtomicU64::new(now_ms),
            began_anew: AtomicU64::new(0),
            lines: AtomicU64::new(0),
        }
    }

    fn is_followed(&self) -> bool {
        !self.is_lost.load(SeqCst)
    }

    fn goes_on(&self) -> bool {
        !self.is_over.load(SeqCst)
    }

    fn mirrored(&self, resource: Resource, now_ms: u64) -> Mirrored {
        Mirrored {
            resource,
            following: self.is_followed(),
            revision: self.revision.load(SeqCst),
            heard_seconds: seconds_since(self.heard_ms.load(SeqCst), now_ms),
            began_anew: self.began_anew.load(SeqCst),
            lines: self.lines.load(SeqCst),
        }
    }
}

impl Followed {
    /// Mirrors of these resources, which follow their peers from this time on.
    pub fn new(resources: Resources, now_ms: u64) -> Followed
        ensures { result.resources ≡ resources }
    {
        Followed {
            resources,
            pods: Course::new(now_ms),
            config_maps: Course::new(now_ms),
            deployments: Course::new(now_ms),
            now_ms: AtomicU64::new(now_ms),
        }
    }

    fn course(&self, resource: Resource) -> &Course {
        match resource {
            Resource::Pods => &self.pods,
            Resource::ConfigMaps => &self.config_maps,
            Resource::Deployments => &self.deployments,
        }
    }

    /// So late it is now.
    pub fn tell_time(&self, now_ms: u64) {
        self.now_ms.store(now_ms, SeqCst);
    }

    /// The mirror follows its peer.
    pub fn found(&self, resource: Resource) {
        self.course(resource).is_lost.store(false, SeqCst);
    }

    /// The mirror doesn't follow its peer, and could not when it tried to.
    pub fn lost(&self, resource: Resource) {
        self.course(resource).is_lost.store(true, SeqCst);
    }

    /// The mirror follows its peer no more, for good.
    pub fn end(&self, resource: Resource) {
        self.lost(resource);
        self.course(resource).is_over.store(true, SeqCst);
    }

    /// A whole reply came from the peer, and the mirror is at this revision.
    pub fn heard_reply(&self, resource: Resource, to: u64) {
        let course = self.course(resource);
        course.revision.store(to, SeqCst);
        course.heard_ms.store(self.now_ms.load(SeqCst), SeqCst);
    }

    /// A line came from the peer, and the mirror is at this revision.
    pub fn heard_line(&self, resource: Resource, to: u64) {
        self.course(resource).lines.fetch_add(1, SeqCst);
        self.heard_reply(resource, to);
    }

    /// All that the peer had came from it, and the mirror began anew from that, at this revision.
    pub fn began_anew(&self, resource: Resource, to: u64) {
        self.course(resource).began_anew.fetch_add(1, SeqCst);
        self.heard_reply(resource, to);
    }

    /// Whether each mirror follows its peer.
    pub fn is_followed(&self) -> bool {
        of_all(
            self.resources,
            self.pods.is_followed(),
            self.config_maps.is_followed(),
            self.deployments.is_followed(),
        )
    }

    /// Whether a mirror follows its peer no more, for good.
    pub fn is_over(&self) -> bool {
        !of_all(
            self.resources,
            self.pods.goes_on(),
            self.config_maps.goes_on(),
            self.deployments.goes_on(),
        )
    }

    /// What a monitor is told: each figure by itself, as it stands when it is read.
    pub fn mirrors(&self, alloc: Global) -> Result<Vec<Mirrored>, Memory> {
        let now_ms = self.now_ms.load(SeqCst);
        let mut mirrors = Vec::new(alloc);
        for resource in Resource::ALL {
            if self.resources.has(resource) {
                mirrors.push(self.course(resource).mirrored(resource, now_ms))?;
            }
        }
        Ok(mirrors)
    }
}
