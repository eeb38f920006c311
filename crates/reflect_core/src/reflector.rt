//! The reflector, and the feed that it keeps.

ghost use Rattle.std.specs.Prelude.{◌≡◌, ◌≤◌, None};

use kube_meta::Resource;
use std::marker::Model;
use up_api::Feed;

/// Keeps the cache of one resource up to date.
#[derive(Debug, Drop)]
pub struct Reflector {
    pub(crate) resource: Resource,
    pub(crate) batch: usize,
    pub(crate) feed: Option<Feed>,
}

impl Model for Reflector {
    ghost use Rattle.std.specs.Prelude.{◌≤◌};
    ghost use Rattle.reflect_core.specs.Pumps.{ReflectorState, HasFeedOf};

    ghost Value = { ReflectorState };

    ghost view = { λ r. record { resource = r.resource; batch = r.batch; feed = r.feed } };

    ghost invariant = { λ r. (1 ≤ r.batch) × HasFeedOf r.resource r.feed };
}

impl Reflector {
    /// A reflector of the resource that polls `batch` changes at a time, 1 to 10,000.
    pub fn with_batch(resource: Resource, batch: usize) -> Reflector
        requires least { 1 ≤ batch }
        requires most { batch ≤ 10000 }
        ensures { result ≡ record { resource = resource; batch = batch; feed = None } }
    {
        Reflector {
            resource,
            batch,
            feed: None,
        }
    }
}
