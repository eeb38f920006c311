//! Who follows the resources of a cluster that a server mirrors, side by side.

ghost use Rattle.std.specs.Prelude.{◌≡◌, true, IsSome};

use crate::caches::Each;
use crate::cluster::Cluster;
use crate::cluster_following::{Follower, follow_beside};
use crate::redial::Redial;
use crate::shared::{Front, Host};
use cluster_link::ClusterMirror;
use kube_meta::{Memory, Resource};
use std::alloc::Global;
use std::thread;
use up_api::LogFacts;

/// Follows each resource that is mirrored, side by side.
pub fn follow_each<P, M, D, W: Redial + Send, R: Host>(
    front: &Front<'_, P, M, D, R>,
    followers: &mut Each<
        Option<Follower<P, R, W>>,
        Option<Follower<M, R, W>>,
        Option<Follower<D, R, W>>,
    >,
)
where
    P: LogFacts + Send + Sync,
    M: LogFacts + Send + Sync,
    D: LogFacts + Send + Sync,
{
    let Each {
        pods,
        config_maps,
        deployments,
    } = followers;
    let first = ||
        requires { IsSome front.now.desk.followed → P.mirror ≡ true }
    { follow_beside(front, Resource::Pods, pods) };
    let others = ||
        requires { IsSome front.now.desk.followed → P.mirror ≡ true }
    { follow_two(front, config_maps, deployments) };
    thread::join(front.rt, first, others);
}

fn follow_two<P, M, D, W: Redial + Send, R: Host>(
    front: &Front<'_, P, M, D, R>,
    config_maps: &mut Option<Follower<M, R, W>>,
    deployments: &mut Option<Follower<D, R, W>>,
)
where
    P: LogFacts + Send + Sync,
    M: LogFacts + Send + Sync,
    D: LogFacts + Send + Sync,
{
    let second = ||
        requires { IsSome front.now.desk.followed → M.mirror ≡ true }
    { follow_beside(front, Resource::ConfigMaps, config_maps) };
    let third = ||
        requires { IsSome front.now.desk.followed → D.mirror ≡ true }
    { follow_beside(front, Resource::Deployments, deployments) };
    thread::join(front.rt, second, third);
}

/// Who follows a resource, if it is mirrored.
pub fn follower<N: LogFacts, R: Host, W: Redial + Drop>(
    alloc: Global,
    mirror: Option<ClusterMirror<N, R>>,
    cluster: &Cluster,
    redial: &W,
    resource: Resource,
) -> Result<Option<Follower<N, R, W>>, Memory> {
    match mirror {
        Some(mirror) => match cluster.again(alloc) {
            Ok(cluster) => Ok(Some(Follower {
                mirror,
                redial: redial.again(resource),
                cluster,
            })),
            Err(Memory) => {
                drop(mirror);
                Err(Memory)
            }
        },
        None => Ok(None),
    }
}
