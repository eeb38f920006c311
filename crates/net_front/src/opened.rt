//! The logs of a server of a cluster, each of a mirror or empty, and who follows those.

ghost use Rattle.std.specs.Prelude.{◌≡◌, [], IfErr, true};
ghost use Rattle.net_front.specs.Starts.{IsOfStart};
ghost use Rattle.up_api.specs.Settings.{AreInRange};

use crate::caches::{Each, Others};
use crate::cluster::{Cluster, Lists, Manner, Unserved};
use crate::cluster_following::Follower;
use crate::followers::follower;
use crate::redial::Redial;
use crate::shared::Host;
use crate::tables::no_memory;
use cluster_link::{ClusterList, ClusterMirror, ClusterNo};
use kube_meta::{Memory, Resource};
use rev_front::{Author, Blank};
use rev_log::Revision;
use shared_client::Cacher;
use std::alloc::Global;
use std::sync::Wait;
use up_api::LogFacts;
use up_store::{Store, StoreDoor};

/// How many clients of a mirror's log there can be at once.
const CLIENTS: u64 = 1 << 61;

/// The caches of a log, and the mirror whose that is, where its resource is mirrored.
#[derive(Drop)]
struct Opened<N: LogFacts, R: Wait + Copy> {
    cacher: Cacher<N, R>,
    mirror: Option<ClusterMirror<N, R>>,
}

/// The caches of a log, and who follows its resource, where that is mirrored.
#[derive(Drop)]
struct Replica<N: LogFacts, R: Wait + Copy, W> {
    cacher: Cacher<N, R>,
    follower: Option<Follower<N, R, W>>,
}

/// The caches of the pods' log, those of the others, and who follows the resources that are mirrored.
#[derive(Drop)]
pub struct Replicas<P: LogFacts, M: LogFacts, D: LogFacts, R: Wait + Copy, W> {
    pub cacher: Cacher<P, R>,
    pub others: Others<M, D, R>,
    pub followers: Each<
        Option<Follower<P, R, W>>,
        Option<Follower<M, R, W>>,
        Option<Follower<D, R, W>>,
    >,
}

/// The logs of a server of a cluster, whose tables were just made.
pub fn open_each<P: LogFacts, M: LogFacts, D: LogFacts, W: Redial + Drop, R: Host>(
    made: Each<Blank<Revision>, Blank<Revision>, Blank<Revision>>,
    rt: R,
    alloc: Global,
    lists: &Lists,
    cluster: &Cluster,
    redial: &W,
    manner: &Manner,
) -> Result<Replicas<P, M, D, R, W>, Unserved>
    requires name { made.pods ≡ P.log }
    requires first { made.pods.first ≡ 1 }
    requires base { P.base ≡ [] }
    requires mirror { P.mirror ≡ true }
    requires window { P.window ≡ manner.now.settings.window }
    requires name_config_maps { made.config_maps ≡ M.log }
    requires first_config_maps { made.config_maps.first ≡ 1 }
    requires base_config_maps { M.base ≡ [] }
    requires mirror_config_maps { M.mirror ≡ true }
    requires window_config_maps { M.window ≡ manner.now.settings.window }
    requires name_deployments { made.deployments ≡ D.log }
    requires first_deployments { made.deployments.first ≡ 1 }
    requires base_deployments { D.base ≡ [] }
    requires mirror_deployments { D.mirror ≡ true }
    requires window_deployments { D.window ≡ manner.now.settings.window }
    requires settings { AreInRange manner.now.settings }
    ensures { IfErr result (λ no. IsOfStart no.why) }
{
    let Each {
        pods,
        config_maps,
        deployments,
    } = made;
    match open_of(
        Resource::Pods,
        pods,
        rt,
        alloc,
        &lists.pods,
        cluster,
        redial,
        manner,
    ) {
        Ok(pods) => joined(both(
            pods,
            open_two(
                config_maps,
                deployments,
                rt,
                alloc,
                lists,
                cluster,
                redial,
                manner,
            ),
        )),
        Err(no) => Err(no),
    }
}

// All of them, if they were opened.
fn joined<P: LogFacts, M: LogFacts, D: LogFacts, W: Drop, R: Wait + Copy>(
    opened: Result<(Replica<P, R, W>, (Replica<M, R, W>, Replica<D, R, W>)), Unserved>,
) -> Result<Replicas<P, M, D, R, W>, Unserved>
    requires { IfErr opened (λ no. IsOfStart no.why) }
    ensures { IfErr result (λ no. IsOfStart no.why) }
{
    match opened {
        Ok((pods, (config_maps, deployments))) => Ok(Replicas {
            cacher: pods.cacher,
            others: Others {
                config_maps: config_maps.cacher,
                deployments: deployments.cacher,
            },
            followers: Each {
                pods: pods.follower,
                config_maps: config_maps.follower,
                deployments: deployments.follower,
            },
        }),
        Err(no) => Err(no),
    }
}

// The logs beside the pods'.
fn open_two<M: LogFacts, D: LogFacts, W: Redial + Drop, R: Host>(
    config_maps: Blank<Revision>,
    deployments: Blank<Revision>,
    rt: R,
    alloc: Global,
    lists: &Lists,
    cluster: &Cluster,
    redial: &W,
    manner: &Manner,
) -> Result<(Replica<M, R, W>, Replica<D, R, W>), Unserved>
    requires name { config_maps ≡ M.log }
    requires first { config_maps.first ≡ 1 }
    requires base { M.base ≡ [] }
    requires mirror { M.mirror ≡ true }
    requires window { M.window ≡ manner.now.settings.window }
    requires name_deployments { deployments ≡ D.log }
    requires first_deployments { deployments.first ≡ 1 }
    requires base_deployments { D.base ≡ [] }
    requires mirror_deployments { D.mirror ≡ true }
    requires window_deployments { D.window ≡ manner.now.settings.window }
    requires settings { AreInRange manner.now.settings }
    ensures { IfErr result (λ no. IsOfStart no.why) }
{
    match open_of(
        Resource::ConfigMaps,
        config_maps,
        rt,
        alloc,
        &lists.config_maps,
        cluster,
        redial,
        manner,
    ) {
        Ok(config_maps) => both(
            config_maps,
            open_of(
                Resource::Deployments,
                deployments,
                rt,
                alloc,
                &lists.deployments,
                cluster,
                redial,
                manner,
            ),
        ),
        Err(no) => Err(no),
    }
}

// Both, if the second is there.
fn both<A: Drop, B: Drop>(first: A, second: Result<B, Unserved>) -> Result<(A, B), Unserved>
    requires { IfErr second (λ no. IsOfStart no.why) }
    ensures { IfErr result (λ no. IsOfStart no.why) }
{
    match second {
        Ok(second) => Ok((first, second)),
        Err(no) => Err(no),
    }
}

// That of a resource, and who follows it.
fn open_of<N: LogFacts, W: Redial + Drop, R: Host>(
    resource: Resource,
    made: Blank<Revision>,
    rt: R,
    alloc: Global,
    list: &Option<ClusterList>,
    cluster: &Cluster,
    redial: &W,
    manner: &Manner,
) -> Result<Replica<N, R, W>, Unserved>
    requires name { made ≡ N.log }
    requires first { made.first ≡ 1 }
    requires base { N.base ≡ [] }
    requires mirror { N.mirror ≡ true }
    requires window { N.window ≡ manner.now.settings.window }
    requires settings { AreInRange manner.now.settings }
    ensures { IfErr result (λ no. IsOfStart no.why) }
{
    match open(made, rt, alloc, list, manner) {
        Ok(opened) => replica_of(opened, alloc, cluster, redial, resource),
        Err(why) => Err(Unserved { resource, why }),
    }
}

// The log that was opened, with who follows it.
fn replica_of<N: LogFacts, W: Redial + Drop, R: Host>(
    opened: Opened<N, R>,
    alloc: Global,
    cluster: &Cluster,
    redial: &W,
    resource: Resource,
) -> Result<Replica<N, R, W>, Unserved>
    ensures { IfErr result (λ no. IsOfStart no.why) }
{
    let Opened { cacher, mirror } = opened;
    match follower(alloc, mirror, cluster, redial, resource) {
        Ok(follower) => Ok(Replica { cacher, follower }),
        Err(_) => {
            drop(cacher);
            Err(no_memory(resource))
        }
    }
}

// The log whose table was just made: that of a mirror which begins with the list, or an empty one.
fn open<N: LogFacts, R: Host>(
    made: Blank<Revision>,
    rt: R,
    alloc: Global,
    list: &Option<ClusterList>,
    manner: &Manner,
) -> Result<Opened<N, R>, ClusterNo>
    requires name { made ≡ N.log }
    requires first { made.first ≡ 1 }
    requires base { N.base ≡ [] }
    requires mirror { N.mirror ≡ true }
    requires window { N.window ≡ manner.now.settings.window }
    requires settings { AreInRange manner.now.settings }
    ensures { IfErr result IsOfStart }
{
    match list {
        Some(list) => open_mirror(made, rt, alloc, list, manner),
        None => match open_empty(made, rt, alloc, manner) {
            Ok(opened) => Ok(opened),
            Err(_) => Err(ClusterNo::Memory),
        },
    }
}

fn open_mirror<N: LogFacts, R: Host>(
    made: Blank<Revision>,
    rt: R,
    alloc: Global,
    list: &ClusterList,
    manner: &Manner,
) -> Result<Opened<N, R>, ClusterNo>
    requires name { made ≡ N.log }
    requires first { made.first ≡ 1 }
    requires base { N.base ≡ [] }
    requires mirror { N.mirror ≡ true }
    requires window { N.window ≡ manner.now.settings.window }
    requires settings { AreInRange manner.now.settings }
    ensures { IfErr result IsOfStart }
{
    let mut mirror = match ClusterMirror::<N, R>::new(
        rt,
        alloc,
        list,
        made,
        manner.settings.history,
    ) {
        Ok(mirror) => mirror,
        Err(why) => return Err(why),
    };
    let author = mirror.author(CLIENTS);
    match cacher_of(rt, alloc, mirror.door(), author, manner) {
        Ok(cacher) => Ok(Opened {
            cacher,
            mirror: Some(mirror),
        }),
        Err(_) => {
            drop(mirror);
            Err(ClusterNo::Memory)
        }
    }
}

fn open_empty<N: LogFacts, R: Host>(
    made: Blank<Revision>,
    rt: R,
    alloc: Global,
    manner: &Manner,
) -> Result<Opened<N, R>, Memory>
    requires name { made ≡ N.log }
    requires first { made.first ≡ 1 }
    requires base { N.base ≡ [] }
    requires mirror { N.mirror ≡ true }
    requires window { N.window ≡ manner.now.settings.window }
    requires settings { AreInRange manner.now.settings }
{
    let rows = Vec::new(alloc);
    let (store, author) = Store::from_base(alloc, made, rows, manner.settings.history)?;
    let cacher = cacher_of(rt, alloc, StoreDoor::new(rt, store), Some(author), manner)?;
    Ok(Opened {
        cacher,
        mirror: None,
    })
}

// The caches of the log behind a door, if there is one, to which the bytes are bounded by this author, and whose
// clients change it by parts of its right.
fn cacher_of<N: LogFacts, R: Host>(
    rt: R,
    alloc: Global,
    door: Result<StoreDoor<N, R>, Memory>,
    author: Option<Author<N>>,
    manner: &Manner,
) -> Result<Cacher<N, R>, Memory>
    requires window { N.window ≡ manner.now.settings.window }
    requires settings { AreInRange manner.now.settings }
{
    match author {
        Some(author) => match door {
            Ok(door) => cacher_by(rt, alloc, door, author, manner),
            Err(_) => Err(Memory),
        },
        None => Err(Memory),
    }
}

// The same by an author.
fn cacher_by<N: LogFacts, R: Host>(
    rt: R,
    alloc: Global,
    door: StoreDoor<N, R>,
    author: Author<N>,
    manner: &Manner,
) -> Result<Cacher<N, R>, Memory>
    requires window { N.window ≡ manner.now.settings.window }
    requires settings { AreInRange manner.now.settings }
{
    let mut author = author;
    door.bound_bytes(manner.history_bytes, &mut author);
    Cacher::new(rt, alloc, door, author, &manner.settings)
}
