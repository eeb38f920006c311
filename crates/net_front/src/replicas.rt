//! The logs of a cluster's mirrors, one for each resource.

ghost use Rattle.std.specs.Prelude.{◌≡◌, ◌↔◌, ◌<◌, ◌≤◌, ◌^◌, [], IsTrue, IfErr, IfOk, IfSome, true};
ghost use Rattle.net_front.specs.Ends.{MayEnd, most_connections};
ghost use Rattle.net_front.specs.Starts.{IsOfStart};
ghost use Rattle.up_api.specs.Settings.{AreInRange};

use crate::caches::Each;
use crate::cluster::{Cluster, Lists, Manner, Unserved};
use crate::cluster_following::Follower;
use crate::counts::Counts;
use crate::followed::Followed;
use crate::followers::follow_each;
use crate::intake::Served;
use crate::opened::{Replicas, open_each};
use crate::redial::Redial;
use crate::server::serve_while;
use crate::shared::{Desk, Front, Host};
use crate::tables::{no_memory, tables};
use bells::Rung;
use client_api::Resources;
use edge_io::{Clock, Listener};
use kube_meta::{Memory, Resource};
use rev_front::Blank;
use rev_log::Revision;
use std::alloc::Global;
use std::marker::Brand;
use up_api::{LogFacts, Settings};

/// Serves over a log for each resource.
pub fn serve_lists<L, W: Redial + Send + Drop, T: Clock + Send, R: Host>(
    rt: &R,
    alloc: Global,
    listener: L,
    lists: &Lists,
    cluster: &Cluster,
    redial: &W,
    clock: &mut T,
    manner: Manner,
) -> Result<Served<L>, Unserved>
where
    L: Listener + Send + Drop,
    L::T: Rung,
    requires workers { (1 ≤ manner.workers) × (manner.workers ≤ 64) }
    requires connections { manner.connections ≤ 2 ^ 62 }
    requires fresh { (L.given listener ≡ 0) × (L.faults listener ≡ 0) }
    requires settings { AreInRange manner.settings }
    ensures accepted { IfOk result (λ served. served.accepted ≡ L.given served.listener) }
    ensures within { IfOk result (λ served. served.accepted ≤ most_connections manner.connections) }
    ensures faulted { IfOk result (λ served. IsTrue served.faulted ↔ (0 < L.faults served.listener)) }
    ensures ended { IfOk result
        (λ served. MayEnd (L.over served.listener) (L.faults served.listener) served.accepted (most_connections manner.connections)) }
    ensures sessions { IfOk result (λ served. IfSome served.sessions (λ sessions. sessions ≡ served.accepted)) }
    ensures settings { IfOk result (λ served. served.settings ≡ manner.settings) }
    ensures start { IfErr result (λ no. IsOfStart no.why) }
{
    match tables(alloc) {
        Ok(made) => serve_tables::<Brand, Brand, Brand, L, W, T, R>(
            made, rt, alloc, listener, lists, cluster, redial, clock, manner,
        ),
        Err(no) => Err(no),
    }
}

// The same, whose tables were just made.
fn serve_tables<P, M, D, L, W: Redial + Send + Drop, T: Clock + Send, R: Host>(
    made: Each<Blank<Revision>, Blank<Revision>, Blank<Revision>>,
    rt: &R,
    alloc: Global,
    listener: L,
    lists: &Lists,
    cluster: &Cluster,
    redial: &W,
    clock: &mut T,
    manner: Manner,
) -> Result<Served<L>, Unserved>
where
    L: Listener + Send + Drop,
    L::T: Rung,
    P: LogFacts + Send + Sync,
    M: LogFacts + Send + Sync,
    D: LogFacts + Send + Sync,
    requires name { made.pods ≡ P.log }
    requires first { made.pods.first ≡ 1 }
    requires base { P.base ≡ [] }
    requires mirror { P.mirror ≡ true }
    requires window { P.window ≡ manner.settings.window }
    requires name_config_maps { made.config_maps ≡ M.log }
    requires first_config_maps { made.config_maps.first ≡ 1 }
    requires base_config_maps { M.base ≡ [] }
    requires mirror_config_maps { M.mirror ≡ true }
    requires window_config_maps { M.window ≡ manner.settings.window }
    requires name_deployments { made.deployments ≡ D.log }
    requires first_deployments { made.deployments.first ≡ 1 }
    requires base_deployments { D.base ≡ [] }
    requires mirror_deployments { D.mirror ≡ true }
    requires window_deployments { D.window ≡ manner.settings.window }
    requires connections { manner.connections ≤ 2 ^ 62 }
    requires fresh { (L.given listener ≡ 0) × (L.faults listener ≡ 0) }
    requires settings { AreInRange manner.settings }
    ensures accepted { IfOk result (λ served. served.accepted ≡ L.given served.listener) }
    ensures within { IfOk result (λ served. served.accepted ≤ most_connections manner.connections) }
    ensures faulted { IfOk result (λ served. IsTrue served.faulted ↔ (0 < L.faults served.listener)) }
    ensures ended { IfOk result
        (λ served. MayEnd (L.over served.listener) (L.faults served.listener) served.accepted (most_connections manner.connections)) }
    ensures sessions { IfOk result (λ served. IfSome served.sessions (λ sessions. sessions ≡ served.accepted)) }
    ensures settings { IfOk result (λ served. served.settings ≡ manner.settings) }
    ensures start { IfErr result (λ no. IsOfStart no.why) }
{
    match open_each::<P, M, D, W, R>(made, *rt, alloc, lists, cluster, redial, &manner) {
        Ok(replicas) => serve_replicas(
            replicas,
            rt,
            alloc,
            listener,
            mirrored(lists),
            clock,
            manner,
        ),
        Err(no) => Err(no),
    }
}

// The same, over these.
fn serve_replicas<P, M, D, L, W: Redial + Send + Drop, T: Clock + Send, R: Host>(
    replicas: Replicas<P, M, D, R, W>,
    rt: &R,
    alloc: Global,
    listener: L,
    resources: Resources,
    clock: &mut T,
    manner: Manner,
) -> Result<Served<L>, Unserved>
where
    L: Listener + Send + Drop,
    L::T: Rung,
    P: LogFacts + Send + Sync,
    M: LogFacts + Send + Sync,
    D: LogFacts + Send + Sync,
    requires mirror_pods { P.mirror ≡ true }
    requires mirror_config_maps { M.mirror ≡ true }
    requires mirror_deployments { D.mirror ≡ true }
    requires connections { manner.connections ≤ 2 ^ 62 }
    requires fresh { (L.given listener ≡ 0) × (L.faults listener ≡ 0) }
    requires settings { AreInRange manner.settings }
    ensures accepted { IfOk result (λ served. served.accepted ≡ L.given served.listener) }
    ensures within { IfOk result (λ served. served.accepted ≤ most_connections manner.connections) }
    ensures faulted { IfOk result (λ served. IsTrue served.faulted ↔ (0 < L.faults served.listener)) }
    ensures ended { IfOk result
        (λ served. MayEnd (L.over served.listener) (L.faults served.listener) served.accepted (most_connections manner.connections)) }
    ensures sessions { IfOk result (λ served. IfSome served.sessions (λ sessions. sessions ≡ served.accepted)) }
    ensures settings { IfOk result (λ served. served.settings ≡ manner.settings) }
    ensures start { IfErr result (λ no. IsOfStart no.why) }
{
    let mut replicas = replicas;
    let outcome = serve_lent(&mut replicas, rt, alloc, listener, resources, clock, manner);
    drop(replicas);
    unserved(outcome, manner)
}

// The same, which are lent.
fn serve_lent<P, M, D, L, W: Redial + Send, T: Clock + Send, R: Host>(
    replicas: &mut Replicas<P, M, D, R, W>,
    rt: &R,
    alloc: Global,
    listener: L,
    resources: Resources,
    clock: &mut T,
    manner: Manner,
) -> Result<Served<L>, Memory>
where
    L: Listener + Send + Drop,
    L::T: Rung,
    P: LogFacts + Send + Sync,
    M: LogFacts + Send + Sync,
    D: LogFacts + Send + Sync,
    requires mirror_pods { P.mirror ≡ true }
    requires mirror_config_maps { M.mirror ≡ true }
    requires mirror_deployments { D.mirror ≡ true }
    requires connections { manner.connections ≤ 2 ^ 62 }
    requires fresh { (L.given listener ≡ 0) × (L.faults listener ≡ 0) }
    requires settings { AreInRange manner.settings }
    ensures accepted { IfOk result (λ served. served.accepted ≡ L.given served.listener) }
    ensures within { IfOk result (λ served. served.accepted ≤ most_connections manner.connections) }
    ensures faulted { IfOk result (λ served. IsTrue served.faulted ↔ (0 < L.faults served.listener)) }
    ensures ended { IfOk result
        (λ served. MayEnd (L.over served.listener) (L.faults served.listener) served.accepted (most_connections manner.connections)) }
    ensures sessions { IfOk result (λ served. IfSome served.sessions (λ sessions. sessions ≡ served.accepted)) }
    ensures settings { IfOk result (λ served. served.settings ≡ manner.settings) }
{
    match desk_of(alloc, resources, clock.now().ms) {
        Ok(desk) => serve_desk(desk, replicas, rt, alloc, listener, clock, manner),
        Err(Memory) => Err(Memory),
    }
}

// The same, and its connections share this beside the logs.
fn serve_desk<P, M, D, L, W: Redial + Send, T: Clock + Send, R: Host>(
    desk: Desk,
    replicas: &mut Replicas<P, M, D, R, W>,
    rt: &R,
    alloc: Global,
    listener: L,
    clock: &mut T,
    manner: Manner,
) -> Result<Served<L>, Memory>
where
    L: Listener + Send + Drop,
    L::T: Rung,
    P: LogFacts + Send + Sync,
    M: LogFacts + Send + Sync,
    D: LogFacts + Send + Sync,
    requires mirror_pods { P.mirror ≡ true }
    requires mirror_config_maps { M.mirror ≡ true }
    requires mirror_deployments { D.mirror ≡ true }
    requires connections { manner.connections ≤ 2 ^ 62 }
    requires fresh { (L.given listener ≡ 0) × (L.faults listener ≡ 0) }
    requires settings { AreInRange manner.settings }
    ensures accepted { IfOk result (λ served. served.accepted ≡ L.given served.listener) }
    ensures within { IfOk result (λ served. served.accepted ≤ most_connections manner.connections) }
    ensures faulted { IfOk result (λ served. IsTrue served.faulted ↔ (0 < L.faults served.listener)) }
    ensures ended { IfOk result
        (λ served. MayEnd (L.over served.listener) (L.faults served.listener) served.accepted (most_connections manner.connections)) }
    ensures sessions { IfOk result (λ served. IfSome served.sessions (λ sessions. sessions ≡ served.accepted)) }
    ensures settings { IfOk result (λ served. served.settings ≡ manner.settings) }
{
    let Replicas {
        cacher,
        others,
        followers,
    } = replicas;
    let front = Front::of_each(rt, alloc, cacher, others, desk);
    let outcome = serve_beside(
        &front,
        listener,
        followers,
        clock,
        manner.workers,
        manner.open,
        manner.connections,
        &manner.settings,
    );
    drop(front);
    outcome
}

// The same, over what its threads share.
fn serve_beside<P, M, D, L, W: Redial + Send, T: Clock + Send, R: Host>(
    front: &Front<'_, P, M, D, R>,
    listener: L,
    followers: &mut Each<
        Option<Follower<P, R, W>>,
        Option<Follower<M, R, W>>,
        Option<Follower<D, R, W>>,
    >,
    clock: &mut T,
    workers: usize,
    open: u64,
    connections: u64,
    settings: &Settings,
) -> Result<Served<L>, Memory>
where
    L: Listener + Send + Drop,
    P: LogFacts + Send + Sync,
    M: LogFacts + Send + Sync,
    D: LogFacts + Send + Sync,
    L::T: Rung,
    requires mirror { P.mirror ≡ true }
    requires connections { connections ≤ 2 ^ 62 }
    requires fresh { (L.given listener ≡ 0) × (L.faults listener ≡ 0) }
    requires settings { AreInRange settings.now }
    ensures accepted { IfOk result (λ served. served.accepted ≡ L.given served.listener) }
    ensures within { IfOk result (λ served. served.accepted ≤ most_connections connections) }
    ensures faulted { IfOk result (λ served. IsTrue served.faulted ↔ (0 < L.faults served.listener)) }
    ensures ended { IfOk result
        (λ served. MayEnd (L.over served.listener) (L.faults served.listener) served.accepted (most_connections connections)) }
    ensures sessions { IfOk result (λ served. IfSome served.sessions (λ sessions. sessions ≡ served.accepted)) }
    ensures settings { IfOk result (λ served. served.settings ≡ settings.now) }
{
    let following = ||
        requires { P.mirror ≡ true }
    { follow_each(front, followers) };
    serve_while(
        front,
        following,
        listener,
        clock,
        workers,
        open,
        connections,
        settings,
    )
}

// What connections share beside logs that follow a cluster's resources from now on.
fn desk_of(alloc: Global, resources: Resources, now_ms: u64) -> Result<Desk, Memory> {
    let counts = Counts::new(alloc)?;
    let followed = Some(Followed::new(resources, now_ms));
    Ok(Desk::new(alloc, followed, counts))
}

// The resources that are mirrored.
fn mirrored(lists: &Lists) -> Resources {
    Resources {
        pods: lists.pods.is_some(),
        config_maps: lists.config_maps.is_some(),
        deployments: lists.deployments.is_some(),
    }
}

// Want of memory for what the resources share is told of the pods.
fn unserved<L: Listener + Drop>(
    outcome: Result<Served<L>, Memory>,
    manner: Manner,
) -> Result<Served<L>, Unserved>
    requires accepted { IfOk outcome (λ served. served.accepted ≡ L.given served.listener) }
    requires within { IfOk outcome (λ served. served.accepted ≤ most_connections manner.connections) }
    requires faulted { IfOk outcome (λ served. IsTrue served.faulted ↔ (0 < L.faults served.listener)) }
    requires ended { IfOk outcome
        (λ served. MayEnd (L.over served.listener) (L.faults served.listener) served.accepted (most_connections manner.connections)) }
    requires sessions { IfOk outcome (λ served. IfSome served.sessions (λ sessions. sessions ≡ served.accepted)) }
    requires settings { IfOk outcome (λ served. served.settings ≡ manner.settings) }
    ensures accepted { IfOk result (λ served. served.accepted ≡ L.given served.listener) }
    ensures within { IfOk result (λ served. served.accepted ≤ most_connections manner.connections) }
    ensures faulted { IfOk result (λ served. IsTrue served.faulted ↔ (0 < L.faults served.listener)) }
    ensures ended { IfOk result
        (λ served. MayEnd (L.over served.listener) (L.faults served.listener) served.accepted (most_connections manner.connections)) }
    ensures sessions { IfOk result (λ served. IfSome served.sessions (λ sessions. sessions ≡ served.accepted)) }
    ensures settings { IfOk result (λ served. served.settings ≡ manner.settings) }
    ensures start { IfErr result (λ no. IsOfStart no.why) }
{
    match outcome {
        Ok(served) => Ok(served),
        Err(_) => Err(no_memory(Resource::Pods)),
    }
}
