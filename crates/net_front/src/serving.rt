//! A visitor that is served over a client of each log.
//!
//! A function here for each of the three, in which the type of that client is told: that it is a client is long to
//! prove, and is proved once for each log so.

ghost use Rattle.std.specs.Prelude.{◌≡◌, ◌+◌, ◌<◌, ◌^◌, true, None, IsSome};

use crate::shared::Desk;
use crate::visitor::Visitor;
use bells::{Bell, Rung};
use client_api::Client;
use edge_io::Listener;
use sess_serve::EachClient;
use shared_client::SharedClient;
use std::alloc::Global;
use std::sync::{Arc, Wait};
use up_api::LogFacts;

/// Serves it by a session over these clients, and counts that.
pub fn serve_over<L: Listener, P: LogFacts, M: LogFacts, D: LogFacts, R: Wait + Copy>(
    visitor: Visitor<L>,
    rt: &R,
    alloc: Global,
    clients: EachClient<SharedClient<'_, P, R>, SharedClient<'_, M, R>, SharedClient<'_, D, R>>,
    bell: Option<Arc<Bell, Global>>,
    desk: &Desk,
    sessions: &mut u64,
)
where
    L::T: Rung,
    requires idle_pods { clients.pods.watch ≡ None }
    requires idle_config_maps { clients.config_maps.watch ≡ None }
    requires idle_deployments { clients.deployments.watch ≡ None }
    requires mirrored { IsSome desk.now.followed → P.mirror ≡ true }
    requires mirrored_config_maps { IsSome desk.now.followed → M.mirror ≡ true }
    requires mirrored_deployments { IsSome desk.now.followed → D.mirror ≡ true }
    requires room { sessions.old < 2 ^ 63 }
    ensures counted { sessions.new ≡ sessions.old + 1 }
{
    serve_over_two(visitor, rt, alloc, clients, bell, desk, sessions);
}

fn serve_over_two<L: Listener, P: LogFacts, M: LogFacts, D: Client + Drop, R: Wait + Copy>(
    visitor: Visitor<L>,
    rt: &R,
    alloc: Global,
    clients: EachClient<SharedClient<'_, P, R>, SharedClient<'_, M, R>, D>,
    bell: Option<Arc<Bell, Global>>,
    desk: &Desk,
    sessions: &mut u64,
)
where
    L::T: Rung,
    requires idle_pods { clients.pods.watch ≡ None }
    requires idle_config_maps { clients.config_maps.watch ≡ None }
    requires idle_deployments { (D.facts clients.deployments).watching ≡ None }
    requires mirrored { IsSome desk.now.followed → P.mirror ≡ true }
    requires mirrored_config_maps { IsSome desk.now.followed → M.mirror ≡ true }
    requires mirrored_deployments { IsSome desk.now.followed → D.mirror ≡ true }
    requires room { sessions.old < 2 ^ 63 }
    ensures counted { sessions.new ≡ sessions.old + 1 }
{
    serve_over_one(visitor, rt, alloc, clients, bell, desk, sessions);
}

fn serve_over_one<L: Listener, P: LogFacts, M: Client + Drop, D: Client + Drop, R: Wait + Copy>(
    visitor: Visitor<L>,
    rt: &R,
    alloc: Global,
    clients: EachClient<SharedClient<'_, P, R>, M, D>,
    bell: Option<Arc<Bell, Global>>,
    desk: &Desk,
    sessions: &mut u64,
)
where
    L::T: Rung,
    requires idle_pods { clients.pods.watch ≡ None }
    requires idle_config_maps { (M.facts clients.config_maps).watching ≡ None }
    requires idle_deployments { (D.facts clients.deployments).watching ≡ None }
    requires mirrored { IsSome desk.now.followed → P.mirror ≡ true }
    requires mirrored_config_maps { IsSome desk.now.followed → M.mirror ≡ true }
    requires mirrored_deployments { IsSome desk.now.followed → D.mirror ≡ true }
    requires room { sessions.old < 2 ^ 63 }
    ensures counted { sessions.new ≡ sessions.old + 1 }
{
    let _served = visitor.serve_each(rt, alloc, clients, bell, desk, sessions);
}
