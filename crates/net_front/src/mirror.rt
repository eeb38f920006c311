//! The server of a mirror.

ghost use Rattle.std.specs.Prelude.{◌≡◌, ◌↔◌, ◌<◌, ◌≤◌, ◌^◌, true, IsTrue, IfOk, IfSome};
ghost use Rattle.net_front.specs.Ends.{MayEnd, most_connections};
ghost use Rattle.up_api.specs.Settings.{AreInRange};

use crate::counts::Counts;
use crate::followed::Followed;
use crate::following::follow_beside;
use crate::intake::Served;
use crate::redial::Redial;
use crate::server::serve_front;
use crate::shared::{Desk, Front, Host};
use bells::Rung;
use client_api::Resources;
use edge_io::{Clock, Listener, Source};
use kube_meta::Memory;
use mirror_link::Mirror;
use shared_client::Cacher;
use std::alloc::Global;
use std::thread;
use up_api::{LogFacts, Settings};

/// Serves as [`serve_open`](crate::serve_open) does, over the caches of a mirror's log, and follows the peer beside
/// that: what comes from `source` is heard, and where the stream is over it is asked for again, over connections by
/// `redial` to `port`. Where the peer can't tell what comes next, the mirror begins anew from what the peer has then,
/// and forgets what was before. It is said there what becomes of that. The following ends where a line can't be heard,
/// or the peer has another log; the server goes on with what it has then. While it doesn't follow, it isn't ready.
///
/// Whoever follows waits for the peer's bytes, so this may return only once the next line has come.
pub fn serve_mirror<L, N, S: Source + Send, D: Redial + Send, T: Clock + Send, R: Host>(
    rt: &R,
    alloc: Global,
    listener: L,
    cacher: &Cacher<N, R>,
    mirror: &mut Mirror<N, R>,
    source: &mut S,
    redial: &mut D,
    port: u16,
    clock: &mut T,
    workers: usize,
    open: u64,
    connections: u64,
    settings: &Settings,
) -> Result<Served<L>, Memory>
where
    L: Listener + Send + Drop,
    N: LogFacts + Send + Sync,
    L::T: Rung,
    requires workers { (1 ≤ workers) × (workers ≤ 64) }
    requires connections { connections ≤ 2 ^ 62 }
    requires fresh { (L.given listener ≡ 0) × (L.faults listener ≡ 0) }
    requires settings { AreInRange settings.now }
    requires mirror { N.mirror ≡ true }
    ensures accepted { IfOk result (λ served. served.accepted ≡ L.given served.listener) }
    ensures within { IfOk result (λ served. served.accepted ≤ most_connections connections) }
    ensures faulted { IfOk result (λ served. IsTrue served.faulted ↔ (0 < L.faults served.listener)) }
    ensures ended { IfOk result
        (λ served. MayEnd (L.over served.listener) (L.faults served.listener) served.accepted (most_connections connections)) }
    ensures sessions { IfOk result (λ served. IfSome served.sessions (λ sessions. sessions ≡ served.accepted)) }
    ensures settings { IfOk result (λ served. served.settings ≡ settings.now) }
{
    let followed = Some(Followed::new(Resources::PODS, clock.now().ms));
    let desk = Desk::new(alloc, followed, Counts::new(alloc)?);
    let front = Front::<N, N, N, R>::new(rt, alloc, cacher, desk);
    let following = ||
        requires { N.mirror ≡ true }
    { follow_beside(&front, mirror, source, redial, port) };
    let serving = ||
        requires { (L.given listener ≡ 0) × (L.faults listener ≡ 0) × (connections ≤ 2 ^ 62) × AreInRange settings.now }
    {
        serve_front(
            &front,
            listener,
            clock,
            workers,
            open,
            connections,
            settings,
        )
    };
    let outcome = thread::join(rt, following, serving).1;
    drop(front);
    outcome
}
