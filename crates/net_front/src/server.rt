//! A server: its threads side by side, and what it promises of its connections.

ghost use Rattle.std.specs.Prelude.{◌≡◌, ◌↔◌, ◌<◌, ◌≤◌, ◌^◌, true, IsSome, IsTrue, IfOk, IfSome};
ghost use Rattle.net_front.specs.Ends.{MayEnd, most_connections};
ghost use Rattle.up_api.specs.Settings.{AreInRange};

use crate::counts::Counts;
use crate::host::{keep_house, work_side_by_side};
use crate::intake::{Intake, Limit, Served};
use crate::pump::pump;
use crate::shared::{Desk, Front, Gate, Host};
use crate::tally::Tally;
use bells::Rung;
use edge_io::{Clock, Listener};
use kube_meta::Memory;
use shared_client::Cacher;
use std::alloc::Global;
use std::marker::Brand;
use std::sync::ledger::Blank;
use std::sync::{Mutex, Wait};
use std::thread;
use up_api::{LogFacts, Settings};

/// The most connections of one server.
const MOST: u64 = 1 << 62;

/// How many threads can take part over all.
const PARTS: u64 = 1 << 62;

/// Accepts connections from `listener`, at most `connections` of them (0: as many as can be counted), and serves each
/// by a session of its own, over a client of `cacher`'s log. So many `workers` do it side by side, as far as threads
/// can be made, and beside them a pump feeds the caches, and tells them the time of `clock`.
///
/// It ends where no more connections will come, where accepting failed, after which nothing is accepted, or where so
/// many were accepted; the sessions that go on then are served to their ends. `Memory` is answered where there was none
/// for a client.
pub fn serve_all<L: Listener + Send + Drop, N: LogFacts + Send + Sync, T: Clock + Send, R: Host>(
    rt: &R,
    alloc: Global,
    listener: L,
    cacher: &Cacher<N, R>,
    clock: &mut T,
    workers: usize,
    connections: u64,
    settings: &Settings,
) -> Result<Served<L>, Memory>
where
    L::T: Rung,
    requires workers { (1 ≤ workers) × (workers ≤ 64) }
    requires connections { connections ≤ 2 ^ 62 }
    requires fresh { (L.given listener ≡ 0) × (L.faults listener ≡ 0) }
    requires settings { AreInRange settings.now }
    ensures accepted { IfOk result (λ served. served.accepted ≡ L.given served.listener) }
    ensures within { IfOk result (λ served. served.accepted ≤ most_connections connections) }
    ensures faulted { IfOk result (λ served. IsTrue served.faulted ↔ (0 < L.faults served.listener)) }
    ensures ended { IfOk result
        (λ served. MayEnd (L.over served.listener) (L.faults served.listener) served.accepted (most_connections connections)) }
    ensures sessions { IfOk result (λ served. IfSome served.sessions (λ sessions. sessions ≡ served.accepted)) }
    ensures settings { IfOk result (λ served. served.settings ≡ settings.now) }
{
    serve_open(
        rt,
        alloc,
        listener,
        cacher,
        clock,
        workers,
        0,
        connections,
        settings,
    )
}

/// The same, with helpers beside the workers: threads that are made while few wait for a connection, and go where many
/// do. At most `open` connections are served at once, or as many as there are workers.
pub fn serve_open<L: Listener + Send + Drop, N: LogFacts + Send + Sync, T: Clock + Send, R: Host>(
    rt: &R,
    alloc: Global,
    listener: L,
    cacher: &Cacher<N, R>,
    clock: &mut T,
    workers: usize,
    open: u64,
    connections: u64,
    settings: &Settings,
) -> Result<Served<L>, Memory>
where
    L::T: Rung,
    requires workers { (1 ≤ workers) × (workers ≤ 64) }
    requires connections { connections ≤ 2 ^ 62 }
    requires fresh { (L.given listener ≡ 0) × (L.faults listener ≡ 0) }
    requires settings { AreInRange settings.now }
    ensures accepted { IfOk result (λ served. served.accepted ≡ L.given served.listener) }
    ensures within { IfOk result (λ served. served.accepted ≤ most_connections connections) }
    ensures faulted { IfOk result (λ served. IsTrue served.faulted ↔ (0 < L.faults served.listener)) }
    ensures ended { IfOk result
        (λ served. MayEnd (L.over served.listener) (L.faults served.listener) served.accepted (most_connections connections)) }
    ensures sessions { IfOk result (λ served. IfSome served.sessions (λ sessions. sessions ≡ served.accepted)) }
    ensures settings { IfOk result (λ served. served.settings ≡ settings.now) }
{
    let desk = Desk::new(alloc, None, Counts::new(alloc)?);
    let front = Front::<N, N, N, R>::new(rt, alloc, cacher, desk);
    let outcome = serve_front(
        &front,
        listener,
        clock,
        workers,
        open,
        connections,
        settings,
    );
    drop(front);
    outcome
}

/// The same, over what its threads share.
pub(crate) fn serve_front<L, P, M, D, T: Clock + Send, R: Host>(
    front: &Front<'_, P, M, D, R>,
    listener: L,
    clock: &mut T,
    workers: usize,
    open: u64,
    connections: u64,
    settings: &Settings,
) -> Result<Served<L>, Memory>
where
    L: Listener + Send + Drop,
    L::T: Rung,
    P: LogFacts + Send + Sync,
    M: LogFacts + Send + Sync,
    D: LogFacts + Send + Sync,
    requires connections { connections ≤ 2 ^ 62 }
    requires fresh { (L.given listener ≡ 0) × (L.faults listener ≡ 0) }
    requires settings { AreInRange settings.now }
    ensures accepted { IfOk result (λ served. served.accepted ≡ L.given served.listener) }
    ensures within { IfOk result (λ served. served.accepted ≤ most_connections connections) }
    ensures faulted { IfOk result (λ served. IsTrue served.faulted ↔ (0 < L.faults served.listener)) }
    ensures ended { IfOk result
        (λ served. MayEnd (L.over served.listener) (L.faults served.listener) served.accepted (most_connections connections)) }
    ensures sessions { IfOk result (λ served. IfSome served.sessions (λ sessions. sessions ≡ served.accepted)) }
    ensures settings { IfOk result (λ served. served.settings ≡ settings.now) }
{
    let limit = if connections == 0 { MOST } else { connections };
    let blank = Blank::new(PARTS);
    serve_up_to::<Brand, L, P, M, D, T, R>(
        front, blank, listener, clock, workers, open, limit, settings,
    )
}

/// The same, and this beside that, in a thread of its own.
pub(crate) fn serve_while<F: FnOnce() + Send, L, P, M, D, T: Clock + Send, R: Host>(
    front: &Front<'_, P, M, D, R>,
    beside: F,
    listener: L,
    clock: &mut T,
    workers: usize,
    open: u64,
    connections: u64,
    settings: &Settings,
) -> Result<Served<L>, Memory>
where
    L: Listener + Send + Drop,
    L::T: Rung,
    P: LogFacts + Send + Sync,
    M: LogFacts + Send + Sync,
    D: LogFacts + Send + Sync,
    requires beside { F.pre beside }
    requires connections { connections ≤ 2 ^ 62 }
    requires fresh { (L.given listener ≡ 0) × (L.faults listener ≡ 0) }
    requires settings { AreInRange settings.now }
    ensures accepted { IfOk result (λ served. served.accepted ≡ L.given served.listener) }
    ensures within { IfOk result (λ served. served.accepted ≤ most_connections connections) }
    ensures faulted { IfOk result (λ served. IsTrue served.faulted ↔ (0 < L.faults served.listener)) }
    ensures ended { IfOk result
        (λ served. MayEnd (L.over served.listener) (L.faults served.listener) served.accepted (most_connections connections)) }
    ensures sessions { IfOk result (λ served. IfSome served.sessions (λ sessions. sessions ≡ served.accepted)) }
    ensures settings { IfOk result (λ served. served.settings ≡ settings.now) }
{
    let serving = ||
        requires { (L.given listener ≡ 0) × (L.faults listener ≡ 0) × (connections ≤ 2 ^ 62) × AreInRange settings.now }
    { serve_front(front, listener, clock, workers, open, connections, settings) };
    thread::join(front.rt, beside, serving).1
}

// The same, up to a limit and in settings that `B` names, and with its ledger.
fn serve_up_to<B: Limit + Send + Sync, L, P, M, D, T: Clock + Send, R: Host>(
    front: &Front<'_, P, M, D, R>,
    blank: Blank,
    listener: L,
    clock: &mut T,
    workers: usize,
    open: u64,
    limit: u64,
    settings: &Settings,
) -> Result<Served<L>, Memory>
where
    L: Listener + Send + Drop,
    L::T: Rung,
    P: LogFacts + Send + Sync,
    M: LogFacts + Send + Sync,
    D: LogFacts + Send + Sync,
    requires limit { limit ≡ B.limit }
    requires few { limit ≤ 2 ^ 62 }
    requires set { settings.now ≡ B.settings }
    requires settings { AreInRange settings.now }
    requires name { blank.name ≡ B.name }
    requires parts { (blank.parts ≡ B.parts) × (B.parts ≡ 2 ^ 62) }
    requires fresh { (L.given listener ≡ 0) × (L.faults listener ≡ 0) }
    ensures accepted { IfOk result (λ served. served.accepted ≡ L.given served.listener) }
    ensures within { IfOk result (λ served. served.accepted ≤ limit) }
    ensures faulted { IfOk result (λ served. IsTrue served.faulted ↔ (0 < L.faults served.listener)) }
    ensures ended { IfOk result
        (λ served. MayEnd (L.over served.listener) (L.faults served.listener) served.accepted limit) }
    ensures sessions { IfOk result (λ served. IfSome served.sessions (λ sessions. sessions ≡ served.accepted)) }
    ensures settings { IfOk result (λ served. served.settings ≡ settings.now) }
{
    let (book, share) = blank.open::<B>();
    let gate: Gate<L, B> = Gate {
        intake: Mutex::new(Intake::new(listener, limit, *settings, book)),
        tally: Mutex::new(Tally::new(share, PARTS)),
    };
    serve_together(front, &gate, clock, workers, open)?;
    let Gate { intake, tally } = gate;
    serve_rest(front, intake.into_inner(), tally.into_inner())
}

// Runs the threads that serve, and the pump beside them, which hears of the end once all sessions have ended. Where no
// thread can be made for it the pump comes last, and ends at once.
fn serve_together<B: Limit + Send + Sync, L, P, M, D, T: Clock + Send, R: Host>(
    front: &Front<'_, P, M, D, R>,
    gate: &Gate<L, B>,
    clock: &mut T,
    workers: usize,
    open: u64,
) -> Result<(), Memory>
where
    L: Listener + Send + Drop,
    L::T: Rung,
    P: LogFacts + Send + Sync,
    M: LogFacts + Send + Sync,
    D: LogFacts + Send + Sync,
{
    let pumping = ||
        requires { IsSome front.now.desk.followed → P.mirror ≡ true }
    {
        pump(
            front.rt,
            front.alloc,
            front.cacher,
            front.others,
            clock,
            &front.desk,
            &front.end,
        )
    };
    let serving = ||
        requires { IsSome front.now.desk.followed → P.mirror ≡ true }
    {
        let outcome = serve_beside(front, gate, workers, open);
        front.end.come();
        front.desk.doorbell.ring();
        outcome
    };
    thread::join(front.rt, pumping, serving).1
}

// Runs the workers, and the host beside them.
fn serve_beside<B: Limit + Send + Sync, L, P, M, D, R: Host>(
    front: &Front<'_, P, M, D, R>,
    gate: &Gate<L, B>,
    workers: usize,
    open: u64,
) -> Result<(), Memory>
where
    L: Listener + Send + Drop,
    L::T: Rung,
    P: LogFacts + Send + Sync,
    M: LogFacts + Send + Sync,
    D: LogFacts + Send + Sync,
{
    let hosting = ||
        requires { IsSome front.now.desk.followed → P.mirror ≡ true }
    { keep_house(front, gate, open) };
    let working = ||
        requires { IsSome front.now.desk.followed → P.mirror ≡ true }
    { work_side_by_side(front, gate, workers) };
    thread::join(front.rt, hosting, working).1?;
    match front.house.lacking() {
        0 => Ok(()),
        _ => Err(Memory),
    }
}

// Accepts and serves in this thread alone, until the server may end.
fn serve_rest<B: Limit, L: Listener + Drop, P, M, D, R: Wait + Copy>(
    front: &Front<'_, P, M, D, R>,
    mut intake: Intake<L, B>,
    mut tally: Tally<B>,
) -> Result<Served<L>, Memory>
where
    L::T: Rung,
    P: LogFacts,
    M: LogFacts,
    D: LogFacts,
    requires parts { B.parts ≡ 2 ^ 62 }
    ensures accepted { IfOk result (λ served. served.accepted ≡ L.given served.listener) }
    ensures within { IfOk result (λ served. served.accepted ≤ B.limit) }
    ensures faulted { IfOk result (λ served. IsTrue served.faulted ↔ (0 < L.faults served.listener)) }
    ensures ended { IfOk result
        (λ served. MayEnd (L.over served.listener) (L.faults served.listener) served.accepted B.limit) }
    ensures sessions { IfOk result (λ served. IfSome served.sessions (λ sessions. sessions ≡ served.accepted)) }
    ensures settings { IfOk result (λ served. served.settings ≡ B.settings) }
{
    for _ in front.rt.forever() {
        if intake.may_end() {
            return Ok(intake.end(tally, PARTS));
        }
        let shared = Mutex::new(intake);
        front.house.enter();
        tally.serve_next(front, &shared)?;
        front.house.leave();
        intake = shared.into_inner();
    }
    unreachable!()
}
