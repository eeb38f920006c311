//! Threads that accept and serve: workers, which stay, and helpers, which a host makes as they are wanted.

ghost use Rattle.std.specs.Prelude.{◌≡◌, true, IsSome};

use crate::helpers::{HostStep, host_step, step_without};
use crate::intake::Limit;
use crate::shared::{Front, Gate, Host};
use crate::tally::Tally;
use bells::Rung;
use edge_io::Listener;
use kube_meta::Memory;
use std::sync::Wait;
use std::thread::{self, Builder};
use up_api::LogFacts;

/// The bytes of a helper's stack.
const STACK: usize = 262_144;

/// How long a thread works.
#[derive(Clone, Copy, Debug, PartialEq, Eq)]
pub enum Stay {
    /// Until no connection will come.
    ToTheEnd,
    /// Until many others wait for one.
    WhileWanted,
}

/// Makes helpers while few threads wait for a connection and fewer than `open` live, until none will come or, where no
/// thread lives, none can be made. It returns once the last helper has ended. Where connections wait for a thread, or
/// for memory, it says so once, until a thread was made again.
pub fn keep_house<B: Limit + Send + Sync, L, P, M, D, R: Host>(
    front: &Front<'_, P, M, D, R>,
    gate: &Gate<L, B>,
    open: u64,
)
where
    L: Listener + Send + Drop,
    L::T: Rung,
    P: LogFacts + Send + Sync,
    M: LogFacts + Send + Sync,
    D: LogFacts + Send + Sync,
{
    thread::scope(
        thread::scope_env(),
        front.rt,
        move |scope|
            requires { IsSome front.now.desk.followed → P.mirror ≡ true }
        {
            let mut lacking = 0;
            let mut is_said = false;
            for _ in front.rt.forever() {
                let count = front.house.count();
                let lack = front.house.lacking();
                let wanted = front.house.wants(open);
                match host_step(front.house.is_over(), open, wanted, lack != lacking) {
                    HostStep::End => return,
                    HostStep::Rest => front.house.rest(front.rt, count),
                    HostStep::Pause => {
                        lacking = lack;
                        say_once(front.rt, &mut is_said, "memory");
                        front.house.pause(front.rt);
                    }
                    HostStep::Make => {
                        front.house.enter();
                        let helping = move ||
                            requires { IsSome front.now.desk.followed → P.mirror ≡ true }
                        { work(front, gate, Stay::WhileWanted) };
                        let made = Builder::new()
                            .stack_size(STACK)
                            .spawn_scoped(scope, helping);
                        if made.is_ok() {
                            is_said = false;
                            continue;
                        }
                        front.house.withdraw();
                        say_once(front.rt, &mut is_said, "threads");
                        match step_without(front.house.living()) {
                            HostStep::End => return,
                            _ => front.house.pause(front.rt),
                        }
                    }
                }
            }
        },
    );
}

// Says what connections wait for, unless something was said already. A line that can't be written is left out.
fn say_once<R: Host>(rt: &R, is_said: &mut bool, what: &str) {
    if !*is_said {
        let _ = eprintln!(rt; "watchcache: connections wait for {what}");
        *is_said = true;
    }
}

/// Runs so many workers, this thread being one of them.
pub fn work_side_by_side<B: Limit + Send + Sync, L, P, M, D, R: Host>(
    front: &Front<'_, P, M, D, R>,
    gate: &Gate<L, B>,
    workers: usize,
) -> Result<(), Memory>
where
    L: Listener + Send + Drop,
    L::T: Rung,
    P: LogFacts + Send + Sync,
    M: LogFacts + Send + Sync,
    D: LogFacts + Send + Sync,
{
    let worker = |_number: usize|
        requires { IsSome front.now.desk.followed → P.mirror ≡ true }
    {
        front.house.enter();
        work(front, gate, Stay::ToTheEnd)
    };
    thread::map_indices(front.rt, front.alloc, workers, &worker)?;
    Ok(())
}

// Accepts and serves one connection after the other, for as long as it stays, and tells how many they were. Whoever
// calls it has entered the house.
fn work<B, L, P, M, D, R>(front: &Front<'_, P, M, D, R>, gate: &Gate<L, B>, stay: Stay)
where
    B: Limit,
    L: Listener,
    L::T: Rung,
    P: LogFacts,
    M: LogFacts,
    D: LogFacts,
    R: Wait + Copy,
{
    let part = gate.tally.lock(front.rt).split();
    match part {
        Some(mut tally) => {
            serve_on(front, gate, stay, &mut tally);
            gate.tally.lock(front.rt).merge(tally);
        }
        None => front.house.takes(),
    }
    front.house.leave();
}

// It ends, and waits for no connection, where none will come, where there is no memory for a client, or where many
// others wait and it needn't stay.
fn serve_on<B, L, P, M, D, R>(
    front: &Front<'_, P, M, D, R>,
    gate: &Gate<L, B>,
    stay: Stay,
    tally: &mut Tally<B>,
)
where
    B: Limit,
    L: Listener,
    L::T: Rung,
    P: LogFacts,
    M: LogFacts,
    D: LogFacts,
    R: Wait + Copy,
{
    for _ in front.rt.forever() {
        match tally.serve_next(front, &gate.intake) {
            Ok(true) if stay == Stay::WhileWanted && front.house.is_crowded() => return,
            Ok(true) => front.house.returns(),
            Ok(false) => {
                front.house.close();
                return;
            }
            Err(_) => {
                front.house.lacks();
                return;
            }
        }
    }
}
