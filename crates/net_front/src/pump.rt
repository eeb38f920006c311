//! The pump, which feeds the caches and wakes the watches that they told something.

use crate::caches::{Others, Told};
use crate::end::End;
use crate::shared::Desk;
use bells::{Bell, Calls, NO_PEER};
use edge_io::Clock;
use kube_meta::Memory;
use shared_client::Cacher;
use std::alloc::Global;
use std::sync::Wait;
use up_api::LogFacts;

/// Behind more rings than this the pump gathers: writes that come fast to many watches are told together.
const FEW_CALLS: usize = 16;

/// For how many milliseconds.
const GATHER_MS: u64 = 1;

/// Feeds the caches, tells them and the desk the time and rings for the lanes that were told, by turns, until `end` is
/// there and the bell rung. Where all watches were ended it rings for all connections. Where there is no memory for a
/// pass it does not run: lists and watches follow the log themselves.
pub fn pump<P: LogFacts, M: LogFacts, D: LogFacts, T: Clock, R: Wait + Copy>(
    rt: &R,
    alloc: Global,
    cacher: &Cacher<P, R>,
    others: Option<&Others<M, D, R>>,
    clock: &mut T,
    desk: &Desk,
    end: &End,
) {
    let (doorbell, disconnects) = (&desk.doorbell, &desk.disconnects);
    let (Ok(mut told), Ok(mut others_told)) = (cacher.pass(), pass_of(others)) else {
        return;
    };
    let silence = Bell::new();
    let mut ended = disconnects.count();
    doorbell.begin();
    for _ in rt.forever() {
        let count = doorbell.count();
        if end.seen().is_some() {
            break;
        }
        let now_ended = disconnects.count();
        if now_ended != ended {
            ended = now_ended;
            disconnects.ring(rt);
        }
        let now_ms = clock.now().ms;
        desk.tell_time(now_ms);
        cacher.tick(now_ms);
        let mut calls = Calls::new(alloc);
        let _ = cacher.feed(&mut told, &mut calls);
        feed_others(others, &mut others_told, now_ms, &mut calls);
        if calls.ring_all() > FEW_CALLS {
            silence.rest(rt, 0, &NO_PEER, GATHER_MS);
        }
        doorbell.rest(rt, count);
    }
    doorbell.end();
}

// A pass of each further log.
fn pass_of<M: LogFacts, D: LogFacts, R: Wait + Copy>(
    others: Option<&Others<M, D, R>>,
) -> Result<Option<Told<M, D>>, Memory> {
    match others {
        Some(others) => Ok(Some(others.pass()?)),
        None => Ok(None),
    }
}

// The same for the caches of the further logs.
fn feed_others<M: LogFacts, D: LogFacts, R: Wait + Copy>(
    others: Option<&Others<M, D, R>>,
    told: &mut Option<Told<M, D>>,
    now_ms: u64,
    calls: &mut Calls,
) {
    let Some(others) = others else {
        return;
    };
    others.tick(now_ms);
    if let Some(told) = told {
        others.feed(told, calls);
    }
}
