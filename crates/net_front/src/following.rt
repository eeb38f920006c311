//! The following of a mirror's peer, which runs beside the workers until they have ended.

use crate::end::AtEnd;
use crate::pace::Pace;
use crate::redial::{News, Redial};
use crate::shared::Front;
use crate::standing::{Standing, standing_of};
use crate::verdicts::{
    Lost, Stop, stop_of_line, stop_of_opening, stop_of_silence, stop_of_standing,
    stop_of_stream_end,
};
use edge_io::{Sink, Source};
use kube_meta::Resource;
use mirror_link::{Heard, Mirror};
use std::alloc::Global;
use std::sync::Wait;
use up_api::LogFacts;

/// Why a peer is followed no more. Whoever follows can't end without one of these.
#[derive(Clone, Copy, Debug)]
pub enum Left {
    /// The sessions have ended.
    Ended(AtEnd),
    /// What the peer would send can't be heard.
    Lost(Lost),
}

/// Follows the peer as [`follow`] does, beside the sessions. What it came to was said by then.
pub fn follow_beside<N: LogFacts, R: Wait + Copy, S: Source, D: Redial>(
    front: &Front<'_, N, N, N, R>,
    mirror: &mut Mirror<N, R>,
    source: &mut S,
    redial: &mut D,
    port: u16,
) {
    let _left = follow(front, mirror, source, redial, port);
}

/// Hears the lines of the peer at `port`, at first from `source` and then over connections by `redial`, until the
/// sessions have ended, or sooner: where a line can't be heard, or the peer has another log. Where the peer can't tell
/// what comes next, the mirror begins anew. It says what becomes of that, and takes down whether the peer is followed:
/// it isn't from an attempt in vain on.
pub fn follow<N: LogFacts, R: Wait + Copy, S: Source, D: Redial>(
    front: &Front<'_, N, N, N, R>,
    mirror: &mut Mirror<N, R>,
    source: &mut S,
    redial: &mut D,
    port: u16,
) -> Left {
    if let Some(end) = front.end.seen() {
        return Left::Ended(end);
    }
    let from = mirror.to();
    front.heard_reply(Resource::Pods, from);
    redial.say(News::Follows { port, from });
    let mut pace = Pace::new();
    let mut before = Ask::Opening;
    let mut stop = hear_lines(front, mirror, source, &mut pace);
    for _ in front.rt.forever() {
        let ask = match stop {
            Stop::Ended(end) => return Left::Ended(end),
            Stop::Over(why) => {
                redial.say(News::IsOver { why });
                Ask::Stream
            }
            Stop::Missed(why) => {
                redial.say(News::BeginsAnew { why });
                Ask::Opening
            }
            Stop::Lost(lost) => {
                front.end_following(Resource::Pods);
                redial.say(News::Ends { why: lost.why() });
                return Left::Lost(lost);
            }
        };
        // A peer that was asked for what comes next, and can't tell it, is there.
        if before == Ask::Stream && ask == Ask::Opening {
            pace.skip();
        }
        stop = follow_again(front, mirror, redial, port, ask, &mut pace);
        before = ask;
    }
    unreachable!()
}

// What the peer is asked for.
#[derive(Clone, Copy, Debug, PartialEq, Eq)]
enum Ask {
    // What comes behind the mirror's end.
    Stream,
    // All its pods, and what comes behind them.
    Opening,
}

// Asks until the stream goes on, and hears its lines.
fn follow_again<N: LogFacts, R: Wait + Copy, D: Redial>(
    front: &Front<'_, N, N, N, R>,
    mirror: &mut Mirror<N, R>,
    redial: &mut D,
    port: u16,
    ask: Ask,
    pace: &mut Pace,
) -> Stop {
    for _ in front.rt.forever() {
        pace.rest(front.rt, &front.end);
        if let Some(end) = front.end.seen() {
            return Stop::Ended(end);
        }
        match connect(front.alloc, mirror, redial, port, ask) {
            Ok((mut source, _sink)) => {
                // Watches that rest below a new base hear so that they are lost.
                front.desk.doorbell.ring();
                front.found_peer(Resource::Pods);
                let from = mirror.to();
                if ask == Ask::Opening {
                    front.began_anew(Resource::Pods, from);
                }
                redial.say(News::FollowsAgain { from });
                return hear_lines(front, mirror, &mut source, pace);
            }
            Err(Stop::Over(_)) => front.lost_peer(Resource::Pods),
            Err(stop) => return stop,
        }
    }
    unreachable!()
}

// Connects to the peer and asks, if the peer's log has reached the mirror's end. A log that hasn't is another one,
// under the same numbers.
fn connect<N: LogFacts, R: Wait + Copy, D: Redial>(
    alloc: Global,
    mirror: &mut Mirror<N, R>,
    redial: &mut D,
    port: u16,
    ask: Ask,
) -> Result<(D::S, D::K), Stop> {
    if let Some(stop) = stop_of_standing(standing(alloc, mirror.to(), redial, port)) {
        return Err(stop);
    }
    let Ok((mut source, mut sink)) = redial.redial(port) else {
        return Err(stop_of_silence());
    };
    match asked(mirror, &mut source, &mut sink, ask) {
        Ok(()) => Ok((source, sink)),
        Err(stop) => Err(stop),
    }
}

// Asks over a connection.
fn asked<N: LogFacts, R: Wait + Copy, S: Source, K: Sink>(
    mirror: &mut Mirror<N, R>,
    source: &mut S,
    sink: &mut K,
    ask: Ask,
) -> Result<(), Stop> {
    match ask {
        Ask::Stream => match mirror.resume(source, sink) {
            Ok(()) => Ok(()),
            Err(no) => Err(stop_of_line(no)),
        },
        Ask::Opening => match mirror.reopen(source, sink) {
            Ok(()) => Ok(()),
            Err(no) => Err(stop_of_opening(no)),
        },
    }
}

// How the peer's log stands to a revision.
fn standing<D: Redial>(alloc: Global, at: u64, redial: &mut D, port: u16) -> Standing {
    match redial.redial(port) {
        Ok((mut source, mut sink)) => standing_of(alloc, at, &mut source, &mut sink),
        Err(_) => Standing::Unknown,
    }
}

// Hears one line after the other, and rings for each, so that quiet watches of the mirror hear of it. The first forgets
// how often the peer was asked in vain.
fn hear_lines<N: LogFacts, R: Wait + Copy, S: Source>(
    front: &Front<'_, N, N, N, R>,
    mirror: &mut Mirror<N, R>,
    source: &mut S,
    pace: &mut Pace,
) -> Stop {
    for _ in front.rt.forever() {
        if let Some(end) = front.end.seen() {
            return Stop::Ended(end);
        }
        match mirror.next(source) {
            Ok(Heard::Line { .. }) => {
                pace.forget();
                front.heard_line(Resource::Pods, mirror.to());
                front.desk.doorbell.ring();
            }
            Ok(Heard::Ended { .. }) => return stop_of_stream_end(),
            Err(no) => return stop_of_line(no),
        }
    }
    unreachable!()
}
