//! The following of a resource of a cluster that a server mirrors, which runs beside the workers until they have ended.

use crate::cluster::Cluster;
use crate::cluster_verdicts::{
    ClusterWhy, Final, Halt, Wanted, halt_of, halt_of_silence, halt_of_uid, halt_without_uid,
    is_at_once, wanted_next,
};
use crate::end::AtEnd;
use crate::pace::Pace;
use crate::redial::{ClusterNews, Redial};
use crate::shared::Front;
use cluster_link::{ClusterMirror, Heard, read_uid};
use edge_io::Source;
use kube_meta::{Resource, Text};
use std::alloc::Global;
use std::sync::Wait;
use up_api::LogFacts;

/// Who follows a resource of a cluster: its mirror, connections to the cluster, and which that is.
#[derive(Drop)]
pub struct Follower<N: LogFacts, R: Wait + Copy, W> {
    pub mirror: ClusterMirror<N, R>,
    pub redial: W,
    pub cluster: Cluster,
}

/// Why a cluster is followed no more. Whoever follows can't end without one of these.
#[derive(Clone, Copy, Debug)]
pub enum Left {
    /// The sessions have ended.
    Ended(AtEnd),
    /// The cluster can't be followed.
    Lost(Final),
}

/// Follows a resource of the cluster as [`follow`] does, beside the sessions, if it is to be followed. What it came to
/// was said by then.
pub fn follow_beside<P: LogFacts, M: LogFacts, D: LogFacts, N: LogFacts, R: Wait + Copy, W: Redial>(
    front: &Front<'_, P, M, D, R>,
    resource: Resource,
    follower: &mut Option<Follower<N, R, W>>,
) {
    if let Some(follower) = follower {
        let _left = follow(front, resource, follower);
    }
}

/// Hears the lines of the cluster, over one connection by `redial` after the other, until the sessions have ended, or
/// sooner: where a line can't be heard, or it is another cluster. Where the cluster can't tell what comes next, the
/// mirror begins anew with a list. It says what becomes of that, and takes down whether the cluster is followed: it
/// isn't from an attempt in vain on.
pub fn follow<P: LogFacts, M: LogFacts, D: LogFacts, N: LogFacts, R: Wait + Copy, W: Redial>(
    front: &Front<'_, P, M, D, R>,
    resource: Resource,
    follower: &mut Follower<N, R, W>,
) -> Left {
    let Follower {
        mirror,
        redial,
        cluster,
    } = follower;
    let (port, from) = (cluster.port, mirror.to());
    front.heard_reply(resource, from);
    redial.tell(resource, ClusterNews::Follows { port, from }, None);
    let mut course = Course::new(resource);
    for _ in front.rt.forever() {
        let halt = ask(front, mirror, redial, cluster, &mut course);
        match halt {
            Halt::Ended(end) => return Left::Ended(end),
            Halt::End(last) => {
                front.end_following(resource);
                let why = last.why();
                redial.tell(resource, ClusterNews::Ends { why }, mirror.finding());
                return Left::Lost(last);
            }
            Halt::Onward | Halt::Again(_) | Halt::Anew(_) => {
                if let Some(news) = course.turn(halt) {
                    redial.tell(resource, news, None);
                }
            }
        }
    }
    unreachable!()
}

// Of which resource and what the cluster is asked for, how long it is left alone before, and for which cause it isn't
// heard, as was told.
#[derive(Clone, Copy)]
struct Course {
    resource: Resource,
    wanted: Wanted,
    pace: Pace,
    told: Option<ClusterWhy>,
}

impl Course {
    // The stream is asked for at once.
    fn new(resource: Resource) -> Course {
        let mut pace = Pace::new();
        pace.skip();
        Course {
            resource,
            wanted: Wanted::Stream,
            pace,
            told: None,
        }
    }

    // Turns to what is asked for next, and answers what is to be told. A cause that comes again isn't told again.
    fn turn(&mut self, halt: Halt) -> Option<ClusterNews> {
        self.wanted = wanted_next(halt, self.wanted);
        if is_at_once(halt) {
            self.pace.skip();
        }
        match halt {
            Halt::Again(why) => self.miss(why),
            Halt::Anew(why) => {
                self.told = Some(why);
                Some(ClusterNews::BeginsAnew { why })
            }
            _ => None,
        }
    }

    fn miss(&mut self, why: ClusterWhy) -> Option<ClusterNews> {
        if self.told == Some(why) {
            return None;
        }
        self.told = Some(why);
        Some(ClusterNews::IsAway { why })
    }

    // The cluster is heard from a revision on. It is told where it wasn't before.
    fn find(&mut self, from: u64) -> Option<ClusterNews> {
        match self.told {
            Some(_) => {
                self.told = None;
                Some(ClusterNews::FollowsAgain { from })
            }
            None => None,
        }
    }
}

// Asks once, and hears what comes of it.
fn ask<P: LogFacts, M: LogFacts, D: LogFacts, N: LogFacts, R: Wait + Copy, W: Redial>(
    front: &Front<'_, P, M, D, R>,
    mirror: &mut ClusterMirror<N, R>,
    redial: &mut W,
    cluster: &mut Cluster,
    course: &mut Course,
) -> Halt {
    course.pace.rest(front.rt, &front.end);
    if let Some(end) = front.end.seen() {
        return Halt::Ended(end);
    }
    if let Some(halt) = meet(front, redial, cluster, course.resource) {
        return halt;
    }
    match course.wanted {
        Wanted::Stream => ask_stream(front, mirror, redial, cluster.port, course),
        Wanted::Objects => ask_objects(front, mirror, redial, cluster.port, course.resource),
    }
}

// Tells the cluster from another one by its uid. The first that is read counts.
fn meet<P: LogFacts, M: LogFacts, D: LogFacts, R: Wait + Copy, W: Redial>(
    front: &Front<'_, P, M, D, R>,
    redial: &mut W,
    cluster: &mut Cluster,
    resource: Resource,
) -> Option<Halt> {
    match uid_of(front.alloc, redial, cluster.port) {
        Ok(uid) => {
            let halt = halt_of_uid(&cluster.uid, &uid);
            if cluster.uid.is_none() {
                cluster.uid = uid;
            }
            halt
        }
        Err(halt) => Some(in_vain(front, resource, halt)),
    }
}

/// The uid of the cluster behind a port, where it has one that may be read.
pub fn uid_of<W: Redial>(alloc: Global, redial: &mut W, port: u16) -> Result<Option<Text>, Halt> {
    let Ok((mut source, mut sink)) = redial.redial(port) else {
        return Err(halt_of_silence());
    };
    match read_uid(alloc, &mut source, &mut sink) {
        Ok(uid) => Ok(uid),
        Err(no) => match halt_without_uid(no) {
            Some(halt) => Err(halt),
            None => Ok(None),
        },
    }
}

// Takes down that the cluster isn't followed, where it was asked in vain.
fn in_vain<P: LogFacts, M: LogFacts, D: LogFacts, R: Wait + Copy>(
    front: &Front<'_, P, M, D, R>,
    resource: Resource,
    halt: Halt,
) -> Halt {
    if let Halt::Again(_) = halt {
        front.lost_peer(resource);
    }
    halt
}

// Asks for all objects, and takes the mirror to them.
fn ask_objects<P: LogFacts, M: LogFacts, D: LogFacts, N: LogFacts, R: Wait + Copy, W: Redial>(
    front: &Front<'_, P, M, D, R>,
    mirror: &mut ClusterMirror<N, R>,
    redial: &mut W,
    port: u16,
    resource: Resource,
) -> Halt {
    let Ok((mut source, mut sink)) = redial.redial(port) else {
        return in_vain(front, resource, halt_of_silence());
    };
    match mirror.take_list(&mut source, &mut sink) {
        Ok(()) => {
            front.began_anew(resource, mirror.to());
            // Watches that rest below the new base hear so that they are lost.
            front.desk.doorbell.ring();
            Halt::Onward
        }
        Err(no) => in_vain(front, resource, halt_of(Wanted::Objects, no)),
    }
}

// Asks for the stream, and hears its lines.
fn ask_stream<P: LogFacts, M: LogFacts, D: LogFacts, N: LogFacts, R: Wait + Copy, W: Redial>(
    front: &Front<'_, P, M, D, R>,
    mirror: &mut ClusterMirror<N, R>,
    redial: &mut W,
    port: u16,
    course: &mut Course,
) -> Halt {
    let Ok((mut source, mut sink)) = redial.redial(port) else {
        return in_vain(front, course.resource, halt_of_silence());
    };
    match mirror.resume(&mut source, &mut sink) {
        Ok(()) => {
            front.found_peer(course.resource);
            if let Some(news) = course.find(mirror.to()) {
                redial.tell(course.resource, news, None);
            }
            hear_lines(front, mirror, &mut source, course)
        }
        Err(no) => in_vain(front, course.resource, halt_of(Wanted::Stream, no)),
    }
}

// Hears one line after the other, and rings for each, so that quiet watches of the mirror hear of it.
fn hear_lines<P: LogFacts, M: LogFacts, D: LogFacts, N: LogFacts, R: Wait + Copy, S: Source>(
    front: &Front<'_, P, M, D, R>,
    mirror: &mut ClusterMirror<N, R>,
    source: &mut S,
    course: &mut Course,
) -> Halt {
    for _ in front.rt.forever() {
        if let Some(end) = front.end.seen() {
            return Halt::Ended(end);
        }
        match mirror.next(source) {
            Ok(Heard::Line { to }) => {
                course.pace.forget();
                front.heard_line(course.resource, to);
                front.desk.doorbell.ring();
            }
            Ok(Heard::Ended { to }) => {
                front.heard_reply(course.resource, to);
                course.pace.shorten();
                return Halt::Onward;
            }
            Err(no) => return halt_of(Wanted::Stream, no),
        }
    }
    unreachable!()
}
