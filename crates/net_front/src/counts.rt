//! Counts that the clients of one server share.

ghost use Rattle.std.specs.Prelude.{◌≡◌, ◌<◌, ◌≤◌, IfSome};

use kube_meta::{Memory, Resource};
use metrics::{Mirrored, RequestCount, Served, Verb};
use std::alloc::Global;
use std::sync::atomic::AtomicU64;
use std::sync::atomic::Ordering::SeqCst;

/// The codes by which clients are answered.
const CODES: [u16; 14] = [
    200, 201, 400, 403, 404, 405, 409, 410, 411, 413, 415, 422, 500, 504,
];

/// What requests ask for.
const VERBS: [Verb; 8] = [
    Verb::Get,
    Verb::List,
    Verb::Watch,
    Verb::Create,
    Verb::Replace,
    Verb::Remove,
    Verb::Transact,
    Verb::Operate,
];

/// Of what.
const RESOURCES: [Option<Resource>; 4] = [
    Some(Resource::Pods),
    Some(Resource::ConfigMaps),
    Some(Resource::Deployments),
    None,
];

/// How many kinds of answers are counted, each by itself: one for each verb, resource and code.
const KINDS: usize = 512;

/// How many connections are open, how many events were told, and how many requests were answered, of each kind. No
/// contract speaks of it: each thread adds by itself, and nobody waits.
#[derive(Drop)]
pub struct Counts {
    alloc: Global,
    connections: AtomicU64,
    events: AtomicU64,
    answers: Vec<AtomicU64>,
}

impl Counts {
    /// Those of a server that has served nobody yet.
    pub fn new(alloc: Global) -> Result<Counts, Memory> {
        let mut answers = Vec::with_capacity(alloc, KINDS)?;
        for _ in 0..KINDS {
            answers.push(AtomicU64::new(0))?;
        }
        Ok(Counts {
            alloc,
            connections: AtomicU64::new(0),
            events: AtomicU64::new(0),
            answers,
        })
    }

    /// A connection was accepted.
    pub fn opened(&self) {
        self.connections.fetch_add(1, SeqCst);
    }

    /// Its session has ended.
    pub fn closed(&self) {
        self.connections.fetch_sub(1, SeqCst);
    }

    /// So many events were told to a watch.
    pub fn told(&self, events: usize) {
        self.events.fetch_add(events as u64, SeqCst);
    }

    /// A request was answered by this code.
    pub fn answered(&self, verb: Verb, resource: Option<Resource>, code: u16) {
        if let Some(count) = self.answers.get(place(verb, resource, code)) {
            count.fetch_add(1, SeqCst);
        }
    }

    /// What a monitor is told, and this of mirrors: each count by itself, as it stands when it is read.
    pub fn served(&self, mirrors: Vec<Mirrored>) -> Result<Served, Memory> {
        let mut requests = Vec::new(self.alloc);
        for verb in VERBS {
            for resource in RESOURCES {
                for code in CODES {
                    let count = self.count(verb, resource, code);
                    if count > 0 {
                        requests.push(RequestCount {
                            verb,
                            resource,
                            code,
                            count,
                        })?;
                    }
                }
            }
        }
        Ok(Served {
            connections: self.connections.load(SeqCst),
            events: self.events.load(SeqCst),
            requests,
            mirrors,
        })
    }

    // How often requests of a kind were answered by this code.
    fn count(&self, verb: Verb, resource: Option<Resource>, code: u16) -> u64 {
        match self.answers.get(place(verb, resource, code)) {
            Some(count) => count.load(SeqCst),
            None => 0,
        }
    }
}

// The place of the count of a kind.
fn place(verb: Verb, resource: Option<Resource>, code: u16) -> usize
    ensures { result < 512 }
{
    place_of_verb(verb) * 64 + place_of_resource(resource) * 16 + place_of_code(code)
}

fn place_of_verb(verb: Verb) -> usize
    ensures { result < 8 }
{
    match verb {
        Verb::Get => 0,
        Verb::List => 1,
        Verb::Watch => 2,
        Verb::Create => 3,
        Verb::Replace => 4,
        Verb::Remove => 5,
        Verb::Transact => 6,
        Verb::Operate => 7,
    }
}

fn place_of_resource(resource: Option<Resource>) -> usize
    ensures { result < 4 }
{
    match resource {
        Some(Resource::Pods) => 0,
        Some(Resource::ConfigMaps) => 1,
        Some(Resource::Deployments) => 2,
        None => 3,
    }
}

// A code by which no client is answered counts as a fault of the server.
fn place_of_code(code: u16) -> usize
    ensures { result < 16 }
{
    match code {
        200 => 0,
        201 => 1,
        400 => 2,
        403 => 3,
        404 => 4,
        405 => 5,
        409 => 6,
        410 => 7,
        411 => 8,
        413 => 9,
        415 => 10,
        422 => 11,
        504 => 12,
        _ => 13,
    }
}
