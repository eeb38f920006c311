//! Doors for who reads a store and follows it.

ghost use Rattle.std.specs.Prelude.{◌≤◌, ◌≡◌, ◌^◌, IfErr, IfOk};
ghost use Rattle.rev_front.specs.Passes.{Whole, pass_from};
ghost use Rattle.rev_log.specs.Changes.{RevisionData};
ghost use Rattle.rev_log.specs.States.{IsStateAt};
ghost use Rattle.up_api.specs.Sections.{log_of, Learns, RefusesAt, Sections};

use crate::StoreDoor;
use kube_meta::{Memory, Resource, Row};
use obj_tree::Snapshot;
use std::sync::Wait;
use up_api::{Feed, History, LogFacts, Pass, Polled, UpNo, Upstream};

/// A door to one store through which it is read and followed, and nothing else: who holds this one alone can't write
/// through it, nor cut feeds, nor compact the log.
#[derive(Drop)]
pub struct ReadDoor<N: LogFacts, R: Wait + Copy> {
    door: StoreDoor<N, R>,
}

impl<N: LogFacts, R: Wait + Copy> StoreDoor<N, R> {
    /// A door to the same store for who reads and follows it.
    pub fn reader(&self) -> Result<ReadDoor<N, R>, Memory> {
        Ok(ReadDoor {
            door: self.again()?,
        })
    }
}

impl<N: LogFacts, R: Wait + Copy> ReadDoor<N, R> {
    /// Another such door to the same store.
    pub fn again(&self) -> Result<ReadDoor<N, R>, Memory> {
        self.door.reader()
    }

    /// A pass that knows the whole log.
    pub fn pass(&self) -> Result<Pass<N>, Memory>
        ensures { IfOk result (λ p. (whole : Whole RevisionData) × (p ≡ pass_from whole p.seat)) }
    {
        self.door.pass()
    }

    /// The objects of the resource at the revision `at`, as `StoreDoor::state_at` gives them.
    pub fn state_at(
        &self,
        resource: Resource,
        at: u64,
        told: &mut Pass<N>,
    ) -> Result<Snapshot, UpNo>
        ensures learns { Learns told.old told.new }
        ensures section { Sections result told.old told.new }
        ensures state { IfOk result (λ state. IsStateAt (log_of N.base told.new) resource at state) }
        ensures served { IfOk result (λ state. (told.new.floor ≤ at) × (at ≤ told.new.shown)) }
        ensures refused { IfErr result (RefusesAt told.new at) }
    {
        self.door.state_at(resource, at, told)
    }

    /// How many times states and histories were read, refused calls included, up to 2 ^ 62.
    pub fn reads(&self) -> u64
        ensures { result ≤ 2 ^ 62 }
    {
        self.door.reads()
    }
}

impl<N: LogFacts, R: Wait + Copy> Upstream<N> for ReadDoor<N, R> {
    ghost use Rattle.std.specs.Prelude.{None};

    ghost own = { λ _. None };

    ghost reads = { λ _. None };

    ghost history = { λ _. None };

    fn list_at(
        &mut self,
        resource: Resource,
        at: u64,
        told: &mut Pass<N>,
    ) -> Result<Vec<Row>, UpNo> {
        self.door.list_at(resource, at, told)
    }

    fn begin(&mut self, resource: Resource, at: u64, told: &mut Pass<N>) -> Result<Feed, UpNo> {
        self.door.begin(resource, at, told)
    }

    fn poll(&mut self, feed: &mut Feed, max: usize, told: &mut Pass<N>) -> Result<Polled, UpNo> {
        self.door.poll(feed, max, told)
    }

    fn history(&mut self, resource: Resource, told: &mut Pass<N>) -> Result<History, Memory> {
        self.door.history(resource, told)
    }
}
