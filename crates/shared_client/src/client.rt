//! The shared client.

ghost use Rattle.std.specs.Prelude.{◌≡◌, ◌≤◌, None, IfOk};
ghost use Rattle.rev_front.specs.Passes.{IsPass, Whole, idle_author, pass_from};
ghost use Rattle.rev_log.specs.Changes.{RevisionData};
ghost use Rattle.rev_log.specs.Logs.{Fits};
ghost use Rattle.up_api.specs.Sections.{Learns};
ghost use Rattle.up_store.specs.Replies.{IsOperationReply};
ghost use Rattle.up_store.specs.Stores.{commanded};

use crate::cacher::Cacher;
use crate::shared::SharedCaches;
use bells::Bell;
use cached_client::{Watch, WatchLane, begin, get, list, measure, stand, turn};
use client_api::{Begun, Client, Got, ListNo, Listed, Resources, Took};
use kube_meta::Memory;
use list_rules::{GetAsk, ListAsk};
use metrics::Metrics;
use rev_front::Author;
use std::sync::{Arc, Mutex, Wait};
use up_api::{LogFacts, Pass};
use up_store::{
    OpNo, Operate, ReadDoor, StoreDoor, Transaction, TxWriteNo, WriteAsk, WriteNo, Written,
};
use watch_rules::WatchAsk;

/// The door to the store by which the clients of a `Cacher` write, and the right to write, of which each client has a
/// part. Nobody else can open it, so nothing but a client writes to the log, cuts its feeds or compacts it.
#[derive(Drop)]
pub(crate) struct WriteDoor<N: LogFacts, R: Wait + Copy> {
    rt: R,
    door: StoreDoor<N, R>,
    authors: Mutex<Author<N>>,
}

impl<N: LogFacts, R: Wait + Copy> WriteDoor<N, R> {
    /// The same door, for clients alone, each of which has a part of this author's right.
    pub fn new(rt: R, door: StoreDoor<N, R>, author: Author<N>) -> WriteDoor<N, R> {
        WriteDoor {
            rt,
            door,
            authors: Mutex::new(author),
        }
    }

    // A part of the right for a client, who has done nothing yet. There are more parts than clients can be at once.
    fn lend(&self) -> Result<Author<N>, Memory>
        ensures { IfOk result (λ author. author ≡ idle_author 1) }
    {
        match self.authors.lock(&self.rt).split(1) {
            Some(author) => Ok(author),
            None => Err(Memory),
        }
    }

    // A client's part comes back, with what was done by it.
    fn take_back(&self, author: Author<N>) {
        self.authors.lock(&self.rt).merge(author);
    }

    /// The right to change the log, as far as it came back, with all that was done by it.
    pub fn close(self) -> Author<N> {
        let WriteDoor { rt, door, authors } = self;
        drop(door);
        let _ = rt;
        authors.into_inner()
    }

    /// A door for who reads and follows the log.
    pub fn reader(&self) -> Result<ReadDoor<N, R>, Memory> {
        self.door.reader()
    }

    /// A pass that knows the whole log.
    pub fn pass(&self) -> Result<Pass<N>, Memory>
        ensures { IfOk result (λ p. (whole : Whole RevisionData) × (p ≡ pass_from whole p.seat)) }
    {
        self.door.pass()
    }
}

/// One of many clients of a log. It answers from the caches of its `Cacher` and writes by the door there, which it
/// shares with the others, and has a pass of its own, a right of its own to change the log, a door to read the store
/// by, and the bell that ends the rests of its watches, if there is one.
///
/// Its lane is closed when its watch ends, and when it is let go. Its part of the right to change the log goes back.
pub struct SharedClient<'a, N: LogFacts, R: Wait + Copy> {
    caches: SharedCaches<'a, N, R>,
    pub(crate) told: Pass<N>,
    pub(crate) author: Author<N>,
    pub(crate) watch: Option<Watch<WatchLane<N>>>,
    pub(crate) heard: u64,
}

impl<'a, N: LogFacts, R: Wait + Copy> SharedClient<'a, N, R> {
    // A client with no watch.
    pub(crate) fn new(cacher: &'a Cacher<N, R>) -> Result<SharedClient<'a, N, R>, Memory>
        ensures idle { IfOk result (λ client. (client.watch ≡ None) × (client.heard ≡ 0)) }
        ensures pass { IfOk result (λ client. (whole : Whole RevisionData) × (client.told ≡ pass_from whole client.told.seat)) }
        ensures lawful { IfOk result (λ client. IsPass Fits client.told) }
        ensures author { IfOk result (λ client. client.author ≡ idle_author 1) }
    {
        let door = cacher.write_door.reader()?;
        let told = cacher.write_door.pass()?;
        let _known = told.shown();
        let author = cacher.write_door.lend()?;
        Ok(SharedClient {
            caches: SharedCaches {
                cacher,
                door,
                bell: None,
            },
            told,
            author,
            watch: None,
            heard: 0,
        })
    }

    /// The client, whose watches are rung by this bell once they have something to tell. It is the bell of the lanes
    /// that it opens from now on.
    pub fn heard_by(self, bell: Option<Arc<Bell>>) -> SharedClient<'a, N, R>
        ensures watch { result.watch ≡ self.entry.watch }
        ensures heard { result.heard ≡ self.entry.heard }
        ensures told { result.told ≡ self.entry.told }
        ensures author { result.author ≡ self.entry.author }
    {
        let mut client = self;
        client.caches.ring_by(bell);
        client
    }
}

impl<N: LogFacts, R: Wait + Copy> Drop for SharedClient<'_, N, R> {
    fn drop(self) {
        let SharedClient {
            caches,
            told: _,
            author,
            watch,
            heard: _,
        } = self;
        caches.end(watch);
        caches.cacher.write_door.take_back(author);
    }
}

impl<N: LogFacts, R: Wait + Copy> Client for SharedClient<'_, N, R> {
    ghost use Rattle.std.specs.Prelude.{None, true};
    ghost use Rattle.client_api.specs.Facts.{all_served};

    ghost base = { N.base };

    ghost mirror = { N.mirror };

    ghost pass = { λ c. c.told };

    ghost facts = { λ c. record {
      watching = c.watch;
      heard = c.heard;
      did = c.author;
      window = N.window;
      sole_history = None;
      resources = all_served;
      operable = true;
    } };

    // others hold the log too
    ghost whole = { λ _. ⊥ };

    ghost cached = { λ _. record { reads = 0; ends = λ _. 0 } };

    // the caches are those of all clients
    ghost times = { λ _ _. None };

    fn write(&mut self, ask: &WriteAsk) -> Result<Written, WriteNo> {
        let cacher = self.caches.cacher;
        let door = &cacher.write_door.door;
        let answer = door.write(ask, &mut self.told, &mut self.author);
        let _known = self.told.shown();
        answer
    }

    fn transact(&mut self, ask: &Transaction) -> Result<Vec<Written>, TxWriteNo> {
        let cacher = self.caches.cacher;
        let door = &cacher.write_door.door;
        let answer = door.transact(ask, &mut self.told, &mut self.author);
        let _known = self.told.shown();
        answer
    }

    fn get(&mut self, ask: &GetAsk) -> Result<Got, ListNo> {
        get(&mut self.caches, &mut self.told, ask)
    }

    fn list(&mut self, ask: &ListAsk) -> Result<Listed, ListNo> {
        let alloc = self.caches.cacher.alloc;
        list(alloc, &mut self.caches, &mut self.told, ask)
    }

    fn watch(&mut self, ask: &WatchAsk) -> Result<Begun, ListNo> {
        let alloc = self.caches.cacher.alloc;
        let (begun, watch) = begin(alloc, &mut self.caches, &mut self.told, ask)?;
        self.caches.end(self.watch.replace(watch));
        Ok(begun)
    }

    fn take(&mut self, max: usize) -> Result<Took, Memory> {
        let Some(watch) = &mut self.watch else {
            unreachable!()
        };
        let took = turn(&mut self.caches, &mut self.told, watch, max, self.heard)?;
        self.caches.end(stand(&mut self.watch, &took));
        Ok(took)
    }

    fn end_watch(&mut self) {
        self.caches.end(self.watch.take());
    }

    fn operate(&mut self, ask: Operate) -> Result<u64, OpNo> {
        let answer = operated(self.caches.cacher, ask, &mut self.told, &mut self.author);
        let _known = self.told.shown();
        answer
    }

    fn metrics(&mut self) -> Result<Metrics, Memory> {
        measure(&mut self.caches, &mut self.told)
    }

    // Its server knows better where it is a mirror's, and tells that in its place.
    fn resources(&self) -> Resources {
        Resources::ALL
    }

    fn is_operable(&self) -> bool {
        true
    }

    fn is_ready(&self) -> bool {
        true
    }

    fn tick(&mut self, ms: u64) {
        self.heard = self.heard.max(ms);
    }
}

// Does an operation. Where all open watches are to end, that is up to whoever serves them.
fn operated<N: LogFacts, R: Wait + Copy>(
    cacher: &Cacher<N, R>,
    ask: Operate,
    told: &mut Pass<N>,
    author: &mut Author<N>,
) -> Result<u64, OpNo>
    ensures learns { Learns told.old told.new }
    ensures reply { IsOperationReply told.old ask result told.new }
    ensures author { author.new ≡ commanded ask result author.old }
{
    match ask {
        Operate::Cut => cacher.write_door.door.drop_feeds(told, author),
        Operate::Compact { at } => cacher.write_door.door.compact(at, told, author),
        Operate::Restart => Ok(cacher.restart(told)?),
        Operate::Disconnect => Ok(told.floor()),
    }
}
