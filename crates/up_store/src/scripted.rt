//! A store that cuts its feeds and compacts its log by a script.

ghost use Rattle.std.specs.Prelude.{◌≡◌};
ghost use Rattle.up_api.specs.Sections.{Learns, HasSeenAll};

use crate::Store;
use kube_meta::{Memory, Resource, Row};
use rev_front::Author;
use up_api::{Feed, History, LogFacts, Pass, Polled, UpNo, Upstream};

/// An upstream that cuts all feeds, and compacts, just before given polls.
#[derive(Drop)]
pub struct ScriptedStore<N: LogFacts> {
    store: Store<N>,
    // Whose orders the cuts and compactions are.
    author: Author<N>,
    // The polls, counted from 0, before which all feeds are cut.
    cuts: Vec<u64>,
    // The polls before which the log is compacted, and at which revision.
    compactions: Vec<(u64, u64)>,
    // How many polls were asked for.
    polls: u64,
}

impl<N: LogFacts> ScriptedStore<N> {
    /// Cuts all feeds of this store just before the polls with these numbers, counted from 0, by order of this author.
    pub fn new(store: Store<N>, author: Author<N>, cuts: Vec<u64>) -> ScriptedStore<N>
        ensures { result.store ≡ store }
    {
        let compactions = Vec::new(store.alloc);
        ScriptedStore {
            store,
            author,
            cuts,
            compactions,
            polls: 0,
        }
    }

    /// Compacts too: each pair is a poll's number and the revision at which the log is compacted just before that poll,
    /// after its cut. What refuses the compaction is no refusal of the poll.
    pub fn also_compact(&mut self, list: Vec<(u64, u64)>)
        ensures { self.new.store ≡ self.old.store }
    {
        self.compactions = list;
    }

    /// The store.
    pub fn store(&mut self) -> &mut Store<N>
        ensures { result.now ≡ self.old.store }
    {
        &mut self.store
    }
}

// Cuts all feeds, if this poll is listed.
fn cut_before<N: LogFacts>(
    store: &mut Store<N>,
    author: &mut Author<N>,
    cuts: &[u64],
    poll: u64,
    told: &mut Pass<N>,
)
    ensures learns { Learns told.old told.new }
    ensures seen { HasSeenAll told.new }
{
    store.tell(told);
    if cuts.contains(&poll) {
        let _ = store.drop_feeds(told, author);
    }
}

// Compacts the log at the revisions that are listed with this poll.
fn compact_before<N: LogFacts>(
    store: &mut Store<N>,
    author: &mut Author<N>,
    list: &[(u64, u64)],
    poll: u64,
    told: &mut Pass<N>,
)
    requires seen { HasSeenAll told.old }
    ensures learns { Learns told.old told.new }
    ensures seen { HasSeenAll told.new }
{
    for (listed, at) in list {
        if *listed == poll {
            let _ = store.compact(*at, told, author);
        }
    }
}

impl<N: LogFacts> Upstream<N> for ScriptedStore<N> {
    ghost use Rattle.std.specs.Prelude.{None};

    ghost own = { λ _. None };

    ghost reads = { λ _. None };

    ghost history = { λ _. None };

    fn list_at(
        &mut self,
        resource: Resource,
        at: u64,
        told: &mut Pass<N>,
    ) -> Result<Vec<Row>, UpNo> {
        self.store.list_at(resource, at, told)
    }

    fn begin(&mut self, resource: Resource, at: u64, told: &mut Pass<N>) -> Result<Feed, UpNo> {
        self.store.begin(resource, at, told)
    }

    fn poll(&mut self, feed: &mut Feed, max: usize, told: &mut Pass<N>) -> Result<Polled, UpNo> {
        cut_before(
            &mut self.store,
            &mut self.author,
            &self.cuts,
            self.polls,
            told,
        );
        compact_before(
            &mut self.store,
            &mut self.author,
            &self.compactions,
            self.polls,
            told,
        );
        self.polls = self.polls.saturating_add(1);
        self.store.poll(feed, max, told)
    }

    fn history(&mut self, resource: Resource, told: &mut Pass<N>) -> Result<History, Memory> {
        self.store.history(resource, told)
    }
}
