//! The upstream of a cache.

ghost use Rattle.std.specs.Prelude.{◌≡◌, ◌≤◌, ◌<◌, ℕ, Option, IfOk, IfErr, OnErr, IfSome, option_map};
ghost use Rattle.rev_front.specs.Passes.{Whole, end_from};
ghost use Rattle.rev_log.specs.Changes.{RevisionData};
ghost use Rattle.rev_log.specs.States.{IsStateAt};
ghost use Rattle.up_api.specs.Feeds.{IsPoll, IsHistory, PollsJoin, feed_at};
ghost use Rattle.up_api.specs.Sections.{log_of, Learns, LogsGrow, Sections, SectionsAll, Knows, StaysOrKnows, StaysOrKnowsAll, RefusesAt, RefusesPoll, raised_once};

use crate::feeds::{Feed, History, Polled};
use crate::named::LogFacts;
use crate::refusals::UpNo;
use kube_meta::{Memory, Resource, Row};
use rev_front::Front;
use rev_log::Revision;

/// A pass of a log of revisions.
pub type Pass<N> = Front<Revision, N>;

/// What a pass of such a log tells others, who take it in.
pub type News<N> = rev_front::News<Revision, N>;

/// The upstream of a cache. Each call is one section: no write comes between its parts.
pub trait Upstream<N: LogFacts> {
    // the log, its floor and its generation, where they are told; none of the calls changes them
    ghost own: { Self → Option (Whole RevisionData) };

    // how often states and histories were read, where that is told
    ghost reads: { Self → Option ℕ };

    // how many revisions it keeps, where that is told; none of the calls changes it
    ghost history: { Self → Option ℕ };

    /// The rows of the resource at the revision `at`, in the order of their keys.
    fn list_at(&mut self, resource: Resource, at: u64, told: &mut Pass<N>) -> Result<Vec<Row>, UpNo>
        ensures learns { Learns told.old told.new }
        ensures section { Sections result told.old told.new }
        ensures rows { IfOk result (λ rows. IsStateAt (log_of N.base told.new) resource at rows.items) }
        ensures served { IfOk result (λ rows. (told.new.floor ≤ at) × (at ≤ told.new.shown)) }
        ensures refused { IfErr result (RefusesAt told.new at) }
        ensures own { own self.new ≡ own self.old }
        ensures knows { IfSome (own self.old) (λ w. StaysOrKnows w result told.old told.new) }
        ensures reads { reads self.new ≡ option_map raised_once (reads self.old) }
        ensures history_stays { history self.new ≡ history self.old };

    /// A feed of the resource that is complete up to the revision `at`.
    fn begin(&mut self, resource: Resource, at: u64, told: &mut Pass<N>) -> Result<Feed, UpNo>
        ensures learns { Learns told.old told.new }
        ensures section { Sections result told.old told.new }
        ensures feed { IfOk result (λ feed. feed ≡ feed_at resource at told.new.gen) }
        ensures served { IfOk result (λ feed. (told.new.floor ≤ at) × (at ≤ told.new.shown)) }
        ensures refused { IfErr result (RefusesAt told.new at) }
        ensures own { own self.new ≡ own self.old }
        ensures knows { IfSome (own self.old) (λ w. StaysOrKnows w result told.old told.new) }
        ensures reads { reads self.new ≡ reads self.old }
        ensures history_stays { history self.new ≡ history self.old };

    /// The next revisions of a feed: the fewest that hold at least `max` changes, or all that are left where they
    /// hold fewer. A refusal leaves the feed as it was.
    fn poll(&mut self, feed: &mut Feed, max: usize, told: &mut Pass<N>) -> Result<Polled, UpNo>
        requires max { 1 ≤ max }
        requires known { feed.old.upto ≤ end_from told.old.first told.old.seen }
        ensures learns { Learns told.old told.new }
        ensures section { Sections result told.old told.new }
        ensures polled { IfOk result (λ polled. IsPoll (log_of N.base told.new) feed.old.resource feed.old.upto max polled) }
        ensures feed { IfOk result (λ polled. feed.new ≡ record feed.old { upto = polled.upto }) }
        ensures served { IfOk result (λ polled. (told.new.floor ≤ feed.old.upto) × (told.new.gen ≤ feed.old.gen_)) }
        ensures refused { IfErr result (RefusesPoll told.new feed.old) }
        ensures kept { OnErr result (feed.new ≡ feed.old) }
        ensures own { own self.new ≡ own self.old }
        ensures knows { IfSome (own self.old) (λ w. StaysOrKnows w result told.old told.new) }
        ensures reads { reads self.new ≡ reads self.old }
        ensures history_stays { history self.new ≡ history self.old };

    /// All that upstream still has of the resource.
    fn history(&mut self, resource: Resource, told: &mut Pass<N>) -> Result<History, Memory>
        ensures learns { Learns told.old told.new }
        ensures section { SectionsAll result told.old told.new }
        ensures history { IfOk result (λ history. IsHistory (log_of N.base told.new) told.new.floor resource history) }
        ensures floor { IfOk result (λ history. history.floor ≡ told.new.floor) }
        ensures upto { IfOk result (λ history. history.upto ≡ end_from told.new.first told.new.seen) }
        ensures own { own self.new ≡ own self.old }
        ensures knows { IfSome (own self.old) (λ w. StaysOrKnowsAll w result told.old told.new) }
        ensures reads { reads self.new ≡ option_map raised_once (reads self.old) }
        ensures history_stays { history self.new ≡ history self.old };
}

/// Where one pass goes on from another, its log goes on from the other's: the same base, and perhaps more revisions.
pub fn logs_grow()
    ensures { LogsGrow }
{}

/// Polls that follow each other are one: what came up to b, and then from b on, is what came up to the second's end.
pub fn polls_join()
    ensures { PollsJoin }
{}
