//! Following a feed until it is cut, compacted or far enough.

ghost use Rattle.std.specs.Prelude.{◌≡◌, ◌≤◌, ◌<◌, ℕ, None, Ok, Some, IfOk, IfErr, OnErr, OnOk, IfSome};
ghost use Rattle.up_api.specs.Feeds.{feed_at};
ghost use Rattle.up_api.specs.Sections.{log_of, Learns, StaysOrSeesAll, StandsAt, Knows};
ghost use Rattle.reflect_core.specs.Along.{TakesInPolls};
ghost use Rattle.reflect_core.specs.Pumps.{generation_of, GoesOn, IsCompleteTo, IsKnown, FeedsFrom, LastPoll};
ghost use Rattle.reflect_core.specs.declared.following.Followed.TheVariants as followed;

use crate::reflector::Reflector;
use kube_meta::Memory;
use up_api::{Feed, Held, LogFacts, Pass, UpNo, Upstream};

/// How the following of a feed ended.
#[derive(Clone, Copy, Debug, PartialEq, Eq)]
pub(crate) enum Followed {
    /// The cache has reached what was asked.
    Reached,
    /// The feed was cut.
    Cut,
    /// The log is compacted past the cache's end.
    Compacted,
}

impl Reflector {
    // The feed, or a new one, from a revision on; none where the log is compacted past that.
    fn feed_from<N: LogFacts, U: Upstream<N>>(
        &mut self,
        end: u64,
        up: &mut U,
        told: &mut Pass<N>,
    ) -> Result<Option<Feed>, Memory>
        requires known { IsKnown self.old.feed told.old }
        requires within { end ≤ told.old.shown }
        ensures forgets { self.new ≡ record self.old { feed = None } }
        ensures learns { Learns told.old told.new }
        ensures seen { StaysOrSeesAll told.old told.new }
        ensures own { U.own up.new ≡ U.own up.old }
        ensures history { U.history up.new ≡ U.history up.old }
        ensures reads { U.reads up.new ≡ U.reads up.old }
        ensures knows { IfSome (U.own up.old) (λ w. Knows w told.old → Knows w told.new) }
        ensures kept { IsCompleteTo end self.old.feed → result ≡ Ok self.old.feed }
        ensures feed { IfOk result (λ found. IfSome found (FeedsFrom self.old.resource end (generation_of self.old.feed told.old) told.new.gen)) }
        ensures compacted { result ≡ Ok None → end < told.new.floor }
    {
        match self.feed.take() {
            Some(feed) if feed.upto == end => Ok(Some(feed)),
            _ => match up.begin(self.resource, end, told) {
                Ok(feed) => Ok(Some(feed)),
                Err(UpNo::Compacted { .. }) => Ok(None),
                Err(UpNo::Memory) => Err(Memory),
                Err(UpNo::Future { .. } | UpNo::Cut { .. }) => unreachable!(),
            },
        }
    }

    /// Polls the feed until the cache stands for the log at least up to `until`, or the feed can't go on. A feed that
    /// can't go on is forgotten.
    pub(crate) fn follow<N: LogFacts, H: Held<N>, U: Upstream<N>>(
        &mut self,
        held: &mut H,
        up: &mut U,
        told: &mut Pass<N>,
        until: u64,
    ) -> Result<Followed, Memory>
        requires until { until ≤ told.old.shown }
        requires resource { H.resource held.old ≡ self.old.resource }
        requires stands { StandsAt (H.stands_for held.old) N.base told.old (H.ends_at held.old) }
        requires known { IsKnown self.old.feed told.old }
        ensures learns { Learns told.old told.new }
        ensures stands { StandsAt (H.stands_for held.new) N.base told.new (H.ends_at held.new) }
        ensures onward { H.ends_at held.old ≤ H.ends_at held.new }
        ensures known { IsKnown self.new.feed told.new }
        ensures same { (self.new.resource ≡ self.old.resource) × (self.new.batch ≡ self.old.batch) }
        ensures resource { H.resource held.new ≡ H.resource held.old }
        ensures window { H.window held.new ≡ H.window held.old }
        ensures base { H.base held.new ≡ H.base held.old }
        ensures rebuilds { H.rebuilds held.new ≡ H.rebuilds held.old }
        ensures time { H.time held.new ≡ H.time held.old }
        ensures along { TakesInPolls H.ends_at H.goes_along (log_of N.base told.new) held.old held.new }
        ensures seen { StaysOrSeesAll told.old told.new }
        ensures own { U.own up.new ≡ U.own up.old }
        ensures history { U.history up.new ≡ U.history up.old }
        ensures reads { U.reads up.new ≡ U.reads up.old }
        ensures knows { IfSome (U.own up.old) (λ w. Knows w told.old → Knows w told.new) }
        ensures idle { until ≤ H.ends_at held.old → (result ≡ Ok followed.Reached) × (self.new ≡ self.old) ×
            (held.new ≡ held.old) × (up.new ≡ up.old) × (told.new ≡ told.old) }
        ensures reached { result ≡ Ok followed.Reached → until ≤ H.ends_at held.new }
        ensures goes_on { result ≡ Ok followed.Reached → H.ends_at held.old < until →
            GoesOn (log_of N.base told.new) self.old self.new told.old told.new (H.ends_at held.old) until (H.ends_at held.new) 0 }
        ensures short { result ≡ Ok followed.Cut → H.ends_at held.new < until }
        ensures cut { result ≡ Ok followed.Cut → (self.new.feed ≡ None) × (generation_of self.old.feed told.old < told.new.gen) }
        ensures compacted { result ≡ Ok followed.Compacted → (self.new.feed ≡ None) × (H.ends_at held.old < told.new.floor) }
        ensures fresh { OnErr result (self.new.feed ≡ None) }
    {
        let end = held.end();
        if until <= end {
            return Ok(Followed::Reached);
        }
        let Some(mut feed) = self.feed_from(end, up, told)? else {
            return Ok(Followed::Compacted);
        };
        let followed = poll_until(&mut feed, self.batch, held, up, told, until)?;
        if followed == Followed::Reached {
            self.feed = Some(feed);
        }
        Ok(followed)
    }
}

// Polls a feed that is complete up to the cache's end, until the cache stands for the log at least up to `until`.
fn poll_until<N: LogFacts, H: Held<N>, U: Upstream<N>>(
    feed: &mut Feed,
    batch: usize,
    held: &mut H,
    up: &mut U,
    told: &mut Pass<N>,
    until: u64,
) -> Result<Followed, Memory>
    requires until { until ≤ told.old.shown }
    requires batch { 1 ≤ batch }
    requires resource { H.resource held.old ≡ feed.old.resource }
    requires stands { StandsAt (H.stands_for held.old) N.base told.old (H.ends_at held.old) }
    requires from { feed.old.upto ≡ H.ends_at held.old }
    requires short { feed.old.upto < until }
    requires known { feed.old.gen_ ≤ told.old.gen }
    ensures feed { (feed.new.resource ≡ feed.old.resource) × (feed.new.gen_ ≡ feed.old.gen_) }
    ensures onward { H.ends_at held.old ≤ H.ends_at held.new }
    ensures upto { OnOk result (feed.new.upto ≡ H.ends_at held.new) }
    ensures learns { Learns told.old told.new }
    ensures stands { StandsAt (H.stands_for held.new) N.base told.new (H.ends_at held.new) }
    ensures resource { H.resource held.new ≡ H.resource held.old }
    ensures window { H.window held.new ≡ H.window held.old }
    ensures base { H.base held.new ≡ H.base held.old }
    ensures rebuilds { H.rebuilds held.new ≡ H.rebuilds held.old }
    ensures time { H.time held.new ≡ H.time held.old }
    ensures along { TakesInPolls H.ends_at H.goes_along (log_of N.base told.new) held.old held.new }
    ensures seen { StaysOrSeesAll told.old told.new }
    ensures own { U.own up.new ≡ U.own up.old }
    ensures history { U.history up.new ≡ U.history up.old }
    ensures reads { U.reads up.new ≡ U.reads up.old }
    ensures knows { IfSome (U.own up.old) (λ w. Knows w told.old → Knows w told.new) }
    ensures reached { result ≡ Ok followed.Reached → until ≤ H.ends_at held.new }
    ensures goes_on { result ≡ Ok followed.Reached → feed.new ≡ feed_at feed.old.resource (H.ends_at held.new) told.new.gen }
    ensures last_poll { result ≡ Ok followed.Reached →
        LastPoll (log_of N.base told.new) feed.old.resource batch (H.ends_at held.old) until (H.ends_at held.new) }
    ensures short { result ≡ Ok followed.Cut → H.ends_at held.new < until }
    ensures cut { result ≡ Ok followed.Cut → feed.old.gen_ < told.new.gen }
    ensures compacted { result ≡ Ok followed.Compacted → H.ends_at held.new < told.new.floor }
{
    while feed.upto < until {
        match up.poll(feed, batch, told) {
            Ok(polled) => held.apply(&polled, told)?,
            Err(UpNo::Cut { .. }) => return Ok(Followed::Cut),
            Err(UpNo::Compacted { .. }) => return Ok(Followed::Compacted),
            Err(UpNo::Memory) => return Err(Memory),
            Err(UpNo::Future { .. }) => unreachable!(),
        }
    }
    Ok(Followed::Reached)
}
