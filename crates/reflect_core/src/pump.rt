//! Bringing a cache to a revision.

ghost use Rattle.std.specs.Prelude.{◌≡◌, ◌≤◌, ◌<◌, ◌+◌, ◌⊎◌, ℕ, Ok, None, Some, IfOk, IfErr, OnErr, OnOk, IfSome, option_map};
ghost use Rattle.up_api.specs.Sections.{log_of, Learns, StaysOrSeesAll, StandsAt, Knows, raised_once};
ghost use Rattle.reflect_core.specs.Along.{GoesTo, TakesInPolls};
ghost use Rattle.reflect_core.specs.Pumps.{generation_of, unmoved, GoesOn, IsKnown, HasCause, RisesFor, MayRiseFor, raised, raised_where_told};

use crate::following::Followed;
use crate::reflector::Reflector;
use kube_meta::{Memory, Resource};
use up_api::{Held, LogFacts, Pass, Upstream};

/// What a pump did: the cache's end afterwards, how often the feed was found cut (0 to 2), and how often the cache
/// was built anew (0 or 1).
#[derive(Clone, Copy, Debug, PartialEq, Eq)]
pub struct Pumped {
    pub end: u64,
    pub cuts: u64,
    pub rebuilds: u64,
}

impl Reflector {
    /// Polls until the cache stands for the log at least up to `until`.
    ///
    /// A feed that was cut is begun anew once, from the cache's end. A second cut in the same call, or a compaction
    /// past the cache's end, builds the cache anew from upstream's history. After want of memory the cache stands for
    /// the log up to its end, and the next pump begins a new feed there.
    pub fn pump<N: LogFacts, H: Held<N>, U: Upstream<N>>(
        &mut self,
        held: &mut H,
        up: &mut U,
        told: &mut Pass<N>,
        until: u64,
    ) -> Result<Pumped, Memory>
        requires until { until ≤ told.old.shown }
        requires resource { H.resource held.old ≡ self.old.resource }
        requires stands { StandsAt (H.stands_for held.old) N.base told.old (H.ends_at held.old) }
        requires known { IsKnown self.old.feed told.old }
        ensures learns { Learns told.old told.new }
        ensures stands { StandsAt (H.stands_for held.new) N.base told.new (H.ends_at held.new) }
        ensures known { IsKnown self.new.feed told.new }
        ensures same { (self.new.resource ≡ self.old.resource) × (self.new.batch ≡ self.old.batch) }
        ensures resource { H.resource held.new ≡ H.resource held.old }
        ensures window { H.window held.new ≡ H.window held.old }
        ensures time { H.time held.new ≡ H.time held.old }
        ensures base { (H.base held.new ≡ H.base held.old) ⊎ (H.base held.new ≤ told.new.floor) }
        ensures seen { StaysOrSeesAll told.old told.new }
        ensures onward { H.ends_at held.old ≤ H.ends_at held.new }
        ensures own { U.own up.new ≡ U.own up.old }
        ensures history { U.history up.new ≡ U.history up.old }
        ensures knows { IfSome (U.own up.old) (λ w. Knows w told.old → Knows w told.new) }
        ensures idle { until ≤ H.ends_at held.old → (result ≡ Ok (unmoved (H.ends_at held.old))) × (self.new ≡ self.old) ×
            (held.new ≡ held.old) × (up.new ≡ up.old) × (told.new ≡ told.old) }
        ensures reached { IfOk result (λ pumped. until ≤ pumped.end) }
        ensures end { IfOk result (λ pumped. pumped.end ≡ H.ends_at held.new) }
        ensures cuts { IfOk result (λ pumped. (pumped.cuts ≤ 2) × (generation_of self.old.feed told.old + pumped.cuts ≤ told.new.gen)) }
        ensures goes_on { IfOk result (λ pumped. H.ends_at held.old < until → pumped.rebuilds ≡ 0 →
            GoesOn (log_of N.base told.new) self.old self.new told.old told.new
            (H.ends_at held.old) until (H.ends_at held.new) pumped.cuts) }
        ensures along { IfOk result (λ pumped.
            GoesTo H.ends_at H.goes_along H.begins_anew (log_of N.base told.new) pumped.rebuilds held.old held.new) }
        ensures along_partly { OnErr result (TakesInPolls H.ends_at H.goes_along (log_of N.base told.new) held.old held.new) }
        ensures rebuilds { IfOk result (λ pumped. (pumped.rebuilds ≤ 1) × (H.rebuilds held.new ≡ raised pumped.rebuilds (H.rebuilds held.old))) }
        ensures reads { IfOk result (λ pumped. U.reads up.new ≡ raised_where_told pumped.rebuilds (U.reads up.old)) }
        ensures cause { IfOk result (λ pumped. pumped.rebuilds ≡ 1 →
            (H.ends_at held.old < told.new.floor) ⊎ ((pumped.cuts ≡ 2) × (told.old.gen < told.new.gen))) }
        ensures anew { IfOk result (λ pumped. pumped.rebuilds ≡ 1 → self.new.feed ≡ None) }
        ensures fresh { OnErr result (self.new.feed ≡ None) }
        ensures rebuilds_for { OnErr result (RisesFor (HasCause (H.ends_at held.old) told.old told.new) (H.rebuilds held.old) (H.rebuilds held.new)) }
        ensures reads_for { OnErr result (MayRiseFor (HasCause (H.ends_at held.old) told.old told.new) (U.reads up.old) (U.reads up.new)) }
    {
        match self.follow(held, up, told, until)? {
            Followed::Reached => Ok(Pumped {
                end: held.end(),
                cuts: 0,
                rebuilds: 0,
            }),
            Followed::Compacted => rebuild(self.resource, held, up, told, 0),
            Followed::Cut => self.pump_again(held, up, told, until),
        }
    }
    // Follows a second time, after the feed was cut.
    fn pump_again<N: LogFacts, H: Held<N>, U: Upstream<N>>(
        &mut self,
        held: &mut H,
        up: &mut U,
        told: &mut Pass<N>,
        until: u64,
    ) -> Result<Pumped, Memory>
        requires until { until ≤ told.old.shown }
        requires resource { H.resource held.old ≡ self.old.resource }
        requires stands { StandsAt (H.stands_for held.old) N.base told.old (H.ends_at held.old) }
        requires anew { self.old.feed ≡ None }
        requires short { H.ends_at held.old < until }
        ensures learns { Learns told.old told.new }
        ensures stands { StandsAt (H.stands_for held.new) N.base told.new (H.ends_at held.new) }
        ensures known { IsKnown self.new.feed told.new }
        ensures same { (self.new.resource ≡ self.old.resource) × (self.new.batch ≡ self.old.batch) }
        ensures resource { H.resource held.new ≡ H.resource held.old }
        ensures window { H.window held.new ≡ H.window held.old }
        ensures time { H.time held.new ≡ H.time held.old }
        ensures base { (H.base held.new ≡ H.base held.old) ⊎ (H.base held.new ≤ told.new.floor) }
        ensures seen { StaysOrSeesAll told.old told.new }
        ensures onward { H.ends_at held.old ≤ H.ends_at held.new }
        ensures own { U.own up.new ≡ U.own up.old }
        ensures history { U.history up.new ≡ U.history up.old }
        ensures knows { IfSome (U.own up.old) (λ w. Knows w told.old → Knows w told.new) }
        ensures reached { IfOk result (λ pumped. until ≤ pumped.end) }
        ensures end { IfOk result (λ pumped. pumped.end ≡ H.ends_at held.new) }
        ensures cuts { IfOk result (λ pumped. (1 ≤ pumped.cuts) × (pumped.cuts ≤ 2) × (told.old.gen + pumped.cuts ≤ told.new.gen + 1)) }
        ensures goes_on { IfOk result (λ pumped. pumped.rebuilds ≡ 0 →
            GoesOn (log_of N.base told.new) self.old self.new told.old told.new (H.ends_at held.old) until (H.ends_at held.new) 0) }
        ensures along { IfOk result (λ pumped.
            GoesTo H.ends_at H.goes_along H.begins_anew (log_of N.base told.new) pumped.rebuilds held.old held.new) }
        ensures along_partly { OnErr result (TakesInPolls H.ends_at H.goes_along (log_of N.base told.new) held.old held.new) }
        ensures rebuilds { IfOk result (λ pumped. (pumped.rebuilds ≤ 1) × (H.rebuilds held.new ≡ raised pumped.rebuilds (H.rebuilds held.old))) }
        ensures reads { IfOk result (λ pumped. U.reads up.new ≡ raised_where_told pumped.rebuilds (U.reads up.old)) }
        ensures cause { IfOk result (λ pumped. pumped.rebuilds ≡ 1 →
            (H.ends_at held.old < told.new.floor) ⊎ ((pumped.cuts ≡ 2) × (told.old.gen < told.new.gen))) }
        ensures anew_again { IfOk result (λ pumped. pumped.rebuilds ≡ 1 → self.new.feed ≡ None) }
        ensures fresh { OnErr result (self.new.feed ≡ None) }
        ensures rebuilds_for { OnErr result (RisesFor (HasCause (H.ends_at held.old) told.old told.new) (H.rebuilds held.old) (H.rebuilds held.new)) }
        ensures reads_for { OnErr result (MayRiseFor (HasCause (H.ends_at held.old) told.old told.new) (U.reads up.old) (U.reads up.new)) }
    {
        match self.follow(held, up, told, until)? {
            Followed::Reached => Ok(Pumped {
                end: held.end(),
                cuts: 1,
                rebuilds: 0,
            }),
            Followed::Compacted => rebuild(self.resource, held, up, told, 1),
            Followed::Cut => rebuild(self.resource, held, up, told, 2),
        }
    }
}

// Builds the cache anew from all that upstream still has.
fn rebuild<N: LogFacts, H: Held<N>, U: Upstream<N>>(
    resource: Resource,
    held: &mut H,
    up: &mut U,
    told: &mut Pass<N>,
    cuts: u64,
) -> Result<Pumped, Memory>
    requires resource { H.resource held.old ≡ resource }
    requires stands { StandsAt (H.stands_for held.old) N.base told.old (H.ends_at held.old) }
    ensures learns { Learns told.old told.new }
    ensures stands { StandsAt (H.stands_for held.new) N.base told.new (H.ends_at held.new) }
    ensures resource { H.resource held.new ≡ H.resource held.old }
    ensures window { H.window held.new ≡ H.window held.old }
    ensures time { H.time held.new ≡ H.time held.old }
    ensures base { (H.base held.new ≡ H.base held.old) ⊎ (H.base held.new ≤ told.new.floor) }
    ensures seen { StaysOrSeesAll told.old told.new }
    ensures onward { H.ends_at held.old ≤ H.ends_at held.new }
    ensures own { U.own up.new ≡ U.own up.old }
    ensures history { U.history up.new ≡ U.history up.old }
    ensures knows { IfSome (U.own up.old) (λ w. Knows w told.old → Knows w told.new) }
    ensures reached { IfOk result (λ pumped. told.old.shown ≤ pumped.end) }
    ensures end { IfOk result (λ pumped. pumped.end ≡ H.ends_at held.new) }
    ensures answer { IfOk result (λ pumped. (pumped.cuts ≡ cuts) × (pumped.rebuilds ≡ 1)) }
    ensures rebuilds { IfOk result (λ pumped. H.rebuilds held.new ≡ raised_once (H.rebuilds held.old)) }
    ensures begins { OnOk result (H.begins_anew held.old held.new) }
    ensures kept { OnErr result (held.new ≡ held.old) }
    ensures reads { U.reads up.new ≡ option_map raised_once (U.reads up.old) }
{
    let history = up.history(resource, told)?;
    held.rebuild(history, told)?;
    Ok(Pumped {
        end: held.end(),
        cuts,
        rebuilds: 1,
    })
}
