//! Laws of worlds, and of the calls of a cache as steps of them.

ghost use Rattle.cache_world.specs.Law.{EveryWorldIsLawful, WatchesGoOn, WatchesAreServed, ListsAreServed};
ghost use Rattle.cache_world.specs.Ties.{PumpsAreComputed, PumpsAreSteps, RebuildsAreSteps, OpensAreSteps, CatchUpsAreSteps, LossesAreSteps, ClosesAreSteps};

/// After every list of steps, each watch received exactly its selection's transitions from its start to
/// its position, each listing that was given is still the one at its revision, and each loss is true.
pub fn every_world_is_lawful()
    ensures { EveryWorldIsLawful }
{}

/// A watch goes on over each step, with all that it received, but for a loss or a close of its own.
pub fn watches_go_on()
    ensures { WatchesGoOn }
{}

/// A client that watches can always be told all up to its cache's end, or its loss.
#[tactic(auto, using(crate::proofs::ServeLemmas::watches_are_served))]
pub fn watches_are_served()
    ensures { WatchesAreServed }
{}

/// A client can always be given a listing at its cache's end.
#[tactic(auto, using(crate::proofs::ServeLemmas::lists_are_served))]
pub fn lists_are_served()
    ensures { ListsAreServed }
{}

// ---- the calls of a cache

/// What a pump may make of a lane is what the machine's pump makes of it.
#[tactic(auto, using(crate::proofs::TieLemmas::are_computed))]
pub fn pumps_are_computed()
    ensures { PumpsAreComputed }
{}

/// What a pump makes of a cache's lanes and queues is a step of each world that has the cache.
pub fn pumps_are_steps()
    ensures { PumpsAreSteps }
{}

/// A rebuild of a cache, after which all its lanes are behind, is a step.
pub fn rebuilds_are_steps()
    ensures { RebuildsAreSteps }
{}

/// A lane that is opened is a watch that a step opens.
#[tactic(auto, using(crate::proofs::TieLemmas::opens_are_steps))]
pub fn opens_are_steps()
    ensures { OpensAreSteps }
{}

/// A catching up of a lane is a step, by which its watch receives the transitions from its position on.
pub fn catch_ups_are_steps()
    ensures { CatchUpsAreSteps }
{}

/// The end of a watch below the lowest position that is served is a step, which tells the loss.
pub fn losses_are_steps()
    ensures { LossesAreSteps }
{}

/// The closing of a lane is a step.
pub fn closes_are_steps()
    ensures { ClosesAreSteps }
{}
