//! The cache that is fed.

ghost use Rattle.std.specs.Prelude.{◌≡◌, ◌≤◌, ℕ, OnOk, OnErr};
ghost use Rattle.kube_meta.specs.declared.resources.Resource.{Resource};
ghost use Rattle.rev_log.specs.Logs.{Log};
ghost use Rattle.up_api.specs.Feeds.{IsFed, IsHistory};
ghost use Rattle.up_api.specs.Sections.{log_of, StandsAt, raised_once};

use crate::feeds::{History, Polled};
use crate::named::LogFacts;
use crate::upstream::Pass;
use kube_meta::Memory;

/// The cache of one resource, as what follows upstream fills it. It stands for a beginning of the log; the revision
/// up to which it does is its end.
pub trait Held<N: LogFacts> {
    // the one resource that it holds
    ghost resource: { Self → Resource };

    // how many changes it keeps at least
    ghost window: { Self → ℕ };

    // the revision from which it was built last
    ghost base: { Self → ℕ };

    // how often it was built anew
    ghost rebuilds: { Self → ℕ };

    // it stands for this log
    ghost stands_for: { Self → Log → Type 0 };

    // the revision up to which it stands for the log
    ghost ends_at: { Self → ℕ };

    // the greatest time that it was told
    ghost time: { Self → ℕ };

    // what it made of itself, and told its watchers, by taking in what came of this log up to its new end
    ghost goes_along: { Log → Self → Self → Type 0 };

    // what it made of itself, and told its watchers, as it was built anew
    ghost begins_anew: { Self → Self → Type 0 };

    /// The revision up to which it stands for the log.
    fn end(&self) -> u64
        ensures { result ≡ ends_at self.now };

    /// Takes in what a poll gave. After want of memory it stands for the log up to a revision between the poll's two.
    fn apply(&mut self, polled: &Polled, told: &mut Pass<N>) -> Result<(), Memory>
        requires stands { StandsAt (stands_for self.old) N.base told.old (ends_at self.old) }
        requires from { polled.now.from ≡ ends_at self.old }
        requires polled { IsFed (log_of N.base told.old) (resource self.old) polled.now }
        ensures told { told.new ≡ told.old }
        ensures stands { StandsAt (stands_for self.new) N.base told.new (ends_at self.new) }
        ensures done { OnOk result (ends_at self.new ≡ polled.now.upto) }
        ensures partly { OnErr result ((polled.now.from ≤ ends_at self.new) × (ends_at self.new ≤ polled.now.upto)) }
        ensures along { goes_along (log_of N.base told.old) self.old self.new }
        ensures time { time self.new ≡ time self.old }
        ensures resource { resource self.new ≡ resource self.old }
        ensures window { window self.new ≡ window self.old }
        ensures base { base self.new ≡ base self.old }
        ensures rebuilds { rebuilds self.new ≡ rebuilds self.old };

    /// Is built anew from a history. After want of memory it is as it was.
    fn rebuild(&mut self, history: History, told: &mut Pass<N>) -> Result<(), Memory>
        requires stands { StandsAt (stands_for self.old) N.base told.old (ends_at self.old) }
        requires history { IsHistory (log_of N.base told.old) told.old.floor (resource self.old) history }
        ensures told { told.new ≡ told.old }
        ensures stands { StandsAt (stands_for self.new) N.base told.new (ends_at self.new) }
        ensures done { OnOk result (ends_at self.new ≡ history.upto) }
        ensures base { OnOk result (base self.new ≡ history.floor) }
        ensures anew { OnOk result (begins_anew self.old self.new) }
        ensures time { time self.new ≡ time self.old }
        ensures rebuilds { OnOk result (rebuilds self.new ≡ raised_once (rebuilds self.old)) }
        ensures kept { OnErr result (self.new ≡ self.old) }
        ensures resource { resource self.new ≡ resource self.old }
        ensures window { window self.new ≡ window self.old };
}
