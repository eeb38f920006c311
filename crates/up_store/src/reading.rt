//! The store as an upstream.

ghost use Rattle.std.specs.Prelude.{◌≡◌, ◌≤◌, min, IfOk, IfErr};
ghost use Rattle.rev_front.specs.Passes.{end_from};
ghost use Rattle.up_api.specs.Sections.{log_of, Learns, Sections, SectionsAll, RefusesAt, StaysOrKnows, StaysOrKnowsAll, raised_once};
ghost use Rattle.up_store.specs.Past.{IsOldState, IsOldHistory};

use crate::Store;
use crate::past::{OldHistory, OldState};
use crate::store::{LAST, meet};
use kube_meta::{Memory, Resource, Row};
use up_api::{Feed, History, LogFacts, Pass, Polled, UpNo, Upstream};

impl<N: LogFacts> Store<N> {
    /// What the rows of the resource at the revision `at` are made of, as `list_at` answers them: so they can be made
    /// once the store is let go.
    pub fn old_state(
        &mut self,
        resource: Resource,
        at: u64,
        told: &mut Pass<N>,
    ) -> Result<OldState, UpNo>
        ensures learns { Learns told.old told.new }
        ensures section { Sections result told.old told.new }
        ensures state { IfOk result (λ old. IsOldState (log_of N.base told.new) resource at old) }
        ensures served { IfOk result (λ old. (told.new.floor ≤ at) × (at ≤ told.new.shown)) }
        ensures refused { IfErr result (RefusesAt told.new at) }
        ensures knows { StaysOrKnows self.old.whole result told.old told.new }
        ensures whole { self.new.whole ≡ self.old.whole }
        ensures history_stays { self.new.history ≡ self.old.history }
        ensures reads { self.new.reads ≡ raised_once self.old.reads }
    {
        self.reads = self.reads.saturating_add(1).min(LAST);
        meet(&mut self.pen, told);
        let floor = self.pen.floor();
        if at < floor {
            return Err(UpNo::Compacted { asked: at, floor });
        }
        let current = self.pen.revision();
        if current < at {
            return Err(UpNo::Future { asked: at, current });
        }
        Ok(self.kept.old_state(self.alloc, resource, at)?)
    }

    /// What all that the store still has of the resource is made of, as `history` answers it: so it can be made once
    /// the store is let go.
    pub fn old_history(
        &mut self,
        resource: Resource,
        told: &mut Pass<N>,
    ) -> Result<OldHistory, Memory>
        ensures learns { Learns told.old told.new }
        ensures section { SectionsAll result told.old told.new }
        ensures history { IfOk result (λ old. IsOldHistory (log_of N.base told.new) told.new.floor resource old) }
        ensures floor { IfOk result (λ old. old.floor ≡ told.new.floor) }
        ensures upto { IfOk result (λ old. old.upto ≡ end_from told.new.first told.new.seen) }
        ensures knows { StaysOrKnowsAll self.old.whole result told.old told.new }
        ensures whole { self.new.whole ≡ self.old.whole }
        ensures history_stays { self.new.history ≡ self.old.history }
        ensures reads { self.new.reads ≡ raised_once self.old.reads }
    {
        self.reads = self.reads.saturating_add(1).min(LAST);
        meet(&mut self.pen, told);
        let floor = self.pen.floor();
        let upto = self.pen.revision();
        Ok(self.kept.old_history(self.alloc, resource, floor, upto)?)
    }
}

impl<N: LogFacts> Upstream<N> for Store<N> {
    ghost use Rattle.std.specs.Prelude.{Some};

    ghost own = { λ s. Some s.whole };

    ghost reads = { λ s. Some s.reads };

    ghost history = { λ s. Some s.history };

    fn list_at(
        &mut self,
        resource: Resource,
        at: u64,
        told: &mut Pass<N>,
    ) -> Result<Vec<Row>, UpNo> {
        let old = self.old_state(resource, at, told)?;
        Ok(old.rows(self.alloc)?)
    }

    fn begin(&mut self, resource: Resource, at: u64, told: &mut Pass<N>) -> Result<Feed, UpNo> {
        meet(&mut self.pen, told);
        let floor = self.pen.floor();
        if at < floor {
            return Err(UpNo::Compacted { asked: at, floor });
        }
        let current = self.pen.revision();
        if current < at {
            return Err(UpNo::Future { asked: at, current });
        }
        Ok(Feed {
            resource,
            upto: at,
            gen_: self.pen.generation(),
        })
    }

    fn poll(&mut self, feed: &mut Feed, max: usize, told: &mut Pass<N>) -> Result<Polled, UpNo> {
        meet(&mut self.pen, told);
        let now = self.pen.generation();
        if feed.gen_ < now {
            return Err(UpNo::Cut {
                opened: feed.gen_,
                now,
            });
        }
        let floor = self.pen.floor();
        if feed.upto < floor {
            return Err(UpNo::Compacted {
                asked: feed.upto,
                floor,
            });
        }
        let polled = self.kept.poll(self.alloc, feed.resource, feed.upto, max)?;
        feed.upto = polled.upto;
        Ok(polled)
    }

    fn history(&mut self, resource: Resource, told: &mut Pass<N>) -> Result<History, Memory> {
        let old = self.old_history(resource, told)?;
        Ok(old.made(self.alloc)?)
    }
}
