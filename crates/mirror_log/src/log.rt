//! The log of a mirror.

ghost use Rattle.std.specs.Prelude.{◌≡◌, ◌⊎◌, ℕ, ◌+◌, ◌≤◌, ◌<◌, ◌^◌, List, [], ◌∷◌, All, IfOk, IfErr, IfSome, OnOk, true, false};
ghost use Rattle.kube_meta.specs.declared.resources.Resource.TheVariants.{Pods};
ghost use Rattle.kube_meta.specs.Rows.{AreRising};
ghost use Rattle.rev_front.specs.Passes.{idle_author};
ghost use Rattle.rev_log.specs.Logs.{Log, IsLog, end_of};
ghost use Rattle.select_all.specs.Streams.{TransitionData};
ghost use Rattle.up_api.specs.Sections.{Learns, log_upto};
ghost use Rattle.watch_rules.specs.Bodies.{Told, Bookmark, Closing, Line};
ghost use Rattle.mirror_law.specs.Mirrors.{opened_log};
ghost use Rattle.mirror_log.specs.Faults.{event_fault, mark_fault};
ghost use Rattle.mirror_log.specs.MirrorLogs.{Commits, Hears, HearsAlone};

use crate::MirrorNo;
use crate::intake::Intake;
use kube_meta::{Memory, Obj, Resource, Row};
use rev_front::{Author, Blank};
use rev_log::Revision;
use select_all::{Kind, Selection};
use std::alloc::Global;
use std::marker::Model;
use std::sync::Wait;
use up_api::{LogFacts, Pass};
use up_store::{Store, StoreDoor};

/// The log of a mirror: the base, and the revisions that this has committed to the mirror's store. Lines of its peer's
/// watch are kept until they are known to be all those of their revision.
#[derive(Drop)]
pub struct MirrorLog<N: LogFacts, R: Wait + Copy> {
    pub(crate) alloc: Global,
    pub(crate) door: StoreDoor<N, R>,
    pub(crate) told: Pass<N>,
    pub(crate) author: Author<N>,
    pub(crate) intake: Intake,
}

impl<N: LogFacts, R: Wait + Copy> Model for MirrorLog<N, R> {
    ghost use Rattle.up_api.specs.Sections.{log_upto};
    ghost use Rattle.mirror_log.specs.MirrorLogs.{MirrorLogData};
    ghost use Rattle.mirror_log.specs.Kept.{Holds};

    ghost Value = { MirrorLogData };

    ghost view = { λ m. record {
      selection = m.intake.selection;
      most_gap = m.intake.most_gap;
      told = m.told;
      log = log_upto N.base m.told m.intake.to;
      kept = m.intake.kept;
    } };

    ghost invariant = { λ m. Holds N.base N.mirror m.told m.intake };
}

impl<N: LogFacts, R: Wait + Copy> MirrorLog<N, R> {
    /// The log of a new store, from rows of pods, or none, that stand at its base. No more than `most_gap` revisions
    /// without a line may lie before one.
    pub fn new(
        rt: R,
        alloc: Global,
        selection: Selection,
        rows: Vec<Row>,
        base: u64,
        blank: Blank<Revision>,
        history: u64,
        most_gap: u64,
    ) -> Result<MirrorLog<N, R>, Memory>
        requires name { blank ≡ N.log }
        requires base { N.base ≡ rows.items }
        requires mirror { N.mirror ≡ true }
        requires rising { AreRising rows.items }
        requires first { blank.first ≡ base }
        requires old { All (λ row. row.rev ≤ base) rows.items }
        requires within { base ≤ 2 ^ 62 }
        requires history { 1 ≤ history }
        requires gap { most_gap ≤ 2 ^ 62 }
        requires pods { (selection.resource ≡ Pods) ⊎ (rows.items ≡ []) }
        ensures { IfOk result (λ m. (m.selection ≡ selection) × (m.most_gap ≡ most_gap)
            × (m.log ≡ opened_log base rows.items) × (m.kept ≡ [])) }
    {
        let intake = Intake::new(alloc, selection, most_gap, &rows, base)?;
        let (mut store, author) = Store::from_base(alloc, blank, rows, history)?;
        let told = store.pass()?;
        let door = StoreDoor::new(rt, store)?;
        Ok(MirrorLog {
            alloc,
            door,
            told,
            author,
            intake,
        })
    }

    /// Another door to the store.
    pub fn door(&self) -> Result<StoreDoor<N, R>, Memory> {
        self.door.again()
    }

    /// So many parts of the right to change the mirror's log, for its clients. None where there are no more.
    pub fn author(&mut self, parts: u64) -> Option<Author<N>>
        requires { 1 ≤ parts }
        ensures author { IfSome result (λ author. author ≡ idle_author parts) }
        ensures same { self.new ≡ self.old }
    {
        self.author.split(parts)
    }

    /// The end of the mirror's log.
    pub fn to(&self) -> u64
        ensures answer { result ≡ end_of self.now.log }
        ensures seen { self.now.log ≡ log_upto N.base self.now.told result }
        ensures lawful { IsLog self.now.log }
    {
        self.intake.to()
    }

    /// Whose lines it hears.
    pub fn selection(&self) -> &Selection
        ensures { result.now ≡ self.now.selection }
    {
        self.intake.selection()
    }

    /// Of which resource they are.
    pub(crate) fn resource(&self) -> Resource
        ensures { result ≡ self.now.selection.resource }
    {
        self.intake.selection().resource
    }

    // Commits all revisions up to one.
    fn commit_upto(&mut self, upto: u64) -> Result<(), MirrorNo>
        requires onward { end_of self.old.log ≤ upto }
        requires last { upto ≤ 2 ^ 62 }
        ensures learns { Learns self.old.told self.new.told }
        ensures commits { Commits self.old upto result self.new }
    {
        if self.intake.to() == upto {
            return Ok(());
        }
        self.commit_past(upto)
    }

    // Commits all revisions up to one above the end, in one section: the one of the lines that are kept, and behind it
    // those at which nothing was told.
    fn commit_past(&mut self, upto: u64) -> Result<(), MirrorNo>
        requires above { end_of self.old.log < upto }
        requires last { upto ≤ 2 ^ 62 }
        ensures learns { Learns self.old.told self.new.told }
        ensures commits { Commits self.old upto result self.new }
    {
        let to = self.intake.to();
        let revisions = alone(self.alloc, self.intake.revision(self.alloc)?)?;
        // What a pass is, the proof learns where it reads it.
        self.told.shown();
        let _ = self
            .door
            .follow(to, revisions, upto, &mut self.told, &mut self.author)?;
        self.intake.commit(upto);
        Ok(())
    }

    /// Hears an event. All revisions before its own are committed, and it is kept.
    pub fn hear_event(&mut self, kind: Kind, obj: Obj, rev: u64) -> Result<u64, MirrorNo>
        requires { rev ≤ 2 ^ 62 }
        ensures learns { Learns self.old.told self.new.told }
        ensures hears { let t : TransitionData = record { kind = kind; obj = obj; rev = rev } in
            Hears self.old (event_fault self.old.selection self.old.most_gap self.old.log self.old.kept t) (Told t) result self.new }
    {
        match self.intake.event_fault(kind, &obj, rev) {
            Some(fault) => return Err(MirrorNo::Refused(fault)),
            None => {}
        }
        self.commit_upto(rev - 1)?;
        self.intake.keep(self.alloc, kind, obj, rev)?;
        Ok(self.intake.to())
    }

    /// Hears a bookmark. All revisions up to its own are committed.
    pub fn hear_mark(&mut self, at: u64, closing: bool) -> Result<u64, MirrorNo>
        requires { at ≤ 2 ^ 62 }
        ensures learns { Learns self.old.told self.new.told }
        ensures hears { Hears self.old (mark_fault self.old.most_gap (end_of self.old.log) self.old.kept at closing) (Bookmark at) result self.new }
    {
        match self.intake.mark_fault(at, closing) {
            Some(fault) => return Err(MirrorNo::Refused(fault)),
            None => {}
        }
        self.commit_upto(at)?;
        Ok(self.intake.to())
    }

    /// Hears an event that is alone in its revision, as each of a cluster is: all revisions up to its own are
    /// committed, and nothing is kept.
    pub fn hear_alone(&mut self, kind: Kind, obj: Obj, rev: u64) -> Result<u64, MirrorNo>
        requires { rev ≤ 2 ^ 62 }
        ensures learns { Learns self.old.told self.new.told }
        ensures hears { let t : TransitionData = record { kind = kind; obj = obj; rev = rev } in
            HearsAlone self.old (event_fault self.old.selection self.old.most_gap self.old.log self.old.kept t) t result self.new }
    {
        match self.hear_event(kind, obj, rev) {
            Ok(_) => self.hear_mark(rev, false),
            Err(why) => Err(why),
        }
    }

    /// Forgets the lines that are kept.
    pub fn forget(&mut self)
        ensures { self.new ≡ record self.old { kept = [] } }
    {
        self.intake.forget();
    }
}

// The revision alone.
fn alone(alloc: Global, revision: Revision) -> Result<Vec<Revision>, Memory>
    ensures { IfOk result (λ list. list.items ≡ revision ∷ []) }
{
    let mut list = Vec::with_capacity(alloc, 1)?;
    list.push(revision)?;
    Ok(list)
}
