//! What a mirror takes in.

ghost use Rattle.std.specs.Prelude.{◌≡◌, ◌⊎◌, ℕ, ◌+◌, ◌-◌, ◌<◌, ◌≤◌, ◌^◌, List, [], ◌∷◌, length, map, fold, is_some, IfOk, OnOk, OnErr, true, false};
ghost use Rattle.kube_meta.specs.declared.resources.Resource.TheVariants.{Pods};
ghost use Rattle.kube_meta.specs.declared.resources.Resource.{Resource};
ghost use Rattle.rev_log.specs.Changes.{RevisionData};
ghost use Rattle.rev_front.specs.Passes.{quiets};
ghost use Rattle.rev_log.specs.Logs.{Log, IsLog, end_of, grown, quiet_at};
ghost use Rattle.rev_log.specs.States.{row_at};
ghost use Rattle.select_all.specs.Listings.{row_told};
ghost use Rattle.select_all.specs.Streams.{TransitionData};
ghost use Rattle.mirror_law.specs.Mirrors.{IsRevisionTold, change_told, opened_log};
ghost use Rattle.mirror_law.specs.Taking.{row_before};
ghost use Rattle.mirror_log.specs.Intakes.{IsAtEnd, IsClear, Keeps, has, most_kept};
ghost use Rattle.mirror_log.specs.Intakes as intakes;
ghost use Rattle.mirror_log.specs.Faults.{last_of, event_fault, mark_fault, is_full_at, is_repeated};

use crate::TakeNo;
use crate::gaps::gap;
use crate::keys::{Keys, keys_of, know, take_out};
use crate::kinds::fits_kind;
use crate::pending::{Pending, is_repeated as repeats, last_of as last_told, tells};
use kube_meta::{Key, Memory, Obj, Row};
use rev_log::{Change, Revision};
use select_all::{Kind, Selection};
use std::alloc::Global;
use std::marker::Model;
use std::sync::Arc;

/// The most lines that are kept: the most changes of one revision.
const MOST_KEPT: usize = 64;

/// What a mirror takes in of its peer's lines: those of the revision behind the end of the mirror's log, until they are
/// whole. Contracts say where it stands by a log, of which it has only the end and the keys.
#[derive(Debug, Drop)]
pub struct Intake {
    selection: Selection,
    most_gap: u64,
    to: u64,
    keys: Keys,
    kept: Vec<Pending>,
}

impl Model for Intake {
    ghost use Rattle.mirror_log.specs.Intakes.{IntakeData, IsIntake};

    ghost Value = { IntakeData };

    ghost view = { λ i. record { selection = i.selection; most_gap = i.most_gap; to = i.to; keys = i.keys; kept = i.kept.items } };

    ghost invariant = { λ i. IsIntake (record { selection = i.selection; most_gap = i.most_gap; to = i.to; keys = i.keys; kept = i.kept.items }) };
}

impl Intake {
    /// Begins behind a revision, with the rows that stand there. No more than `most_gap` revisions without a line lie
    /// before one.
    pub fn new(
        alloc: Global,
        selection: Selection,
        most_gap: u64,
        rows: &[Row],
        base: u64,
    ) -> Result<Intake, Memory>
        requires gap { most_gap ≤ 2 ^ 62 }
        requires base { base ≤ 2 ^ 62 }
        requires pods { (selection.resource ≡ Pods) ⊎ (rows.now ≡ []) }
        ensures is { IfOk result (λ intake. (intake.selection ≡ selection) × (intake.most_gap ≡ most_gap)
            × (intake.to ≡ base) × (intake.kept ≡ [])) }
        ensures at { IfOk result (λ intake. IsAtEnd selection.resource intake (opened_log base rows.now)) }
    {
        Ok(Intake {
            selection,
            most_gap,
            to: base,
            keys: keys_of(alloc, rows)?,
            kept: Vec::new(alloc),
        })
    }

    /// The end of the mirror's log.
    pub fn to(&self) -> u64
        ensures answer { result ≡ self.now.to }
        ensures bound { result ≤ 2 ^ 62 }
    {
        self.to
    }

    /// Whose lines are taken.
    pub fn selection(&self) -> &Selection
        ensures { result.now ≡ self.now.selection }
    {
        &self.selection
    }

    // Whether an object with this key stands at the end.
    fn stands(&self, key: &Key) -> bool
        ensures { (log : Log) → IsAtEnd self.now.selection.resource self.now log →
            result ≡ is_some (row_at log self.now.selection.resource (end_of log) key.now) }
    {
        self.keys.contains(key) && !tells(Kind::Added, &self.kept, key)
    }

    // Whether one stands once the lines that are kept are committed.
    fn will_stand(&self, key: &Key) -> bool
        ensures { (log : Log) → IsAtEnd self.now.selection.resource self.now log →
            result ≡ is_some (fold (row_told key.now) (row_at log self.now.selection.resource (end_of log) key.now) self.now.kept) }
    {
        self.keys.contains(key) && !tells(Kind::Deleted, &self.kept, key)
    }

    // Whether one stood before a revision.
    fn stood(&self, key: &Key, rev: u64) -> bool
        ensures { (log : Log) → IsAtEnd self.now.selection.resource self.now log →
            result ≡ is_some (row_before log self.now.selection.resource self.now.kept rev key.now) }
    {
        if self.to + 1 < rev {
            self.will_stand(key)
        } else {
            self.stands(key)
        }
    }

    // The last revision that was told.
    fn last(&self) -> u64
        ensures answer { result ≡ last_of self.now.to self.now.kept }
        ensures bound { result ≤ 2 ^ 62 + 1 }
    {
        last_told(self.to, &self.kept)
    }

    // Whether one more line of a revision is too many.
    fn is_full_at(&self, rev: u64) -> bool
        ensures { result ≡ is_full_at self.now.kept rev }
    {
        self.kept.len() >= MOST_KEPT && rev == self.to + 1
    }

    /// What is wrong first with an event, if anything.
    pub fn event_fault(&self, kind: Kind, obj: &Obj, rev: u64) -> Option<TakeNo>
        ensures { (log : Log) → IsAtEnd self.now.selection.resource self.now log →
            result ≡ event_fault self.now.selection self.now.most_gap log self.now.kept (record { kind = kind; obj = obj.now; rev = rev }) }
    {
        if !self.selection.selects(obj)
            || !fits_kind(kind, self.stood(&obj.key, rev))
            || self.is_full_at(rev)
        {
            return Some(TakeNo::BadLine);
        }
        let last = self.last();
        if rev <= self.to || repeats(&self.kept, rev, &obj.key) {
            return Some(TakeNo::Order { last, got: rev });
        }
        gap(self.most_gap, last, rev)
    }

    /// What is wrong first with a bookmark, if anything.
    pub fn mark_fault(&self, at: u64, closing: bool) -> Option<TakeNo>
        ensures { result ≡ mark_fault self.now.most_gap self.now.to self.now.kept at closing }
    {
        let last = self.last();
        if closing || at < last {
            return Some(TakeNo::BadLine);
        }
        gap(self.most_gap, last, at)
    }

    /// Keeps an event of the revision behind the end.
    pub fn keep(&mut self, alloc: Global, kind: Kind, obj: Obj, rev: u64) -> Result<(), Memory>
        requires next { rev ≡ self.old.to + 1 }
        requires few { length self.old.kept < most_kept }
        requires new_key { is_repeated self.old.kept rev obj.key ≡ false }
        ensures kept { OnOk result (Keeps self.old (record { kind = kind; obj = obj; rev = rev }) self.new) }
        ensures same { OnErr result (self.new ≡ self.old) }
        ensures at { OnOk result ((log : Log) → IsAtEnd self.old.selection.resource self.old log →
            intakes.fits_kind kind (is_some (row_at log self.old.selection.resource (end_of log) obj.key)) ≡ true → IsAtEnd self.old.selection.resource self.new log) }
    {
        let key = obj.key.clone()?;
        let obj = Arc::new(alloc, obj)?;
        self.kept.push(Pending { kind, obj, rev })?;
        match know(&mut self.keys, kind, key) {
            Ok(()) => Ok(()),
            Err(_) => {
                let _ = self.kept.pop();
                Err(Memory)
            }
        }
    }

    // The changes that the lines make.
    fn changes(&self, alloc: Global) -> Result<Vec<Change>, Memory>
        ensures { IfOk result (λ changes. changes.items ≡ map (change_told self.now.selection.resource) self.now.kept) }
    {
        let resource = self.selection.resource;
        let mut changes = Vec::new(alloc);
        for line in &self.kept {
            let change = line.change(resource)?;
            changes.push(change)?;
        }
        Ok(changes)
    }

    /// The revision behind the end, of the lines that are kept; it has no change where none is.
    pub fn revision(&self, alloc: Global) -> Result<Revision, Memory>
        ensures { IfOk result (IsRevisionTold self.now.selection.resource (self.now.to + 1) self.now.kept) }
    {
        let rev = self.to + 1;
        match Revision::new(rev, self.changes(alloc)?) {
            Ok(revision) => Ok(revision),
            Err(changes) => Ok(Revision::sorted(rev, changes)),
        }
    }

    /// Goes on behind a later revision, up to which the log has the one of the lines that were kept now, and behind
    /// that only revisions at which nothing changes.
    pub fn commit(&mut self, upto: u64)
        requires onward { self.old.to < upto }
        requires last { upto ≤ 2 ^ 62 }
        ensures moves { IsClear self.old upto self.new }
        ensures at { (log : Log) (revision : RevisionData) → IsAtEnd self.old.selection.resource self.old log →
            IsRevisionTold self.old.selection.resource (self.old.to + 1) self.old.kept revision →
            IsAtEnd self.old.selection.resource self.new (grown log (revision ∷ quiets quiet_at (self.old.to + 1) (upto - (self.old.to + 1)))) }
    {
        take_out(&mut self.keys, Kind::Deleted, &self.kept);
        self.kept.clear();
        self.to = upto;
    }

    /// Goes on behind another revision, at which the objects with these keys stand. The lines that are kept are
    /// forgotten.
    pub fn begin_anew(&mut self, keys: Keys, to: u64)
        requires { to ≤ 2 ^ 62 }
        ensures clears { IsClear self.old to self.new }
        ensures at { (resource : Resource) (log : Log) → to ≡ end_of log →
            ((key : List ℕ) → has keys key ≡ is_some (row_at log resource (end_of log) key)) → IsAtEnd resource self.new log }
    {
        self.keys = keys;
        self.kept.clear();
        self.to = to;
    }

    /// Forgets the lines that are kept.
    pub fn forget(&mut self)
        ensures clears { IsClear self.old self.old.to self.new }
        ensures at { (log : Log) → IsAtEnd self.old.selection.resource self.old log → IsAtEnd self.old.selection.resource self.new log }
    {
        take_out(&mut self.keys, Kind::Added, &self.kept);
        self.kept.clear();
    }
}
