//! A mirror's log begins anew.

ghost use Rattle.std.specs.Prelude.{◌≡◌, ℕ, ◌≤◌, ◌^◌, List, All, is_some, IfOk, IfErr};
ghost use Rattle.kube_meta.specs.Rows.{AreRising};
ghost use Rattle.rev_log.specs.Logs.{Log, grown, end_of};
ghost use Rattle.rev_log.specs.States.{IsStateAt, row_at};
ghost use Rattle.up_api.specs.Sections.{Learns};
ghost use Rattle.up_store.specs.Hearing.{AreAscending, filled};
ghost use Rattle.mirror_log.specs.Intakes.{has};
ghost use Rattle.mirror_log.specs.MirrorLogs.{Rests};
ghost use Rattle.mirror_log.specs.Rebasing.{CommitsAll, Differs, IsStoreRefusal, Rebases};

use crate::between::bridge;
use crate::find::{first_other, key_of};
use crate::keys::{Keys, keys_of};
use crate::{MirrorLog, RebaseNo};
use kube_meta::{Key, Row};
use rev_log::Revision;
use std::sync::Wait;
use up_api::{LogFacts, Upstream};

impl<N: LogFacts, R: Wait + Copy> MirrorLog<N, R> {
    /// Begins anew at a later revision of the peer's log, at which these rows stand, and answers it. What is between is
    /// made of what differs; it is committed, and the floor is raised to that revision, in one section, so nobody is
    /// served what was made. The lines that are kept are forgotten.
    pub fn rebase(&mut self, rows: &[Row], base: u64) -> Result<u64, RebaseNo>
        requires rising { AreRising rows.now }
        requires old { All (λ row. row.rev ≤ base) rows.now }
        requires within { base ≤ 2 ^ 62 }
        ensures learns { Learns self.old.told self.new.told }
        ensures rebases { Rebases self.old rows.now base result self.new }
    {
        let to = self.to();
        if base < to {
            return Err(RebaseNo::Behind { to });
        }
        let of = self.resource();
        let old = self.rows_at_end()?;
        let revisions = bridge(self.alloc, of, to, &old, base, rows)?;
        let keys = keys_of(self.alloc, rows)?;
        self.commit_all(revisions, base, keys)
    }

    /// The key of the first of these rows, written up to the log's end, that isn't the one that stands there; if there
    /// is one. It tells more of `RebaseNo::OtherLog`.
    pub fn different_row(&mut self, rows: &[Row]) -> Result<Option<Key>, RebaseNo>
        ensures learns { Learns self.old.told self.new.told }
        ensures rests { Rests self.old self.new }
        ensures found { IfOk result (Differs self.old rows.now) }
        ensures refused { IfErr result (λ why. IsStoreRefusal self.old why self.new) }
    {
        let to = self.to();
        let standing = self.rows_at_end()?;
        match first_other(to, &standing, rows) {
            Some(row) => {
                let key = key_of(row)?;
                Ok(Some(key))
            }
            None => Ok(None),
        }
    }

    // The objects at the log's end.
    fn rows_at_end(&mut self) -> Result<Vec<Row>, RebaseNo>
        ensures learns { Learns self.old.told self.new.told }
        ensures rests { Rests self.old self.new }
        ensures rows { IfOk result (λ rows. IsStateAt self.old.log self.old.selection.resource (end_of self.old.log) rows.items) }
        ensures refused { IfErr result (λ why. IsStoreRefusal self.old why self.new) }
    {
        let to = self.intake.to();
        let of = self.resource();
        // What a pass is, the proof learns where it reads it.
        self.told.shown();
        let rows = self.door.list_at(of, to, &mut self.told)?;
        Ok(rows)
    }

    // Commits revisions behind the end, and those at which nothing changes, up to this one, after which objects with
    // these keys stand, and raises the floor to it.
    fn commit_all(
        &mut self,
        revisions: Vec<Revision>,
        base: u64,
        keys: Keys,
    ) -> Result<u64, RebaseNo>
        requires rise { AreAscending (end_of self.old.log) revisions.items base }
        requires last { base ≤ 2 ^ 62 }
        requires keys { let log : Log = grown self.old.log (filled (end_of self.old.log) revisions.items base) in
            (key : List ℕ) → has keys key ≡ is_some (row_at log self.old.selection.resource (end_of log) key) }
        ensures learns { Learns self.old.told self.new.told }
        ensures commits { CommitsAll self.old revisions.items base result self.new }
    {
        let to = self.intake.to();
        // What a pass is, the proof learns where it reads it.
        self.told.shown();
        let end = self
            .door
            .begin_anew(to, revisions, base, &mut self.told, &mut self.author)?;
        self.intake.begin_anew(keys, end);
        Ok(end)
    }
}
