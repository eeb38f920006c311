//! How many rows were read, and which had another answer.

ghost use Rattle.std.specs.Prelude.{◌≡◌, ◌≢◌, ◌+◌, ◌-◌, ◌^◌, [], Some, min, if◌then◌else◌};

use crate::rows::steps::Row;
use crate::rows::wording::Wording;
use std::alloc::{AllocError, Global};

/// How many rows or cases were read, and which had another answer.
#[derive(Drop)]
pub struct Tally {
    /// How many were read.
    pub rows: u64,
    /// How many of them had another answer.
    pub mismatches: u64,
    /// These, in words.
    pub others: Wording,
}

impl Tally {
    /// Nothing is read yet.
    pub fn new(alloc: Global) -> Tally
        ensures { result ≡ record { rows = 0; mismatches = 0; others = Some [] } }
    {
        Tally {
            rows: 0,
            mismatches: 0,
            others: Wording::new(alloc),
        }
    }

    /// Counts a row, and whether it had its answer. A count stays at the greatest number that it can be.
    pub fn count(&mut self, met: bool)
        ensures rows { self.new.rows ≡ min (self.old.rows + 1) (2 ^ 64 - 1) }
        ensures mismatches { self.new.mismatches ≡ (if met then self.old.mismatches else min (self.old.mismatches + 1) (2 ^ 64 - 1)) }
    {
        self.rows = self.rows.saturating_add(1);
        if !met {
            self.mismatches = self.mismatches.saturating_add(1);
        }
    }

    /// Counts a case by what comes out otherwise in it, which is told behind its name and what it is run with.
    pub fn take_case(&mut self, case: (&str, &str), others: &str)
        ensures rows { self.new.rows ≡ min (self.old.rows + 1) (2 ^ 64 - 1) }
        ensures met { others.now ≡ [] → self.new.mismatches ≡ self.old.mismatches }
        ensures other { others.now ≢ [] → self.new.mismatches ≡ min (self.old.mismatches + 1) (2 ^ 64 - 1) }
    {
        if others.is_empty() {
            self.count(true);
            return;
        }
        self.count(false);
        let (name, with) = case;
        self.others.show(&format_args!("{name}, {with}\n{others}"));
    }

    /// Counts a row by what is answered to its step. If it has another answer than it wants, its place and both answers
    /// are told.
    pub fn take(&mut self, place: (&str, u64), row: Row<'_>, answer: &str)
        ensures rows { self.new.rows ≡ min (self.old.rows + 1) (2 ^ 64 - 1) }
        ensures met { answer.now ≡ row.entry.wanted.now → self.new.mismatches ≡ self.old.mismatches }
        ensures other { answer.now ≢ row.entry.wanted.now → self.new.mismatches ≡ min (self.old.mismatches + 1) (2 ^ 64 - 1) }
    {
        if answer == row.wanted {
            self.count(true);
            return;
        }
        self.count(false);
        let (file, number) = place;
        let (step, wanted) = (row.step, row.wanted);
        self.others.show(&format_args!(
            "{file}:{number}: {step}\n    wanted: {wanted}\n    answer: {answer}\n"
        ));
    }
    /// All that came out otherwise, in words, and the counts.
    pub fn whole(self) -> Result<String, AllocError> {
        let Tally {
            rows,
            mismatches,
            others,
        } = self;
        let mut told = others;
        told.show(&format_args!("{rows} rows, {mismatches} mismatches\n"));
        told.whole()
    }
}
