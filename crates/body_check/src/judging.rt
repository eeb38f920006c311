//! The judge.

ghost use Rattle.std.specs.Prelude.{◌≡◌, ◌+◌, ◌≤◌, ◌<◌, ◌^◌, ◌↔◌, IfOk, OnOk, IsTrue, take};
ghost use Rattle.std.specs.BTreeMap.{values};
ghost use Rattle.rev_log.specs.Logs.{end_of};
ghost use Rattle.rev_log.specs.Rows.{Holds};
ghost use Rattle.select_all.specs.Meanings.{IsAtLeast};
ghost use Rattle.watch_rules.specs.Bodies.{IsOpening};
ghost use Rattle.body_check.specs.Courses.{rows_told, untold_at, Admits, IsRanged};
ghost use Rattle.body_check.specs.Judging.{IsJudged, JudgementsAreOne, record_log};
ghost use Rattle.body_check.specs.Moves.{standing};
ghost use Rattle.body_check.specs.Rounds.{IsTriedBy, IsRoundOf};

use crate::Found;
use crate::moves::{Move, above, moves_of};
use crate::openings::read_start;
use kube_meta::{Memory, Resource};
use rev_log::{Revision, Rows, make_changes};
use select_all::Meaning;
use std::alloc::Global;
use std::collections::BTreeMap;
use watch_record::Record;
use watch_rules::Start;

/// What a record is judged to be.
#[derive(Clone, Copy, Debug, PartialEq, Eq)]
pub enum Checked {
    /// Its lines are those of a lawful body that begins at `at`, the least such revision, and reaches `to`, the least
    /// such position.
    Lawful { at: u64, to: u64 },
    /// They are those of none. `line` is the greatest number of first lines that begin a lawful body.
    Unlawful { line: u64 },
}

/// Judges whether the lines of a record are those of a lawful body of its watch.
pub fn check(alloc: Global, case: &Record) -> Result<Checked, Memory>
    ensures { IfOk result (IsJudged case.now) }
{
    let moves = moves_of(alloc, &case.log, &case.ask.selection)?;
    match case.ask.start {
        Start::FromRevision(revision) => Ok(from_one(alloc, case, &moves, revision)),
        Start::FromState(_) | Start::FromHere(_) => from_several(alloc, case, &moves),
    }
}

/// A record has one judgement: so each answer of `check` comes exactly where it holds.
pub fn judgements_are_one()
    ensures { JudgementsAreOne }
{}

// The judgement where the start is at one revision.
fn from_one(alloc: Global, case: &Record, moves: &[Move], revision: u64) -> Checked
    requires start { case.now.ask.start ≡ Start.FromRevision revision }
    requires moves { moves.now ≡ untold_at case.now case.now.first }
    ensures { IsJudged case.now result }
{
    let rows = BTreeMap::new(alloc);
    match read_start(case, revision, &rows, above(moves, revision)) {
        Found::Reached(to) => Checked::Lawful { at: revision, to },
        Found::Broken(line) => Checked::Unlawful { line: line as u64 },
    }
}

// The judgement where it may be at several: the first that reads all lines decides.
fn from_several(alloc: Global, case: &Record, moves: &[Move]) -> Result<Checked, Memory>
    requires ranged { IsRanged case.now.ask.start }
    requires moves { moves.now ≡ untold_at case.now case.now.first }
    ensures { IfOk result (IsJudged case.now) }
{
    let mut rows = BTreeMap::new(alloc);
    let mut rest = moves;
    let mut best = 0;
    let mut at = case.first;
    for place in 0..case.log.len() + 1 {
        match attempt(case, at, &rows, rest, best) {
            Found::Reached(to) => return Ok(Checked::Lawful { at, to }),
            Found::Broken(line) => best = line,
        }
        go_on(&mut rows, &case.log, case.ask.selection.resource, place)?;
        at += 1;
        rest = above(rest, at);
    }
    Ok(Checked::Unlawful { line: best as u64 })
}

// Tries a start, where the best of those before it was this: the position that it reaches, or the best so far.
fn attempt(case: &Record, at: u64, rows: &Rows, rest: &[Move], best: usize) -> Found
    requires ranged { IsRanged case.now.ask.start }
    requires begun { case.now.first ≤ at }
    requires reached { at ≤ end_of (record_log case.now) }
    requires stands { IsOpening (record_log case.now) case.now.ask.selection case.now.ask.start at (rows_told case.now.ask.start case.now.ask.selection (values rows.now)) }
    requires rest { rest.now ≡ untold_at case.now at }
    requires tried { IsTriedBy case.now at best }
    ensures { IsRoundOf case.now at result }
{
    if !admits(case.ask.start, at) {
        return Found::Broken(best);
    }
    match read_start(case, at, rows, rest) {
        Found::Reached(to) => Found::Reached(to),
        Found::Broken(line) => Found::Broken(best.max(line)),
    }
}

// Whether a start may be at a revision of the log.
fn admits(start: Start, at: u64) -> bool
    ensures { IsTrue result ↔ Admits start at }
{
    match start {
        Start::FromState(meaning) | Start::FromHere(meaning) => is_at_least(meaning, at),
        Start::FromRevision(revision) => at == revision,
    }
}

fn is_at_least(meaning: Meaning, at: u64) -> bool
    ensures { IsTrue result ↔ IsAtLeast meaning at }
{
    match meaning {
        Meaning::MostRecent | Meaning::Any => true,
        Meaning::NotOlder(asked) => asked <= at,
        Meaning::Exact(_) => false,
    }
}

// Makes the changes of the revision at a place, if there is one.
fn go_on(rows: &mut Rows, log: &[Revision], resource: Resource, place: usize) -> Result<(), Memory>
    ensures { OnOk result (Holds rows.old (standing resource (take place log.now)) → Holds rows.new (standing resource (take (place + 1) log.now))) }
{
    if place < log.len() {
        make_changes(rows, &log[place], resource)
    } else {
        Ok(())
    }
}
