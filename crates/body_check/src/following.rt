//! The lines behind an opening, one after the other.

ghost use Rattle.std.specs.Prelude.{◌≡◌, ◌≤◌, ◌↔◌, ◌==◌, IsTrue, nat_le, if◌then◌else◌};
ghost use Rattle.rev_log.specs.Logs.{end_of as log_end};
ghost use Rattle.body_check.specs.Courses.{course_of};
ghost use Rattle.body_check.specs.Judging.{record_log};
ghost use Rattle.body_check.specs.Findings.{IsFound};
ghost use Rattle.body_check.specs.Losses.{is_lost as is_lost_by};
ghost use Rattle.body_check.specs.Reading.{IsUnderWay, Reads, highest};
ghost use Rattle.body_check.specs.Steps.{IsOneWith, IsStepOf, LosesAt, MarksAt};

use crate::Found;
use crate::losses::is_lost;
use crate::moves::Move;
use kube_meta::Text;
use watch_lines::{bookmark_in, loss_in, tells};
use watch_record::Record;

/// What a line is.
#[derive(Clone, Copy, Debug)]
pub enum Step<'a> {
    /// It goes on: these moves come then, and the position is at least this one.
    On(&'a [Move], u64),
    /// It is a loss at this position.
    End(u64),
    /// It isn't lawful.
    Bad,
}

/// What lines behind an opening are.
pub(crate) fn follow(case: &Record, at: u64, rest: &[Move], lines: &[Text]) -> Found
    requires { IsUnderWay (course_of case.now at) rest.now at }
    ensures { IsFound (Reads (course_of case.now at) rest.now at) lines.now result }
{
    let mut untold = rest;
    let mut low = at;
    for (n, line) in lines.iter().enumerate() {
        match read_line(case, at, untold, low, line) {
            Step::On(more, next) => {
                untold = more;
                low = next;
            }
            Step::End(position) => return ended(position, n + 1, lines.len()),
            Step::Bad => return Found::Broken(n),
        }
    }
    passed(low, highest_at(case, at, untold), lines.len())
}

// What is found at a loss behind which n of all lines have been read.
fn ended(position: u64, n: usize, all: usize) -> Found
    ensures { result ≡ (if n == all then Found.Reached position else Found.Broken n) }
{
    if n == all {
        Found::Reached(position)
    } else {
        Found::Broken(n)
    }
}

// What is found behind the n lines that there are, from the least position on and up to the greatest.
fn passed(low: u64, high: u64, n: usize) -> Found
    ensures { result ≡ (if nat_le low high then Found.Reached low else Found.Broken n) }
{
    if low <= high {
        Found::Reached(low)
    } else {
        Found::Broken(n)
    }
}

// The greatest position at which these moves are still untold.
fn highest_at(case: &Record, at: u64, untold: &[Move]) -> u64
    ensures { result ≡ highest (course_of case.now at) untold.now }
{
    match untold {
        [first, ..] => first.rev.saturating_sub(1),
        [] => at.max(end_of(case)),
    }
}

// The last revision of the log.
fn end_of(case: &Record) -> u64
    ensures { result ≡ log_end (record_log case.now) }
{
    case.first + case.log.len() as u64
}

// What a line is, where these moves are still untold and the position is at least `low`.
fn read_line<'a>(case: &Record, at: u64, untold: &'a [Move], low: u64, line: &Text) -> Step<'a>
    requires { IsUnderWay (course_of case.now at) untold.now low }
    ensures { IsStepOf (course_of case.now at) untold.now low line.now result }
{
    if let [first, more @ ..] = untold {
        if tells(line.as_str().as_bytes(), first.kind, &first.obj, first.rev) {
            return Step::On(more, first.rev);
        }
    }
    let high = highest_at(case, at, untold);
    if let Some(position) = mark_at(case, line, low, high) {
        return Step::On(untold, position);
    }
    match loss_at(case, line, low, high) {
        Some(position) => Step::End(position),
        None => Step::Bad,
    }
}

// The revision of the bookmark that a line is, where one may stand.
fn mark_at(case: &Record, line: &Text, low: u64, high: u64) -> Option<u64>
    ensures { IsOneWith (MarksAt case.now low high line.now) result }
{
    if !case.ask.bookmarks {
        return None;
    }
    let resource = case.ask.selection.resource;
    let Some(at) = bookmark_in(line.as_str().as_bytes(), resource, false) else {
        return None;
    };
    if is_from(at, low, high) {
        up_to(at, end_of(case))
    } else {
        None
    }
}

// The position of the loss that a line is, where the log bears one out.
fn loss_at(case: &Record, line: &Text, low: u64, high: u64) -> Option<u64>
    ensures { IsOneWith (LosesAt case.now low high line.now) result }
{
    let Some((at, floor)) = loss_in(line.as_str().as_bytes()) else {
        return None;
    };
    if is_from(at, low, high) {
        borne_out(case, at, floor)
    } else {
        None
    }
}

// The number, if it is at most another.
fn up_to(at: u64, end: u64) -> Option<u64>
    ensures { result ≡ (if nat_le at end then Some at else None) }
{
    if at <= end { Some(at) } else { None }
}

// Whether a number is at least the first and at most the second.
fn is_from(at: u64, low: u64, high: u64) -> bool
    ensures { IsTrue result ↔ (low ≤ at) × (at ≤ high) }
{
    low <= at && at <= high
}

// The position of a loss, if the log bears it out.
fn borne_out(case: &Record, at: u64, floor: u64) -> Option<u64>
    ensures { result ≡ (if is_lost_by (record_log case.now) case.now.floor case.now.window case.now.ask.selection.resource at floor then Some at else None) }
{
    let resource = case.ask.selection.resource;
    if is_lost(
        &case.log,
        case.first,
        case.floor,
        case.window,
        resource,
        at,
        floor,
    ) {
        Some(at)
    } else {
        None
    }
}
