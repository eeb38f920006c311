//! The lines of one start: its initial events, the bookmark that ends them, and what follows.

ghost use Rattle.std.specs.Prelude.{◌≡◌, ◌≤◌, ◌<◌, ◌+◌, ◌^◌, ◌↔◌, ◌∷◌, [], IsTrue, Some, None, length, map, if◌then◌else◌};
ghost use Rattle.std.specs.BTreeMap.{values};
ghost use Rattle.select_all.specs.Listings.{listing};
ghost use Rattle.watch_rules.specs.Bodies.{Closing, initial_lines};
ghost use Rattle.meta_view.specs.declared.form.Form.TheVariants.{Whole};
ghost use Rattle.meta_view.specs.Lines.{object_line};
ghost use Rattle.watch_lines.specs.Texts.{type_of};
ghost use Rattle.body_check.specs.Courses.{text_in, course_of, rows_told, untold_at, closing_texts, opening_texts};
ghost use Rattle.body_check.specs.Findings.{AreCompared, Behind, IsFound, good_of, later};
ghost use Rattle.body_check.specs.Places.{IsPlaced};
ghost use Rattle.body_check.specs.Reading.{IsUnderWay, Reads};

use crate::Found;
use crate::following::follow;
use crate::moves::Move;
use kube_meta::{Row, Text};
use rev_log::Rows;
use select_all::Kind;
use watch_lines::{bookmark_in, tells};
use watch_record::Record;
use watch_rules::Start;

/// What the lines of a record are by a start, where these rows stand and these moves come.
pub(crate) fn read_start(case: &Record, at: u64, rows: &Rows, rest: &[Move]) -> Found
    requires closing { IsTrue case.now.ask.closing → at ≤ 2 ^ 62 }
    requires under_way { IsUnderWay (course_of case.now at) rest.now at }
    ensures { IsFound (Behind (opening_texts case.now at (values rows.now)) (Reads (course_of case.now at) rest.now at)) case.now.lines.items result }
{
    match listed(case, rows) {
        Ok(n) => {
            let lines = &case.lines[n..];
            behind(n, after_rows(case, at, rest, lines), case.lines.len())
        }
        Err(n) => Found::Broken(n),
    }
}

// The same of lines behind n others, where there are this many.
fn behind(n: usize, found: Found, all: usize) -> Found
    requires { n + good_of found ≤ all }
    ensures { result ≡ later n found }
{
    match found {
        Found::Reached(to) => Found::Reached(to),
        Found::Broken(good) => Found::Broken(n + good),
    }
}

// How many lines are the initial events, and whether these are all.
fn listed(case: &Record, rows: &Rows) -> Result<usize, usize>
    ensures { AreCompared (map (text_in case.now) (initial_lines (rows_told case.now.ask.start case.now.ask.selection (values rows.now)))) case.now.lines.items result }
{
    match case.ask.start {
        Start::FromState(_) => compared(case, rows),
        Start::FromHere(_) | Start::FromRevision(_) => Ok(0),
    }
}

// How many lines are those of the selected rows, and whether these are all.
fn compared(case: &Record, rows: &Rows) -> Result<usize, usize>
    ensures { AreCompared (map (text_in case.now) (initial_lines (listing case.now.ask.selection (values rows.now)))) case.now.lines.items result }
{
    let mut n = 0;
    for row in rows.values() {
        match place_after(case, n, row) {
            Some(next) => n = next,
            None => return Err(n),
        }
    }
    Ok(n)
}

// How many lines are good behind a row, where so many are before it.
fn place_after(case: &Record, n: usize, row: &Row) -> Option<usize>
    requires { n ≤ length case.now.lines.items }
    ensures { IsPlaced case.now n row.now result }
{
    if !case.ask.selection.selects(&row.obj) {
        return Some(n);
    }
    if n < case.lines.len() {
        one_more(is_initial(&case.lines[n], row), n)
    } else {
        None
    }
}

fn one_more(good: bool, n: usize) -> Option<usize>
    requires { n < 2 ^ 63 }
    ensures { result ≡ (if good then Some (n + 1) else None) }
{
    if good { Some(n + 1) } else { None }
}

// Whether a line is the initial event of a row.
fn is_initial(line: &Text, row: &Row) -> bool
    ensures { IsTrue result ↔ (line.now ≡ object_line Whole (type_of Kind.Added) row.now.obj row.now.rev) }
{
    tells(line.as_str().as_bytes(), Kind::Added, &row.obj, row.rev)
}

// What the lines are behind the initial events.
fn after_rows(case: &Record, at: u64, rest: &[Move], lines: &[Text]) -> Found
    requires closing { IsTrue case.now.ask.closing → at ≤ 2 ^ 62 }
    requires under_way { IsUnderWay (course_of case.now at) rest.now at }
    ensures { IsFound (Behind (closing_texts case.now at) (Reads (course_of case.now at) rest.now at)) lines.now result }
{
    if case.ask.closing {
        after_closing(case, at, rest, lines)
    } else {
        follow(case, at, rest, lines)
    }
}

// The same where a closing bookmark is due.
fn after_closing(case: &Record, at: u64, rest: &[Move], lines: &[Text]) -> Found
    requires reached { at ≤ 2 ^ 62 }
    requires under_way { IsUnderWay (course_of case.now at) rest.now at }
    ensures { IsFound (Behind (text_in case.now (Closing at) ∷ []) (Reads (course_of case.now at) rest.now at)) lines.now result }
{
    let [line, more @ ..] = lines else {
        return Found::Broken(0);
    };
    if is_closing(case, at, line) {
        behind(1, follow(case, at, rest, more), lines.len())
    } else {
        Found::Broken(0)
    }
}

// Whether the line is the bookmark that ends the initial events.
fn is_closing(case: &Record, at: u64, line: &Text) -> bool
    requires { at ≤ 2 ^ 62 }
    ensures { IsTrue result ↔ (line.now ≡ text_in case.now (Closing at)) }
{
    let resource = case.ask.selection.resource;
    match bookmark_in(line.as_str().as_bytes(), resource, true) {
        Some(found) => found == at,
        None => false,
    }
}
