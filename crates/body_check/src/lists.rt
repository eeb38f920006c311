//! The judge of records of unknown logs.

ghost use Rattle.std.specs.Prelude.{◌≡◌, ◌<◌, ◌≤◌, IfOk, length, take};
ghost use Rattle.body_check.specs.Heard.{HasHeard, IsWalking, AreWalked};
ghost use Rattle.body_check.specs.Lists.{IsJudged, JudgementsAreOne};

use crate::Verdict;
use crate::held::Held;
use crate::spans::{first_bad, may_begin};
use crate::turns::{Turn, hear};
use crate::walk::Walk;
use kube_meta::Memory;
use rev_log::rows_in_order;
use std::alloc::Global;
use watch_lines::{texts_tell_one_line, what_is_told_is_kept};
use watch_record::Between;

/// Judges whether some log tells all of a record.
pub fn check_lists<'a>(alloc: Global, case: &Between<'a>) -> Result<Verdict, Memory>
    ensures { IfOk result (IsJudged case.now) }
{
    texts_tell_one_line();
    what_is_told_is_kept();
    if !may_begin(alloc, &case.ask.selection, &case.rows, case.from)? {
        return Ok(Verdict::BadList { list: 0 });
    }
    let mut walk = Walk::new(alloc, &case.rows, case.from, &case.later)?;
    for (n, text) in case.lines.iter().enumerate() {
        match hear(alloc, &case.ask, &mut walk, text)? {
            Turn::On => {}
            Turn::End => return judge_loss(alloc, case, walk, n + 1),
            Turn::Bad => return Ok(Verdict::BadLine { line: n as u64 }),
        }
    }
    judge_lists(alloc, case, walk)
}

/// A record has one judgement: so each answer of `check_lists` comes exactly where it holds.
pub fn list_judgements_are_one()
    ensures { JudgementsAreOne }
{}

// The judgement where a loss is told behind the lines before it, so many with it.
fn judge_loss<'a>(
    alloc: Global,
    case: &Between<'a>,
    walk: Walk<'a>,
    heard: usize,
) -> Result<Verdict, Memory>
    requires { AreWalked case.now heard walk }
    ensures { IfOk result (IsJudged case.now) }
{
    if heard < case.lines.len() {
        return Ok(Verdict::BadLine { line: heard as u64 });
    }
    judge_lists(alloc, case, walk)
}

// The judgement where some log tells all lines.
fn judge_lists<'a>(alloc: Global, case: &Between<'a>, walk: Walk<'a>) -> Result<Verdict, Memory>
    requires { HasHeard case.now case.now.texts walk }
    ensures { IfOk result (IsJudged case.now) }
{
    let lists = case.later.len();
    let mut walk = walk;
    let to = walk.to;
    walk.pass(to + 1);
    let left = match walk.held {
        Held::Left(left) => left,
        Held::Bad(list) => return Ok(Verdict::BadList { list }),
    };
    let rows = rows_in_order(alloc, walk.rows)?;
    match first_bad(alloc, &case.ask.selection, to, &rows, left)? {
        Some(list) => Ok(Verdict::BadList { list }),
        None => Ok(Verdict::Lawful {
            from: case.from,
            to,
            held: (lists - left.len()) as u64,
        }),
    }
}
