//! Lists of rows, and what may lie between two of one log.

ghost use Rattle.std.specs.Prelude.{◌≤◌, ◌^◌, All, IfOk, []};
ghost use Rattle.kube_meta.specs.Rows.{AreRising};
ghost use Rattle.body_check.specs.Heard.{AreOnward, ComesAfter, IsBridged, IsFirstAgainst, MayBegin};

use crate::stand::may_stand;
use kube_meta::{Memory, Resource, Row};
use mirror_log::{BridgeNo, bridge};
use select_all::Selection;
use std::alloc::Global;
use watch_record::LaterList;

/// Whether some log has a list at its revision. Pods may have stood at the log's first revision, and others were all
/// written since.
pub(crate) fn may_begin(
    alloc: Global,
    selection: &Selection,
    rows: &[Row],
    from: u64,
) -> Result<bool, Memory>
    requires { from ≤ 2 ^ 62 }
    ensures { IfOk result (MayBegin selection.now from rows.now) }
{
    if !may_stand(selection, rows, from) {
        return Ok(false);
    }
    match selection.resource {
        Resource::Pods => Ok(true),
        Resource::ConfigMaps | Resource::Deployments => may_follow(alloc, 0, &[], from, rows),
    }
}

// Whether there are revisions that lead from old rows at a revision to the rows at a later one.
fn may_follow(alloc: Global, from: u64, old: &[Row], at: u64, rows: &[Row]) -> Result<bool, Memory>
    requires onward { from ≤ at }
    requires last { at ≤ 2 ^ 62 }
    requires old_rising { AreRising old.now }
    requires rising { AreRising rows.now }
    requires within { All (λ row. row.rev ≤ at) rows.now }
    ensures { IfOk result (IsBridged from old.now at rows.now) }
{
    match bridge(alloc, Resource::Pods, from, old, at, rows) {
        Ok(_) => Ok(true),
        Err(BridgeNo::OtherLog) => Ok(false),
        Err(BridgeNo::Memory) => Err(Memory),
    }
}

// Whether a list may follow what stood at a revision.
fn may_come(
    alloc: Global,
    selection: &Selection,
    from: u64,
    old: &[Row],
    list: &LaterList,
) -> Result<bool, Memory>
    requires onward { from ≤ list.now.at }
    requires last { list.now.at ≤ 2 ^ 62 }
    requires old_rising { AreRising old.now }
    ensures { IfOk result (ComesAfter selection.now from old.now list.now) }
{
    if may_stand(selection, &list.rows, list.at) {
        may_follow(alloc, from, old, list.at, &list.rows)
    } else {
        Ok(false)
    }
}

/// The place of the first list that can't follow what stands at a revision and the lists before it, if there is one.
pub(crate) fn first_bad(
    alloc: Global,
    selection: &Selection,
    from: u64,
    rows: &[Row],
    left: &[LaterList],
) -> Result<Option<u64>, Memory>
    requires onward { AreOnward from left.now }
    requires rising { AreRising rows.now }
    ensures { IfOk result (IsFirstAgainst selection.now from rows.now left.now) }
{
    let mut old = rows;
    let mut stands = from;
    for list in left {
        if !may_come(alloc, selection, stands, old, list)? {
            return Ok(Some(list.place));
        }
        old = &list.rows;
        stands = list.at;
    }
    Ok(None)
}
