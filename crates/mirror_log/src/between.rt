//! The revisions between.

ghost use Rattle.std.specs.Prelude.{◌≡◌, ◌≤◌, ◌^◌, [], All, IfOk, OnOk, Err};
ghost use Rattle.kube_meta.specs.Rows.{AreRising};
ghost use Rattle.mirror_log.specs.Bridges.{Bridges, MayBeOfOneLog};
ghost use Rattle.mirror_log.specs.Slots.{Hold};

use crate::BridgeNo;
use crate::find::{are_kept, gone_rows};
use crate::slots::{SlotNo, Slots, put_all, remove_all, revisions_of};
use kube_meta::{Memory, Resource, Row};
use rev_log::Revision;
use std::alloc::Global;
use std::collections::BTreeMap;

// No changes yet.
fn no_slots(alloc: Global) -> Slots
    ensures { Hold result.entries [] }
{
    BTreeMap::new(alloc)
}

/// The revisions that take the objects of a resource at one revision to those at a later one, both in the order of
/// keys. What was written since is put at its own revision, and what is gone is removed at the first revision with
/// room. Revisions at which nothing changes aren't among them, however many there are.
pub fn bridge(
    alloc: Global,
    resource: Resource,
    from: u64,
    old: &[Row],
    to: u64,
    rows: &[Row],
) -> Result<Vec<Revision>, BridgeNo>
    requires onward { from ≤ to }
    requires last { to ≤ 2 ^ 62 }
    requires old_rising { AreRising old.now }
    requires rising { AreRising rows.now }
    requires within { All (λ row. row.rev ≤ to) rows.now }
    ensures bridges { IfOk result (λ revisions. Bridges resource from old.now to rows.now revisions.items) }
    ensures one_log { OnOk result (MayBeOfOneLog from old.now to rows.now) }
    ensures other_log { result ≡ Err BridgeNo.OtherLog → ¬ (MayBeOfOneLog from old.now to rows.now) }
{
    if !are_kept(from, old, rows) {
        return Err(BridgeNo::OtherLog);
    }
    let mut slots = no_slots(alloc);
    put_all(alloc, resource, &mut slots, from, rows)?;
    let gone = gone_rows(alloc, old, rows)?;
    remove_all(alloc, resource, &mut slots, from, to, &gone)?;
    Ok(revisions_of(alloc, slots)?)
}
