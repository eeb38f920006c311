//! Histories: the objects that they leave, and their events.

ghost use Rattle.std.specs.Prelude.{◌≡◌, ℕ, map, IfOk, OnOk};
ghost use Rattle.kube_meta.specs.Rows.{AreRising};
ghost use Rattle.obj_tree.specs.Pages.{values_of};
ghost use Rattle.cache_core.specs.Steps.{rows_along, events_along, IsPushed, IsGroup, IsUpTo, AreGroups, AreReplayed};

use crate::making::events_made;
use crate::writing::write_each;
use encode_once::Shown;
use event_ring::{Event, Ring};
use kube_meta::{Memory, Row};
use obj_tree::Tree;
use rev_log::Revision;
use std::alloc::Global;
use std::sync::Arc;

/// The tree of rows.
pub(crate) fn tree_of(alloc: Global, rows: Vec<Row>) -> Result<Tree, Memory>
    requires { AreRising rows.items }
    ensures { IfOk result (λ tree. tree ≡ rows.items) }
{
    let shown = all_shown(alloc, rows)?;
    Tree::of_rows(alloc, shown)
}

fn all_shown(alloc: Global, rows: Vec<Row>) -> Result<Vec<Arc<Shown>>, Memory>
    ensures { IfOk result (λ shown. values_of shown.items ≡ rows.items) }
{
    let mut shown = Vec::with_capacity(alloc, rows.len())?;
    for row in rows {
        shown.push(Shown::new(alloc, row)?)?;
    }
    Ok(shown)
}

/// Makes the changes of all revisions, and answers the events of each.
pub(crate) fn replay(
    alloc: Global,
    tree: &mut Tree,
    revisions: &[Revision],
) -> Result<Vec<Vec<Event>>, Memory>
    ensures rows { OnOk result (tree.new ≡ rows_along tree.old revisions.now) }
    ensures events { IfOk result (λ groups. map (λ group. group.items) groups.items ≡ events_along tree.old revisions.now) }
{
    let mut groups = Vec::with_capacity(alloc, revisions.len())?;
    for revision in revisions {
        let events = events_made(alloc, tree, revision)?;
        write_each(tree, &events)?;
        groups.push(events)?;
    }
    Ok(groups)
}

/// Takes the events of several revisions into the ring, at a time in milliseconds. Takes no memory but what the ring's
/// capacity wants, and that may be refused.
pub(crate) fn push_all(ring: &mut Ring, groups: Vec<Vec<Event>>, time: u64)
    requires up_to { IsUpTo ring.old.floor ring.old }
    requires groups { AreGroups ring.old.floor (map (λ group. group.items) groups.items) }
    ensures { AreReplayed ring.old (map (λ group. group.items) groups.items) time ring.new }
{
    for events in groups {
        push(ring, events, time);
    }
}

/// Takes the events of a revision into the ring, after its capacity was fitted, where there is memory for that.
pub(crate) fn push(ring: &mut Ring, events: Vec<Event>, time: u64)
    requires { (last : ℕ) × IsUpTo last ring.old × IsGroup last events.items }
    ensures { IsPushed ring.old events.items time ring.new }
{
    let _ = ring.fit(time);
    // The proof learns here that it is a ring.
    let _held = ring.len();
    ring.push_revision(events, time);
}
