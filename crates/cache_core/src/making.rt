//! The events that a revision's changes are.

ghost use Rattle.std.specs.Prelude.{◌≡◌, ◌++◌, IfOk, OnOk, OnErr, option_map, option_copied};
ghost use Rattle.cache_core.specs.Steps.{change_event, part_events};

use encode_once::Shown;
use event_ring::Event;
use kube_meta::{Memory, Row};
use obj_tree::Tree;
use rev_log::{Change, Revision};
use std::alloc::Global;
use std::sync::Arc;

/// The events of a revision of one resource, whose objects stand in the tree as they were before it.
pub(crate) fn events_made(
    alloc: Global,
    tree: &Tree,
    revision: &Revision,
) -> Result<Vec<Event>, Memory>
    ensures { IfOk result (λ events. events.items ≡ part_events tree.now revision.now) }
{
    let mut events = Vec::with_capacity(alloc, revision.changes.len())?;
    for change in &revision.changes {
        events.push(event_made(alloc, tree, change, revision.rev)?)?;
    }
    Ok(events)
}

// The event of a change at a revision.
fn event_made(alloc: Global, tree: &Tree, change: &Change, rev: u64) -> Result<Event, Memory>
    ensures { IfOk result (λ event. event ≡ change_event tree.now rev change.now) }
{
    let key = change.key.clone()?;
    let before = shared(tree.get(&key))?;
    let now = written(alloc, change, rev)?;
    Event::new(alloc, rev, key, before, now)
}

// The object that a change writes, at its revision.
fn written(alloc: Global, change: &Change, rev: u64) -> Result<Option<Arc<Shown>>, Memory>
    ensures { IfOk result (λ now. option_map (λ shown. shown.value) now ≡ option_map (λ obj. record { obj = obj; rev = rev }) change.now.new) }
{
    match &change.new {
        Some(obj) => Ok(Some(Shown::new(
            alloc,
            Row {
                obj: obj.clone()?,
                rev,
            },
        )?)),
        None => Ok(None),
    }
}

// The object once more, if there is one.
fn shared(shown: Option<&Arc<Shown>>) -> Result<Option<Arc<Shown>>, Memory>
    ensures { IfOk result (λ other. option_map (λ s. s.value) other ≡ option_map (λ s. s.value) (option_copied shown.entry)) }
{
    match shown {
        Some(shown) => Ok(Some(Arc::try_clone(shown)?)),
        None => Ok(None),
    }
}

/// Puts events behind others; the objects are shared. After want of memory nothing was put.
pub(crate) fn tell(alloc: Global, fresh: &mut Vec<Event>, events: &[Event]) -> Result<(), Memory>
    ensures done { OnOk result (fresh.new.items ≡ fresh.old.items ++ events.now) }
    ensures kept { OnErr result (fresh.new.items ≡ fresh.old.items) }
{
    let mut copies = copied(alloc, events)?;
    fresh.append(&mut copies)?;
    Ok(())
}

fn copied(alloc: Global, events: &[Event]) -> Result<Vec<Event>, Memory>
    ensures { IfOk result (λ copies. copies.items ≡ events.now) }
{
    let mut copies = Vec::with_capacity(alloc, events.len())?;
    for event in events {
        copies.push(copy_of(event)?)?;
    }
    Ok(copies)
}

// An equal event, which shares the objects.
fn copy_of(event: &Event) -> Result<Event, Memory>
    ensures { IfOk result (λ copy. copy ≡ event.entry.now) }
{
    let key = event.key.clone()?;
    let before = shared(event.before.as_ref())?;
    let now = shared(event.now.as_ref())?;
    let left = shared(event.left.as_ref())?;
    Ok(Event {
        rev: event.rev,
        key,
        before,
        now,
        left,
    })
}
