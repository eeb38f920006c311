//! What events do to the tree of objects, forwards and backwards.

ghost use Rattle.std.specs.Prelude.{◌≡◌, ◌<◌, ◌+◌, ℕ, List, Option, drop, length, OnOk, OnErr, option_map};
ghost use Rattle.kube_meta.specs.Rows.{RowData, row_with};
ghost use Rattle.cache_core.specs.Steps.{row_written, with_event, with_events, row_before};

use encode_once::Shown;
use event_ring::{Event, Span};
use kube_meta::{Key, Memory};
use obj_tree::Tree;
use std::sync::Arc;

/// Makes all changes of one revision, or after want of memory none.
pub(crate) fn write_all(tree: &mut Tree, events: &[Event]) -> Result<(), Memory>
    ensures done { OnOk result (tree.new ≡ with_events tree.old events.now) }
    ensures kept { OnErr result (tree.new ≡ tree.old) }
{
    if let [event] = events {
        return write_one(tree, event);
    }
    let mut changed = tree.copy()?;
    write_each(&mut changed, events)?;
    *tree = changed;
    Ok(())
}

/// Makes the changes one after the other. After want of memory the first of them are made.
pub(crate) fn write_each(tree: &mut Tree, events: &[Event]) -> Result<(), Memory>
    ensures { OnOk result (tree.new ≡ with_events tree.old events.now) }
{
    for event in events {
        write_one(tree, event)?;
    }
    Ok(())
}

fn write_one(tree: &mut Tree, event: &Event) -> Result<(), Memory>
    ensures done { OnOk result (tree.new ≡ with_event tree.old event.entry.now) }
    ensures kept { OnErr result (tree.new ≡ tree.old) }
{
    write(tree, &event.key, &event.now)
}

// Makes this the object of a key, or leaves none there.
fn write(tree: &mut Tree, key: &Key, shown: &Option<Arc<Shown>>) -> Result<(), Memory>
    ensures done { OnOk result (tree.new ≡ row_written tree.old key.now (option_map (λ s. s.value) shown.now)) }
    ensures kept { OnErr result (tree.new ≡ tree.old) }
{
    match shown {
        Some(shown) => {
            tree.put(Arc::try_clone(shown)?)?;
        }
        None => {
            tree.remove(key)?;
        }
    }
    Ok(())
}

/// Undoes events from the last one backwards: each key gets what stood there before.
pub(crate) fn undo(tree: &mut Tree, span: &Span<'_>) -> Result<(), Memory>
    ensures { OnOk result ((key : List ℕ) → row_with tree.new key ≡ row_before span.now key (row_with tree.old key)) }
{
    let mut left = span.len();
    while left > 0 {
        left -= 1;
        undo_at(tree, span, left)?;
    }
    Ok(())
}

// Undoes the event at a place, where those behind it are undone.
fn undo_at(tree: &mut Tree, span: &Span<'_>, at: usize) -> Result<(), Memory>
    requires { at < length span.now }
    ensures { OnOk result ((key : List ℕ) (row : Option RowData) → row_with tree.old key ≡ row_before (drop (at + 1) span.now) key row →
        row_with tree.new key ≡ row_before (drop at span.now) key row) }
{
    match span.get(at) {
        Some(event) => write(tree, &event.key, &event.before),
        None => Ok(()),
    }
}
