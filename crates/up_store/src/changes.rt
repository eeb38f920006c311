//! What a revision's changes make of the rows of one resource.

ghost use Rattle.std.specs.Prelude.{◌≡◌, ℕ, OnOk, OnErr, fold, map, take};
ghost use Rattle.obj_tree.specs.Maps.{with_row, without};
ghost use Rattle.rev_log.specs.States.{row_after, row_next};
ghost use Rattle.up_store.specs.Kept.{AreStepped, ArePartlyMade};
ghost use Rattle.up_store.specs.Shared.{shared_row, made_row};

use crate::revisions::SharedRevision;
use encode_once::Shown;
use kube_meta::{Key, Memory, Resource};
use obj_tree::Tree;
use rev_log::Change;
use std::sync::Arc;

/// Makes the revision's changes of one resource, one after the other. After want of memory the first of them are made.
pub fn make_changes(
    rows: &mut Tree,
    revision: &SharedRevision,
    resource: Resource,
) -> Result<(), Memory>
    ensures done { OnOk result (AreStepped rows.old rows.new (λ key row. row_next resource key row revision.now)) }
    ensures partly { OnErr result (ArePartlyMade resource revision.now rows.old rows.new) }
{
    let made = revision.made();
    let whole = revision.get();
    make_each(rows, &whole.changes, made, resource, whole.rev)
}

// Makes those of the changes at a revision that are of one resource, of which these are the rows.
fn make_each(
    rows: &mut Tree,
    changes: &[Change],
    made: &[Option<Arc<Shown>>],
    resource: Resource,
    rev: u64,
) -> Result<(), Memory>
    requires { map shared_row made.now ≡ map (made_row rev) changes.now }
    ensures done { OnOk result (AreStepped rows.old rows.new (λ key row. fold (row_after resource key rev) row changes.now)) }
    ensures partly { OnErr result ((n : ℕ) × AreStepped rows.old rows.new (λ key row. fold (row_after resource key rev) row (take n changes.now))) }
{
    for i in 0..changes.len() {
        make_change(rows, &changes[i], &made[i], resource, rev)?;
    }
    Ok(())
}

// Makes a change at a revision, of which this is the row, if it is one of the resource.
fn make_change(
    rows: &mut Tree,
    change: &Change,
    made: &Option<Arc<Shown>>,
    resource: Resource,
    rev: u64,
) -> Result<(), Memory>
    requires { shared_row made.now ≡ made_row rev change.now }
    ensures done { OnOk result (AreStepped rows.old rows.new (λ key row. row_after resource key rev row change.now)) }
    ensures kept { OnErr result (rows.new ≡ rows.old) }
{
    if !change.is_of(resource) {
        return Ok(());
    }
    let key = &change.key;
    match made {
        Some(shown) => put(rows, shown),
        None => take_out(rows, key),
    }
}

// Makes this the row of its key, which is shared.
fn put(rows: &mut Tree, shown: &Arc<Shown>) -> Result<(), Memory>
    ensures done { OnOk result (rows.new ≡ with_row rows.old shown.now.value) }
    ensures kept { OnErr result (rows.new ≡ rows.old) }
{
    rows.put(Arc::try_clone(shown)?)?;
    Ok(())
}

// Leaves no row of this key.
fn take_out(rows: &mut Tree, key: &Key) -> Result<(), Memory>
    ensures done { OnOk result (rows.new ≡ without rows.old key.now) }
    ensures kept { OnErr result (rows.new ≡ rows.old) }
{
    rows.remove(key)?;
    Ok(())
}
