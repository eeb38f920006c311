//! The rows of a resource at a revision.

ghost use Rattle.std.specs.Prelude.{◌≡◌, ℕ, IfOk, OnOk};
ghost use Rattle.kube_meta.specs.Rows.{row_with};
ghost use Rattle.rev_log.specs.Logs.{Log, AreNumbered};
ghost use Rattle.rev_log.specs.Rows.{Holds, Follows, row_next_upto};
ghost use Rattle.rev_log.specs.States.{IsStateAt, row_in_base};

use crate::Revision;
use crate::rows::{Rows, make_changes, put_first, rows_in_order};
use kube_meta::{Memory, Resource, Row};
use std::alloc::Global;
use std::collections::BTreeMap;

/// The rows of `resource` at the revision `at`, in the order of their keys: what the revisions up to
/// `at` leave of the base rows, which are pods.
pub fn state(
    alloc: Global,
    base: &[Row],
    log: &[Revision],
    resource: Resource,
    at: u64,
) -> Result<Vec<Row>, Memory>
    ensures { IfOk result (λ rows. (first : ℕ) → AreNumbered first log.now →
        IsStateAt (record { first = first; base = base.now; revisions = log.now }) resource at rows.items) }
{
    let mut rows = base_rows(alloc, base, resource)?;
    for revision in log {
        apply_upto(&mut rows, revision, resource, at)?;
    }
    rows_in_order(alloc, rows)
}

// The rows of the base by their keys: pods alone.
fn base_rows(alloc: Global, base: &[Row], resource: Resource) -> Result<Rows, Memory>
    ensures { IfOk result (λ rows. Holds rows (row_in_base base.now resource)) }
{
    match resource {
        Resource::Pods => by_key(alloc, base),
        Resource::ConfigMaps | Resource::Deployments => Ok(BTreeMap::new(alloc)),
    }
}

// The rows by their keys, the first of each key.
fn by_key(alloc: Global, base: &[Row]) -> Result<Rows, Memory>
    ensures { IfOk result (λ rows. Holds rows (row_with base.now)) }
{
    let mut rows = BTreeMap::new(alloc);
    for row in base {
        put_first(&mut rows, row)?;
    }
    Ok(rows)
}

// Makes the revision's changes, if it is at most `at`.
fn apply_upto(
    rows: &mut Rows,
    revision: &Revision,
    resource: Resource,
    at: u64,
) -> Result<(), Memory>
    ensures { OnOk result (Follows rows.old rows.new (λ key row. row_next_upto resource at key row revision.now)) }
{
    if revision.rev > at {
        return Ok(());
    }
    make_changes(rows, revision, resource)
}
