//! The rows of one resource by their keys, and what changes make of them.

ghost use Rattle.std.specs.Prelude.{◌≡◌, IfOk, OnOk, OnErr, Some, None, if◌then◌else◌, bytes_eq};
ghost use Rattle.std.specs.BTreeMap.{values};
ghost use Rattle.std.specs.Option.{option_or};
ghost use Rattle.kube_meta.specs.Rows.{key_of};
ghost use Rattle.rev_log.specs.Rows.{Follows, HasBegun};
ghost use Rattle.rev_log.specs.States.{row_after, row_next};

use crate::{Change, Revision};
use kube_meta::{Key, Memory, Resource, Row};
use std::alloc::Global;
use std::collections::BTreeMap;

/// The rows of one resource by their keys.
pub type Rows = BTreeMap<Key, Row>;

/// Makes the revision's changes of one resource, one after the other. After want of memory the first of them are made.
pub fn make_changes(rows: &mut Rows, revision: &Revision, resource: Resource) -> Result<(), Memory>
    ensures done { OnOk result (Follows rows.old rows.new (λ key row. row_next resource key row revision.now)) }
    ensures partly { OnErr result (HasBegun resource revision.now rows.old rows.new) }
{
    for change in &revision.changes {
        make_change(rows, change, resource, revision.rev)?;
    }
    Ok(())
}

// Makes one change at a revision, if it is one of the resource.
fn make_change(rows: &mut Rows, change: &Change, resource: Resource, rev: u64) -> Result<(), Memory>
    ensures done { OnOk result (Follows rows.old rows.new (λ key row. row_after resource key rev row change.now)) }
    ensures kept { OnErr result (Follows rows.old rows.new (λ key row. row)) }
{
    if !change.is_of(resource) {
        return Ok(());
    }
    match &change.new {
        Some(obj) => {
            let row = Row {
                obj: obj.clone()?,
                rev,
            };
            put(rows, row)
        }
        None => {
            take_out(rows, &change.key);
            Ok(())
        }
    }
}

// Makes this the row of its key.
fn put(rows: &mut Rows, row: Row) -> Result<(), Memory>
    ensures done { OnOk result (Follows rows.old rows.new (λ key old. if bytes_eq key (key_of row) then Some row else old)) }
    ensures kept { OnErr result (Follows rows.old rows.new (λ key old. old)) }
{
    let key = row.obj.key.clone()?;
    match rows.insert(key, row) {
        Ok(_) => Ok(()),
        Err(_) => Err(Memory),
    }
}

// Makes this the row of its key, where there is none.
pub(crate) fn put_first(rows: &mut Rows, row: &Row) -> Result<(), Memory>
    ensures { OnOk result (Follows rows.old rows.new (λ key old. option_or old (if bytes_eq key (key_of row.now) then Some row.now else None))) }
{
    if rows.contains_key(&row.obj.key) {
        return Ok(());
    }
    put(rows, row.clone()?)
}

// Leaves no row of this key.
fn take_out(rows: &mut Rows, key: &Key)
    ensures { Follows rows.old rows.new (λ other old. if bytes_eq other key.now then None else old) }
{
    let _ = rows.remove(key);
}

/// The rows in the order of their keys.
pub fn rows_in_order(alloc: Global, rows: Rows) -> Result<Vec<Row>, Memory>
    ensures { IfOk result (λ list. list.items ≡ values rows) }
{
    let mut list = Vec::new(alloc);
    for row in rows.into_values() {
        list.push(row)?;
    }
    Ok(list)
}
