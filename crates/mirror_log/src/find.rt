//! Rows of a list that rises, by their keys.

ghost use Rattle.std.specs.Prelude.{◌≡◌, ◌↔◌, IfOk, IsTrue, option_copied};
ghost use Rattle.kube_meta.specs.Rows.{AreRising, key_of, row_with};
ghost use Rattle.mirror_log.specs.Bridges.{AreKept, FindsOther, IsKept, gone};

use crate::same::same_obj;
use kube_meta::{Key, Memory, Row};
use std::alloc::Global;

/// The key of a row.
pub(crate) fn key_of(row: &Row) -> Result<Key, Memory>
    ensures { IfOk result (λ key. key ≡ key_of row.now) }
{
    Ok(row.obj.key.clone()?)
}

// The row with the key, if there is one.
fn row_of<'a>(rows: &'a [Row], key: &Key) -> Option<&'a Row>
    requires { AreRising rows.now }
    ensures { option_copied result ≡ row_with rows.now key.now }
{
    match rows.binary_search_by(|row| row.obj.key.cmp(key)) {
        Ok(at) => Some(&rows[at]),
        Err(_) => None,
    }
}

// Whether a row stands among the old ones, the very same.
fn is_kept(old: &[Row], row: &Row) -> bool
    requires { AreRising old.now }
    ensures { IsTrue result ↔ IsKept old.now row.now }
{
    match row_of(old, &row.obj.key) {
        Some(found) => found.rev == row.rev && same_obj(&found.obj, &row.obj),
        None => false,
    }
}

/// Whether all rows that aren't younger than a revision stand among the old ones.
pub(crate) fn are_kept(from: u64, old: &[Row], rows: &[Row]) -> bool
    requires { AreRising old.now }
    ensures { IsTrue result ↔ AreKept from old.now rows.now }
{
    rows.iter().all(|row| row.rev > from || is_kept(old, row))
}

/// The first of the rows that isn't younger than a revision and doesn't stand among the old ones.
pub(crate) fn first_other<'a>(from: u64, old: &[Row], rows: &'a [Row]) -> Option<&'a Row>
    requires { AreRising old.now }
    ensures { FindsOther from old.now rows.now (option_copied result) }
{
    for row in rows {
        if row.rev <= from && !is_kept(old, row) {
            return Some(row);
        }
    }
    None
}

/// The old rows of which none has the key now.
pub(crate) fn gone_rows(alloc: Global, old: &[Row], rows: &[Row]) -> Result<Vec<Row>, Memory>
    requires { AreRising rows.now }
    ensures { IfOk result (λ list. list.items ≡ gone old.now rows.now) }
{
    let mut list = Vec::new(alloc);
    for row in old {
        if row_of(rows, &row.obj.key).is_none() {
            list.push(row.clone()?)?;
        }
    }
    Ok(list)
}
