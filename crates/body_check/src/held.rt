//! Later lists that a body has passed.

ghost use Rattle.std.specs.Prelude.{◌≡◌, ◌↔◌, IsTrue};
ghost use Rattle.std.specs.BTreeMap.{values};
ghost use Rattle.body_check.specs.Turns.{PassesTo};

use crate::same::same_obj;
use kube_meta::Row;
use rev_log::Rows;
use watch_record::LaterList;

/// The later lists that a walk hasn't passed yet; or the place of the first that isn't what stood at its revision.
#[derive(Clone, Copy)]
pub enum Held<'a> {
    /// These are left.
    Left(&'a [LaterList]),
    /// This one is another.
    Bad(u64),
}

/// Passes the lists below a revision, where these rows stand up to it.
pub(crate) fn pass<'a>(left: &'a [LaterList], rows: &Rows, below: u64) -> Held<'a>
    ensures { PassesTo (values rows.now) below left.now result }
{
    for (n, list) in left.iter().enumerate() {
        if below <= list.at {
            return Held::Left(&left[n..]);
        }
        if !are_all(&list.rows, rows) {
            return Held::Bad(list.place);
        }
    }
    Held::Left(&left[left.len()..])
}

// Whether the rows of a list are exactly those that stand, in the order of their keys.
fn are_all(list: &[Row], rows: &Rows) -> bool
    ensures { IsTrue result ↔ (list.now ≡ values rows.now) }
{
    let mut left = list;
    for stands in rows.values() {
        let [first, more @ ..] = left else {
            return false;
        };
        if !same_row(first, stands) {
            return false;
        }
        left = more;
    }
    left.is_empty()
}

// Whether two rows are the same.
fn same_row(a: &Row, b: &Row) -> bool
    ensures { IsTrue result ↔ (a.now ≡ b.now) }
{
    a.rev == b.rev && same_obj(&a.obj, &b.obj)
}
