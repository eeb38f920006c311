//! Whether two objects are the same.

ghost use Rattle.std.specs.Prelude.{◌≡◌, ◌↔◌, IsTrue};

use kube_meta::{Fields, Labels, Obj};

/// Whether two objects are the same, to the byte.
pub(crate) fn same_obj(a: &Obj, b: &Obj) -> bool
    ensures { IsTrue result ↔ (a.now ≡ b.now) }
{
    if a.key != b.key || a.front != b.front || a.back != b.back {
        return false;
    }
    if !same_labels(&a.labels, &b.labels) || !same_fields(&a.fields, &b.fields) {
        return false;
    }
    a.meta_from == b.meta_from && a.meta_to == b.meta_to
}

// Whether the labels are the same.
fn same_labels(a: &Labels, b: &Labels) -> bool
    ensures { IsTrue result ↔ (a.now ≡ b.now) }
{
    a.pairs() == b.pairs()
}

// Whether the values of the fields are the same.
fn same_fields(a: &Fields, b: &Fields) -> bool
    ensures { IsTrue result ↔ (a.now ≡ b.now) }
{
    if a.len() != b.len() {
        return false;
    }
    for i in 0..a.len() {
        if a.get(i) != b.get(i) {
            return false;
        }
    }
    true
}
