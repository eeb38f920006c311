//! Objects and rows, as they are kept.

ghost use Rattle.std.specs.Prelude.{◌≤◌, length};

use crate::{Fields, Key, Labels, Memory, Text};
use std::marker::Model;
use std::sync::Arc;

/// An object as it is kept: what selectors read of it, and its JSON with a gap where its revision
/// stands. The JSON at revision `r` is `front`, the decimal digits of `r`, and `back`. The JSON of
/// its metadata is `front` from the byte `meta_from` on, the digits, and the first `meta_to` bytes
/// of `back`.
#[derive(Debug, Drop)]
pub struct Obj {
    pub key: Key,
    pub labels: Labels,
    pub fields: Fields,
    pub front: Text,
    pub back: Text,
    pub meta_from: usize,
    pub meta_to: usize,
    ghost from_in_front: { meta_from ≤ length front },
    ghost to_in_back: { meta_to ≤ length back },
}

/// An object as it stands in a state: with the revision at which it was written. Contracts see the
/// object itself in place of the shared pointer to it.
#[derive(Debug, Drop)]
pub struct Row {
    pub obj: Arc<Obj>,
    pub rev: u64,
}

impl Model for Row {
    ghost use Rattle.kube_meta.specs.Rows.{RowData};

    ghost Value = { RowData };

    ghost view = { λ r. record { obj = r.obj.value; rev = r.rev } };
}

impl Clone for Row {
    ghost use Rattle.std.specs.Prelude.{◌≡◌};

    ghost is_clone = { λ row copy. copy ≡ row };

    fn clone(&self) -> Result<Row, Memory> {
        Ok(Row {
            obj: self.obj.clone()?,
            rev: self.rev,
        })
    }
}

impl Clone for Obj {
    ghost use Rattle.std.specs.Prelude.{◌≡◌};

    ghost is_clone = { λ obj copy. copy ≡ obj };

    fn clone(&self) -> Result<Obj, Memory> {
        Ok(Obj {
            key: self.key.clone()?,
            labels: self.labels.clone()?,
            fields: self.fields.clone()?,
            front: self.front.clone()?,
            back: self.back.clone()?,
            meta_from: self.meta_from,
            meta_to: self.meta_to,
        })
    }
}
