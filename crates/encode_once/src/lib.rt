//! A row with what is made of it once and lent to everybody: its JSON, of which the object's two texts are
//! shared and only the digits of the revision are written, the prefix of its key, and the words of its object.
#![tactic(auto)]

mod prefix;
mod sought;

ghost use Rattle.std.specs.Prelude.{◌≡◌, ◌++◌, IfOk, decimal};
ghost use Rattle.kube_meta.specs.Objects.{object_json};
ghost use Rattle.kube_meta.specs.Rows.{key_of};
ghost use Rattle.kube_meta.specs.Words.{fields_word, labels_word};
ghost use Rattle.encode_once.specs.Prefixes.{first_bytes};

use itoa::write_digits;
use kube_meta::{Memory, Row, fields_word, labels_word};
pub use prefix::{KeyPrefix, prefixes_are_in_order};
pub use sought::Sought;
use std::alloc::Global;
use std::marker::Model;
use std::sync::Arc;

/// A row with the text of its revision, so that its JSON can be sent part by part without being
/// copied, with the prefix of its key, so that rows can be searched without a look at their objects, and with
/// the words of its object, so that most rows are passed over without one. Seen in contracts as the row.
#[derive(Debug, Drop)]
pub struct Shown {
    row: Row,
    // The words of the object's labels and of its listed fields. They lie beside the count of those that share the
    // row, which a copy of a page reads anyhow.
    labels: u64,
    fields: u64,
    prefix: KeyPrefix,
    // The digits of the revision stand at the end of 20 bytes, from `start` on.
    digits: [u8; 20],
    start: u8,
}

impl Model for Shown {
    ghost use Rattle.std.specs.Prelude.{◌≡◌, ◌≤◌, decimal, drop};
    ghost use Rattle.kube_meta.specs.Rows.{RowData, key_of};
    ghost use Rattle.kube_meta.specs.Words.{fields_word, labels_word};
    ghost use Rattle.encode_once.specs.Prefixes.{first_bytes};

    ghost Value = { RowData };

    ghost view = { λ s. s.row };

    ghost invariant = { λ s. (s.start ≤ 20) × (drop s.start s.digits ≡ decimal s.row.rev) × (s.prefix.bytes ≡ first_bytes 48 (key_of s.row)) × (s.labels ≡ labels_word s.row.obj.labels) × (s.fields ≡ fields_word s.row.obj.fields) };
}

impl Shown {
    /// The row, to be shared.
    pub fn new(alloc: Global, row: Row) -> Result<Arc<Shown>, Memory>
        ensures { IfOk result (λ shown. shown.value ≡ row) }
    {
        let mut digits = [0; 20];
        let start = write_digits(row.rev, &mut digits, 20) as u8;
        let prefix = KeyPrefix::of(&row.obj.key);
        let labels = labels_word(&row.obj.labels);
        let fields = fields_word(&row.obj.fields);
        let shown = Shown {
            row,
            labels,
            fields,
            prefix,
            digits,
            start,
        };
        Ok(Arc::new(alloc, shown)?)
    }

    /// The row that is shown.
    pub fn row(&self) -> &Row
        ensures { result.now ≡ self.now }
    {
        &self.row
    }

    /// The first bytes of the object's key.
    pub fn prefix(&self) -> &KeyPrefix
        ensures { result.now.bytes ≡ first_bytes 48 (key_of self.now) }
    {
        &self.prefix
    }

    /// The word of the object's labels. The object itself isn't looked at.
    pub fn labels(&self) -> u64
        ensures { result ≡ labels_word self.now.obj.labels }
    {
        self.labels
    }

    /// The word of the object's listed fields. The object itself isn't looked at.
    pub fn fields(&self) -> u64
        ensures { result ≡ fields_word self.now.obj.fields }
    {
        self.fields
    }

    /// The object's JSON up to its revision.
    pub fn front(&self) -> &[u8]
        ensures { result.now ≡ self.now.obj.front }
    {
        self.row.obj.front.as_str().as_bytes()
    }

    /// The decimal digits of the revision.
    pub fn digits(&self) -> &[u8]
        ensures { result.now ≡ decimal self.now.rev }
    {
        self.digits.split_at(usize::from(self.start)).1
    }

    /// The object's JSON after its revision. `front`, `digits` and `back`, one after the other, are
    /// the JSON of the object at the row's revision.
    pub fn back(&self) -> &[u8]
        ensures parts { result.now ≡ self.now.obj.back }
        ensures whole { self.now.obj.front ++ decimal self.now.rev ++ result.now ≡ object_json self.now.obj self.now.rev }
    {
        self.row.obj.back.as_str().as_bytes()
    }
}
