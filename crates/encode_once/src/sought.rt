//! Keys that are looked for among rows.

ghost use Rattle.std.specs.Prelude.{◌≡◌};
ghost use Rattle.std.specs.Cmp.Lexicographic.{slice_cmp};
ghost use Rattle.std.specs.Ordering.{nat_cmp};
ghost use Rattle.kube_meta.specs.Rows.{key_of};
ghost use Rattle.encode_once.specs.Prefixes.{first_bytes};

use crate::{KeyPrefix, Shown};
use kube_meta::Key;
use std::cmp::Ordering;
use std::marker::Model;

/// A key that is looked for, with its prefix. Seen in contracts as the key.
#[derive(Drop)]
pub struct Sought<'a> {
    key: &'a Key,
    prefix: KeyPrefix,
}

impl<'a> Model for Sought<'a> {
    ghost use Rattle.std.specs.Prelude.{◌≡◌, ℕ, List};
    ghost use Rattle.encode_once.specs.Prefixes.{first_bytes};

    ghost Value = { List ℕ };

    ghost view = { λ s. s.key.now };

    ghost invariant = { λ s. s.prefix.bytes ≡ first_bytes 48 s.key.now };
}

impl<'a> Sought<'a> {
    /// A key, to be looked for.
    pub fn new(key: &'a Key) -> Sought<'a>
        ensures { result ≡ key.now }
    {
        Sought {
            key,
            prefix: KeyPrefix::of(key),
        }
    }

    /// The first bytes of the key.
    pub fn prefix(&self) -> &KeyPrefix
        ensures { result.now.bytes ≡ first_bytes 48 self.now }
    {
        &self.prefix
    }
}

impl Shown {
    /// The row's key, to be looked for among other rows.
    pub fn sought(&self) -> Sought<'_>
        ensures { result ≡ key_of self.now }
    {
        Sought {
            key: &self.row().obj.key,
            prefix: *self.prefix(),
        }
    }

    /// How the row's key stands to one that is looked for. The object itself is looked at only where the
    /// prefixes are equal.
    pub fn key_order(&self, sought: &Sought<'_>) -> Ordering
        ensures { result ≡ slice_cmp nat_cmp (key_of self.now) sought.now }
    {
        match self.prefix().order(&sought.prefix) {
            Ordering::Equal => self.row().obj.key.cmp(sought.key),
            order => order,
        }
    }
}
