//! Texts that are kept.

ghost use Rattle.std.specs.Prelude.{◌≡◌, IfOk, nat_eq, string_bytes};
ghost use Rattle.std.proofs.Common.{rules};
ghost use Rattle.std.specs.Cmp.{partial_order_from_own_ties};
ghost use Rattle.std.specs.Cmp.Lexicographic.{pointwise, slice_cmp};
ghost use Rattle.std.specs.Cmp.Rules.{comparing};
ghost use Rattle.std.specs.Ordering.{nat_cmp, as_partial_cmp};

use crate::Memory;
use arrayvec::ArrayString;
use std::alloc::Global;
use std::cmp::Ordering;
use std::fmt;
use std::marker::Model;

// The most bytes of a text that is kept in place. Names and values of labels have seldom more.
const SHORT: usize = 24;

/// A text that is kept: UTF-8, seen in contracts as the list of its bytes. Texts are compared byte
/// by byte. A short one lies in the value itself, so that it takes no memory of its own, and no look
/// at another place when it is read.
#[derive(Drop)]
pub struct Text {
    held: Held,
}

// Where a text lies.
#[derive(Drop)]
enum Held {
    Short(Global, ArrayString<SHORT>),
    Long(String),
}

impl Model for Text {
    ghost use Rattle.std.specs.Prelude.{ℕ, List};
    ghost use Rattle.kube_meta.specs.Texts.{bytes_of};

    ghost Value = { List ℕ };

    ghost view = { λ t. bytes_of t.held };
}

impl Text {
    /// A copy of `text`.
    pub fn new(alloc: Global, text: &str) -> Result<Text, Memory>
        ensures { IfOk result (λ t. t ≡ text.now) }
    {
        let held = match ArrayString::from(text) {
            Ok(short) => Held::Short(alloc, short),
            Err(_) => Held::Long(String::from_str(alloc, text)?),
        };
        Ok(Text { held })
    }

    /// The text that `text` holds, with no copy.
    pub fn from_string(text: String) -> Text
        ensures { result ≡ string_bytes text }
    {
        Text {
            held: Held::Long(text),
        }
    }

    /// The text, lent.
    pub fn as_str(&self) -> &str
        ensures { result.now ≡ self.now }
    {
        match &self.held {
            Held::Short(_, text) => text.as_str(),
            Held::Long(text) => text.as_str(),
        }
    }

    /// A copy of the text as a `String`.
    pub fn to_string(&self) -> Result<String, Memory>
        ensures { IfOk result (λ text. string_bytes text ≡ self.now) }
    {
        match &self.held {
            Held::Short(alloc, text) => Ok(String::from_str(*alloc, text.as_str())?),
            Held::Long(text) => Ok(text.clone()?),
        }
    }
}

impl Clone for Text {
    ghost is_clone = { λ text copy. copy ≡ text };

    fn clone(&self) -> Result<Text, Memory> {
        let held = match &self.held {
            Held::Short(alloc, text) => Held::Short(*alloc, *text),
            Held::Long(text) => Held::Long(text.clone()?),
        };
        Ok(Text { held })
    }
}

impl fmt::Debug for Text {
    fn fmt<W: fmt::Write>(&self, f: &mut fmt::Formatter<W>) -> fmt::Result {
        fmt::Debug::fmt(&self.as_str(), f)
    }
}

impl PartialEq for Text {
    ghost eq = { pointwise nat_eq };

    ghost laws = { Prim.search (comparing, rules) };

    fn eq(&self, other: &Text) -> bool {
        self.as_str() == other.as_str()
    }
}

impl Eq for Text {
    ghost laws = { Prim.search (comparing, rules) };
}

impl PartialOrd for Text {
    ghost partial_cmp = { as_partial_cmp (slice_cmp nat_cmp) };

    ghost laws = { partial_order_from_own_ties (Prim.search (comparing, rules)) (Prim.search (comparing, rules)) };

    fn partial_cmp(&self, other: &Text) -> Option<Ordering> {
        Some(self.cmp(other))
    }
}

impl Ord for Text {
    ghost cmp = { slice_cmp nat_cmp };

    ghost total = { Prim.search (comparing, rules) };

    ghost matches_partial_cmp = { Prim.search (comparing, rules) };

    ghost matches_eq = { Prim.search (comparing, rules) };

    fn cmp(&self, other: &Text) -> Ordering {
        self.as_str().cmp(&other.as_str())
    }
}
