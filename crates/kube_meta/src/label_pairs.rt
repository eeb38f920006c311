//! The labels of an object.

ghost use Rattle.std.specs.Prelude.{◌≡◌, ◌↔◌, [], length, IsTrue, IfOk, IfErr, OnOk, OnErr, option_copied};
ghost use Rattle.std.specs.Cmp.Lexicographic.{slice_cmp};
ghost use Rattle.std.specs.Ordering.{nat_cmp};
ghost use Rattle.kube_meta.specs.Labels.{value_at, AreSorted, PutsOnly, IsAt, IsGapFor};

use crate::{Memory, Text};
use std::alloc::Global;
use std::cmp::Ordering;
use std::marker::Model;

/// The labels of an object: a finite map from names to values, seen in contracts as the list of its
/// pairs, strictly sorted by the names' bytes.
#[derive(Debug, Drop)]
pub struct Labels {
    pairs: Vec<(Text, Text)>,
}

impl Model for Labels {
    ghost use Rattle.kube_meta.specs.Labels.{Pairs, AreSorted};

    ghost Value = { Pairs };

    ghost view = { λ l. l.pairs.items };

    ghost invariant = { λ l. AreSorted l.pairs.items };
}

impl Labels {
    /// No labels.
    pub fn new(alloc: Global) -> Labels
        ensures { result ≡ [] }
    {
        Labels {
            pairs: Vec::new(alloc),
        }
    }

    /// No labels, and room for so many.
    pub fn with_capacity(alloc: Global, capacity: usize) -> Result<Labels, Memory>
        ensures { IfOk result (λ labels. labels ≡ []) }
    {
        Ok(Labels {
            pairs: Vec::with_capacity(alloc, capacity)?,
        })
    }

    /// Sets the value of the label `name`, and answers the one that stood there.
    pub fn put(&mut self, name: Text, value: Text) -> Result<Option<Text>, Memory>
        ensures old { IfOk result (λ old. old ≡ value_at self.old name) }
        ensures ok { OnOk result (PutsOnly self.old self.new name value) }
        ensures err { OnErr result (self.new ≡ self.old) }
    {
        match self.place(name.as_str()) {
            Ok(at) => Ok(Some(std::mem::replace(&mut self.pairs[at].1, value))),
            Err(at) => {
                self.pairs.insert(at, (name, value))?;
                Ok(None)
            }
        }
    }

    /// The value of the label `name`, if there is one.
    pub fn get(&self, name: &str) -> Option<&Text>
        ensures { option_copied result ≡ value_at self.now name.now }
    {
        // Names of another length are passed over unread, so a walk reads less memory than a search by halves.
        for (known, value) in &self.pairs {
            if known.as_str() == name {
                return Some(value);
            }
        }
        None
    }

    /// How many labels there are.
    pub fn len(&self) -> usize
        ensures { result ≡ length self.now }
    {
        self.pairs.len()
    }

    /// Whether there are none.
    pub fn is_empty(&self) -> bool
        ensures { IsTrue result ↔ (self.now ≡ []) }
    {
        self.pairs.is_empty()
    }

    /// The pairs of a name and a value, in the order of the names.
    pub fn pairs(&self) -> &[(Text, Text)]
        ensures all { result.now ≡ self.now }
        ensures sorted { AreSorted self.now }
    {
        &self.pairs
    }

    // Where the name is, or where it would go.
    fn place(&self, name: &str) -> Result<usize, usize>
        ensures found { IfOk result (IsAt self.now name.now) }
        ensures absent { IfErr result (IsGapFor self.now name.now) }
    {
        self.pairs
            .binary_search_by(|pair| pair.0.as_str().cmp(&name))
    }
}

impl Clone for Labels {
    ghost use Rattle.std.specs.Prelude.{◌≡◌};

    ghost is_clone = { λ labels copy. copy ≡ labels };

    fn clone(&self) -> Result<Labels, Memory> {
        Ok(Labels {
            pairs: self.pairs.clone()?,
        })
    }
}
