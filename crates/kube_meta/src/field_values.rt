//! The values of the fields by which objects are selected.

ghost use Rattle.std.specs.Prelude.{◌≡◌, ◌↔◌, [], length, IsTrue, option_copied, slice_get};

use crate::{Memory, Text};
use std::marker::Model;

/// The values of the fields by which a resource is selected beside name and namespace, in the order
/// of `Resource::listed_fields`. The value of a field that the object lacks is the empty text. Seen
/// in contracts as the list of the texts.
#[derive(Debug, Drop)]
pub struct Fields {
    values: Vec<Text>,
}

impl Model for Fields {
    ghost use Rattle.std.specs.Prelude.{ℕ, List};

    ghost Value = { List (List ℕ) };

    ghost view = { λ f. f.values.items };
}

impl Fields {
    /// The fields with these values.
    pub fn new(values: Vec<Text>) -> Fields
        ensures { result ≡ values.items }
    {
        Fields { values }
    }

    /// The value at place `i`, if there are so many fields.
    pub fn get(&self, i: usize) -> Option<&Text>
        ensures { option_copied result ≡ slice_get self.now i }
    {
        self.values.get(i)
    }

    /// How many fields there are.
    pub fn len(&self) -> usize
        ensures { result ≡ length self.now }
    {
        self.values.len()
    }

    /// Whether there are none.
    pub fn is_empty(&self) -> bool
        ensures { IsTrue result ↔ (self.now ≡ []) }
    {
        self.values.is_empty()
    }
}

impl Clone for Fields {
    ghost use Rattle.std.specs.Prelude.{◌≡◌};

    ghost is_clone = { λ fields copy. copy ≡ fields };

    fn clone(&self) -> Result<Fields, Memory> {
        Ok(Fields {
            values: self.values.clone()?,
        })
    }
}
