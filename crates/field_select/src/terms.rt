//! One term of a field selector.

ghost use Rattle.std.specs.Prelude.{◌≡◌, ◌↔◌, ℕ, List, IfOk, IsTrue};
ghost use Rattle.kube_meta.specs.Words.{fields_word, has_bits};
ghost use Rattle.field_select.specs.Meaning.{asks_for, asks_name, is_listed, is_name, value_of};

use kube_meta::{Fields, Key, Memory, Text, field_bits};

/// A field by which objects are selected.
#[derive(Clone, Copy, Debug)]
pub enum Field {
    /// `metadata.name`
    Name,
    /// `metadata.namespace`
    Namespace,
    /// The field at this place of the resource's listed fields.
    Listed(usize),
}

/// What a selector asks of one field.
#[derive(Debug, Drop)]
pub struct Term {
    pub field: Field,
    /// Whether the value has to be the given one, or any other.
    pub equal: bool,
    pub value: Text,
}

/// The value of a field of an object; that of a listed field that isn't there is empty.
fn value_of<'a>(field: Field, fields: &'a Fields, key: &'a Key) -> &'a str
    ensures { result.now ≡ value_of fields.now key.now field }
{
    match field {
        Field::Name => key.name(),
        Field::Namespace => key.ns(),
        Field::Listed(i) => match fields.get(i) {
            Some(value) => value.as_str(),
            None => "",
        },
    }
}

impl Field {
    /// Whether it is the listed field at place `i`.
    pub fn is_listed(self, i: usize) -> bool
        ensures { result ≡ is_listed i self }
    {
        match self {
            Field::Listed(place) => place == i,
            Field::Name | Field::Namespace => false,
        }
    }

    /// Whether it is the object's name.
    pub fn is_name(self) -> bool
        ensures { result ≡ is_name self }
    {
        matches!(self, Field::Name)
    }

    /// Whether the two are the same field.
    pub fn same(self, other: Field) -> bool
        ensures { IsTrue result ↔ (self ≡ other) }
    {
        match (self, other) {
            (Field::Name, Field::Name) | (Field::Namespace, Field::Namespace) => true,
            (Field::Listed(i), Field::Listed(k)) => i == k,
            _ => false,
        }
    }
}

impl Term {
    ghost use Rattle.field_select.specs.Meaning.{Holds};

    /// Whether an object with these listed fields and this key meets it.
    pub fn holds(&self, fields: &Fields, key: &Key) -> bool
        ensures { IsTrue result ↔ Holds fields.now key.now self.now }
    {
        if self.equal {
            value_of(self.field, fields, key) == self.value.as_str()
        } else {
            value_of(self.field, fields, key) != self.value.as_str()
        }
    }

    /// Whether the listed field at place `i` has to have the value.
    pub fn asks_for(&self, i: usize) -> bool
        ensures { result ≡ asks_for i self.now }
    {
        self.equal && self.field.is_listed(i)
    }

    /// Whether the object's name has to be the value.
    pub fn asks_name(&self) -> bool
        ensures { result ≡ asks_name self.now }
    {
        self.equal && self.field.is_name()
    }

    /// Bits that the word of listed fields has wherever the term holds: those of a listed field with the value
    /// that it has to have, and else none.
    pub fn mask(&self) -> u64
        ensures { (fields : List (List ℕ)) (key : List ℕ) → Holds fields key self.now → IsTrue (has_bits (fields_word fields) result) }
    {
        if !self.equal {
            return 0;
        }
        match self.field {
            Field::Listed(place) => field_bits(place, self.value.as_str()),
            Field::Name | Field::Namespace => 0,
        }
    }

    /// A copy of the term.
    pub fn copy(&self) -> Result<Term, Memory>
        ensures { IfOk result (λ copy. copy ≡ self.now) }
    {
        Ok(Term {
            field: self.field,
            equal: self.equal,
            value: self.value.clone()?,
        })
    }

    /// Whether `other` asks the same.
    pub fn same(&self, other: &Term) -> bool
        ensures { IsTrue result ↔ (self.now ≡ other.now) }
    {
        self.field.same(other.field) && self.equal == other.equal && self.value == other.value
    }
}
