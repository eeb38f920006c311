//! One requirement of a label selector.

ghost use Rattle.std.specs.Prelude.{◌≡◌, ◌↔◌, ◌||◌, ℕ, List, [], ◌∷◌, ◌++◌, Contains, IfOk, IfSome, IsTrue, OnOk, OnErr, option_copied, bytes_eq};
ghost use Rattle.kube_meta.specs.Labels.{Pairs};
ghost use Rattle.kube_meta.specs.Words.{labels_word, has_bits};
ghost use Rattle.label_select.specs.Values.{HasOneOf, HasAll, is_in};

use kube_meta::{Labels, Memory, Text, label_bits};
use std::alloc::Global;
use std::collections::BTreeSet;
use std::marker::Model;

/// So many values are compared one by one, and more are searched.
const FEW: usize = 8;

/// Values of a label, as they stand in a selector.
#[derive(Debug, Drop)]
pub struct Values {
    texts: Vec<Text>,
    // The same in order, where there are many.
    ordered: Option<BTreeSet<Text>>,
}

impl Model for Values {
    ghost use Rattle.std.specs.Prelude.{ℕ, List, IfSome};
    ghost use Rattle.label_select.specs.Values.{HasAll};

    ghost Value = { List (List ℕ) };

    ghost view = { λ v. v.texts.items };

    ghost invariant = { λ v. IfSome v.ordered (HasAll v.texts.items) };
}

impl Values {
    /// No values.
    pub fn new(alloc: Global) -> Values
        ensures { result ≡ [] }
    {
        Values {
            texts: Vec::new(alloc),
            ordered: None,
        }
    }

    /// Adds a value at the end.
    pub fn push(&mut self, value: Text) -> Result<(), Memory>
        ensures ok { OnOk result (self.new ≡ self.old ++ value ∷ []) }
        ensures err { OnErr result (self.new ≡ self.old) }
    {
        self.ordered = None;
        self.texts.push(value)?;
        Ok(())
    }

    /// One value alone.
    pub fn one(alloc: Global, value: Text) -> Result<Values, Memory>
        ensures { IfOk result (λ values. values ≡ value ∷ []) }
    {
        let mut values = Values::new(alloc);
        values.push(value)?;
        Ok(values)
    }

    /// The same values, put in order where there are many, so that they are searched from now on.
    pub fn searched(self, alloc: Global) -> Result<Values, Memory>
        ensures { IfOk result (λ values. values ≡ self) }
    {
        if self.texts.len() <= FEW {
            return Ok(self);
        }
        let ordered = in_order(alloc, &self.texts)?;
        Ok(Values {
            texts: self.texts,
            ordered: Some(ordered),
        })
    }

    /// Whether `value` is one of them.
    pub fn contain(&self, value: &Text) -> bool
        ensures { IsTrue result ↔ Contains self.now value.now }
    {
        match &self.ordered {
            Some(ordered) => ordered.contains(value),
            None => is_listed(&self.texts, value),
        }
    }

    /// The value, where there is one alone.
    pub fn alone(&self) -> Option<&Text>
        ensures { IfSome result (λ value. self.now ≡ value.now ∷ []) }
    {
        match self.texts.as_slice() {
            [value] => Some(value),
            _ => None,
        }
    }

    /// A copy of the values.
    pub fn copy(&self, alloc: Global) -> Result<Values, Memory>
        ensures { IfOk result (λ copy. copy ≡ self.now) }
    {
        let copy = Values {
            texts: self.texts.clone()?,
            ordered: None,
        };
        copy.searched(alloc)
    }

    /// Whether `other` has the same values in the same order.
    pub fn same(&self, other: &Values) -> bool
        ensures { IsTrue result ↔ (self.now ≡ other.now) }
    {
        self.texts == other.texts
    }
}

// The texts in order.
fn in_order(alloc: Global, texts: &[Text]) -> Result<BTreeSet<Text>, Memory>
    ensures { IfOk result (HasAll texts.now) }
{
    let mut ordered = BTreeSet::new(alloc);
    for text in texts {
        add(&mut ordered, text)?;
    }
    Ok(ordered)
}

fn add(ordered: &mut BTreeSet<Text>, text: &Text) -> Result<(), Memory>
    ensures { OnOk result ((other : List ℕ) → is_in ordered.new other ≡ (is_in ordered.old other || bytes_eq other text.now)) }
{
    let copy = text.clone()?;
    match ordered.insert(copy) {
        Ok(_) => Ok(()),
        Err(_) => Err(Memory),
    }
}

fn is_listed(texts: &[Text], value: &Text) -> bool
    ensures { IsTrue result ↔ Contains texts.now value.now }
{
    for text in texts {
        if text == value {
            return true;
        }
    }
    false
}

/// What a selector asks of the label of one key.
#[derive(Debug, Drop)]
pub enum Requirement {
    /// The label is there.
    Exists(Text),
    /// The label isn't there.
    Absent(Text),
    /// The label is there with one of the values: `=`, `==` and `in`.
    In(Text, Values),
    /// The label isn't there, or has none of the values: `!=` and `notin`.
    NotIn(Text, Values),
}

fn is_one_of(value: Option<&Text>, values: &Values) -> bool
    ensures { IsTrue result ↔ HasOneOf (option_copied value.entry) values.now }
{
    match value {
        Some(value) => values.contain(value),
        None => false,
    }
}

impl Requirement {
    ghost use Rattle.label_select.specs.Meaning.{Holds};

    /// Whether the labels meet it.
    pub fn holds(&self, labels: &Labels) -> bool
        ensures { IsTrue result ↔ Holds labels.now self.now }
    {
        match self {
            Requirement::Exists(key) => labels.get(key.as_str()).is_some(),
            Requirement::Absent(key) => labels.get(key.as_str()).is_none(),
            Requirement::In(key, values) => is_one_of(labels.get(key.as_str()), values),
            Requirement::NotIn(key, values) => !is_one_of(labels.get(key.as_str()), values),
        }
    }

    /// Bits that the word of labels has wherever these meet it: those of a label with the one value that is
    /// asked for, and else none.
    pub fn mask(&self) -> u64
        ensures { (labels : Pairs) → Holds labels self.now → IsTrue (has_bits (labels_word labels) result) }
    {
        match self {
            Requirement::In(key, values) => match values.alone() {
                Some(value) => label_bits(key.as_str(), value.as_str()),
                None => 0,
            },
            _ => 0,
        }
    }

    /// A copy of the requirement.
    pub fn copy(&self, alloc: Global) -> Result<Requirement, Memory>
        ensures { IfOk result (λ copy. copy ≡ self.now) }
    {
        match self {
            Requirement::Exists(key) => Ok(Requirement::Exists(key.clone()?)),
            Requirement::Absent(key) => Ok(Requirement::Absent(key.clone()?)),
            Requirement::In(key, values) => Ok(Requirement::In(key.clone()?, values.copy(alloc)?)),
            Requirement::NotIn(key, values) => {
                Ok(Requirement::NotIn(key.clone()?, values.copy(alloc)?))
            }
        }
    }

    /// Whether `other` asks the same in the same way.
    pub fn same(&self, other: &Requirement) -> bool
        ensures { IsTrue result ↔ (self.now ≡ other.now) }
    {
        match (self, other) {
            (Requirement::Exists(key), Requirement::Exists(other)) => key == other,
            (Requirement::Absent(key), Requirement::Absent(other)) => key == other,
            (Requirement::In(key, values), Requirement::In(other, others)) => {
                key == other && values.same(others)
            }
            (Requirement::NotIn(key, values), Requirement::NotIn(other, others)) => {
                key == other && values.same(others)
            }
            _ => false,
        }
    }
}
