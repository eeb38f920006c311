//! Field selectors.

ghost use Rattle.std.specs.Prelude.{◌≡◌, ◌↔◌, ℕ, List, [], IfOk, IsTrue, Ok, option_copied};
ghost use Rattle.kube_meta.specs.Words.{fields_word, has_bits};
ghost use Rattle.field_select.specs.declared.terms.Term.{Term as Asked};
ghost use Rattle.field_select.specs.Grammar.{IsSelector};
ghost use Rattle.field_select.specs.Reading.{selector_of};
ghost use Rattle.field_select.specs.Left.{ReadsTerms};
ghost use Rattle.field_select.specs.Meaning.{Selects, selects, wanted, wanted_name};

use crate::reading::terms_of;
use crate::refusal::FieldNo;
use crate::terms::Term;
use kube_meta::{Fields, Key, Memory, Resource};
use std::alloc::Global;
use std::marker::Model;

/// At most so many bytes are read as a selector.
const MOST_BYTES: usize = 8192;

/// A field selector: terms that all have to hold. Seen in contracts as their list, in the order of
/// the text.
#[derive(Debug, Drop)]
pub struct FieldSel {
    terms: Vec<Term>,
}

impl Model for FieldSel {
    ghost use Rattle.std.specs.Prelude.{List};
    ghost use Rattle.field_select.specs.declared.terms.Term.{Term};

    ghost Value = { List Term };

    ghost view = { λ s. s.terms.items };
}

impl FieldSel {
    /// Reads a selector of objects of `resource`, as the Kubernetes API concepts define field
    /// selectors. Terms are joined by `,`, and empty ones are passed over; each is `field=value`,
    /// `field==value` or `field!=value`, where `\\`, `\,` and `\=` in the value stand for `\`, `,`
    /// and `=`. The fields are `metadata.name`, `metadata.namespace` and the listed fields of the
    /// resource. The empty text selects everything.
    pub fn read(alloc: Global, text: &str, resource: Resource) -> Result<FieldSel, FieldNo>
        // What is read is in the grammar.
        ensures found { IfOk result (IsSelector resource text.now) }
        // What is in the grammar is read as what it stands for, unless memory ran out.
        ensures only { (terms : List Asked) → IsSelector resource text.now terms → ReadsTerms result (Ok terms) }
        // Any other text is refused with its first fault from the left, unless memory ran out.
        ensures exact { ReadsTerms result (selector_of resource text.now) }
    {
        FieldSel::of(alloc, text, resource)
    }

    #[tactic(auto, unfolding(crate::specs::Reading::selector_of))]
    fn of(alloc: Global, text: &str, resource: Resource) -> Result<FieldSel, FieldNo>
        ensures { ReadsTerms result (selector_of resource text.now) }
    {
        if text.len() > MOST_BYTES {
            return Err(FieldNo::TooLong);
        }
        Ok(FieldSel {
            terms: terms_of(alloc, text, resource)?,
        })
    }

    /// Whether an object with these listed fields and this key is selected.
    pub fn matches(&self, fields: &Fields, key: &Key) -> bool
        ensures meaning { IsTrue result ↔ Selects self.now fields.now key.now }
        ensures computed { result ≡ selects self.now fields.now key.now }
    {
        all_hold(&self.terms, fields, key)
    }

    /// Bits that the word of listed fields has wherever these are selected: those of each listed field that has
    /// to have one value.
    pub fn mask(&self) -> u64
        ensures { (fields : List (List ℕ)) (key : List ℕ) → Selects self.now fields key → IsTrue (has_bits (fields_word fields) result) }
    {
        mask_of(&self.terms)
    }

    /// Whether there is no term, so that everything is selected.
    pub fn is_empty(&self) -> bool
        ensures { IsTrue result ↔ (self.now ≡ []) }
    {
        self.terms.is_empty()
    }

    /// The value that the listed field at place `i` has to have: that of the first term on it with
    /// `=` or `==`.
    pub fn wanted(&self, i: usize) -> Option<&str>
        ensures { option_copied result ≡ wanted self.now i }
    {
        for term in &self.terms {
            if term.asks_for(i) {
                return Some(term.value.as_str());
            }
        }
        None
    }

    /// The name that an object has to have: the value of the first term on `metadata.name` with `=` or
    /// `==`.
    pub fn wanted_name(&self) -> Option<&str>
        ensures { option_copied result ≡ wanted_name self.now }
    {
        for term in &self.terms {
            if term.asks_name() {
                return Some(term.value.as_str());
            }
        }
        None
    }

    /// An equal selector.
    pub fn copy(&self, alloc: Global) -> Result<FieldSel, Memory>
        ensures { IfOk result (λ copy. copy ≡ self.now) }
    {
        let mut terms = Vec::new(alloc);
        for term in &self.terms {
            terms.push(term.copy()?)?;
        }
        Ok(FieldSel { terms })
    }

    /// Whether the two are equal: the same terms in the same order.
    pub fn same(&self, other: &FieldSel) -> bool
        ensures { IsTrue result ↔ (self.now ≡ other.now) }
    {
        are_same(&self.terms, &other.terms)
    }
}

fn are_same(terms: &[Term], others: &[Term]) -> bool
    ensures { IsTrue result ↔ (terms.now ≡ others.now) }
{
    if terms.len() != others.len() {
        return false;
    }
    for (i, term) in terms.iter().enumerate() {
        if !term.same(&others[i]) {
            return false;
        }
    }
    true
}

fn mask_of(terms: &[Term]) -> u64
    ensures { (fields : List (List ℕ)) (key : List ℕ) → Selects terms.now fields key → IsTrue (has_bits (fields_word fields) result) }
{
    let mut mask = 0;
    for term in terms {
        mask |= term.mask();
    }
    mask
}

fn all_hold(terms: &[Term], fields: &Fields, key: &Key) -> bool
    ensures { IsTrue result ↔ Selects terms.now fields.now key.now }
{
    for term in terms {
        if !term.holds(fields, key) {
            return false;
        }
    }
    true
}
