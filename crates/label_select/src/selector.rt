//! Label selectors.

ghost use Rattle.std.specs.Prelude.{◌≡◌, ◌↔◌, List, [], IfOk, IsTrue, Ok};
ghost use Rattle.kube_meta.specs.Labels.{Pairs};
ghost use Rattle.kube_meta.specs.Words.{labels_word, has_bits};
ghost use Rattle.label_select.specs.declared.requirements.Requirement.{Requirement as Asked};
ghost use Rattle.label_select.specs.Grammar.{IsSelector};
ghost use Rattle.label_select.specs.Reading.{selector_of};
ghost use Rattle.label_select.specs.Left.{ReadsRequirements};
ghost use Rattle.label_select.specs.Meaning.{Selects, selects};

use crate::cursor::Cursor;
use crate::reading::requirements_of;
use crate::refusal::LabelNo;
use crate::requirements::Requirement;
use kube_meta::{Labels, Memory};
use std::alloc::Global;
use std::marker::Model;

/// At most so many bytes are read as a selector.
const MOST_BYTES: usize = 8192;

/// A label selector: requirements that all have to hold. Seen in contracts as their list, in the
/// order of the text.
#[derive(Debug, Drop)]
pub struct LabelSel {
    requirements: Vec<Requirement>,
}

impl Model for LabelSel {
    ghost use Rattle.std.specs.Prelude.{List};
    ghost use Rattle.label_select.specs.declared.requirements.Requirement.{Requirement};

    ghost Value = { List Requirement };

    ghost view = { λ s. s.requirements.items };
}

impl LabelSel {
    /// Reads a selector, as the Kubernetes API concepts define label selectors. Requirements are
    /// joined by `,`; each is `key`, `!key`, `key=value`, `key==value`, `key!=value`,
    /// `key in (value,..)` or `key notin (value,..)`. The empty text selects everything.
    pub fn read(alloc: Global, text: &str) -> Result<LabelSel, LabelNo>
        // What is read is in the grammar.
        ensures found { IfOk result (IsSelector text.now) }
        // What is in the grammar is read as what it stands for, unless memory ran out.
        ensures only { (rs : List Asked) → IsSelector text.now rs → ReadsRequirements result (Ok rs) }
        // Any other text is refused with its first fault from the left, unless memory ran out.
        ensures exact { ReadsRequirements result (selector_of text.now) }
    {
        LabelSel::of(alloc, text)
    }

    #[tactic(auto, unfolding(crate::specs::Reading::selector_of, crate::specs::Reading::selector_at))]
    fn of(alloc: Global, text: &str) -> Result<LabelSel, LabelNo>
        ensures { ReadsRequirements result (selector_of text.now) }
    {
        if text.len() > MOST_BYTES {
            return Err(LabelNo::TooLong);
        }
        let mut tokens = Cursor::of(text);
        if tokens.is_done() {
            return Ok(LabelSel {
                requirements: Vec::new(alloc),
            });
        }
        Ok(LabelSel {
            requirements: requirements_of(alloc, &mut tokens)?,
        })
    }

    /// Whether an object with these labels is selected.
    pub fn matches(&self, labels: &Labels) -> bool
        ensures meaning { IsTrue result ↔ Selects self.now labels.now }
        ensures computed { result ≡ selects self.now labels.now }
    {
        all_hold(&self.requirements, labels)
    }

    /// Bits that the word of labels has wherever these are selected: those of each label that has to have one
    /// value.
    pub fn mask(&self) -> u64
        ensures { (labels : Pairs) → Selects self.now labels → IsTrue (has_bits (labels_word labels) result) }
    {
        mask_of(&self.requirements)
    }

    /// Whether there is no requirement, so that everything is selected.
    pub fn is_empty(&self) -> bool
        ensures { IsTrue result ↔ (self.now ≡ []) }
    {
        self.requirements.is_empty()
    }

    /// An equal selector.
    pub fn copy(&self, alloc: Global) -> Result<LabelSel, Memory>
        ensures { IfOk result (λ copy. copy ≡ self.now) }
    {
        let mut requirements = Vec::new(alloc);
        for requirement in &self.requirements {
            requirements.push(requirement.copy(alloc)?)?;
        }
        Ok(LabelSel { requirements })
    }

    /// Whether the two are equal: the same requirements in the same order.
    pub fn same(&self, other: &LabelSel) -> bool
        ensures { IsTrue result ↔ (self.now ≡ other.now) }
    {
        are_same(&self.requirements, &other.requirements)
    }
}

fn are_same(requirements: &[Requirement], others: &[Requirement]) -> bool
    ensures { IsTrue result ↔ (requirements.now ≡ others.now) }
{
    if requirements.len() != others.len() {
        return false;
    }
    for (i, requirement) in requirements.iter().enumerate() {
        if !requirement.same(&others[i]) {
            return false;
        }
    }
    true
}

fn mask_of(requirements: &[Requirement]) -> u64
    ensures { (labels : Pairs) → Selects requirements.now labels → IsTrue (has_bits (labels_word labels) result) }
{
    let mut mask = 0;
    for requirement in requirements {
        mask |= requirement.mask();
    }
    mask
}

fn all_hold(requirements: &[Requirement], labels: &Labels) -> bool
    ensures { IsTrue result ↔ Selects requirements.now labels.now }
{
    for requirement in requirements {
        if !requirement.holds(labels) {
            return false;
        }
    }
    true
}
