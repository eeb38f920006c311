//! Selections, and what a change is to them.

ghost use Rattle.std.specs.Prelude.{◌≡◌, ◌↔◌, IfOk, IsTrue, Ok, option_copied};
ghost use Rattle.select_all.specs.declared.selection.Selection.{Selection as Asked};
ghost use Rattle.select_all.specs.Reading.{IsRead, ReadsSelection, selection_of, label_refusal, field_refusal};
ghost use Rattle.select_all.specs.Masks.{IsMaskOf};
ghost use Rattle.select_all.specs.Selecting.{Selects, is_within, selects, holds, kind_of_change, told_of};

use field_select::{FieldNo, FieldSel};
use kube_meta::{Key, Mask, Memory, Obj, Resource, Text};
use label_select::{LabelNo, LabelSel};
use std::alloc::Global;

/// Which objects a list or a watch is of: those of a resource, in one namespace or in all, that a
/// label selector and a field selector both select.
#[derive(Debug, Drop)]
pub struct Selection {
    pub resource: Resource,
    pub ns: Option<Text>,
    pub labels: LabelSel,
    pub fields: FieldSel,
}

/// Why two texts are no selectors of a resource.
#[derive(Clone, Copy, Debug, PartialEq, Eq)]
pub enum SelNo {
    /// The label selector is refused.
    Label(LabelNo),
    /// The label selector is read, and the field selector is refused.
    Field(FieldNo),
    /// There was no memory for the selection.
    Memory,
}

/// What a change of an object is to a watch, as the Kubernetes API concepts name watch events.
#[derive(Clone, Copy, Debug, PartialEq, Eq)]
pub enum Kind {
    /// `ADDED`: the object is selected now and wasn't before.
    Added,
    /// `MODIFIED`: it was selected before and is now.
    Modified,
    /// `DELETED`: it was selected before and isn't now, or is removed.
    Deleted,
}

impl Kind {
    /// Which of the two a change of this kind tells: of a deletion what was there before, since what is
    /// there now isn't selected, and otherwise what is there now.
    pub fn told<T: Copy>(self, before: T, now: T) -> T
        ensures { result ≡ told_of self before now }
    {
        match self {
            Kind::Added | Kind::Modified => now,
            Kind::Deleted => before,
        }
    }
}

/// At which revision a list may be answered, as `resourceVersion` and `resourceVersionMatch` of the
/// Kubernetes API concepts say.
#[derive(Clone, Copy, Debug, PartialEq, Eq)]
pub enum Meaning {
    /// At the newest.
    MostRecent,
    /// At any.
    Any,
    /// At this one or a newer one.
    NotOlder(u64),
    /// At this one alone.
    Exact(u64),
}

fn label_refusal(fault: LabelNo) -> SelNo
    ensures { result ≡ label_refusal fault }
{
    match fault {
        LabelNo::Memory => SelNo::Memory,
        fault => SelNo::Label(fault),
    }
}

fn field_refusal(fault: FieldNo) -> SelNo
    ensures { result ≡ field_refusal fault }
{
    match fault {
        FieldNo::Memory => SelNo::Memory,
        fault => SelNo::Field(fault),
    }
}

impl Selection {
    /// The selection of objects of `resource`, in `ns` where that is given, by the texts of a label
    /// selector and a field selector (`labelSelector` and `fieldSelector` of the Kubernetes API
    /// concepts). The label text is read first.
    pub fn read(
        alloc: Global,
        resource: Resource,
        ns: Option<Text>,
        label: &str,
        field: &str,
    ) -> Result<Selection, SelNo>
        // What is read is in the grammars.
        ensures found { IfOk result (IsRead resource ns label.now field.now) }
        // What is in the grammars is read as what it stands for, unless memory ran out.
        ensures only { (s : Asked) → IsRead resource ns label.now field.now s → ReadsSelection result (Ok s) }
        // Any other texts are refused with the first fault of the label text or, where that is read, of
        // the field text, unless memory ran out.
        ensures exact { ReadsSelection result (selection_of resource ns label.now field.now) }
    {
        let labels = match LabelSel::read(alloc, label) {
            Ok(labels) => labels,
            Err(fault) => return Err(label_refusal(fault)),
        };
        let fields = match FieldSel::read(alloc, field, resource) {
            Ok(fields) => fields,
            Err(fault) => return Err(field_refusal(fault)),
        };
        Ok(Selection {
            resource,
            ns,
            labels,
            fields,
        })
    }

    /// Whether the object, one of the selection's resource, is selected.
    pub fn selects(&self, obj: &Obj) -> bool
        ensures meaning { IsTrue result ↔ Selects self.now obj.now }
        ensures computed { result ≡ selects self.now obj.now }
    {
        is_within(&self.ns, &obj.key)
            && self.labels.matches(&obj.labels)
            && self.fields.matches(&obj.fields, &obj.key)
    }

    /// Bits that the words of each selected object have: those of each label and each listed field that has to
    /// have one value.
    pub fn mask(&self) -> Mask
        ensures { IsMaskOf self.now result }
    {
        Mask {
            labels: self.labels.mask(),
            fields: self.fields.mask(),
        }
    }

    /// What a change from `old` to `new` is to a watch of the selection; `None` where neither is
    /// selected. An object that isn't there isn't selected.
    pub fn passes(&self, old: Option<&Obj>, new: Option<&Obj>) -> Option<Kind>
        ensures { result ≡ kind_of_change (holds self.now (option_copied old.entry)) (holds self.now (option_copied new.entry)) }
    {
        match (self.holds(old), self.holds(new)) {
            (false, false) => None,
            (false, true) => Some(Kind::Added),
            (true, true) => Some(Kind::Modified),
            (true, false) => Some(Kind::Deleted),
        }
    }

    fn holds(&self, obj: Option<&Obj>) -> bool
        ensures { result ≡ holds self.now (option_copied obj.entry) }
    {
        match obj {
            Some(obj) => self.selects(obj),
            None => false,
        }
    }

    /// An equal selection.
    pub fn copy(&self, alloc: Global) -> Result<Selection, Memory>
        ensures { IfOk result (λ copy. copy ≡ self.now) }
    {
        let ns = match &self.ns {
            Some(ns) => Some(ns.clone()?),
            None => None,
        };
        Ok(Selection {
            resource: self.resource,
            ns,
            labels: self.labels.copy(alloc)?,
            fields: self.fields.copy(alloc)?,
        })
    }

    /// Whether the two are equal: the same resource and namespace, and equal selectors.
    pub fn same(&self, other: &Selection) -> bool
        ensures { IsTrue result ↔ (self.now ≡ other.now) }
    {
        self.resource == other.resource
            && same_namespace(&self.ns, &other.ns)
            && self.labels.same(&other.labels)
            && self.fields.same(&other.fields)
    }
}

fn is_within(ns: &Option<Text>, key: &Key) -> bool
    ensures { result ≡ is_within ns.now key.now }
{
    match ns {
        Some(ns) => key.is_in(ns.as_str()),
        None => true,
    }
}

fn same_namespace(ns: &Option<Text>, other: &Option<Text>) -> bool
    ensures { IsTrue result ↔ (ns.now ≡ other.now) }
{
    match (ns, other) {
        (Some(ns), Some(other)) => ns == other,
        (None, None) => true,
        _ => false,
    }
}
