//! What is told of selectors that are refused.

ghost use Rattle.std.specs.Prelude.{◌≡◌, IfOk};
ghost use Rattle.api_errors.specs.Selectors as spec;

use crate::Failure;
use crate::failures::{bad, bad_at};
use field_select::FieldNo;
use kube_meta::Memory;
use label_select::LabelNo;
use select_all::SelNo;
use std::alloc::Global;

pub(crate) fn selector_told(alloc: Global, fault: SelNo) -> Result<Option<Failure>, Memory>
    ensures { IfOk result (λ told. told ≡ spec.selector_told fault) }
{
    match fault {
        SelNo::Label(fault) => label_told(alloc, fault),
        SelNo::Field(fault) => field_told(alloc, fault),
        SelNo::Memory => Ok(None),
    }
}

fn label_told(alloc: Global, fault: LabelNo) -> Result<Option<Failure>, Memory>
    ensures { IfOk result (λ told. told ≡ spec.label_told fault) }
{
    match fault {
        LabelNo::Syntax { at } => bad_at(alloc, "labelSelector: Syntax at ", at as u64),
        LabelNo::BadKey { at } => bad_at(alloc, "labelSelector: BadKey at ", at as u64),
        LabelNo::BadValue { at } => bad_at(alloc, "labelSelector: BadValue at ", at as u64),
        LabelNo::EmptySet { at } => bad_at(alloc, "labelSelector: EmptySet at ", at as u64),
        LabelNo::TooLong => bad(alloc, "labelSelector: TooLong"),
        LabelNo::Memory => Ok(None),
    }
}

fn field_told(alloc: Global, fault: FieldNo) -> Result<Option<Failure>, Memory>
    ensures { IfOk result (λ told. told ≡ spec.field_told fault) }
{
    match fault {
        FieldNo::Syntax { at } => bad_at(alloc, "fieldSelector: Syntax at ", at as u64),
        FieldNo::TooLong => bad(alloc, "fieldSelector: TooLong"),
        FieldNo::UnknownField { at } => {
            bad_at(alloc, "fieldSelector: UnknownField at ", at as u64)
        }
        FieldNo::Memory => Ok(None),
    }
}
