//! The HTTP status codes of answers. Want of memory has none, since it is told nobody.

ghost use Rattle.std.specs.Prelude.{◌≡◌, List, ℕ, option_map};
ghost use Rattle.kube_meta.specs.declared.resources.Resource.{Resource as Of};
ghost use Rattle.api_errors.specs.Reasons.{code_of};
ghost use Rattle.api_errors.specs.Writes.{operation_told, write_told};

use api_errors::{Reason, write_no};
use client_api::ListNo;
use kube_meta::Memory;
use up_store::{OpNo, TxWriteNo, WriteNo};

/// The code of what was answered.
pub const OK: u16 = 200;

/// The code of what was created.
pub const CREATED: u16 = 201;

/// That of a refused write: what is told of it has the same.
pub fn write_code(no: WriteNo) -> Option<u16>
    ensures { (resource : Of) (name : List ℕ) → result ≡ option_map (λ told. code_of told.reason) (write_told resource name no) }
{
    match no {
        WriteNo::Exists { .. } | WriteNo::Stale { .. } => Some(Reason::Conflict.code()),
        WriteNo::Absent { .. } => Some(Reason::NotFound.code()),
        WriteNo::UsedUp { .. } => Some(Reason::InternalError.code()),
        WriteNo::ReadOnly { .. } => Some(Reason::MethodNotAllowed.code()),
        WriteNo::Memory => None,
    }
}

/// That of a refused transaction.
pub fn transaction_code(no: TxWriteNo) -> Option<u16> {
    write_code(write_no(no))
}

/// That of a refused operation.
pub fn operation_code(no: OpNo) -> Option<u16>
    ensures { result ≡ option_map (λ told. code_of told.reason) (operation_told no) }
{
    match no {
        OpNo::Compacted { .. } => Some(Reason::Expired.code()),
        OpNo::Future { .. } => Some(Reason::Timeout.code()),
        OpNo::UsedUp { .. } => Some(Reason::InternalError.code()),
        OpNo::Memory => None,
    }
}

/// That of a refused get, list or watch.
pub fn read_code(no: &ListNo) -> Option<u16> {
    match no {
        ListNo::Expired { .. } => Some(Reason::Expired.code()),
        ListNo::TooLarge { .. } => Some(Reason::Timeout.code()),
        ListNo::Absent { .. } => Some(Reason::NotFound.code()),
        ListNo::Memory => None,
    }
}
