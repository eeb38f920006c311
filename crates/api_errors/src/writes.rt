//! What is told of writes, transactions and operations that the log refuses.

ghost use Rattle.std.specs.Prelude.{◌≡◌, IfOk};
ghost use Rattle.api_errors.specs.Writes as spec;

use crate::failures::{
    Failure, already_exists, conflict, expired, not_found, read_only, too_large, used_up,
};
use kube_meta::{Memory, Resource};
use std::alloc::Global;
use up_store::{OpNo, TxWriteNo, WriteNo};

/// What is told of a refused write to the object of this name; `None` for want of memory.
pub fn write_told(
    alloc: Global,
    resource: Resource,
    name: &str,
    fault: WriteNo,
) -> Result<Option<Failure>, Memory>
    ensures { IfOk result (λ told. told ≡ spec.write_told resource name.now fault) }
{
    match fault {
        WriteNo::Exists { .. } => Ok(Some(already_exists(alloc, resource, name)?)),
        WriteNo::Absent { .. } => Ok(Some(not_found(alloc, resource, name)?)),
        WriteNo::Stale { given, present, .. } => {
            Ok(Some(conflict(alloc, resource, name, present, given)?))
        }
        WriteNo::UsedUp { .. } => Ok(Some(used_up(alloc)?)),
        WriteNo::ReadOnly { .. } => Ok(Some(read_only(alloc)?)),
        WriteNo::Memory => Ok(None),
    }
}

/// A refused transaction as the refused write that it is told as: that of its item, where it's
/// refused for one.
pub fn write_no(fault: TxWriteNo) -> WriteNo
    ensures { result ≡ spec.write_of fault }
{
    match fault {
        TxWriteNo::Item { no, .. } => no,
        TxWriteNo::UsedUp { at } => WriteNo::UsedUp { at },
        TxWriteNo::ReadOnly { at } => WriteNo::ReadOnly { at },
        TxWriteNo::Memory => WriteNo::Memory,
    }
}

/// What is told of a refused operation; `None` for want of memory.
pub fn operation_told(alloc: Global, fault: OpNo) -> Result<Option<Failure>, Memory>
    ensures { IfOk result (λ told. told ≡ spec.operation_told fault) }
{
    match fault {
        OpNo::Compacted { asked, floor } => Ok(Some(expired(alloc, asked, floor)?)),
        OpNo::Future { asked, current } => Ok(Some(too_large(alloc, asked, current)?)),
        OpNo::UsedUp { .. } => Ok(Some(used_up(alloc)?)),
        OpNo::Memory => Ok(None),
    }
}
