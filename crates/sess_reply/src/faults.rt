//! What is told of refusals, where that depends on what was asked.

ghost use Rattle.std.specs.Prelude.{◌≡◌, IfOk};
ghost use Rattle.kube_meta.specs.Keys.{name_of};
ghost use Rattle.up_store.specs.Transactions.{target_of};
ghost use Rattle.sess_reply.specs.Contents as spec;

use api_errors::{Failure, expired, not_found, read_only, too_large, used_up, write_told};
use client_api::ListNo;
use kube_meta::{Memory, Resource};
use list_rules::GetAsk;
use std::alloc::Global;
use up_store::{TxWriteNo, WriteAsk, WriteNo};

fn resource_of(ask: &WriteAsk) -> Resource
    ensures { let target = target_of ask.now in result ≡ target.0 }
{
    match ask {
        WriteAsk::Create { resource, .. }
        | WriteAsk::Replace { resource, .. }
        | WriteAsk::Remove { resource, .. } => *resource,
    }
}

fn name_of(ask: &WriteAsk) -> &str
    ensures { let target = target_of ask.now in result.now ≡ name_of target.1 }
{
    match ask {
        WriteAsk::Create { obj, .. } | WriteAsk::Replace { obj, .. } => obj.key.name(),
        WriteAsk::Remove { key, .. } => key.name(),
    }
}

/// What is told of a refused write.
pub(crate) fn fault_told(
    alloc: Global,
    ask: &WriteAsk,
    fault: WriteNo,
) -> Result<Option<Failure>, Memory>
    ensures { IfOk result (λ told. told ≡ spec.fault_told ask.now fault) }
{
    write_told(alloc, resource_of(ask), name_of(ask), fault)
}

/// What is told of a refused transaction of these writes.
pub(crate) fn transaction_told(
    alloc: Global,
    asks: &[WriteAsk],
    fault: TxWriteNo,
) -> Result<Option<Failure>, Memory>
    ensures { IfOk result (λ told. told ≡ spec.transaction_refusal asks.now fault) }
{
    match fault {
        TxWriteNo::Item { index, no } => match asks.get(index as usize) {
            Some(ask) => fault_told(alloc, ask, no),
            None => Ok(None),
        },
        TxWriteNo::UsedUp { .. } => Ok(Some(used_up(alloc)?)),
        TxWriteNo::ReadOnly { .. } => Ok(Some(read_only(alloc)?)),
        TxWriteNo::Memory => Ok(None),
    }
}

/// What is told of a refused list or watch.
pub(crate) fn read_told(alloc: Global, fault: ListNo) -> Result<Option<Failure>, Memory>
    ensures { IfOk result (λ told. told ≡ spec.read_told fault) }
{
    match fault {
        ListNo::Expired { asked, floor } => Ok(Some(expired(alloc, asked, floor)?)),
        ListNo::TooLarge { asked, current } => Ok(Some(too_large(alloc, asked, current)?)),
        ListNo::Absent { .. } | ListNo::Memory => Ok(None),
    }
}

/// What is told of a refused get.
pub(crate) fn get_told(
    alloc: Global,
    ask: &GetAsk,
    fault: ListNo,
) -> Result<Option<Failure>, Memory>
    ensures { IfOk result (λ told. told ≡ spec.get_told ask.now fault) }
{
    match fault {
        ListNo::Absent { .. } => Ok(Some(not_found(alloc, ask.resource, ask.key.name())?)),
        fault => read_told(alloc, fault),
    }
}
