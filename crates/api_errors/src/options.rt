//! What is told of the options of lists and watches that are refused.

ghost use Rattle.std.specs.Prelude.{◌≡◌, IfOk};
ghost use Rattle.api_errors.specs.Options as spec;

use crate::Failure;
use crate::failures::{bad, invalid};
use kube_meta::Memory;
use list_rules::{AskNo, TokenNo};
use std::alloc::Global;
use watch_rules::WatchNo;

pub(crate) fn list_told(alloc: Global, fault: AskNo) -> Result<Option<Failure>, Memory>
    ensures { IfOk result (λ told. told ≡ spec.list_told fault) }
{
    match fault {
        AskNo::BadRevision => bad(alloc, "list option: BadRevision"),
        AskNo::BadMatch => invalid(alloc, "list option: BadMatch"),
        AskNo::MatchNeedsRevision => invalid(alloc, "list option: MatchNeedsRevision"),
        AskNo::ExactZero => invalid(alloc, "list option: ExactZero"),
        AskNo::MatchWithContinue => invalid(alloc, "list option: MatchWithContinue"),
        AskNo::RevisionWithContinue => bad(alloc, "list option: RevisionWithContinue"),
        AskNo::InitialEventsOnList => invalid(alloc, "list option: InitialEventsOnList"),
        AskNo::BadLimit => bad(alloc, "list option: BadLimit"),
        AskNo::BadContinue(fault) => token_told(alloc, fault),
        AskNo::Memory => Ok(None),
    }
}

fn token_told(alloc: Global, fault: TokenNo) -> Result<Option<Failure>, Memory>
    ensures { IfOk result (λ told. told ≡ spec.token_told fault) }
{
    match fault {
        TokenNo::NotToken => bad(alloc, "continue: NotToken"),
        TokenNo::OtherList => bad(alloc, "continue: OtherList"),
        TokenNo::Memory => Ok(None),
    }
}

pub(crate) fn watch_told(alloc: Global, fault: WatchNo) -> Result<Option<Failure>, Memory>
    ensures { IfOk result (λ told. told ≡ spec.watch_told fault) }
{
    match fault {
        WatchNo::BadRevision => bad(alloc, "watch option: BadRevision"),
        WatchNo::MatchWithoutInitial => invalid(alloc, "watch option: MatchWithoutInitial"),
        WatchNo::InitialNeedsNotOlder => invalid(alloc, "watch option: InitialNeedsNotOlder"),
        WatchNo::BadTimeout => bad(alloc, "watch option: BadTimeout"),
    }
}
