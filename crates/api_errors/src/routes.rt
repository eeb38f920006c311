//! What is told of a request that has no route, or whose options or body are refused.

ghost use Rattle.std.specs.Prelude.{◌≡◌, IfOk};
ghost use Rattle.api_errors.specs.Routes as spec;

use crate::failures::{bad, bad_at, say};
use crate::options::{list_told, watch_told};
use crate::selectors::selector_told;
use crate::{Failure, Reason};
use json_obj::ObjNo;
use kube_meta::Memory;
use route_req::{RouteNo, TxTextNo, Unserved};
use std::alloc::Global;

/// What is told of a request that has no route; `None` for want of memory.
pub fn route_told(alloc: Global, fault: RouteNo) -> Result<Option<Failure>, Memory>
    ensures { IfOk result (λ told. told ≡ spec.route_told fault) }
{
    match fault {
        RouteNo::ForeignSite => say(
            alloc,
            Reason::Forbidden,
            "the server does not allow requests that a browser makes for another site",
        ),
        RouteNo::MediaType => say(
            alloc,
            Reason::UnsupportedMediaType,
            "the body of the request was in an unknown format - accepted media types include: application/json",
        ),
        RouteNo::Unserved(option) => unserved_told(alloc, option),
        RouteNo::NoPath => say(
            alloc,
            Reason::NotFound,
            "the server could not find the requested resource",
        ),
        RouteNo::NoMethod => say(
            alloc,
            Reason::MethodNotAllowed,
            "the server does not allow this method on the requested resource",
        ),
        RouteNo::Selector(fault) => selector_told(alloc, fault),
        RouteNo::List(fault) => list_told(alloc, fault),
        RouteNo::Watch(fault) => watch_told(alloc, fault),
        RouteNo::Object(fault) => object_told(alloc, fault),
        RouteNo::Operation => say(alloc, Reason::BadRequest, "operation: BadRevision"),
        RouteNo::Transaction(fault) => transaction_told(alloc, fault),
        RouteNo::Memory => Ok(None),
    }
}

fn unserved_told(alloc: Global, option: Unserved) -> Result<Option<Failure>, Memory>
    ensures { IfOk result (λ told. told ≡ spec.unserved_told option) }
{
    match option {
        Unserved::DryRun => bad(
            alloc,
            "the server does not serve dryRun, and nothing was done",
        ),
        Unserved::Preconditions => bad(
            alloc,
            "the server does not serve preconditions of a deletion, and nothing was done",
        ),
    }
}

fn object_told(alloc: Global, fault: ObjNo) -> Result<Option<Failure>, Memory>
    ensures { IfOk result (λ told. told ≡ spec.object_told fault) }
{
    match fault {
        ObjNo::NotJson => bad(alloc, "object: NotJson"),
        ObjNo::Float => bad(alloc, "object: Float"),
        ObjNo::TooDeep => bad(alloc, "object: TooDeep"),
        ObjNo::WrongKind => bad(alloc, "object: WrongKind"),
        ObjNo::BadMeta => bad(alloc, "object: BadMeta"),
        ObjNo::Memory => Ok(None),
    }
}

fn transaction_told(alloc: Global, fault: TxTextNo) -> Result<Option<Failure>, Memory>
    ensures { IfOk result (λ told. told ≡ spec.transaction_failure fault) }
{
    match fault {
        TxTextNo::NotJson => bad(alloc, "transaction: NotJson"),
        TxTextNo::Float => bad(alloc, "transaction: Float"),
        TxTextNo::TooDeep => bad(alloc, "transaction: TooDeep"),
        TxTextNo::NotList => bad(alloc, "transaction: NotList"),
        TxTextNo::Empty => bad(alloc, "transaction: Empty"),
        TxTextNo::TooManyItems => bad(alloc, "transaction: TooManyItems"),
        TxTextNo::BadItem { index } => bad_at(alloc, "transaction: BadItem in item ", index),
        TxTextNo::BadObject { index, .. } => {
            bad_at(alloc, "transaction: BadObject in item ", index)
        }
        TxTextNo::Repeated { index } => bad_at(alloc, "transaction: Repeated in item ", index),
        TxTextNo::Memory => Ok(None),
    }
}
