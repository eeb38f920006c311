//! What is told of bytes that are no request.

ghost use Rattle.std.specs.Prelude.{◌≡◌, IfOk};
ghost use Rattle.api_errors.specs.Requests as spec;

use crate::failures::say;
use crate::{Failure, Reason};
use http_read::ReqNo;
use kube_meta::Memory;
use std::alloc::Global;

/// What is told of bytes that are no request; `None` where nobody is told: after a fault of the
/// source, an input that ended inside the request, and want of memory.
pub fn request_told(alloc: Global, fault: ReqNo) -> Result<Option<Failure>, Memory>
    ensures { IfOk result (λ told. told ≡ spec.request_told fault) }
{
    match fault {
        ReqNo::Malformed => say(alloc, Reason::BadRequest, "request: Malformed"),
        ReqNo::HeadTooLong => say(alloc, Reason::RequestEntityTooLarge, "request: HeadTooLong"),
        ReqNo::TooManyHeaders => say(
            alloc,
            Reason::RequestEntityTooLarge,
            "request: TooManyHeaders",
        ),
        ReqNo::BodyTooLong => say(alloc, Reason::RequestEntityTooLarge, "request: BodyTooLong"),
        ReqNo::NeedsLength => say(alloc, Reason::LengthRequired, "request: NeedsLength"),
        ReqNo::CutShort | ReqNo::ReadFault | ReqNo::Memory => Ok(None),
    }
}
