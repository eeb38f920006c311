//! What is refused by name since it isn't served, so that nothing is done in another way than it was asked for.

ghost use Rattle.std.specs.Prelude.{◌≡◌, IfNone, IfOk, IfSome};
ghost use Rattle.serde_json.specs.View.{view};
ghost use Rattle.route_req.specs.Asks as asks;

use http_read::Req;
use kube_meta::Memory;
use serde_json::Value;
use std::alloc::Global;

/// An option of writes that isn't served.
#[derive(Clone, Copy, Debug, PartialEq, Eq)]
pub enum Unserved {
    /// `dryRun`: the write is to be tried, and not done.
    DryRun,
    /// `preconditions` of a deletion: the object is to have a revision or a uid.
    Preconditions,
}

// Whether requests with this method may change something.
fn is_write(method: &str) -> bool
    ensures { result ≡ asks.is_write method.now }
{
    method == "POST" || method == "PUT" || method == "DELETE"
}

/// Whether a write has a body of a media type that isn't read.
pub(crate) fn has_unread_body(req: &Req) -> bool
    ensures { result ≡ asks.has_unread_body req.now }
{
    is_write(req.method.as_str()) && req.unreadable && !req.body.as_slice().is_empty()
}

/// Whether the query of a write says that it is to be tried, and not done.
pub(crate) fn is_dry_run(req: &Req) -> bool
    ensures { result ≡ asks.is_dry_run req.now }
{
    is_write(req.method.as_str()) && req.params.truth("dryRun").is_some()
}

// The option of a deletion that a value has.
fn option_in(value: &Value) -> Option<Unserved>
    ensures { result ≡ asks.option_in (view value.now) }
{
    if value.get("dryRun").is_some() {
        return Some(Unserved::DryRun);
    }
    if value.get("preconditions").is_some() {
        return Some(Unserved::Preconditions);
    }
    None
}

/// The option of a deletion that its body asks for, if that is one JSON text.
pub(crate) fn option_asked(alloc: Global, body: &[u8]) -> Result<Option<Unserved>, Memory>
    ensures some { IfOk result (λ option. IfSome option (asks.AsksOption body.now)) }
    ensures none { IfOk result (λ option. IfNone option (asks.AsksNoOption body.now)) }
{
    match Value::from_slice(alloc, body) {
        Ok(value) => Ok(option_in(&value)),
        Err(error) if error.is_memory() => Err(Memory),
        Err(_) => Ok(None),
    }
}
