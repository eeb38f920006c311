//! What goes on behind a list, and the texts of failures.

ghost use Rattle.std.specs.Prelude.{◌≡◌, IfOk};
ghost use Rattle.json_obj.specs.Replies.{details_text, status_text};

use crate::quote::quoted;
use kube_meta::{Memory, Text};
use std::alloc::Global;

/// That a list goes on after this page.
#[derive(Debug, Drop)]
pub struct More {
    /// The continue token of the next page.
    pub token: Text,
    /// How many items are left after this page, where that is told.
    pub left: Option<u64>,
}

/// A request's refusal, as its reply tells it.
#[derive(Debug, Drop)]
pub struct Refusal {
    /// The HTTP status code.
    pub code: u16,
    /// The Kubernetes reason, as `NotFound`.
    pub reason: Text,
    pub message: Text,
    /// Whether the resource version that was asked for isn't reached yet.
    pub too_large: bool,
}

/// The Status object of a refusal.
pub fn status(alloc: Global, refusal: &Refusal) -> Result<Vec<u8>, Memory>
    ensures { IfOk result (λ text. text.items ≡ status_text refusal.now) }
{
    let code = refusal.code;
    let details = details_of(refusal.too_large);
    let message = quoted(alloc, refusal.message.as_str())?;
    let reason = quoted(alloc, refusal.reason.as_str())?;
    let text = format!(in alloc;
        "{{\"apiVersion\":\"v1\",\"code\":{code},{details}\"kind\":\"Status\",\"message\":{message},\"metadata\":{{}},\"reason\":{reason},\"status\":\"Failure\"}}"
    )?;
    Ok(text.into_bytes())
}

fn details_of(too_large: bool) -> &'static str
    ensures { result.now ≡ details_text too_large }
{
    if too_large {
        "\"details\":{\"causes\":[{\"message\":\"Too large resource version\",\"reason\":\"ResourceVersionTooLarge\"}],\"retryAfterSeconds\":1},"
    } else {
        ""
    }
}
