//! The Status of a refusal, read.

ghost use Rattle.std.specs.Prelude.{◌≡◌, ◌≢◌, ◌<◌, ◌^◌, ℕ, codes, option_map, IfOk, MatchOption, Some, IsUtf8};
ghost use Rattle.serde_json.specs.View.{view};
ghost use Rattle.json_obj.specs.declared.replies.Refusal.{Refusal as Refused};
ghost use Rattle.watch_lines.specs.Stored.{IsStatus};
ghost use Rattle.watch_lines.specs.Reading.{number_in, IsRefusalOf};
ghost use Rattle.watch_lines.specs.Reading as reading;

use crate::objects::value_of;
use json_obj::{Refusal, status};
use kube_meta::{Memory, Text};
use serde_json::Value;
use std::alloc::Global;

/// The code of the refusal whose Status a text is.
pub(crate) fn code_in(alloc: Global, text: &[u8]) -> Result<Option<u16>, Memory>
    ensures { IfOk result (λ found. MatchOption found ((code : ℕ) → ¬ (IsStatus text.now code)) (IsStatus text.now)) }
{
    let Some(value) = value_of(alloc, text)? else {
        return Ok(None);
    };
    let Some(refusal) = refusal_in(alloc, &value)? else {
        return Ok(None);
    };
    let told = status(alloc, &refusal)?;
    if told.as_slice() == text {
        Ok(Some(refusal.code))
    } else {
        Ok(None)
    }
}

// The one refusal whose Status a value may be.
fn refusal_in(alloc: Global, value: &Value) -> Result<Option<Refusal>, Memory>
    ensures { IfOk result (λ found. MatchOption found
        ((refusal : Refused) → ¬ (IsRefusalOf (view value.now) refusal)) (IsRefusalOf (view value.now))) }
{
    let Some(code) = code_at(value) else {
        return Ok(None);
    };
    let Some(reason) = text_in(value, "reason") else {
        return Ok(None);
    };
    let Some(message) = text_in(value, "message") else {
        return Ok(None);
    };
    let reason = kept(alloc, reason)?;
    let message = kept(alloc, message)?;
    let too_large = value.get("details").is_some();
    Ok(Some(Refusal {
        code,
        reason,
        message,
        too_large,
    }))
}

/// The code, if it is a number of 16 bits.
pub(crate) fn code_at(value: &Value) -> Option<u16>
    ensures { MatchOption result ((code : ℕ) → code < 2 ^ 16 → number_in (codes "code") (view value.now) ≢ Some code)
        (λ code. number_in (codes "code") (view value.now) ≡ Some code) }
{
    match value.get("code").and_then(Value::as_u64) {
        Some(code) if code <= u16::MAX as u64 => Some(code as u16),
        _ => None,
    }
}

/// The text at a name.
pub(crate) fn text_in<'v>(value: &'v Value, name: &str) -> Option<&'v str>
    ensures { option_map (λ text. text.now) result ≡ reading.text_in name.now (view value.now) }
{
    value.get(name).and_then(Value::as_str)
}

// A copy of a text. It's UTF-8, as each text.
fn kept(alloc: Global, text: &str) -> Result<Text, Memory>
    ensures same { IfOk result (λ copy. copy ≡ text.now) }
    ensures utf8 { IfOk result IsUtf8 }
{
    Text::new(alloc, text)
}
