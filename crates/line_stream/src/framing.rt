//! How the body of a reply is framed.

ghost use Rattle.std.specs.Prelude.{◌≡◌, All, map, length, codes};
ghost use Rattle.std.specs.Char.{is_ascii_digit};
ghost use Rattle.std.specs.List.{list_all};
ghost use Rattle.std.specs.Option.{option_map};
ghost use Rattle.httparse.specs.Spans.{IsHeaderWithin, header_bytes};
ghost use Rattle.http_read.specs.Heads.{values_of};
ghost use Rattle.http_read.specs.Heads as head;
ghost use Rattle.line_stream.specs.Framings as framings;

use crate::head::{only_value, says_chunked};
use http_read::is_named;
use httparse::spans::HeaderSpan;

/// How the body of a reply is framed.
#[derive(Clone, Copy, Debug)]
pub(crate) enum Framing {
    /// By a count of its bytes.
    Counted(u64),
    /// In chunks.
    Chunked,
}

// Whether no field has this name.
fn is_unsaid(bytes: &[u8], fields: &[HeaderSpan], name: &[u8]) -> bool
    requires { All (IsHeaderWithin (length bytes.now)) fields.now }
    ensures { result ≡ framings.are_unsaid (values_of name.now (map (header_bytes bytes.now) fields.now)) }
{
    for field in fields {
        if is_named(bytes, field, name) {
            return false;
        }
    }
    true
}

// Whether each byte is a digit.
fn are_digits(value: &[u8]) -> bool
    ensures { result ≡ list_all is_ascii_digit value.now }
{
    value.iter().all(|b| b.is_ascii_digit())
}

// Whether a length is written so.
fn is_length(value: &[u8]) -> bool
    ensures { result ≡ head.is_length value.now }
{
    if value.is_empty() {
        return false;
    }
    if value.len() > 15 {
        return false;
    }
    are_digits(value)
}

// The length that a Content-Length field gives.
fn length_value(value: &[u8]) -> Option<u64>
    ensures { result ≡ head.length_value value.now }
{
    if !is_length(value) {
        return None;
    }
    match str::from_utf8(value) {
        Ok(digits) => digits.parse::<u64>().ok(),
        Err(_) => None,
    }
}

// The framing by a length, where a field gives one.
fn counted(value: &[u8]) -> Option<Framing>
    ensures { result ≡ option_map (λ n. Framing.Counted n) (head.length_value value.now) }
{
    match length_value(value) {
        Some(size) => Some(Framing::Counted(size)),
        None => None,
    }
}

/// How a body is framed, by the fields of its head; `None` where it is in no way that is read.
pub(crate) fn framing_of(bytes: &[u8], fields: &[HeaderSpan]) -> Option<Framing>
    requires { All (IsHeaderWithin (length bytes.now)) fields.now }
    ensures { result ≡ framings.framing_said (values_of (codes "transfer-encoding") (map (header_bytes bytes.now) fields.now))
        (values_of (codes "content-length") (map (header_bytes bytes.now) fields.now)) }
{
    if says_chunked(bytes, fields) {
        return Some(Framing::Chunked);
    }
    if !is_unsaid(bytes, fields, b"transfer-encoding") {
        return None;
    }
    match only_value(bytes, fields, b"content-length") {
        Some(value) => counted(value),
        None => None,
    }
}
