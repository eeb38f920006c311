//! The fields of a head.

ghost use Rattle.std.specs.Prelude.{◌≡◌, ◌≤◌, ◌||◌, ℕ, Bool, true, codes, length, map, All, Option, unwrap_or, []};
ghost use Rattle.std.specs.Option.{option_map};
ghost use Rattle.std.specs.Str.{bytes_eq, str_eq_ignore_ascii_case};
ghost use Rattle.httparse.specs.Spans.{IsHeaderWithin, header_bytes};
ghost use Rattle.std.specs.Char.{is_ascii_digit};
ghost use Rattle.std.specs.List.{list_all};
ghost use Rattle.std.specs.Str.Parse.{digits_value as value_in};
ghost use Rattle.http_read.specs.Heads as head;

use crate::pieces::{cut, parted_short, trimmed};
use crate::refusal::ReqNo;
use httparse::spans::HeaderSpan;

/// The most bytes of a body.
const MOST_BODY: u64 = 1_048_576;

// Whether two texts are the same without regard to ASCII case.
pub(crate) fn is_same(text: &[u8], other: &[u8]) -> bool
    ensures { result ≡ str_eq_ignore_ascii_case text.now other.now }
{
    text.eq_ignore_ascii_case(other)
}

/// Whether a field has this name, without regard to ASCII case.
pub fn is_named(bytes: &[u8], field: &HeaderSpan, name: &[u8]) -> bool
    requires { IsHeaderWithin (length bytes.now) field.now }
    ensures { result ≡ head.is_named name.now (header_bytes bytes.now field.now) }
{
    is_same(field.name.of(bytes), name)
}

/// The value of the first field of this name.
pub(crate) fn value_of<'b>(bytes: &'b [u8], fields: &[HeaderSpan], name: &[u8]) -> Option<&'b [u8]>
    requires { All (IsHeaderWithin (length bytes.now)) fields.now }
    ensures { option_map (λ value. value.now) result ≡ head.value_of name.now (map (header_bytes bytes.now) fields.now) }
{
    for field in fields {
        if is_named(bytes, field, name) {
            return Some(field.value.of(bytes));
        }
    }
    None
}

/// Whether some field has this name.
pub(crate) fn has_field(bytes: &[u8], fields: &[HeaderSpan], name: &[u8]) -> bool
    requires { All (IsHeaderWithin (length bytes.now)) fields.now }
    ensures { result ≡ head.has_field name.now (map (header_bytes bytes.now) fields.now) }
{
    value_of(bytes, fields, name).is_some()
}

// Whether a list, split at its commas and with blanks trimmed, has this element.
#[inline(never)]
fn has_element(value: &[u8], element: &[u8]) -> bool
    ensures { result ≡ head.has_element element.now value.now }
{
    let mut rest = value;
    while let Some((piece, others)) = cut(rest, b',') {
        if is_same(trimmed(piece), element) {
            return true;
        }
        rest = others;
    }
    is_same(trimmed(rest), element)
}

/// What the Connection fields ask for.
#[derive(Clone, Copy, Debug)]
pub(crate) struct Asked {
    pub(crate) upgrade: bool,
    pub(crate) close: bool,
}

/// Whether a Connection field has `upgrade`, and whether one has `close`.
#[inline(never)]
pub(crate) fn connection_asks(bytes: &[u8], fields: &[HeaderSpan]) -> Asked
    requires { All (IsHeaderWithin (length bytes.now)) fields.now }
    ensures upgrade { result.upgrade ≡ head.connection_has (codes "upgrade") (map (header_bytes bytes.now) fields.now) }
    ensures close { result.close ≡ head.connection_has (codes "close") (map (header_bytes bytes.now) fields.now) }
{
    let mut upgrade = false;
    let mut close = false;
    for field in fields {
        if is_named(bytes, field, b"connection") {
            let value = field.value.of(bytes);
            upgrade |= has_element(value, b"upgrade");
            close |= has_element(value, b"close");
        }
    }
    Asked { upgrade, close }
}

/// Whether the connection ends with the reply, where `close` says whether a Connection field has `close`.
pub(crate) fn asks_close(method: &[u8], close: bool) -> bool
    ensures { result ≡ (close || bytes_eq method.now (codes "HEAD")) }
{
    close || method == b"HEAD".as_slice()
}

// Whether this is a media type in which clients of Kubernetes send objects, and which isn't read.
fn is_unread_type(name: &[u8]) -> bool
    ensures { result ≡ head.is_unread_type name.now }
{
    is_same(name, b"application/vnd.kubernetes.protobuf")
        || is_same(name, b"application/protobuf")
        || is_same(name, b"application/x-protobuf")
        || is_same(name, b"application/yaml")
        || is_same(name, b"application/x-yaml")
        || is_same(name, b"text/yaml")
        || is_same(name, b"text/x-yaml")
        || is_same(name, b"application/cbor")
}

// Whether a Content-Type names such a type.
fn names_unread_type(value: &[u8]) -> bool
    ensures { result ≡ head.is_unread_type (head.media_type value.now) }
{
    let (name, _) = parted_short(value, b';');
    is_unread_type(trimmed(name))
}

/// Whether the first Content-Type names a media type that isn't read.
pub(crate) fn is_unreadable(bytes: &[u8], fields: &[HeaderSpan]) -> bool
    requires { All (IsHeaderWithin (length bytes.now)) fields.now }
    ensures { result ≡ head.is_unreadable (map (header_bytes bytes.now) fields.now) }
{
    match value_of(bytes, fields, b"content-type") {
        Some(value) => names_unread_type(value),
        None => false,
    }
}

// Whether each byte is a digit.
fn all_digits(value: &[u8]) -> bool
    ensures { result ≡ list_all is_ascii_digit value.now }
{
    value.iter().all(|b| b.is_ascii_digit())
}

// Whether a length is written so.
fn is_length(value: &[u8]) -> bool
    ensures { result ≡ head.is_length value.now }
{
    if value.is_empty() {
        return false;
    }
    if value.len() > 15 {
        return false;
    }
    all_digits(value)
}

// The number that decimal digits give.
fn digits_value(digits: &[u8]) -> u64
    requires { head.is_length digits.now ≡ true }
    ensures { result ≡ value_in 10 digits.now }
{
    let mut value = 0u64;
    for digit in digits {
        value = value * 10 + u64::from(*digit - b'0');
    }
    value
}

// The length that a Content-Length field gives.
fn length_value(value: &[u8]) -> Option<u64>
    ensures { result ≡ head.length_value value.now }
{
    if is_length(value) {
        Some(digits_value(value))
    } else {
        None
    }
}

// Whether requests with this method say how long their body is.
fn needs_length(method: &[u8]) -> bool
    ensures { result ≡ head.needs_length method.now }
{
    method == b"POST".as_slice() || method == b"PUT".as_slice()
}

// The length of a body, if it isn't too long.
fn within_most(length: Option<u64>) -> Result<u64, ReqNo>
    ensures { result ≡ head.within_most length }
{
    match length {
        None => Err(ReqNo::Malformed),
        Some(n) if n <= MOST_BODY => Ok(n),
        Some(_) => Err(ReqNo::BodyTooLong),
    }
}

// What the Content-Length fields say.
fn length_said(method: &[u8], bytes: &[u8], fields: &[HeaderSpan]) -> Result<u64, ReqNo>
    requires { All (IsHeaderWithin (length bytes.now)) fields.now }
    ensures { result ≡ head.length_said method.now (head.values_of (codes "content-length") (map (header_bytes bytes.now) fields.now)) }
{
    let mut found: Option<&[u8]> = None;
    for field in fields {
        if is_named(bytes, field, b"content-length") {
            if found.is_some() {
                return Err(ReqNo::Malformed);
            }
            found = Some(field.value.of(bytes));
        }
    }
    match found {
        Some(value) => within_most(length_value(value)),
        None if needs_length(method) => Err(ReqNo::NeedsLength),
        None => Ok(0),
    }
}

/// The length of the body that follows a head, or why the request is refused.
pub(crate) fn body_length(
    minor: u8,
    method: &[u8],
    bytes: &[u8],
    fields: &[HeaderSpan],
) -> Result<u64, ReqNo>
    requires { All (IsHeaderWithin (length bytes.now)) fields.now }
    ensures { result ≡ head.body_length minor method.now (map (header_bytes bytes.now) fields.now) }
{
    if minor != 1 {
        return Err(ReqNo::Malformed);
    }
    if has_field(bytes, fields, b"transfer-encoding") {
        return Err(ReqNo::NeedsLength);
    }
    length_said(method, bytes, fields)
}

/// Whether a WebSocket is asked for, where `upgrade` says whether a Connection field has `upgrade`.
pub(crate) fn asks_websocket(
    method: &[u8],
    bytes: &[u8],
    fields: &[HeaderSpan],
    upgrade: bool,
) -> bool
    requires within { All (IsHeaderWithin (length bytes.now)) fields.now }
    requires upgrade { upgrade ≡ head.connection_has (codes "upgrade") (map (header_bytes bytes.now) fields.now) }
    ensures { result ≡ head.asks_websocket method.now (map (header_bytes bytes.now) fields.now) }
{
    if !upgrade || method != b"GET".as_slice() {
        return false;
    }
    match value_of(bytes, fields, b"upgrade") {
        Some(value) => is_same(value, b"websocket"),
        None => false,
    }
}
