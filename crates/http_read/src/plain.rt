//! Texts that may be escaped, most of which aren't.

ghost use Rattle.std.specs.Prelude.{◌≡◌, ◌++◌, All, IfOk, OnOk, IsTrue, IsUtf8, string_bytes};
ghost use Rattle.std.specs.Str.Lossy.{utf8_lossy};
ghost use Rattle.form_urlencoded.specs.Form as form;
ghost use Rattle.http_read.specs.Pieces.{IsItself};
ghost use Rattle.http_read.specs.Queries as queries;

use form_urlencoded::decode;
use kube_meta::{Memory, Text};
use percent_encoding::{ascii_str, percent_decode};
use std::alloc::Global;

// Whether a byte stands for itself, in a path and in a query, as letters, digits and most marks do: one test finds
// `%`, `+` and what isn't ASCII, and a few more.
fn is_plain_byte(byte: u8) -> bool
    ensures { IsTrue result → IsItself byte }
{
    matches!(byte, b'&' | b','..=b'~')
}

/// Whether all bytes do. Each is looked at, so that many are at once.
pub(crate) fn is_plain(raw: &[u8]) -> bool
    ensures { IsTrue result → All IsItself raw.now }
{
    let mut plain = true;
    for byte in raw {
        plain &= is_plain_byte(*byte);
    }
    plain
}

// The same of bytes that may be known to.
fn is_sure(raw: &[u8], plain: bool) -> bool
    requires { IsTrue plain → All IsItself raw.now }
    ensures { IsTrue result → All IsItself raw.now }
{
    plain || is_plain(raw)
}

/// The text of bytes that are mostly plain, such as a method or an Accept field.
pub(crate) fn text(alloc: Global, bytes: &[u8]) -> Result<Text, Memory>
    ensures { IfOk result (λ text. text ≡ utf8_lossy bytes.now) }
{
    if is_plain(bytes) {
        return Text::new(alloc, ascii_str(bytes));
    }
    read_text(alloc, bytes)
}

// Bytes as text. What isn't UTF-8 in them becomes U+FFFD.
fn read_text(alloc: Global, bytes: &[u8]) -> Result<Text, Memory>
    ensures { IfOk result (λ text. text ≡ utf8_lossy bytes.now) }
{
    Ok(Text::from_string(String::from_utf8_lossy(alloc, bytes)?))
}

/// The text of a segment of a path, which may be known to be plain.
#[inline(always)]
pub(crate) fn segment_text(alloc: Global, raw: &[u8], plain: bool) -> Result<Text, Memory>
    requires { IsTrue plain → All IsItself raw.now }
    ensures { IfOk result (λ text. text ≡ queries.segment_text raw.now) }
{
    if is_sure(raw, plain) {
        return Text::new(alloc, ascii_str(raw));
    }
    decoded_segment(alloc, raw)
}

#[inline(never)]
fn decoded_segment(alloc: Global, raw: &[u8]) -> Result<Text, Memory>
    ensures { IfOk result (λ text. text ≡ queries.segment_text raw.now) }
{
    let decoded = percent_decode(raw)
        .decode_utf8_lossy(alloc)?
        .into_owned(alloc)?;
    Ok(Text::from_string(decoded))
}

/// Puts the text of a name or a value of a query, which may be known to be plain, behind what is there.
pub(crate) fn push_piece(
    alloc: Global,
    out: &mut String,
    raw: &[u8],
    plain: bool,
) -> Result<(), Memory>
    requires { IsTrue plain → All IsItself raw.now }
    ensures text { OnOk result (string_bytes out.new ≡ string_bytes out.old ++ utf8_lossy (form.decode raw.now)) }
    ensures utf8 { OnOk result (IsUtf8 (utf8_lossy (form.decode raw.now))) }
{
    if is_sure(raw, plain) {
        return out.push_str(ascii_str(raw));
    }
    push_decoded(alloc, out, raw)
}

#[inline(never)]
fn push_decoded(alloc: Global, out: &mut String, raw: &[u8]) -> Result<(), Memory>
    ensures text { OnOk result (string_bytes out.new ≡ string_bytes out.old ++ utf8_lossy (form.decode raw.now)) }
    ensures utf8 { OnOk result (IsUtf8 (utf8_lossy (form.decode raw.now))) }
{
    let decoded = decode(alloc, raw)?.into_owned(alloc)?;
    out.push_str(decoded.as_str())
}
