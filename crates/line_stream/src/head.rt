//! The head of a response.

ghost use Rattle.std.specs.Prelude.{◌≡◌, ◌++◌, ◌≤◌, ℕ, List, length, map, All, codes};
ghost use Rattle.std.specs.Option.{option_map};
ghost use Rattle.edge_io.specs.Told.{prepended};
ghost use Rattle.httparse.specs.Spans.{IsHeaderWithin, header_bytes};
ghost use Rattle.http_read.specs.Heads.{values_of};
ghost use Rattle.line_stream.specs.Heads.{only, is_chunks};
ghost use Rattle.line_stream.specs.HeadSteps.{LooksAtHead, FindsHead, FindsSome, FindsBody, BeginsAt, FramesAt, FindsFramed};
ghost use Rattle.line_stream.specs.Answers.{Counts};

use crate::framing::{Framing, framing_of};
use crate::refusal::LineNo;
use edge_io::Source;
use http_read::{FillNo, MOST_FIELDS, MOST_HEAD, Unread, front_of, is_named};
use httparse::Status;
use httparse::spans::{EMPTY_HEADER_SPAN, HeaderSpan, ResponseSpans, parse_response};

/// The value of the only field of this name.
pub(crate) fn only_value<'b>(
    bytes: &'b [u8],
    fields: &[HeaderSpan],
    name: &[u8],
) -> Option<&'b [u8]>
    requires { All (IsHeaderWithin (length bytes.now)) fields.now }
    ensures { option_map (λ value. value.now) result ≡ only (values_of name.now (map (header_bytes bytes.now) fields.now)) }
{
    let mut found: Option<&[u8]> = None;
    for field in fields {
        if is_named(bytes, field, name) {
            if found.is_some() {
                return None;
            }
            found = Some(field.value.of(bytes));
        }
    }
    found
}

/// Whether the fields say that the body is in chunks alone.
pub(crate) fn says_chunked(bytes: &[u8], fields: &[HeaderSpan]) -> bool
    requires { All (IsHeaderWithin (length bytes.now)) fields.now }
    ensures { result ≡ is_chunks (only (values_of (codes "transfer-encoding") (map (header_bytes bytes.now) fields.now))) }
{
    match only_value(bytes, fields, b"transfer-encoding") {
        Some(value) => value.eq_ignore_ascii_case(b"chunked"),
        None => false,
    }
}

// Looks for a whole head in front of the bytes. `None` means that more bytes may complete it.
fn look_at_head(bytes: &[u8], spans: &mut [HeaderSpan]) -> Result<Option<ResponseSpans>, LineNo>
    requires { length spans.old ≡ 64 }
    ensures { LooksAtHead bytes.now spans.new result }
{
    match parse_response(front_of(bytes), spans) {
        Ok(Status::Complete(found)) => Ok(Some(found)),
        Ok(Status::Partial) if bytes.len() < MOST_HEAD => Ok(None),
        Ok(Status::Partial) => Err(LineNo::BadHead),
        Err(_) => Err(LineNo::BadHead),
    }
}

// How many bytes a head has that was found, if a chunked body follows it.
fn body_start(bytes: &[u8], spans: &[HeaderSpan], found: ResponseSpans) -> Result<usize, LineNo>
    requires { FindsHead bytes.now spans.now found }
    ensures { BeginsAt bytes.now result }
{
    if found.code != 200 {
        return Err(LineNo::Refused { code: found.code });
    }
    let front = front_of(bytes);
    if !says_chunked(front, &spans[..found.headers]) {
        return Err(LineNo::BadHead);
    }
    Ok(found.len)
}

// Reads on until there is a whole head in front of the bytes.
fn find_head<S: Source>(
    kept: &mut Unread,
    source: &mut S,
    spans: &mut [HeaderSpan],
) -> Result<ResponseSpans, LineNo>
    requires { length spans.old ≡ 64 }
    ensures reads { (taken : List ℕ) × (S.left source.old ≡ prepended taken (S.left source.new)) × (kept.new ≡ kept.old ++ taken)
        × FindsSome kept.new spans.new (S.left source.new) result }
    ensures counted { Counts result (S.faults source.old) (S.faults source.new) }
{
    loop {
        match look_at_head(kept.bytes(), spans) {
            Ok(Some(found)) => return Ok(found),
            Ok(None) => {}
            Err(why) => return Err(why),
        }
        match kept.fill(source) {
            Ok(0) => return Err(LineNo::CutShort),
            Ok(_) => {}
            Err(FillNo::Fault) => return Err(LineNo::ReadFault),
            Err(FillNo::Memory) => return Err(LineNo::Memory),
        }
    }
}

/// Reads on until there is a whole head in front of the bytes, and answers how many bytes it has, if a chunked body
/// follows.
pub(crate) fn read_start<S: Source>(kept: &mut Unread, source: &mut S) -> Result<usize, LineNo>
    ensures reads { (taken : List ℕ) × (S.left source.old ≡ prepended taken (S.left source.new)) × (kept.new ≡ kept.old ++ taken)
        × FindsBody kept.new (S.left source.new) result }
    ensures counted { Counts result (S.faults source.old) (S.faults source.new) }
{
    let mut spans = [EMPTY_HEADER_SPAN; MOST_FIELDS];
    let found = match find_head(kept, source, &mut spans) {
        Ok(found) => found,
        Err(why) => return Err(why),
    };
    body_start(kept.bytes(), &spans, found)
}

// How many bytes a head has that was found, and how the body behind it is framed.
fn body_framing(
    bytes: &[u8],
    spans: &[HeaderSpan],
    found: ResponseSpans,
) -> Result<(usize, Framing), LineNo>
    requires { FindsHead bytes.now spans.now found }
    ensures { FramesAt bytes.now result }
{
    if found.code != 200 {
        return Err(LineNo::Refused { code: found.code });
    }
    match framing_of(front_of(bytes), &spans[..found.headers]) {
        Some(framing) => Ok((found.len, framing)),
        None => Err(LineNo::BadHead),
    }
}

/// Reads on until there is a whole head in front of the bytes, and answers how many bytes it has, and how the body
/// behind it is framed.
pub(crate) fn read_framing<S: Source>(
    kept: &mut Unread,
    source: &mut S,
) -> Result<(usize, Framing), LineNo>
    ensures reads { (taken : List ℕ) × (S.left source.old ≡ prepended taken (S.left source.new)) × (kept.new ≡ kept.old ++ taken)
        × FindsFramed kept.new (S.left source.new) result }
    ensures counted { Counts result (S.faults source.old) (S.faults source.new) }
{
    let mut spans = [EMPTY_HEADER_SPAN; MOST_FIELDS];
    let found = match find_head(kept, source, &mut spans) {
        Ok(found) => found,
        Err(why) => return Err(why),
    };
    body_framing(kept.bytes(), &spans, found)
}
