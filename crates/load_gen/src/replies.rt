//! The replies in the bytes of a session.

ghost use Rattle.std.specs.Prelude.{◌≡◌, ℕ, List, ◌<◌, ◌≤◌, ◌^◌, ◌++◌, length, Some, IfOk, IfSome, decimal, slice_range, count_by};
ghost use Rattle.httparse.specs.Spans.{IsResponseAt, IsResponseWithin};
ghost use Rattle.load_gen.specs.Heads.{head_of};
ghost use Rattle.load_gen.specs.Replies.{AreReplies, IsReply, AreCounted, is_ok};

use httparse::Status;
use httparse::spans::{EMPTY_HEADER_SPAN, HeaderSpan, ResponseSpans, parse_response};
use kube_meta::Memory;
use std::alloc::Global;
use std::str;

/// How many replies before the last have a code below 400, and how many another.
#[derive(Clone, Copy, Debug, PartialEq, Eq)]
pub(crate) struct Counts {
    pub(crate) ok: u64,
    pub(crate) refused: u64,
}

/// A reply: its code, and how many bytes it has.
#[derive(Clone, Copy)]
pub(crate) struct Reply {
    code: u16,
    size: usize,
}

/// The codes of the replies that some bytes are, one after the other. Bytes that aren't replies, of which no session
/// is, are answered as want of memory is.
pub(crate) fn codes(alloc: Global, text: &[u8]) -> Result<Vec<u16>, Memory>
    ensures { IfOk result (λ found. (codes : List ℕ) → AreReplies codes text.now → found.items ≡ codes) }
{
    let mut codes = Vec::new(alloc);
    let mut at = 0usize;
    while at < text.len() {
        let Some(reply) = first_reply(&text[at..]) else {
            return Err(Memory);
        };
        codes.push(reply.code)?;
        at += reply.size;
    }
    Ok(codes)
}

/// Counts these codes, but for the last; nothing where there is none.
pub(crate) fn count(codes: &[u16]) -> Option<Counts>
    ensures { IfSome result (λ counts. AreCounted codes.now counts.ok counts.refused) }
{
    if codes.is_empty() {
        return None;
    }
    let before = &codes[..codes.len() - 1];
    let ok = accepted(before);
    Some(Counts {
        ok,
        refused: before.len() as u64 - ok,
    })
}

// How many of these codes are below 400.
fn accepted(codes: &[u16]) -> u64
    ensures count { result ≡ count_by is_ok codes.now }
    ensures few { result ≤ length codes.now }
{
    let mut ok = 0u64;
    for code in codes {
        if *code < 400 {
            ok += 1;
        }
    }
    ok
}

// The reply that a text begins with.
fn first_reply(text: &[u8]) -> Option<Reply>
    ensures found { (code : ℕ) (first rest : List ℕ) → text.now ≡ first ++ rest → IsReply code first →
        result ≡ Some (record { code = code; size = length first }) }
    ensures within { IfSome result (λ reply. (0 < reply.size) × (reply.size ≤ length text.now)) }
{
    let mut fields = [EMPTY_HEADER_SPAN; 4];
    match parse_response(text, &mut fields) {
        Ok(Status::Complete(head)) => reply_with(text, &fields, &head),
        Ok(Status::Partial) => None,
        Err(_) => None,
    }
}

// The reply with a head that was found in front of a text.
fn reply_with(text: &[u8], fields: &[HeaderSpan], head: &ResponseSpans) -> Option<Reply>
    requires { IsResponseWithin text.now fields.now head.now }
    ensures found { (code : ℕ) (first rest : List ℕ) → text.now ≡ first ++ rest → (r : IsReply code first) →
        IsResponseAt text.now fields.now head.now (head_of r.kind code r.retry r.close r.body) →
        result ≡ Some (record { code = code; size = length first }) }
    ensures within { IfSome result (λ reply. (0 < reply.size) × (reply.size ≤ length text.now)) }
{
    if head.headers < 2 {
        return None;
    }
    let body = body_length(text, &fields[1])?;
    let size = head.len.saturating_add(body);
    if size == 0 || text.len() < size {
        return None;
    }
    Some(Reply {
        code: head.code,
        size,
    })
}

// The number that a field's value is.
fn body_length(text: &[u8], field: &HeaderSpan) -> Option<usize>
    requires order { field.now.value.start ≤ field.now.value.end }
    requires within { field.now.value.end ≤ length text.now }
    ensures { (n : ℕ) → n < 2 ^ 64 → slice_range text.now field.now.value.start field.now.value.end ≡ decimal n → result ≡ Some n }
{
    number(field.value.of(text))
}

// The number that some digits are.
fn number(digits: &[u8]) -> Option<usize>
    ensures { (n : ℕ) → n < 2 ^ 64 → digits.now ≡ decimal n → result ≡ Some n }
{
    match str::from_utf8(digits) {
        Ok(text) => text.parse().ok(),
        Err(_) => None,
    }
}
