//! Texts cut at separators.

ghost use Rattle.std.specs.Prelude.{◌≡◌, ◌+◌, ◌<◌, ◌≤◌, ◌==◌, [], ◌∷◌, length, IfSome, IfNone, IsTrue};
ghost use Rattle.std.specs.List.{before_first, after_first};
ghost use Rattle.httparse.specs.Grammar.{trim_ows, is_ows, skip_ows};
ghost use Rattle.http_read.specs.Pieces.{last_blanks_off};
ghost use Rattle.form_urlencoded.specs.Form as form;

use memchr::memchr;

/// The pieces of a text before and after the first separator, if there is one.
#[inline(always)]
pub(crate) fn cut(text: &[u8], separator: u8) -> Option<(&[u8], &[u8])>
    ensures before { IfSome result (λ pieces. pieces.0.now ≡ before_first (λ b. b == separator) text.now) }
    ensures after { IfSome result (λ pieces. pieces.1.now ≡ after_first (λ b. b == separator) text.now) }
    ensures shorter { IfSome result (λ pieces. length pieces.1.now < length text.now) }
    ensures pieces { IfSome result (λ pieces. form.split separator text.now ≡ pieces.0.now ∷ form.split separator pieces.1.now) }
    ensures whole { IfNone result (text.now ≡ before_first (λ b. b == separator) text.now) }
    ensures nothing { IfNone result (after_first (λ b. b == separator) text.now ≡ []) }
    ensures alone { IfNone result (form.split separator text.now ≡ text.now ∷ []) }
{
    match memchr(separator, text) {
        Some(at) => Some((&text[..at], &text[at + 1..])),
        None => None,
    }
}

/// The same of a text whose first piece is mostly short, so that its bytes are looked at one by one.
#[inline(always)]
pub(crate) fn cut_short(text: &[u8], separator: u8) -> Option<(&[u8], &[u8])>
    ensures before { IfSome result (λ pieces. pieces.0.now ≡ before_first (λ b. b == separator) text.now) }
    ensures after { IfSome result (λ pieces. pieces.1.now ≡ after_first (λ b. b == separator) text.now) }
    ensures shorter { IfSome result (λ pieces. length pieces.1.now < length text.now) }
    ensures pieces { IfSome result (λ pieces. form.split separator text.now ≡ pieces.0.now ∷ form.split separator pieces.1.now) }
    ensures whole { IfNone result (text.now ≡ before_first (λ b. b == separator) text.now) }
    ensures nothing { IfNone result (after_first (λ b. b == separator) text.now ≡ []) }
    ensures alone { IfNone result (form.split separator text.now ≡ text.now ∷ []) }
{
    match text.iter().position(|b| *b == separator) {
        Some(at) => Some((&text[..at], &text[at + 1..])),
        None => None,
    }
}

/// The pieces of a text before and after the first separator, or the text and nothing where there is none.
#[inline(always)]
pub(crate) fn parted(text: &[u8], separator: u8) -> (&[u8], &[u8])
    ensures before { result.0.now ≡ before_first (λ b. b == separator) text.now }
    ensures after { result.1.now ≡ after_first (λ b. b == separator) text.now }
    ensures shorter { 0 < length text.now → length result.1.now < length text.now }
{
    match cut(text, separator) {
        Some(pieces) => pieces,
        None => (text, b"".as_slice()),
    }
}

/// The same of a text whose first piece is mostly short.
#[inline(always)]
pub(crate) fn parted_short(text: &[u8], separator: u8) -> (&[u8], &[u8])
    ensures before { result.0.now ≡ before_first (λ b. b == separator) text.now }
    ensures after { result.1.now ≡ after_first (λ b. b == separator) text.now }
{
    match cut_short(text, separator) {
        Some(pieces) => pieces,
        None => (text, b"".as_slice()),
    }
}

// Whether a byte is a blank.
fn is_blank(byte: u8) -> bool
    ensures { result ≡ is_ows byte }
{
    byte == b' ' || byte == b'\t'
}

// The bytes without the blanks in front.
fn without_front(text: &[u8]) -> &[u8]
    ensures { result.now ≡ skip_ows text.now }
{
    let mut at = 0;
    while at < text.len() {
        if !is_blank(text[at]) {
            break;
        }
        at += 1;
    }
    &text[at..]
}

// The bytes without the blanks at the end.
fn without_back(text: &[u8]) -> &[u8]
    ensures { result.now ≡ last_blanks_off text.now }
{
    let mut end = text.len();
    while end > 0 {
        if !is_blank(text[end - 1]) {
            break;
        }
        end -= 1;
    }
    &text[..end]
}

/// The bytes without the blanks at both ends.
pub(crate) fn trimmed(text: &[u8]) -> &[u8]
    ensures { result.now ≡ trim_ows text.now }
{
    without_back(without_front(text))
}
