//! The lines of a record.

ghost use Rattle.std.specs.Prelude.{◌≡◌, ◌<◌, [], ◌∷◌, MatchOption, IfSome, length, None, Some, option_map, nat_lt};
ghost use Rattle.std.specs.Option.{option_map_or};
ghost use Rattle.watch_record.specs.Lines.{Parts, lines_in, first_line, later_lines, parts_of};
ghost use Rattle.watch_record.specs.Lines as lines;

use memchr::memchr;

// The first line of bytes that has a line feed, and what stands behind it.
fn cut(bytes: &[u8]) -> Option<(&[u8], &[u8])>
    ensures line { MatchOption result (lines_in bytes.now ≡ [])
        (λ pieces. lines_in bytes.now ≡ pieces.0.now ∷ lines_in pieces.1.now) }
    ensures later { MatchOption result (later_lines bytes.now ≡ [])
        (λ pieces. later_lines bytes.now ≡ lines_in pieces.1.now) }
    ensures shorter { IfSome result (λ pieces. length pieces.1.now < length bytes.now) }
{
    match memchr(b'\n', bytes) {
        Some(at) => Some((&bytes[..at], &bytes[at + 1..])),
        None => None,
    }
}

// The first line of a text that has a line feed, and what stands behind it.
pub(crate) fn next_line(text: &str) -> Option<(&str, &str)>
    ensures { MatchOption result ((first_line text.now ≡ text.now) × (lines_in text.now ≡ []) × (later_lines text.now ≡ []))
        (λ pieces. (first_line text.now ≡ pieces.0.now) × (lines_in text.now ≡ pieces.0.now ∷ lines_in pieces.1.now)
        × (later_lines text.now ≡ lines_in pieces.1.now) × (length pieces.1.now < length text.now)) }
{
    text.split_once('\n')
}

// How many lines stand between the first line and the first empty one behind it, if there is one.
pub(crate) fn log_length(bytes: &[u8]) -> Option<usize>
    ensures { result ≡ option_map (λ (parts : Parts). length parts.log) (parts_of (later_lines bytes.now)) }
{
    match cut(bytes) {
        Some((_, rest)) => lines_before_empty(rest),
        None => None,
    }
}

// How many lines stand before the first empty one, if there is one.
fn lines_before_empty(bytes: &[u8]) -> Option<usize>
    ensures { result ≡ option_map (λ (parts : Parts). length parts.log) (parts_of (lines_in bytes.now)) }
{
    let mut count = 0;
    let mut rest = bytes;
    'lines: while let Some((line, more)) = cut(rest) {
        if line.is_empty() {
            return Some(count);
        }
        count += 1;
        rest = more;
    }
    None
}

// Whether the last byte is a line feed.
pub(crate) fn is_ended(bytes: &[u8]) -> bool
    ensures { result ≡ lines.is_ended bytes.now }
{
    bytes.last() == Some(&b'\n')
}
