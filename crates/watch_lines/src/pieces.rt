//! Texts made of pieces.

ghost use Rattle.std.specs.Prelude.{◌≡◌, ◌≢◌, ◌≤◌, ◌^◌, ◌↔◌, ◌++◌, ℕ, List, IsTrue, decimal, MatchOption};
ghost use Rattle.std.specs.List.{flat_map};

use kube_meta::{Rev, revisions_are_read_back};

/// What stands behind the piece that the text begins with.
pub(crate) fn behind<'t>(text: &'t [u8], piece: &[u8]) -> Option<&'t [u8]>
    ensures { MatchOption result ((rest : List ℕ) → text.now ≢ piece.now ++ rest)
        (λ rest. text.now ≡ piece.now ++ rest.now) }
{
    text.strip_prefix(piece)
}

/// What stands before the piece that the text ends with.
pub(crate) fn before<'t>(text: &'t [u8], piece: &[u8]) -> Option<&'t [u8]>
    ensures { MatchOption result ((front : List ℕ) → text.now ≢ front ++ piece.now)
        (λ front. text.now ≡ front.now ++ piece.now) }
{
    text.strip_suffix(piece)
}

/// Whether the text is these pieces, and then the last.
pub(crate) fn is_made_of(text: &[u8], pieces: &[&[u8]], last: &[u8]) -> bool
    ensures { IsTrue result ↔ (text.now ≡ flat_map (λ piece. piece.now) pieces.now ++ last.now) }
{
    let mut rest = text;
    for piece in pieces {
        match behind(rest, piece) {
            Some(more) => rest = more,
            None => return false,
        }
    }
    rest == last
}

/// The revision that these are the digits of.
pub(crate) fn revision_in(digits: &[u8]) -> Option<u64>
    ensures { MatchOption result ((n : ℕ) → n ≤ 2 ^ 62 → digits.now ≢ decimal n)
        (λ n. (n ≤ 2 ^ 62) × (digits.now ≡ decimal n)) }
{
    revisions_are_read_back();
    match Rev::read(digits) {
        Ok(revision) => Some(revision),
        Err(_) => None,
    }
}

/// The revision whose digits stand between these two.
pub(crate) fn digits_within(text: &[u8], opens: &[u8], closes: &[u8]) -> Option<u64>
    ensures { MatchOption result ((n : ℕ) → n ≤ 2 ^ 62 → text.now ≢ opens.now ++ (decimal n ++ closes.now))
        (λ n. (n ≤ 2 ^ 62) × (text.now ≡ opens.now ++ (decimal n ++ closes.now))) }
{
    let Some(rest) = behind(text, opens) else {
        return None;
    };
    match before(rest, closes) {
        Some(digits) => revision_in(digits),
        None => None,
    }
}
