//! Revisions, which Kubernetes calls resource versions.

ghost use Rattle.std.specs.Prelude.{◌≡◌, ◌^◌, ◌<◌, IsTrue, option_and_then, length, nat_lt, None, Some, if◌then◌else◌};
ghost use Rattle.std.specs.Str.{all_ascii_digits};
ghost use Rattle.std.specs.Str.Parse.{digits_value};
ghost use Rattle.kube_meta.specs.Revisions.{RevisionsAreReadBack};
ghost use Rattle.kube_meta.specs.Revisions as spec;

/// The greatest revision, 2 ^ 62.
pub const MAX_REVISION: u64 = 1 << 62;

/// The reader of revisions, which Kubernetes calls resource versions.
#[derive(Clone, Copy, Debug)]
pub struct Rev;

/// Why a text is no revision; the first of these that holds.
#[derive(Clone, Copy, Debug, PartialEq, Eq)]
pub enum RevNo {
    /// There is no byte.
    Empty,
    /// Some byte is no decimal digit.
    NotDigits,
    /// There is more than one digit, and the first is `0`.
    LeadingZero,
    /// The number is above 2 ^ 62.
    TooGreat,
}

impl Rev {
    ghost use Rattle.kube_meta.specs.Revisions.{revision_of};

    /// Reads decimal digits as a number of at most 2 ^ 62.
    pub fn read(text: &[u8]) -> Result<u64, RevNo>
        ensures { result ≡ revision_of text.now }
    {
        if text.is_empty() {
            return Err(RevNo::Empty);
        }
        if !are_digits(text) {
            return Err(RevNo::NotDigits);
        }
        if has_leading_zero(text) {
            return Err(RevNo::LeadingZero);
        }
        match bounded_value(text) {
            Some(number) => Ok(number),
            None => Err(RevNo::TooGreat),
        }
    }
}

/// A revision's decimal digits are read back as that revision, and no other text is.
pub fn revisions_are_read_back()
    ensures { RevisionsAreReadBack }
{}

// Whether each byte is a decimal digit.
fn are_digits(text: &[u8]) -> bool
    ensures { result ≡ all_ascii_digits text.now }
{
    text.iter().all(|b| b.is_ascii_digit())
}

fn has_leading_zero(text: &[u8]) -> bool
    ensures { result ≡ spec.has_leading_zero text.now }
{
    text.len() > 1 && text[0] == b'0'
}

// The number that the digits write, if it is at most 2 ^ 62.
fn bounded_value(text: &[u8]) -> Option<u64>
    requires all_digits { IsTrue (all_ascii_digits text.now) }
    requires nonempty { 0 < length text.now }
    ensures { result ≡ (if nat_lt (2 ^ 62) (digits_value 10 text.now) then None else Some (digits_value 10 text.now)) }
{
    match str::from_utf8(text) {
        Ok(digits) => bounded(digits.parse::<u64>().ok()),
        Err(_) => None,
    }
}

// The number, unless it is above 2 ^ 62.
fn bounded(number: Option<u64>) -> Option<u64>
    ensures { result ≡ option_and_then (λ n. if nat_lt (2 ^ 62) n then None else Some n) number }
{
    match number {
        Some(number) if number <= MAX_REVISION => Some(number),
        _ => None,
    }
}
