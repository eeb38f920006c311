//! Bytes that differ from those that are wanted.

use crate::rows::wording::Wording;

/// How much is shown before the first place that differs, and from it on.
const BEFORE: usize = 40;

const BEHIND: usize = 80;

/// Tells what stands around the first place at which bytes differ, where they do.
pub fn compare(wanted: &[u8], given: &[u8], told: &mut Wording) {
    if wanted != given {
        let at = first_difference(wanted, given);
        told.show(&format_args!("    differs from byte {at} on\n"));
        tell_around("wanted", wanted, at, told);
        tell_around("is", given, at, told);
    }
}

// How many bytes are the same before the first ones that differ.
fn first_difference(wanted: &[u8], given: &[u8]) -> usize {
    let common = wanted.len().min(given.len());
    for at in 0..common {
        if wanted[at] != given[at] {
            return at;
        }
    }
    common
}

// What stands around a place.
fn tell_around(name: &str, bytes: &[u8], at: usize, told: &mut Wording) {
    let from = at.saturating_sub(BEFORE).min(bytes.len());
    let to = at.saturating_add(BEHIND).min(bytes.len());
    let part = bytes.get(from..to).unwrap_or(b"");
    let text = str::from_utf8(part).unwrap_or("(no UTF-8)");
    told.show(&format_args!("    {name}: {text}\n"));
}
