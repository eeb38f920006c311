//! The first bytes of keys, which tell most keys apart without a look at the keys.

ghost use Rattle.std.specs.Prelude.{◌≡◌, ◌<◌, ◌*◌, [], length, take, drop};
ghost use Rattle.std.specs.Cmp.Lexicographic.{slice_cmp};
ghost use Rattle.std.specs.Ordering.{nat_cmp};
ghost use Rattle.std.specs.Slice.Scan.{big_endian};
ghost use Rattle.encode_once.specs.Prefixes.{first_bytes, PrefixesAreInOrder};

use kube_meta::Key;
use std::cmp::Ordering;

/// The first 48 bytes of a key, and zeros behind a shorter one. Keys with prefixes that differ stand in the
/// order of these.
#[derive(Clone, Copy, Debug)]
pub struct KeyPrefix {
    bytes: [u8; 48],
}

impl KeyPrefix {
    /// The prefix of a key.
    pub fn of(key: &Key) -> KeyPrefix
        ensures { result.bytes ≡ first_bytes 48 key.now }
    {
        let text = key.as_str().as_bytes();
        match text.first_chunk::<48>() {
            Some(bytes) => KeyPrefix { bytes: *bytes },
            None => KeyPrefix {
                bytes: padded(text),
            },
        }
    }

    /// Zeros, where there is no key.
    pub fn none() -> KeyPrefix
        ensures { result.bytes ≡ first_bytes 48 [] }
    {
        KeyPrefix { bytes: [0; 48] }
    }

    /// The order of two prefixes, byte by byte.
    pub fn order(&self, other: &KeyPrefix) -> Ordering
        ensures { result ≡ slice_cmp nat_cmp self.now.bytes other.now.bytes }
    {
        order_of(&self.bytes, &other.bytes)
    }
}

/// Keys with prefixes that differ stand in the order of these.
pub fn prefixes_are_in_order()
    ensures { PrefixesAreInOrder }
{}

// The order of bytes, of which eight at a time are compared, as numbers.
fn order_of(these: &[u8; 48], those: &[u8; 48]) -> Ordering
    ensures { result ≡ slice_cmp nat_cmp these.now those.now }
{
    for at in 0..6 {
        let (here, there) = (word(these, at), word(those, at));
        if here != there {
            return here.cmp(&there);
        }
    }
    Ordering::Equal
}

// A text of less than 48 bytes with zeros behind it.
fn padded(text: &[u8]) -> [u8; 48]
    requires { length text.now < 48 }
    ensures { result ≡ first_bytes 48 text.now }
{
    let mut bytes = [0; 48];
    bytes[..text.len()].copy_from_slice(text);
    bytes
}

// The eight bytes of a prefix at a place as a number, the first of them the greatest.
fn word(bytes: &[u8; 48], at: usize) -> u64
    requires { at < 6 }
    ensures { result ≡ big_endian 0 (take 8 (drop (8 * at) bytes.now)) }
{
    match bytes[8 * at..].first_chunk::<8>() {
        Some(eight) => u64::from_be_bytes(*eight),
        None => 0,
    }
}
