//! Hashes of texts, eight bytes at a time.

ghost use Rattle.std.specs.Prelude.{◌≡◌, ◌-◌, ◌/◌, ◌<◌, ◌≤◌, length};
ghost use Rattle.std.specs.Simd.{first_chunks};
ghost use Rattle.kube_meta.specs.Hashes.{stirred, spelled, stirred_by, hash_of};

// An odd number whose bits look drawn by chance: 2^64 by the golden ratio.
const FACTOR: u64 = 0x9e37_79b9_7f4a_7c15;

// The hash of a text, begun with a seed. Its upper bits depend on all of the text.
pub(crate) fn hash(seed: u64, text: &str) -> u64
    ensures { result ≡ hash_of seed text.now }
{
    let bytes = text.as_bytes();
    match bytes.last_chunk::<8>() {
        Some(last) => stirred(front_hash(seed, bytes), u64::from_be_bytes(*last)),
        None => stirred(seed, spelled(bytes)),
    }
}

// The hash of all pieces but the last.
fn front_hash(seed: u64, bytes: &[u8]) -> u64
    requires { 8 ≤ length bytes.now }
    ensures { result ≡ stirred_by seed (first_chunks 8 ((length bytes.now - 1) / 8) bytes.now) }
{
    let (pieces, _) = bytes[..bytes.len() - 1].as_chunks::<8>();
    let mut hash = seed;
    for piece in pieces {
        hash = stirred(hash, u64::from_be_bytes(*piece));
    }
    hash
}

// What a hash becomes by one more number.
pub(crate) fn stirred(hash: u64, number: u64) -> u64
    ensures { result ≡ stirred hash number }
{
    (hash ^ number).wrapping_mul(FACTOR)
}

// The number that a few bytes spell, the first of them the greatest.
fn spelled(bytes: &[u8]) -> u64
    requires { length bytes.now < 8 }
    ensures { result ≡ spelled bytes.now }
{
    let mut number = 0;
    for byte in bytes {
        number = number * 256 + u64::from(*byte);
    }
    number
}
