//! Words of bits, by which most objects that a selection doesn't hold are passed over without a look at them.

ghost use Rattle.std.specs.Prelude.{◌≡◌};
ghost use Rattle.kube_meta.specs.Words.{bits_of, four_bits_of, label_bits, field_bits, labels_word, fields_word, has_bits};

use crate::hashes::{hash, stirred};
use crate::{Fields, Labels};

/// Bits that the words of an object must have for it to fit: that of its labels, and that of its listed fields.
#[derive(Clone, Copy, Debug)]
pub struct Mask {
    pub labels: u64,
    pub fields: u64,
}

/// The bits of a label with its value: two of 64, which others may have too.
#[tactic(auto, unfolding(crate::specs::Words::label_bits))]
pub fn label_bits(name: &str, value: &str) -> u64
    ensures { result ≡ label_bits name.now value.now }
{
    bits_of(hash(hash(0, name), value))
}

/// The bits of the listed field at a place with its value: four of 64, since a word has few fields. There are none
/// for the empty value, which a field that isn't there has too.
#[tactic(auto, unfolding(crate::specs::Words::field_bits))]
pub fn field_bits(place: usize, value: &str) -> u64
    ensures { result ≡ field_bits place value.now }
{
    if value.is_empty() {
        return 0;
    }
    four_bits_of(hash(place as u64, value))
}

/// Whether a word has each bit of a mask.
pub fn has_bits(word: u64, mask: u64) -> bool
    ensures { result ≡ has_bits word mask }
{
    word | mask == word
}

/// The bits of an object's labels.
pub fn labels_word(labels: &Labels) -> u64
    ensures { result ≡ labels_word labels.now }
{
    let mut word = 0;
    for (name, value) in labels.pairs() {
        word |= label_bits(name.as_str(), value.as_str());
    }
    word
}

/// The bits of an object's listed fields.
pub fn fields_word(fields: &Fields) -> u64
    ensures { result ≡ fields_word fields.now }
{
    let mut word = 0;
    for place in 0..fields.len() {
        if let Some(value) = fields.get(place) {
            word |= field_bits(place, value.as_str());
        }
    }
    word
}

// Two bits of 64, told by the upper twelve of a hash.
fn bits_of(hash: u64) -> u64
    ensures { result ≡ bits_of hash }
{
    1 << (hash >> 58) | 1 << (hash >> 52 & 63)
}

// Four bits of 64: two that are told by a hash, and two by the hash stirred once more, with its own upper half.
fn four_bits_of(hash: u64) -> u64
    ensures { result ≡ four_bits_of hash }
{
    bits_of(hash) | bits_of(stirred(hash, hash >> 32))
}
