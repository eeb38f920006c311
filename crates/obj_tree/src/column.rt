//! The words of a page's rows.

ghost use Rattle.std.specs.Prelude.{◌≡◌, ◌≤◌, ◌<◌, ◌+◌, ℕ, true, false, length, take, set, slice_index, IfOk, OnOk, OnErr};
ghost use Rattle.std.specs.List.{insert, remove};
ghost use Rattle.kube_meta.specs.Words.{has_bits, labels_word, fields_word};
ghost use Rattle.obj_tree.specs.Words.{labels_of, fields_of, four_at, HaveFours, IsFirstWith};

use encode_once::Shown;
use kube_meta::{Memory, has_bits};
use std::alloc::Global;
use std::marker::Model;
use std::sync::Arc;

/// The words of rows that stand next to each other: those of their labels, or those of their listed fields. Seen in
/// contracts as their list.
#[derive(Drop)]
pub(crate) struct Column {
    words: Vec<u64>,
    // The bits of each four words, by which these are passed over at once. They are sixteen for the 64 rows of a page;
    // where one has more until it is divided, the first of them has the bits of those too.
    fours: [u64; 16],
}

impl Model for Column {
    ghost use Rattle.std.specs.Prelude.{ℕ, List};
    ghost use Rattle.obj_tree.specs.Words.{HaveFours};

    ghost Value = { List ℕ };

    ghost view = { λ c. c.words.items };

    ghost invariant = { λ c. HaveFours c.fours c.words.items };
}

impl Column {
    // A column of these words.
    pub(crate) fn of(words: Vec<u64>) -> Column
        ensures { result ≡ words.items }
    {
        let fours = fours_of(&words);
        Column { words, fours }
    }

    // The same words once more, with room for another.
    pub(crate) fn copied(&self, alloc: Global) -> Result<Column, Memory>
        ensures { IfOk result (λ column. column ≡ self.now) }
    {
        let mut words = Vec::with_capacity(alloc, self.words.len() + 1)?;
        words.extend_from_slice(&self.words)?;
        let fours = self.fours;
        Ok(Column { words, fours })
    }

    // The bits of each four words.
    pub(crate) fn fours(&self) -> &[u64; 16]
        ensures { HaveFours result.now self.now }
    {
        &self.fours
    }

    // Puts a word at a place, before those that stand there.
    pub(crate) fn insert(&mut self, place: usize, word: u64) -> Result<(), Memory>
        requires { place ≤ length self.old }
        ensures ok { OnOk result (self.new ≡ insert self.old place word) }
        ensures err { OnErr result (self.new ≡ self.old) }
    {
        self.words.insert(place, word)?;
        self.fours = fours_of(&self.words);
        Ok(())
    }

    // Puts a word in place of the one at a place. Most rows keep their words, and then there is nothing to do.
    pub(crate) fn replace(&mut self, place: usize, word: u64)
        requires { place < length self.old }
        ensures { self.new ≡ set self.old place word }
    {
        if self.words[place] == word {
            return;
        }
        self.words[place] = word;
        self.fours = fours_of(&self.words);
    }

    // Removes the word at a place.
    pub(crate) fn remove(&mut self, place: usize)
        requires { place < length self.old }
        ensures { self.new ≡ remove self.old place }
    {
        self.words.remove(place);
        self.fours = fours_of(&self.words);
    }

    // Leaves so many words at most, and takes no more room than these need.
    pub(crate) fn cut(&mut self, len: usize)
        ensures { self.new ≡ take len self.old }
    {
        self.words.truncate(len);
        self.words.shrink_to_fit();
        self.fours = fours_of(&self.words);
    }

    // The place of the first word from a place on that has each bit of a mask, or the end. Where the mask has no bit
    // nothing is looked at.
    pub(crate) fn first_with(&self, from: usize, mask: u64) -> usize
        requires { from ≤ length self.now }
        ensures { IsFirstWith mask self.now from result }
    {
        if mask == 0 {
            return from;
        }
        first_with(&self.fours, &self.words, from, mask)
    }
}

/// The words of the labels of rows.
pub(crate) fn labels_of(alloc: Global, rows: &[Arc<Shown>]) -> Result<Column, Memory>
    ensures { IfOk result (λ column. column ≡ labels_of rows.now) }
{
    let mut words = Vec::with_capacity(alloc, rows.len())?;
    for shown in rows {
        words.push(shown.labels())?;
    }
    Ok(Column::of(words))
}

/// The words of the listed fields of rows.
pub(crate) fn fields_of(alloc: Global, rows: &[Arc<Shown>]) -> Result<Column, Memory>
    ensures { IfOk result (λ column. column ≡ fields_of rows.now) }
{
    let mut words = Vec::with_capacity(alloc, rows.len())?;
    for shown in rows {
        words.push(shown.fields())?;
    }
    Ok(Column::of(words))
}

/// Puts the words of a row at a place, before those that stand there. Both columns stay as they are where there is no
/// memory for one of them.
pub(crate) fn put_words(
    fields: &mut Column,
    labels: &mut Column,
    place: usize,
    shown: &Shown,
) -> Result<(), Memory>
    requires fields { place ≤ length fields.old }
    requires labels { place ≤ length labels.old }
    ensures ok { OnOk result ((fields.new ≡ insert fields.old place (fields_word shown.now.obj.fields)) × (labels.new ≡ insert labels.old place (labels_word shown.now.obj.labels))) }
    ensures err { OnErr result ((fields.new ≡ fields.old) × (labels.new ≡ labels.old)) }
{
    fields.insert(place, shown.fields())?;
    match labels.insert(place, shown.labels()) {
        Ok(()) => Ok(()),
        Err(refused) => {
            fields.remove(place);
            Err(refused)
        }
    }
}

// The bits of each four words.
fn fours_of(words: &[u64]) -> [u64; 16]
    ensures { HaveFours result words.now }
{
    let mut fours = [0; 16];
    for (at, word) in words.iter().enumerate() {
        add(&mut fours, at, *word);
    }
    fours
}

// Adds the bits of the word at a place to those of its four.
fn add(fours: &mut [u64; 16], at: usize, word: u64)
    ensures has { has_bits (slice_index fours.new (four_at at)) word ≡ true }
    ensures keeps { (four mask : ℕ) → has_bits (slice_index fours.old four) mask ≡ true → has_bits (slice_index fours.new four) mask ≡ true }
{
    fours[at / 4 % 16] |= word;
}

fn first_with(fours: &[u64; 16], words: &[u64], from: usize, mask: u64) -> usize
    requires from { from ≤ length words.now }
    requires fours { HaveFours fours.now words.now }
    ensures { IsFirstWith mask words.now from result }
{
    let mut at = from;
    while at < words.len() {
        let over = lacking(fours, words, at, mask);
        if over == 0 {
            return at;
        }
        let step = over.min(words.len() - at);
        at += step;
    }
    at
}

// How many words from a place on are known to lack a bit of a mask: the rest of a four that lacks one, or the word
// at the place; none where that has each bit.
fn lacking(fours: &[u64; 16], words: &[u64], at: usize, mask: u64) -> usize
    requires inside { at < length words.now }
    requires fours { HaveFours fours.now words.now }
    ensures lack { (k : ℕ) → at ≤ k → k < at + result → k < length words.now → has_bits (slice_index words.now k) mask ≡ false }
    ensures has { result ≡ 0 → has_bits (slice_index words.now at) mask ≡ true }
{
    if has_bits(fours[at / 4 % 16], mask) {
        return lack_of(words[at], mask);
    }
    4 - at % 4
}

// None where a word has each bit of a mask, and else one.
fn lack_of(word: u64, mask: u64) -> usize
    ensures has { result ≡ 0 → has_bits word mask ≡ true }
    ensures lack { 0 < result → (result ≡ 1) × (has_bits word mask ≡ false) }
{
    if has_bits(word, mask) {
        return 0;
    }
    1
}
