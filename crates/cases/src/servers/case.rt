//! How a case is written, line by line, and what its lines say.

use crate::rows::{Wording, number, plain, says_nothing, split, words_of};
use std::alloc::{AllocError, Global};

/// The words by which the lines of a case begin.
const WORDS: [&str; 20] = [
    "server",
    "workers",
    "open",
    "connections",
    "fails",
    "end",
    "cluster",
    "dials",
    "says",
    "connection",
    "waits",
    "lasts",
    "bytes",
    "reads",
    "writes",
    "holds",
    "minute",
    "late",
    "stop",
    "bell",
];

/// Tells which lines of a case are none.
pub fn tell_unknown(case: &str, told: &mut Wording) {
    for line in case.lines().skip(1) {
        let (word, _) = split(line);
        if !says_nothing(line) && word != "wants" && !WORDS.contains(&word) {
            told.show(&format_args!("    no line of a case: {line}\n"));
        }
    }
}

/// The number behind a word that begins a line, or else the usual one.
pub fn number_in(lines: &str, word: &str, usual: u64) -> u64 {
    match words_of(lines, word) {
        Some(words) => number(words),
        None => usual,
    }
}

/// Tells the bytes that the words stand for behind each line's first word.
pub fn tell_bytes(
    alloc: Global,
    lines: &str,
    word: &str,
    told: &mut Wording,
) -> Result<(), AllocError> {
    for line in lines.lines() {
        let (first, words) = split(line);
        if first == word {
            told.add(plain(alloc, words)?.as_str());
        }
    }
    Ok(())
}

/// Tells the words behind each line's first word, line by line.
pub fn tell_words(lines: &str, word: &str, told: &mut Wording) {
    for line in lines.lines() {
        let (first, words) = split(line);
        if first == word {
            told.show(&format_args!("{words}\n"));
        }
    }
}
