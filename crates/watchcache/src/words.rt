//! The words of a command line.

ghost use Rattle.std.specs.Prelude.{◌≡◌, IfOk, bytes_eq, map, string_bytes};
ghost use Rattle.std.specs.List.{list_any};
ghost use Rattle.watchcache.specs.Words as spec;

use crate::asked::{Asked, Fault, WordsNo};
use crate::reading::{read_check, read_load, read_serve, read_settings};
use std::alloc::Global;

/// What the words of a command line ask for, behind the program's name: help, the version, one session, a server, a
/// load, or a check.
pub fn read_words(alloc: Global, words: &[String]) -> Result<Asked, WordsNo>
    ensures reads { spec.ReadsWords (map string_bytes words.now) result }
    ensures range { IfOk result spec.IsInRange }
{
    if has_word(words, "--help") || has_word(words, "-h") {
        return Ok(Asked::Help);
    }
    if has_word(words, "--version") {
        return Ok(Asked::Version);
    }
    if begins_with(words, "session") {
        return match read_settings(alloc, words) {
            Ok(settings) => Ok(Asked::Session(settings)),
            Err(fault) => Err(fault),
        };
    }
    if begins_with(words, "serve") {
        return match read_serve(alloc, words) {
            Ok(ask) => Ok(Asked::Serve(ask)),
            Err(fault) => Err(fault),
        };
    }
    if begins_with(words, "load") {
        return match read_load(alloc, words) {
            Ok(options) => Ok(Asked::Load(options)),
            Err(fault) => Err(fault),
        };
    }
    if begins_with(words, "check") {
        return match read_check(alloc, words) {
            Ok(()) => Ok(Asked::Check),
            Err(fault) => Err(fault),
        };
    }
    Err(WordsNo::Bad(Fault::NoCommand))
}

// Whether one of them is this word.
fn has_word(words: &[String], word: &str) -> bool
    ensures { result ≡ spec.has_word word.now (map string_bytes words.now) }
{
    has_text(words, word)
}

fn has_text(words: &[String], word: &str) -> bool
    ensures { result ≡ list_any (λ w. bytes_eq (string_bytes w) word.now) words.now }
{
    words.iter().any(|w| w.as_str() == word)
}

/// Whether the first of them is this word.
pub(crate) fn begins_with(words: &[String], word: &str) -> bool
    ensures { result ≡ spec.begins_with word.now (map string_bytes words.now) }
{
    match words {
        [first, ..] => first.as_str() == word,
        [] => false,
    }
}
