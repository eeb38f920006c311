//! Words of rows.

ghost use Rattle.std.specs.Prelude.{◌≡◌, ◌==◌, ◌⊎◌, ℕ, IfOk, string_bytes};
ghost use Rattle.std.specs.List.{before_first, after_first};
ghost use Rattle.cases.specs.Words.{Says, HasNoMark};

use crate::rows::wording::Wording;
use std::alloc::{AllocError, Global};

/// The first word, and what stands behind the blank after it.
pub fn split(text: &str) -> (&str, &str)
    ensures first { result.0.now ≡ before_first (λ b. b == 32) text.now }
    ensures rest { result.1.now ≡ after_first (λ b. b == 32) text.now }
{
    text.split_once(' ').unwrap_or((text, ""))
}

/// The words behind a word that begins a line; those of the first such line.
pub fn words_of<'a>(lines: &'a str, word: &str) -> Option<&'a str> {
    for line in lines.lines() {
        let (first, words) = split(line);
        if first == word {
            return Some(words);
        }
    }
    None
}

/// The number that a word says; 0 where it says none.
pub fn number(word: &str) -> u64
    ensures said { (n : ℕ) → Says word.now n → result ≡ n }
    ensures none { Says word.now result ⊎ (result ≡ 0) }
{
    word.parse::<u64>().unwrap_or(0)
}

/// The text that a row's text stands for: `<LF>`, `<CRLF>`, `<CR>`, `<TAB>` and `<SP>` are those bytes, `<FIELD>` is a
/// header field and its line end, and `<64 of ab>` is `ab` so many times. All else stands for itself.
pub fn plain(alloc: Global, text: &str) -> Result<String, AllocError>
    ensures { HasNoMark text.now → IfOk result (λ plain. string_bytes plain ≡ text.now) }
{
    let Some((front, behind)) = text.split_once('<') else {
        return String::from_str(alloc, text);
    };
    let mut plain = Wording::new(alloc);
    plain.add(front);
    for part in behind.split('<') {
        add_part(part, &mut plain);
    }
    plain.whole()
}

// Adds what stands behind a `<`.
fn add_part(part: &str, plain: &mut Wording) {
    let (name, behind) = part.split_once('>').unwrap_or(("", ""));
    match repeated(name) {
        Some((times, piece)) => {
            for _ in 0..times {
                plain.add(piece);
            }
            plain.add(behind);
        }
        None => plain.show(&format_args!("<{part}")),
    }
}

// How often, and what.
fn repeated(name: &str) -> Option<(u32, &str)> {
    if let Some(piece) = named(name) {
        return Some((1, piece));
    }
    let (count, piece) = name.split_once(" of ")?;
    let times = count.parse::<u32>().ok()?;
    Some((times, named(piece).unwrap_or(piece)))
}

fn named(name: &str) -> Option<&'static str> {
    match name {
        "LF" => Some("\n"),
        "CRLF" => Some("\r\n"),
        "CR" => Some("\r"),
        "TAB" => Some("\t"),
        "SP" => Some(" "),
        "FIELD" => Some("X: y\r\n"),
        _ => None,
    }
}
