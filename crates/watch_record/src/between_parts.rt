//! The parts of a record of an unknown log.

ghost use Rattle.std.specs.Prelude.{◌≡◌, IfOk, map, true};
ghost use Rattle.std.specs.List.{after_first};
ghost use Rattle.watch_record.specs.Lines.{is_feed, first_line};
ghost use Rattle.watch_record.specs.Between.{all_lines, but_empty_last, texts_at};

use kube_meta::Memory;
use memchr::memchr;
use std::alloc::Global;

// The first line of bytes, without its line feed, and what stands behind it; all of them where there is no line feed.
pub(crate) fn line_of(bytes: &[u8]) -> (&[u8], &[u8])
    ensures line { result.0.now ≡ first_line bytes.now }
    ensures rest { result.1.now ≡ after_first is_feed bytes.now }
{
    match memchr(b'\n', bytes) {
        Some(at) => (&bytes[..at], &bytes[at + 1..]),
        None => (bytes, &bytes[bytes.len()..]),
    }
}

// The lines of a text, without their line feeds.
pub(crate) fn lines_of<'a>(alloc: Global, text: &'a [u8]) -> Result<Vec<&'a [u8]>, Memory>
    ensures { IfOk result (λ lines. map (λ line. line.now) lines.items ≡ all_lines text.now) }
{
    let mut lines = Vec::new(alloc);
    let mut rest = text;
    'lines: while !rest.is_empty() {
        let (line, more) = line_of(rest);
        lines.push(line)?;
        rest = more;
    }
    Ok(lines)
}

// The texts that empty lines part.
pub(crate) fn texts_of<'a>(alloc: Global, bytes: &'a [u8]) -> Result<Vec<&'a [u8]>, Memory>
    ensures { IfOk result (λ texts. map (λ text. text.now) texts.items ≡ texts_at true bytes.now) }
{
    let mut texts = Vec::new(alloc);
    let mut start = 0;
    let mut fresh = true;
    for (at, byte) in bytes.iter().enumerate() {
        let feed = *byte == b'\n';
        if feed && fresh {
            texts.push(&bytes[start..at])?;
            start = at + 1;
        }
        fresh = feed;
    }
    texts.push(&bytes[start..])?;
    Ok(texts)
}

// Texts without the last, where that is empty.
pub(crate) fn without_end<'t, 'a>(texts: &'t [&'a [u8]]) -> &'t [&'a [u8]]
    ensures { map (λ text. text.now) result.now ≡ but_empty_last (map (λ text. text.now) texts.now) }
{
    let ends_empty = match texts.last() {
        Some(last) => last.is_empty(),
        None => false,
    };
    if ends_empty {
        &texts[..texts.len() - 1]
    } else {
        texts
    }
}
