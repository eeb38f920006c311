//! Records of unknown logs, read.

ghost use Rattle.std.specs.Prelude.{◌≡◌, ◌≢◌, IfOk, IfErr, MatchOption, None, map};
ghost use Rattle.watch_record.specs.Between.{AreNoParts, IsAskRead, IsBetweenIn, IsBetweenOf, IsFirstRead, IsNoBetween, IsNoFirst, all_lines, asked_from};

use crate::asking::read_ask;
use crate::between::Between;
use crate::between_lists::{later_of, list_of};
use crate::between_parts::{line_of, lines_of, texts_of, without_end};
use crate::between_refusal::BetweenNo;
use crate::header::Header;
use crate::watched::read_watched;
use kube_meta::{Memory, Resource, Row};
use std::alloc::Global;
use watch_rules::{Start, WatchAsk};

const MOST_BYTES: usize = 268_435_456;

/// Reads a record of an unknown log: a first line that says what was watched; a list; an empty line; the lines of the
/// body of a watch from the list's revision; and behind an empty line each, later lists.
pub fn read_between<'a>(alloc: Global, bytes: &'a [u8]) -> Result<Between<'a>, BetweenNo>
    ensures read { IfOk result (IsBetweenOf bytes.now) }
    ensures refused { IfErr result (λ why. why ≢ BetweenNo.Memory → IsNoBetween bytes.now why) }
{
    let (line, rest) = line_of(bytes);
    let Some(header) = read_watched(alloc, line)? else {
        return Err(BetweenNo::BadHeader);
    };
    if bytes.len() > MOST_BYTES {
        return Err(BetweenNo::TooLong);
    }
    let texts = texts_of(alloc, rest)?;
    match texts.as_slice() {
        [first, body, later @ ..] => read_parts(alloc, &header, first, body, without_end(later)),
        _ => Err(BetweenNo::NoBody),
    }
}

// The record of a header and the parts behind it.
fn read_parts<'a>(
    alloc: Global,
    header: &Header,
    first: &[u8],
    body: &'a [u8],
    later: &[&[u8]],
) -> Result<Between<'a>, BetweenNo>
    ensures read { IfOk result (λ case. IsBetweenIn header.now (record { first = first.now; body = all_lines body.now; later = map (λ text. text.now) later.now }) case) }
    ensures refused { IfErr result (λ why. why ≢ BetweenNo.Memory →
        AreNoParts header.now (record { first = first.now; body = all_lines body.now; later = map (λ text. text.now) later.now }) why) }
{
    let Some((ask, from)) = ask_from(alloc, header)? else {
        return Err(BetweenNo::BadAsk);
    };
    let rows = first_of(alloc, header.resource, from, first)?;
    let later = later_of(alloc, header.resource, from, later)?;
    let lines = lines_of(alloc, body)?;
    Ok(Between {
        ask,
        from,
        rows,
        lines,
        later,
    })
}

// The watch that a header asks for, and its revision, if it asks for one from a revision.
fn ask_from(alloc: Global, header: &Header) -> Result<Option<(WatchAsk, u64)>, Memory>
    ensures { IfOk result (λ found. MatchOption found (asked_from header.now ≡ None) (λ asked. IsAskRead header.now asked.0 asked.1)) }
{
    let Some(ask) = read_ask(alloc, header)? else {
        return Ok(None);
    };
    match ask.start {
        Start::FromRevision(from) => Ok(Some((ask, from))),
        Start::FromState(_) | Start::FromHere(_) => Ok(None),
    }
}

// The rows of the first list, which stands at the revision of the watch.
fn first_of(
    alloc: Global,
    resource: Resource,
    from: u64,
    text: &[u8],
) -> Result<Vec<Row>, BetweenNo>
    ensures read { IfOk result (λ rows. IsFirstRead resource text.now rows.items from) }
    ensures refused { IfErr result (λ why. why ≢ BetweenNo.Memory → (why ≡ BetweenNo.BadList 0) × IsNoFirst resource text.now from) }
{
    let Some((rows, at)) = list_of(alloc, resource, text)? else {
        return Err(BetweenNo::BadList { list: 0 });
    };
    if at != from {
        return Err(BetweenNo::BadList { list: 0 });
    }
    Ok(rows)
}
