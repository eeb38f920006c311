//! Records, read.

ghost use Rattle.std.specs.Prelude.{◌≡◌, ◌≢◌, ◌≤◌, ◌^◌, ◌+◌, [], ◌∷◌, ◌++◌, IfOk, IfErr, IfSome, IsSome, OnOk, None, Some, true, false, length, option_map, IsTrue};
ghost use Rattle.watch_record.specs.Lines.{Parts, first_line, later_lines, lines_in, parts_of};
ghost use Rattle.watch_record.specs.Headers.{is_in_range};
ghost use Rattle.watch_record.specs.Revisions.{bad_place};
ghost use Rattle.watch_record.specs.Reading.{KeepsLog, ReadsLog};
ghost use Rattle.watch_record.specs.Records.{text_fault, log_fault, record_fault, max_bytes, IsReadOf, IsRecordOf};
ghost use Rattle.watch_record.specs.Records as records;

use crate::asking::read_ask;
use crate::header::Header;
use crate::heading::read_header;
use crate::parts::{is_ended, log_length, next_line};
use crate::records::Record;
use crate::refusals::RecordNo;
use crate::revisions::read_revision;
use kube_meta::{Memory, Text};
use rev_log::Revision;
use std::alloc::Global;
use watch_rules::WatchAsk;

const MAX_BYTES: usize = 67_108_864;

const MAX_REVISIONS: usize = 10_000;

/// Reads a record: a first line that says what was watched, the lines of the log, an empty line, and the lines of the
/// watch's body. Any bytes are one, or are refused for the first reason that holds; `Memory` alone may come at any.
pub fn read_record(alloc: Global, bytes: &[u8]) -> Result<Record, RecordNo>
    ensures read { IfOk result (λ case. (record_fault bytes.now ≡ None) × IsRecordOf bytes.now case) }
    ensures refused { IfErr result (λ fault. fault ≢ RecordNo.Memory → record_fault bytes.now ≡ Some fault) }
{
    if is_too_long(bytes) {
        return Err(RecordNo::TooLong);
    }
    match str::from_utf8(bytes) {
        Ok(text) => read_text(alloc, text),
        Err(_) => Err(RecordNo::BadHeader),
    }
}

fn is_too_long(bytes: &[u8]) -> bool
    ensures { result ≡ records.is_too_long bytes.now }
{
    bytes.len() > MAX_BYTES || has_long_log(log_length(bytes))
}

fn has_long_log(revisions: Option<usize>) -> bool
    ensures { result ≡ records.has_long_log revisions }
{
    match revisions {
        Some(revisions) => revisions > MAX_REVISIONS,
        None => false,
    }
}

// The record that a text is.
fn read_text(alloc: Global, text: &str) -> Result<Record, RecordNo>
    requires { length text.now ≤ max_bytes }
    ensures read { IfOk result (λ case. (text_fault text.now ≡ None) × IsRecordOf text.now case) }
    ensures refused { IfErr result (λ fault. fault ≢ RecordNo.Memory → text_fault text.now ≡ Some fault) }
{
    let (line, rest) = head_of(text);
    let Some(header) = read_header(alloc, line)? else {
        return Err(RecordNo::BadHeader);
    };
    if log_length(text.as_bytes()).is_none() || !is_ended(text.as_bytes()) {
        return Err(RecordNo::NoBody);
    }
    read_behind(alloc, &header, rest)
}

// The first line of a text, and what stands behind it.
fn head_of(text: &str) -> (&str, &str)
    ensures line { result.0.now ≡ first_line text.now }
    ensures rest { lines_in result.1.now ≡ later_lines text.now }
    ensures short { length result.1.now ≤ length text.now }
{
    match next_line(text) {
        Some(pieces) => pieces,
        None => (text, ""),
    }
}

// The record of a header and what stands behind it.
fn read_behind(alloc: Global, header: &Header, rest: &str) -> Result<Record, RecordNo>
    requires ranged { IsTrue (is_in_range header.now) }
    requires parted { IsSome (parts_of (lines_in rest.now)) }
    requires short { length rest.now ≤ max_bytes }
    ensures read { IfOk result (λ case. IfSome (parts_of (lines_in rest.now)) (λ (parts : Parts).
        (log_fault header.now parts.log ≡ None) × IsReadOf header.now parts case)) }
    ensures refused { IfErr result (λ fault. fault ≢ RecordNo.Memory →
        IfSome (parts_of (lines_in rest.now)) (λ (parts : Parts). log_fault header.now parts.log ≡ Some fault)) }
{
    let (log, body) = read_log(alloc, header.first, rest)?;
    if !has_floor(header, log.as_slice()) {
        return Err(RecordNo::BadFloor);
    }
    let Some(ask) = read_ask(alloc, header)? else {
        return Err(RecordNo::BadAsk);
    };
    let lines = read_lines(alloc, body)?;
    Ok(record_of(header, log, ask, lines))
}

fn record_of(header: &Header, log: Vec<Revision>, ask: WatchAsk, lines: Vec<Text>) -> Record
    requires ranged { IsTrue (is_in_range header.now) }
    requires kept { KeepsLog header.now.first log.items }
    requires floor { IsTrue (records.has_floor header.now (length log.items)) }
    ensures first { result.first ≡ header.now.first }
    ensures floor { result.floor ≡ header.now.floor }
    ensures window { result.window ≡ header.now.window }
    ensures log { result.log.items ≡ log.items }
    ensures ask { result.ask ≡ ask }
    ensures lines { result.lines.items ≡ lines.items }
{
    Record {
        log,
        first: header.first,
        floor: header.floor,
        window: header.window,
        ask,
        lines,
    }
}

fn has_floor(header: &Header, log: &[Revision]) -> bool
    requires { header.now.first + length log.now ≤ 2 ^ 62 }
    ensures { result ≡ records.has_floor header.now (length log.now) }
{
    header.first <= header.floor && header.floor <= header.first + log.len() as u64
}

// The log that stands before the first empty line, and what stands behind that.
fn read_log(alloc: Global, first: u64, rest: &str) -> Result<(Vec<Revision>, &str), RecordNo>
    requires in_range { first ≤ 2 ^ 62 }
    requires parted { IsSome (parts_of (lines_in rest.now)) }
    requires short { length rest.now ≤ max_bytes }
    ensures kept { IfOk result (λ read. KeepsLog first read.0.items) }
    ensures read { IfOk result (λ read. IfSome (parts_of (lines_in rest.now)) (λ (parts : Parts).
        ReadsLog first parts.log read.0.items × (lines_in read.1.now ≡ parts.body))) }
    ensures refused { IfErr result (λ fault. fault ≢ RecordNo.Memory →
        IfSome (parts_of (lines_in rest.now)) (λ (parts : Parts).
        option_map (λ line. RecordNo.BadLog line) (bad_place (first + 1) parts.log) ≡ Some fault)) }
{
    let mut log = Vec::new(alloc);
    let mut left = rest;
    'lines: loop {
        let Some((line, more)) = next_line(left) else {
            unreachable!()
        };
        left = more;
        if line.is_empty() {
            return Ok((log, left));
        }
        let place = log.as_slice().len() as u64;
        match read_revision(alloc, line, first + 1 + place)? {
            Some(revision) => keep(&mut log, revision)?,
            None => return Err(RecordNo::BadLog { line: place }),
        }
    }
}

fn keep(log: &mut Vec<Revision>, revision: Revision) -> Result<(), Memory>
    ensures { OnOk result (log.new.items ≡ log.old.items ++ revision ∷ []) }
{
    log.push(revision)?;
    Ok(())
}

// The lines of a text.
fn read_lines(alloc: Global, text: &str) -> Result<Vec<Text>, Memory>
    ensures { IfOk result (λ lines. lines.items ≡ lines_in text.now) }
{
    let mut lines = Vec::new(alloc);
    let mut left = text;
    'lines: while let Some((line, more)) = next_line(left) {
        lines.push(Text::new(alloc, line)?)?;
        left = more;
    }
    Ok(lines)
}
