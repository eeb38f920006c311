//! The lines of an opening.

ghost use Rattle.std.specs.Prelude.{◌≡◌, ◌++◌, ◌∷◌, OnOk, ℕ, List, [], ◌≤◌, Some};
ghost use Rattle.edge_io.specs.Told.{prepended};
ghost use Rattle.mirror_link.specs.Asking.{CountsReads};
ghost use Rattle.line_stream.specs.Readers.{most_line};
ghost use Rattle.mirror_link.specs.Reading.{Adds, ReadsRows, Steps, most_opening};
ghost use Rattle.mirror_link.specs.Reading as reading;
ghost use Rattle.select_all.specs.declared.selection.Selection.{Selection as Asked};
ghost use Rattle.watch_lines.specs.declared.peer_line.PeerLine.TheVariants as peer;

use crate::LinkNo;
use edge_io::Source;
use kube_meta::{Key, Memory, Obj, Resource, Row};
use line_stream::{LineReader, Step};
use select_all::{Kind, Selection};
use std::alloc::Global;
use std::sync::Arc;
use watch_lines::{PeerLine, read_line};

// Whether the key is above that of the last row.
fn is_next(rows: &[Row], key: &Key) -> bool
    ensures { result ≡ reading.is_above_last rows.now key.now }
{
    match rows.last() {
        Some(row) => row.obj.key < *key,
        None => true,
    }
}

// Whether no row is younger than a revision.
fn are_upto(rows: &[Row], at: u64) -> bool
    ensures { result ≡ reading.are_upto rows.now at }
{
    rows.iter().all(|row| row.rev <= at)
}

// Adds a row.
fn add(alloc: Global, rows: &mut Vec<Row>, obj: Obj, rev: u64) -> Result<(), Memory>
    ensures { OnOk result (rows.new.items ≡ rows.old.items ++ record { obj = obj; rev = rev } ∷ []) }
{
    let row = Row {
        obj: Arc::new(alloc, obj)?,
        rev,
    };
    rows.push(row)?;
    Ok(())
}

// Takes an event: adds its row.
fn take_event(
    alloc: Global,
    selection: &Selection,
    rows: &mut Vec<Row>,
    kind: Kind,
    obj: Obj,
    rev: u64,
) -> Result<Option<u64>, LinkNo>
    ensures { Adds selection.now rows.old.items (Some (peer.Told kind obj rev)) result rows.new.items }
{
    match kind {
        Kind::Added => {}
        Kind::Modified => return Err(LinkNo::BadLine),
        Kind::Deleted => return Err(LinkNo::BadLine),
    }
    if !selection.selects(&obj) {
        return Err(LinkNo::BadLine);
    }
    if !is_next(rows, &obj.key) {
        return Err(LinkNo::BadLine);
    }
    match add(alloc, rows, obj, rev) {
        Ok(()) => Ok(None),
        Err(_) => Err(LinkNo::Memory),
    }
}

// Takes a bookmark: answers the base.
fn take_mark(rows: &[Row], at: u64, closing: bool) -> Result<Option<u64>, LinkNo>
    ensures { (s : Asked) → Adds s rows.now (Some (peer.Bookmark at closing)) result rows.now }
{
    if closing && are_upto(rows, at) {
        Ok(Some(at))
    } else {
        Err(LinkNo::BadLine)
    }
}

// Takes the line that was read.
fn take_line(
    alloc: Global,
    selection: &Selection,
    rows: &mut Vec<Row>,
    line: Option<PeerLine>,
) -> Result<Option<u64>, LinkNo>
    ensures { Adds selection.now rows.old.items line result rows.new.items }
{
    match line {
        None => Err(LinkNo::BadLine),
        Some(PeerLine::Told { kind, obj, rev }) => take_event(
            alloc, selection, rows, kind, obj, rev,
        ),
        Some(PeerLine::Bookmark { at, closing }) => take_mark(rows, at, closing),
        Some(PeerLine::Error { code }) => Err(LinkNo::Told { code }),
    }
}

// Reads one more line.
fn next_row<S: Source>(
    alloc: Global,
    selection: &Selection,
    reader: &mut LineReader,
    rows: &mut Vec<Row>,
    source: &mut S,
) -> Result<Option<u64>, LinkNo>
    ensures reads { (taken : List ℕ) × (S.left source.old ≡ prepended taken (S.left source.new))
        × Steps selection.now rows.old.items reader.old.at (reader.old.at.kept ++ taken) (S.left source.new) result rows.new.items reader.new.at }
    ensures counted { CountsReads result (S.faults source.old) (S.faults source.new) }
{
    match reader.next_line(source) {
        Ok(Step::Line) => {}
        Ok(Step::Over) => return Err(LinkNo::CutShort),
        Err(fault) => return Err(LinkNo::from(fault)),
    }
    match read_line(alloc, Resource::Pods, reader.line()) {
        Ok(line) => take_line(alloc, selection, rows, line),
        Err(_) => Err(LinkNo::Memory),
    }
}

/// Reads the rows of an opening from a new connection, and answers the base at which they stand.
pub(crate) fn read_rows<S: Source>(
    alloc: Global,
    selection: &Selection,
    reader: &mut LineReader,
    rows: &mut Vec<Row>,
    source: &mut S,
) -> Result<u64, LinkNo>
    requires fresh { (reader.old.at.kept ≡ []) × (reader.old.at.room ≡ Some most_opening) × (reader.old.at.most ≡ most_line) }
    requires empty { rows.old.items ≡ [] }
    ensures reads { (taken : List ℕ) × (S.left source.old ≡ prepended taken (S.left source.new))
        × ReadsRows selection.now taken (S.left source.new) result rows.new.items reader.new.at }
    ensures counted { CountsReads result (S.faults source.old) (S.faults source.new) }
{
    match reader.read_head(source) {
        Ok(()) => {}
        Err(fault) => return Err(LinkNo::from(fault)),
    }
    loop {
        match next_row(alloc, selection, reader, rows, source) {
            Ok(None) => {}
            Ok(Some(base)) => return Ok(base),
            Err(why) => return Err(why),
        }
    }
}
