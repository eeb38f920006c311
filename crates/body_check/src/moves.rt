//! What a log tells a selection: its transitions, in order.

ghost use Rattle.std.specs.Prelude.{◌≡◌, ◌++◌, IfOk, OnOk, None, filter_map, option_copied, option_map};
ghost use Rattle.std.specs.BTreeMap.{get};
ghost use Rattle.std.specs.Cmp.Lexicographic.{slice_cmp};
ghost use Rattle.std.specs.Ordering.{nat_cmp};
ghost use Rattle.select_all.specs.Selecting.{selects};
ghost use Rattle.select_all.specs.Streams.{events_from, object_of, transition_by};
ghost use Rattle.body_check.specs.Moves.{drop_upto, told_change};

use kube_meta::{Key, Memory, Obj};
use rev_log::{Change, Revision, Rows, make_changes};
use select_all::{Kind, Selection};
use std::alloc::Global;
use std::collections::BTreeMap;
use std::marker::Model;
use std::sync::Arc;

/// What is told of a change: its kind, an object, and the revision of the change. Contracts see the object in place of
/// the shared pointer to it.
#[derive(Debug, Drop)]
pub struct Move {
    pub kind: Kind,
    pub obj: Arc<Obj>,
    pub rev: u64,
}

impl Model for Move {
    ghost use Rattle.select_all.specs.Streams.{TransitionData};

    ghost Value = { TransitionData };

    ghost view = { λ m. record { kind = m.kind; obj = m.obj.value; rev = m.rev } };
}

/// The transitions of a log without base rows.
pub(crate) fn moves_of(
    alloc: Global,
    log: &[Revision],
    selection: &Selection,
) -> Result<Vec<Move>, Memory>
    ensures { IfOk result (λ moves. moves.items
        ≡ filter_map (transition_by (selects selection.now)) (events_from selection.now.resource (λ key. None) log.now)) }
{
    let mut moves = Vec::new(alloc);
    let mut rows = BTreeMap::new(alloc);
    for revision in log {
        add_moves(
            selection,
            &rows,
            revision.rev,
            &revision.changes,
            &mut moves,
        )?;
        make_changes(&mut rows, revision, selection.resource)?;
    }
    Ok(moves)
}

// Adds the transitions of a revision's changes, where these rows stood before.
fn add_moves(
    selection: &Selection,
    rows: &Rows,
    rev: u64,
    changes: &[Change],
    moves: &mut Vec<Move>,
) -> Result<(), Memory>
    ensures { OnOk result (moves.new.items
        ≡ moves.old.items ++ filter_map (told_change selection.now (get (slice_cmp nat_cmp) rows.now) rev) changes.now) }
{
    for change in changes {
        if let Some(told) = move_of(selection, rows, rev, change)? {
            moves.push(told)?;
        }
    }
    Ok(())
}

// What a change is to the selection, where these rows stood before.
fn move_of(
    selection: &Selection,
    rows: &Rows,
    rev: u64,
    change: &Change,
) -> Result<Option<Move>, Memory>
    ensures { IfOk result (λ told. told ≡ told_change selection.now (get (slice_cmp nat_cmp) rows.now) rev change.now) }
{
    if !change.is_of(selection.resource) {
        return Ok(None);
    }
    let before = object_at(rows, &change.key);
    let now = change.new.as_ref();
    let Some(kind) = selection.passes(lent(before), lent(now)) else {
        return Ok(None);
    };
    match kind.told(before, now) {
        Some(obj) => {
            let obj = obj.clone()?;
            Ok(Some(Move { kind, obj, rev }))
        }
        None => Ok(None),
    }
}

// The object at a key.
fn object_at<'a>(rows: &'a Rows, key: &Key) -> Option<&'a Arc<Obj>>
    ensures { option_map (λ obj. obj.now.value) result ≡ object_of (get (slice_cmp nat_cmp) rows.now key.now) }
{
    match rows.get(key) {
        Some(row) => Some(&row.obj),
        None => None,
    }
}

// The object behind a shared pointer, lent.
fn lent(obj: Option<&Arc<Obj>>) -> Option<&Obj>
    ensures { option_copied result ≡ option_map (λ o. o.now.value) obj.entry }
{
    match obj {
        Some(obj) => Some(obj),
        None => None,
    }
}

/// The moves behind the first ones that are at most at a revision.
pub(crate) fn above(moves: &[Move], at: u64) -> &[Move]
    ensures { result.now ≡ drop_upto at moves.now }
{
    for (n, told) in moves.iter().enumerate() {
        if told.rev > at {
            return &moves[n..];
        }
    }
    &moves[moves.len()..]
}
