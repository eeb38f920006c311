//! Pieces of streams, which the lanes of several watches share, and their lines.

ghost use Rattle.std.specs.Prelude.{◌≡◌, ◌↔◌, length, IfOk, IsTrue};
ghost use Rattle.watch_lane.specs.Batches.{Begins};

use encode_once::Shown;
use kube_meta::Memory;
use select_all::{Kind, Selection};
use std::alloc::Global;
use std::marker::Model;
use std::sync::Arc;

/// What a watch is told of one change: an event of the Kubernetes API's watches. The object is shared,
/// and carries the revision of the change. Contracts see the object and the revision in place of the
/// shared pointer to them.
#[derive(Debug, Drop)]
pub struct Line {
    /// What the change is to the watch.
    pub kind: Kind,
    /// The object, with the revision of the change: for a DELETED line as it was before.
    pub shown: Arc<Shown>,
}

impl Model for Line {
    ghost use Rattle.select_all.specs.Streams.{TransitionData};

    ghost Value = { TransitionData };

    ghost view = { λ l. record { kind = l.kind; obj = l.shown.value.obj; rev = l.shown.value.rev } };
}

impl Line {
    /// The same line; the object is shared once more.
    pub fn share(&self) -> Result<Line, Memory>
        ensures { IfOk result (λ line. line ≡ self.now) }
    {
        Ok(Line {
            kind: self.kind,
            shown: Arc::try_clone(&self.shown)?,
        })
    }
}

/// A piece of the stream of a selection: all lines of the revisions above `from` and up to `to`.
#[derive(Drop)]
pub struct Piece {
    /// The revision behind which it begins.
    pub from: u64,
    /// The revision up to which it goes.
    pub to: u64,
    /// Of which objects it is.
    pub selection: Selection,
    /// The transitions of the selection, in the order of their revisions.
    pub lines: Vec<Line>,
}

impl Model for Piece {
    ghost use Rattle.watch_lane.specs.Batches.{PieceData};

    ghost Value = { PieceData };

    ghost view = { λ p. record { from = p.from; to = p.to; selection = p.selection; lines = p.lines.items } };
}

impl Piece {
    /// How many lines it has.
    pub fn len(&self) -> usize
        ensures { result ≡ length self.now.lines }
    {
        self.lines.len()
    }

    /// Whether a watch of this selection that was told all up to a revision goes on with it.
    pub fn begins(&self, selection: &Selection, at: u64) -> bool
        ensures { IsTrue result ↔ Begins self.now selection.now at }
    {
        self.from == at && self.selection.same(selection)
    }

    /// Its lines once more, each with its object shared.
    pub fn copy_lines(&self, alloc: Global) -> Result<Vec<Line>, Memory>
        ensures { IfOk result (λ copies. copies.items ≡ self.now.lines) }
    {
        copies_of(alloc, &self.lines)
    }
}

/// The lines of a piece: taken out of it where nobody shares it, and else copied.
pub fn lines_of(alloc: Global, piece: Arc<Piece>) -> Result<Vec<Line>, Memory>
    ensures { IfOk result (λ lines. lines.items ≡ piece.value.lines) }
{
    match Arc::try_unwrap(piece) {
        Ok(piece) => {
            let Piece { lines, .. } = piece;
            Ok(lines)
        }
        Err(shared) => shared.copy_lines(alloc),
    }
}

fn copies_of(alloc: Global, lines: &[Line]) -> Result<Vec<Line>, Memory>
    ensures { IfOk result (λ copies. copies.items ≡ lines.now) }
{
    let mut copies = Vec::with_capacity(alloc, lines.len())?;
    for line in lines {
        copies.push(line.share()?)?;
    }
    Ok(copies)
}
