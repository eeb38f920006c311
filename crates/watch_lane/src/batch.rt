//! Batches, and the lines that they tell.

use crate::piece::Piece;
use std::marker::Model;
use std::sync::Arc;
use up_api::{LogFacts, News};

/// A piece of the stream of one watch, of at least one line, with what a pass of the log tells that has seen it.
/// The piece is shared by the watches that are told the same. Contracts see the piece's fields in place of the shared
/// pointer to it, and a pass.
#[derive(Drop)]
pub struct Batch<N: LogFacts> {
    /// The piece, which may be shared.
    pub piece: Arc<Piece>,
    /// What a pass of the log tells, which has seen the revision up to which the piece goes.
    pub note: News<N>,
}

impl<N: LogFacts> Model for Batch<N> {
    ghost use Rattle.watch_lane.specs.Batches.{BatchData, IsBatch, noted};

    ghost Value = { BatchData };

    ghost view = { λ b. noted b.piece.value b.note };

    ghost invariant = { λ b. IsBatch N.base (noted b.piece.value b.note) };
}

impl<N: LogFacts> Batch<N> {
    ghost use Rattle.std.specs.Prelude.{◌≡◌, ◌≢◌, ◌≤◌, [], length};
    ghost use Rattle.rev_front.specs.Passes.{end_from};
    ghost use Rattle.select_all.specs.Streams.{transitions};
    ghost use Rattle.up_api.specs.Sections.{log_of};
    ghost use Rattle.watch_lane.specs.Batches.{IsBatch, noted};

    /// The batch of a piece and of what a pass tells that has seen it.
    pub fn new(piece: Arc<Piece>, note: News<N>) -> Batch<N>
        requires within { piece.value.to ≤ end_from note.first note.seen }
        requires lines_are { piece.value.lines ≡ transitions (log_of N.base note) piece.value.selection piece.value.from piece.value.to }
        requires some { piece.value.lines ≢ [] }
        ensures { result ≡ noted piece.value note }
    {
        Batch { piece, note }
    }

    /// How many lines it has.
    pub fn len(&self) -> usize
        ensures value { result ≡ length self.now.lines }
        ensures some { 1 ≤ result }
        ensures batch { IsBatch N.base self.now }
    {
        self.piece.len()
    }
}
