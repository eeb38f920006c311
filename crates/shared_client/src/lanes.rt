//! What comes by the lanes of watches.

ghost use Rattle.std.specs.Prelude.{◌≡◌, ℕ, IfOk, IfSome};
ghost use Rattle.rev_front.specs.Passes.{IsPass, Pass as PassData};
ghost use Rattle.rev_log.specs.Changes.{RevisionData};
ghost use Rattle.rev_log.specs.Logs.{Fits};
ghost use Rattle.up_api.specs.Sections.{Learns};
ghost use Rattle.watch_lane.specs.Batches.{IsBatch};
ghost use Rattle.client_api.specs.Turns.{IsWatchTurn};

use client_api::Took;
use kube_meta::Memory;
use select_all::Selection;
use std::alloc::Global;
use up_api::{LogFacts, Pass};
use watch_lane::{Batch, LaneOut, lines_of};

// The most batches that wait in one lane.
const MOST_BATCHES: usize = 1_024;

/// The next batch of a lane that goes on from the watch's position. Others were told from the ring already, and are
/// dropped. It takes no lock.
pub fn next_batch<N: LogFacts>(
    lane: &mut LaneOut<N>,
    selection: &Selection,
    position: u64,
) -> Option<Batch<N>>
    ensures batch { IfSome result (IsBatch N.base) }
    ensures goes_on { IfSome result (λ batch. (batch.from ≡ position) × (batch.selection ≡ selection.now)) }
{
    for _ in 0..MOST_BATCHES {
        let Some(batch) = lane.ready() else {
            return None;
        };
        if batch.piece.begins(selection, position) {
            return Some(batch);
        }
    }
    None
}

/// A batch as what a turn gives. What comes with it knows its lines. These are copied where other watches
/// share them, by each watch for itself and without any lock. Where there is no memory for that the batch is lost, and
/// the ring tells what it told.
pub fn received<N: LogFacts>(
    alloc: Global,
    told: &mut Pass<N>,
    batch: Batch<N>,
) -> Result<Took, Memory>
    requires batch { IsBatch N.base batch }
    ensures learns { Learns told.old told.new }
    ensures lawful { IsPass Fits told.new }
    ensures turn { IfOk result (λ took. (window : ℕ) (p : PassData RevisionData) →
        IsWatchTurn N.base window p (record { selection = batch.selection; position = batch.from }) took told.new) }
{
    let Batch { piece, note } = batch;
    let _mine = told.shown();
    let _theirs = note.shown();
    told.hear(note);
    let _known = told.shown();
    let from = piece.from;
    let upto = piece.to;
    let lines = lines_of(alloc, piece)?;
    Ok(Took::Events { from, upto, lines })
}
