//! The lane between a watch cache and one watcher: a queue of batches that is read without the cache's
//! lock, and an index that finds the lanes that a change may concern.
#![tactic(auto)]

mod batch;
mod index;
mod merge;
mod piece;
mod places;
mod queue;

pub use batch::Batch;
pub use index::LaneIndex;
pub use piece::{Line, Piece, lines_of};
pub use queue::{LaneIn, LaneOut, lane};
