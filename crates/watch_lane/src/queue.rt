//! The queue of a lane, with an end for the cache and one for the watcher.

ghost use Rattle.std.specs.Prelude.{◌≡◌, ◌≤◌, [], ◌∷◌, ◌++◌, length, IfOk, IfErr, IfSome, OnOk, OnErr};
ghost use Rattle.watch_lane.specs.Batches.{IsBatch};

use crate::batch::Batch;
use kube_meta::Memory;
use rtrb::{Consumer, Producer, PushError, RingBuffer};
use std::alloc::Global;
use std::marker::Model;
use std::sync::Arc;
use std::sync::atomic::{AtomicBool, Ordering};
use up_api::LogFacts;

/// The end of a lane at which the cache pushes. Contracts see its capacity and the batches that it
/// has taken since the lane was made, and nothing of the sign that it shares with the other end.
#[derive(Drop)]
pub struct LaneIn<N: LogFacts> {
    ring: Producer<Batch<N>>,
    behind: Arc<AtomicBool>,
}

impl<N: LogFacts> Model for LaneIn<N> {
    ghost use Rattle.std.specs.Prelude.{◌+◌, ◌≤◌, length};
    ghost use Rattle.rtrb.specs.Ring.{sent, known_free, producer_capacity};
    ghost use Rattle.watch_lane.specs.Queues.{QueueData};

    ghost Value = { QueueData };

    ghost view = { λ l. record { capacity = producer_capacity l.ring; sent = sent l.ring } };

    ghost invariant = { λ l. producer_capacity l.ring ≤ known_free l.ring + length (sent l.ring) };
}

/// The end of a lane at which the watcher takes what is ready. It may be read while another thread
/// pushes.
#[derive(Drop)]
pub struct LaneOut<N: LogFacts> {
    ring: Consumer<Batch<N>>,
    behind: Arc<AtomicBool>,
}

/// A lane with room for so many batches, and its two ends, with no sign that it is behind.
pub fn lane<N: LogFacts>(alloc: Global, capacity: usize) -> Result<(LaneIn<N>, LaneOut<N>), Memory>
    requires some { 1 ≤ capacity }
    requires bounded { capacity ≤ 1024 }
    ensures { IfOk result (λ ends. ends.0 ≡ record { capacity = capacity; sent = [] }) }
{
    let sign = Arc::new(alloc, AtomicBool::new(false))?;
    let behind = Arc::try_clone(&sign)?;
    let (producer, consumer) = RingBuffer::new(alloc, capacity)?;
    Ok((
        LaneIn {
            ring: producer,
            behind: sign,
        },
        LaneOut {
            ring: consumer,
            behind,
        },
    ))
}

impl<N: LogFacts> LaneIn<N> {
    /// Pushes a batch. A full lane hands it back and stays as it is; that can only be once it took as
    /// many batches as it has room for.
    pub fn push(&mut self, batch: Batch<N>) -> Result<(), Batch<N>>
        ensures taken { OnOk result (self.new ≡ record self.old { sent = self.old.sent ++ batch ∷ [] }) }
        ensures back { IfErr result (λ back. back ≡ batch) }
        ensures kept { OnErr result (self.new ≡ self.old) }
        ensures full { OnErr result (self.old.capacity ≤ length self.old.sent) }
    {
        match self.ring.push(batch) {
            Ok(()) => Ok(()),
            Err(PushError::Full(batch)) => Err(batch),
        }
    }

    /// Shows at the other end whether the lane is behind. No contract speaks of this sign.
    pub fn set_behind(&self, behind: bool) {
        self.behind.store(behind, Ordering::SeqCst);
    }
}

impl<N: LogFacts> LaneOut<N> {
    /// The oldest batch that was pushed and not yet taken, if one is seen. It takes no lock and no
    /// memory. Where it gives nothing a batch may still be on its way.
    pub fn ready(&mut self) -> Option<Batch<N>>
        ensures { IfSome result (IsBatch N.base) }
    {
        match self.ring.pop() {
            Ok(batch) => Some(batch),
            Err(_) => None,
        }
    }

    /// Whether the cache shows that the lane is behind: it gets no batches then until its watcher has
    /// caught up. It takes no lock.
    pub fn is_behind(&self) -> bool {
        self.behind.load(Ordering::SeqCst)
    }
}
