//! How a watch ends.

/// How the stream of a watch ended.
#[derive(Clone, Copy, Debug, PartialEq, Eq)]
pub enum WatchEnd {
    /// Its time was over.
    Timeout,
    /// What comes after its position `at` may not all be kept any more: that is below `floor`.
    Lost { at: u64, floor: u64 },
    /// The clock said that the program is asked to stop.
    Stopped,
    /// It had 1,000,000,000 turns.
    TurnsSpent,
}
