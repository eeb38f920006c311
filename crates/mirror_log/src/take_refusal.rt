//! Why a line isn't taken.

/// Why a line isn't taken.
#[derive(Clone, Copy, Debug, PartialEq, Eq)]
pub enum TakeNo {
    /// It doesn't fit what the mirror has.
    BadLine,
    /// An event isn't above `last`, the last revision that was told, or repeats a key there.
    Order { last: u64, got: u64 },
    /// A line is too far behind `last`.
    Gap { last: u64, got: u64 },
}
