//! What a mirror of a cluster hears.

/// What a mirror heard of its cluster. It has committed all revisions up to `to`.
#[derive(Clone, Copy, Debug, PartialEq, Eq)]
pub enum Heard {
    /// A line.
    Line { to: u64 },
    /// The end of the stream, behind whole lines; or that none was asked for yet.
    Ended { to: u64 },
}
