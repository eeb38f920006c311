//! What a mirror hears.

/// What a mirror heard of its peer. It has committed all revisions up to `to`.
#[derive(Clone, Copy, Debug, PartialEq, Eq)]
pub enum Heard {
    /// A line.
    Line { to: u64 },
    /// The end of the stream, behind whole lines.
    Ended { to: u64 },
}
