//! The places of a chunked body.

/// What comes next in a chunked body.
#[derive(Clone, Copy, Debug)]
pub enum Place {
    /// A chunk's line.
    AtSize,
    /// So many bytes of a chunk's data, and then a CR LF.
    Inside(u64),
    /// The CR LF behind the line of the last chunk.
    Last,
    /// Nothing more.
    Over,
}
