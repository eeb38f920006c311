//! Why there is no line.

/// Why a reader has no head, no line or no body.
#[derive(Clone, Copy, Debug)]
pub enum LineNo {
    /// No head of a chunked body: no response can stand there, it isn't whole in 16,384 bytes, it has more than 64
    /// fields, or its code is 200 and its transfer coding isn't `chunked` alone. Where a body is read whole, a head
    /// that counts it and says no transfer coding is one too.
    BadHead,
    /// A whole head with a code other than 200.
    Refused {
        /// Its code.
        code: u16,
    },
    /// No chunk can stand there, or its line isn't whole in 64 bytes.
    BadChunk,
    /// A line, or a whole body, of more bytes than it may have.
    Overlong,
    /// The body ended within a line.
    Unfinished,
    /// As much data was taken as the reader may take, and no line ended there.
    Spent,
    /// The input ended before the body did.
    CutShort,
    /// The source failed, and its count of faults rose.
    ReadFault,
    /// There was no memory for the bytes that were read.
    Memory,
}
