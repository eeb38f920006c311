//! Why no request was read.

use std::alloc::AllocError;

/// Why no request was read. A reader that gave one of these, other than [`ReqNo::Memory`], gives it again at each later
/// call.
#[derive(Clone, Copy, Debug, PartialEq, Eq)]
pub enum ReqNo {
    /// The head is no head of the grammar and can't become one; or its version is 1.0; or Content-Length occurs twice
    /// or isn't 1 to 15 digits.
    Malformed,
    /// The first 16,384 bytes hold no whole head.
    HeadTooLong,
    /// The head has more than 64 fields.
    TooManyHeaders,
    /// Content-Length is above 1,048,576 bytes.
    BodyTooLong,
    /// Transfer-Encoding is present, or a POST or PUT has no Content-Length.
    NeedsLength,
    /// The input ended inside the request.
    CutShort,
    /// The source failed, and its count of faults rose.
    ReadFault,
    /// There was no memory. The bytes that were taken are kept, and a later call goes on.
    Memory,
}

impl From<AllocError> for ReqNo {
    ghost use Rattle.std.specs.Prelude.{◌≡◌};
    ghost use Rattle.http_read.specs.declared.refusal.ReqNo.TheVariants.{Memory};

    ghost from_gives = { λ _ no. no ≡ Memory };

    fn from(_no_memory: AllocError) -> ReqNo {
        ReqNo::Memory
    }
}
