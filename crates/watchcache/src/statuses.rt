//! Exit statuses, beside those of a session's ends.

/// What was asked for was done.
pub const DONE: u8 = 0;

/// The command line is bad.
pub const BAD_WORDS: u8 = 2;

/// The source failed.
pub const READ_FAULT: u8 = 3;

/// The sink failed.
pub const WRITE_FAULT: u8 = 4;

/// Memory ran out.
pub const OUT_OF_MEMORY: u8 = 8;

/// Dialling, listening or accepting failed.
pub const NET_FAULT: u8 = 9;

/// A recorded body is unlawful.
pub const UNLAWFUL: u8 = 11;

/// What was to be checked is no record.
pub const NO_RECORD: u8 = 12;

/// What the peer sent is no opening.
pub const NO_OPENING: u8 = 13;
