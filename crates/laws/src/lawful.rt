//! The laws.

ghost use Rattle.laws.specs.LawfulStreams.{StreamsAreLawful};

/// The lines of a watch, as a session writes whole objects, are lawful over each log that goes on from what the session
/// knew at its end.
pub fn streams_are_lawful()
    ensures { StreamsAreLawful }
{}
