//! Pieces that are written one after the other.

ghost use Rattle.std.specs.List.{flat_map};
ghost use Rattle.edge_io.specs.Sent.{Writes, sent_through};

use edge_io::{Failed, Sink};

/// Writes exactly these bytes: a piece of a body or of a chunk. Pieces are written one after the other and never
/// joined.
pub fn part<K: Sink>(sink: &mut K, bytes: &[u8]) -> Result<(), Failed>
    ensures { Writes result bytes.now (sent_through K.written K.settled K.faults sink.old sink.new) }
{
    sink.write_all(bytes)
}

/// Writes these pieces, one after the other.
pub fn parts<K: Sink>(sink: &mut K, pieces: &[&[u8]]) -> Result<(), Failed>
    ensures { Writes result (flat_map (λ piece. piece.now) pieces.now) (sent_through K.written K.settled K.faults sink.old sink.new) }
{
    sink.write_pieces(pieces)
}
