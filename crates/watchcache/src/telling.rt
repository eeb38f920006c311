//! Telling what is to be told.

ghost use Rattle.edge_io.specs.Sent.{sent_through};
ghost use Rattle.std.specs.List.{flat_map};
ghost use Rattle.watchcache.specs.Run.{IsTold};

use crate::statuses::WRITE_FAULT;
use edge_io::Sink;

/// Writes pieces and sends them on. Answers `done`, or the status of a failed write.
pub fn tell<K: Sink>(sink: &mut K, pieces: &[&[u8]], done: u8) -> u8
    ensures { IsTold (flat_map (λ piece. piece.now) pieces.now) done
        (sent_through K.written K.settled K.faults sink.old sink.new) result }
{
    if sink.write_pieces(pieces).is_err() {
        return WRITE_FAULT;
    }
    if sink.flush().is_err() {
        return WRITE_FAULT;
    }
    done
}
