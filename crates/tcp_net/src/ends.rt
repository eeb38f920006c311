//! The two ends of a connection.

ghost use Rattle.std.specs.Prelude.{◌≡◌, IfOk};

use crate::connection::Connection;
use crate::line::Side;
use edge_io::{ReadEnd, WriteEnd};
use std::alloc::Global;
use std::io;
use std::net::TcpStream;

/// The two ends of a connection that was begun by this side, and one more part of it. Its ends fail where they would
/// wait for too long.
pub(crate) fn ends_of(
    alloc: Global,
    stream: TcpStream,
    side: Side,
) -> io::Result<(ReadEnd<Connection>, WriteEnd<Connection>, Connection)>
    ensures { IfOk result (λ ends. (ends.0.faults ≡ 0) × (ends.1.faults ≡ 0)) }
{
    let peer = Connection::new(alloc, stream, side)?;
    let source = ReadEnd::new(peer.part()?);
    let sink = WriteEnd::new(alloc, peer.part()?);
    Ok((source, sink, peer))
}
