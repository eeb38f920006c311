//! A connection that its source, its sink and its clock share.

use crate::line::{Line, Side};
use std::alloc::{AllocError, Global};
use std::io;
use std::io::{Read, Write};
use std::net::TcpStream;
use std::os::fd::{AsRawFd, RawFd};
use std::sync::Arc;

/// A TCP stream of which several parts are held: one descriptor, closed where the last part is dropped.
#[derive(Drop)]
pub struct Connection(Arc<Line>);

impl Connection {
    /// The first part of a connection that was begun by this side.
    pub(crate) fn new(alloc: Global, stream: TcpStream, side: Side) -> io::Result<Connection> {
        Ok(Connection(Arc::new(alloc, Line::new(stream, side)?)?))
    }

    /// Another part.
    pub(crate) fn part(&self) -> Result<Connection, AllocError> {
        Ok(Connection(Arc::try_clone(&self.0)?))
    }
}

impl Read for Connection {
    fn read(&mut self, buf: &mut [u8]) -> io::Result<usize> {
        self.0.read(buf)
    }
}

impl Write for Connection {
    fn write(&mut self, buf: &[u8]) -> io::Result<usize> {
        self.0.write(buf)
    }

    // A stream holds nothing back.
    fn flush(&mut self) -> io::Result<()> {
        self.0.flush();
        Ok(())
    }
}

impl AsRawFd for Connection {
    fn as_raw_fd(&self) -> RawFd {
        self.0.as_raw_fd()
    }
}
