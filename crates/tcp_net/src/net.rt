//! A net that says where it listens.

ghost use Rattle.std.specs.Prelude.{◌≡◌, None, IfOk};

use crate::connection::Connection;
use crate::ends::ends_of;
use crate::line::Side;
use crate::port::{LoopbackPort, loopback};
use edge_io::{Failed, Net, ReadEnd, WriteEnd};
use std::alloc::Global;
use std::io;
use std::io::Eprint;
use std::net::{TcpListener, TcpStream};

/// TCP on this machine's loopback address, which says on standard error at which port it listens, or that it can't.
/// Nobody is asked who they are, so no other machine is let in.
#[derive(Drop)]
pub struct LoopbackNet<R> {
    rt: R,
    alloc: Global,
    faults: u64,
    served: u64,
}

impl<R: Copy> LoopbackNet<R> {
    /// The net of the runtime `rt`.
    pub fn new(alloc: Global, rt: R) -> LoopbackNet<R>
        ensures fresh { result.faults ≡ 0 }
    {
        LoopbackNet {
            rt,
            alloc,
            faults: 0,
            served: 0,
        }
    }
}

impl<R> Net for LoopbackNet<R>
where
    R: std::net::Net<Listener = TcpListener, Stream = TcpStream>
        + std::time::Clock
        + Eprint
        + Copy
        + Send,
{
    type L = LoopbackPort<R>;

    ghost faults = { λ net. net.faults };

    ghost served = { λ net. net.served };

    ghost ended = { λ _. ⊥ };

    ghost peer = { λ _. None };

    // A line that can't be written is left out.
    fn listen(&mut self, port: u16) -> Result<LoopbackPort<R>, Failed> {
        match LoopbackPort::bind(self.alloc, self.rt, port) {
            Ok(listener) => {
                let number = listener.number().unwrap_or(port);
                let _ = eprintln!(self.rt; "watchcache: listening on http://127.0.0.1:{number}");
                Ok(listener)
            }
            Err(_) => {
                self.faults += 1;
                let _ = eprintln!(self.rt;
                    "watchcache: can't listen on 127.0.0.1:{port}; is the port in use?"
                );
                Err(Failed)
            }
        }
    }

    fn shut(&mut self, listener: LoopbackPort<R>) {
        self.served = listener.given();
        if listener.faults() > 0 {
            self.faults += 1;
        }
    }

    fn dial(&mut self, port: u16) -> Result<(ReadEnd<Connection>, WriteEnd<Connection>), Failed> {
        match connect(&self.rt, self.alloc, port) {
            Ok(ends) => Ok(ends),
            Err(_) => {
                self.faults += 1;
                Err(Failed)
            }
        }
    }

    fn hang_up(&mut self, source: ReadEnd<Connection>, sink: WriteEnd<Connection>) {
        if source.has_faults() || sink.has_faults() {
            self.faults += 1;
        }
    }
}

// The two ends of a new connection to a port.
fn connect<R: std::net::Net<Stream = TcpStream>>(
    rt: &R,
    alloc: Global,
    port: u16,
) -> io::Result<(ReadEnd<Connection>, WriteEnd<Connection>)>
    ensures { IfOk result (λ ends. (ends.0.faults ≡ 0) × (ends.1.faults ≡ 0)) }
{
    let (source, sink, _peer) = ends_of(
        alloc,
        TcpStream::connect(rt, loopback(port))?,
        Side::Program,
    )?;
    Ok((source, sink))
}
