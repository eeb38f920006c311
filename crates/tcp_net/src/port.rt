//! A port that connections are accepted at.

ghost use Rattle.std.specs.Prelude.{◌≡◌, IfOk};
ghost use Rattle.tcp_net.specs.Places.{IsLoopback};

use crate::clock::PeerClock;
use crate::connection::Connection;
use crate::ends::ends_of;
use crate::line::Side;
use crate::remedy::{Remedy, remedy_of};
use bells::{Bell, listen_long};
use edge_io::{Failed, Listener, ReadEnd, WriteEnd};
use std::alloc::Global;
use std::io::{Eprint, ErrorKind};
use std::net::{IpAddr, Ipv4Addr, SocketAddr, TcpListener, TcpStream};
use std::sync::Arc;
use std::time::{Duration, Instant};
use std::{io, thread};

/// How many milliseconds pass until a connection is accepted again, where the system wants descriptors or memory, or
/// doesn't let it be for another reason.
const WANT_MS: u64 = 50;

/// A TCP port of this machine's loopback address that connections are accepted at. It is never over. The clocks of its
/// connections show the time since it was made.
#[derive(Drop)]
pub struct LoopbackPort<R> {
    listener: TcpListener,
    rt: R,
    alloc: Global,
    start: Option<Instant>,
    given: u64,
    faults: u64,
}

impl<R> LoopbackPort<R>
where
    R: std::net::Net<Listener = TcpListener, Stream = TcpStream> + std::time::Clock + Copy,
{
    /// Listens at a port; 0 stands for one that the system picks.
    pub(crate) fn bind(alloc: Global, rt: R, port: u16) -> io::Result<LoopbackPort<R>>
        ensures { IfOk result (λ port. (port.given ≡ 0) × (port.faults ≡ 0)) }
    {
        let listener = TcpListener::bind(&rt, loopback(port))?;
        listen_long(&listener);
        Ok(LoopbackPort {
            listener,
            rt,
            alloc,
            start: Instant::now(&rt).ok(),
            given: 0,
            faults: 0,
        })
    }
}

/// This machine's loopback address at a port.
pub(crate) fn loopback(port: u16) -> SocketAddr
    ensures { IsLoopback port result }
{
    SocketAddr::new(IpAddr::V4(Ipv4Addr::new(127, 0, 0, 1)), port)
}

impl<R> LoopbackPort<R> {
    /// The number of the port, if the system tells it.
    pub fn number(&self) -> Option<u16> {
        Some(self.listener.local_addr().ok()?.port())
    }

    pub(crate) fn given(&self) -> u64
        ensures { result ≡ self.now.given }
    {
        self.given
    }

    pub(crate) fn faults(&self) -> u64
        ensures { result ≡ self.now.faults }
    {
        self.faults
    }
}

/// The ends and the clock of a connection.
type Ends<R> = (ReadEnd<Connection>, WriteEnd<Connection>, PeerClock<R>);

impl<R: std::time::Clock + Eprint + Copy> LoopbackPort<R> {
    // The next connection that can be set up. Those that can't, or that broke before they were accepted, are passed
    // over. Where the system doesn't let any be accepted that is waited out, and said once.
    fn next_ends(&self) -> io::Result<Ends<R>> {
        let mut is_said = false;
        for _ in 0..u64::MAX {
            let error = match self.listener.accept() {
                Ok((stream, _address)) => match self.set_up(stream) {
                    Ok(ends) => return Ok(ends),
                    Err(_) => continue,
                },
                Err(error) => error,
            };
            match remedy_of(error.raw_os_error()) {
                Remedy::GoOn => {}
                Remedy::Wait => {
                    if !is_said {
                        self.say_waits(&error);
                        is_said = true;
                    }
                    thread::sleep(&self.rt, Duration::from_millis(WANT_MS));
                }
                Remedy::GiveUp => {
                    self.say_ends(&error);
                    return Err(error);
                }
            }
        }
        Err(io::Error::from(ErrorKind::Other))
    }

    // A line that can't be written is left out.
    fn say_waits(&self, error: &io::Error) {
        let _ = eprintln!(self.rt;
            "watchcache: connections wait, since none can be accepted now: {error}"
        );
    }

    fn say_ends(&self, error: &io::Error) {
        let _ = eprintln!(self.rt; "watchcache: no connection can be accepted any more: {error}");
    }

    // The ends and the clock of a connection.
    fn set_up(&self, stream: TcpStream) -> io::Result<Ends<R>> {
        let (source, sink, peer) = ends_of(self.alloc, stream, Side::Client)?;
        let bell = Arc::new(self.alloc, Bell::new())?;
        let clock = PeerClock::since(self.rt, self.start, peer, bell);
        Ok((source, sink, clock))
    }
}

impl<R: std::time::Clock + Eprint + Copy + Send> Listener for LoopbackPort<R> {
    type S = ReadEnd<Connection>;

    type K = WriteEnd<Connection>;

    type T = PeerClock<R>;

    ghost given = { λ port. port.given };

    ghost faults = { λ port. port.faults };

    ghost over = { λ _. ⊥ };

    fn accept(
        &mut self,
    ) -> Result<Option<(ReadEnd<Connection>, WriteEnd<Connection>, PeerClock<R>)>, Failed> {
        match self.next_ends() {
            Ok(ends) => {
                self.given += 1;
                Ok(Some(ends))
            }
            Err(_) => {
                self.faults += 1;
                Err(Failed)
            }
        }
    }
}
