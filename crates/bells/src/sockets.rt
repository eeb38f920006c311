//! What the system is asked of sockets by their descriptors.

ghost use Rattle.std.specs.Prelude.{◌≡◌, ◌≤◌, ◌<◌, ◌↔◌, IsTrue, pos};
ghost use Rattle.bells.specs.Limits.{poll_ms, HasRoom};

use libc::net::{POLLRDHUP, listen, poll};
use libc::types::{pollfd, rlimit};
use libc::{RLIMIT_NOFILE, getrlimit};
use std::os::fd::{AsRawFd, RawFd};

/// The descriptor of no peer, which never leaves.
pub const NO_PEER: RawFd = -1;

/// How many connections may wait to be accepted.
const BACKLOG: i32 = 4096;

/// How many descriptors are kept for connections where alarms take others.
const SPARE: u64 = 1000;

/// Whether this peer has left, or its connection is broken, also behind bytes that nobody read. It doesn't wait.
pub fn has_left(peer: &impl AsRawFd) -> bool {
    let mut ends = [asked(peer.as_raw_fd(), POLLRDHUP)];
    poll(&mut ends, 0);
    let [peer] = ends;
    peer.revents != 0
}

/// Whether more than a thousand descriptors are left below the limit of the process. The system gives each socket the
/// lowest number that is free, so the number of this peer's tells how many are taken.
pub fn has_room(peer: &impl AsRawFd) -> bool {
    let mut limit = rlimit {
        rlim_cur: 0,
        rlim_max: 0,
    };
    if getrlimit(RLIMIT_NOFILE, &mut limit) != 0 {
        return false;
    }
    match u64::try_from(peer.as_raw_fd()) {
        Ok(fd) => is_spared(fd, limit.rlim_cur),
        Err(_) => false,
    }
}

/// Lets 4,096 connections wait at this listener until they are accepted, or as many as the system allows. std asks for
/// 128, and a connection that finds no place is tried again by its peer after a second.
pub fn listen_long(listener: &impl AsRawFd) {
    listen(listener.as_raw_fd(), BACKLOG);
}

/// What `poll(2)` is asked of a descriptor; it passes over one that is negative.
pub(crate) fn asked(fd: RawFd, events: i16) -> pollfd {
    pollfd {
        fd,
        events,
        revents: 0,
    }
}

/// The time that `poll(2)` is given for so many milliseconds.
pub(crate) fn poll_time(ms: u64) -> i32
    ensures { result ≡ pos (poll_ms ms) }
{
    ms.min(i32::MAX as u64) as i32
}

// Whether so many descriptors are left behind this one.
fn is_spared(fd: u64, limit: u64) -> bool
    ensures { IsTrue result ↔ HasRoom fd limit }
{
    limit > SPARE && fd < limit - SPARE
}
