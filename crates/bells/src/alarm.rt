//! A descriptor that ends a `poll(2)`.

ghost use Rattle.std.specs.Prelude.{◌≤ℤ◌, pos};

use crate::sockets::{asked, poll_time};
use libc::net::{EFD_CLOEXEC, EFD_NONBLOCK, POLLIN, POLLRDHUP, eventfd, poll};
use std::os::fd::{AsRawFd, RawFd};

/// An `eventfd(2)` of its own, closed where it is dropped. Once raised it stays so until a rest takes that back, so a
/// raise before the rest ends the rest too.
pub struct Alarm {
    fd: RawFd,
    ghost open: { pos 0 ≤ℤ fd },
}

impl Alarm {
    /// An alarm that isn't raised, or `None` where the system has no descriptor left.
    pub fn new() -> Option<Alarm> {
        let fd = eventfd(0, EFD_CLOEXEC | EFD_NONBLOCK);
        if fd < 0 { None } else { Some(Alarm { fd }) }
    }

    /// Ends the rest that is under way, or else the next. It doesn't wait: a counter that is full is raised already.
    pub fn raise(&self) {
        libc::write(self.fd, &1u64.to_ne_bytes());
    }

    /// Rests until the alarm is raised, the peer leaves or `ms` milliseconds went by, and takes the alarm back. It may
    /// end for no reason. It answers whether the peer has left, or its connection is broken.
    pub fn rest(&self, peer: &impl AsRawFd, ms: u64) -> bool {
        let mut ends = [asked(self.fd, POLLIN), asked(peer.as_raw_fd(), POLLRDHUP)];
        poll(&mut ends, poll_time(ms));
        let [alarm, peer] = ends;
        if alarm.revents != 0 {
            libc::read(self.fd, &mut [0u8; 8]);
        }
        peer.revents != 0
    }
}

impl Drop for Alarm {
    fn drop(self) {
        let Alarm { fd } = self;
        libc::close(fd);
    }
}
