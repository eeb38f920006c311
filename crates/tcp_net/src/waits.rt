//! For how long a read or a write of a connection may wait.

ghost use Rattle.std.specs.Prelude.{◌≡◌};
ghost use Rattle.tcp_net.specs.Waits.{wait_of};

/// What one direction of a connection is given, in milliseconds.
#[derive(Clone, Copy, Debug)]
pub(crate) struct Limits {
    /// For the first byte of what it carries.
    pub(crate) first_ms: u64,
    /// For each byte behind the first.
    pub(crate) each_ms: u64,
    /// For all of it, from its first byte on.
    pub(crate) whole_ms: u64,
}

/// For how many milliseconds a call may wait at `now`, where what its direction carries began then, if it did. `None`
/// means that the time for all of it is over.
pub(crate) fn wait_ms(limits: Limits, began: Option<u64>, now: u64) -> Option<u64>
    ensures { result ≡ wait_of limits began now }
{
    let Some(began) = began else {
        return Some(limits.first_ms);
    };
    let gone = now.saturating_sub(began);
    if gone < limits.whole_ms {
        Some(limits.each_ms.min(limits.whole_ms - gone))
    } else {
        None
    }
}
