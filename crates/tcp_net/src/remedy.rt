//! What is to be done where a connection can't be accepted.

ghost use Rattle.tcp_net.specs.Remedies.{IsRemedy};

/// What is to be done where a connection can't be accepted.
#[derive(Clone, Copy, Debug, PartialEq, Eq)]
pub(crate) enum Remedy {
    /// The next is accepted: this one broke before it was, or a signal came.
    GoOn,
    /// It is tried again in a while: the system wants descriptors or memory, or doesn't let it be now.
    Wait,
    /// Nothing helps: there is no listener.
    GiveUp,
}

// Errors of Linux, by number.
const EINTR: i32 = 4;

const EBADF: i32 = 9;

const EINVAL: i32 = 22;

const ENONET: i32 = 64;

const EPROTO: i32 = 71;

const ENOTSOCK: i32 = 88;

const ENOPROTOOPT: i32 = 92;

const EOPNOTSUPP: i32 = 95;

const ENETDOWN: i32 = 100;

const ENETUNREACH: i32 = 101;

const ECONNABORTED: i32 = 103;

const EHOSTDOWN: i32 = 112;

const EHOSTUNREACH: i32 = 113;

/// What is to be done behind the error of `accept(2)` that has this number.
pub(crate) fn remedy_of(error: Option<i32>) -> Remedy
    ensures { IsRemedy error result }
{
    match error {
        Some(EBADF | EINVAL | ENOTSOCK) => Remedy::GiveUp,
        Some(
            EINTR
            | ECONNABORTED
            | EPROTO
            | ENONET
            | ENOPROTOOPT
            | EOPNOTSUPP
            | ENETDOWN
            | ENETUNREACH
            | EHOSTDOWN
            | EHOSTUNREACH,
        ) => Remedy::GoOn,
        _ => Remedy::Wait,
    }
}
