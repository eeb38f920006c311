//! How a session ends.

ghost use Rattle.std.specs.Prelude.{◌≡◌};
ghost use Rattle.sess_serve.specs.Status.{status_of};

use http_read::ReqNo;
use sess_turns::WatchEnd;

/// Why a session ended.
#[derive(Clone, Copy, Debug, PartialEq, Eq)]
pub enum SessionEnd {
    /// A request that closes the connection, by `Connection: close` or as a HEAD, was answered by a reply; or input
    /// ended with no byte of a further request.
    Done,
    /// A watch was answered by its stream, which came to its end.
    Watched(WatchEnd),
    /// The source's count of faults rose. Nothing of the unfinished request is answered.
    ReadFault,
    /// The sink's count of faults rose. What is written is a beginning of what would have been.
    WriteFault,
    /// Input ended inside a request, to which there is no reply.
    CutShort,
    /// A request is none that can be read; the reply that says so ends the connection.
    Refused(ReqNo),
    /// As many requests as the settings allow were answered. Nothing more is read.
    TooMany,
    /// There was no memory. The request that was begun may be done or not, and its answer may be broken off.
    Memory,
}

impl SessionEnd {
    /// The exit status of a program that runs one session.
    pub fn status(&self) -> u8
        ensures { result ≡ status_of self.now }
    {
        match self {
            SessionEnd::Done | SessionEnd::Watched(_) => 0,
            SessionEnd::ReadFault => 3,
            SessionEnd::WriteFault => 4,
            SessionEnd::CutShort => 5,
            SessionEnd::Refused(_) => 6,
            SessionEnd::TooMany => 7,
            SessionEnd::Memory => 8,
        }
    }
}
