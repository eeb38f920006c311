//! What holds of all sessions.

ghost use Rattle.sess_serve.specs.Each.{RequestsAreOfTheirPath};
ghost use Rattle.sess_serve.specs.Laws.{SessionsSettle, EndsAreExact};

/// Where no end failed and there was memory, a session answered the requests that its input holds up to the one that
/// ended it, and ended by what stands there.
pub fn sessions_settle()
    ensures { SessionsSettle }
{}

/// An input, and which of its requests are answered by streams, have one such list of requests, and one such end; only
/// between bytes that are cut short and bytes that are no request two cases are open.
pub fn ends_are_exact()
    ensures { EndsAreExact }
{}

/// A request whose path is that of a resource is of that resource, whose client answers it.
pub fn requests_are_of_their_path()
    ensures { RequestsAreOfTheirPath }
{}
