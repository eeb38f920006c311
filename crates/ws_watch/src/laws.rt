//! Laws of messages.

ghost use Rattle.ws_watch.specs.Clients.{ClientsRead};
ghost use Rattle.ws_watch.specs.Laws.{HeadsTellLengths, BytesTellMessages};

/// The head of a message tells its length and where the message begins, whatever follows.
pub fn heads_tell_lengths()
    ensures { HeadsTellLengths }
{}

/// The bytes of messages and the close behind them are those of one list of messages, so it can be read in one way
/// only.
pub fn bytes_tell_messages()
    ensures { BytesTellMessages }
{}

/// A client that is open and between messages reads each message as the text that was written, and the close as a
/// normal closure without a reason. Its own limits must allow them, and the text must be UTF-8, which nobody tests
/// here.
pub fn clients_read()
    ensures { ClientsRead }
{}
