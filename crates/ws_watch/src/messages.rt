//! The frames of messages and of the close.

ghost use Rattle.std.specs.Prelude.{◌≤◌, ◌<◌, ◌^◌};
ghost use Rattle.edge_io.specs.Sent.{Writes, sent_through};
ghost use Rattle.ws_watch.specs.Messages.{message_head_text, socket_end_text};

use crate::writing::write_bytes;
use edge_io::{Failed, Sink};

// The first byte of a text message: the last of its fragments, no reserved bit, and the opcode 1.
const TEXT: u8 = 0x81;

// The first byte of a close: the same bits, and the opcode 8.
const CLOSE: u8 = 0x88;

/// Writes the head of one text message of `length` bytes, without a mask and in one fragment (RFC 6455, section 5.2).
/// The bytes of the message follow it, in pieces of any size.
pub fn begin_message<K: Sink>(sink: &mut K, length: u64) -> Result<(), Failed>
    requires some { 1 ≤ length }
    requires told { length < 2 ^ 63 }
    ensures { Writes result (message_head_text length) (sent_through K.written K.settled K.faults sink.old sink.new) }
{
    if length < 126 {
        write_bytes(sink, &[TEXT, length as u8])
    } else if length < 65536 {
        let [high, low] = (length as u16).to_be_bytes();
        write_bytes(sink, &[TEXT, 126, high, low])
    } else {
        let [a, b, c, d, e, f, g, h] = length.to_be_bytes();
        write_bytes(sink, &[TEXT, 127, a, b, c, d, e, f, g, h])
    }
}

/// Writes the frame that closes a WebSocket: the status code 1000, a normal closure, and no reason (RFC 6455,
/// sections 5.5.1 and 7.4.1). Nothing may follow it.
pub fn end_socket<K: Sink>(sink: &mut K) -> Result<(), Failed>
    ensures { Writes result socket_end_text (sent_through K.written K.settled K.faults sink.old sink.new) }
{
    write_bytes(sink, &[CLOSE, 2, 3, 232])
}
