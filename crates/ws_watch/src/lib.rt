//! Watches over WebSocket: the answer that opens a WebSocket, its text messages and its close (RFC 6455), written
//! piece by piece to any [`Sink`](edge_io::Sink). Nothing is read here but the two fields by which a client asks.
#![tactic(auto)]

mod handshake;
mod laws;
mod messages;
mod writing;

pub use handshake::{begin_socket, is_upgrade};
pub use laws::{bytes_tell_messages, clients_read, heads_tell_lengths};
pub use messages::{begin_message, end_socket};
