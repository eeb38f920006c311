//! The answer that opens a WebSocket.

ghost use Rattle.std.specs.Prelude.{◌≡◌, ◌++◌, ◌↔◌, IsTrue};
ghost use Rattle.edge_io.specs.Sent.{Writes, sent_through};
ghost use Rattle.sha1.specs.Sha1.{sha1};
ghost use Rattle.ws_watch.specs.Handshake.{guid, accept_of, socket_head_text, IsSocketKey, IsUpgrade};

use crate::writing::write_pieces;
use base64::engine::general_purpose::STANDARD;
use edge_io::{Failed, Sink};
use sha1::Sha1;

// The globally unique identifier of RFC 6455, section 1.3.
const GUID: &[u8] = b"258EAFA5-E914-47DA-95CA-C5AB0DC85B11";

// The SHA-1 of the key and the identifier.
fn digest_of(key: &str) -> [u8; 20]
    ensures { result ≡ sha1 (key.now ++ guid) }
{
    let mut hasher = Sha1::new();
    hasher.update(key.as_bytes());
    hasher.update(GUID);
    hasher.finalize()
}

// The value of `Sec-WebSocket-Accept` that answers a key (RFC 6455, section 4.2.2): the base64 of the SHA-1 of the key
// and the identifier that the RFC gives.
fn accept_bytes(key: &str) -> [u8; 28]
    ensures { result ≡ accept_of key.now }
{
    let mut text = [0; 28];
    // Twenty bytes take 28 symbols, so this can't fail.
    let _ = STANDARD.encode_slice(&digest_of(key), &mut text);
    text
}

/// Whether a client asks for a WebSocket as it must (RFC 6455, section 4.2.1): its version is `13`, and its key is
/// the standard base64 of 16 bytes, with its padding and no bits left over. Both are compared as they stand, blanks
/// included.
pub fn is_upgrade(key: &str, version: &str) -> bool
    ensures { IsTrue result ↔ IsUpgrade key.now version.now }
{
    version == "13" && is_socket_key(key.as_bytes())
}

// Whether the key is the base64 of 16 bytes.
fn is_socket_key(key: &[u8]) -> bool
    ensures { IsTrue result ↔ IsSocketKey key.now }
{
    let mut nonce = [0; 16];
    match STANDARD.decode_slice(key, &mut nonce) {
        Ok(length) => length == 16,
        Err(_) => false,
    }
}

/// Writes the head that opens a WebSocket, up to and with its empty line: the status 101, and the answer to the
/// client's key. Any text may stand in the key's place.
pub fn begin_socket<K: Sink>(sink: &mut K, key: &str) -> Result<(), Failed>
    ensures { Writes result (socket_head_text key.now) (sent_through K.written K.settled K.faults sink.old sink.new) }
{
    let accepted = accept_bytes(key);
    let pieces: [&[u8]; 3] = [
        b"HTTP/1.1 101 Switching Protocols\r\nUpgrade: websocket\r\nConnection: Upgrade\r\nSec-WebSocket-Accept: ",
        &accepted,
        b"\r\n\r\n",
    ];
    write_pieces(sink, &pieces)
}
