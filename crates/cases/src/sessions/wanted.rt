//! The bytes that are wanted of replies and streams, by a code of their own.

use crate::rows::{split, words_of};
use crate::sessions::bytes::Bytes;

/// The phrases of status codes.
const PHRASES: &str = "200 OK
201 Created
400 Bad Request
403 Forbidden
404 Not Found
405 Method Not Allowed
409 Conflict
410 Gone
411 Length Required
413 Payload Too Large
415 Unsupported Media Type
422 Unprocessable Entity
500 Internal Server Error
504 Gateway Timeout";

/// The head of a stream.
const STREAM: &[u8] =
    b"HTTP/1.1 200 OK\r\nContent-Type: application/json\r\nTransfer-Encoding: chunked\r\nConnection: close\r\n\r\n";

/// Takes in a line of what is wanted, and answers whether it is one. Behind the head of a WebSocket its messages begin.
pub fn take_wanted(
    wanted: &mut Bytes,
    frames_at: &mut Option<usize>,
    word: &str,
    text: &str,
) -> bool {
    match word {
        "reply" => put_reply(wanted, text, ""),
        "closing" => put_reply(wanted, text, "Connection: close\r\n"),
        "text" => wanted.show(&format_args!("{text}\n")),
        "stream" => wanted.put(STREAM),
        "line" => put_line(wanted, text),
        "stream-end" => wanted.put(b"0\r\n\r\n"),
        "metrics" => put_metrics(wanted, text),
        "socket" => {
            put_socket(wanted, text);
            *frames_at = Some(wanted.bytes.len());
        }
        "message" => put_message(wanted, text),
        "socket-end" => wanted.put(&[136, 2, 3, 232]),
        _ => return false,
    }
    true
}

// Puts a reply: a code, a blank and its body, which a line feed ends. Last in its head stand some fields of its own.
fn put_reply(text: &mut Bytes, words: &str, fields: &str) {
    let (code, body) = split(words);
    let length = body.len().saturating_add(1);
    let phrase = words_of(PHRASES, code).unwrap_or("(no phrase)");
    let retry = retry_of(code);
    text.show(&format_args!("HTTP/1.1 {code} {phrase}\r\nContent-Type: application/json\r\n"));
    text.show(&format_args!("Content-Length: {length}\r\n{retry}{fields}\r\n{body}\n"));
}

// The field that tells when to ask again, of a code that has it.
fn retry_of(code: &str) -> &'static str {
    if code == "504" {
        "Retry-After: 1\r\n"
    } else {
        ""
    }
}

// Puts the head of a reply of metrics, whose lines have so many bytes.
fn put_metrics(text: &mut Bytes, length: &str) {
    text.put(b"HTTP/1.1 200 OK\r\nContent-Type: text/plain; version=0.0.4; charset=utf-8\r\n");
    text.show(&format_args!("Content-Length: {length}\r\n\r\n"));
}

// Puts a line of a stream as a chunk.
fn put_line(text: &mut Bytes, line: &str) {
    let length = line.len().saturating_add(1);
    text.show(&format_args!("{length:x}\r\n{line}\n\r\n"));
}

// Puts the head of a WebSocket with its accept text.
fn put_socket(text: &mut Bytes, accept: &str) {
    text.put(b"HTTP/1.1 101 Switching Protocols\r\nUpgrade: websocket\r\n");
    text.show(&format_args!("Connection: Upgrade\r\nSec-WebSocket-Accept: {accept}\r\n\r\n"));
}

// Puts a line as a message of fewer than 65,536 bytes.
fn put_message(text: &mut Bytes, line: &str) {
    let length = line.len();
    if length < 126 {
        text.put(&[129, length as u8]);
    } else {
        text.put(&[129, 126, (length / 256 % 256) as u8, (length % 256) as u8]);
    }
    text.put(line.as_bytes());
}
