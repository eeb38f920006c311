//! What a WebSocket client reads of a session.

use std::alloc::Global;
use tungstenite::{CloseCode, Duplex, Error, Message, NoMask, Role, WebSocket};

/// Whether a client reads the messages that the lines of a case name, and behind them a normal close.
pub fn reads_back(alloc: Global, lines: &str, frames: &[u8]) -> bool {
    let stream = Duplex {
        reader: frames,
        writer: Vec::new(alloc),
    };
    let mut socket = WebSocket::from_raw_socket(alloc, stream, NoMask, Role::Client, None);
    let mut is_read = true;
    for line in lines.lines() {
        if let Some(text) = line.strip_prefix("message ") {
            is_read = is_text(&socket.read(), text) && is_read;
        }
    }
    is_normal_close(&socket.read()) && is_read
}

fn is_text(message: &Result<Message, Error>, line: &str) -> bool {
    match message {
        Ok(Message::Text(text)) => text.as_str() == line,
        _ => false,
    }
}

fn is_normal_close(message: &Result<Message, Error>) -> bool {
    match message {
        Ok(Message::Close(Some(frame))) => frame.code == CloseCode::Normal,
        _ => false,
    }
}
