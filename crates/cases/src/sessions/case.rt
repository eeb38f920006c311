//! How a case is written, line by line.

use crate::rows::{Wording, plain, says_nothing, split};
use crate::sessions::bytes::Bytes;
use crate::sessions::wanted::take_wanted;
use std::alloc::Global;

/// The lines that are looked for by their first words.
const OTHERS: [&str; 4] = ["settings", "breaks", "load", "end"];

/// What a client sends, and what is wanted to come back.
#[derive(Drop)]
pub struct Case<'l> {
    /// Its lines.
    pub lines: &'l str,
    pub sent: Bytes,
    pub wanted: Bytes,
    /// Where the messages of a WebSocket begin in what is wanted.
    pub frames_at: Option<usize>,
    // The fields of the next request.
    fields: Bytes,
}

impl<'l> Case<'l> {
    /// Reads the lines of a case, and tells which are none.
    pub fn read(alloc: Global, lines: &'l str, told: &mut Wording) -> Case<'l> {
        let mut case = Case {
            lines,
            sent: Bytes::none(alloc),
            wanted: Bytes::none(alloc),
            frames_at: None,
            fields: Bytes::none(alloc),
        };
        for line in lines.lines() {
            if !case.take_line(alloc, line) {
                told.show(&format_args!("    no line of a case: {line}\n"));
            }
        }
        case
    }

    /// Whether there was memory for all of it.
    pub fn is_whole(&self) -> bool {
        !self.sent.failed && !self.wanted.failed && !self.fields.failed
    }

    // Takes in a line, and answers whether it is one of a case, or says nothing.
    fn take_line(&mut self, alloc: Global, line: &str) -> bool {
        let (word, text) = split(line);
        match word {
            "field" => self.fields.show(&format_args!("{text}\r\n")),
            "request" => self.put_request(text),
            "bytes" => self.sent.put_made(&plain(alloc, text)),
            _ => {
                return take_wanted(&mut self.wanted, &mut self.frames_at, word, text)
                    || says_nothing(line)
                    || OTHERS.contains(&word);
            }
        }
        true
    }

    // A request: its method, its target, and its body, where it has one. A POST and a PUT tell the body's length.
    fn put_request(&mut self, text: &str) {
        let (method, rest) = split(text);
        let (target, body) = split(rest);
        self.sent
            .show(&format_args!("{method} {target} HTTP/1.1\r\nHost: x\r\n"));
        self.sent.put(self.fields.bytes.as_slice());
        self.fields.bytes.clear();
        if method == "POST" || method == "PUT" || !body.is_empty() {
            self.sent
                .show(&format_args!("Content-Length: {}\r\n", body.len()));
        }
        self.sent.show(&format_args!("\r\n{body}"));
    }
}
