//! Bytes that are put one behind the other.

use std::alloc::{AllocError, Global};
use std::fmt::Display;

/// Bytes that are put one behind the other, as long as there is memory. That it was lacking is told at the end alone,
/// so that who puts something has no way out in between.
#[derive(Drop)]
pub struct Bytes {
    alloc: Global,
    /// The bytes so far.
    pub bytes: Vec<u8>,
    /// Whether there was no memory for all of them.
    pub failed: bool,
}

impl Bytes {
    /// No bytes yet.
    pub fn none(alloc: Global) -> Bytes {
        Bytes {
            alloc,
            bytes: Vec::new(alloc),
            failed: false,
        }
    }

    /// Puts these bytes.
    pub fn put(&mut self, bytes: &[u8]) {
        if self.bytes.extend_from_slice(bytes).is_err() {
            self.failed = true;
        }
    }

    /// Puts a value as it is displayed.
    pub fn show<D: Display>(&mut self, value: &D) {
        let text = format!(in self.alloc; "{value}");
        self.put_made(&text);
    }

    /// Puts what there was memory for, or else notes that it was lacking.
    pub fn put_made(&mut self, made: &Result<String, AllocError>) {
        match made {
            Ok(text) => self.put(text.as_bytes()),
            Err(_) => self.failed = true,
        }
    }
}
