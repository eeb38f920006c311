//! Rings that are owed.
//!
//! What is here is no `Drop`, and must not become one: that is what refuses a body that takes calls and forgets one,
//! overwrites it, or leaves by `?` while it has some.

use crate::bell::Bell;
use std::alloc::{AllocFailed, Global};
use std::sync::Arc;

/// Bells that are owed a ring each. They can't be let go: whoever has them can only ring them all.
pub struct Calls {
    owed: Vec<Call>,
}

impl Calls {
    /// None yet.
    pub fn new(alloc: Global) -> Calls {
        Calls {
            owed: Vec::new(alloc),
        }
    }

    /// From now on this bell is owed a ring too. Where there is no memory for that it is rung at once.
    pub fn add(&mut self, bell: &Arc<Bell>) {
        match Arc::try_clone(bell) {
            Ok(bell) => self.owe(Call { bell }),
            Err(_) => bell.ring(),
        }
    }

    fn owe(&mut self, call: Call) {
        if let Err(AllocFailed { value }) = self.owed.push(call) {
            value.ring();
        }
    }

    /// Rings them all, in the order in which they came, and answers how many they were.
    pub fn ring_all(self) -> usize {
        let Calls { owed } = self;
        let count = owed.len();
        let mut owed = owed.into_iter();
        while let Some(call) = owed.next() {
            call.ring();
        }
        owed.destroy_empty();
        count
    }
}

// A bell that is owed a ring.
struct Call {
    bell: Arc<Bell>,
}

impl Call {
    fn ring(self) {
        let Call { bell } = self;
        bell.ring();
    }
}
