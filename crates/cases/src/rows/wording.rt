//! Words that are put one behind the other.

ghost use Rattle.std.specs.Prelude.{◌≡◌, ℕ, List, [], Option, None, Some, IfOk, IfSome, if◌then◌else◌, string_bytes};
ghost use Rattle.cases.specs.Wordings.{Adds};

use std::alloc::{AllocError, Global};
use std::fmt::{Debug, Display};
use std::marker::Model;

/// Words that are put one behind the other, as long as there is memory. That it was lacking is told at the end alone,
/// so that who tells something has no way out in between.
#[derive(Drop)]
pub struct Wording {
    text: String,
    failed: bool,
}

// What was said; nothing once memory was lacking.
impl Model for Wording {
    ghost Value = { Option (List ℕ) };

    ghost view = { λ words. if words.failed then None else Some (string_bytes words.text) };
}

impl Wording {
    /// No words yet.
    pub fn new(alloc: Global) -> Wording
        ensures { result ≡ Some [] }
    {
        Wording {
            text: String::new(alloc),
            failed: false,
        }
    }

    /// Puts these words.
    pub fn add(&mut self, words: &str)
        ensures { Adds self.old self.new words.now }
    {
        if self.text.push_str(words).is_err() {
            self.failed = true;
        }
    }

    /// Puts a value as it is displayed.
    pub fn show<D: Display>(&mut self, value: &D)
        ensures { IfSome (D.output value.now) (Adds self.old self.new) }
    {
        if write!(self.text, "{value}").is_err() {
            self.failed = true;
        }
    }

    /// Puts a value as it is debugged.
    pub fn debug<D: Debug>(&mut self, value: &D)
        ensures { self.old ≡ None → self.new ≡ None }
    {
        if write!(self.text, "{value:?}").is_err() {
            self.failed = true;
        }
    }

    /// The words, if there was memory for all of them.
    pub fn whole(self) -> Result<String, AllocError>
        ensures { IfOk result (λ text. self ≡ Some (string_bytes text)) }
    {
        if self.failed {
            return Err(AllocError);
        }
        Ok(self.text)
    }
}
