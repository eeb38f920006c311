//! Why a text is no label selector.

ghost use Rattle.std.specs.Prelude.{◌≡◌};
ghost use Rattle.label_select.specs.declared.refusal.LabelNo.TheVariants.{Memory};

use std::alloc::{AllocError, AllocFailed};

/// Why a text is no label selector: the first fault from the left. `at` is the place of a byte in
/// the text, counted from 0.
#[derive(Clone, Copy, Debug, PartialEq, Eq)]
pub enum LabelNo {
    /// A token that can't stand at `at`, or the end of the text where more is needed.
    Syntax { at: usize },
    /// The word at `at` stands for a key and is no label key.
    BadKey { at: usize },
    /// The word at `at` stands for a value and is no label value.
    BadValue { at: usize },
    /// The set `()`, whose `(` stands at `at`.
    EmptySet { at: usize },
    /// More than 8,192 bytes, or a comma before a 65th requirement.
    TooLong,
    /// There was no memory for the selector.
    Memory,
}

impl From<AllocError> for LabelNo {
    ghost from_gives = { λ _ no. no ≡ Memory };

    fn from(_: AllocError) -> LabelNo {
        LabelNo::Memory
    }
}

impl<T: Drop> From<AllocFailed<T>> for LabelNo {
    ghost from_gives = { λ _ no. no ≡ Memory };

    fn from(_: AllocFailed<T>) -> LabelNo {
        LabelNo::Memory
    }
}
