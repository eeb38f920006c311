//! Why a text is no field selector.

ghost use Rattle.std.specs.Prelude.{◌≡◌};
ghost use Rattle.field_select.specs.declared.refusal.FieldNo.TheVariants.{Memory};

use std::alloc::{AllocError, AllocFailed};

/// Why a text is no field selector of a resource: the first fault from the left. `at` is the place
/// of a byte in the text, counted from 0.
#[derive(Clone, Copy, Debug, PartialEq, Eq)]
pub enum FieldNo {
    /// No operator stands at `at`, where one is wanted; or the byte of a value at `at` is a `=`
    /// without a `\`, or a `\` that escapes nothing.
    Syntax { at: usize },
    /// More than 8,192 bytes, or a 65th term that isn't empty.
    TooLong,
    /// The term that begins at `at` is of a field that the resource's selectors don't have.
    UnknownField { at: usize },
    /// There was no memory for the selector.
    Memory,
}

impl From<AllocError> for FieldNo {
    ghost from_gives = { λ _ fault. fault ≡ Memory };

    fn from(_: AllocError) -> FieldNo {
        FieldNo::Memory
    }
}

impl<T: Drop> From<AllocFailed<T>> for FieldNo {
    ghost from_gives = { λ _ fault. fault ≡ Memory };

    fn from(_: AllocFailed<T>) -> FieldNo {
        FieldNo::Memory
    }
}
