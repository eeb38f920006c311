//! The body of a request.

ghost use Rattle.std.specs.Prelude.{◌≡◌, [], length, IfOk};

use kube_meta::Memory;
use std::alloc::Global;
use std::marker::Model;

/// The body of a request. Contracts see its bytes.
#[derive(Debug, Drop)]
pub struct Body {
    bytes: Vec<u8>,
}

impl Model for Body {
    ghost use Rattle.std.specs.Prelude.{ℕ, List};

    ghost Value = { List ℕ };

    ghost view = { λ body. body.bytes.items };
}

impl Body {
    /// The bytes, lent.
    pub fn as_slice(&self) -> &[u8]
        ensures { result.now ≡ self.now }
    {
        self.bytes.as_slice()
    }

    /// The bytes that a vector holds, with no copy.
    pub(crate) fn from_vec(bytes: Vec<u8>) -> Body
        ensures { result ≡ bytes.items }
    {
        Body { bytes }
    }
}
