//! Why a text isn't written whole.

use edge_io::Failed;
use kube_meta::Memory;

/// Why a text isn't written whole and sent on.
#[derive(Clone, Copy, Debug, PartialEq, Eq)]
pub enum Broken {
    /// The sink failed, and its count of faults rose. A beginning of the text was written, maybe all of it.
    Fault,
    /// There was no memory.
    Memory,
}

impl From<Failed> for Broken {
    ghost use Rattle.std.specs.Prelude.{◌≡◌};
    ghost use Rattle.sess_reply.specs.declared.broken.Broken.TheVariants as causes;

    ghost from_gives = { λ _ cause. cause ≡ causes.Fault };

    fn from(_: Failed) -> Broken {
        Broken::Fault
    }
}

impl From<Memory> for Broken {
    ghost use Rattle.std.specs.Prelude.{◌≡◌};
    ghost use Rattle.sess_reply.specs.declared.broken.Broken.TheVariants as causes;

    ghost from_gives = { λ _ cause. cause ≡ causes.Memory };

    fn from(_: Memory) -> Broken {
        Broken::Memory
    }
}
