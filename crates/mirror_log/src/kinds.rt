//! Kinds of events.

ghost use Rattle.std.specs.Prelude.{◌≡◌};
ghost use Rattle.mirror_log.specs.Intakes as intakes;

use select_all::Kind;

/// Whether two kinds are the same.
pub(crate) fn same_kind(a: Kind, b: Kind) -> bool
    ensures { result ≡ intakes.same_kind a b }
{
    match (a, b) {
        (Kind::Added, Kind::Added)
        | (Kind::Modified, Kind::Modified)
        | (Kind::Deleted, Kind::Deleted) => true,
        _ => false,
    }
}

/// Whether an event of this kind may be of an object that stood before it, or that didn't.
pub(crate) fn fits_kind(kind: Kind, stood: bool) -> bool
    ensures { result ≡ intakes.fits_kind kind stood }
{
    match kind {
        Kind::Added => !stood,
        Kind::Modified | Kind::Deleted => stood,
    }
}
