//! What holds of all passes, for the proofs of callers.
ghost use Rattle.rev_front.specs.Passes.{LooksStand, LoadsAreSeen};

use crate::entry::Entry;

/// What follows a look has made its load, and has it as its last where no other load was made since.
pub fn looks_stand<E: Entry>()
    ensures { LooksStand E }
{}

/// A pass that has seen all that it was told of has seen all that its loads gave.
pub fn loads_are_seen<E: Entry>()
    ensures { LoadsAreSeen E.fits }
{}
