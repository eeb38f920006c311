//! What each kind of step on the table tells.
ghost use Rattle.rev_front.specs.Rule.{commits, passes_over, sets_gen, sets_floor, looks, reads_gen, reads_floor, copied, met, learnt, gone, recalls_pass, recalls_pen};

use crate::entry::Entry;
use crate::sight::Sight;
use atomic_table::{Join, Play, Split};

/// The pen adds an entry.
pub struct Commit;

impl<E> Play<E, Sight<E>> for Commit {
    ghost then = { commits };
}

/// The pen passes over revisions at which nothing happens.
pub struct PassOver;

impl<E: Entry> Play<E, Sight<E>> for PassOver {
    ghost then = { passes_over E.quiet };
}

/// The pen stores the generation.
pub struct SetGen;

impl<E> Play<E, Sight<E>> for SetGen {
    ghost then = { sets_gen };
}

/// The pen stores the floor.
pub struct SetFloor;

impl<E> Play<E, Sight<E>> for SetFloor {
    ghost then = { sets_floor };
}

/// A pass loads the revision, and keeps the load.
pub struct Look;

impl<E> Play<E, Sight<E>> for Look {
    ghost then = { looks };
}

/// A pass loads the generation.
pub struct ReadGen;

impl<E> Play<E, Sight<E>> for ReadGen {
    ghost then = { reads_gen };
}

/// A pass loads the floor.
pub struct ReadFloor;

impl<E> Play<E, Sight<E>> for ReadFloor {
    ghost then = { reads_floor };
}

/// A seat is split, and the new one is a pass.
pub struct Copies;

impl<E> Split<Sight<E>> for Copies {
    ghost left = { λ v. v };

    ghost right = { copied };
}

/// A pass joins another pass.
pub struct Meet;

impl<E> Join<Sight<E>> for Meet {
    ghost both = { met };

    ghost spent = { gone };
}

/// A pass joins the pen.
pub struct Learn;

impl<E> Join<Sight<E>> for Learn {
    ghost both = { learnt };

    ghost spent = { gone };
}

/// A load of the revision by a pass, which is not kept and tells what its last join brought.
pub struct RecallPass;

impl<E> Play<E, Sight<E>> for RecallPass {
    ghost then = { recalls_pass };
}

/// The same by the pen.
pub struct RecallPen;

impl<E> Play<E, Sight<E>> for RecallPen {
    ghost then = { recalls_pen };
}
