//! The table that the pen and all passes share. Word 0 is the revision, word 1 the generation, word 2 the compaction
//! floor.
use crate::entry::Entry;
use atomic_table::{Seat, Table, TableRule};
use std::alloc::Global;
use std::collections::LinkedList;

/// What a seat of the table is.
pub enum Role {
    /// The pen's.
    Writer,
    /// A pass.
    Reader,
    /// One that was joined away.
    Gone,
}

/// What a seat of the table knows. No value of it is made.
pub struct Sight<E> {
    pub role: Role,
    pub seen: LinkedList<E>,
    pub shown: u64,
    pub loads: LinkedList<u64>,
    pub floor: u64,
    pub generation: u64,
    /// Its own log before the last join.
    pub own: LinkedList<E>,
    /// The log that the last join brought.
    pub brought: LinkedList<E>,
    /// The greatest numbers that joins brought to the pen.
    pub known_shown: u64,
    pub known_floor: u64,
    pub known_generation: u64,
}

/// The rule of the table, which is told the first revision.
pub struct Law;

impl<E: Entry> TableRule<E, Sight<E>, u64> for Law {
    ghost use Rattle.rev_front.specs.Rule.{Rule, opening_sight};

    ghost holds = { λ first. Rule E.fits first };

    ghost first = { λ first. opening_sight first };
}

/// The table that the pen and all passes share.
pub type Board<E> = Table<E, Sight<E>, u64, Law, Global>;

/// A seat at the table.
pub type Place<E> = Seat<E, Sight<E>>;
