//! What a pass or the pen tells another handle of the same log.

ghost use Rattle.std.specs.Prelude.{◌≡◌};
ghost use Rattle.rev_front.specs.Passes.{IsPass};

use crate::entry::Entry;
use crate::name::LogName;
use crate::sight::Place;
use std::marker::{Model, PhantomData};

/// What one caller tells others of the log: a pass that is at no table, so that it can only be taken in, and needs no
/// memory. Contracts see its `Pass`.
#[derive(Drop)]
pub struct News<E: Entry, N: LogName> {
    pub(crate) seat: Place<E>,
    pub(crate) end: u64,
    pub(crate) shown: u64,
    pub(crate) floor: u64,
    pub(crate) of: PhantomData<N>,
}

impl<E: Entry, N: LogName> Model for News<E, N> {
    ghost use Rattle.rev_front.specs.Passes.{Pass};

    ghost Value = { Pass E };

    ghost use Rattle.rev_front.specs.Rule.{pass_of};
    ghost use Rattle.rev_front.specs.Kept.{Comes, IsNewsOf};

    ghost view = { λ n. pass_of N.log.first n.seat.id n.seat.me.0 };

    ghost invariant = { λ n. Comes N.log n.seat.table_id n.seat.me.1 × IsNewsOf E.fits N.log.first n.seat.id n.seat.me.0 n.end n.shown n.floor };
}

impl<E: Entry, N: LogName> News<E, N> {
    /// The greatest revision that was told.
    pub fn shown(&self) -> u64
        ensures answer { result ≡ self.now.shown }
        ensures lawful { IsPass E.fits self.now }
        ensures name { self.now.first ≡ N.log.first }
    {
        self.shown
    }
}
