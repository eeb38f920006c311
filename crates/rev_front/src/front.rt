//! Passes.

ghost use Rattle.std.specs.Prelude.{◌≡◌, ◌≤◌, IfOk, IsOk, MatchResult};
ghost use Rattle.rev_front.specs.Passes.{Extends, IsPass, Met, end_from, last_of, looked};

use crate::entry::Entry;
use crate::name::LogName;
use crate::news::News;
use crate::sight::{Board, Place};
use crate::steps::{Copies, Look, Meet, ReadFloor, ReadGen, RecallPass};
use std::alloc::{AllocError, Global};
use std::marker::{Model, PhantomData};
use std::sync::Arc;

/// A pass: what one caller knows of the log. Contracts see its `Pass`.
#[derive(Drop)]
pub struct Front<E: Entry, N: LogName> {
    pub(crate) board: Arc<Board<E>, Global>,
    pub(crate) seat: Place<E>,
    pub(crate) end: u64,
    // What its last look gave, and the greatest revision that it was told otherwise: a look writes but one number.
    pub(crate) last: u64,
    pub(crate) heard: u64,
    pub(crate) floor: u64,
    pub(crate) of: PhantomData<N>,
}

impl<E: Entry, N: LogName> Model for Front<E, N> {
    ghost use Rattle.std.specs.Arc.{arc_value};
    ghost use Rattle.rev_front.specs.Passes.{Pass};

    ghost Value = { Pass E };

    ghost use Rattle.rev_front.specs.Rule.{pass_of};
    ghost use Rattle.rev_front.specs.Kept.{Sits, IsReaderOf};

    ghost view = { λ f. pass_of N.log.first f.seat.id f.seat.me.0 };

    ghost invariant = { λ f. Sits N.log (arc_value f.board).shared.table_id (arc_value f.board).shared.key f.seat.table_id f.seat.me.1 × IsReaderOf E.fits N.log.first f.seat.id f.seat.me.0 f.end f.last f.heard f.floor };
}

impl<E: Entry, N: LogName> Front<E, N> {
    /// One load of the revision that the log has reached, which a consistent read makes before it answers from a
    /// cache (KEP-2340).
    pub fn look(&mut self) -> u64
        ensures load { self.new ≡ looked self.old result }
        ensures later { self.old.shown ≤ result }
        ensures extends { Extends self.old self.new }
    {
        let shared = &self.board.shared;
        let found = shared.load::<Look>(&mut self.seat, 0);
        self.last = found;
        found
    }

    /// One load of the generation of feeds.
    pub fn look_gen(&mut self) -> u64
        ensures load { self.new ≡ record self.old { gen = result } }
        ensures later { self.old.gen ≤ result }
        ensures extends { Extends self.old self.new }
    {
        let shared = &self.board.shared;
        shared.load::<ReadGen>(&mut self.seat, 1)
    }

    /// One load of the compaction floor.
    pub fn look_floor(&mut self) -> u64
        ensures load { self.new ≡ record self.old { floor = result } }
        ensures later { self.old.floor ≤ result }
        ensures extends { Extends self.old self.new }
    {
        let shared = &self.board.shared;
        self.floor = shared.load::<ReadFloor>(&mut self.seat, 2);
        self.floor
    }

    /// The greatest revision that it was told.
    pub fn shown(&self) -> u64
        ensures answer { result ≡ self.now.shown }
        ensures lawful { IsPass E.fits self.now }
        ensures name { self.now.first ≡ N.log.first }
    {
        self.last.max(self.heard)
    }

    /// The greatest compaction floor that it knows.
    pub fn floor(&self) -> u64
        ensures { result ≡ self.now.floor }
    {
        self.floor
    }

    /// What its last `look` answered, or 0 where it made none.
    pub fn last(&self) -> u64
        ensures { result ≡ last_of self.now }
    {
        self.last
    }

    /// The revision of the last entry that it has seen.
    pub fn end(&self) -> u64
        ensures { result ≡ end_from self.now.first self.now.seen }
    {
        self.end
    }

    /// A second pass, with a seat of its own, that knows the same. The only refusal is want of memory.
    pub fn split(&mut self) -> Result<Front<E, N>, AllocError>
        ensures same { self.new ≡ self.old }
        ensures copy { IfOk result (λ p. p ≡ record self.old { seat = p.seat }) }
        ensures extends { Extends self.old self.new }
    {
        let board = Arc::try_clone(&self.board)?;
        let News {
            seat,
            end,
            shown,
            floor,
            of,
        } = self.tell();
        Ok(Front {
            board,
            seat,
            end,
            last: self.last,
            heard: shown,
            floor,
            of,
        })
    }

    /// Takes in another pass of the log, which is given up. Of what both have seen, the longer begins with the shorter.
    ///
    /// It needs no memory, so it does not refuse.
    pub fn meet(&mut self, other: Front<E, N>) -> Result<(), Front<E, N>>
        ensures met { MatchResult result (λ _. Met self.old other self.new) (λ back. (back ≡ other) × (self.new ≡ self.old)) }
        ensures done { IsOk result }
        ensures extends { Extends self.old self.new }
    {
        let Front {
            seat,
            end,
            last,
            heard,
            floor,
            of,
            ..
        } = other;
        self.hear(News {
            seat,
            end,
            shown: last.max(heard),
            floor,
            of,
        });
        Ok(())
    }

    /// Two passes of the log meet, and both are kept: each has then met the other. It needs no memory.
    pub fn share(&mut self, other: &mut Front<E, N>)
        ensures met { Met self.old other.old self.new }
        ensures other_met { Met other.old self.old other.new }
        ensures extends { Extends self.old self.new }
        ensures other_extends { Extends other.old other.new }
    {
        let mine = self.tell();
        self.hear(other.tell());
        other.hear(mine);
    }

    /// What it knows, for another handle. It needs no memory.
    pub fn tell(&mut self) -> News<E, N>
        ensures same { self.new ≡ self.old }
        ensures copy { result ≡ record self.old { seat = result.seat } }
    {
        let shared = &self.board.shared;
        let seat = shared.split_seat::<Copies>(&mut self.seat);
        News {
            seat,
            end: self.end,
            shown: self.shown(),
            floor: self.floor,
            of: PhantomData,
        }
    }

    /// Takes in what another handle knows. Of what both have seen, the longer begins with the shorter.
    pub fn hear(&mut self, news: News<E, N>)
        ensures met { Met self.old news self.new }
        ensures extends { Extends self.old self.new }
    {
        let News {
            seat,
            end,
            shown,
            floor,
            ..
        } = news;
        let shared = &self.board.shared;
        shared.join_seat::<Meet>(&mut self.seat, seat);
        shared.load::<RecallPass>(&mut self.seat, 0);
        self.end = self.end.max(end);
        self.heard = self.heard.max(shown);
        self.floor = self.floor.max(floor);
    }
}
