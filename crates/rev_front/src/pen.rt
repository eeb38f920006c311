//! The writer of a log.

ghost use Rattle.std.specs.Prelude.{◌≡◌, ℕ, ◌+◌, ◌-◌, ◌<◌, ◌≤◌, ◌^◌, [], ◌∷◌, ◌++◌, length, IfOk, IsOk, MatchResult};
ghost use Rattle.rev_front.specs.Passes.{Covers, Extends, IsWhole, briefed, credited, ordered, pass_from, quiets, revision as reached, whole_right};
ghost use Rattle.rev_front.specs.Rule.{Stands};

use crate::author::{Author, Commits, Orders};
use crate::entry::Entry;
use crate::front::Front;
use crate::name::LogName;
use crate::news::News;
use crate::sight::{Board, Place};
use crate::steps::{Commit, Copies, Learn, PassOver, RecallPen, SetFloor, SetGen};
use std::alloc::{AllocError, Global};
use std::marker::{Model, PhantomData};
use std::sync::Arc;
use std::sync::ledger::Book;

/// The sole writer of a log. Contracts see the whole log and its numbers.
#[derive(Drop)]
pub struct Pen<E: Entry, N: LogName> {
    pub(crate) board: Arc<Board<E>, Global>,
    pub(crate) seat: Place<E>,
    pub(crate) revision: u64,
    pub(crate) generation: u64,
    pub(crate) floor: u64,
    pub(crate) book: Book<Commits<N>>,
    pub(crate) order_book: Book<Orders<N>>,
    pub(crate) of: PhantomData<N>,
}

impl<E: Entry, N: LogName> Model for Pen<E, N> {
    ghost use Rattle.std.specs.Arc.{arc_value};
    ghost use Rattle.rev_front.specs.Passes.{Whole};

    ghost Value = { Whole E };

    ghost use Rattle.rev_front.specs.Rule.{whole_of};
    ghost use Rattle.rev_front.specs.Kept.{Sits, Writes};

    ghost view = { λ p. whole_of N.log.first p.seat.me.0 };

    ghost invariant = { λ p. Sits N.log (arc_value p.board).shared.table_id (arc_value p.board).shared.key p.seat.table_id p.seat.me.1 × Writes E.fits N.log.first p.seat.id p.seat.me.0 p.revision p.generation p.floor p.book.total };
}

/// The three words of a log that was closed.
#[derive(Clone, Copy, Debug)]
pub struct Words {
    pub revision: u64,
    pub generation: u64,
    pub floor: u64,
}

impl<E: Entry, N: LogName> Pen<E, N> {
    /// Adds an entry of this author's, which fits the new revision, and answers that revision, the entry's
    /// `resourceVersion`.
    pub fn commit(&mut self, author: &mut Author<N>, entry: &E) -> u64
        requires room { reached self.old < 2 ^ 62 }
        requires fits { E.fits (reached self.old + 1) entry.now }
        ensures answer { result ≡ reached self.old + 1 }
        ensures log { self.new ≡ record self.old { log = self.old.log ++ entry.now ∷ [] } }
        ensures author { author.new ≡ credited author.old 1 }
    {
        let next = self.revision + 1;
        let shared = &self.board.shared;
        shared.compare_exchange_with::<Commit>(&mut self.seat, 0, self.revision, next, entry);
        self.revision = next;
        self.book.add(&mut author.share, 1);
        next
    }

    /// Passes over revisions at which nothing happens, up to this one. They too are counted for their author.
    pub fn pass_over(&mut self, author: &mut Author<N>, upto: u64)
        requires onward { reached self.old ≤ upto }
        requires last { upto ≤ 2 ^ 62 }
        requires fits { (r : ℕ) → E.fits r (E.quiet r) }
        ensures log { self.new ≡ record self.old { log = self.old.log ++ quiets E.quiet (reached self.old) (upto - reached self.old) } }
        ensures author { author.new ≡ credited author.old (upto - reached self.old) }
    {
        let shared = &self.board.shared;
        shared.compare_exchange::<PassOver>(&mut self.seat, 0, self.revision, upto);
        self.book.add(&mut author.share, upto - self.revision);
        self.revision = upto;
    }

    /// Counts an order of this author.
    pub fn obey(&mut self, author: &mut Author<N>)
        ensures same { self.new ≡ self.old }
        ensures author { author.new ≡ ordered author.old }
    {
        self.order_book.add(&mut author.given, 1);
    }

    /// Changes nothing, and shows that no author has committed more than there is, and that the one that has all parts
    /// has committed the whole log.
    pub fn audit(&mut self, author: &mut Author<N>)
        ensures same { self.new ≡ self.old }
        ensures author { author.new ≡ author.old }
        ensures within { author.old.own ≤ length self.old.log }
        ensures whole { author.old.parts ≡ whole_right → author.old.own ≡ length self.old.log }
    {
        self.book.audit(&mut author.share);
    }

    /// Raises the generation by one, which cuts all feeds of older ones, and answers it. It is an order of this author.
    pub fn cut(&mut self, author: &mut Author<N>) -> u64
        requires { self.old.gen < 2 ^ 62 }
        ensures answer { result ≡ self.old.gen + 1 }
        ensures log { self.new ≡ record self.old { gen = result } }
        ensures author { author.new ≡ ordered author.old }
    {
        let next = self.generation + 1;
        let shared = &self.board.shared;
        shared.store::<SetGen>(&mut self.seat, 1, next);
        self.generation = next;
        self.order_book.add(&mut author.given, 1);
        next
    }

    /// Raises the compaction floor to a revision that the log has reached. States below the floor are no longer
    /// served, as after a compaction of etcd.
    pub fn compact(&mut self, at: u64)
        requires above { self.old.floor ≤ at }
        requires reached { at ≤ reached self.old }
        ensures { self.new ≡ record self.old { floor = at } }
    {
        let shared = &self.board.shared;
        shared.store::<SetFloor>(&mut self.seat, 2, at);
        self.floor = at;
    }

    /// A pass that has seen the whole log. The only refusal is want of memory.
    pub fn front(&mut self) -> Result<Front<E, N>, AllocError>
        ensures same { self.new ≡ self.old }
        ensures pass { IfOk result (λ p. p ≡ pass_from self.old p.seat) }
    {
        let board = Arc::try_clone(&self.board)?;
        let News {
            seat,
            end,
            shown,
            floor,
            of,
        } = self.tell();
        Ok(Front {
            board,
            seat,
            end,
            last: 0,
            heard: shown,
            floor,
            of,
        })
    }

    /// Takes in a pass, which is given up. What it knows is then known to be of this log, and not to be ahead of it.
    ///
    /// It needs no memory, so it does not refuse.
    pub fn learn(&mut self, pass: Front<E, N>) -> Result<(), Front<E, N>>
        ensures same { self.new ≡ self.old }
        ensures learnt { MatchResult result (λ _. Covers self.new pass) (λ back. back ≡ pass) }
        ensures done { IsOk result }
    {
        let Front {
            seat,
            end,
            last,
            heard,
            floor,
            of,
            ..
        } = pass;
        self.hear(News {
            seat,
            end,
            shown: last.max(heard),
            floor,
            of,
        });
        Ok(())
    }

    /// Meets a pass, which is kept: what it knew is of this log and not ahead of it, and then it knows the whole log
    /// and its numbers, beside its own loads. It needs no memory.
    pub fn meet(&mut self, told: &mut Front<E, N>)
        ensures same { self.new ≡ self.old }
        ensures covered { Covers self.old told.old }
        ensures told { told.new ≡ briefed self.old told.old }
        ensures extends { Extends told.old told.new }
    {
        self.hear(told.tell());
        told.hear(self.tell());
    }

    // What it knows, for a pass.
    fn tell(&mut self) -> News<E, N>
        ensures same { self.new ≡ self.old }
        ensures pass { result ≡ pass_from self.old result.seat }
    {
        let shared = &self.board.shared;
        let seat = shared.split_seat::<Copies>(&mut self.seat);
        News {
            seat,
            end: self.revision,
            shown: self.revision,
            floor: self.floor,
            of: PhantomData,
        }
    }

    // Takes in what a pass knows, which is then known to be of this log, and not to be ahead of it.
    fn hear(&mut self, news: News<E, N>)
        ensures same { self.new ≡ self.old }
        ensures covered { Covers self.new news }
    {
        let News { seat, .. } = news;
        let shared = &self.board.shared;
        shared.join_seat::<Learn>(&mut self.seat, seat);
        shared.load::<RecallPen>(&mut self.seat, 0);
    }

    /// The revision that the log has reached.
    pub fn revision(&self) -> u64
        ensures answer { result ≡ reached self.now }
        ensures lawful { IsWhole E.fits self.now }
        ensures name { self.now.first ≡ N.log.first }
    {
        self.revision
    }

    /// The generation of feeds.
    pub fn generation(&self) -> u64
        ensures { result ≡ self.now.gen }
    {
        self.generation
    }

    /// The compaction floor: the revision below which states are no longer served.
    pub fn floor(&self) -> u64
        ensures { result ≡ self.now.floor }
    {
        self.floor
    }

    /// Ends the log where no pass is left, and answers the three words as they stand. The pen comes back where a pass
    /// is left.
    pub fn close(self) -> Result<Words, Pen<E, N>>
        ensures { MatchResult result (λ w. Stands E.fits self (w.revision ∷ w.generation ∷ w.floor ∷ [])) (λ back. back ≡ self) }
    {
        let Pen {
            board,
            seat,
            revision,
            generation,
            floor,
            book,
            order_book,
            of,
        } = self;
        match Arc::try_unwrap(board) {
            Ok(table) => {
                let closed = table.close_with(seat);
                let words = Words {
                    revision: closed.word(0),
                    generation: closed.word(1),
                    floor: closed.word(2),
                };
                closed.free();
                Ok(words)
            }
            Err(board) => Err(Pen {
                board,
                seat,
                revision,
                generation,
                floor,
                book,
                order_book,
                of,
            }),
        }
    }
}
