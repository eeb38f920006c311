//! Who changes a log.

ghost use Rattle.std.specs.Prelude.{◌≡◌, ◌+◌, ◌≤◌, ◌↔◌, IsTrue, IfNone, IfSome};
ghost use Rattle.rev_front.specs.Passes.{idle_author, joined, whole_right};

use crate::name::LogName;
use std::marker::{Model, PhantomData};
use std::sync::ledger::{Ledger, Share};

/// Into how many parts the right to change a log is cut.
pub(crate) const PARTS: u64 = 1 << 62;

/// The ledger of a log's revisions: each is counted for the author that committed it.
pub struct Commits<N: LogName> {
    of: PhantomData<N>,
}

impl<N: LogName> Ledger for Commits<N> {
    ghost use Rattle.rev_front.specs.Passes.{whole_right};

    ghost name = { N.log.commits };

    ghost parts = { whole_right };
}

/// The ledger of the orders on a log, as to cut its feeds or compact it: each is counted for the author that gave it.
pub struct Orders<N: LogName> {
    of: PhantomData<N>,
}

impl<N: LogName> Ledger for Orders<N> {
    ghost use Rattle.rev_front.specs.Passes.{whole_right};

    ghost name = { N.log.orders };

    ghost parts = { whole_right };
}

/// Some parts of the right to change a log, and what was done by them. Nobody commits or gives an order without one,
/// and none can be made: a log begins with one that has all parts. Contracts see its parts, how many revisions of the
/// log are its own, and how many orders.
#[derive(Drop)]
pub struct Author<N: LogName> {
    pub(crate) share: Share<Commits<N>>,
    pub(crate) given: Share<Orders<N>>,
    pub(crate) parts: u64,
}

impl<N: LogName> Model for Author<N> {
    ghost use Rattle.std.specs.Prelude.{◌≡◌, ◌<◌};
    ghost use Rattle.rev_front.specs.Passes.{Authored};

    ghost Value = { Authored };

    ghost view = { λ a. record { parts = a.share.parts; own = a.share.amount; orders = a.given.amount } };

    ghost invariant = { λ a. (a.parts ≡ a.share.parts) × (a.given.parts ≡ a.share.parts) × (0 < a.share.parts) };
}

impl<N: LogName> Author<N> {
    // All parts of the right.
    pub(crate) fn whole(share: Share<Commits<N>>, given: Share<Orders<N>>) -> Author<N>
        requires parts { (share.parts ≡ whole_right) × (given.parts ≡ whole_right) }
        ensures { result ≡ record { parts = whole_right; own = share.amount; orders = given.amount } }
    {
        Author {
            share,
            given,
            parts: PARTS,
        }
    }

    /// So many parts for another author, who has done nothing yet. None where no part would be left.
    pub fn split(&mut self, parts: u64) -> Option<Author<N>>
        requires { 1 ≤ parts }
        ensures part { IfSome result (λ other. (other ≡ idle_author parts) × (self.new.parts + parts ≡ self.old.parts)) }
        ensures own { self.new.own ≡ self.old.own }
        ensures orders { self.new.orders ≡ self.old.orders }
        ensures last { IfNone result ((self.old.parts ≤ parts) × (self.new ≡ self.old)) }
    {
        if self.parts <= parts {
            return None;
        }
        let share = self.share.split_off(parts, 0);
        let given = self.given.split_off(parts, 0);
        self.parts -= parts;
        Some(Author {
            share,
            given,
            parts,
        })
    }

    /// Takes in another author's parts, with what was done by them.
    pub fn merge(&mut self, other: Author<N>)
        ensures { self.new ≡ joined self.old other }
    {
        let Author {
            share,
            given,
            parts,
        } = other;
        self.share.merge(share);
        self.given.merge(given);
        self.parts += parts;
    }

    /// Whether all parts are here, so that nobody else can change the log.
    pub fn is_whole(&self) -> bool
        ensures { IsTrue result ↔ (self.now.parts ≡ whole_right) }
    {
        self.parts == PARTS
    }
}
