//! A log that has no name yet.

ghost use Rattle.std.specs.Prelude.{◌≡◌};
ghost use Rattle.rev_front.specs.Passes.{empty_log, idle_author, whole_right};

use crate::author::{Author, Commits, Orders};
use crate::entry::Entry;
use crate::name::LogName;
use crate::pen::Pen;
use crate::sight::{Board, Place};
use std::alloc::Global;
use std::marker::{Model, PhantomData};
use std::sync::{Arc, ledger};

/// The table of a new, empty log, which has no name yet. Contracts see which log it is.
#[derive(Drop)]
pub struct Blank<E: Entry> {
    pub(crate) board: Arc<Board<E>, Global>,
    pub(crate) seat: Place<E>,
    pub(crate) first: u64,
    pub(crate) commits: ledger::Blank,
    pub(crate) orders: ledger::Blank,
}

impl<E: Entry> Model for Blank<E> {
    ghost use Rattle.std.specs.Prelude.{◌≡◌, ℕ};
    ghost use Rattle.std.specs.Arc.{arc_value};
    ghost use Rattle.rev_front.specs.Passes.{LogId, whole_right};

    ghost Value = { LogId };

    ghost use Rattle.rev_front.specs.Kept.{IsBlank};

    ghost view = { λ b. record { table = (arc_value b.board).shared.table_id; first = b.first; commits = b.commits.name; orders = b.orders.name } };

    ghost invariant = { λ b. IsBlank (arc_value b.board).shared.table_id (arc_value b.board).shared.key b.seat b.first × (b.commits.parts ≡ whole_right) × (b.orders.parts ≡ whole_right) };
}

/// The pen of a new log, under its name, and the right to change it by that pen.
pub fn start<E: Entry, N: LogName>(blank: Blank<E>) -> (Pen<E, N>, Author<N>)
    requires { blank ≡ N.log }
    ensures pen { result.0 ≡ empty_log N.log.first }
    ensures author { result.1 ≡ idle_author whole_right }
{
    let Blank {
        board,
        seat,
        first,
        commits,
        orders,
    } = blank;
    let (book, share) = commits.open::<Commits<N>>();
    let (order_book, given) = orders.open::<Orders<N>>();
    let pen = Pen {
        board,
        seat,
        revision: first,
        generation: 0,
        floor: first,
        book,
        order_book,
        of: PhantomData,
    };
    (pen, Author::whole(share, given))
}
