//! The table of a new log.

ghost use Rattle.std.specs.Prelude.{◌≡◌, ◌≤◌, ◌^◌, IfOk};

use crate::author::PARTS;
use crate::blanks::Blank;
use crate::entry::Entry;
use crate::sight::Law;
use atomic_table::Table;
use std::alloc::{AllocError, Global};
use std::sync::{Arc, ledger};

/// The table of a new, empty log.
///
/// `first` is the revision of the empty log, from 1 to 2^62. The only refusal is want of memory.
pub fn blank<E: Entry>(alloc: Global, first: u64) -> Result<Blank<E>, AllocError>
    requires low { 1 ≤ first }
    requires high { first ≤ 2 ^ 62 }
    ensures { IfOk result (λ b. b.first ≡ first) }
{
    let (table, seat) = Table::of_words(alloc, &[first, 0, first], &first)?;
    let board = Arc::new(alloc, table)?;
    Ok(Blank {
        board,
        seat,
        first,
        commits: ledger::Blank::new(PARTS),
        orders: ledger::Blank::new(PARTS),
    })
}
