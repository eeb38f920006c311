//! Names of logs, which stand in contracts alone.

use std::marker::Brand;

/// Names one log in contracts. All passes that carry one name belong to one log.
///
/// A log is made before it is named: [`blank`](crate::blank) makes its table, and a function that is generic in the
/// name is then called with std's `Brand`, where the caller's proof picks that table as what `Brand` names.
pub trait LogName {
    ghost use Rattle.rev_front.specs.Passes.{LogId};

    // The table that has the log's numbers, and the log's first revision.
    ghost log: { LogId };
}

impl LogName for Brand {
    ghost use Rattle.rev_front.specs.Passes.{no_log};

    ghost log = { no_log };
}
