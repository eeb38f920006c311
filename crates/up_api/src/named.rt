//! What the name of a log tells in contracts.

use rev_front::LogName;
use std::marker::Brand;

/// What the name of a log tells of it in contracts, beside its table and its first revision.
pub trait LogFacts: LogName {
    ghost use Rattle.std.specs.Prelude.{ℕ, List, Bool};
    ghost use Rattle.kube_meta.specs.Rows.{RowData};

    // the pods that stood at the first revision
    ghost base: { List RowData };

    // whether the log is a mirror's, which takes its revisions from a peer alone
    ghost mirror: { Bool };

    // how many changes of one resource the caches of the log keep at least
    ghost window: { ℕ };
}

impl LogFacts for Brand {
    ghost use Rattle.std.specs.Prelude.{[], false};

    ghost base = { [] };

    ghost mirror = { false };

    ghost window = { 1 };
}
