//! Laws of logs, and of what stands at their revisions.

ghost use Rattle.rev_log.specs.Laws.{FittingLogsAreLogs, RowsStay, StatesStay, StatesExist, LastChangesDecide};
ghost use Rattle.rev_log.specs.Logs.{FittingLogsAreNumbered};
ghost use Rattle.rev_log.specs.States.{StatesAreUnique};

/// A resource has one list of rows at a revision.
pub fn states_are_unique()
    ensures { StatesAreUnique }
{}

/// Each resource has a list of rows at each revision.
pub fn states_exist()
    ensures { StatesExist }
{}

/// The row at a key at a revision that a log has reached stays as the log grows.
pub fn rows_stay()
    ensures { RowsStay }
{}

/// The state at a revision that a log has reached stays as the log grows.
pub fn states_stay()
    ensures { StatesStay }
{}

/// The row at a key is that of the last change of its object at or below the revision, and else the base row.
pub fn last_changes_decide()
    ensures { LastChangesDecide }
{}

/// Revisions of which each fits its place in a log are numbered by their places.
pub fn fitting_logs_are_numbered()
    ensures { FittingLogsAreNumbered }
{}

/// Such revisions are a log, where its base rows and its end are as they should be.
pub fn fitting_logs_are_logs()
    ensures { FittingLogsAreLogs }
{}
