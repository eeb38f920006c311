//! Laws of the reading of records.

ghost use Rattle.watch_record.specs.Laws.{LinesAreReadBack};

/// The line that `log_lines` writes of a revision, as a store accepts it and with a change, is read as that revision.
pub fn lines_are_read_back()
    ensures { LinesAreReadBack }
{}
