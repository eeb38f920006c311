//! Laws of mirrors.

ghost use Rattle.mirror_link.specs.Laws.{LawfulLinesAreHeard};

use watch_lines::lines_read_back;

/// A mirror that follows a lawful body refuses its next line for a gap alone.
pub fn lawful_lines_are_heard()
    ensures { LawfulLinesAreHeard }
{
    lines_read_back();
}
