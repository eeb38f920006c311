//! The laws.

ghost use Rattle.laws.specs.Openings.{OpeningsAreOne, OpeningsAreNotRefused, BadLinesAgree};
ghost use Rattle.laws.specs.MirroredStreams.{WatchesAreRead};

use line_stream::{outcomes_agree, readings_agree};
use watch_lines::{lines_are_one, lines_read_back, texts_have_no_line_feed};

/// Whoever stands in a beginning of what a session writes to a watch, in chunks of whole objects, stands with the texts
/// of lines that begin a lawful body over the log that the session knew at the end.
pub fn watches_are_read()
    ensures { WatchesAreRead }
{
    lines_read_back();
    texts_have_no_line_feed();
}

/// Bytes have one opening at most, and bytes that follow don't change it.
pub fn openings_are_one()
    ensures { OpeningsAreOne }
{
    lines_are_one();
    readings_agree();
}

/// Bytes that begin with an opening aren't refused as one, whatever follows, but for want of memory.
pub fn openings_are_not_refused()
    ensures { OpeningsAreNotRefused }
{
    lines_are_one();
    readings_agree();
    outcomes_agree();
}

/// A line that no opening has is refused in one way, whatever follows.
pub fn bad_lines_agree()
    ensures { BadLinesAgree }
{
    lines_are_one();
    readings_agree();
}
