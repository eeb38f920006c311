//! The laws.

ghost use Rattle.laws.specs.ServedMirrors.{ServersAreMirrored};

use rev_log::fitting_logs_are_logs;
use watch_lines::{lines_read_back, texts_have_no_line_feed};

/// A mirror that reads what a session writes to its watch, of a log that began with nothing and whose objects may be
/// stored, may hear each line: what is asked of a mirror's peer holds, so that it mirrors the session's log.
pub fn servers_are_mirrored()
    ensures { ServersAreMirrored }
{
    fitting_logs_are_logs();
    lines_read_back();
    texts_have_no_line_feed();
}
