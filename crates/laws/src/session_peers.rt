//! The laws.

ghost use Rattle.laws.specs.SessionPeers.{LogsArePeers, ToldObjectsAreStored};

use rev_log::fitting_logs_are_logs;

/// What a session knows of a log that began with nothing, and whose objects may be stored, is a log that a mirror may
/// follow, and each object that the lines of a watch over it tell may be stored.
pub fn logs_are_peers()
    ensures peers { LogsArePeers }
    ensures told { ToldObjectsAreStored }
{
    fitting_logs_are_logs();
}
