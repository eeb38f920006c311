//! The texts that the program writes for its words, and writing them.

ghost use Rattle.edge_io.specs.Sent.{sent_through};
ghost use Rattle.watchcache.specs.Run.{IsTold};
ghost use Rattle.watchcache.specs.Texts.{help, version_text, bad_line};

use crate::statuses::{BAD_WORDS, DONE};
use crate::telling::tell;
use edge_io::Sink;

/// How the program is used: commands, options with their ranges and defaults, exit statuses.
const HELP: &[u8] = b"\
watchcache: the watch cache of a Kubernetes API server

usage:
  watchcache session [OPTION]..   serve one connection: requests on standard input, replies on standard output
  watchcache serve [OPTION]..     serve connections to a port of 127.0.0.1, until it is told to end
  watchcache load [OPTION]..      serve a session of drawn requests in memory, and write five lines of what came of it
  watchcache check                judge the record of a log and of a watch's body on standard input
  watchcache --help, -h           write this text
  watchcache --version            write the version

options, each at most once, as --window 50 or --window=50; those of session and serve:
  --window N        changes of one resource that a watch reaches back at least: 1 to 102400, default 100
  --window-max N    changes of one resource that are kept while fresh: the window to 102400, default the window
  --fresh-ms N      milliseconds for which a change is fresh: 1 to 86400000, default 75000
  --lane N          batches that wait for one watcher: 1 to 1024, default 16
  --batch N         events that a watch is told in one turn: 1 to 10000, default 100
  --history N       revisions whose states are kept: 1 to 1000000, default 10000
  --bookmark-ms N   milliseconds between the bookmarks of a watch: 1 to 86400000, default 60000
  --timeout-s N     seconds that a watch lasts whose request doesn't say: 1 to 1000000, default 1800

and of serve:
  --port N          the port: 0 to 65535, default 8001; 0 is any that is free
  --workers N       threads that serve connections from the start on: 1 to 64, default 4
  --open N          connections that are served side by side, by threads that come as they are wanted: 1 to 65536, default 16384
  --connections N   connections that are accepted before it ends: 0 to 4611686018427387904, default 0, which is all
  --peer N          the port of a server whose pods it mirrors: 1 to 65535, default none
  --cluster N       the port of `kubectl proxy` to a cluster that it mirrors: 1 to 65535, default none
  --resources LIST  what it mirrors of the cluster: some of pods,configmaps,deployments, default all
  --namespace NAME  the one namespace that it mirrors of the cluster, default all
  --first-revision N  the revision of its empty log, unless it is a mirror: 1 to 4611686018427387904, default 1
  --history-mib N   MiB of text in the changes of its log that are kept: 1 to 1048576, default 256

those of load:
  --from N          what the requests are drawn from: 0 to 4611686018427387904, default 1
  --requests N      requests before the last list: 0 to 100000, default 1000

exit status:
  0   all input was answered, a request asked for the end, or a watch ended; a load or a text was written
  2   the command line is bad
  3   reading failed
  4   writing failed
  5   the input ended inside a request
  6   the input went on with what is no request, as its reply says
  7   1000000 requests were answered
  8   memory ran out
  9   dialling the peer or the cluster, its opening or list, listening or accepting failed
  11  the body of a record is unlawful
  12  what was to be checked is no record
  13  what the peer sent is no streaming list, or what the cluster sent is no list
";

const VERSION: &[u8] = b"watchcache 0.1.0\n";

const BAD_LINE: &[u8] = b"watchcache: bad command line\n";

/// Writes how the program is used.
pub fn write_help<K: Sink>(sink: &mut K) -> u8
    ensures { IsTold help 0 (sent_through K.written K.settled K.faults sink.old sink.new) result }
{
    write(sink, HELP, DONE)
}

/// Writes the version.
pub fn write_version<K: Sink>(sink: &mut K) -> u8
    ensures { IsTold version_text 0 (sent_through K.written K.settled K.faults sink.old sink.new) result }
{
    write(sink, VERSION, DONE)
}

/// Says that the command line is bad.
pub fn write_bad_line<K: Sink>(sink: &mut K) -> u8
    ensures { IsTold bad_line 2 (sent_through K.written K.settled K.faults sink.old sink.new) result }
{
    write(sink, BAD_LINE, BAD_WORDS)
}

// Writes a text and sends it on. Answers `done`, or the status of a failed write.
fn write<K: Sink>(sink: &mut K, text: &[u8], done: u8) -> u8
    ensures { IsTold text.now done (sent_through K.written K.settled K.faults sink.old sink.new) result }
{
    tell(sink, &[text], done)
}
