//! One session.

ghost use Rattle.edge_io.specs.Sent.{sent_through};
ghost use Rattle.std.specs.Prelude.{◌≡◌, [], false};
ghost use Rattle.up_api.specs.Settings.{AreInRange};
ghost use Rattle.watchcache.specs.Run.{RunsSession, ends_of};

use crate::statuses::OUT_OF_MEMORY;
use edge_io::{Clock, Sink, Source};
use local_client::LocalClient;
use rev_front::{Blank, blank};
use rev_log::Revision;
use sess_serve::serve_session;
use std::alloc::Global;
use std::marker::Brand;
use up_api::{LogFacts, Settings};

/// The first revision of a new log.
const FIRST: u64 = 1;

/// One session with a client of a new log, in these settings. Answers the status of its end.
pub fn run_session<S: Source, K: Sink, T: Clock>(
    alloc: Global,
    settings: &Settings,
    source: &mut S,
    sink: &mut K,
    clock: &mut T,
) -> u8
    requires settings { AreInRange settings.now }
    ensures run { RunsSession settings.now
        (ends_of S.left S.faults source.old source.new T.readings clock.old clock.new
        (sent_through K.written K.settled K.faults sink.old sink.new)) result }
{
    match blank(alloc, FIRST) {
        Ok(made) => serve_new::<Brand, S, K, T>(alloc, made, settings, source, sink, clock),
        Err(_) => OUT_OF_MEMORY,
    }
}

// The session, with a client of the log whose table was just made.
fn serve_new<N: LogFacts, S: Source, K: Sink, T: Clock>(
    alloc: Global,
    made: Blank<Revision>,
    settings: &Settings,
    source: &mut S,
    sink: &mut K,
    clock: &mut T,
) -> u8
    requires name { made ≡ N.log }
    requires first { N.log.first ≡ 1 }
    requires base { N.base ≡ [] }
    requires own { N.mirror ≡ false }
    requires settings { AreInRange settings.now }
    ensures run { RunsSession settings.now
        (ends_of S.left S.faults source.old source.new T.readings clock.old clock.new
        (sent_through K.written K.settled K.faults sink.old sink.new)) result }
{
    match LocalClient::<N>::new(alloc, made, settings) {
        Ok(mut client) => {
            let end = serve_session(alloc, &mut client, source, sink, clock, settings);
            client.close();
            end.status()
        }
        Err(_) => OUT_OF_MEMORY,
    }
}
