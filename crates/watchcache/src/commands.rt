//! What is done for what the words of the command line ask for.

ghost use Rattle.std.specs.Prelude.{◌≡◌, ◌<◌, ◌^◌, IfOk, None};
ghost use Rattle.watchcache.specs.Words.{IsInRange};
ghost use Rattle.edge_io.specs.Sent.{sent_through};
ghost use Rattle.watchcache.specs.Run.{Does, ends_of, use_of};

use crate::asked::{Asked, WordsNo};
use crate::checks::check_record;
use crate::loads::load;
use crate::noted::NotedNet;
use crate::peer::serve_any;
use crate::server::Setup;
use crate::session::run_session;
use crate::statuses::OUT_OF_MEMORY;
use crate::texts::{write_bad_line, write_help, write_version};
use bells::Rung;
use edge_io::{Clock, Listener, Net, Sink, Source};
use net_front::{Host, Redial};
use std::alloc::Global;

/// Does what is asked for, or refuses what asks for nothing. Answers the exit status.
pub fn perform<R: Host, S: Source, K: Sink, T: Clock + Send, N: Net, D: Redial + Send + Drop>(
    rt: R,
    alloc: Global,
    asked: &Result<Asked, WordsNo>,
    source: &mut S,
    sink: &mut K,
    clock: &mut T,
    net: &mut NotedNet<N>,
    redial: &mut D,
) -> u8
where
    <N::L as Listener>::T: Rung,
    requires range { IfOk asked.now IsInRange }
    requires few_faults { N.faults net.old.net < 2 ^ 62 }
    requires quiet { net.old.notes.dialled ≡ None }
    ensures { Does asked.now
        (ends_of S.left S.faults source.old source.new T.readings clock.old clock.new
        (sent_through K.written K.settled K.faults sink.old sink.new))
        (use_of N.faults N.served N.ended N.peer net.old.net net.new.net net.new.notes) result }
{
    match asked {
        Ok(Asked::Help) => write_help(sink),
        Ok(Asked::Version) => write_version(sink),
        Ok(Asked::Session(settings)) => run_session(alloc, settings, source, sink, clock),
        Ok(Asked::Serve(ask)) => {
            let options = ask.options;
            let setup = Setup { rt, alloc, options };
            serve_any(setup, &ask.namespace, sink, clock, net, redial)
        }
        Ok(Asked::Load(options)) => load(alloc, *options, sink),
        Ok(Asked::Check) => check_record(rt, alloc, source, sink),
        Err(WordsNo::Bad(_)) => write_bad_line(sink),
        Err(WordsNo::Memory) => OUT_OF_MEMORY,
    }
}
