//! A load.

ghost use Rattle.edge_io.specs.Sent.{sent_through};
ghost use Rattle.std.specs.Prelude.{◌≤◌, ◌^◌};
ghost use Rattle.watchcache.specs.Run.{TellsLoad};

use crate::asked::LoadOptions;
use crate::statuses::{DONE, OUT_OF_MEMORY, WRITE_FAULT};
use edge_io::Sink;
use load_gen::{LoadNo, run_load};
use std::alloc::Global;

/// Serves a session of drawn requests, and tells its figures. Answers the status.
pub fn load<K: Sink>(alloc: Global, options: LoadOptions, sink: &mut K) -> u8
    requires from { options.from ≤ 2 ^ 62 }
    requires requests { options.requests ≤ 100000 }
    ensures { TellsLoad options (sent_through K.written K.settled K.faults sink.old sink.new) result }
{
    match run_load(alloc, options.from, options.requests, sink) {
        Ok(()) => DONE,
        Err(LoadNo::WriteFault) => WRITE_FAULT,
        Err(LoadNo::Memory) => OUT_OF_MEMORY,
    }
}
