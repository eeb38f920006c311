//! Readers of a cluster's replies.

ghost use Rattle.std.specs.Prelude.{◌≡◌};
ghost use Rattle.cluster_link.specs.Mirroring.{unread};

use line_stream::LineReader;
use std::alloc::Global;

/// The most bytes of a line.
const MOST_TOLD: usize = 16_777_216;

/// A reader of a connection from which nothing was read.
pub(crate) fn new_reader(alloc: Global) -> LineReader
    ensures { result.at ≡ unread }
{
    let mut reader = LineReader::open(alloc, 0, MOST_TOLD);
    reader.unbound();
    reader
}
