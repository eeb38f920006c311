//! What a load comes to, and how it is told.

ghost use Rattle.std.specs.Prelude.{OnOk};
ghost use Rattle.edge_io.specs.Sent.{Writes, sent_through};
ghost use Rattle.load_gen.specs.Figures.{figure_lines};

use edge_io::{Failed, Sink};
use http_send::parts;
use itoa::Buffer;

/// The number of requests that are drawn, how many replies before the last have a code below 400 and how many another,
/// and the revision and the number of objects of the list at the end.
#[derive(Clone, Copy, Debug, PartialEq, Eq)]
pub struct Figures {
    pub requests: u64,
    pub ok: u64,
    pub refused: u64,
    pub revision: u64,
    pub items: u64,
}

impl Figures {
    /// Writes them, one a line, and sends them on.
    pub(crate) fn write<K: Sink>(&self, sink: &mut K) -> Result<(), Failed>
        ensures writes { Writes result (figure_lines self.now) (sent_through K.written K.settled K.faults sink.old sink.new) }
        ensures settled { OnOk result (K.settled sink.new) }
    {
        self.put(sink)?;
        sink.flush()
    }

    // Writes them.
    fn put<K: Sink>(&self, sink: &mut K) -> Result<(), Failed>
        ensures { Writes result (figure_lines self.now) (sent_through K.written K.settled K.faults sink.old sink.new) }
    {
        let mut requests = Buffer::new();
        let mut ok = Buffer::new();
        let mut refused = Buffer::new();
        let mut revision = Buffer::new();
        let mut items = Buffer::new();
        let pieces: [&[u8]; 11] = [
            b"requests ",
            requests.format(self.requests).as_bytes(),
            b"\nok ",
            ok.format(self.ok).as_bytes(),
            b"\nrefused ",
            refused.format(self.refused).as_bytes(),
            b"\nrevision ",
            revision.format(self.revision).as_bytes(),
            b"\nitems ",
            items.format(self.items).as_bytes(),
            b"\n",
        ];
        parts(sink, &pieces)
    }
}
