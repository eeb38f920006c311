//! The whole stream of a watch.

ghost use Rattle.std.specs.Prelude.{◌≡◌, ◌≢◌, ◌≤◌, List, [], ◌∷◌, ◌++◌, Option, Some, None, Err};
ghost use Rattle.edge_io.specs.Sent.{sent_through};
ghost use Rattle.edge_io.specs.Told.{Noted};
ghost use Rattle.edge_io.specs.declared.clock.Reading.{Reading as ReadingData};
ghost use Rattle.up_api.specs.Settings.{AreInRange};
ghost use Rattle.sess_turns.specs.Terms.{terms_of};
ghost use Rattle.watch_rules.specs.Bodies.{opening_lines};
ghost use Rattle.sess_reply.specs.Sending.{Sends};
ghost use Rattle.sess_turns.specs.Streams.{IsStreamed, outside_of, gone_text, head_text, frames_of};

use crate::ends::WatchEnd;
use crate::frames::{begin, end};
use crate::lines::{lost, opening};
use crate::turns::turns;
use crate::view::View;
use client_api::{Begun, Client};
use edge_io::{Clock, Reading, Sink};
use sess_reply::{Broken, send_on};
use up_api::Settings;
use watch_rules::WatchAsk;

/// Answers a watch that has begun by its stream, until it ends, and ends the watch. The clock is read once before the
/// head and once a turn; each turn is flushed. What the watch began with is let go behind the opening, so that the
/// objects that stood there aren't held while the watch goes on.
pub fn serve_stream<C: Client, K: Sink, T: Clock>(
    client: &mut C,
    sink: &mut K,
    clock: &mut T,
    ask: &WatchAsk,
    begun: Begun,
    view: &View,
    settings: &Settings,
) -> Result<WatchEnd, Broken>
    requires watching { (C.facts client.old).watching ≡ Some (record { selection = ask.now.selection; position = begun.at }) }
    requires settings { AreInRange settings.now }
    ensures streamed { IsStreamed (terms_of C.base C.mirror (C.facts client.old) settings.now) view.now ask.now begun
        (C.whole client.old) (C.pass client.old)
        (outside_of T.readings clock.old clock.new (sent_through K.written K.settled K.faults sink.old sink.new)) result (C.pass client.new) }
    ensures facts { C.facts client.new ≡
        record (C.facts client.old) { watching = None; heard = (C.facts client.new).heard } }
    ensures heard { T.last clock.new ≤ (C.facts client.new).heard }
    ensures kept { C.whole client.old → result ≢ Err Broken.Memory → C.whole client.new }
{
    let start = clock.now();
    client.tick(start.ms);
    let answer = stream(client, sink, clock, ask, begun, start, view, settings);
    client.end_watch();
    answer
}

// The stream after the first reading of the clock, which was noted.
fn stream<C: Client, K: Sink, T: Clock>(
    client: &mut C,
    sink: &mut K,
    clock: &mut T,
    ask: &WatchAsk,
    begun: Begun,
    start: Reading,
    view: &View,
    settings: &Settings,
) -> Result<WatchEnd, Broken>
    requires watching { (C.facts client.old).watching ≡ Some (record { selection = ask.now.selection; position = begun.at }) }
    requires settings { AreInRange settings.now }
    requires heard { T.last clock.old ≤ (C.facts client.old).heard }
    ensures streamed { (readings : Option (List ReadingData)) → Noted readings (T.readings clock.old) (start ∷ []) →
        IsStreamed (terms_of C.base C.mirror (C.facts client.old) settings.now) view.now ask.now begun (C.whole client.old) (C.pass client.old)
        (record { readings_old = readings; readings_new = T.readings clock.new; sent = sent_through K.written K.settled K.faults sink.old sink.new })
        result (C.pass client.new) }
    ensures same { C.facts client.new ≡ record (C.facts client.old) { watching = (C.facts client.new).watching; heard = (C.facts client.new).heard } }
    ensures heard { T.last clock.new ≤ (C.facts client.new).heard }
    ensures kept { C.whole client.old → result ≢ Err Broken.Memory → C.whole client.new }
{
    let at = begun.at;
    open(sink, view, ask, begun)?;
    turns(client, sink, clock, ask, start, at, view, settings)
}

// Writes the head and the opening, and sends them on. What the watch began with is let go then.
fn open<K: Sink>(sink: &mut K, view: &View, ask: &WatchAsk, begun: Begun) -> Result<(), Broken>
    ensures { Sends result (head_text view.now.framing ++ frames_of view.now ask.now.selection.resource (opening_lines ask.now begun.at begun.rows))
        (sent_through K.written K.settled K.faults sink.old sink.new) }
{
    begin(sink, &view.framing)?;
    opening(sink, view, ask, &begun)?;
    send_on(sink)
}

/// The stream of a watch that asked for the changes since `asked`, which may not all be kept: that is below `floor`.
pub fn serve_gone<K: Sink>(sink: &mut K, view: &View, asked: u64, floor: u64) -> Result<(), Broken>
    ensures { Sends result (gone_text view.now.framing asked floor)
        (sent_through K.written K.settled K.faults sink.old sink.new) }
{
    begin(sink, &view.framing)?;
    lost(sink, &view.framing, asked, floor)?;
    end(sink, &view.framing)
}
