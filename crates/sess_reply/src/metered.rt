//! Replies to a monitor, and that a server isn't ready, or isn't to run on.

ghost use Rattle.std.specs.Prelude.{◌≡◌};
ghost use Rattle.edge_io.specs.Sent.{sent_through};
ghost use Rattle.meta_view.specs.declared.form.Form.TheVariants.{Whole};
ghost use Rattle.sess_reply.specs.Contents as contents;
ghost use Rattle.sess_reply.specs.Replies.{reply_text, metered, unready};
ghost use Rattle.sess_reply.specs.Sending.{Sends};

use crate::Broken;
use crate::body::send_typed_pieces;
use edge_io::Sink;
use http_send::ContentType;
use metrics::{Metrics, metrics_text};
use route_req::Probe;
use std::alloc::Global;

// What a failed probe is told.
fn failed_text(probe: Probe) -> &'static [u8]
    ensures { result.now ≡ contents.failed_text probe }
{
    match probe {
        Probe::Livez => b"[-]following its peer failed\nlivez check failed",
        Probe::Readyz => b"[-]following its peer failed\nreadyz check failed",
        Probe::Healthz => b"[-]following its peer failed\nhealthz check failed",
    }
}

/// Replies with what a monitor is told.
pub fn send_metered<K: Sink>(
    alloc: Global,
    sink: &mut K,
    close: bool,
    told: &Metrics,
) -> Result<(), Broken>
    ensures { Sends result (reply_text Whole close (metered told.now)) (sent_through K.written K.settled K.faults sink.old sink.new) }
{
    let text = metrics_text(alloc, told)?;
    send_typed_pieces(
        sink,
        ContentType::MetricsText,
        200,
        false,
        close,
        &[text.as_slice()],
    )
}

/// Replies to a probe that it failed, and may be tried again in a second.
pub fn send_unready<K: Sink>(sink: &mut K, close: bool, probe: Probe) -> Result<(), Broken>
    ensures { Sends result (reply_text Whole close (unready probe)) (sent_through K.written K.settled K.faults sink.old sink.new) }
{
    let text = failed_text(probe);
    send_typed_pieces(sink, ContentType::PlainText, 503, true, close, &[text])
}
