//! How the stream of a watch is shown, by the request that asks for it.

ghost use Rattle.std.specs.Prelude.{◌≡◌, IfOk};
ghost use Rattle.std.specs.Bool.{MatchBool};
ghost use Rattle.sess_serve.specs.Http.{IsPlainOrUpgrade, FailsUpgrade};
ghost use Rattle.sess_serve.specs.Http as http;

use http_read::{Req, Upgrade};
use kube_meta::{Memory, Text};
use sess_reply::form_of;
use sess_turns::{Framing, View};
use std::alloc::Global;
use ws_watch::is_upgrade;

/// Whether a request asks for no WebSocket, or asks for one as it must.
pub fn is_plain_or_upgrade(req: &Req) -> bool
    ensures { MatchBool result (IsPlainOrUpgrade req.now) (FailsUpgrade req.now.upgrade) }
{
    match &req.upgrade {
        None => true,
        Some(upgrade) => is_upgrade(upgrade.key.as_str(), upgrade.version.as_str()),
    }
}

/// How the stream that answers a request is shown.
pub fn view_of(alloc: Global, req: &Req) -> Result<View, Memory>
    ensures { IfOk result (λ view. view ≡ http.view_of req.now) }
{
    let framing = framing_of(alloc, &req.upgrade)?;
    Ok(View {
        form: form_of(req),
        framing,
    })
}

fn framing_of(alloc: Global, upgrade: &Option<Upgrade>) -> Result<Framing, Memory>
    ensures { IfOk result (λ framing. framing ≡ http.framing_of upgrade.now) }
{
    match upgrade {
        None => Ok(Framing::Chunks),
        Some(upgrade) => Ok(Framing::Messages(Text::new(alloc, upgrade.key.as_str())?)),
    }
}
