//! What a hub makes of the calls for one watch.

ghost use Rattle.std.specs.Prelude.{◌≡◌, ◌≤◌, ◌<◌, Err, IfOk, IfSome};
ghost use Rattle.cache_hub.specs.declared.catching.CatchNo.TheVariants.{Lost};
ghost use Rattle.laws.specs.HubSteps.{IsOpening, IsCatchUp, IsLoss, IsClosing};

use cache_hub::{CatchNo, Caught, Hub};
use kube_meta::Memory;
use select_all::Selection;
use up_api::LogFacts;
use watch_lane::LaneOut;

/// A lane that it opens is a watch that opens.
pub fn open<N: LogFacts>(
    hub: &mut Hub<N>,
    selection: &Selection,
    at: u64,
) -> Result<(u64, LaneOut<N>), Memory>
    requires { selection.now.resource ≡ hub.old.cache.resource }
    ensures { IfOk result (λ r. IsOpening r.0 selection.now at hub.old hub.new) }
{
    hub.open_lane(selection, at)
}

/// What a watch is told that catches up, it receives.
pub fn catch_up<N: LogFacts>(
    hub: &mut Hub<N>,
    id: u64,
    selection: &Selection,
    at: u64,
    many: usize,
) -> Result<Caught, CatchNo>
    requires resource { selection.now.resource ≡ hub.old.cache.resource }
    requires some { 1 ≤ many }
    ensures { IfOk result (λ caught. IsCatchUp id selection.now at caught hub.old hub.new) }
{
    hub.catch_up(Some(id), selection, at, many)
}

/// A watch that goes along with the cache receives what it is told, too, wherever the ring begins.
pub fn go_along<N: LogFacts>(
    hub: &mut Hub<N>,
    id: u64,
    selection: &Selection,
    at: u64,
) -> Option<Caught>
    ensures { IfSome result (λ caught. IsCatchUp id selection.now at caught hub.old hub.new) }
{
    hub.go_along(id, selection, at)
}

/// A watch below the ring can't catch up. It is told so, and where its lane is closed, it is lost.
pub fn lose<N: LogFacts>(
    hub: &mut Hub<N>,
    id: u64,
    selection: &Selection,
    at: u64,
) -> Result<Caught, CatchNo>
    requires resource { selection.now.resource ≡ hub.old.cache.resource }
    requires below { at < hub.old.cache.ring.floor }
    ensures refused { result ≡ Err (Lost at hub.old.cache.ring.floor) }
    ensures lost { IsLoss id selection.now at hub.old hub.new }
{
    let refused = hub.catch_up(Some(id), selection, at, 1);
    hub.close_lane(id);
    refused
}

/// A lane that it closes is a watch that closes.
pub fn close<N: LogFacts>(hub: &mut Hub<N>, id: u64)
    ensures { IsClosing id hub.old hub.new }
{
    hub.close_lane(id);
}
