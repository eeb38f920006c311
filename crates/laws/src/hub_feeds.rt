//! What a hub makes of polls and histories.

ghost use Rattle.std.specs.Prelude.{◌≡◌, OnOk};
ghost use Rattle.up_api.specs.Feeds.{IsFed, IsHistory};
ghost use Rattle.up_api.specs.Sections.{StandsAt, log_of};
ghost use Rattle.cache_hub.specs.Hubs.{StandsFor};
ghost use Rattle.laws.specs.HubSteps.{IsPump, IsRebuild};

use cache_hub::Hub;
use kube_meta::Memory;
use up_api::{History, LogFacts, Pass, Polled};

/// A poll that it takes in is a pump, with memory or without.
pub fn pump<N: LogFacts>(
    hub: &mut Hub<N>,
    polled: &Polled,
    told: &mut Pass<N>,
) -> Result<(), Memory>
    requires stands { StandsAt (λ log. StandsFor log hub.old) N.base told.old hub.old.cache.end }
    requires from { polled.now.from ≡ hub.old.cache.end }
    requires polled { IsFed (log_of N.base told.old) hub.old.cache.resource polled.now }
    ensures { IsPump (log_of N.base told.old) hub.old hub.new }
{
    hub.take_in(polled, told)
}

/// A history that it is built anew from is a rebuild.
pub fn rebuild<N: LogFacts>(
    hub: &mut Hub<N>,
    history: History,
    told: &mut Pass<N>,
) -> Result<(), Memory>
    requires stands { StandsAt (λ log. StandsFor log hub.old) N.base told.old hub.old.cache.end }
    requires history { IsHistory (log_of N.base told.old) told.old.floor hub.old.cache.resource history }
    ensures { OnOk result (IsRebuild (log_of N.base told.old) history hub.old hub.new) }
{
    hub.build_anew(history, told)
}
