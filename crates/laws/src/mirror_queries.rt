//! The laws.

ghost use Rattle.laws.specs.MirrorQueries.{MirrorQueriesAskWatches, MirrorRequestsAreRead, MirrorRequestsAreRouted, MirrorWatchesAreTaken, MirrorsGetTheirWatches};

use http_read::requests_are_read_in_one_way;
use kube_meta::revisions_are_read_back;
use route_req::{answers_agree, selections_agree};

/// The query that a mirror writes asks, as one of pods, for a watch of the mirror's selection, with bookmarks, from
/// where the mirror means to begin, and for nothing else; of such a watch a mirror takes the lines.
pub fn mirror_queries_ask_watches()
    ensures ask { MirrorQueriesAskWatches }
    ensures taken { MirrorWatchesAreTaken }
{
    revisions_are_read_back();
    selections_agree();
}

/// The bytes that a mirror writes are read as a GET of the pods that it follows, with its query.
pub fn mirror_requests_are_read()
    ensures { MirrorRequestsAreRead }
{}

/// A GET of the pods that a mirror follows, with its query, has the route of that watch, and no other.
pub fn mirror_requests_are_routed()
    ensures { MirrorRequestsAreRouted }
{
    mirror_queries_ask_watches();
    answers_agree();
}

/// A session that answers a mirror's bytes by a stream answers by that of the mirror's watch.
pub fn mirrors_get_their_watches()
    ensures { MirrorsGetTheirWatches }
{
    requests_are_read_in_one_way();
    mirror_requests_are_read();
    mirror_requests_are_routed();
}
