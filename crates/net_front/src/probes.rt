//! What a server answers to those who ask how it is.

ghost use Rattle.std.specs.Prelude.{◌≡◌, true, None};
ghost use Rattle.net_front.specs.Probes as probes;

use client_api::Resources;

/// Whether a server is ready: a mirror, while it follows its peer, and any other, as its log is kept up to date.
pub fn is_ready(is_followed: Option<bool>, is_kept: bool) -> bool
    ensures is { result ≡ probes.is_ready is_followed is_kept }
    ensures alone { is_followed ≡ None → result ≡ is_kept }
{
    match is_followed {
        Some(is_followed) => is_followed,
        None => is_kept,
    }
}

/// Whether a server should run on: a mirror, unless it has ended following its peer for good, and any other always.
pub fn is_live(is_over: Option<bool>) -> bool
    ensures is { result ≡ probes.is_live is_over }
    ensures alone { is_over ≡ None → result ≡ true }
{
    match is_over {
        Some(is_over) => !is_over,
        None => true,
    }
}

/// Whether something holds of each of these resources, by what holds of pods, of config maps and of deployments.
pub fn of_all(these: Resources, pods: bool, config_maps: bool, deployments: bool) -> bool
    ensures { result ≡ probes.of_all these pods config_maps deployments }
{
    (!these.pods || pods)
        && (!these.config_maps || config_maps)
        && (!these.deployments || deployments)
}

/// How many seconds lie behind a time in milliseconds, where it is so late; none where it isn't later.
pub fn seconds_since(then_ms: u64, now_ms: u64) -> u64
    ensures { result ≡ probes.seconds_since then_ms now_ms }
{
    now_ms.saturating_sub(then_ms) / 1000
}
