//! Which losses a log bears out.

ghost use Rattle.std.specs.Prelude.{◌≡◌, ◌+◌, ◌-◌, ◌^◌, ◌≤◌, length, sum_by};
ghost use Rattle.rev_log.specs.Logs.{Log, end_of};
ghost use Rattle.select_all.specs.Floors.{changes_in, is_passed};
ghost use Rattle.body_check.specs.Losses.{log_from, is_lost};

use kube_meta::Resource;
use rev_log::Revision;

/// Whether a watch at a position may have lost the revision `floor`.
pub(crate) fn is_lost(
    log: &[Revision],
    first: u64,
    log_floor: u64,
    window: u64,
    resource: Resource,
    at: u64,
    floor: u64,
) -> bool
    requires { first + length log.now ≤ 2 ^ 62 }
    ensures { result ≡ is_lost (log_from first log.now) log_floor window resource at floor }
{
    at < floor && (floor <= log_floor || is_past(log, first, window, resource, floor))
}

// Whether a window of the whole log is past the revision.
fn is_past(log: &[Revision], first: u64, window: u64, resource: Resource, rev: u64) -> bool
    requires { first + length log.now ≤ 2 ^ 62 }
    ensures { result ≡ is_passed (log_from first log.now) resource window (first + length log.now) rev }
{
    if rev <= first || rev - first > log.len() as u64 {
        return false;
    }
    let place = (rev - first) as usize;
    lacking(&log[place - 1..place], resource, 1) == 0
        && lacking(&log[place..], resource, window) == 0
}

// How many changes of the resource the revisions have less than a number.
fn lacking(log: &[Revision], resource: Resource, number: u64) -> u64
    ensures { result ≡ number - sum_by (changes_in resource) log.now }
{
    let mut lacking = number;
    for revision in log {
        lacking = less(lacking, resource, revision);
        if lacking == 0 {
            return 0;
        }
    }
    lacking
}

// The number, less the revision's changes of the resource.
fn less(number: u64, resource: Resource, revision: &Revision) -> u64
    ensures { result ≡ number - changes_in resource revision.now }
{
    number.saturating_sub(
        revision
            .changes
            .iter()
            .filter(|change| change.is_of(resource))
            .count() as u64,
    )
}
