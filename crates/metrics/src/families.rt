//! The families of samples that a monitor is told: the name, the meaning and the type of each.

ghost use Rattle.std.specs.Prelude.{◌≡◌};
ghost use Rattle.metrics.specs.Families as families;

use crate::caches::CacheMetrics;
use crate::served::{Mirrored, Verb};

/// What the samples of a family tell.
#[derive(Clone, Copy, Debug, PartialEq, Eq)]
pub(crate) enum Family {
    Revision,
    Floor,
    Generation,
    /// A figure of each cache.
    OfCaches(Figure),
    Connections,
    Events,
    Requests,
    /// A figure of each mirror.
    OfMirrors(MirrorFigure),
}

/// A figure of a cache.
#[derive(Clone, Copy, Debug, PartialEq, Eq)]
pub(crate) enum Figure {
    End,
    Objects,
    Window,
    Floor,
    Received,
    Watchers,
    Behind,
    Rebuilds,
    Cuts,
}

/// All figures of a cache, in the order in which they are told.
pub(crate) const FIGURES: [Figure; 9] = [
    Figure::End,
    Figure::Objects,
    Figure::Window,
    Figure::Floor,
    Figure::Received,
    Figure::Watchers,
    Figure::Behind,
    Figure::Rebuilds,
    Figure::Cuts,
];

/// A figure of a mirror.
#[derive(Clone, Copy, Debug, PartialEq, Eq)]
pub(crate) enum MirrorFigure {
    Following,
    Revision,
    HeardSeconds,
    BeganAnew,
    Lines,
}

/// All figures of a mirror, in the order in which they are told.
pub(crate) const MIRROR_FIGURES: [MirrorFigure; 5] = [
    MirrorFigure::Following,
    MirrorFigure::Revision,
    MirrorFigure::HeardSeconds,
    MirrorFigure::BeganAnew,
    MirrorFigure::Lines,
];

impl Family {
    /// Its name.
    pub(crate) fn name(self) -> &'static str
        ensures { result.now ≡ families.family_name self }
    {
        match self {
            Family::Revision => "watchcache_log_revision",
            Family::Floor => "watchcache_log_floor",
            Family::Generation => "watchcache_log_generation",
            Family::OfCaches(figure) => figure.name(),
            Family::Connections => "watchcache_connections",
            Family::Events => "watchcache_events_sent_total",
            Family::Requests => "apiserver_request_total",
            Family::OfMirrors(figure) => figure.name(),
        }
    }

    /// What its samples mean.
    pub(crate) fn help(self) -> &'static str
        ensures { result.now ≡ families.help_of self }
    {
        match self {
            Family::Revision => "Revision that the log has reached.",
            Family::Floor => "Revision from which on the log is kept.",
            Family::Generation => "Generation of the log: how often its feeds were cut.",
            Family::OfCaches(figure) => figure.help(),
            Family::Connections => "Number of open connections.",
            Family::Events => "Counter of events told to watches.",
            Family::Requests => { "Counter of requests, by verb, resource and status code." }
            Family::OfMirrors(figure) => figure.help(),
        }
    }

    /// The type of its samples.
    pub(crate) fn kind(self) -> &'static str
        ensures { result.now ≡ families.family_kind self }
    {
        match self {
            Family::OfCaches(figure) => figure.kind(),
            Family::OfMirrors(figure) => figure.kind(),
            Family::Events | Family::Requests => "counter",
            _ => "gauge",
        }
    }
}

impl Figure {
    // The name of its family.
    fn name(self) -> &'static str
        ensures { result.now ≡ families.figure_name self }
    {
        match self {
            Figure::End => "apiserver_watch_cache_resource_version",
            Figure::Objects => "apiserver_resource_objects",
            Figure::Window => "watch_cache_capacity",
            Figure::Floor => "watchcache_cache_floor",
            Figure::Received => "apiserver_watch_cache_events_received_total",
            Figure::Watchers => "watchcache_watchers",
            Figure::Behind => "watchcache_watchers_behind",
            Figure::Rebuilds => "watchcache_cache_rebuilds_total",
            Figure::Cuts => "watchcache_cache_cuts_total",
        }
    }

    // What the samples of its family mean.
    fn help(self) -> &'static str
        ensures { result.now ≡ families.figure_help self }
    {
        match self {
            Figure::End => "Revision up to which the watch cache stands for the log, by resource.",
            Figure::Objects => "Number of objects in the watch cache, by resource.",
            Figure::Window => "Number of events that the watch cache keeps at most, by resource.",
            Figure::Floor => {
                "Revision above which the watch cache keeps all events, by resource."
            }
            Figure::Received => { "Counter of events taken into the watch cache, by resource." }
            Figure::Watchers => "Number of open watches, by resource.",
            Figure::Behind => {
                "Number of open watches that catch up from kept events, by resource."
            }
            Figure::Rebuilds => { "Counter of times the watch cache was built anew, by resource." }
            Figure::Cuts => { "Counter of times the watch cache found its feed cut, by resource." }
        }
    }

    // The type of the samples of its family.
    fn kind(self) -> &'static str
        ensures { result.now ≡ families.figure_kind self }
    {
        match self {
            Figure::Received | Figure::Rebuilds | Figure::Cuts => "counter",
            _ => "gauge",
        }
    }

    /// Its value.
    pub(crate) fn value(self, told: &CacheMetrics) -> u64
        ensures { result ≡ families.figure_of self told.now }
    {
        match self {
            Figure::End => told.end,
            Figure::Objects => told.objects,
            Figure::Window => told.window,
            Figure::Floor => told.floor,
            Figure::Received => told.received,
            Figure::Watchers => told.watchers,
            Figure::Behind => told.behind,
            Figure::Rebuilds => told.rebuilds,
            Figure::Cuts => told.cuts,
        }
    }
}

impl MirrorFigure {
    // The name of its family.
    fn name(self) -> &'static str
        ensures { result.now ≡ families.mirror_name self }
    {
        match self {
            MirrorFigure::Following => "watchcache_mirror_following",
            MirrorFigure::Revision => "watchcache_mirror_revision",
            MirrorFigure::HeardSeconds => "watchcache_mirror_heard_seconds",
            MirrorFigure::BeganAnew => "watchcache_mirror_began_anew_total",
            MirrorFigure::Lines => "watchcache_mirror_lines_total",
        }
    }

    // What the samples of its family mean.
    fn help(self) -> &'static str
        ensures { result.now ≡ families.mirror_help self }
    {
        match self {
            MirrorFigure::Following => "Whether the mirror follows its peer, by resource.",
            MirrorFigure::Revision => {
                "Revision up to which the mirror has heard its peer, by resource."
            }
            MirrorFigure::HeardSeconds => {
                "Seconds since the mirror last heard a line or a whole reply of its peer, by resource."
            }
            MirrorFigure::BeganAnew => {
                "Counter of times the mirror began anew from all that its peer had, by resource."
            }
            MirrorFigure::Lines => {
                "Counter of lines of its peer that the mirror has heard, by resource."
            }
        }
    }

    // The type of the samples of its family.
    fn kind(self) -> &'static str
        ensures { result.now ≡ families.mirror_kind self }
    {
        match self {
            MirrorFigure::BeganAnew | MirrorFigure::Lines => "counter",
            _ => "gauge",
        }
    }

    /// Its value: 1 where the mirror follows its peer, and 0 where it doesn't.
    pub(crate) fn value(self, told: &Mirrored) -> u64
        ensures { result ≡ families.mirror_figure_of self told.now }
    {
        match self {
            MirrorFigure::Following => { if told.following { 1 } else { 0 } }
            MirrorFigure::Revision => told.revision,
            MirrorFigure::HeardSeconds => told.heard_seconds,
            MirrorFigure::BeganAnew => told.began_anew,
            MirrorFigure::Lines => told.lines,
        }
    }
}

/// How a label names what a request asks for.
pub(crate) fn verb_name(verb: Verb) -> &'static str
    ensures { result.now ≡ families.verb_name verb }
{
    match verb {
        Verb::Get => "GET",
        Verb::List => "LIST",
        Verb::Watch => "WATCH",
        Verb::Create => "POST",
        Verb::Replace => "PUT",
        Verb::Remove => "DELETE",
        Verb::Transact => "TRANSACT",
        Verb::Operate => "OPERATE",
    }
}
