//! What the words of a command line ask for.

ghost use Rattle.std.specs.Prelude.{◌≡◌};
ghost use Rattle.watchcache.specs.Options as spec;

use client_api::Resources;
use kube_meta::{Memory, Text};
use up_api::Settings;

/// What the words of a command line ask for.
#[derive(Debug, Drop)]
pub enum Asked {
    /// The text that says how the program is used.
    Help,
    /// The program's version.
    Version,
    /// One session, set so.
    Session(Settings),
    /// A server of many connections.
    Serve(ServeAsk),
    /// A load on a client of its own.
    Load(LoadOptions),
    /// The judgement of a recorded watch body.
    Check,
}

/// What a server is asked for.
#[derive(Debug, Drop)]
pub struct ServeAsk {
    /// How it is set.
    pub options: ServeOptions,
    /// The one namespace that it mirrors of a cluster; all, where none is given.
    pub namespace: Option<Text>,
}

/// How a server is set.
#[derive(Clone, Copy, Debug, PartialEq, Eq)]
pub struct ServeOptions {
    /// The port of the loopback address; at 0 the system chooses one.
    pub port: u16,
    /// Threads that accept connections and serve them from the start to the end: 1 to 64.
    pub workers: usize,
    /// Connections that are served at once, by further threads that come on demand: 1 to 65,536. As many as there are
    /// workers are in any case.
    pub open: u64,
    /// Connections that are accepted before the server ends: 0 to 2^62, and 0 stands for 2^62.
    pub connections: u64,
    /// The port of the server whose pods it mirrors, if it does: 1 to 65,535.
    pub peer: Option<u16>,
    /// The port of the proxy to the cluster that it mirrors, if it does: 1 to 65,535. It has no peer then.
    pub cluster: Option<u16>,
    /// What it mirrors of a cluster; all, where it has none.
    pub resources: Resources,
    /// The revision of its log while that is empty: 1 to 2^62. A mirror's log begins where the list that it was given
    /// stands, and this is 1 then.
    pub first: u64,
    /// MiB of text in the changes of its log that are kept: 1 to 1,048,576.
    pub history_mib: u64,
    /// How each session is set.
    pub settings: Settings,
}

/// The requests of a load.
#[derive(Clone, Copy, Debug, PartialEq, Eq)]
pub struct LoadOptions {
    /// What the requests are drawn from: 0 to 2^62.
    pub from: u64,
    /// How many there are: 0 to 100,000.
    pub requests: u64,
}

/// The options, each of which takes a value.
#[derive(Clone, Copy, Debug, PartialEq, Eq)]
pub enum OptionName {
    /// `--window`
    Window,
    /// `--window-max`
    WindowMax,
    /// `--fresh-ms`
    FreshMs,
    /// `--lane`
    Lane,
    /// `--batch`
    Batch,
    /// `--history`
    History,
    /// `--bookmark-ms`
    BookmarkMs,
    /// `--timeout-s`
    TimeoutS,
    /// `--port`
    Port,
    /// `--workers`
    Workers,
    /// `--open`
    Open,
    /// `--connections`
    Connections,
    /// `--peer`
    Peer,
    /// `--cluster`
    Cluster,
    /// `--resources`
    Resources,
    /// `--namespace`
    Namespace,
    /// `--first-revision`
    FirstRevision,
    /// `--history-mib`
    HistoryMib,
    /// `--from`
    From,
    /// `--requests`
    Requests,
}

impl OptionName {
    /// The name, as it is written behind `--`.
    pub fn text(self) -> &'static str
        ensures { result.now ≡ spec.option_text self }
    {
        match self {
            OptionName::Window => "window",
            OptionName::WindowMax => "window-max",
            OptionName::FreshMs => "fresh-ms",
            OptionName::Lane => "lane",
            OptionName::Batch => "batch",
            OptionName::History => "history",
            OptionName::BookmarkMs => "bookmark-ms",
            OptionName::TimeoutS => "timeout-s",
            OptionName::Port => "port",
            OptionName::Workers => "workers",
            OptionName::Open => "open",
            OptionName::Connections => "connections",
            OptionName::Peer => "peer",
            OptionName::Cluster => "cluster",
            OptionName::Resources => "resources",
            OptionName::Namespace => "namespace",
            OptionName::FirstRevision => "first-revision",
            OptionName::HistoryMib => "history-mib",
            OptionName::From => "from",
            OptionName::Requests => "requests",
        }
    }
}

/// What is wrong with a command line.
#[derive(Clone, Copy, Debug, PartialEq, Eq)]
pub enum Fault {
    /// The first word, if there is one, names no command.
    NoCommand,
    /// The words behind the command aren't its options, each at most once and with a value.
    Misused,
    /// What is given for this option is no number from `low` to `high`.
    OutOfRange {
        name: OptionName,
        low: u64,
        high: u64,
    },
    /// A first revision is given beside a peer or a cluster, whose list says where a mirror's log begins.
    FirstWithPeer,
    /// A peer and a cluster are given: a mirror follows one of them.
    ClusterWithPeer,
    /// This option says what is mirrored of a cluster, and none is given.
    WantsCluster {
        name: OptionName,
    },
    /// What is given for resources isn't a list of their names.
    OtherResources,
    /// What is given for a namespace can't be the name of one.
    BadNamespace,
}

/// Why the words of a command line ask for nothing.
#[derive(Clone, Copy, Debug, PartialEq, Eq)]
pub enum WordsNo {
    /// They are a bad command line.
    Bad(Fault),
    /// There was no memory to read them.
    Memory,
}

impl From<Memory> for WordsNo {
    ghost use Rattle.std.specs.Prelude.{◌≡◌};
    ghost use Rattle.watchcache.specs.declared.asked.WordsNo.TheVariants as refusals;

    ghost from_gives = { λ _ refusal. refusal ≡ refusals.Memory };

    fn from(_: Memory) -> WordsNo {
        WordsNo::Memory
    }
}
