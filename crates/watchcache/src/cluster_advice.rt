//! What helps whoever mirrors a cluster, on standard error.

use cluster_link::{ClusterNo, Finding};
use kube_meta::{Resource, Text};
use net_front::{ClusterNews, ClusterWhy};
use std::io::Eprint;
use watch_lines::Trouble;

/// Says on standard error that nobody takes a connection at the port of a cluster's proxy. Here and below, a line that
/// can't be written is left out.
pub fn say_no_cluster<R: Eprint + Copy>(rt: R, port: u16) {
    let _ = eprintln!(rt;
        "watchcache: nobody takes a connection at 127.0.0.1:{port}; does `kubectl proxy --port {port}` run?"
    );
}

/// Says why a resource of a cluster has no list, or no mirror.
pub fn say_no_list<R: Eprint + Copy>(
    rt: R,
    resource: Resource,
    why: ClusterNo,
    finding: &Option<Finding>,
) {
    let resource = resource.plural();
    say_why(
        rt,
        resource,
        "cluster",
        ClusterWhy::No(why),
        finding.as_ref(),
    );
}

/// Says what becomes of following a resource of a cluster.
pub fn say_news<R: Eprint + Copy>(
    rt: R,
    resource: Resource,
    news: ClusterNews,
    finding: Option<&Finding>,
) {
    let of = resource.plural();
    match news {
        ClusterNews::Follows { port, from } => say_beginning(rt, of, port, from),
        ClusterNews::FollowsAgain { from } => say_return(rt, of, from),
        ClusterNews::IsAway { why } => say_why(
            rt,
            of,
            "the cluster isn't heard, trying again",
            why,
            finding,
        ),
        ClusterNews::BeginsAnew { why } => say_why(
            rt,
            of,
            "the cluster can't tell what comes next, listing them anew",
            why,
            finding,
        ),
        ClusterNews::Ends { why } => say_why(rt, of, "no longer following", why, finding),
    }
}

fn say_beginning<R: Eprint + Copy>(rt: R, of: &str, port: u16, from: u64) {
    let _ = eprintln!(rt;
        "watchcache: {of}: following the cluster at http://127.0.0.1:{port} from revision {from}"
    );
}

fn say_return<R: Eprint + Copy>(rt: R, of: &str, from: u64) {
    let _ = eprintln!(rt; "watchcache: {of}: following again from revision {from}");
}

// Says why a cluster isn't heard: the cause's name, with its code or the object that it is about, and what to do.
fn say_why<R: Eprint + Copy>(
    rt: R,
    of: &str,
    what: &str,
    why: ClusterWhy,
    finding: Option<&Finding>,
) {
    let (name, words) = (why.name(), of_cluster(why));
    match finding {
        Some(finding) if is_of_object(why) => say_object(rt, of, what, name, words, finding),
        _ => say_cause(rt, of, what, name, words, code_of_cluster(why)),
    }
}

fn say_cause<R: Eprint + Copy>(
    rt: R,
    of: &str,
    what: &str,
    name: &str,
    words: &str,
    code: Option<u16>,
) {
    let _ = match code {
        Some(code) => eprintln!(rt; "watchcache: {of}: {what}: {name} {code}: {words}"),
        None => eprintln!(rt; "watchcache: {of}: {what}: {name}: {words}"),
    };
}

// The same of a text that was refused, or of an object that isn't the one that stands.
fn say_object<R: Eprint + Copy>(
    rt: R,
    of: &str,
    what: &str,
    name: &str,
    words: &str,
    finding: &Finding,
) {
    let _ = match finding {
        Finding::Row(key) => {
            let key = key.as_str();
            eprintln!(rt; "watchcache: {of}: {what}: {name} {key}: {words}")
        }
        Finding::Text(bad) => {
            let trouble = of_trouble(bad.trouble);
            let (ns, object) = (text_of(&bad.ns), text_of(&bad.name));
            eprintln!(rt; "watchcache: {of}: {what}: {name} {ns}/{object}: {trouble}; {words}")
        }
    };
}

// Whether an object may be told of a cause.
fn is_of_object(why: ClusterWhy) -> bool {
    match why {
        ClusterWhy::No(ClusterNo::BadLine) | ClusterWhy::No(ClusterNo::OtherValue) => true,
        _ => false,
    }
}

/// A text that was read, or a mark where there is none.
pub fn text_of(text: &Option<Text>) -> &str {
    match text {
        Some(text) => text.as_str(),
        None => "?",
    }
}

// The code of a cluster's refusal, where it is one.
fn code_of_cluster(why: ClusterWhy) -> Option<u16> {
    match why {
        ClusterWhy::No(ClusterNo::Refused { code }) => Some(code),
        ClusterWhy::No(ClusterNo::Told { code }) => Some(code),
        _ => None,
    }
}

// What an operator may do about it.
fn of_cluster(why: ClusterWhy) -> &'static str {
    match why {
        ClusterWhy::NoConnection =>
            "nobody takes a connection at its port; does `kubectl proxy` run?",
        ClusterWhy::OtherCluster => {
            "another cluster answers than the one that was there at the start; start this server anew for it"
        }
        ClusterWhy::No(no) => of_refusal(no),
    }
}

// What the bytes of a cluster, or the lack of them, tell.
fn of_refusal(why: ClusterNo) -> &'static str {
    match why {
        ClusterNo::Refused { code: 401 | 403 } => {
            "the proxy's user may not do this; let it get, list and watch them, and get namespace kube-system"
        }
        ClusterNo::Refused { code: 404 } =>
            "it has none at this path; is it a Kubernetes API server?",
        ClusterNo::Refused { code: 429 } => "it has too much to do",
        ClusterNo::Refused { .. } =>
            "the API server behind the proxy is away, or refuses lists or watches",
        ClusterNo::Told { .. } =>
            "it ended its stream with an error, mostly since it no longer keeps what comes next",
        ClusterNo::MixedPages => "the pages of its list aren't of one revision",
        ClusterNo::CutShort => "it closed the connection before its reply had ended",
        ClusterNo::ReadFault =>
            "the connection failed as it was read, or was silent for two minutes",
        ClusterNo::WriteFault => "the connection failed as it was asked",
        ClusterNo::Memory => "there is no memory for what it sends",
        ClusterNo::BadReply => "it sent no HTTP reply; is it `kubectl proxy`?",
        ClusterNo::BadLine => {
            "it sent what is no object that can be mirrored; this server can't be started anew before that object is gone"
        }
        ClusterNo::TooLong =>
            "a line has more than 16 MiB, a page more than 256 MiB, or the list too many objects",
        ClusterNo::Order { .. } =>
            "its lines aren't in the order of their revisions; start this server anew",
        ClusterNo::Behind { .. } => {
            "its list is older than what was told: another or a restored cluster; start this server anew"
        }
        ClusterNo::OtherValue => {
            "an old object has another value than it had: another cluster, or one of another version; start this server anew"
        }
        ClusterNo::OtherLog =>
            "its list doesn't fit what was told: another or a restored cluster; start this server anew",
        ClusterNo::Passed { .. } =>
            "the log was written past the mirror, which is a fault of this program",
    }
}

/// What is wrong with a text.
pub fn of_trouble(trouble: Trouble) -> &'static str {
    match trouble {
        Trouble::NotJson => "it isn't JSON",
        Trouble::TooDeep => "it nests more than 64 deep",
        Trouble::Float => "it has a number that is no whole one",
        Trouble::NoPlace => "it has no namespace or no name",
        Trouble::Kind => "it is of another kind",
        Trouble::Revision => "it has no revision",
        Trouble::Other => "it isn't of the form that lists and watches have",
    }
}
