//! Which paths name what describes the server.

ghost use Rattle.std.specs.Prelude.{◌≡◌, true, Some, IfOk, OnErr, option_map};
ghost use Rattle.route_req.specs.Lookup as lookup;
ghost use Rattle.route_req.specs.Places.{keeps_name};

use crate::documents::{Document, Probe};
use kube_meta::{Memory, Text, is_namespace};

/// The path without the slash behind it, if it has one.
pub(crate) fn before_slash(path: &[Text]) -> &[Text]
    ensures { result.now ≡ lookup.before_slash path.now }
{
    match path.split_last() {
        Some((last, rest)) => { if last.as_str().is_empty() { rest } else { path } }
        None => path,
    }
}

/// The text of a path that has no slash behind it, if the path names one.
pub(crate) fn document_at(path: &[Text]) -> Result<Option<Document>, Memory>
    ensures found { IfOk result (λ document. document ≡ lookup.document_at path.now) }
    ensures memory { OnErr result (option_map keeps_name (lookup.document_at path.now) ≡ Some true) }
{
    match path {
        [word] => Ok(of_word(word.as_str())),
        [base, word] => Ok(of_pair(base.as_str(), word.as_str())),
        [base, group, version] => Ok(of_apps(base.as_str(), group.as_str(), version.as_str())),
        [base, version, word, ns] => {
            of_namespace(base.as_str(), version.as_str(), word.as_str(), ns)
        }
        _ => Ok(None),
    }
}

fn of_word(word: &str) -> Option<Document>
    ensures { result ≡ lookup.document_word word.now }
{
    match word {
        "version" => Some(Document::Version),
        "api" => Some(Document::CoreVersions),
        "apis" => Some(Document::Groups),
        "livez" => Some(Document::Probe(Probe::Livez)),
        "readyz" => Some(Document::Probe(Probe::Readyz)),
        "healthz" => Some(Document::Probe(Probe::Healthz)),
        _ => None,
    }
}

fn of_pair(base: &str, word: &str) -> Option<Document>
    ensures { result ≡ lookup.document_pair base.now word.now }
{
    match (base, word) {
        ("api", "v1") => Some(Document::CoreResources),
        ("apis", "apps") => Some(Document::AppsGroup),
        ("openapi", "v2") => Some(Document::OpenApi),
        _ => None,
    }
}

fn of_apps(base: &str, group: &str, version: &str) -> Option<Document>
    ensures { result ≡ lookup.apps_document base.now group.now version.now }
{
    if base == "apis" && group == "apps" && version == "v1" {
        Some(Document::AppsResources)
    } else {
        None
    }
}

fn of_namespace(
    base: &str,
    version: &str,
    word: &str,
    ns: &Text,
) -> Result<Option<Document>, Memory>
    ensures found { IfOk result (λ document. document ≡ lookup.namespace_document base.now version.now word.now ns.now) }
    ensures memory { OnErr result (option_map keeps_name (lookup.namespace_document base.now version.now word.now ns.now) ≡ Some true) }
{
    if base == "api" && version == "v1" && word == "namespaces" && is_namespace(ns.as_str()) {
        Ok(Some(Document::Namespace(ns.clone()?)))
    } else {
        Ok(None)
    }
}
