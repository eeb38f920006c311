//! Of which resource a request is, by its path.

ghost use Rattle.std.specs.Prelude.{◌≡◌};
ghost use Rattle.sess_serve.specs.Each as each;

use http_read::Req;
use kube_meta::{Resource, Text};

/// The resource of a request: that of its path, and pods where that has none.
pub fn resource_of(req: &Req) -> Resource
    ensures { result ≡ each.resource_of req.now }
{
    match resource_at(req.path.as_slice()) {
        Some(resource) => resource,
        None => Resource::Pods,
    }
}

fn resource_at(path: &[Text]) -> Option<Resource>
    ensures { result ≡ each.resource_at path.now }
{
    match path {
        [base, rest @ ..] => match base.as_str() {
            "api" => resource_in_core(rest),
            "apis" => resource_in_group(rest),
            _ => None,
        },
        [] => None,
    }
}

fn resource_in_core(path: &[Text]) -> Option<Resource>
    ensures { result ≡ each.resource_in_core path.now }
{
    match path {
        [version, rest @ ..] => resource_behind("", version.as_str(), rest),
        [] => None,
    }
}

fn resource_in_group(path: &[Text]) -> Option<Resource>
    ensures { result ≡ each.resource_in_group path.now }
{
    match path {
        [group, version, rest @ ..] => resource_behind(group.as_str(), version.as_str(), rest),
        _ => None,
    }
}

// The resource behind what the paths of a group's version begin with.
fn resource_behind(group: &str, version: &str, path: &[Text]) -> Option<Resource>
    ensures { result ≡ each.resource_behind group.now version.now path.now }
{
    match path {
        [plural] => Resource::of_group(group, version, plural.as_str()),
        [_, _, plural] => Resource::of_group(group, version, plural.as_str()),
        [_, _, plural, _] => Resource::of_group(group, version, plural.as_str()),
        _ => None,
    }
}
