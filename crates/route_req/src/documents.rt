//! The documents by which the server tells of itself.

use kube_meta::Text;

/// A text by which the server describes itself.
#[derive(Debug, Drop)]
pub enum Document {
    /// The version of the API that is served, and of the server.
    Version,
    /// The versions of the core group.
    CoreVersions,
    /// The other groups.
    Groups,
    /// The group `apps`.
    AppsGroup,
    /// The resources of the core group's version.
    CoreResources,
    /// The resources of the version of the group `apps`.
    AppsResources,
    /// The OpenAPI document, which describes no resource. Clients ask for it before they send an object, to test that
    /// object by it.
    OpenApi,
    /// The namespace of this name. Each is there.
    Namespace(Text),
    /// That the server is up.
    Probe(Probe),
}

/// What a probe asks. One answer serves all three, since a server that answers is alive and healthy, and ready too
/// unless it is a mirror that has lost its peer.
#[derive(Clone, Copy, Debug, PartialEq, Eq)]
pub enum Probe {
    Livez,
    Readyz,
    Healthz,
}
