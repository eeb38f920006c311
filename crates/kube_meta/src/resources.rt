//! The kinds of object that are served, with their names.

ghost use Rattle.std.specs.Prelude.{◌≡◌, map};
ghost use Rattle.kube_meta.specs.Resources.{EachIsListed, PluralsAreReadBack, GroupsAreReadBack, NamesAgree};
ghost use Rattle.kube_meta.specs.Resources as names;

/// A kind of object that is served, with the names that the Kubernetes API gives it. Ordered as the
/// variants stand.
#[derive(Clone, Copy, Debug, PartialEq, Eq, PartialOrd, Ord)]
pub enum Resource {
    Pods,
    ConfigMaps,
    Deployments,
}

impl Resource {
    ghost use Rattle.kube_meta.specs.Resources.{plural_of, group_of, version_of, api_version_of, kind_of, list_kind_of, message_name_of, base_path_of, listed_fields_of};

    /// All of them, in their order.
    pub const ALL: [Resource; 3] = [Resource::Pods, Resource::ConfigMaps, Resource::Deployments];

    /// The resource with this name in paths, as `pods`.
    pub fn of_plural(plural: &[u8]) -> Option<Resource>
        ensures { result ≡ names.of_plural plural.now }
    {
        Self::ALL
            .into_iter()
            .find(|resource| plural == resource.plural().as_bytes())
    }

    /// The resource of an API group and version with this name in paths; the core group is the empty text.
    pub fn of_group(group: &str, version: &str, plural: &str) -> Option<Resource>
        ensures { result ≡ names.of_group group.now version.now plural.now }
    {
        Self::ALL
            .into_iter()
            .find(|resource| resource.is_named(group, version, plural))
    }

    // Whether these are its group, its version and its name in paths.
    fn is_named(self, group: &str, version: &str, plural: &str) -> bool
        ensures { result ≡ names.is_named self group.now version.now plural.now }
    {
        group == self.group() && version == self.version() && plural == self.plural()
    }

    /// The name in paths, as `pods`.
    pub fn plural(self) -> &'static str
        ensures { result.now ≡ plural_of self }
    {
        match self {
            Resource::Pods => "pods",
            Resource::ConfigMaps => "configmaps",
            Resource::Deployments => "deployments",
        }
    }

    /// The name of its API group, empty for the core group.
    pub fn group(self) -> &'static str
        ensures { result.now ≡ group_of self }
    {
        match self {
            Resource::Pods | Resource::ConfigMaps => "",
            Resource::Deployments => "apps",
        }
    }

    /// The version of its group that is served.
    pub fn version(self) -> &'static str
        ensures { result.now ≡ version_of self }
    {
        match self {
            Resource::Pods | Resource::ConfigMaps | Resource::Deployments => "v1",
        }
    }

    /// The member `apiVersion` of an object and of a list, as `apps/v1`.
    pub fn api_version(self) -> &'static str
        ensures { result.now ≡ api_version_of self }
    {
        match self {
            Resource::Pods | Resource::ConfigMaps => "v1",
            Resource::Deployments => "apps/v1",
        }
    }

    /// The member `kind` of an object, as `Pod`.
    pub fn kind(self) -> &'static str
        ensures { result.now ≡ kind_of self }
    {
        match self {
            Resource::Pods => "Pod",
            Resource::ConfigMaps => "ConfigMap",
            Resource::Deployments => "Deployment",
        }
    }

    /// The member `kind` of a list, as `PodList`.
    pub fn list_kind(self) -> &'static str
        ensures { result.now ≡ list_kind_of self }
    {
        match self {
            Resource::Pods => "PodList",
            Resource::ConfigMaps => "ConfigMapList",
            Resource::Deployments => "DeploymentList",
        }
    }

    /// The name in messages, as `deployments.apps`.
    pub fn message_name(self) -> &'static str
        ensures { result.now ≡ message_name_of self }
    {
        match self {
            Resource::Pods => "pods",
            Resource::ConfigMaps => "configmaps",
            Resource::Deployments => "deployments.apps",
        }
    }

    /// What the resource's paths begin with, as `/api/v1`.
    pub fn base_path(self) -> &'static str
        ensures { result.now ≡ base_path_of self }
    {
        match self {
            Resource::Pods | Resource::ConfigMaps => "/api/v1",
            Resource::Deployments => "/apis/apps/v1",
        }
    }

    /// The fields that a field selector may name, beside `metadata.name` and `metadata.namespace`.
    pub fn listed_fields(self) -> &'static [&'static str]
        ensures { map (λ field. field.now) result.now ≡ listed_fields_of self }
    {
        match self {
            Resource::Pods => &["spec.nodeName", "status.phase"],
            Resource::ConfigMaps | Resource::Deployments => &[],
        }
    }
}

/// Each resource is found at its place among all of them.
pub fn each_is_listed()
    ensures { EachIsListed }
{}

/// A name in paths is that of the resource that is found by it, and of no other.
pub fn plurals_are_read_back()
    ensures { PluralsAreReadBack }
{}

/// A group, a version and a name in paths are those of the resource that is found by them, and of no other.
pub fn groups_are_read_back()
    ensures { GroupsAreReadBack }
{}

/// The names with a group or a version in them are made of these.
pub fn names_agree()
    ensures { NamesAgree }
{}
