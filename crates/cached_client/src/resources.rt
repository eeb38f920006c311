//! Types that tell of which resource a cache is.

ghost use Rattle.std.specs.Prelude.{◌≡◌};

use kube_meta::Resource;

/// A type that stands for one resource, so that a cache's own type tells of which resource it is.
pub trait OfResource {
    ghost use Rattle.kube_meta.specs.declared.resources.Resource.{Resource as ResourceData};

    // the resource
    ghost resource: { ResourceData };

    /// The resource.
    fn resource() -> Resource
        ensures { result ≡ resource };
}

/// Tells that a cache is of pods.
pub struct OfPods;

/// Tells that a cache is of config maps.
pub struct OfConfigMaps;

/// Tells that a cache is of deployments.
pub struct OfDeployments;

impl OfResource for OfPods {
    ghost use Rattle.kube_meta.specs.declared.resources.Resource.TheVariants.{Pods};

    ghost resource = { Pods };

    fn resource() -> Resource {
        Resource::Pods
    }
}

impl OfResource for OfConfigMaps {
    ghost use Rattle.kube_meta.specs.declared.resources.Resource.TheVariants.{ConfigMaps};

    ghost resource = { ConfigMaps };

    fn resource() -> Resource {
        Resource::ConfigMaps
    }
}

impl OfResource for OfDeployments {
    ghost use Rattle.kube_meta.specs.declared.resources.Resource.TheVariants.{Deployments};

    ghost resource = { Deployments };

    fn resource() -> Resource {
        Resource::Deployments
    }
}
