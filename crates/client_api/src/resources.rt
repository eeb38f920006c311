//! Which resources a server has.

ghost use Rattle.std.specs.Prelude.{◌≡◌};
ghost use Rattle.client_api.specs.Facts.{is_among};

use kube_meta::Resource;

/// Which resources a server has, and describes as those that it serves.
#[derive(Clone, Copy, Debug, PartialEq, Eq)]
pub struct Resources {
    pub pods: bool,
    pub config_maps: bool,
    pub deployments: bool,
}

impl Resources {
    /// All of them.
    pub const ALL: Resources = Resources {
        pods: true,
        config_maps: true,
        deployments: true,
    };

    /// Pods alone.
    pub const PODS: Resources = Resources {
        pods: true,
        config_maps: false,
        deployments: false,
    };

    /// Whether this one is among them.
    pub fn has(self, resource: Resource) -> bool
        ensures { result ≡ is_among self resource }
    {
        match resource {
            Resource::Pods => self.pods,
            Resource::ConfigMaps => self.config_maps,
            Resource::Deployments => self.deployments,
        }
    }
}
