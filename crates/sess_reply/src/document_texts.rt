//! The texts that don't depend on what is asked, as Kubernetes writes them.

pub(crate) const VERSION: &[u8] =
    br#"{"major":"1","minor":"32","gitVersion":"v1.32.0+watchcache","gitCommit":"","gitTreeState":"","buildDate":"","goVersion":"","compiler":"","platform":""}"#;

pub(crate) const CORE_VERSIONS: &[u8] =
    br#"{"kind":"APIVersions","versions":["v1"],"serverAddressByClientCIDRs":[]}"#;

pub(crate) const GROUPS_FRONT: &[u8] = br#"{"kind":"APIGroupList","apiVersion":"v1","groups":["#;

pub(crate) const APPS_ITEM: &[u8] =
    br#"{"name":"apps","versions":[{"groupVersion":"apps/v1","version":"v1"}],"preferredVersion":{"groupVersion":"apps/v1","version":"v1"}}"#;

pub(crate) const GROUP_FRONT: &[u8] = br#"{"kind":"APIGroup","apiVersion":"v1","name":"apps","#;

pub(crate) const APPS_VERSIONS: &[u8] =
    br#""versions":[{"groupVersion":"apps/v1","version":"v1"}],"preferredVersion":{"groupVersion":"apps/v1","version":"v1"}"#;

pub(crate) const NO_VERSIONS: &[u8] = br#""versions":[]"#;

pub(crate) const GROUP_BACK: &[u8] = b"}";

// Up to the namespaces.
pub(crate) const CORE_FRONT: &[u8] =
    br#"{"kind":"APIResourceList","groupVersion":"v1","resources":[{"name":"namespaces","singularName":"namespace","namespaced":false,"kind":"Namespace","verbs":["get"],"shortNames":["ns"]}"#;

pub(crate) const APPS_FRONT: &[u8] =
    br#"{"kind":"APIResourceList","apiVersion":"v1","groupVersion":"apps/v1","resources":["#;

// Pods and config maps stand behind other resources.
pub(crate) const PODS: &[u8] =
    br#",{"name":"pods","singularName":"pod","namespaced":true,"kind":"Pod","verbs":["create","delete","get","list","update","watch"],"shortNames":["po"],"categories":["all"]}"#;

pub(crate) const CONFIG_MAPS: &[u8] =
    br#",{"name":"configmaps","singularName":"configmap","namespaced":true,"kind":"ConfigMap","verbs":["create","delete","get","list","update","watch"],"shortNames":["cm"]}"#;

pub(crate) const DEPLOYMENTS: &[u8] =
    br#"{"name":"deployments","singularName":"deployment","namespaced":true,"kind":"Deployment","verbs":["create","delete","get","list","update","watch"],"shortNames":["deploy"],"categories":["all"]}"#;

pub(crate) const LIST_BACK: &[u8] = b"]}";

pub(crate) const NAMESPACE_FRONT: &[u8] =
    br#"{"kind":"Namespace","apiVersion":"v1","metadata":{"name":""#;

pub(crate) const NAMESPACE_MIDDLE: &[u8] = br#"","labels":{"kubernetes.io/metadata.name":""#;

pub(crate) const NAMESPACE_BACK: &[u8] =
    br#""}},"spec":{"finalizers":["kubernetes"]},"status":{"phase":"Active"}}"#;

// The field 1 of a `Document` of OpenAPI, `swagger`, in protobuf: a text of 4 bytes, of which the line feed that ends
// each reply is the last.
pub(crate) const OPEN_API: &[u8] = b"\x0a\x042.0";

pub(crate) const PROBED: &[u8] = b"ok";
