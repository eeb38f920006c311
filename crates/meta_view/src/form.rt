//! The two forms in which objects are shown.

ghost use Rattle.std.specs.Prelude.{◌≡◌, true};
ghost use Rattle.std.specs.List.{list_all};
ghost use Rattle.json_obj.specs.Plain.{is_plain_byte};

use kube_meta::Resource;

const VERSION: &[u8] = b"meta.k8s.io/v1";

const KIND: &[u8] = b"PartialObjectMetadata";

const LIST_KIND: &[u8] = b"PartialObjectMetadataList";

/// How objects are shown.
#[derive(Clone, Copy, Debug, PartialEq, Eq)]
pub enum Form {
    /// With all their members.
    Whole,
    /// With their metadata alone, as `PartialObjectMetadata`.
    Metadata,
}

impl Form {
    ghost use Rattle.meta_view.specs.Lines.{version_in, kind_in, list_kind_in};

    // The member `apiVersion` of what is shown of the resource, which needs no escape.
    pub(crate) fn version<'a>(self, resource: Resource) -> &'a [u8]
        ensures text { result.now ≡ version_in self resource }
        ensures plain { list_all is_plain_byte result.now ≡ true }
    {
        match self {
            Form::Whole => resource.api_version().as_bytes(),
            Form::Metadata => VERSION,
        }
    }

    // The member `kind` of an object, which needs no escape.
    pub(crate) fn kind<'a>(self, resource: Resource) -> &'a [u8]
        ensures text { result.now ≡ kind_in self resource }
        ensures plain { list_all is_plain_byte result.now ≡ true }
    {
        match self {
            Form::Whole => resource.kind().as_bytes(),
            Form::Metadata => KIND,
        }
    }

    // The member `kind` of a list, which needs no escape.
    pub(crate) fn list_kind<'a>(self, resource: Resource) -> &'a [u8]
        ensures text { result.now ≡ list_kind_in self resource }
        ensures plain { list_all is_plain_byte result.now ≡ true }
    {
        match self {
            Form::Whole => resource.list_kind().as_bytes(),
            Form::Metadata => LIST_KIND,
        }
    }
}
