//! What a client sees that asked for metadata alone: objects, lists and bookmarks as
//! `PartialObjectMetadata` of `meta.k8s.io/v1` (Kubernetes API concepts, "Metadata-only fetches").
#![tactic(auto)]

ghost use Rattle.meta_view.specs.Partial.{ShowsMetadataAlone};

mod accept;
mod form;
mod lines;

pub use accept::wants_metadata;
pub use form::Form;
pub use lines::{shown_bookmark, shown_list_back, shown_list_front, shown_list_more, shown_pieces};

/// What is shown with metadata alone of an object that was read from JSON is the compact JSON of a
/// `PartialObjectMetadata` with the metadata that the whole object has at the same revision.
pub fn metadata_is_that_of_the_object()
    ensures { ShowsMetadataAlone }
{}
