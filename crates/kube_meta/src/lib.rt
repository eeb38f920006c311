//! The objects of a Kubernetes API server as data: names and their grammars, keys, labels, listed
//! fields, resources, objects with their JSON text, rows, and the text of a resource version.
#![tactic(auto)]

mod field_values;
mod hashes;
mod keys;
mod label_pairs;
mod names;
mod objects;
mod resources;
mod revisions;
mod texts;
mod words;

pub use field_values::Fields;
pub use keys::{
    Key, KeyNo, joined_texts_tell_keys_apart, keys_are_in_their_namespace, keys_are_tested,
};
pub use label_pairs::Labels;
pub use names::{is_label_key, is_label_value, is_namespace, is_object_name};
pub use objects::{Obj, Row};
pub use resources::{
    Resource, each_is_listed, groups_are_read_back, names_agree, plurals_are_read_back,
};
pub use revisions::{MAX_REVISION, Rev, RevNo, revisions_are_read_back};
pub use std::alloc::AllocError as Memory;
pub use texts::Text;
pub use words::{Mask, field_bits, fields_word, has_bits, label_bits, labels_word};
