//! Objects in, texts out: the JSON of Kubernetes objects, lists, bookmarks and failures.
#![tactic(auto)]

mod laws;
mod members;
mod metadata;
mod object;
mod pieces;
mod plain;
mod quote;
mod refusals;
mod replies;
mod text;

pub use laws::{objects_are_one, objects_read_back, values_are_orderly};
pub use object::{obj_of, read_obj, read_value};
pub use pieces::{
    EventType, bookmark_pieces, expired_pieces, list_back_pieces, list_front_pieces,
    list_more_pieces, value_pieces,
};
pub use quote::quoted;
pub use refusals::ObjNo;
pub use replies::{More, Refusal, status};
