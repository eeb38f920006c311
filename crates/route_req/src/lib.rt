//! What a request asks for: a route by its path, its method, its parameters and its body, or the
//! first reason why it has none; and the documents by which the server tells of itself, which some paths name.
#![tactic(auto)]

mod document_paths;
mod documents;
mod laws;
mod places;
mod routing;
mod transactions;
mod unserved;

pub use documents::{Document, Probe};
pub use laws::{
    answers_agree, item_objects_are_plain, paths_name_one_place, refusals_agree,
    routes_are_not_refused, selections_agree,
};
pub use places::{Action, Place};
pub use routing::{RouteNo, Routed, route};
pub use transactions::TxTextNo;
pub use unserved::Unserved;
