//! What a refusal is told: the reason, with its HTTP status, and the message of each refusal of a
//! request, as the Kubernetes API words its failures.
#![tactic(auto)]

mod codes;
mod failures;
mod options;
mod reasons;
mod requests;
mod routes;
mod selectors;
mod writes;

pub use codes::{request_code, route_code};
pub use failures::{
    Failure, already_exists, bad_upgrade, conflict, expired, not_found, read_only, too_large,
    used_up,
};
pub use reasons::Reason;
pub use requests::request_told;
pub use routes::route_told;
pub use writes::{operation_told, write_no, write_told};
