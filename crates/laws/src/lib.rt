//! Laws of several crates together, and nothing else: no program calls what stands here, it is there to be proved.
//!
//! Each call of a hub, the cache of one resource with its lanes, is a step of the world of log, caches and clients: a
//! function of `hub_feeds` or `hub_watches` makes one call and promises the step, by what that call promises; a hub
//! that promised less would be refused here. What a session writes to a watch is judged to be lawful over its log
//! (`lawful`), and a mirror reads it as the lines of a lawful body; bytes have one opening, and then no refusal
//! (`mirrored`), and one reading of a peer's head (`peer_heads`). What a mirror writes asks for its watch
//! (`mirror_queries`), logs stay such as it may follow (`storable`, `session_peers`), and it may hear each line
//! (`served_mirrors`). A request of a session gets its 200, 201 or stream, unless something stands in its way; and,
//! where nobody else holds the log, it gets them if the log before it has what it asks for, replies are determined, and
//! with them the figures of a load (`answered`). Replies with one text say the same (`reply_texts`).
#![tactic(auto)]

mod answered;
mod hub_feeds;
mod hub_watches;
mod lawful;
mod mirror_queries;
mod mirrored;
mod peer_heads;
mod reply_texts;
mod served_mirrors;
mod session_peers;
mod storable;

pub use answered::{
    figures_are_determined, replies_are_determined, requests_are_served, requests_are_served_alone,
};
pub use hub_feeds::{pump, rebuild};
pub use hub_watches::{catch_up, close, go_along, lose, open};
pub use lawful::streams_are_lawful;
pub use mirror_queries::{
    mirror_queries_ask_watches, mirror_requests_are_read, mirror_requests_are_routed,
    mirrors_get_their_watches,
};
pub use mirrored::{bad_lines_agree, openings_are_not_refused, openings_are_one, watches_are_read};
pub use peer_heads::heads_have_one_reading;
pub use reply_texts::replies_tell_apart;
pub use served_mirrors::servers_are_mirrored;
pub use session_peers::logs_are_peers;
pub use storable::{logs_stay_stored, requests_are_storable};
