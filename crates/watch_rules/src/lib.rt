//! The options of a watch, what they ask for, and the grammar of what a watch is told.
#![tactic(auto)]

mod ask;
mod laws;
mod options;
mod refusal;
mod starts;

pub use ask::{WatchAsk, plan};
pub use laws::{
    beginnings_stay, bodies_begin, bodies_end, bodies_go_on, bodies_stay, bodies_tell_the_stream,
    bookmarks_tell_all, closings_tell_the_start, positions_rise, tellings_begin, tellings_go_on,
    tellings_stay,
};
pub use refusal::WatchNo;
pub use starts::Start;
