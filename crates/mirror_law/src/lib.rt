//! That a log that follows another one's watch stream is that log, of the objects that are selected.
#![tactic(auto)]

mod laws;

pub use laws::{
    bases_are_states, beginnings_tell_the_stream, bodies_take_marks, empty_revisions_are_told,
    few_at_once, followings_begin, followings_begin_anew, followings_commit,
    followings_commit_at_once, followings_hear, followings_hear_at_once, followings_mark,
    followings_resume, lawful_lines_are_taken, lines_are_reached, lines_go_on_behind_marks,
    logs_go_on, marks_go_on, mirrors_answer_lists, mirrors_answer_watches, mirrors_begin,
    mirrors_begin_anew, mirrors_compose, mirrors_go_on, openings_are_taken, rows_are_old,
    told_revisions_are_one, told_revisions_go_on,
};
