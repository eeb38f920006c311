//! Laws of mirrors.

ghost use Rattle.mirror_law.specs.Clusters.{BodiesTakeMarks, FollowingsCommitAtOnce, FollowingsHearAtOnce, LinesGoOnBehindMarks, MarksGoOn};
ghost use Rattle.mirror_law.specs.Laws.{BasesAreStates, LogsGoOn, RowsAreOld, FewAtOnce, BeginningsTellTheStream, ToldRevisionsAreOne, EmptyRevisionsAreTold, ToldRevisionsGoOn, MirrorsBegin, MirrorsBeginAnew, MirrorsGoOn, MirrorsAnswerLists, MirrorsAnswerWatches, MirrorsCompose, FollowingsBegin, FollowingsBeginAnew, FollowingsCommit, FollowingsHear, FollowingsMark, FollowingsResume, OpeningsAreTaken, LawfulLinesAreTaken, LinesAreReached};

// ---- logs

/// Base rows in order are the state of pods.
pub fn bases_are_states()
    ensures { BasesAreStates }
{}

/// One more revision with the next number makes a log of a log.
pub fn logs_go_on()
    ensures { LogsGoOn }
{}

/// What stands at a revision was written at it or before.
pub fn rows_are_old()
    ensures { RowsAreOld }
{}

/// Of one revision at most 64 transitions are told.
pub fn few_at_once()
    ensures { FewAtOnce }
{}

/// Lines that begin a body tell a beginning of its initial events and of its stream.
pub fn beginnings_tell_the_stream()
    ensures { BeginningsTellTheStream }
{}

// ---- told revisions

/// There is one revision of what was told at its number.
pub fn told_revisions_are_one()
    ensures { ToldRevisionsAreOne }
{}

/// A revision without a change is that where nothing was told.
pub fn empty_revisions_are_told()
    ensures { EmptyRevisionsAreTold }
{}

/// Revisions that were told go on by the next one.
pub fn told_revisions_go_on()
    ensures { ToldRevisionsGoOn }
{}

// ---- mirrors

/// A mirror begins with a listing.
pub fn mirrors_begin()
    ensures { MirrorsBegin }
{}

/// A log that has the peer's listing at its end is a mirror from there on.
pub fn mirrors_begin_anew()
    ensures { MirrorsBeginAnew }
{}

/// A mirror goes on by the revisions of what is told.
pub fn mirrors_go_on()
    ensures { MirrorsGoOn }
{}

/// A listing of the mirror is the peer's of the objects that both tests pass.
pub fn mirrors_answer_lists()
    ensures { MirrorsAnswerLists }
{}

/// The body of a watch over the mirror is one over the peer, of the same lines.
pub fn mirrors_answer_watches()
    ensures { MirrorsAnswerWatches }
{}

/// A mirror of a mirror is a mirror.
pub fn mirrors_compose()
    ensures { MirrorsCompose }
{}

// ---- following

/// A mirror that begins with the rows of an opening follows its lines.
pub fn followings_begin()
    ensures { FollowingsBegin }
{}

/// A log that has the rows of an opening at its end follows its lines.
pub fn followings_begin_anew()
    ensures { FollowingsBeginAnew }
{}

/// Any beginning of what a line commits leaves a mirror.
pub fn followings_commit()
    ensures { FollowingsCommit }
{}

/// An event commits all revisions before its own, and is kept.
pub fn followings_hear()
    ensures { FollowingsHear }
{}

/// A bookmark commits all revisions up to its own.
pub fn followings_mark()
    ensures { FollowingsMark }
{}

/// A mirror may begin anew, over another connection, from its own end.
pub fn followings_resume()
    ensures { FollowingsResume }
{}

// ---- lawful lines

/// The rows of the opening of a lawful body are in order, selected and old.
pub fn openings_are_taken()
    ensures { OpeningsAreTaken }
{}

/// The next line of a lawful body is of a revision that the peer's log has reached.
pub fn lines_are_reached()
    ensures { LinesAreReached }
{}

/// A mirror that follows takes the next line of a lawful body.
pub fn lawful_lines_are_taken()
    ensures { LawfulLinesAreTaken }
{}

// ---- logs of clusters

/// A bookmark behind each event of lines goes on line by line.
pub fn marks_go_on()
    ensures { MarksGoOn }
{}

/// Lines of a cluster begin a body with a bookmark behind each event too.
pub fn bodies_take_marks()
    ensures { BodiesTakeMarks }
{}

/// So does the next line behind such lines.
pub fn lines_go_on_behind_marks()
    ensures { LinesGoOnBehindMarks }
{}

/// Any beginning of what an event of a cluster commits at once leaves a mirror.
pub fn followings_commit_at_once()
    ensures { FollowingsCommitAtOnce }
{}

/// An event of a cluster commits all revisions up to its own, and nothing is kept.
pub fn followings_hear_at_once()
    ensures { FollowingsHearAtOnce }
{}
