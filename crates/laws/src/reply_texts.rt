//! The laws.

ghost use Rattle.laws.specs.ReplyTexts.{RepliesTellApart};

/// Replies that have one text say the same.
pub fn replies_tell_apart()
    ensures { RepliesTellApart }
{}
