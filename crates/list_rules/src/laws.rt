//! Laws of pages.

ghost use Rattle.list_rules.specs.Laws.{PagesJoin, LeftsAreCounted};

/// The pages of a list that follow each other's tokens at one revision, joined, are the whole list from
/// where the first of them begins.
pub fn pages_join()
    ensures { PagesJoin }
{}

/// The rows that are left behind a page are those behind the key of its token, and it has none where
/// nothing is left.
pub fn lefts_are_counted()
    ensures { LeftsAreCounted }
{}
