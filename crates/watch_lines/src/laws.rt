//! What holds of the lines that are read, as laws.

ghost use Rattle.watch_lines.specs.Laws.{LinesReadBack, LinesAreOne, ShownTextsTellApart, TextsHaveNoLineFeed};

use json_obj::objects_read_back;

/// The text of each line of a body whose object is stored is read as that line, and as no other.
pub fn lines_read_back()
    ensures { LinesReadBack }
{
    objects_read_back();
}

/// A text is that of one line at most.
pub fn lines_are_one()
    ensures { LinesAreOne }
{
    objects_read_back();
}

/// The texts of stored objects at revisions tell the objects and the revisions apart.
pub fn shown_texts_tell_apart()
    ensures { ShownTextsTellApart }
{
    objects_read_back();
}

/// No line's text has a line feed, so that one may end it.
pub fn texts_have_no_line_feed()
    ensures { TextsHaveNoLineFeed }
{}
