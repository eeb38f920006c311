//! What holds of lines and pages that are read by their values, as laws.

ghost use Rattle.watch_lines.specs.ValueLaws.{OwnLinesTell, ItemsShowTheSame, TextsTellOneLine, WhatIsToldIsKept, TextsAreOnePage, PagesAreKept};

use json_obj::{objects_are_one, objects_read_back, values_are_orderly};
use kube_meta::revisions_are_read_back;

/// The text of each line of a body whose object is stored tells that line by its value too.
pub fn own_lines_tell()
    ensures { OwnLinesTell }
{
    objects_read_back();
    values_are_orderly();
    revisions_are_read_back();
}

/// A text tells one line at most.
pub fn texts_tell_one_line()
    ensures { TextsTellOneLine }
{
    objects_are_one();
}

/// What a text tells may be stored, and has its revision within bounds.
pub fn what_is_told_is_kept()
    ensures { WhatIsToldIsKept }
{
    values_are_orderly();
    revisions_are_read_back();
}

/// A value shows the same object with the version and the kind of its resource, as in a line of a watch, and without
/// them, as in a list.
pub fn items_show_the_same()
    ensures { ItemsShowTheSame }
{
    objects_are_one();
}

/// A text is one page at most.
pub fn texts_are_one_page()
    ensures { TextsAreOnePage }
{
    objects_are_one();
}

/// The rows of a page may be stored, and all its revisions are within bounds.
pub fn pages_are_kept()
    ensures { PagesAreKept }
{
    values_are_orderly();
    revisions_are_read_back();
}
