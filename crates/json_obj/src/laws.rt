//! What holds of objects and their texts, as laws.

ghost use Rattle.json_obj.specs.Laws.{ObjectsAreOne, ValuesAreOrderly, ObjectsReadBack};

use kube_meta::revisions_are_read_back;

/// What is stored for a value is one object: its labels, its listed fields, its text, and where its
/// metadata lies.
pub fn objects_are_one()
    ensures { ObjectsAreOne }
{}

/// A value that was read from JSON has integers of 64 bits and names in strict order, and so has each of its parts.
pub fn values_are_orderly()
    ensures { ValuesAreOrderly }
{}

/// An object's text at a revision is read back as that object, by a replacement at its own name.
pub fn objects_read_back()
    ensures { ObjectsReadBack }
{
    revisions_are_read_back();
}
