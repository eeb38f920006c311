//! How many rows are told to be left behind a page.

ghost use Rattle.std.specs.Prelude.{◌≡◌};
ghost use Rattle.list_rules.specs.Pages.{remaining_of};

use select_all::Selection;

/// What is told of the number of rows that are left behind a page: nothing where a selector has a
/// requirement, as `remainingItemCount` of the Kubernetes API's list metadata has it.
pub fn remaining(selection: &Selection, left: u64) -> Option<u64>
    ensures { result ≡ remaining_of selection.now left }
{
    if selection.labels.is_empty() && selection.fields.is_empty() {
        Some(left)
    } else {
        None
    }
}
