//! What holds of every request.

ghost use Rattle.route_req.specs.Places.{PathsNameOnePlace};
ghost use Rattle.route_req.specs.Outcomes.{SelectionsAgree, RoutesAreNotRefused, RefusalsAgree, AnswersAgree, ItemObjectsArePlain};

/// A path names at most one place.
pub fn paths_name_one_place()
    ensures { PathsNameOnePlace }
{}

/// The texts of a label selector and a field selector stand for at most one selection.
pub fn selections_agree()
    ensures { SelectionsAgree }
{}

/// A request that has a route isn't refused, but for want of memory.
pub fn routes_are_not_refused()
    ensures { RoutesAreNotRefused }
{}

/// A request that is refused, and not for want of memory, is refused for one reason.
pub fn refusals_agree()
    ensures { RefusalsAgree }
{}

/// A request that has a route has one: what it asks for is determined.
pub fn answers_agree()
    ensures { AnswersAgree }
{}

/// The object in an item of a transaction has no float and doesn't nest too deep, so that its stored
/// text is that of the item's object.
pub fn item_objects_are_plain()
    ensures { ItemObjectsArePlain }
{}
