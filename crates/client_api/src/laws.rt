//! Laws of what clients answer, for the proofs of callers.

ghost use Rattle.client_api.specs.Laws.{OnwardsJoin, LooksLoad, LoadsAreFresh, LoadsAreEnds};
ghost use Rattle.client_api.specs.Laws.{ListsAgree, StartsTell, TurnsTell};

/// What is known goes on from itself, and from what it went on from.
pub fn onwards_join()
    ensures { OnwardsJoin }
{}

/// After a look and sections of upstream, a load of the revision was made, and the last one gave what the look gave.
pub fn looks_load()
    ensures { LooksLoad }
{}

/// What is seen then and isn't older than that load is fresh, but where one revision alone will do.
pub fn loads_are_fresh()
    ensures { LoadsAreFresh }
{}

/// Lists of one selection at one revision, whoever asks for the later one, are pages of one listing.
pub fn lists_agree()
    ensures { ListsAgree }
{}

/// The opening of a watch that begins tells a lawful body.
pub fn starts_tell()
    ensures { StartsTell }
{}

/// The lines of a lawful body, and then those of a turn, are those of a lawful body, up to the new position.
pub fn turns_tell()
    ensures { TurnsTell }
{}

/// What the last load of a sole client's call gave is the end of the log.
pub fn loads_are_ends()
    ensures { LoadsAreEnds }
{}
