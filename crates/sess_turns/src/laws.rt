//! Laws of the turns of a watch.

ghost use Rattle.sess_turns.specs.Laws.{TurnsAreBodies};

/// The lines of a watch are those of a lawful body over the log that is known at its end.
pub fn turns_are_bodies()
    ensures { TurnsAreBodies }
{}
