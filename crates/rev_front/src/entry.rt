//! What a log can hold.

/// What a log can hold. No code keeps the entries of a log: contracts alone see them.
pub trait Entry: Drop {
    ghost use Rattle.std.specs.Prelude.{ℕ};

    // The entries that may stand in a log at a revision.
    ghost fits: { ℕ → Self → Type 0 };

    // The entry that stands at a revision at which nothing happens.
    ghost quiet: { ℕ → Self };
}
