//! Types that tell how many changes a cache keeps at least.

use std::marker::PhantomData;
use up_api::LogFacts;

/// A type that may tell the window of a cache: how many changes it keeps at least.
pub trait Window {
    ghost use Rattle.std.specs.Prelude.{ℕ, Option};

    // the window, where the type tells it; else the cache alone knows
    ghost window: { Option ℕ };
}

/// Tells that a cache has the window that the log's name tells.
pub struct NamedWindow<N: LogFacts> {
    name: PhantomData<N>,
}

/// Doesn't tell the window of a cache: who holds the cache sees it.
pub struct SeenWindow;

impl<N: LogFacts> Window for NamedWindow<N> {
    ghost use Rattle.std.specs.Prelude.{Some};

    ghost window = { Some N.window };
}

impl Window for SeenWindow {
    ghost use Rattle.std.specs.Prelude.{None};

    ghost window = { None };
}
