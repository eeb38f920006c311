//! Where the pairs of a query stand in one text.

ghost use Rattle.std.specs.Prelude.{◌≡◌};
ghost use Rattle.http_read.specs.Places.{pair_at, IsPlaceIn};

/// Where a pair stands in a text: its name, and behind it its value.
#[derive(Clone, Copy, Debug)]
pub(crate) struct Place {
    pub(crate) name: usize,
    pub(crate) value: usize,
    pub(crate) end: usize,
}

impl Place {
    /// The name.
    pub(crate) fn name_in(self, text: &str) -> &str
        requires { IsPlaceIn text.now self }
        ensures { result.now ≡ (pair_at text.now self).0 }
    {
        &text[self.name..self.value]
    }

    /// The value.
    pub(crate) fn value_in(self, text: &str) -> &str
        requires { IsPlaceIn text.now self }
        ensures { result.now ≡ (pair_at text.now self).1 }
    {
        &text[self.value..self.end]
    }
}
