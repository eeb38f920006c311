//! The segments of a path.

ghost use Rattle.std.specs.Prelude.{◌≡◌, IfOk, IsTrue, All, map};
ghost use Rattle.form_urlencoded.specs.Form as form;
ghost use Rattle.http_read.specs.Pieces.{IsItself};
ghost use Rattle.http_read.specs.Queries as queries;
ghost use Rattle.http_read.specs.Queries.{segments_of, slash};

use crate::pieces::cut_short;
use crate::plain::segment_text;
use kube_meta::{Memory, Text};
use std::alloc::Global;
use std::marker::Model;

// As many segments as most paths have at most: a group's, a version's, a namespace's, an object's and those between.
const USUAL: usize = 8;

/// The segments of a path, decoded, in order. Contracts see their list.
#[derive(Debug, Drop)]
pub struct Segments {
    segments: Vec<Text>,
}

impl Model for Segments {
    ghost use Rattle.std.specs.Prelude.{ℕ, List};

    ghost Value = { List (List ℕ) };

    ghost view = { λ s. s.segments.items };
}

impl Segments {
    /// The segments of a path after its first `/`, and none where it doesn't begin with `/`. The path may be known to
    /// be plain.
    pub(crate) fn read(alloc: Global, path: &[u8], plain: bool) -> Result<Segments, Memory>
        requires { IsTrue plain → All IsItself path.now }
        ensures { IfOk result (λ segments. segments ≡ segments_of path.now) }
    {
        match path {
            [b'/', rest @ ..] => split(alloc, rest, plain),
            _ => Ok(Segments {
                segments: Vec::new(alloc),
            }),
        }
    }

    /// The segments, lent.
    pub fn as_slice(&self) -> &[Text]
        ensures { result.now ≡ self.now }
    {
        self.segments.as_slice()
    }
}

// The segments between the slashes of a text.
fn split(alloc: Global, text: &[u8], plain: bool) -> Result<Segments, Memory>
    requires { IsTrue plain → All IsItself text.now }
    ensures { IfOk result (λ segments. segments ≡ map queries.segment_text (form.split slash text.now)) }
{
    let mut segments = Vec::with_capacity(alloc, USUAL)?;
    let mut rest = text;
    while let Some((segment, others)) = cut_short(rest, b'/') {
        segments.push(segment_text(alloc, segment, plain)?)?;
        rest = others;
    }
    segments.push(segment_text(alloc, rest, plain)?)?;
    Ok(Segments { segments })
}
