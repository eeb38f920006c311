//! The part of the text that tells of mirrors.

ghost use Rattle.std.specs.Prelude.{◌≡◌, ◌++◌, OnOk};
ghost use Rattle.std.specs.List.{flat_map};
ghost use Rattle.metrics.specs.Families as families;
ghost use Rattle.metrics.specs.Text as spec;

use crate::families::{Family, MIRROR_FIGURES, MirrorFigure};
use crate::lines::{begin_sample, end_sample, put, put_next_head};
use crate::served::Mirrored;
use kube_meta::{Memory, Resource};

/// Puts what mirrors tell, behind another family.
pub(crate) fn put_mirrors(text: &mut Vec<u8>, mirrors: &[Mirrored]) -> Result<(), Memory>
    ensures { OnOk result (text.new.items ≡ text.old.items ++ spec.mirrors_text mirrors.now) }
{
    if mirrors.is_empty() {
        return Ok(());
    }
    put_all_figures(text, mirrors)
}

#[tactic(auto, unfolding(crate::specs::Families::all_mirror_figures))]
fn put_all_figures(text: &mut Vec<u8>, mirrors: &[Mirrored]) -> Result<(), Memory>
    ensures { OnOk result (text.new.items ≡ text.old.items ++ flat_map (spec.mirror_text mirrors.now) families.all_mirror_figures) }
{
    put_figures(text, &MIRROR_FIGURES, mirrors)
}

fn put_figures(
    text: &mut Vec<u8>,
    figures: &[MirrorFigure],
    mirrors: &[Mirrored],
) -> Result<(), Memory>
    ensures { OnOk result (text.new.items ≡ text.old.items ++ flat_map (spec.mirror_text mirrors.now) figures.now) }
{
    for figure in figures {
        put_figure(text, *figure, mirrors)?;
    }
    Ok(())
}

// Puts a figure of all mirrors.
fn put_figure(text: &mut Vec<u8>, figure: MirrorFigure, mirrors: &[Mirrored]) -> Result<(), Memory>
    ensures { OnOk result (text.new.items ≡ text.old.items ++ spec.mirror_text mirrors.now figure) }
{
    put_next_head(text, Family::OfMirrors(figure))?;
    put_samples(text, figure, mirrors)
}

fn put_samples(text: &mut Vec<u8>, figure: MirrorFigure, mirrors: &[Mirrored]) -> Result<(), Memory>
    ensures { OnOk result (text.new.items ≡ text.old.items ++ flat_map (spec.mirror_sample figure) mirrors.now) }
{
    for mirror in mirrors {
        put_sample(text, figure, mirror)?;
    }
    Ok(())
}

#[tactic(auto, unfolding(crate::specs::Text::sample))]
fn put_sample(text: &mut Vec<u8>, figure: MirrorFigure, mirror: &Mirrored) -> Result<(), Memory>
    ensures { OnOk result (text.new.items ≡ text.old.items ++ spec.mirror_sample figure mirror.now) }
{
    begin_sample(text, Family::OfMirrors(figure))?;
    put_label(text, mirror.resource)?;
    end_sample(text, figure.value(mirror))
}

// Puts the label of a resource.
#[tactic(auto, unfolding(crate::specs::Text::mirror_label))]
fn put_label(text: &mut Vec<u8>, resource: Resource) -> Result<(), Memory>
    ensures { OnOk result (text.new.items ≡ text.old.items ++ spec.mirror_label resource) }
{
    put(text, b"{resource=\"")?;
    put(text, resource.plural().as_bytes())?;
    put(text, b"\"}")
}
