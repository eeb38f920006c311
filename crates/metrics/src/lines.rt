//! The lines of one family.

ghost use Rattle.std.specs.Prelude.{◌≡◌, ◌∷◌, ◌++◌, [], OnOk, decimal};
ghost use Rattle.metrics.specs.Families as families;
ghost use Rattle.metrics.specs.Text as spec;

use crate::families::Family;
use itoa::Buffer;
use kube_meta::Memory;

/// Puts some bytes behind the text.
pub(crate) fn put(text: &mut Vec<u8>, bytes: &[u8]) -> Result<(), Memory>
    ensures { OnOk result (text.new.items ≡ text.old.items ++ bytes.now) }
{
    text.extend_from_slice(bytes)?;
    Ok(())
}

/// Puts a number behind the text.
pub(crate) fn put_number(text: &mut Vec<u8>, number: u64) -> Result<(), Memory>
    ensures { OnOk result (text.new.items ≡ text.old.items ++ decimal number) }
{
    let mut digits = Buffer::new();
    text.extend_from_slice(digits.format(number).as_bytes())?;
    Ok(())
}

/// Puts the two lines that are in front of a family's samples.
#[tactic(auto, unfolding(crate::specs::Text::head))]
pub(crate) fn put_head(text: &mut Vec<u8>, family: Family) -> Result<(), Memory>
    ensures { OnOk result (text.new.items ≡ text.old.items ++ spec.head family) }
{
    put(text, b"# HELP ")?;
    put(text, family.name().as_bytes())?;
    put(text, b" ")?;
    put(text, family.help().as_bytes())?;
    put(text, b"\n# TYPE ")?;
    put(text, family.name().as_bytes())?;
    put(text, b" ")?;
    put(text, family.kind().as_bytes())
}

/// Puts the same behind another family.
pub(crate) fn put_next_head(text: &mut Vec<u8>, family: Family) -> Result<(), Memory>
    ensures { OnOk result (text.new.items ≡ text.old.items ++ 10 ∷ spec.head family) }
{
    put(text, b"\n")?;
    put_head(text, family)
}

/// Begins a sample: its name, behind a line feed. Labels may follow.
pub(crate) fn begin_sample(text: &mut Vec<u8>, family: Family) -> Result<(), Memory>
    ensures { OnOk result (text.new.items ≡ text.old.items ++ 10 ∷ families.family_name family) }
{
    put(text, b"\n")?;
    put(text, family.name().as_bytes())
}

/// Ends a sample by its value.
pub(crate) fn end_sample(text: &mut Vec<u8>, value: u64) -> Result<(), Memory>
    ensures { OnOk result (text.new.items ≡ text.old.items ++ 32 ∷ decimal value) }
{
    put(text, b" ")?;
    put_number(text, value)
}

/// Puts a family of one sample without labels.
#[tactic(auto, unfolding(crate::specs::Text::sample))]
pub(crate) fn put_alone(text: &mut Vec<u8>, family: Family, value: u64) -> Result<(), Memory>
    ensures { OnOk result (text.new.items ≡ text.old.items ++ spec.alone family value) }
{
    put_head(text, family)?;
    begin_sample(text, family)?;
    end_sample(text, value)
}

/// Puts the same behind another family.
pub(crate) fn put_next_alone(text: &mut Vec<u8>, family: Family, value: u64) -> Result<(), Memory>
    ensures { OnOk result (text.new.items ≡ text.old.items ++ spec.next_alone family value) }
{
    put(text, b"\n")?;
    put_alone(text, family, value)
}
