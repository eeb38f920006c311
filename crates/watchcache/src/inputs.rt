//! All bytes of a source.

ghost use Rattle.std.specs.Prelude.{◌≡◌, ◌+◌, ◌<◌, ◌≤◌, ◌^◌, ◌⊎◌, IfOk, IfErr, vec_len};
ghost use Rattle.edge_io.specs.Counts.{Rose};
ghost use Rattle.edge_io.specs.Told.{prepended, IsExhausted};

use edge_io::Source;
use kube_meta::Memory;
use std::alloc::Global;

/// How many bytes are taken at once.
const STEP: usize = 65_536;

/// Why the bytes of a source weren't read.
#[derive(Clone, Copy, Debug, PartialEq, Eq)]
pub enum InputNo {
    /// The source failed.
    Fault,
    /// There was no memory for them.
    Memory,
}

impl From<Memory> for InputNo {
    ghost use Rattle.std.specs.Prelude.{◌≡◌};
    ghost use Rattle.watchcache.specs.declared.inputs.InputNo.TheVariants as refusals;

    ghost from_gives = { λ _ refusal. refusal ≡ refusals.Memory };

    fn from(_: Memory) -> InputNo {
        InputNo::Memory
    }
}

/// The bytes of a source, to its end or until they are more than `most`: no byte behind that is taken.
pub fn read_all<S: Source>(alloc: Global, source: &mut S, most: usize) -> Result<Vec<u8>, InputNo>
    requires { most < 2 ^ 62 }
    ensures taken { IfOk result (λ bytes. S.left source.old ≡ prepended bytes.items (S.left source.new)) }
    ensures whole { IfOk result (λ bytes. IsExhausted (S.left source.new) ⊎ (most < vec_len bytes)) }
    ensures few { IfOk result (λ bytes. vec_len bytes ≤ most + 1) }
    ensures fault { IfErr result (λ no. no ≡ InputNo.Fault → Rose (S.faults source.old) (S.faults source.new)) }
{
    let mut room = vec![in alloc; 0u8; STEP]?;
    let step = room.as_mut_slice();
    let mut bytes = Vec::new(alloc);
    for _ in 0..most + 1 {
        let wanted = STEP.min(most + 1 - bytes.len());
        if wanted == 0 {
            return Ok(bytes);
        }
        let part = &mut step[..wanted];
        let Ok(n) = source.read(part) else {
            return Err(InputNo::Fault);
        };
        if n == 0 {
            return Ok(bytes);
        }
        bytes.extend_from_slice(&part[..n])?;
    }
    Ok(bytes)
}
