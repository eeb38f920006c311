//! The session of the load generator, as bytes.

ghost use Rattle.std.specs.Prelude.{◌≡◌, ◌≤◌, ◌^◌, IfOk};
ghost use Rattle.load_gen.specs.Requests.{session_text};

use crate::draws::Draws;
use crate::requests::{LoadRequest, put_list};
use kube_meta::Memory;
use std::alloc::Global;

/// The session that begins with the state `from` of the generator: so many requests that are drawn, each of which
/// creates, replaces or removes one of 200 pods of the namespace `load`, or lists those of one of four groups; and a
/// list of all of them.
pub fn make(alloc: Global, from: u64, requests: u64) -> Result<Vec<u8>, Memory>
    requires from { from ≤ 2 ^ 62 }
    requires requests { requests ≤ 100000 }
    ensures { IfOk result (λ bytes. bytes.items ≡ session_text from requests) }
{
    let mut draws = Draws { state: from };
    let mut bytes = Vec::new(alloc);
    for _number in 0..requests {
        LoadRequest::drawn(&mut draws).put(alloc, &mut bytes)?;
    }
    put_list(&mut bytes)?;
    Ok(bytes)
}
