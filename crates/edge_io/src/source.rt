//! Where bytes come from.

ghost use Rattle.std.specs.Prelude.{◌≡◌, ℕ, ◌<◌, ◌≤◌, List, length, take, Option, None, IfOk, OnOk, OnErr};
ghost use Rattle.edge_io.specs.Told.{prepended, IsExhausted};
ghost use Rattle.edge_io.specs.Counts.{Rose};

use crate::fault::Failed;

/// Where bytes come from: standard input, a connection, or a text in memory.
pub trait Source {
    // the bytes still to come, where they are told
    ghost left: { Self → Option (List ℕ) };

    // how many faults were counted
    ghost faults: { Self → ℕ };

    /// Reads into the front of `buf`, at most as many bytes as it has, and answers how many. Into a buffer that isn't
    /// empty, 0 bytes is the end of the input. After [`Failed`] no byte was taken.
    fn read(&mut self, buf: &mut [u8]) -> Result<usize, Failed>
        ensures within { IfOk result (λ n. n ≤ length buf.new) }
        ensures taken { IfOk result (λ n. left self.old ≡ prepended (take n buf.new) (left self.new)) }
        ensures end { IfOk result (λ n. n ≡ 0 → 0 < length buf.new → IsExhausted (left self.new)) }
        ensures kept { OnErr result (left self.new ≡ left self.old) }
        ensures quiet { OnOk result (faults self.new ≡ faults self.old) }
        ensures counted { OnErr result (Rose (faults self.old) (faults self.new)) };
}
