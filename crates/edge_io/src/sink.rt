//! Where bytes go.

ghost use Rattle.std.specs.Prelude.{◌≡◌, ℕ, ◌<◌, ◌≤◌, List, length, take, Option, IfOk, OnOk, OnErr};
ghost use Rattle.std.specs.List.{flat_map};
ghost use Rattle.edge_io.specs.Told.{appended, AppendedSome};
ghost use Rattle.edge_io.specs.Counts.{Rose};

use crate::fault::Failed;

/// Where bytes go: standard output, a connection, or a text in memory.
pub trait Sink {
    // the bytes that were written, where they are told
    ghost written: { Self → Option (List ℕ) };

    // how many faults were counted
    ghost faults: { Self → ℕ };

    // nothing that was written is held back
    ghost settled: { Self → Type 0 };

    /// Takes some bytes from the front of `bytes`, and answers how many: at least one, unless `bytes` is empty. After
    /// [`Failed`] none was taken.
    fn write(&mut self, bytes: &[u8]) -> Result<usize, Failed>
        ensures within { IfOk result (λ n. n ≤ length bytes.now) }
        ensures some { IfOk result (λ n. 0 < length bytes.now → 0 < n) }
        ensures taken { IfOk result (λ n. written self.new ≡ appended (written self.old) (take n bytes.now)) }
        ensures kept { OnErr result (written self.new ≡ written self.old) }
        ensures quiet { OnOk result (faults self.new ≡ faults self.old) }
        ensures counted { OnErr result (Rose (faults self.old) (faults self.new)) };

    /// Sends on what the sink still holds back, so that after Ok nothing is.
    fn flush(&mut self) -> Result<(), Failed>
        ensures settled { OnOk result (settled self.new) }
        ensures kept { written self.new ≡ written self.old }
        ensures quiet { OnOk result (faults self.new ≡ faults self.old) }
        ensures counted { OnErr result (Rose (faults self.old) (faults self.new)) };

    /// Writes all of `bytes`. After [`Failed`] some beginning of them was taken.
    final fn write_all(&mut self, bytes: &[u8]) -> Result<(), Failed>
        ensures taken { OnOk result (written self.new ≡ appended (written self.old) bytes.now) }
        ensures broken { OnErr result (AppendedSome (written self.old) (written self.new) bytes.now) }
        ensures quiet { OnOk result (faults self.new ≡ faults self.old) }
        ensures counted { OnErr result (Rose (faults self.old) (faults self.new)) }
    {
        let mut at = 0;
        while at < bytes.len() {
            match self.write(&bytes[at..]) {
                Ok(n) => at += n,
                Err(failed) => return Err(failed),
            }
        }
        Ok(())
    }

    /// Writes these pieces, one after the other. After [`Failed`] some beginning of them all was taken.
    final fn write_pieces(&mut self, pieces: &[&[u8]]) -> Result<(), Failed>
        ensures taken { OnOk result (written self.new ≡ appended (written self.old) (flat_map (λ piece. piece.now) pieces.now)) }
        ensures broken { OnErr result (AppendedSome (written self.old) (written self.new) (flat_map (λ piece. piece.now) pieces.now)) }
        ensures quiet { OnOk result (faults self.new ≡ faults self.old) }
        ensures counted { OnErr result (Rose (faults self.old) (faults self.new)) }
    {
        for piece in pieces {
            match self.write_all(piece) {
                Ok(()) => {}
                Err(failed) => return Err(failed),
            }
        }
        Ok(())
    }
}
