//! A sink: it takes bytes, and counts the faults met.
ghost use Rattle.std.specs.Prelude.{◌≡◌, ℕ, ◌<◌, ◌≤◌, List, ◌++◌, take, length, IfOk, OnOk, OnErr};
ghost use Rattle.ec_outside.specs.Fault.{HasRisen};

use crate::fault::Failed;

/// A place that bytes are put into, in their order.
pub trait Sink {
    // The sink tells the bytes that it has taken.
    ghost tells: { Self → Type 0 };

    // The bytes taken so far, in their order; of a sink that doesn't tell them, nothing.
    ghost taken: { Self → List ℕ };

    // The count of faults.
    ghost faults: { Self → ℕ };

    /// Takes the first bytes of a piece: the answer says how many, at least 1 where there are any.
    fn put(&mut self, piece: &[u8]) -> Result<usize, Failed>
        // Of the bytes taken.
        ensures within { IfOk result (λ n. n ≤ length piece.now) }
        ensures some { IfOk result (λ n. 0 < length piece.now → 0 < n) }
        ensures takes { IfOk result (λ n. tells self.old → taken self.new ≡ taken self.old ++ take n piece.now) }
        ensures leaves { OnErr result (tells self.old → taken self.new ≡ taken self.old) }
        ensures still_tells { tells self.old → tells self.new }

        // Of the faults.
        ensures ok { OnOk result (faults self.new ≡ faults self.old) }
        ensures failed { OnErr result (HasRisen (faults self.old) (faults self.new)) }
        ensures never_falls { faults self.old ≤ faults self.new };
}
