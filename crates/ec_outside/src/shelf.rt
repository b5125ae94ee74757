//! A shelf: files that are read by name, and the counts of the faults met.
ghost use Rattle.std.specs.Prelude.{◌≡◌, ℕ, ◌<◌, ◌≤◌, List, Option, length, IfOk, OnOk, OnErr, Contains};
ghost use Rattle.ec_outside.specs.Fault.{HasRisen, ShareCount};
ghost use Rattle.ec_outside.specs.Shelf.{ReadsFile};

use crate::fault::Failed;

/// Files by their names. Calls change no file and no kept name; faults raise counts.
pub trait Shelf {
    // The shelf tells what its files hold.
    ghost tells: { Self → Type 0 };

    // The bytes of the file of a name, where there is one; of a shelf that doesn't tell it, nothing.
    ghost content: { Self → List ℕ → Option (List ℕ) };

    // The names whose faults have counts of their own.
    ghost kept: { Self → List (List ℕ) };

    // The count of faults that speaks for a name.
    ghost faults: { Self → List ℕ → ℕ };

    /// The bytes of a file from a place on: the answer says how many came, 0 at the end of the file.
    fn read_at(&mut self, name: &str, from: u64, buf: &mut [u8]) -> Result<usize, Failed>
        // Of the files.
        ensures within { IfOk result (λ n. n ≤ length buf.new) }
        ensures read { IfOk result (λ n. tells self.old → ReadsFile (content self.old name.now) from buf.new n) }
        ensures still_tells { tells self.old → tells self.new }
        ensures content { content self.new ≡ content self.old }
        ensures kept { kept self.new ≡ kept self.old }

        // Of the faults.
        ensures ok { OnOk result (faults self.new ≡ faults self.old) }
        ensures failed { OnErr result (HasRisen (faults self.old name.now) (faults self.new name.now)) }
        ensures others { (other : List ℕ) → ¬ ShareCount (kept self.old) name.now other →
            faults self.new other ≡ faults self.old other }
        ensures never_falls { (other : List ℕ) → faults self.old other ≤ faults self.new other };

    // All names that aren't kept have one count.
    ghost shared: { (s : Self) (a b : List ℕ) → ShareCount (kept s) a b → faults s a ≡ faults s b };
}
