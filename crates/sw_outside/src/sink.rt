ghost use Rattle.std.specs.Prelude.{◌≡◌, ℕ, List, Option, OnOk, OnErr};
ghost use Rattle.std.specs.Io.KnownBytes.{Appends};
ghost use Rattle.sw_outside.specs.Counts.{raised};
ghost use Rattle.sw_outside.specs.Faults.{HasCause};
ghost use Rattle.sw_outside.specs.Taken.{AppendsPart};

use crate::errors::Failed;

/// Where replies go.
pub trait Sink {
    /// All bytes taken so far, where the sink tells them.
    ghost taken: { Self → Option (List ℕ) };

    /// How many calls have failed, each counted once. The count stands still at 2^64 - 1.
    ghost faults: { Self → ℕ };

    /// How many calls there were, failed ones too. The count stands still at 2^64 - 1.
    ghost calls: { Self → ℕ };

    /// The number of the connection that it is an end of: the first that is accepted has 1. No call changes it. Elsewhere it is 0.
    ghost number: { Self → ℕ };

    /// Takes the bytes. After [`Failed`] some front of them was taken, maybe none or all.
    fn put(&mut self, bytes: &[u8]) -> Result<(), Failed>
        ensures all { OnOk result (Appends (taken self.old) (taken self.new) bytes.now) }
        ensures part { OnErr result (AppendsPart (taken self.old) (taken self.new) bytes.now) }
        ensures cause { HasCause (faults self.old) (faults self.new) result }
        ensures calls { calls self.new ≡ raised (calls self.old) }
        ensures number { number self.new ≡ number self.old };
}
