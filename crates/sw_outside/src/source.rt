ghost use Rattle.std.specs.Prelude.{◌≡◌, ℕ, ◌<◌, ◌≤◌, List, Option, length, IfOk};
ghost use Rattle.std.specs.Io.KnownBytes.{ReadConsumes};
ghost use Rattle.sw_outside.specs.Counts.{raised};
ghost use Rattle.sw_outside.specs.Faults.{HasCause};

use crate::errors::Failed;

/// Where requests come from.
pub trait Source {
    /// The bytes to come, where the source tells them.
    ghost left: { Self → Option (List ℕ) };

    /// How many calls have failed, each counted once. The count stands still at 2^64 - 1.
    ghost faults: { Self → ℕ };

    /// How many calls there were, failed ones too. The count stands still at 2^64 - 1.
    ghost calls: { Self → ℕ };

    /// The number of the connection that it is an end of: the first that is accepted has 1. No call changes it. Elsewhere it is 0.
    ghost number: { Self → ℕ };

    /// Reads some of the bytes to come into the front of `into`, and answers how many. It answers 0 only at their end.
    ///
    /// After [`Failed`] the bytes to come are what they were.
    fn read(&mut self, into: &mut [u8]) -> Result<usize, Failed>
        requires { 0 < length into.old }
        ensures count { IfOk result (λ n. n ≤ length into.new) }
        ensures bytes { ReadConsumes (left self.old) (left self.new) result into.new }
        ensures cause { HasCause (faults self.old) (faults self.new) result }
        ensures calls { calls self.new ≡ raised (calls self.old) }
        ensures number { number self.new ≡ number self.old };
}
