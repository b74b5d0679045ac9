ghost use Rattle.std.specs.Prelude.{◌≡◌, ℕ, ◌+◌, ◌<◌, ◌∷◌, [], ◌++◌, List, length, IfOk, OnOk, OnErr};
ghost use Rattle.sw_outside.specs.Counts.{raised};
ghost use Rattle.sw_outside.specs.Doors.{Accepted, Finished, IsUntouched};
ghost use Rattle.sw_outside.specs.Faults.{faults_after, HasCause};

use crate::errors::Failed;
use crate::sink::Sink;
use crate::source::Source;
use crate::store_error::StoreError;

/// Where connections come from. Each has an end that is read and one that is written.
///
/// Listening and accepting each count as one call, and one fault exactly where they fail; finishing counts as none. After an error nothing
/// has changed but these counts.
pub trait Doors {
    /// The end of a connection from which it is read.
    type In: Source + Drop;

    /// The end to which it is written.
    type Out: Sink + Drop;

    /// The connections that were accepted, in that order: each as its ends were then.
    ghost accepts: { Self → List Accepted };

    /// The connections that were finished, in that order: each as its ends were then, and its status.
    ghost finished: { Self → List Finished };

    /// How many calls have failed, each counted once. The count stands still at 2^64 - 1.
    ghost faults: { Self → ℕ };

    /// How many calls there were, failed ones too. The count stands still at 2^64 - 1.
    ghost calls: { Self → ℕ };

    /// Begins to listen at a port, in place of one at which it was listened before. At port 0 the host takes one that is free.
    fn listen(&mut self, port: u16) -> Result<(), Failed>
        ensures accepts { accepts self.new ≡ accepts self.old }
        ensures finished { finished self.new ≡ finished self.old }
        ensures cause { HasCause (faults self.old) (faults self.new) result }
        ensures calls { calls self.new ≡ raised (calls self.old) };

    /// Accepts a connection, and waits for one where none has come yet. Nothing was written to it. Both ends have its number, counted from 1.
    fn accept(&mut self) -> Result<(Self::In, Self::Out), StoreError>
        ensures accepted { IfOk result (λ ends. accepts self.new ≡ accepts self.old ++ record {
          number = length (accepts self.old) + 1;
          source = record { left = Self.In.Source.left ends.0; calls = Self.In.Source.calls ends.0; faults = Self.In.Source.faults ends.0 };
          sink = record { taken = Self.Out.Sink.taken ends.1; calls = Self.Out.Sink.calls ends.1; faults = Self.Out.Sink.faults ends.1 };
        } ∷ []) }
        ensures numbers { IfOk result (λ ends. (Self.In.Source.number ends.0 ≡ length (accepts self.old) + 1)
            × (Self.Out.Sink.number ends.1 ≡ length (accepts self.old) + 1)) }
        ensures untouched { IfOk result (λ ends. IsUntouched (Self.Out.Sink.taken ends.1)) }
        ensures none { OnErr result (accepts self.new ≡ accepts self.old) }
        ensures finished { finished self.new ≡ finished self.old }
        ensures cause { faults self.new ≡ faults_after (faults self.old) result }
        ensures calls { calls self.new ≡ raised (calls self.old) };

    /// Ends a connection. It takes no memory and can't fail.
    fn finish(&mut self, input: Self::In, output: Self::Out, status: u8)
        requires { length (finished self.old) < length (accepts self.old) }
        ensures finished { finished self.new ≡ finished self.old ++ record {
          read_at = Self.In.Source.number input;
          written_at = Self.Out.Sink.number output;
          among = length (accepts self.old);
          source = record { left = Self.In.Source.left input; calls = Self.In.Source.calls input; faults = Self.In.Source.faults input };
          sink = record { taken = Self.Out.Sink.taken output; calls = Self.Out.Sink.calls output; faults = Self.Out.Sink.faults output };
          status = status;
        } ∷ [] }
        ensures accepts { accepts self.new ≡ accepts self.old }
        ensures faults { faults self.new ≡ faults self.old }
        ensures calls { calls self.new ≡ calls self.old };
}
