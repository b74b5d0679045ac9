ghost use Rattle.std.specs.Prelude.{◌≡◌, ℕ, List, None};

use crate::errors::Failed;
use crate::sink::Sink;

/// A sink that takes all bytes and never fails. It keeps none, and tells nothing of them.
#[derive(Clone, Copy, Debug, PartialEq, Eq)]
pub struct SoundSink {
    calls: u64,
}

impl SoundSink {
    pub fn new() -> SoundSink
        ensures { result ≡ record { calls = 0 } }
    {
        SoundSink { calls: 0 }
    }
}

impl Sink for SoundSink {
    ghost taken = { λ _. None };

    ghost faults = { λ _. 0 };

    ghost calls = { λ s. s.calls };

    ghost number = { λ _. 0 };

    fn put(&mut self, _bytes: &[u8]) -> Result<(), Failed> {
        self.calls = self.calls.saturating_add(1);
        Ok(())
    }
}
