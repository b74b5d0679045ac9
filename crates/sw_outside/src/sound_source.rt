ghost use Rattle.std.specs.Prelude.{◌≡◌, ℕ, ◌<◌, ◌≤◌, min, length, Some, IfOk};
ghost use Rattle.std.specs.Io.KnownBytes.{ReadConsumes};
ghost use Rattle.sw_outside.specs.Counts.{raised};
ghost use Rattle.sw_outside.specs.Faults.{HasCause};

use crate::bytes::Bytes;
use crate::errors::Failed;
use crate::mem_source::give;
use crate::source::Source;
use std::marker::Model;

/// A source in memory that never fails. Contracts see the bytes to come and the count of calls.
#[derive(Debug, Drop)]
pub struct SoundSource {
    bytes: Bytes,
    at: usize,
    calls: u64,
}

impl Model for SoundSource {
    ghost use Rattle.std.specs.Prelude.{◌≤◌, length, drop};
    ghost use Rattle.sw_outside.specs.Supply.{SoundSupply};

    ghost Value = { SoundSupply };

    ghost view = { λ s. record { left = drop s.at s.bytes; calls = s.calls } };

    ghost invariant = { λ s. s.at ≤ length s.bytes };
}

impl SoundSource {
    pub fn new(bytes: Bytes) -> SoundSource
        ensures { result ≡ record { left = bytes; calls = 0 } }
    {
        SoundSource {
            bytes,
            at: 0,
            calls: 0,
        }
    }
}

impl Source for SoundSource {
    ghost left = { λ s. Some s.left };

    ghost faults = { λ _. 0 };

    ghost calls = { λ s. s.calls };

    ghost number = { λ _. 0 };

    fn read(&mut self, into: &mut [u8]) -> Result<usize, Failed>
        requires { 0 < length into.old }
        ensures count { IfOk result (λ n. n ≤ length into.new) }
        ensures bytes { ReadConsumes (Some self.old.left) (Some self.new.left) result into.new }
        ensures cause { HasCause 0 0 result }
        ensures calls { self.new.calls ≡ raised self.old.calls }
        ensures number { ◌≡◌ {A = ℕ} 0 0 }
        ensures given { result ≡ Ok (min (length into.old) (length self.old.left)) }
    {
        self.calls = self.calls.saturating_add(1);
        let given = give(&self.bytes.as_slice()[self.at..], usize::MAX, into);
        self.at += given;
        Ok(given)
    }
}
