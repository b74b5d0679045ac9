ghost use Rattle.std.specs.Prelude.{◌≡◌, ℕ, ◌<◌, ◌≤◌, min, length, take, drop, Some, is_err, IfOk, OnErr};
ghost use Rattle.std.specs.Io.KnownBytes.{ReadConsumes};
ghost use Rattle.sw_outside.specs.Counts.{raised};
ghost use Rattle.sw_outside.specs.Faults.{HasCause};
ghost use Rattle.sw_outside.specs.Supply.{is_failing, piece_at};

use crate::bytes::Bytes;
use crate::errors::Failed;
use crate::source::Source;
use std::marker::Model;

/// A source in memory, which tells its bytes. Tests choose how it cuts them and which calls fail.
#[derive(Debug, Drop)]
pub struct MemSource {
    bytes: Bytes,
    at: usize,
    pieces: Vec<usize>,
    failing: Vec<u64>,
    calls: u64,
    faults: u64,
    number: u64,
}

impl Model for MemSource {
    ghost use Rattle.std.specs.Prelude.{◌≤◌, length, drop};
    ghost use Rattle.sw_outside.specs.Supply.{Supply};

    ghost Value = { Supply };

    ghost view = { λ s. record {
      left = drop s.at s.bytes;
      pieces = s.pieces.items;
      failing = s.failing.items;
      calls = s.calls;
      faults = s.faults;
      number = s.number;
    } };

    ghost invariant = { λ s. s.at ≤ length s.bytes };
}

impl MemSource {
    /// A source of these bytes. Its call number `n`, counted from 0, gives at most `pieces[n]` bytes, one at least, and
    /// as many as there is room for where `pieces` is shorter. The calls whose numbers are in `failing` fail.
    pub fn new(bytes: Bytes, pieces: Vec<usize>, failing: Vec<u64>) -> MemSource
        ensures left { result.left ≡ bytes }
        ensures pieces { result.pieces ≡ pieces.items }
        ensures failing { result.failing ≡ failing.items }
        ensures counts { (result.calls ≡ 0) × (result.faults ≡ 0) }
        ensures number { result.number ≡ 0 }
    {
        MemSource {
            bytes,
            at: 0,
            pieces,
            failing,
            calls: 0,
            faults: 0,
            number: 0,
        }
    }

    /// The same as an end of the connection of this number.
    pub fn of_connection(self, number: u64) -> MemSource
        ensures { result ≡ record self { number = number } }
    {
        MemSource { number, ..self }
    }
}

impl Source for MemSource {
    ghost left = { λ s. Some s.left };

    ghost faults = { λ s. s.faults };

    ghost calls = { λ s. s.calls };

    ghost number = { λ s. s.number };

    fn read(&mut self, into: &mut [u8]) -> Result<usize, Failed>
        requires { 0 < length into.old }
        ensures count { IfOk result (λ n. n ≤ length into.new) }
        ensures bytes { ReadConsumes (Some self.old.left) (Some self.new.left) result into.new }
        ensures cause { HasCause self.old.faults self.new.faults result }
        ensures fails { is_err result ≡ is_failing self.old.failing self.old.calls }
        ensures piece { IfOk result (λ n. n ≡ min (length into.new) (min (length self.old.left) (piece_at self.old.pieces self.old.calls))) }
        ensures calls { self.new.calls ≡ raised self.old.calls }
        ensures number { self.new.number ≡ self.old.number }
        ensures given { IfOk result (λ n. self.new ≡ record self.old { left = drop n self.old.left; calls = raised self.old.calls }) }
        ensures untouched { OnErr result (into.new ≡ into.old) }
        ensures failed { OnErr result (self.new ≡ record self.old { calls = raised self.old.calls; faults = raised self.old.faults }) }
    {
        let call = self.calls;
        self.calls = call.saturating_add(1);
        if self.failing.contains(&call) {
            self.faults = self.faults.saturating_add(1);
            return Err(Failed);
        }
        let piece = piece_of(&self.pieces, call);
        let given = give(&self.bytes.as_slice()[self.at..], piece, into);
        self.at += given;
        Ok(given)
    }
}

/// How many bytes a call gives at most.
fn piece_of(pieces: &[usize], call: u64) -> usize
    ensures { result ≡ piece_at pieces.now call }
{
    let piece = pieces.get(call as usize).copied().unwrap_or(usize::MAX);
    piece.max(1)
}

/// Copies the front of `left` to that of `into`, at most `piece` bytes.
pub(crate) fn give(left: &[u8], piece: usize, into: &mut [u8]) -> usize
    ensures given { result ≡ min (length into.old) (min (length left.now) piece) }
    ensures bytes { take result into.new ≡ take result left.now }
{
    let given = into.len().min(left.len().min(piece));
    into[..given].copy_from_slice(&left[..given]);
    given
}
