ghost use Rattle.std.specs.Prelude.{◌≡◌, ℕ, ◌++◌, ◌⊎◌, [], Some, IsSome, IsErr, OnOk, OnErr};
ghost use Rattle.std.specs.Io.KnownBytes.{Appends};
ghost use Rattle.sw_outside.specs.Counts.{raised};
ghost use Rattle.sw_outside.specs.Faults.{HasCause};
ghost use Rattle.sw_outside.specs.Taken.{AppendsPart};
ghost use Rattle.sw_outside.specs.Store.{breach_at, FailsAsPlanned, FindsNoMemory};

use crate::errors::Failed;
use crate::sink::Sink;
use std::alloc::Global;
use std::marker::Model;

/// A put that is to fail: its number, counted from 0, and how many of its bytes the sink takes all the same.
#[derive(Clone, Copy, Debug, PartialEq, Eq)]
pub struct FailingPut {
    pub call: u64,
    pub taken: usize,
}

/// A sink in memory, which tells what it has taken. Tests choose which puts fail. One that finds no memory fails as
/// well, and takes nothing.
#[derive(Debug, Drop)]
pub struct MemSink {
    bytes: Vec<u8>,
    failing: Vec<FailingPut>,
    calls: u64,
    faults: u64,
    starved: u64,
    number: u64,
}

impl Model for MemSink {
    ghost use Rattle.sw_outside.specs.Store.{Store};

    ghost Value = { Store };

    ghost view = { λ s. record {
      bytes = s.bytes.items;
      failing = s.failing.items;
      calls = s.calls;
      faults = s.faults;
      starved = s.starved;
      number = s.number;
    } };
}

impl MemSink {
    /// An empty sink whose puts fail as `failing` says.
    pub fn new(alloc: Global, failing: Vec<FailingPut>) -> MemSink
        ensures empty { result.bytes ≡ [] }
        ensures failing { result.failing ≡ failing.items }
        ensures counts { (result.calls ≡ 0) × (result.faults ≡ 0) × (result.starved ≡ 0) }
        ensures number { result.number ≡ 0 }
    {
        MemSink {
            bytes: Vec::new(alloc),
            failing,
            calls: 0,
            faults: 0,
            starved: 0,
            number: 0,
        }
    }

    /// The same as an end of the connection of this number.
    pub fn of_connection(self, number: u64) -> MemSink
        ensures { result ≡ record self { number = number } }
    {
        MemSink { number, ..self }
    }

    /// All that was taken so far.
    pub fn bytes(&self) -> &[u8]
        ensures { result.now ≡ self.now.bytes }
    {
        &self.bytes
    }

    /// How many puts found no memory. The count stands still at 2^64 - 1.
    pub fn starved(&self) -> u64
        ensures { result ≡ self.now.starved }
    {
        self.starved
    }
}

impl Sink for MemSink {
    ghost taken = { λ s. Some s.bytes };

    ghost faults = { λ s. s.faults };

    ghost calls = { λ s. s.calls };

    ghost number = { λ s. s.number };

    fn put(&mut self, bytes: &[u8]) -> Result<(), Failed>
        ensures all { OnOk result (Appends (Some self.old.bytes) (Some self.new.bytes) bytes.now) }
        ensures part { OnErr result (AppendsPart (Some self.old.bytes) (Some self.new.bytes) bytes.now) }
        ensures cause { HasCause self.old.faults self.new.faults result }
        ensures calls { self.new.calls ≡ raised self.old.calls }
        ensures number { self.new.number ≡ self.old.number }
        ensures planned { IsSome (breach_at self.old.failing self.old.calls) → IsErr result }
        ensures taken { OnOk result (self.new ≡ record self.old { bytes = self.old.bytes ++ bytes.now; calls = raised self.old.calls }) }
        ensures failed { OnErr result (FailsAsPlanned self.old self.new bytes.now ⊎ FindsNoMemory self.old self.new) }
    {
        let call = self.calls;
        self.calls = call.saturating_add(1);
        let planned = taken_at(&self.failing, call);
        let wanted = planned.unwrap_or(bytes.len()).min(bytes.len());
        if self.bytes.extend_from_slice(&bytes[..wanted]).is_err() {
            self.starved = self.starved.saturating_add(1);
        } else if planned.is_none() {
            return Ok(());
        }
        self.faults = self.faults.saturating_add(1);
        Err(Failed)
    }
}

/// How many bytes the put of this number takes, where it is to fail.
fn taken_at(failing: &[FailingPut], call: u64) -> Option<usize>
    ensures { result ≡ breach_at failing.now call }
{
    failing
        .iter()
        .find(|put| put.call == call)
        .map(|put| put.taken)
}
