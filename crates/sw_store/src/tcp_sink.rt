ghost use Rattle.std.specs.Prelude.{◌≡◌, ◌≤◌, None, length, IfOk};

use crate::pace::{Pace, Patience};
use std::cell::Cell;
use std::io;
use std::io::Write;
use std::net::TcpStream;
use std::rc::Rc;
use std::time::Clock;
use sw_outside::{Failed, Sink};

/// How many bytes are handed to the host at a time. A write of more would wait for all that the host can't keep, though the client takes nothing.
const PIECE: usize = 65536;

/// The end of a connection to which it is written, which counts the puts and those that failed. It tells nothing of the bytes.
///
/// A put has to be taken in time, or to move at the pace that is asked for; then it has failed.
#[derive(Drop)]
pub struct TcpSink<'a, R: Clock> {
    clock: &'a R,
    stream: TcpStream,
    pace: Pace,
    replied: Rc<Cell<bool>>,
    faults: u64,
    calls: u64,
    number: u64,
}

impl<'a, R: Clock> TcpSink<'a, R> {
    /// The end of the connection of this number, whose socket waits as long as is patient. It sets `replied` with each put.
    pub(crate) fn new(
        clock: &'a R,
        stream: TcpStream,
        patience: Patience,
        replied: Rc<Cell<bool>>,
        number: u64,
    ) -> TcpSink<'a, R>
        ensures number { result.number ≡ number }
        ensures counts { (result.calls ≡ 0) × (result.faults ≡ 0) }
    {
        TcpSink {
            clock,
            stream,
            pace: Pace::new(patience),
            replied,
            faults: 0,
            calls: 0,
            number,
        }
    }

    /// The number of its connection.
    pub fn number(&self) -> u64
        ensures { result ≡ self.now.number }
    {
        self.number
    }

    /// How many puts there were, failed ones too. The count stands still at 2^64 - 1.
    pub fn calls(&self) -> u64
        ensures { result ≡ self.now.calls }
    {
        self.calls
    }

    /// How many of them failed. The count stands still at 2^64 - 1.
    pub fn faults(&self) -> u64
        ensures { result ≡ self.now.faults }
    {
        self.faults
    }

    /// Writes some of the bytes in time, a piece at most, and answers how many.
    fn write(&mut self, bytes: &[u8]) -> io::Result<usize>
        ensures count { IfOk result (λ n. n ≤ length bytes.now) }
        ensures number { self.new.number ≡ self.old.number }
        ensures counts { (self.new.calls ≡ self.old.calls) × (self.new.faults ≡ self.old.faults) }
    {
        if let Some(wait) = self.pace.wait(self.clock)? {
            self.stream.set_write_timeout(Some(wait))?;
        }
        let taken = self.stream.write(&bytes[..bytes.len().min(PIECE)])?;
        if taken < bytes.len() {
            self.pace.moved(self.clock, taken)?;
        }
        Ok(taken)
    }
}

impl<R: Clock> Sink for TcpSink<'_, R> {
    ghost taken = { λ _. None };

    ghost faults = { λ s. s.faults };

    ghost calls = { λ s. s.calls };

    ghost number = { λ s. s.number };

    // Where a write takes none of the bytes that are left, nothing more can be sent.
    fn put(&mut self, bytes: &[u8]) -> Result<(), Failed> {
        self.calls = self.calls.saturating_add(1);
        self.pace.begin();
        let mut done = 0;
        while done < bytes.len() {
            match self.write(&bytes[done..]) {
                Ok(taken) if taken > 0 => done += taken,
                _ => {
                    self.faults = self.faults.saturating_add(1);
                    return Err(Failed);
                }
            }
        }
        self.replied.set(true);
        Ok(())
    }
}
