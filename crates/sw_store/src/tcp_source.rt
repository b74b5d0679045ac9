ghost use Rattle.std.specs.Prelude.{◌≡◌, ◌≤◌, None, length, IfOk};

use crate::pace::{Pace, Patience};
use std::cell::Cell;
use std::io;
use std::io::Read;
use std::net::TcpStream;
use std::rc::Rc;
use std::time::Clock;
use sw_outside::{Failed, Source};

/// The end of a connection from which it is read, which counts the reads and those that failed. It tells nothing of the bytes.
///
/// What comes between two replies has to be whole in time, or to move at the pace that is asked for; then a read has failed. Waiting for its first byte has
/// the same time.
#[derive(Drop)]
pub struct TcpSource<'a, R: Clock> {
    clock: &'a R,
    stream: TcpStream,
    pace: Pace,
    replied: Rc<Cell<bool>>,
    faults: u64,
    calls: u64,
    number: u64,
}

impl<'a, R: Clock> TcpSource<'a, R> {
    /// The end of the connection of this number, whose socket waits as long as is patient. `replied` is set with each reply.
    pub(crate) fn new(
        clock: &'a R,
        stream: TcpStream,
        patience: Patience,
        replied: Rc<Cell<bool>>,
        number: u64,
    ) -> TcpSource<'a, R>
        ensures number { result.number ≡ number }
        ensures counts { (result.calls ≡ 0) × (result.faults ≡ 0) }
    {
        TcpSource {
            clock,
            stream,
            pace: Pace::new(patience),
            replied,
            faults: 0,
            calls: 0,
            number,
        }
    }

    /// The number of its connection.
    pub fn number(&self) -> u64
        ensures { result ≡ self.now.number }
    {
        self.number
    }

    /// How many reads there were, failed ones too. The count stands still at 2^64 - 1.
    pub fn calls(&self) -> u64
        ensures { result ≡ self.now.calls }
    {
        self.calls
    }

    /// How many of them failed. The count stands still at 2^64 - 1.
    pub fn faults(&self) -> u64
        ensures { result ≡ self.now.faults }
    {
        self.faults
    }

    /// Reads in time.
    fn take(&mut self, into: &mut [u8]) -> io::Result<usize>
        ensures count { IfOk result (λ n. n ≤ length into.new) }
        ensures number { self.new.number ≡ self.old.number }
        ensures counts { (self.new.calls ≡ self.old.calls) × (self.new.faults ≡ self.old.faults) }
    {
        if self.replied.replace(false) {
            self.pace.begin();
        }
        if let Some(wait) = self.pace.wait(self.clock)? {
            self.stream.set_read_timeout(Some(wait))?;
        }
        let given = self.stream.read(into)?;
        self.pace.moved(self.clock, given)?;
        Ok(given)
    }
}

impl<R: Clock> Source for TcpSource<'_, R> {
    ghost left = { λ _. None };

    ghost faults = { λ s. s.faults };

    ghost calls = { λ s. s.calls };

    ghost number = { λ s. s.number };

    fn read(&mut self, into: &mut [u8]) -> Result<usize, Failed> {
        self.calls = self.calls.saturating_add(1);
        match self.take(into) {
            Ok(given) => Ok(given),
            Err(_) => {
                self.faults = self.faults.saturating_add(1);
                Err(Failed)
            }
        }
    }
}
