ghost use Rattle.std.specs.Prelude.{◌≡◌, ℕ};

use crate::errors::Failed;
use crate::source::Source;
use std::io::Read;

/// Any of std's readers as a source. It tells what the reader tells, and counts the reads and those that failed.
#[derive(Drop)]
pub struct ReaderSource<R: Read + Drop> {
    reader: R,
    faults: u64,
    calls: u64,
    number: u64,
}

impl<R: Read + Drop> ReaderSource<R> {
    pub fn new(reader: R) -> ReaderSource<R>
        ensures { result ≡ record { reader = reader; faults = 0; calls = 0; number = 0 } }
    {
        ReaderSource {
            reader,
            faults: 0,
            calls: 0,
            number: 0,
        }
    }

    /// The number of the connection that it is an end of, 0 where it is none of any.
    pub fn number(&self) -> u64
        ensures { result ≡ self.now.number }
    {
        self.number
    }

    /// The same as an end of the connection of this number.
    pub fn of_connection(self, number: u64) -> ReaderSource<R>
        ensures { result ≡ record self { number = number } }
    {
        ReaderSource { number, ..self }
    }

    /// How many reads there were, failed ones too. The count stands still at 2^64 - 1.
    pub fn calls(&self) -> u64
        ensures { result ≡ self.now.calls }
    {
        self.calls
    }

    /// How many of them failed. The count stands still at 2^64 - 1.
    pub fn faults(&self) -> u64
        ensures { result ≡ self.now.faults }
    {
        self.faults
    }
}

impl<R: Read + Drop> Source for ReaderSource<R> {
    ghost left = { λ s. R.remaining s.reader };

    ghost faults = { λ s. s.faults };

    ghost calls = { λ s. s.calls };

    ghost number = { λ s. s.number };

    fn read(&mut self, into: &mut [u8]) -> Result<usize, Failed> {
        self.calls = self.calls.saturating_add(1);
        match self.reader.read(into) {
            Ok(given) => Ok(given),
            Err(_) => {
                self.faults = self.faults.saturating_add(1);
                Err(Failed)
            }
        }
    }
}
