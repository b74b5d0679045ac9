ghost use Rattle.std.specs.Prelude.{◌≡◌, ℕ};

use crate::errors::Failed;
use crate::sink::Sink;
use std::io::Write;

/// Any of std's writers as a sink. It tells what the writer tells, and counts the puts and those that failed.
#[derive(Drop)]
pub struct WriterSink<W: Write + Drop> {
    writer: W,
    faults: u64,
    calls: u64,
    number: u64,
}

impl<W: Write + Drop> WriterSink<W> {
    pub fn new(writer: W) -> WriterSink<W>
        ensures { result ≡ record { writer = writer; faults = 0; calls = 0; number = 0 } }
    {
        WriterSink {
            writer,
            faults: 0,
            calls: 0,
            number: 0,
        }
    }

    /// The number of the connection that it is an end of, 0 where it is none of any.
    pub fn number(&self) -> u64
        ensures { result ≡ self.now.number }
    {
        self.number
    }

    /// The same as an end of the connection of this number.
    pub fn of_connection(self, number: u64) -> WriterSink<W>
        ensures { result ≡ record self { number = number } }
    {
        WriterSink { number, ..self }
    }

    /// How many puts there were, failed ones too. The count stands still at 2^64 - 1.
    pub fn calls(&self) -> u64
        ensures { result ≡ self.now.calls }
    {
        self.calls
    }

    /// How many of them failed. The count stands still at 2^64 - 1.
    pub fn faults(&self) -> u64
        ensures { result ≡ self.now.faults }
    {
        self.faults
    }
}

impl<W: Write + Drop> Sink for WriterSink<W> {
    ghost taken = { λ s. W.contents s.writer };

    ghost faults = { λ s. s.faults };

    ghost calls = { λ s. s.calls };

    ghost number = { λ s. s.number };

    // std's `write_all` says nothing of what was written before a failure, so the loop stands here. A writer that takes
    // nothing of a piece that isn't empty has failed.
    fn put(&mut self, bytes: &[u8]) -> Result<(), Failed> {
        self.calls = self.calls.saturating_add(1);
        let mut done = 0;
        while done < bytes.len() {
            match self.writer.write(&bytes[done..]) {
                Ok(taken) if taken > 0 => done += taken,
                _ => {
                    self.faults = self.faults.saturating_add(1);
                    return Err(Failed);
                }
            }
        }
        Ok(())
    }
}
