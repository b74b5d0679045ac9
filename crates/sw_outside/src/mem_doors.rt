ghost use Rattle.std.specs.Prelude.{◌≡◌, ℕ, ◌+◌, ◌<◌, ◌≤◌, [], ◌∷◌, ◌++◌, length, Some, None, Err, IsSome, IfOk, OnOk, OnErr, is_err};
ghost use Rattle.std.specs.Option.{option_copied};
ghost use Rattle.sw_outside.specs.Counts.{raised};
ghost use Rattle.sw_outside.specs.Doors.{accepts_of, finished_of, giving, IsAccepted, IsUntouched, next_of, store_of, supply_of, taking};
ghost use Rattle.sw_outside.specs.Faults.{faults_after, HasCause, HasRisen};
ghost use Rattle.sw_outside.specs.Supply.{is_failing};
ghost use Rattle.sw_outside.specs.declared.store_error.StoreError.{StoreError};

use crate::bytes::Bytes;
use crate::doors::Doors;
use crate::errors::{Failed, NoMemory};
use crate::mem_sink::{FailingPut, MemSink};
use crate::mem_source::MemSource;
use crate::roll::Roll;
use crate::store_error::StoreError;
use std::alloc::Global;
use std::marker::Model;

/// A connection that is to come: what its client sends, how that is cut into pieces, and which reads and puts fail.
#[derive(Debug, Drop)]
pub struct MemConnection {
    pub bytes: Bytes,
    pub pieces: Vec<usize>,
    pub failing_reads: Vec<u64>,
    pub failing_puts: Vec<FailingPut>,
}

/// A connection that was finished, its status, and how many had been accepted by then.
#[derive(Debug, Drop)]
pub struct MemFinished {
    pub among: usize,
    pub source: MemSource,
    pub sink: MemSink,
    pub status: u8,
}

/// Doors in memory, which tell all bytes. Tests choose the connections that come, and which calls fail. Where it isn't listened, and where all
/// connections were accepted, an accept fails as well.
#[derive(Debug, Drop)]
pub struct MemDoors {
    alloc: Global,
    connections: Vec<MemConnection>,
    failing: Vec<u64>,
    calls: u64,
    faults: u64,
    port: Option<u16>,
    finished: Roll<MemFinished>,
}

impl Model for MemDoors {
    ghost use Rattle.std.specs.Prelude.{◌≤◌, length};
    ghost use Rattle.sw_outside.specs.Doors.{MemDoorsState};

    ghost Value = { MemDoorsState };

    ghost view = { λ d. record {
      connections = d.connections.items;
      failing = d.failing.items;
      calls = d.calls;
      faults = d.faults;
      port = d.port;
      accepted = d.finished.promised;
      finished = d.finished.items;
    } };

    ghost invariant = { λ d. d.finished.promised ≤ length d.connections.items };
}

impl MemDoors {
    /// Doors to which these connections come, in order. The calls of `listen` and `accept` whose numbers, counted from 0 over both, are in
    /// `failing` fail.
    pub fn new(alloc: Global, connections: Vec<MemConnection>, failing: Vec<u64>) -> MemDoors
        ensures { result ≡ record {
          connections = connections.items;
          failing = failing.items;
          calls = 0;
          faults = 0;
          port = None;
          accepted = 0;
          finished = [];
        } }
    {
        MemDoors {
            alloc,
            connections,
            failing,
            calls: 0,
            faults: 0,
            port: None,
            finished: Roll::new(alloc),
        }
    }

    /// The port at which it was listened last.
    pub fn port(&self) -> Option<u16>
        ensures { result ≡ self.now.port }
    {
        self.port
    }

    /// The connections that were finished, in that order.
    pub fn finished(&self) -> &[MemFinished]
        ensures { result.now ≡ self.now.finished }
    {
        self.finished.items()
    }

    /// Counts a call, and answers whether it is to fail.
    fn begin(&mut self) -> bool
        ensures failing { result ≡ is_failing self.old.failing self.old.calls }
        ensures after { self.new ≡ record self.old { calls = raised self.old.calls } }
    {
        let call = self.calls;
        self.calls = call.saturating_add(1);
        self.failing.contains(&call)
    }

    /// Counts a failure.
    fn fail(&mut self) -> Failed
        ensures after { self.new ≡ record self.old { faults = raised self.old.faults } }
        ensures later { self.old.faults ≤ self.new.faults }
        ensures risen { HasRisen self.old.faults self.new.faults }
    {
        self.faults = self.faults.saturating_add(1);
        Failed
    }

    /// The connection that comes next, where it is listened.
    fn next(&self) -> Option<&MemConnection>
        ensures { option_copied result ≡ next_of self.now }
    {
        match self.port {
            Some(_) => self.connections.get(self.finished.promised()),
            None => None,
        }
    }
}

impl Doors for MemDoors {
    type In = MemSource;

    type Out = MemSink;

    ghost accepts = { accepts_of };

    ghost finished = { finished_of };

    ghost faults = { λ d. d.faults };

    ghost calls = { λ d. d.calls };

    fn listen(&mut self, port: u16) -> Result<(), Failed>
        ensures accepts { accepts_of self.new ≡ accepts_of self.old }
        ensures finished { finished_of self.new ≡ finished_of self.old }
        ensures cause { HasCause self.old.faults self.new.faults result }
        ensures calls { self.new.calls ≡ raised self.old.calls }
        ensures fails { is_err result ≡ is_failing self.old.failing self.old.calls }
        ensures ok { OnOk result (self.new ≡ record self.old { calls = raised self.old.calls; port = Some port }) }
        ensures err { OnErr result (self.new ≡ record self.old { calls = raised self.old.calls; faults = raised self.old.faults }) }
    {
        if self.begin() {
            return Err(self.fail());
        }
        self.port = Some(port);
        Ok(())
    }

    fn accept(&mut self) -> Result<(MemSource, MemSink), StoreError>
        ensures accepted { IfOk result (λ ends. accepts_of self.new ≡ accepts_of self.old
            ++ record { number = length (accepts_of self.old) + 1; source = giving ends.0; sink = taking ends.1 } ∷ []) }
        ensures numbers { IfOk result (λ ends. (ends.0.number ≡ length (accepts_of self.old) + 1) × (ends.1.number ≡ length (accepts_of self.old) + 1)) }
        ensures untouched { IfOk result (λ ends. IsUntouched (Some ends.1.bytes)) }
        ensures none { OnErr result (accepts_of self.new ≡ accepts_of self.old) }
        ensures finished { finished_of self.new ≡ finished_of self.old }
        ensures cause { self.new.faults ≡ faults_after self.old.faults result }
        ensures calls { self.new.calls ≡ raised self.old.calls }
        ensures given { IsAccepted self.old result }
        ensures ok { OnOk result (self.new ≡ record self.old { calls = raised self.old.calls; accepted = self.old.accepted + 1 }) }
        ensures err { OnErr result (self.new ≡ record self.old { calls = raised self.old.calls; faults = faults_after self.old.faults result }) }
    {
        if self.begin() {
            return Err(self.fail().into());
        }
        match self.next() {
            Some(connection) => {
                let number = self.finished.promised() as u64 + 1;
                let ends = ends_of(self.alloc, connection, number)?;
                self.finished.promise()?;
                Ok(ends)
            }
            None => Err(self.fail().into()),
        }
    }

    fn finish(&mut self, input: MemSource, output: MemSink, status: u8)
        requires { length (finished_of self.old) < length (accepts_of self.old) }
        ensures finished { finished_of self.new ≡ finished_of self.old ++ record {
          read_at = input.number;
          written_at = output.number;
          among = length (accepts_of self.old);
          source = giving input;
          sink = taking output;
          status = status;
        } ∷ [] }
        ensures accepts { accepts_of self.new ≡ accepts_of self.old }
        ensures faults { self.new.faults ≡ self.old.faults }
        ensures calls { self.new.calls ≡ self.old.calls }
        ensures after { self.new ≡ record self.old {
          finished = self.old.finished ++ record {
            among = self.old.accepted;
            source = input;
            sink = output;
            status = status;
          } ∷ [];
        } }
    {
        self.finished.add(MemFinished {
            among: self.finished.promised(),
            source: input,
            sink: output,
            status,
        });
    }
}

/// The ends of a connection, before their first calls.
fn ends_of(
    alloc: Global,
    connection: &MemConnection,
    number: u64,
) -> Result<(MemSource, MemSink), NoMemory>
    ensures { IfOk result (λ ends. (ends.0 ≡ supply_of number connection.now) × (ends.1 ≡ store_of number connection.now)) }
{
    let bytes = Bytes::copy(alloc, connection.bytes.as_slice())?;
    let pieces = Vec::from_slice(alloc, &connection.pieces)?;
    let failing_reads = Vec::from_slice(alloc, &connection.failing_reads)?;
    let failing_puts = Vec::from_slice(alloc, &connection.failing_puts)?;
    Ok((
        MemSource::new(bytes, pieces, failing_reads).of_connection(number),
        MemSink::new(alloc, failing_puts).of_connection(number),
    ))
}
