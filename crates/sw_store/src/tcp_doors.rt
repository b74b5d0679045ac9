ghost use Rattle.std.specs.Prelude.{◌≡◌, [], None};
ghost use Rattle.sw_store.specs.Connections.{accepts_of, finished_of};

use crate::pace::Patience;
use crate::tcp_sink::TcpSink;
use crate::tcp_source::TcpSource;
use arrayvec::ArrayString;
use std::alloc::Global;
use std::cell::Cell;
use std::io;
use std::io::ErrorKind;
use std::net::{Ipv4Addr, Net, SocketAddr, TcpListener, TcpStream};
use std::rc::Rc;
use std::time::Clock;
use sw_host::{HostCall, Notes, noted, store_error};
use sw_outside::{Doors, Failed, NoMemory, Roll, StoreError};

/// The numbers and the counts of both ends of a connection that was finished, its status, and how many had been accepted by then.
#[derive(Clone, Copy, Debug)]
pub struct TcpFinished {
    pub read_at: u64,
    pub written_at: u64,
    pub among: usize,
    pub reads: u64,
    pub failed_reads: u64,
    pub puts: u64,
    pub failed_puts: u64,
    pub status: u8,
}

/// Doors over the host's TCP sockets, at 127.0.0.1. They tell nothing of bytes. Where it isn't listened an accept fails; where no client comes
/// it waits for ever. The notes keep why a call failed.
#[derive(Drop)]
pub struct TcpDoors<
    'a,
    R: Net<Listener = TcpListener, Stream = TcpStream> + Clock + AllocGlobal,
    N: Notes,
> {
    rt: &'a R,
    notes: &'a N,
    patience: Patience,
    listener: Option<TcpListener>,
    faults: u64,
    calls: u64,
    finished: Roll<TcpFinished>,
}

impl<
    'a,
    R: Net<Listener = TcpListener, Stream = TcpStream> + Clock + AllocGlobal,
    N: Notes,
> TcpDoors<'a, R, N> {
    /// No call was made, and no connection was accepted. A client has a minute for a request, or for each 64 KiB of it.
    pub fn new(rt: &'a R, notes: &'a N) -> TcpDoors<'a, R, N>
        ensures roll { result.finished ≡ record { items = []; promised = 0 } }
        ensures counts { (result.calls ≡ 0) × (result.faults ≡ 0) }
    {
        TcpDoors::patient(rt, notes, Patience::of_a_minute())
    }

    /// The same with clients of which this is asked. Its time isn't zero.
    pub fn patient(rt: &'a R, notes: &'a N, patience: Patience) -> TcpDoors<'a, R, N>
        ensures roll { result.finished ≡ record { items = []; promised = 0 } }
        ensures counts { (result.calls ≡ 0) × (result.faults ≡ 0) }
    {
        TcpDoors {
            rt,
            notes,
            patience,
            listener: None,
            faults: 0,
            calls: 0,
            finished: Roll::new(rt.alloc()),
        }
    }

    /// Where it is listened, where the host tells it.
    pub fn address(&self) -> Option<SocketAddr> {
        match &self.listener {
            Some(listener) => listener.local_addr().ok(),
            None => None,
        }
    }

    /// The port at which it is listened, where the host tells it.
    pub fn port(&self) -> Option<u16> {
        self.address().map(|address| address.port())
    }
}

impl<'a, R: Net<Listener = TcpListener, Stream = TcpStream> + Clock + AllocGlobal, N: Notes> Doors
    for TcpDoors<'a, R, N> {
    type In = TcpSource<'a, R>;

    type Out = TcpSink<'a, R>;

    ghost accepts = { λ d. accepts_of d.finished.promised };

    ghost finished = { λ d. finished_of d.finished.items };

    ghost faults = { λ d. d.faults };

    ghost calls = { λ d. d.calls };

    fn listen(&mut self, port: u16) -> Result<(), Failed> {
        self.calls = self.calls.saturating_add(1);
        let bound = TcpListener::bind(self.rt, (Ipv4Addr::LOCALHOST, port));
        match noted(self.notes, HostCall::Listen, &address_text(port), bound) {
            Ok(listener) => {
                self.listener = Some(listener);
                Ok(())
            }
            Err(_) => {
                self.faults = self.faults.saturating_add(1);
                Err(Failed)
            }
        }
    }

    // The record of the connection has its room from now on, so that finishing it takes no memory. Where there is none, it is closed.
    fn accept(&mut self) -> Result<(TcpSource<'a, R>, TcpSink<'a, R>), StoreError> {
        self.calls = self.calls.saturating_add(1);
        let accepted = next(&self.listener, self.patience);
        match noted(self.notes, HostCall::Accept, "127.0.0.1", accepted) {
            Ok((input, output)) => {
                let (replied, told) = shared(self.rt.alloc())?;
                self.finished.promise()?;
                let number = self.finished.promised() as u64;
                Ok((
                    TcpSource::new(self.rt, input, self.patience, replied, number),
                    TcpSink::new(self.rt, output, self.patience, told, number),
                ))
            }
            Err(error) => {
                let error = store_error(error);
                if let StoreError::Failed = error {
                    self.faults = self.faults.saturating_add(1);
                }
                Err(error)
            }
        }
    }

    // Letting both ends go closes the connection.
    fn finish(&mut self, input: TcpSource<'a, R>, output: TcpSink<'a, R>, status: u8) {
        self.finished.add(TcpFinished {
            read_at: input.number(),
            written_at: output.number(),
            among: self.finished.promised(),
            reads: input.calls(),
            failed_reads: input.faults(),
            puts: output.calls(),
            failed_puts: output.faults(),
            status,
        });
    }
}

/// The ends of the next connection, where it is listened.
fn next(listener: &Option<TcpListener>, patience: Patience) -> io::Result<(TcpStream, TcpStream)> {
    let Some(listener) = listener else {
        return Err(io::Error::from(ErrorKind::NotConnected));
    };
    let (stream, _) = listener.accept()?;
    stream.set_nodelay(true)?;
    stream.set_read_timeout(Some(patience.time))?;
    stream.set_write_timeout(Some(patience.time))?;
    let output = stream.try_clone()?;
    Ok((stream, output))
}

/// What the two ends of a connection share: whether a reply was written since it was last read.
fn shared(alloc: Global) -> Result<(Rc<Cell<bool>>, Rc<Cell<bool>>), NoMemory> {
    let Ok(replied) = Rc::new(alloc, Cell::new(false)) else {
        return Err(NoMemory);
    };
    let told = replied.clone()?;
    Ok((replied, told))
}

/// The address of a port, as it is told.
fn address_text(port: u16) -> ArrayString<24> {
    let mut text = ArrayString::new();
    let mut digits = itoa::Buffer::new();
    let _ = text.try_push_str("127.0.0.1:");
    let _ = text.try_push_str(digits.format(port));
    text
}
