ghost use Rattle.std.specs.Prelude.{◌≤◌, length};

use std::alloc::Global;
use std::io::{Read, Write};
use std::net::{IpAddr, Ipv4Addr, Shutdown, TcpStream};
use std::test::Fail;
use std::time::Duration;
use std::{io, thread};
use sw_outside::{
    Bytes, Doors, Failed, FailingPut, MemConnection, MemDoors, MemFinished, Sink, Source,
    StoreError,
};
use sw_store::{NoNotes, Patience, TcpDoors};

/// Whether the source gives these bytes and then ends.
fn gives(source: &mut impl Source, wanted: &[u8]) -> Result<bool, Failed> {
    let mut same = true;
    let mut at = 0usize;
    let mut room = [0; 4];
    for _ in 0..64 {
        let given = source.read(&mut room)?;
        if given == 0 {
            break;
        }
        let end = wanted.len().min(at.saturating_add(given));
        same = same && at <= end && wanted[at..end] == room[..given];
        at = end;
    }
    Ok(same && at == wanted.len())
}

/// Whether the source gives what is wanted, and the sink takes the answer.
fn is_answered(
    source: &mut impl Source,
    sink: &mut impl Sink,
    wanted: &[u8],
    answer: &[u8],
) -> Result<bool, Failed> {
    let same = gives(source, wanted)?;
    sink.put(answer)?;
    Ok(same)
}

/// Serves the next connection, and finishes it with this status.
fn serves<D: Doors>(
    doors: &mut D,
    wanted: &[u8],
    answer: &[u8],
    status: u8,
) -> Result<bool, StoreError>
    requires { length (D.finished doors.old) ≤ length (D.accepts doors.old) }
    ensures { length (D.finished doors.new) ≤ length (D.accepts doors.new) }
{
    let (mut input, mut output) = doors.accept()?;
    let answered = is_answered(&mut input, &mut output, wanted, answer);
    doors.finish(input, output, status);
    Ok(answered?)
}

/// Whether all that the client gets is this.
fn hears(alloc: Global, client: &mut TcpStream, wanted: &[u8]) -> bool {
    let mut answer = Vec::new(alloc);
    client.read_to_end(&mut answer).is_ok() && answer.as_slice() == wanted
}

/// A client of these doors that has sent its bytes and ends there.
fn client(rt: &HostRuntime, port: u16, bytes: &[u8]) -> io::Result<TcpStream> {
    let mut stream = TcpStream::connect(rt, (Ipv4Addr::LOCALHOST, port))?;
    stream.write_all(bytes)?;
    stream.shutdown(Shutdown::Write)?;
    Ok(stream)
}

/// Doors of the host.
type HostDoors<'a> = TcpDoors<'a, HostRuntime, NoNotes>;

/// The port at which it is listened, where only this host itself reaches it.
fn own_port(doors: &HostDoors<'_>) -> Result<u16, Fail> {
    let address = doors.address().ok_or("no address")?;
    if address.ip() != IpAddr::V4(Ipv4Addr::LOCALHOST) {
        return Err(Fail::from("it is listened at another address"));
    }
    Ok(address.port())
}

#[test]
fn clients_are_answered_over_sockets(rt: HostRuntime) -> Result<(), Fail> {
    let alloc = rt.alloc();
    let mut doors = TcpDoors::new(&rt, &NoNotes);
    assert!(rt; serves(&mut doors, b"", b"", 0) == Err(StoreError::Failed));
    assert!(rt; doors.listen(0) == Ok(()));
    let port = own_port(&doors)?;
    assert!(rt; TcpDoors::new(&rt, &NoNotes).listen(port) == Err(Failed));
    assert!(rt; doors.listen(port) == Err(Failed));
    let mut first = client(&rt, port, b"first question")?;
    let mut second = client(&rt, port, b"")?;
    assert!(rt; serves(&mut doors, b"first question", b"first answer", 0) == Ok(true));
    assert!(rt; serves(&mut doors, b"", b"second answer", 8) == Ok(true));
    assert!(rt; hears(alloc, &mut first, b"first answer"));
    assert!(rt; hears(alloc, &mut second, b"second answer"));
    Ok(())
}

/// Two seconds for a request, or for each 4 bytes of it.
fn quick() -> Patience {
    Patience {
        time: Duration::from_secs(2),
        bytes: 4,
    }
}

/// What a client does, each time when more than half of the time has gone, and whether it is then read; or what is replied.
#[derive(Clone, Copy)]
enum Move<'a> {
    Sends(&'a [u8]),
    IsLate(&'a [u8]),
    IsAnswered,
}

use Move::{IsAnswered, IsLate, Sends};

/// Whether each read goes as it should.
fn all_go(
    rt: &HostRuntime,
    input: &mut impl Source,
    output: &mut impl Sink,
    client: &mut TcpStream,
    moves: &[Move],
) -> bool {
    let mut room = [0; 8];
    let mut well = true;
    for step in moves {
        match *step {
            Sends(bytes) => {
                well = well
                    && client.write_all(bytes).is_ok()
                    && input.read(&mut room) == Ok(bytes.len());
            }
            IsLate(bytes) => {
                well = well
                    && client.write_all(bytes).is_ok()
                    && input.read(&mut room) == Err(Failed);
            }
            IsAnswered => well = well && output.put(b"answer") == Ok(()),
        }
        thread::sleep(rt, Duration::from_millis(1200));
    }
    well
}

/// Connects a client, accepts it, and looks whether each read of what it sends goes as it should.
fn goes<D: Doors>(rt: &HostRuntime, doors: &mut D, port: u16, moves: &[Move]) -> bool
    requires { length (D.finished doors.old) ≤ length (D.accepts doors.old) }
    ensures { length (D.finished doors.new) ≤ length (D.accepts doors.new) }
{
    let Ok(mut client) = TcpStream::connect(rt, (Ipv4Addr::LOCALHOST, port)) else {
        return false;
    };
    let Ok((mut input, mut output)) = doors.accept() else {
        return false;
    };
    let gone = all_go(rt, &mut input, &mut output, &mut client, moves);
    doors.finish(input, output, 0);
    gone
}

// A second byte comes in time, and a third one doesn't, but where enough came before it, or it was answered meanwhile.
#[test]
fn a_client_that_sends_a_byte_now_and_then_is_not_waited_for(rt: HostRuntime) -> Result<(), Fail> {
    let mut doors = TcpDoors::patient(&rt, &NoNotes, quick());
    assert!(rt; doors.listen(0) == Ok(()));
    let port = own_port(&doors)?;
    let late = [Sends(b"a"), Sends(b"b"), IsLate(b"c")];
    let enough = [Sends(b"a"), Sends(b"bcd"), Sends(b"e")];
    let answered = [Sends(b"a"), Sends(b"b"), IsAnswered, Sends(b"c")];
    assert!(rt; goes(&rt, &mut doors, port, &late));
    assert!(rt; goes(&rt, &mut doors, port, &enough));
    assert!(rt; goes(&rt, &mut doors, port, &answered));
    Ok(())
}

#[test]
fn a_silent_client_is_not_waited_for(rt: HostRuntime) -> Result<(), Fail> {
    let mut doors = TcpDoors::patient(&rt, &NoNotes, quick());
    assert!(rt; doors.listen(0) == Ok(()));
    let port = own_port(&doors)?;
    let silent = TcpStream::connect(&rt, (Ipv4Addr::LOCALHOST, port))?;
    let mut other = client(&rt, port, b"question")?;
    assert!(rt; serves(&mut doors, b"", b"", 1) == Err(StoreError::Failed));
    assert!(rt; serves(&mut doors, b"question", b"answer", 0) == Ok(true));
    assert!(rt; hears(rt.alloc(), &mut other, b"answer"));
    drop(silent);
    Ok(())
}

/// Accepts a connection, and puts pieces until one isn't taken: whether that comes before 64 MiB were, which is more than a host keeps for a client.
fn is_stopped<D: Doors>(doors: &mut D) -> Result<bool, StoreError>
    requires { length (D.finished doors.old) ≤ length (D.accepts doors.old) }
{
    let (input, mut output) = doors.accept()?;
    let piece = [0; 65536];
    let mut stopped = false;
    for _ in 0..1024 {
        if output.put(&piece).is_err() {
            stopped = true;
            break;
        }
    }
    doors.finish(input, output, 4);
    Ok(stopped)
}

#[test]
fn a_client_that_takes_nothing_is_not_waited_for(rt: HostRuntime) -> Result<(), Fail> {
    let mut doors = TcpDoors::patient(&rt, &NoNotes, quick());
    assert!(rt; doors.listen(0) == Ok(()));
    let port = own_port(&doors)?;
    let idle = TcpStream::connect(&rt, (Ipv4Addr::LOCALHOST, port))?;
    assert!(rt; is_stopped(&mut doors) == Ok(true));
    drop(idle);
    Ok(())
}

/// Connections whose clients send this; of the second the first put fails.
fn connections(alloc: Global) -> Result<Vec<MemConnection>, Fail> {
    let mut connections = Vec::new(alloc);
    let texts: [(&[u8], bool); 2] = [(b"first question", false), (b"second", true)];
    for (text, fails) in texts {
        connections.push(connection(alloc, text, fails)?)?;
    }
    Ok(connections)
}

fn connection(alloc: Global, text: &[u8], fails: bool) -> Result<MemConnection, Fail> {
    let mut failing_puts = Vec::new(alloc);
    if fails {
        failing_puts.push(FailingPut { call: 0, taken: 2 })?;
    }
    Ok(MemConnection {
        bytes: Bytes::copy(alloc, text)?,
        pieces: vec![in alloc; 3, 1]?,
        failing_reads: Vec::new(alloc),
        failing_puts,
    })
}

/// Whether the connection ended with this status, having taken this.
fn ended_with(finished: Option<&MemFinished>, status: u8, taken: &[u8]) -> bool {
    match finished {
        Some(finished) => finished.status == status && finished.sink.bytes() == taken,
        None => false,
    }
}

#[test]
fn doors_in_memory_keep_how_each_connection_ended(rt: HostRuntime) -> Result<(), Fail> {
    let alloc = rt.alloc();
    let failing = vec![in alloc; 1]?;
    let mut doors = MemDoors::new(alloc, connections(alloc)?, failing);
    assert!(rt; serves(&mut doors, b"", b"", 0) == Err(StoreError::Failed));
    assert!(rt; doors.listen(8080) == Err(Failed));
    assert!(rt; serves(&mut doors, b"", b"", 0) == Err(StoreError::Failed));
    assert!(rt; doors.listen(8081) == Ok(()));
    assert_eq!(rt; doors.port(), Some(8081));
    assert!(rt; serves(&mut doors, b"first question", b"answer", 3) == Ok(true));
    assert!(rt; serves(&mut doors, b"second", b"answer", 4) == Err(StoreError::Failed));
    assert!(rt; serves(&mut doors, b"", b"", 0) == Err(StoreError::Failed));
    assert_eq!(rt; doors.finished().len(), 2);
    assert!(rt; ended_with(doors.finished().first(), 3, b"answer"));
    assert!(rt; ended_with(doors.finished().last(), 4, b"an"));
    Ok(())
}
