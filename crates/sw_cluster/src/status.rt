ghost use Rattle.std.specs.Prelude.{◌≡◌};
ghost use Rattle.sw_cluster.specs.Ending.{status_by};
ghost use Rattle.sw_cluster.specs.Report.{line_of as line_of_status, ring_line as ring_line_of};

use sw_ring::BadRing;
use sw_session::SessionFault;

/// The input was read to its end.
pub const COMPLETE: u8 = 0;
/// A read of the input failed.
pub const READ_FAULT: u8 = 1;
/// The words are those of no command.
pub const USAGE: u8 = 2;
/// The ring's text is refused.
pub const BAD_RING: u8 = 3;
/// A write of the output failed.
pub const WRITE_FAULT: u8 = 4;
/// The ring couldn't be read from the host, or the volume of an object lock not started.
pub const STORE_FAULT: u8 = 5;
/// The port couldn't be opened, or a connection not be accepted.
pub const DOOR_FAULT: u8 = 6;
/// As many requests were answered as one session has at most.
pub const TOO_LONG: u8 = 7;
/// The rest of the input is no request.
pub const BAD_INPUT: u8 = 8;
/// Memory ran out where the session couldn't go on without it.
pub const NO_MEMORY: u8 = 9;

/// The status of a session, by how it ended.
pub fn status_of(ended: Result<(), SessionFault>) -> u8
    ensures { result ≡ status_by ended }
{
    match ended {
        Ok(()) => COMPLETE,
        Err(SessionFault::ReadFault) => READ_FAULT,
        Err(SessionFault::WriteFault) => WRITE_FAULT,
        Err(SessionFault::TooLong) => TOO_LONG,
        Err(SessionFault::BadInput) => BAD_INPUT,
        Err(SessionFault::ServerFault) => STORE_FAULT,
        Err(SessionFault::NoMemory) => NO_MEMORY,
    }
}

/// The line that says on the error sink how a command ended, with its line feed. A complete one says nothing; what is wrong with a
/// ring is said by [`ring_line`].
pub fn line_of(status: u8) -> &'static [u8]
    ensures { result.now ≡ line_of_status status }
{
    match status {
        READ_FAULT => b"sw: read fault\n",
        USAGE => b"sw: usage\n",
        WRITE_FAULT => b"sw: write fault\n",
        STORE_FAULT => b"sw: store fault\n",
        DOOR_FAULT => b"sw: door fault\n",
        TOO_LONG => b"sw: session too long\n",
        BAD_INPUT => b"sw: bad input\n",
        NO_MEMORY => b"sw: want of memory\n",
        _ => b"",
    }
}

/// The line that says on the error sink what is wrong with a ring, with its line feed.
pub fn ring_line(bad: BadRing) -> [u8; 15]
    ensures { result ≡ ring_line_of bad }
{
    let mut line = *b"sw: bad ring 0\n";
    line[13] += bad.number();
    line
}
