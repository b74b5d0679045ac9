ghost use Rattle.std.specs.Prelude.{◌≡◌};

use arrayvec::ArrayString;
use std::cell::{Cell, RefCell};
use std::fmt::Write as _;
use std::io::Write;
use std::time::{Clock, Duration};
use std::{fmt, io};

/// A call on the host.
#[derive(Clone, Copy, Debug, PartialEq, Eq)]
pub enum HostCall {
    /// Waiting for a connection, and making it ready.
    Accept,
    /// Running a statement that changes a database.
    ChangeDatabase,
    /// Comparing what is there with what is wanted.
    Check,
    Create,
    ListFolder,
    Listen,
    /// Making this process the one owner of a folder.
    Lock,
    /// Looking whether something is there.
    Look,
    MakeFolder,
    /// Making the path of a file: it is refused where a name in it is none, or where it is too long.
    Name,
    /// Opening a database, which looks at the whole of it.
    OpenDatabase,
    Read,
    ReadDatabase,
    Remove,
    Rename,
    SyncFile,
    SyncFolder,
    Write,
}

impl HostCall {
    /// What it does, in words.
    pub fn words(self) -> &'static str {
        match self {
            HostCall::Accept => "accept at",
            HostCall::ChangeDatabase => "change database",
            HostCall::Check => "check",
            HostCall::Create => "create",
            HostCall::ListFolder => "list folder",
            HostCall::Listen => "listen at",
            HostCall::Lock => "lock",
            HostCall::Look => "look for",
            HostCall::MakeFolder => "make folder",
            HostCall::Name => "name a file in",
            HostCall::OpenDatabase => "open database",
            HostCall::Read => "read",
            HostCall::ReadDatabase => "read database",
            HostCall::Remove => "remove",
            HostCall::Rename => "rename to",
            HostCall::SyncFile => "sync file",
            HostCall::SyncFolder => "sync folder",
            HostCall::Write => "write",
        }
    }
}

/// Where an operator is told which call on the host failed, and why. That is no part of the output: no contract says what is told, and what is told changes
/// nothing. It is made of the call, a path and the host's words alone, so that nothing of a client's bytes is in it.
pub trait Notes {
    /// Keeps that a call on this path failed, and why, in place of what was kept before.
    fn keep(&self, call: HostCall, path: &str, error: &io::Error);

    /// Tells what is kept.
    fn tell(&self);
}

/// What a call on the host answered; where it failed that is kept.
pub fn noted<T, N: Notes>(
    notes: &N,
    call: HostCall,
    path: &str,
    answer: io::Result<T>,
) -> io::Result<T>
    ensures { result ≡ answer }
{
    if let Err(error) = &answer {
        notes.keep(call, path, error);
    }
    answer
}

/// The text of a line, without its line feed: there is room for a path and the host's words.
type Line = ArrayString<4608>;

/// How many seconds there are at least between two lines.
const PAUSE: u64 = 1;

/// Notes that are lines of a writer: at most one in each second. One that comes sooner is left out, and the next one tells how many were.
#[derive(Drop)]
pub struct LineNotes<W: Write + Drop, C: Clock + Drop> {
    out: RefCell<W>,
    clock: C,
    kept: RefCell<Line>,
    told_at: Cell<Option<Duration>>,
    left_out: Cell<u64>,
}

impl<W: Write + Drop, C: Clock + Drop> LineNotes<W, C> {
    /// Nothing is kept yet.
    pub fn new(out: W, clock: C) -> LineNotes<W, C> {
        LineNotes {
            out: RefCell::new(out),
            clock,
            kept: RefCell::new(Line::new()),
            told_at: Cell::new(None),
            left_out: Cell::new(0),
        }
    }

    /// Tells what is kept, however young the last line is: why the command ends is never left out.
    pub fn tell_now(&self) {
        if let Some(reason) = self.take() {
            self.put_reason(reason);
        }
    }

    /// Tells how many were left out since the last line, where there were any.
    pub fn tell_left_out(&self) {
        let count = self.left_out.replace(0);
        if count > 0 {
            let mut line = Line::new();
            if write!(line, "sw: faults of the host left out: {count}\n").is_ok() {
                self.put(&line);
            }
        }
    }

    /// What is kept, where anything is: it is told once.
    fn take(&self) -> Option<Line> {
        match self.kept.try_replace(Line::new()) {
            Ok(kept) if !kept.as_str().is_empty() => Some(kept),
            _ => None,
        }
    }

    /// Puts a reason as a line, and how many were left out before it.
    fn put_reason(&self, reason: Line) {
        let mut line = reason;
        if write_end(&mut line, self.left_out.replace(0)).is_ok() {
            self.put(&line);
        }
    }

    /// Whether the last line is younger than a second. Where the clock can't be read nothing is left out.
    fn is_too_soon(&self) -> bool {
        let Ok(now) = self.clock.monotonic() else {
            return false;
        };
        if let Some(before) = self.told_at.get() {
            if now.saturating_sub(before) < Duration::from_secs(PAUSE) {
                return true;
            }
        }
        self.told_at.set(Some(now));
        false
    }

    /// Puts a line, in one call where the writer takes it whole. A fault there changes nothing.
    fn put(&self, line: &Line) {
        if let Ok(mut out) = self.out.try_borrow_mut() {
            let _ = out.write_all(line.as_str().as_bytes());
        }
    }
}

impl<W: Write + Drop, C: Clock + Drop> Notes for LineNotes<W, C> {
    fn keep(&self, call: HostCall, path: &str, error: &io::Error) {
        let mut line = Line::new();
        if write_reason(&mut line, call, path, error).is_ok() {
            let _ = self.kept.try_replace(line);
        }
    }

    fn tell(&self) {
        let Some(reason) = self.take() else {
            return;
        };
        if self.is_too_soon() {
            self.left_out.set(self.left_out.get().saturating_add(1));
            return;
        }
        self.put_reason(reason);
    }
}

fn write_reason(line: &mut Line, call: HostCall, path: &str, error: &io::Error) -> fmt::Result {
    let words = call.words();
    write!(line, "sw: {words} {path}: {error}")
}

fn write_end(line: &mut Line, left_out: u64) -> fmt::Result {
    if left_out > 0 {
        write!(line, "; {left_out} more before it")?;
    }
    write!(line, "\n")
}

/// Notes that nobody reads.
#[derive(Clone, Copy, Debug)]
pub struct NoNotes;

impl Notes for NoNotes {
    fn keep(&self, _call: HostCall, _path: &str, _error: &io::Error) {}

    fn tell(&self) {}
}
