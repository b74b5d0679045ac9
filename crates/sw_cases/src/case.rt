use crate::connection::{Connection, Exchange};
use std::alloc::Global;
use sw_outside::{Bytes, FailingCall, FailingPut};

/// What the file `case` of a case says.
#[derive(Drop)]
pub struct Script {
    /// The words of the command line, without the program's own name.
    pub words: Vec<String>,
    /// How many bytes each read of the input gives at most.
    pub pieces: Vec<usize>,
    pub failing_reads: Vec<u64>,
    pub failing_puts: Vec<FailingPut>,
    pub failing_error_puts: Vec<FailingPut>,
    pub failing_stores: Vec<u64>,
    /// The calls of `listen` and `accept` that fail, counted from 0 over both.
    pub failing_doors: Vec<u64>,
    /// The connections that come, in that order.
    pub connections: Vec<Connection>,
    pub failing_calls: Vec<LockCall>,
    pub failing_keeper_calls: Vec<LockCall>,
    /// The files that stand in volumes before the run.
    pub standing: Vec<LockFile>,
    /// The locks of these calls and files, each once.
    pub locks: Vec<Lock>,
    /// The clock's readings, in seconds since 1970.
    pub clock: Vec<u64>,
    /// The ways in which the case is run again.
    pub again: Vec<Again>,
    /// Bytes of the input between its files `input` and `more-input`.
    pub filling: Option<Filling>,
    pub status: u8,
    /// The line that is wanted on the error sink, without its line feed. An empty one stands for none.
    pub error: String,
    /// The port at which it is wanted to be listened, where the case says it: one number, or none where it isn't to be listened.
    pub port: Option<Vec<u64>>,
    /// The moments of the requests that are wanted in the trail, and how many steps, where the case says them.
    pub moments: Option<Vec<u64>>,
    pub steps: Option<u64>,
    /// The files that are wanted at the end, of the devices of which the case says them.
    pub files: Vec<FilesOf>,
}

impl Script {
    /// The script that an empty file would have, but that it says a status. It takes no memory.
    pub fn new(alloc: Global) -> Script {
        Script {
            words: Vec::new(alloc),
            pieces: Vec::new(alloc),
            failing_reads: Vec::new(alloc),
            failing_puts: Vec::new(alloc),
            failing_error_puts: Vec::new(alloc),
            failing_stores: Vec::new(alloc),
            failing_doors: Vec::new(alloc),
            connections: Vec::new(alloc),
            failing_calls: Vec::new(alloc),
            failing_keeper_calls: Vec::new(alloc),
            standing: Vec::new(alloc),
            locks: Vec::new(alloc),
            clock: Vec::new(alloc),
            again: Vec::new(alloc),
            filling: None,
            status: 0,
            error: String::new(alloc),
            port: None,
            moments: None,
            steps: None,
            files: Vec::new(alloc),
        }
    }
}

/// A lock: the place of a device in the ring's list, and a stripe. Each has a volume, and a keeper.
#[derive(Clone, Copy, Debug, PartialEq, Eq)]
pub struct Lock {
    pub device: u8,
    pub stripe: u8,
}

/// A call of a lock's volume, or of its keeper, that fails. Its number counts from 0 over the calls of the run alone.
#[derive(Clone, Copy, Debug, PartialEq, Eq)]
pub struct LockCall {
    pub lock: Lock,
    pub failing: FailingCall,
}

/// A file of a lock's volume.
#[derive(Drop)]
pub struct LockFile {
    pub lock: Lock,
    pub directory: String,
    pub name: String,
    pub bytes: Bytes,
}

/// The files of a device: the text of their paths.
#[derive(Drop)]
pub struct FilesOf {
    /// The place of the device in the ring's list.
    pub device: u8,
    /// Each path and a line feed, in the order of the bytes of paths.
    pub text: Bytes,
}

/// One byte, many times over: an input that is long and says little.
#[derive(Clone, Copy, Debug, PartialEq, Eq)]
pub struct Filling {
    pub byte: u8,
    pub count: usize,
}

/// A way, or many of one kind, in which a case is run again.
#[derive(Drop)]
pub enum Again {
    /// In pieces of each of these sizes, the last one too.
    Pieces { from: usize, to: usize },
    /// Cut after each number of bytes.
    Cuts(Vec<Mark>),
    /// With each read failing in turn. For each, how many bytes of the output are written by then.
    FailingReads(Vec<usize>),
    /// With each put failing in turn, once it has taken so many bytes. For each, how many bytes of the output are written before it.
    FailingPuts { taken: usize, starts: Vec<usize> },
}

/// A place of the input: how many bytes of the output are written by then, and whether the place stands between requests.
#[derive(Clone, Copy, Debug, PartialEq, Eq)]
pub struct Mark {
    pub input: usize,
    pub output: usize,
    pub is_between: bool,
}

/// A case: what the top call is handed, and what is wanted of it.
#[derive(Drop)]
pub struct Case {
    pub name: String,
    pub script: Script,
    pub input: Vec<u8>,
    pub output: Vec<u8>,
    /// The bytes of each connection of the script, in that order.
    pub exchanges: Vec<Exchange>,
    /// The text of the trail at the end, where the case says it.
    pub trail: Option<Vec<u8>>,
}
