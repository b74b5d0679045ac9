use std::alloc::Global;
use sw_outside::FailingPut;

/// What the file `case` says of a connection that comes.
#[derive(Drop)]
pub struct Connection {
    /// The status that it is wanted to be finished with, none where it isn't to be accepted.
    pub status: Option<u8>,
    /// How many bytes each read of it gives at most.
    pub pieces: Vec<usize>,
    pub failing_reads: Vec<u64>,
    pub failing_puts: Vec<FailingPut>,
}

impl Connection {
    /// A connection none of whose calls fails, and whose reads give all that there is room for. It takes no memory.
    pub fn new(alloc: Global, status: Option<u8>) -> Connection {
        Connection {
            status,
            pieces: Vec::new(alloc),
            failing_reads: Vec::new(alloc),
            failing_puts: Vec::new(alloc),
        }
    }
}

/// The bytes of a connection.
#[derive(Drop)]
pub struct Exchange {
    /// What its client sends.
    pub input: Vec<u8>,
    /// What is wanted to be written to it.
    pub output: Vec<u8>,
}
