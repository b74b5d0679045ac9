use crate::line::LineFault;
use std::alloc::{AllocError, AllocFailed};
use std::io;
use sw_outside::NoMemory;
use thiserror::Error;

/// Why the cases couldn't all be run and told of.
#[derive(Debug, Drop, Error)]
pub enum CaseError {
    /// A file or folder of a case couldn't be read.
    #[error("{path}: {error}")]
    Unread {
        path: String,
        error: io::Error,
    },
    /// A case has a file of a name that none of its files has.
    #[error("{path}: a case has no file of this name")]
    UnknownFile {
        path: String,
    },
    /// A line of a file `case` isn't of the format. Lines are counted from 1.
    #[error("{path}:{line}: {fault}")]
    BadLine {
        path: String,
        line: usize,
        fault: LineFault,
    },
    /// A file `case` has no line `status`.
    #[error("{path}: no line says the status that is wanted")]
    NoStatus {
        path: String,
    },
    /// The report couldn't be written, or the words of the command line not be read.
    #[error("{0}")]
    Host(io::Error),
    #[error("out of memory")]
    NoMemory,
}

impl From<io::Error> for CaseError {
    fn from(error: io::Error) -> CaseError {
        CaseError::Host(error)
    }
}

impl From<NoMemory> for CaseError {
    fn from(_error: NoMemory) -> CaseError {
        CaseError::NoMemory
    }
}

impl From<AllocError> for CaseError {
    fn from(_error: AllocError) -> CaseError {
        CaseError::NoMemory
    }
}

impl<T: Drop> From<AllocFailed<T>> for CaseError {
    fn from(_error: AllocFailed<T>) -> CaseError {
        CaseError::NoMemory
    }
}
