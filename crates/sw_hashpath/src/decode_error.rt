ghost use Rattle.std.specs.Prelude.{◌≡◌};
ghost use Rattle.sw_hashpath.specs.BadFiles.{bad_file_number};
ghost use Rattle.sw_hashpath.specs.declared.decode_error.DecodeError.{DecodeError};

use sw_outside::NoMemory;
use thiserror::Error;

/// What is wrong with the bytes of a file. The first that holds, in this order, is reported.
#[derive(Clone, Copy, Debug, PartialEq, Eq, Error)]
pub enum BadFile {
    /// The bytes begin with the first line of no kind of file.
    #[error("no head of a file")]
    Header,
    /// A line of the head is missing, out of its place or out of its grammar.
    #[error("a bad field in the head of a file")]
    Field,
    /// The body hasn't as many bytes as the head says.
    #[error("the body of a file has another length")]
    Length,
}

impl BadFile {
    /// The number that texts and replies have for this cause: 1, 2 or 3, in the order above.
    pub fn number(&self) -> u8
        ensures { result ≡ bad_file_number self.now }
    {
        match self {
            BadFile::Header => 1,
            BadFile::Field => 2,
            BadFile::Length => 3,
        }
    }
}

/// Why a file wasn't decoded.
#[derive(Clone, Copy, Debug, PartialEq, Eq, Error)]
pub enum DecodeError {
    /// Something is wrong with the bytes.
    #[error("{0}")]
    Bad(BadFile),
    /// Memory ran out.
    #[error("out of memory")]
    NoMemory,
}

impl From<BadFile> for DecodeError {
    ghost from_gives = { λ bad error. error ≡ DecodeError.Bad bad };

    fn from(bad: BadFile) -> DecodeError {
        DecodeError::Bad(bad)
    }
}

impl From<NoMemory> for DecodeError {
    ghost from_gives = { λ _ error. error ≡ DecodeError.NoMemory };

    fn from(_error: NoMemory) -> DecodeError {
        DecodeError::NoMemory
    }
}
