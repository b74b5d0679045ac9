ghost use Rattle.std.specs.Prelude.{◌≡◌, IfOk};

use crate::errors::NoMemory;
use crate::sequence::TryCopy;
use std::alloc::Global;
use std::marker::Model;

/// A byte string that owns its bytes. Contracts see it as the list of them.
#[derive(Debug, Drop)]
pub struct Bytes {
    vec: Vec<u8>,
}

impl Model for Bytes {
    ghost use Rattle.std.specs.Prelude.{ℕ, List};

    ghost Value = { List ℕ };

    ghost view = { λ b. b.vec.items };
}

impl Bytes {
    /// A copy of these bytes, or [`NoMemory`].
    pub fn copy(alloc: Global, bytes: &[u8]) -> Result<Bytes, NoMemory>
        ensures { IfOk result (λ copy. copy ≡ bytes.now) }
    {
        Ok(Bytes {
            vec: Vec::from_slice(alloc, bytes)?,
        })
    }

    pub fn as_slice(&self) -> &[u8]
        ensures { result.now ≡ self.now }
    {
        &self.vec
    }
}

/// Moves the bytes: no memory is taken.
impl From<Vec<u8>> for Bytes {
    ghost from_gives = { λ vec bytes. bytes ≡ vec.items };

    fn from(vec: Vec<u8>) -> Bytes {
        Bytes { vec }
    }
}

/// Gives the bytes back: no memory is taken.
impl From<Bytes> for Vec<u8> {
    ghost from_gives = { λ bytes vec. vec.items ≡ bytes };

    fn from(bytes: Bytes) -> Vec<u8> {
        bytes.vec
    }
}

impl TryCopy for Bytes {
    fn try_copy(&self, alloc: Global) -> Result<Bytes, NoMemory> {
        Bytes::copy(alloc, self.as_slice())
    }
}
