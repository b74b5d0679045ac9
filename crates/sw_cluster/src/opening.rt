ghost use Rattle.std.specs.Prelude.{◌≡◌};
ghost use Rattle.sw_outside.specs.Counts.{raised};
ghost use Rattle.sw_stores.specs.Places.{IsAsItWas};
ghost use Rattle.sw_cluster.specs.Opening.{IsOpening};

use std::alloc::Global;
use sw_outside::StoreError;
use sw_ring::{BadRing, Ring, RingError, read};
use sw_stores::Stores;

/// Why a ring wasn't opened.
#[derive(Clone, Copy, Debug, PartialEq, Eq)]
pub enum OpenFault {
    /// The stores failed.
    Failed,
    /// Something is wrong with its text.
    Bad(BadRing),
    NoMemory,
}

/// Opens the ring of a name. The stores are asked once.
pub fn open_ring<S: Stores>(alloc: Global, stores: &mut S, name: &str) -> Result<Ring, OpenFault>
    ensures opening { IsOpening (S.text stores.old name.now) (S.faults stores.old) (S.faults stores.new) result }
    ensures once { S.calls stores.new ≡ raised (S.calls stores.old) }
    ensures rests { IsAsItWas (S.rests stores.old) (S.rests stores.new) }
    ensures out { IsAsItWas (S.out stores.old) (S.out stores.new) }
{
    let text = match stores.ring(alloc, name) {
        Ok(text) => text,
        Err(StoreError::Failed) => return Err(OpenFault::Failed),
        Err(StoreError::NoMemory) => return Err(OpenFault::NoMemory),
    };
    match read(alloc, text.as_slice()) {
        Ok(ring) => Ok(ring),
        Err(RingError::Bad(bad)) => Err(OpenFault::Bad(bad)),
        Err(RingError::NoMemory) => Err(OpenFault::NoMemory),
    }
}
