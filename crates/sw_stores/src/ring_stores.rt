ghost use Rattle.std.specs.Prelude.{◌≡◌, [], None};
ghost use Rattle.sw_stores.specs.Shelf.{is_out, IsFresh, rests_in};

use crate::part_shelf::PartShelf;
use crate::stores::Stores;
use std::alloc::Global;
use std::fs;
use std::io::ErrorKind;
use std::rt::Files;
use sw_keeper::SoundKeeper;
use sw_outside::{Bytes, StoreError};
use sw_volume::MemVolume;

/// Stores whose rings are files of the host, by their paths, and whose volumes and keepers are kept in memory. They tell nothing of the rings, and count
/// the reads that failed. No start fails, and no call of a keeper.
#[derive(Drop)]
pub struct RingStores<'a, R: Files + AllocGlobal> {
    rt: &'a R,
    faults: u64,
    calls: u64,
    parts: PartShelf<(MemVolume, SoundKeeper)>,
}

impl<'a, R: Files + AllocGlobal> RingStores<'a, R> {
    /// No call was made, nothing rests, and nothing is out.
    pub fn new(rt: &'a R) -> RingStores<'a, R>
        ensures parts { result.parts ≡ [] }
        ensures counts { (result.calls ≡ 0) × (result.faults ≡ 0) }
    {
        RingStores {
            rt,
            faults: 0,
            calls: 0,
            parts: PartShelf::new(rt.alloc()),
        }
    }
}

impl<R: Files + AllocGlobal> Stores for RingStores<'_, R> {
    type V = MemVolume;

    type K = SoundKeeper;

    ghost text = { λ _ _. None };

    ghost faults = { λ s. s.faults };

    ghost calls = { λ s. s.calls };

    ghost rests = { λ s. rests_in s.parts };

    ghost out = { λ s. is_out s.parts };

    ghost first = { IsFresh };

    fn ring(&mut self, _alloc: Global, name: &str) -> Result<Bytes, StoreError> {
        self.calls = self.calls.saturating_add(1);
        let text = host_ring(self.rt, name);
        if let Err(StoreError::Failed) = text {
            self.faults = self.faults.saturating_add(1);
        }
        text
    }

    fn start(
        &mut self,
        alloc: Global,
        device: u8,
        stripe: u8,
    ) -> Result<(MemVolume, SoundKeeper), StoreError> {
        self.calls = self.calls.saturating_add(1);
        match self.parts.take(device, stripe)? {
            Some(part) => Ok(part),
            None => Ok((
                MemVolume::new(alloc, Vec::new(alloc)),
                SoundKeeper::new(alloc),
            )),
        }
    }

    fn give_back(&mut self, device: u8, stripe: u8, volume: MemVolume, keeper: SoundKeeper) {
        self.parts.give_back(device, stripe, (volume, keeper));
    }
}

/// The text of the host's file of this path. It counts nothing.
pub fn host_ring<R: Files + AllocGlobal>(rt: &R, path: &str) -> Result<Bytes, StoreError> {
    match fs::read(rt, path) {
        Ok(text) => Ok(Bytes::from(text)),
        Err(error) if error.kind() == ErrorKind::OutOfMemory => Err(StoreError::NoMemory),
        Err(_) => Err(StoreError::Failed),
    }
}
