ghost use Rattle.std.specs.Prelude.{◌≡◌, ℕ, true, false, List, Some, IfOk, OnOk, OnErr};
ghost use Rattle.std.specs.Option.{option_copied};
ghost use Rattle.sw_outside.specs.Counts.{raised};
ghost use Rattle.sw_outside.specs.Supply.{is_failing};
ghost use Rattle.sw_outside.specs.declared.store_error.StoreError.{StoreError};
ghost use Rattle.sw_stores.specs.Places.{is_pair, ComeHome, GoOut, IsAsItWas, IsSameBut};
ghost use Rattle.sw_stores.specs.Rings.{IsGiven, IsStart, text_in};
ghost use Rattle.sw_stores.specs.Shelf.{is_out, IsFresh, rests_in};
ghost use Rattle.sw_stores.specs.Telling.{faults_after, IsKept};
ghost use Rattle.sw_stores.specs.Starting.{StartsFrom};

use crate::part_shelf::PartShelf;
use crate::stores::Stores;
use std::alloc::Global;
use std::marker::Model;
use sw_keeper::MemKeeper;
use sw_outside::{Bytes, StoreError};
use sw_volume::MemVolume;

/// The text of a ring, and the name under which it is found.
#[derive(Debug, Drop)]
pub struct RingText {
    pub name: Bytes,
    pub text: Bytes,
}

/// Stores in memory, which tell the texts of their rings, and the volumes and keepers that rest. Tests choose which calls fail.
#[derive(Debug, Drop)]
pub struct MemStores {
    rings: Vec<RingText>,
    failing: Vec<u64>,
    calls: u64,
    faults: u64,
    parts: PartShelf<(MemVolume, MemKeeper)>,
}

impl Model for MemStores {
    ghost use Rattle.sw_stores.specs.Rings.{StoresState};

    ghost Value = { StoresState };

    ghost view = { λ s. record { rings = s.rings.items; failing = s.failing.items; calls = s.calls; faults = s.faults; parts = s.parts } };
}

impl MemStores {
    /// Stores with these rings, volumes and keepers. The calls of `ring` and `start` whose numbers, counted from 0 over both, are in `failing` fail,
    /// and so does each that asks for a ring that isn't there.
    pub fn new(
        rings: Vec<RingText>,
        failing: Vec<u64>,
        parts: PartShelf<(MemVolume, MemKeeper)>,
    ) -> MemStores
        ensures rings { result.rings ≡ rings.items }
        ensures failing { result.failing ≡ failing.items }
        ensures parts { result.parts ≡ parts }
        ensures counts { (result.calls ≡ 0) × (result.faults ≡ 0) }
    {
        MemStores {
            rings,
            failing,
            calls: 0,
            faults: 0,
            parts,
        }
    }

    /// Ends the stores, and gives their volumes and keepers. It takes no memory.
    pub fn into_parts(self) -> PartShelf<(MemVolume, MemKeeper)>
        ensures { result ≡ self.parts }
    {
        self.parts
    }

    /// Counts a call, and answers whether it is to fail.
    fn begin(&mut self) -> bool
        ensures failing { result ≡ is_failing self.old.failing self.old.calls }
        ensures after { self.new ≡ record self.old { calls = raised self.old.calls } }
    {
        let call = self.calls;
        self.calls = call.saturating_add(1);
        self.failing.contains(&call)
    }

    /// Counts a failure.
    fn fail(&mut self) -> StoreError
        ensures error { result ≡ StoreError.Failed }
        ensures after { self.new ≡ record self.old { faults = raised self.old.faults } }
    {
        self.faults = self.faults.saturating_add(1);
        StoreError::Failed
    }
}

impl Stores for MemStores {
    type V = MemVolume;

    type K = MemKeeper;

    ghost text = { λ s name. Some (text_in s.rings name) };

    ghost faults = { λ s. s.faults };

    ghost calls = { λ s. s.calls };

    ghost rests = { λ s. rests_in s.parts };

    ghost out = { λ s. is_out s.parts };

    ghost first = { IsFresh };

    fn ring(&mut self, alloc: Global, name: &str) -> Result<Bytes, StoreError>
        ensures text { IfOk result (λ bytes. IsKept (Some (text_in self.old.rings name.now)) bytes) }
        ensures kept { (other : List ℕ) → Some (text_in self.new.rings other) ≡ Some (text_in self.old.rings other) }
        ensures rests { IsAsItWas (rests_in self.old.parts) (rests_in self.new.parts) }
        ensures out { IsAsItWas (is_out self.old.parts) (is_out self.new.parts) }
        ensures cause { self.new.faults ≡ faults_after self.old.faults result }
        ensures calls { self.new.calls ≡ raised self.old.calls }
        ensures given { IsGiven self.old name.now result }
        ensures plan { (self.new.rings ≡ self.old.rings) × (self.new.failing ≡ self.old.failing) }
        ensures parts { self.new.parts ≡ self.old.parts }
    {
        if self.begin() {
            return Err(self.fail());
        }
        match text_of(&self.rings, name.as_bytes()) {
            Some(text) => Ok(Bytes::copy(alloc, text)?),
            None => Err(self.fail()),
        }
    }

    fn start(
        &mut self,
        alloc: Global,
        device: u8,
        stripe: u8,
    ) -> Result<(MemVolume, MemKeeper), StoreError>
        requires { is_out self.old.parts device stripe ≡ false }
        ensures part { IfOk result (StartsFrom IsFresh (rests_in self.old.parts device stripe)) }
        ensures out { OnOk result (GoOut (is_pair device stripe) (is_out self.old.parts) (is_out self.new.parts)) }
        ensures others { OnOk result (IsSameBut (is_pair device stripe) (rests_in self.old.parts) (rests_in self.new.parts)) }
        ensures not_out { OnErr result (IsAsItWas (is_out self.old.parts) (is_out self.new.parts)) }
        ensures rests { OnErr result (IsAsItWas (rests_in self.old.parts) (rests_in self.new.parts)) }
        ensures kept { (other : List ℕ) → Some (text_in self.new.rings other) ≡ Some (text_in self.old.rings other) }
        ensures cause { self.new.faults ≡ faults_after self.old.faults result }
        ensures calls { self.new.calls ≡ raised self.old.calls }
        ensures given { IsStart self.old device stripe result }
        ensures plan { (self.new.rings ≡ self.old.rings) × (self.new.failing ≡ self.old.failing) }
        ensures parts { OnErr result (self.new.parts ≡ self.old.parts) }
    {
        if self.begin() {
            return Err(self.fail());
        }
        match self.parts.take(device, stripe)? {
            Some(part) => Ok(part),
            None => Ok((
                MemVolume::new(alloc, Vec::new(alloc)),
                MemKeeper::new(alloc, Vec::new(alloc)),
            )),
        }
    }

    fn give_back(&mut self, device: u8, stripe: u8, volume: MemVolume, keeper: MemKeeper)
        requires { is_out self.old.parts device stripe ≡ true }
        ensures rests { rests_in self.new.parts device stripe ≡ Some (volume, keeper) }
        ensures others { IsSameBut (is_pair device stripe) (rests_in self.old.parts) (rests_in self.new.parts) }
        ensures home { ComeHome (is_pair device stripe) (is_out self.old.parts) (is_out self.new.parts) }
        ensures kept { (other : List ℕ) → Some (text_in self.new.rings other) ≡ Some (text_in self.old.rings other) }
        ensures faults { self.new.faults ≡ self.old.faults }
        ensures calls { self.new.calls ≡ self.old.calls }
        ensures plan { (self.new.rings ≡ self.old.rings) × (self.new.failing ≡ self.old.failing) }
    {
        self.parts.give_back(device, stripe, (volume, keeper));
    }
}

/// The text of the ring of this name.
fn text_of<'a>(rings: &'a [RingText], name: &[u8]) -> Option<&'a [u8]>
    ensures { option_copied result ≡ text_in rings.now name.now }
{
    let found = rings.iter().find(|ring| ring.name.as_slice() == name);
    found.map(|ring| ring.text.as_slice())
}
