ghost use Rattle.std.specs.Prelude.{◌≡◌, ◌≤◌, ℕ, [], true, false, List, Some, None, is_some, codes, IfOk, OnOk, OnErr, string_bytes};
ghost use Rattle.std.specs.Option.{option_map};
ghost use Rattle.sw_outside.specs.Counts.{raised};
ghost use Rattle.sw_store.specs.Folders.{lock_folder, untold};
ghost use Rattle.sw_stores.specs.Places.{is_pair, ComeHome, GoOut, IsAsItWas, IsSameBut};
ghost use Rattle.sw_stores.specs.Shelf.{is_out, rests_in};
ghost use Rattle.sw_stores.specs.Starting.{StartsFrom};
ghost use Rattle.sw_stores.specs.Telling.{faults_after, IsKept};

use crate::claim::claim;
use crate::host_volume::HostVolume;
use crate::layout::Layout;
use std::alloc::Global;
use std::fs::File;
use std::io::ErrorKind;
use std::{fs, io};
use sw_container_store::{ContainerStore, HostDatabases};
use sw_host::{Host, HostCall, Notes, store_error};
use sw_outside::{Bytes, NoMemory, StoreError};
use sw_stores::{PartShelf, Stores};

/// Stores whose rings are files of the host, by their paths, and whose locks are folders of it: `<base>/<device>/<stripe>`, the stripe in two digits. The
/// volume of a lock keeps its objects below that folder, and the keeper its containers. They tell nothing of the rings, and count the calls that failed. What
/// was started once is kept until the stores end.
///
/// The first start makes the process the one owner of the base until the stores end, and looks whether the base was made for the ring that was read last. A
/// base that is missing or empty is made for it. Where another process is the owner, or the base was made for another ring, the start fails.
#[derive(Drop)]
pub struct HostStores<'a, N: Notes> {
    host: Host<'a, HostRuntime, N>,
    base: &'a str,
    owner: u32,
    layout: Option<Layout>,
    lock: Option<File>,
    faults: u64,
    calls: u64,
    parts: PartShelf<(HostVolume<'a, HostRuntime, N>, HostKeeper<'a, N>)>,
}

/// The keeper of a lock: over a database for each of its containers.
pub type HostKeeper<'a, N> = ContainerStore<HostDatabases<'a, N>>;

impl<'a, N: Notes> HostStores<'a, N> {
    /// Stores whose locks are below `swc-data` in the current folder, for the process of this number. No call was made, nothing was started, and nothing is
    /// out. The notes keep why a call failed.
    pub fn new(rt: &'a HostRuntime, notes: &'a N, owner: u32) -> HostStores<'a, N>
        ensures parts { result.parts ≡ [] }
        ensures counts { (result.calls ≡ 0) × (result.faults ≡ 0) }
        ensures base { result.base.now ≡ codes "swc-data" }
        ensures owner { result.owner ≡ owner }
        ensures unread { (is_some result.layout ≡ false) × (is_some result.lock ≡ false) }
    {
        HostStores::below(rt, notes, owner, "swc-data")
    }

    /// Stores whose locks are below this folder.
    pub fn below(rt: &'a HostRuntime, notes: &'a N, owner: u32, base: &'a str) -> HostStores<'a, N>
        ensures parts { result.parts ≡ [] }
        ensures counts { (result.calls ≡ 0) × (result.faults ≡ 0) }
        ensures base { result.base.now ≡ base.now }
        ensures owner { result.owner ≡ owner }
        ensures unread { (is_some result.layout ≡ false) × (is_some result.lock ≡ false) }
    {
        HostStores {
            host: Host { rt, notes },
            base,
            owner,
            layout: None,
            lock: None,
            faults: 0,
            calls: 0,
            parts: PartShelf::new(rt.alloc()),
        }
    }

    /// Opens the volume of a lock, and the keeper beside it, over the folder of this lock, and counts where that failed.
    fn open(
        &mut self,
        alloc: Global,
        device: u8,
        stripe: u8,
    ) -> Result<(HostVolume<'a, HostRuntime, N>, HostKeeper<'a, N>), StoreError>
        ensures untouched { IfOk result (λ part. (part.0.volume.calls ≡ 0) × (part.0.volume.faults ≡ 0) × (part.0.volume.lists ≡ 0)) }
        ensures unasked { IfOk result (λ part. (part.1.calls ≡ 0) × (part.1.faults ≡ 0) × (part.1.opened ≡ [])) }
        ensures root { IfOk result (λ part. string_bytes part.0.volume.disk.root ≡ lock_folder self.old.base.now device stripe) }
        ensures beside { IfOk result (λ part. string_bytes part.1.databases.root ≡ lock_folder self.old.base.now device stripe) }
        ensures power { IfOk result (λ part. Some part.1.databases.power ≡ option_map (λ layout. layout.power) self.old.layout) }
        ensures owned { OnOk result (is_some self.new.lock ≡ true) }
        ensures faults { self.new.faults ≡ faults_after self.old.faults result }
        ensures same { self.new ≡ record self.old { lock = self.new.lock; faults = self.new.faults } }
        ensures held { is_some self.old.lock ≡ true → self.new.lock ≡ self.old.lock }
    {
        let opened = self.open_owned(alloc, device, stripe);
        if let Err(StoreError::Failed) = &opened {
            self.faults = self.faults.saturating_add(1);
        }
        opened
    }

    fn open_owned(
        &mut self,
        alloc: Global,
        device: u8,
        stripe: u8,
    ) -> Result<(HostVolume<'a, HostRuntime, N>, HostKeeper<'a, N>), StoreError>
        ensures untouched { IfOk result (λ part. (part.0.volume.calls ≡ 0) × (part.0.volume.faults ≡ 0) × (part.0.volume.lists ≡ 0)) }
        ensures unasked { IfOk result (λ part. (part.1.calls ≡ 0) × (part.1.faults ≡ 0) × (part.1.opened ≡ [])) }
        ensures root { IfOk result (λ part. string_bytes part.0.volume.disk.root ≡ lock_folder self.old.base.now device stripe) }
        ensures beside { IfOk result (λ part. string_bytes part.1.databases.root ≡ lock_folder self.old.base.now device stripe) }
        ensures power { IfOk result (λ part. Some part.1.databases.power ≡ option_map (λ layout. layout.power) self.old.layout) }
        ensures owned { OnOk result (is_some self.new.lock ≡ true) }
        ensures same { self.new ≡ record self.old { lock = self.new.lock } }
        ensures held { is_some self.old.lock ≡ true → self.new.lock ≡ self.old.lock }
    {
        let power = match self.claimed() {
            Ok(power) => power,
            Err(error) => return Err(store_error(error)),
        };
        let root = root_of(alloc, self.base, device, stripe)?;
        let volume = HostVolume::open(self.host.rt, self.host.notes, root, self.owner)?;
        let beside = root_of(alloc, self.base, device, stripe)?;
        let databases = HostDatabases::new(self.host.rt, self.host.notes, beside, power);
        Ok((volume, ContainerStore::new(alloc, databases)?))
    }

    /// Makes this process the owner of the base, unless it is that, for the ring that was read last, and answers the power of this ring.
    fn claimed(&mut self) -> io::Result<u8>
        ensures power { IfOk result (λ power. Some power ≡ option_map (λ layout. layout.power) self.old.layout) }
        ensures range { IfOk result (λ power. (1 ≤ power) × (power ≤ 16)) }
        ensures owned { OnOk result (is_some self.new.lock ≡ true) }
        ensures same { self.new ≡ record self.old { lock = self.new.lock } }
        ensures held { is_some self.old.lock ≡ true → self.new.lock ≡ self.old.lock }
    {
        let Some(layout) = &self.layout else {
            let none = io::Error::new(ErrorKind::InvalidInput, "no ring was read");
            return self.host.noted(HostCall::Check, self.base, Err(none));
        };
        if self.lock.is_none() {
            self.lock = Some(claim(&self.host, self.base, self.owner, layout)?);
        }
        Ok(layout.power)
    }
}

impl<'a, N: Notes> HostStores<'a, N> {
    ghost use Rattle.sw_store.specs.LayoutOf.{IsLayoutIn};

    /// From now on the layout is that of the ring that a text is, unless this process is the owner of the base.
    fn heed(&mut self, alloc: Global, text: &[u8]) -> Result<(), NoMemory>
        ensures layout { OnOk result (is_some self.old.lock ≡ false → IsLayoutIn self.new.layout text.now) }
        ensures owned { is_some self.old.lock ≡ true → self.new.layout ≡ self.old.layout }
        ensures unread { OnErr result (self.new.layout ≡ self.old.layout) }
        ensures same { self.new ≡ record self.old { layout = self.new.layout } }
    {
        if self.lock.is_none() {
            self.layout = Layout::read(alloc, text)?;
        }
        Ok(())
    }
}

impl<'a, N: Notes> Stores for HostStores<'a, N> {
    ghost use Rattle.sw_store.specs.LayoutOf.{IsLayoutIn};

    type V = HostVolume<'a, HostRuntime, N>;

    type K = HostKeeper<'a, N>;

    ghost text = { λ _ _. untold };

    ghost faults = { λ s. s.faults };

    ghost calls = { λ s. s.calls };

    ghost rests = { λ s. rests_in s.parts };

    ghost out = { λ s. is_out s.parts };

    // What was just opened may hold anything; it is known that no call was made on it, and that none of its databases is open.
    ghost first = { λ part. (part.0.volume.calls ≡ 0) × (part.0.volume.faults ≡ 0) × (part.0.volume.lists ≡ 0)
        × (part.1.calls ≡ 0) × (part.1.faults ≡ 0) × (part.1.opened ≡ []) };

    // The layout is that of the ring that was read, until this process is the owner of the base.
    fn ring(&mut self, alloc: Global, name: &str) -> Result<Bytes, StoreError>
        ensures text { IfOk result (λ bytes. IsKept untold bytes) }
        ensures kept { (other : List ℕ) → untold ≡ untold }
        ensures rests { IsAsItWas (rests_in self.old.parts) (rests_in self.new.parts) }
        ensures out { IsAsItWas (is_out self.old.parts) (is_out self.new.parts) }
        ensures cause { self.new.faults ≡ faults_after self.old.faults result }
        ensures calls { self.new.calls ≡ raised self.old.calls }
        ensures layout { IfOk result (λ text. is_some self.old.lock ≡ false → IsLayoutIn self.new.layout text) }
        ensures owned { is_some self.old.lock ≡ true → self.new.layout ≡ self.old.layout }
        ensures unread { OnErr result (self.new.layout ≡ self.old.layout) }
        ensures same { self.new ≡ record self.old { layout = self.new.layout; faults = self.new.faults; calls = self.new.calls } }
    {
        self.calls = self.calls.saturating_add(1);
        let read = fs::read(self.host.rt, name);
        match self.host.noted(HostCall::Read, name, read) {
            Ok(text) => {
                self.heed(alloc, &text)?;
                Ok(Bytes::from(text))
            }
            Err(error) => {
                let error = store_error(error);
                if let StoreError::Failed = error {
                    self.faults = self.faults.saturating_add(1);
                }
                Err(error)
            }
        }
    }

    fn start(
        &mut self,
        alloc: Global,
        device: u8,
        stripe: u8,
    ) -> Result<(HostVolume<'a, HostRuntime, N>, HostKeeper<'a, N>), StoreError>
        requires { is_out self.old.parts device stripe ≡ false }
        ensures part { IfOk result (StartsFrom (λ part. (part.0.volume.calls ≡ 0) × (part.0.volume.faults ≡ 0) × (part.0.volume.lists ≡ 0)
            × (part.1.calls ≡ 0) × (part.1.faults ≡ 0) × (part.1.opened ≡ [])) (rests_in self.old.parts device stripe)) }
        ensures out { OnOk result (GoOut (is_pair device stripe) (is_out self.old.parts) (is_out self.new.parts)) }
        ensures others { OnOk result (IsSameBut (is_pair device stripe) (rests_in self.old.parts) (rests_in self.new.parts)) }
        ensures not_out { OnErr result (IsAsItWas (is_out self.old.parts) (is_out self.new.parts)) }
        ensures rests { OnErr result (IsAsItWas (rests_in self.old.parts) (rests_in self.new.parts)) }
        ensures kept { (other : List ℕ) → untold ≡ untold }
        ensures cause { self.new.faults ≡ faults_after self.old.faults result }
        ensures calls { self.new.calls ≡ raised self.old.calls }
        ensures root { rests_in self.old.parts device stripe ≡ None →
            IfOk result (λ part. string_bytes part.0.volume.disk.root ≡ lock_folder self.old.base.now device stripe) }
        ensures beside { rests_in self.old.parts device stripe ≡ None →
            IfOk result (λ part. string_bytes part.1.databases.root ≡ lock_folder self.old.base.now device stripe) }
        ensures power { rests_in self.old.parts device stripe ≡ None →
            IfOk result (λ part. Some part.1.databases.power ≡ option_map (λ layout. layout.power) self.old.layout) }
        ensures owned { rests_in self.old.parts device stripe ≡ None → OnOk result (is_some self.new.lock ≡ true) }
        ensures same { self.new ≡ record self.old { lock = self.new.lock; faults = self.new.faults; calls = self.new.calls; parts = self.new.parts } }
        ensures held { is_some self.old.lock ≡ true → self.new.lock ≡ self.old.lock }
    {
        self.calls = self.calls.saturating_add(1);
        if self.parts.rests(device, stripe) {
            match self.parts.take(device, stripe)? {
                Some(part) => Ok(part),
                None => unreachable!(),
            }
        } else {
            let part = self.open(alloc, device, stripe)?;
            self.parts.take(device, stripe)?;
            Ok(part)
        }
    }

    fn give_back(
        &mut self,
        device: u8,
        stripe: u8,
        volume: HostVolume<'a, HostRuntime, N>,
        keeper: HostKeeper<'a, N>,
    )
        requires { is_out self.old.parts device stripe ≡ true }
        ensures rests { rests_in self.new.parts device stripe ≡ Some (volume.entry, keeper.entry) }
        ensures others { IsSameBut (is_pair device stripe) (rests_in self.old.parts) (rests_in self.new.parts) }
        ensures home { ComeHome (is_pair device stripe) (is_out self.old.parts) (is_out self.new.parts) }
        ensures kept { (other : List ℕ) → untold ≡ untold }
        ensures faults { self.new.faults ≡ self.old.faults }
        ensures calls { self.new.calls ≡ self.old.calls }
        ensures same { self.new ≡ record self.old { parts = self.new.parts } }
    {
        self.parts.give_back(device, stripe, (volume, keeper));
    }
}

/// The folder of a lock below the base.
pub(crate) fn root_of(alloc: Global, base: &str, device: u8, stripe: u8) -> Result<String, NoMemory>
    ensures { IfOk result (λ root. string_bytes root ≡ lock_folder base.now device stripe) }
{
    let tens = stripe / 10;
    let ones = stripe % 10;
    Ok(format!(in alloc; "{base}/{device}/{tens}{ones}")?)
}
