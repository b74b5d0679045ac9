ghost use Rattle.std.specs.Prelude.{◌≡◌, ◌≤◌, ◌↔◌, true, false, Some, None, Err, IsSome, IsErr, IfOk, OnOk, OnErr};
ghost use Rattle.sw_outside.specs.Faults as outside;
ghost use Rattle.sw_outside.specs.Counts.{raised};
ghost use Rattle.sw_outside.specs.Failing.{failure_at};
ghost use Rattle.sw_volume.specs.MemState.{GoesAs};
ghost use Rattle.sw_volume.specs.Tree.{contents};
ghost use Rattle.sw_volume.specs.Volume.{IsSame, Sets, MaySet, ListsAll, IsFileIn, IsFolderIn, HasCause, OnFailed, OnNoMemory};

use crate::errors::VolumeError;
use crate::tree::Tree;
use crate::volume::{Listing, Volume};
use std::alloc::Global;
use std::marker::Model;
use sw_outside::{Bytes, Failed, FailingCall, failure_of};

/// A volume in memory, which tells what it holds. Tests choose which calls fail: each of these fails, and no other does. One
/// whose change is to be made all the same may find no memory for it, and then makes nothing and isn't counted as failed. The
/// time of a call grows with the logarithm of the number of files, and with what the call takes and answers.
#[derive(Debug, Drop)]
pub struct MemVolume {
    tree: Tree,
    failing: Vec<FailingCall>,
    calls: u64,
    faults: u64,
    lists: u64,
}

impl Model for MemVolume {
    ghost use Rattle.sw_volume.specs.MemState.{MemState};

    ghost Value = { MemState };

    ghost view = { λ v. record { folders = v.tree; failing = v.failing.items; calls = v.calls; faults = v.faults; lists = v.lists } };
}

impl MemVolume {
    /// An empty volume whose calls fail as `failing` says.
    pub fn new(alloc: Global, failing: Vec<FailingCall>) -> MemVolume
        ensures empty { IsSame (λ _ _. None) (contents result.folders) }
        ensures failing { result.failing ≡ failing.items }
        ensures counts { (result.calls ≡ 0) × (result.faults ≡ 0) × (result.lists ≡ 0) }
    {
        MemVolume {
            tree: Tree::new(alloc),
            failing,
            calls: 0,
            faults: 0,
            lists: 0,
        }
    }

    /// Counts a call, and answers whether its failure leaves its change made, where it is to fail.
    fn begin(&mut self) -> Option<bool>
        ensures failure { result ≡ failure_at self.old.failing self.old.calls }
        ensures after { self.new ≡ record self.old { calls = raised self.old.calls } }
    {
        let call = self.calls;
        self.calls = call.saturating_add(1);
        failure_of(&self.failing, call)
    }

    /// Counts a failure.
    fn fail(&mut self) -> Failed
        ensures after { self.new ≡ record self.old { faults = raised self.old.faults } }
        ensures later { self.old.faults ≤ self.new.faults }
        ensures risen { outside.HasRisen self.old.faults self.new.faults }
    {
        self.faults = self.faults.saturating_add(1);
        Failed
    }
}

impl Volume for MemVolume {
    ghost tells = { λ _. true };

    ghost holds = { λ v. v.folders };

    ghost faults = { λ v. v.faults };

    ghost calls = { λ v. v.calls };

    ghost lists = { λ v. v.lists };

    fn list(&mut self, alloc: Global, dir: &[u8]) -> Result<Listing, VolumeError>
        ensures files { IfOk result (λ l. true ≡ true → ListsAll l.files (IsFileIn (contents self.old.folders) dir.now)) }
        ensures folders { IfOk result (λ l. true ≡ true → ListsAll l.folders (IsFolderIn (contents self.old.folders) dir.now)) }
        ensures same { true ≡ true → IsSame (contents self.old.folders) (contents self.new.folders) }
        ensures told { true ≡ true }
        ensures cause { HasCause self.old.faults self.new.faults result }
        ensures calls { self.new.calls ≡ raised self.old.calls }
        ensures lists { self.new.lists ≡ raised self.old.lists }
        ensures fails { IsSome (failure_at self.old.failing self.old.calls) ↔ (result ≡ Err VolumeError.Failed) }
        ensures plan { self.new.failing ≡ self.old.failing }
    {
        self.lists = self.lists.saturating_add(1);
        if self.begin().is_some() {
            return Err(self.fail().into());
        }
        Ok(self.tree.list(alloc, dir)?)
    }

    fn read(&mut self, alloc: Global, dir: &[u8], file: &[u8]) -> Result<Option<Bytes>, VolumeError>
        ensures value { IfOk result (λ found. true ≡ true → found ≡ contents self.old.folders dir.now file.now) }
        ensures starved { OnNoMemory result (true ≡ true → IsSome (contents self.old.folders dir.now file.now)) }
        ensures same { true ≡ true → IsSame (contents self.old.folders) (contents self.new.folders) }
        ensures told { true ≡ true }
        ensures cause { HasCause self.old.faults self.new.faults result }
        ensures calls { self.new.calls ≡ raised self.old.calls }
        ensures lists { self.new.lists ≡ self.old.lists }
        ensures fails { IsSome (failure_at self.old.failing self.old.calls) ↔ (result ≡ Err VolumeError.Failed) }
        ensures plan { self.new.failing ≡ self.old.failing }
    {
        if self.begin().is_some() {
            return Err(self.fail().into());
        }
        Ok(self.tree.read(alloc, dir, file)?)
    }

    fn put(
        &mut self,
        alloc: Global,
        dir: &[u8],
        file: &[u8],
        bytes: &[u8],
    ) -> Result<(), VolumeError>
        ensures ok { OnOk result (true ≡ true → Sets (contents self.old.folders) (contents self.new.folders) dir.now file.now (Some bytes.now)) }
        ensures failed { OnFailed result (true ≡ true → MaySet (contents self.old.folders) (contents self.new.folders) dir.now file.now (Some bytes.now)) }
        ensures no_memory { OnNoMemory result (true ≡ true → IsSame (contents self.old.folders) (contents self.new.folders)) }
        ensures told { true ≡ true }
        ensures cause { HasCause self.old.faults self.new.faults result }
        ensures calls { self.new.calls ≡ raised self.old.calls }
        ensures lists { self.new.lists ≡ self.old.lists }
        ensures fails { IsSome (failure_at self.old.failing self.old.calls) → IsErr result }
        ensures unmade { failure_at self.old.failing self.old.calls ≡ Some false → result ≡ Err VolumeError.Failed }
        ensures made { OnFailed result (GoesAs (failure_at self.old.failing self.old.calls) (contents self.old.folders) (contents self.new.folders) dir.now
            file.now (Some bytes.now)) }
        ensures plan { self.new.failing ≡ self.old.failing }
    {
        match self.begin() {
            None => {
                self.tree.put(alloc, dir, file, bytes)?;
                Ok(())
            }
            Some(true) => {
                self.tree.put(alloc, dir, file, bytes)?;
                Err(self.fail().into())
            }
            Some(false) => Err(self.fail().into()),
        }
    }

    fn unlink(&mut self, dir: &[u8], file: &[u8]) -> Result<(), Failed>
        ensures ok { OnOk result (true ≡ true → Sets (contents self.old.folders) (contents self.new.folders) dir.now file.now None) }
        ensures failed { OnErr result (true ≡ true → MaySet (contents self.old.folders) (contents self.new.folders) dir.now file.now None) }
        ensures told { true ≡ true }
        ensures cause { outside.HasCause self.old.faults self.new.faults result }
        ensures calls { self.new.calls ≡ raised self.old.calls }
        ensures lists { self.new.lists ≡ self.old.lists }
        ensures fails { IsSome (failure_at self.old.failing self.old.calls) ↔ IsErr result }
        ensures made { OnErr result (GoesAs (failure_at self.old.failing self.old.calls) (contents self.old.folders) (contents self.new.folders) dir.now
            file.now None) }
        ensures plan { self.new.failing ≡ self.old.failing }
    {
        match self.begin() {
            None => {
                self.tree.unlink(dir, file);
                Ok(())
            }
            Some(true) => {
                self.tree.unlink(dir, file);
                Err(self.fail())
            }
            Some(false) => Err(self.fail()),
        }
    }
}
