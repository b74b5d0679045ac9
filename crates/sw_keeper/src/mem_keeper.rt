ghost use Rattle.std.specs.Prelude.{◌≡◌, ◌≢◌, ◌≤◌, ◌↔◌, [], true, false, Some, Err, IsSome, IsErr, IfOk, OnOk};
ghost use Rattle.sw_outside.specs.Counts.{raised};
ghost use Rattle.sw_outside.specs.Failing.{failure_at};
ghost use Rattle.sw_outside.specs.Faults as outside;
ghost use Rattle.sw_keeper.specs.Changes.{IsBatch};
ghost use Rattle.sw_keeper.specs.Keeping.{HasCause, IsSame, ListsPlaces, MayChange, Changes, OnFailed, OnNoMemory};
ghost use Rattle.sw_keeper.specs.MemState.{after_call, after_fault, GoesAs, with_batch};
ghost use Rattle.sw_keeper.specs.Places.{at};

use crate::batch::Batch;
use crate::keeper::Keeper;
use crate::keeper_error::KeeperError;
use crate::shelf::Shelf;
use crate::shelves::{change, load, places};
use crate::tables::Tables;
use std::alloc::Global;
use std::marker::Model;
use sw_hashpath::Place;
use sw_outside::{Failed, FailingCall, failure_of};

/// A keeper in memory, which tells what it holds. Tests choose which calls fail. The time of a call grows with the number of
/// places, with the rows of its place and with what it takes and answers.
#[derive(Debug, Drop)]
pub struct MemKeeper {
    shelves: Vec<Shelf>,
    failing: Vec<FailingCall>,
    calls: u64,
    faults: u64,
}

impl Model for MemKeeper {
    ghost use Rattle.std.specs.List.Sorted.{IsStrictlySortedBy};
    ghost use Rattle.std.specs.Map.{keys_of};
    ghost use Rattle.sw_keeper.specs.MemState.{MemState};
    ghost use Rattle.sw_keeper.specs.Places.{place_cmp};

    ghost Value = { MemState };

    ghost view = { λ k. record { shelves = k.shelves.items; failing = k.failing.items; calls = k.calls; faults = k.faults } };

    ghost invariant = { λ k. IsStrictlySortedBy place_cmp (keys_of k.shelves.items) };
}

impl MemKeeper {
    /// A keeper that holds nothing and whose calls fail as `failing` says. It takes no memory.
    pub fn new(alloc: Global, failing: Vec<FailingCall>) -> MemKeeper
        ensures { result ≡ record { shelves = []; failing = failing.items; calls = 0; faults = 0 } }
    {
        MemKeeper {
            shelves: Vec::new(alloc),
            failing,
            calls: 0,
            faults: 0,
        }
    }

    /// Counts a call, and answers whether its failure leaves its changes made, where it is to fail.
    fn begin(&mut self) -> Option<bool>
        ensures failure { result ≡ failure_at self.old.failing self.old.calls }
        ensures after { self.new ≡ after_call self.old }
    {
        let call = self.calls;
        self.calls = call.saturating_add(1);
        failure_of(&self.failing, call)
    }

    /// Counts a failure.
    fn fail(&mut self) -> Failed
        ensures after { self.new ≡ record self.old { faults = raised self.old.faults } }
        ensures later { self.old.faults ≤ self.new.faults }
        ensures risen { outside.HasRisen self.old.faults self.new.faults }
    {
        self.faults = self.faults.saturating_add(1);
        Failed
    }
}

impl Keeper for MemKeeper {
    ghost tells = { λ _. true };

    ghost holds = { λ k. at k.shelves };

    ghost faults = { λ k. k.faults };

    ghost calls = { λ k. k.calls };

    fn names(&mut self, alloc: Global) -> Result<Vec<Place>, KeeperError>
        ensures places { IfOk result (λ places. true ≡ true → ListsPlaces places.items (λ place. IsSome (at self.old.shelves place))) }
        ensures same { true ≡ true → IsSame (at self.old.shelves) (at self.new.shelves) }
        ensures told { true ≡ true }
        ensures cause { HasCause self.old.faults self.new.faults result }
        ensures calls { self.new.calls ≡ raised self.old.calls }
        ensures plan { IsSome (failure_at self.old.failing self.old.calls) ↔ (result ≡ Err KeeperError.Failed) }
        ensures failed { OnFailed result (self.new ≡ after_fault self.old) }
        ensures else_ { self.new.shelves ≡ self.old.shelves }
        ensures failing { self.new.failing ≡ self.old.failing }
        ensures starved { OnNoMemory result (self.old.shelves ≢ []) }
    {
        if self.begin().is_some() {
            return Err(self.fail().into());
        }
        Ok(places(alloc, &self.shelves)?)
    }

    fn load(&mut self, alloc: Global, place: &Place) -> Result<Option<Tables>, KeeperError>
        ensures tables { IfOk result (λ tables. true ≡ true → tables ≡ at self.old.shelves place.now) }
        ensures same { true ≡ true → IsSame (at self.old.shelves) (at self.new.shelves) }
        ensures told { true ≡ true }
        ensures cause { HasCause self.old.faults self.new.faults result }
        ensures calls { self.new.calls ≡ raised self.old.calls }
        ensures plan { IsSome (failure_at self.old.failing self.old.calls) ↔ (result ≡ Err KeeperError.Failed) }
        ensures failed { OnFailed result (self.new ≡ after_fault self.old) }
        ensures else_ { self.new.shelves ≡ self.old.shelves }
        ensures failing { self.new.failing ≡ self.old.failing }
        ensures starved { OnNoMemory result (IsSome (at self.old.shelves place.now)) }
    {
        if self.begin().is_some() {
            return Err(self.fail().into());
        }
        Ok(load(alloc, &self.shelves, place)?)
    }

    fn commit(&mut self, alloc: Global, place: &Place, batch: &Batch) -> Result<(), KeeperError>
        requires fits { true ≡ true → IsBatch (at self.old.shelves place.now) batch.now }
        ensures ok { OnOk result (true ≡ true → Changes (at self.old.shelves) (at self.new.shelves) place.now batch.now) }
        ensures failed { OnFailed result (true ≡ true → MayChange (at self.old.shelves) (at self.new.shelves) place.now batch.now) }
        ensures no_memory { OnNoMemory result (true ≡ true → IsSame (at self.old.shelves) (at self.new.shelves)) }
        ensures told { true ≡ true }
        ensures cause { HasCause self.old.faults self.new.faults result }
        ensures calls { self.new.calls ≡ raised self.old.calls }
        ensures plan { IsSome (failure_at self.old.failing self.old.calls) → IsErr result }
        ensures made { OnOk result (self.new ≡ record (after_call self.old) { shelves = with_batch self.old.shelves place.now batch.now }) }
        ensures planned { OnFailed result (GoesAs (failure_at self.old.failing self.old.calls) self.old self.new place.now batch.now) }
        ensures starved { OnNoMemory result (self.new ≡ after_call self.old) }
        ensures unplanned { OnNoMemory result (failure_at self.old.failing self.old.calls ≢ Some false) }
    {
        match self.begin() {
            None => {
                change(alloc, &mut self.shelves, place, batch)?;
                Ok(())
            }
            Some(true) => {
                change(alloc, &mut self.shelves, place, batch)?;
                Err(self.fail().into())
            }
            Some(false) => Err(self.fail().into()),
        }
    }
}
