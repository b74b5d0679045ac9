ghost use Rattle.std.specs.Prelude.{◌≡◌, ◌≢◌, [], true, IsSome, IfOk};
ghost use Rattle.sw_outside.specs.Counts.{raised};
ghost use Rattle.sw_keeper.specs.Keeping.{HasCause, IsSame, ListsPlaces, OnNoMemory};
ghost use Rattle.sw_keeper.specs.Places.{at};

use crate::batch::Batch;
use crate::keeper::Keeper;
use crate::keeper_error::KeeperError;
use crate::mem_keeper::MemKeeper;
use crate::tables::Tables;
use std::alloc::Global;
use std::marker::Model;
use sw_hashpath::Place;

/// A keeper in memory no call of which fails: its count of faults is the constant 0, so that what rests on a count that rose never comes of it.
#[derive(Debug, Drop)]
pub struct SoundKeeper {
    keeper: MemKeeper,
}

impl Model for SoundKeeper {
    ghost use Rattle.std.specs.Prelude.{◌≡◌, []};
    ghost use Rattle.sw_keeper.specs.MemState.{MemState};

    ghost Value = { MemState };

    ghost view = { λ k. k.keeper };

    ghost invariant = { λ k. k.keeper.failing ≡ [] };
}

impl SoundKeeper {
    /// A keeper that holds nothing. It takes no memory.
    pub fn new(alloc: Global) -> SoundKeeper
        ensures { result ≡ record { shelves = []; failing = []; calls = 0; faults = 0 } }
    {
        SoundKeeper {
            keeper: MemKeeper::new(alloc, Vec::new(alloc)),
        }
    }
}

impl Keeper for SoundKeeper {
    ghost tells = { λ _. true };

    ghost holds = { λ k. at k.shelves };

    ghost faults = { λ _. 0 };

    ghost calls = { λ k. k.calls };

    fn names(&mut self, alloc: Global) -> Result<Vec<Place>, KeeperError>
        ensures places { IfOk result (λ places. true ≡ true → ListsPlaces places.items (λ place. IsSome (at self.old.shelves place))) }
        ensures same { true ≡ true → IsSame (at self.old.shelves) (at self.new.shelves) }
        ensures told { true ≡ true }
        ensures cause { HasCause 0 0 result }
        ensures calls { self.new.calls ≡ raised self.old.calls }
        ensures starved { OnNoMemory result (self.old.shelves ≢ []) }
    {
        self.keeper.names(alloc)
    }

    fn load(&mut self, alloc: Global, place: &Place) -> Result<Option<Tables>, KeeperError>
        ensures tables { IfOk result (λ tables. true ≡ true → tables ≡ at self.old.shelves place.now) }
        ensures same { true ≡ true → IsSame (at self.old.shelves) (at self.new.shelves) }
        ensures told { true ≡ true }
        ensures cause { HasCause 0 0 result }
        ensures calls { self.new.calls ≡ raised self.old.calls }
        ensures starved { OnNoMemory result (IsSome (at self.old.shelves place.now)) }
    {
        self.keeper.load(alloc, place)
    }

    fn commit(&mut self, alloc: Global, place: &Place, batch: &Batch) -> Result<(), KeeperError> {
        self.keeper.commit(alloc, place, batch)
    }
}
