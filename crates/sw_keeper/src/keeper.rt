ghost use Rattle.std.specs.Prelude.{◌≡◌, ℕ, Bool, true, IsSome, IfOk, OnOk};
ghost use Rattle.sw_outside.specs.Counts.{raised};
ghost use Rattle.sw_keeper.specs.Changes.{IsBatch};
ghost use Rattle.sw_keeper.specs.Keeping.{HasCause, Holdings, IsSame, ListsPlaces, MayChange, Changes, OnFailed, OnNoMemory};

use crate::batch::Batch;
use crate::keeper_error::KeeperError;
use crate::tables::Tables;
use std::alloc::Global;
use sw_hashpath::Place;

/// Where a container node keeps the tables of its containers, each at its place.
///
/// A keeper that tells its tables says so by `tells`; what the clauses say of tables holds of those. Every
/// [`KeeperError::Failed`] raises the count of faults by one, and nothing else does. After [`KeeperError::NoMemory`] nothing
/// has changed.
pub trait Keeper {
    /// Whether the keeper tells what it holds.
    ghost tells: { Self → Bool };

    /// The tables at each place, which mean something only where the keeper tells them.
    ghost holds: { Self → Holdings };

    /// How many calls have failed. The count never falls, and stands still at 2^64 - 1.
    ghost faults: { Self → ℕ };

    /// How many calls there were, failed ones too. The count stands still at 2^64 - 1.
    ghost calls: { Self → ℕ };

    /// The places that are held, deleted containers too, each once, in byte order of account, container and hash.
    fn names(&mut self, alloc: Global) -> Result<Vec<Place>, KeeperError>
        ensures places { IfOk result (λ places. tells self.old ≡ true → ListsPlaces places.items (λ place. IsSome (holds self.old place))) }
        ensures same { tells self.old ≡ true → IsSame (holds self.old) (holds self.new) }
        ensures told { tells self.new ≡ tells self.old }
        ensures cause { HasCause (faults self.old) (faults self.new) result }
        ensures calls { calls self.new ≡ raised (calls self.old) };

    /// The tables at a place, or `None` where nothing is held there.
    fn load(&mut self, alloc: Global, place: &Place) -> Result<Option<Tables>, KeeperError>
        ensures tables { IfOk result (λ tables. tells self.old ≡ true → tables ≡ holds self.old place.now) }
        ensures same { tells self.old ≡ true → IsSame (holds self.old) (holds self.new) }
        ensures told { tells self.new ≡ tells self.old }
        ensures cause { HasCause (faults self.old) (faults self.new) result }
        ensures calls { calls self.new ≡ raised (calls self.old) };

    /// Makes all changes of a batch at a place, in their order. After [`KeeperError::Failed`] either all were made or none.
    ///
    /// Where the keeper tells its tables, the batch fits them: it sets the times first where nothing is held at the place,
    /// puts a row only under a new number and a name without a row, and cuts only numbers that have one.
    fn commit(&mut self, alloc: Global, place: &Place, batch: &Batch) -> Result<(), KeeperError>
        requires fits { tells self.old ≡ true → IsBatch (holds self.old place.now) batch.now }
        ensures ok { OnOk result (tells self.old ≡ true → Changes (holds self.old) (holds self.new) place.now batch.now) }
        ensures failed { OnFailed result (tells self.old ≡ true → MayChange (holds self.old) (holds self.new) place.now batch.now) }
        ensures no_memory { OnNoMemory result (tells self.old ≡ true → IsSame (holds self.old) (holds self.new)) }
        ensures told { tells self.new ≡ tells self.old }
        ensures cause { HasCause (faults self.old) (faults self.new) result }
        ensures calls { calls self.new ≡ raised (calls self.old) };
}
