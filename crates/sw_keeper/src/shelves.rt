ghost use Rattle.std.specs.Prelude.{◌≡◌, ◌≢◌, ◌<◌, ◌≤◌, [], length, IsSome, IsTrue, IfOk, OnOk, OnErr};
ghost use Rattle.std.specs.List.{prefix_len};
ghost use Rattle.std.specs.List.Sorted.{IsStrictlySortedBy};
ghost use Rattle.std.specs.Map.{keys_of};
ghost use Rattle.std.specs.Ordering.{is_lt};
ghost use Rattle.sw_keeper.specs.Changes.{IsBatch};
ghost use Rattle.sw_keeper.specs.MemState.{with_batch};
ghost use Rattle.sw_keeper.specs.Places.{at, is_place_at, place_cmp};

use crate::batch::Batch;
use crate::order::compare;
use crate::shelf::Shelf;
use crate::tables::Tables;
use std::alloc::Global;
use sw_hashpath::Place;
use sw_outside::NoMemory;

/// The places of the shelves, in their order. Where there is none no memory is taken.
pub(crate) fn places(alloc: Global, shelves: &[Shelf]) -> Result<Vec<Place>, NoMemory>
    ensures ok { IfOk result (λ places. places.items ≡ keys_of shelves.now) }
    ensures starved { OnErr result (shelves.now ≢ []) }
{
    let mut places = Vec::with_capacity(alloc, shelves.len())?;
    for shelf in shelves {
        places.push(shelf.place().copy(alloc)?)?;
    }
    Ok(places)
}

/// The tables at a place. Where nothing is held there no memory is taken.
pub(crate) fn load(
    alloc: Global,
    shelves: &[Shelf],
    place: &Place,
) -> Result<Option<Tables>, NoMemory>
    requires { IsStrictlySortedBy place_cmp (keys_of shelves.now) }
    ensures ok { IfOk result (λ tables. tables ≡ at shelves.now place.now) }
    ensures starved { OnErr result (IsSome (at shelves.now place.now)) }
{
    let index = place_of(shelves, place);
    if is_place_at(shelves, index, place) {
        Ok(Some(shelves[index].tables(alloc)?))
    } else {
        Ok(None)
    }
}

/// Makes all changes of a batch at a place, or none where memory runs out.
pub(crate) fn change(
    alloc: Global,
    shelves: &mut Vec<Shelf>,
    place: &Place,
    batch: &Batch,
) -> Result<(), NoMemory>
    requires sorted { IsStrictlySortedBy place_cmp (keys_of shelves.old.items) }
    requires fits { IsBatch (at shelves.old.items place.now) batch.now }
    ensures ok { OnOk result (shelves.new.items ≡ with_batch shelves.old.items place.now batch.now) }
    ensures err { OnErr result (shelves.new.items ≡ shelves.old.items) }
{
    let index = place_of(shelves, place);
    if is_place_at(shelves, index, place) {
        return shelves[index].change(alloc, batch);
    }
    let mut shelf = Shelf::new(alloc, place.copy(alloc)?);
    shelf.change(alloc, batch)?;
    shelves.insert(index, shelf)?;
    Ok(())
}

/// How many shelves come before a place.
fn place_of(shelves: &[Shelf], place: &Place) -> usize
    requires { IsStrictlySortedBy place_cmp (keys_of shelves.now) }
    ensures place { result ≡ prefix_len (λ s. is_lt (place_cmp s.0 place.now)) shelves.now }
    ensures bound { result ≤ length shelves.now }
{
    shelves.partition_point(|shelf| compare(shelf.place(), place).is_lt())
}

/// Whether the shelf at this index is that of the place.
fn is_place_at(shelves: &[Shelf], index: usize, place: &Place) -> bool
    ensures there { result ≡ is_place_at shelves.now index place.now }
    ensures within { IsTrue result → index < length shelves.now }
{
    match shelves.get(index) {
        Some(shelf) => compare(shelf.place(), place).is_eq(),
        None => false,
    }
}
