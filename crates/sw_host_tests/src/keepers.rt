use crate::stores::Place;
use crate::volume::{CALLS, OWNER};
use std::alloc::Global;
use std::test::Fail;
use sw_keeper::{Batch, Change, Keeper, KeeperError};
use sw_outside::{Bytes, NoMemory, StoreError};
use sw_store::{HostKeeper, HostStores, NoNotes};
use sw_stores::Stores;
use sw_timestamp::Timestamp;

/// The hash of the container, and where its database stands in a ring of 4 partitions, at a lock of the second device.
const HASH: [u8; 16] = [0xc1; 16];

const DATABASE: &str =
    "data/1/03/containers/3/1c1/c1c1c1c1c1c1c1c1c1c1c1c1c1c1c1c1/c1c1c1c1c1c1c1c1c1c1c1c1c1c1c1c1.db";

fn container(alloc: Global) -> Result<sw_hashpath::Place, NoMemory> {
    Ok(sw_hashpath::Place {
        account: Bytes::copy(alloc, b"AUTH_test")?,
        container: Bytes::copy(alloc, b"c")?,
        hash: HASH,
    })
}

/// A batch that creates a container.
fn creation(alloc: Global) -> Result<Batch, NoMemory> {
    let times = Change::Times {
        put_time: Timestamp::from_units(5).unwrap_or(Timestamp::from_units(0).unwrap()),
        delete_time: None,
    };
    Ok(Batch::from(vec![in alloc; times]?))
}

/// Creates the container at this keeper.
fn created(alloc: Global, keeper: &mut HostKeeper<NoNotes>) -> Result<(), KeeperError> {
    let creation = creation(alloc)?;
    keeper.commit(alloc, &container(alloc)?, &creation)
}

/// Whether that goes well at the keeper of this lock.
fn create(place: &Place<'_>, stripe: u8) -> Result<bool, StoreError> {
    let alloc = place.alloc();
    let mut stores = HostStores::below(place.rt, &NoNotes, OWNER, &place.base);
    stores.ring(alloc, place.ring())?;
    let (volume, mut keeper) = stores.start(alloc, 1, stripe)?;
    let created = created(alloc, &mut keeper);
    stores.give_back(1, stripe, volume, keeper);
    Ok(created.is_ok())
}

/// The put time of the container at a keeper, in units: 0 where it was never created.
fn loaded<K: Keeper>(alloc: Global, keeper: &mut K) -> Result<u64, KeeperError> {
    let tables = keeper.load(alloc, &container(alloc)?)?;
    Ok(tables.map_or(0, |tables| tables.put_time.units()))
}

/// That at the keeper of this lock, in stores that are made anew, where it tells one.
fn put_time(place: &Place<'_>, stripe: u8) -> Result<Option<u64>, StoreError> {
    let alloc = place.alloc();
    let mut stores = HostStores::below(place.rt, &NoNotes, OWNER, &place.base);
    stores.ring(alloc, place.ring())?;
    let (volume, mut keeper) = stores.start(alloc, 1, stripe)?;
    let loaded = loaded(alloc, &mut keeper);
    stores.give_back(1, stripe, volume, keeper);
    Ok(loaded.ok())
}

#[test]
fn containers_of_a_lock_stand_beside_its_objects(rt: HostRuntime) -> Result<(), Fail> {
    let place = Place::new(&rt, "containers")?;
    assert!(rt; create(&place, 3) == Ok(true));
    assert!(rt; place.has(DATABASE));
    assert!(rt; place.goes(3, &CALLS));
    assert!(rt; put_time(&place, 3) == Ok(Some(5)));
    assert!(rt; put_time(&place, 2) == Ok(Some(0)));
    place.end()
}
