use crate::making::row;
use std::alloc::Global;
use std::test::Fail;
use sw_hashpath::Place;
use sw_keeper::{Batch, Change, Keeper, KeeperError, MemKeeper};
use sw_outside::{Bytes, FailingCall, NoMemory};
use sw_timestamp::Timestamp;

fn place(alloc: Global, container: &[u8]) -> Result<Place, NoMemory> {
    Ok(Place {
        account: Bytes::copy(alloc, b"a")?,
        container: Bytes::copy(alloc, container)?,
        hash: [0; 16],
    })
}

fn time(units: u64) -> Timestamp {
    Timestamp::from_units(units).unwrap_or(Timestamp::from_units(0).unwrap())
}

/// Gives a container its times.
fn begin(
    alloc: Global,
    keeper: &mut MemKeeper,
    container: &[u8],
    units: u64,
) -> Result<(), KeeperError> {
    let times = Change::Times {
        put_time: time(units),
        delete_time: None,
    };
    let batch = Batch::from(vec![in alloc; times]?);
    keeper.commit(alloc, &place(alloc, container)?, &batch)
}

/// The put time that a container has, or 0 where it isn't held.
fn put_time(alloc: Global, keeper: &mut MemKeeper, container: &[u8]) -> Result<u64, KeeperError> {
    let tables = keeper.load(alloc, &place(alloc, container)?)?;
    Ok(tables.map_or(0, |tables| tables.put_time.units()))
}

/// Calls one after another: the container, the put time that it is to have, whether the commit is to fail, and the put time
/// that it has then. Each commit is followed by a load.
const COMMITS: [(&[u8], u64, bool, u64); 4] = [
    (b"d", 5, false, 5),
    (b"c", 6, true, 0),
    (b"c", 7, true, 7),
    (b"d", 8, false, 8),
];

#[test]
fn batches_are_made_whole_or_not_at_all(rt: HostRuntime) -> Result<(), Fail> {
    let alloc = rt.alloc();
    let failing = vec![in alloc;
        FailingCall {
            call: 2,
            made: false
        },
        FailingCall {
            call: 4,
            made: true
        },
        FailingCall {
            call: 9,
            made: true
        },
    ]?;
    let mut keeper = MemKeeper::new(alloc, failing);
    for (container, units, fails, after) in COMMITS {
        let failed = begin(alloc, &mut keeper, container, units) == Err(KeeperError::Failed);
        assert_eq!(rt; failed, fails);
        assert_eq!(rt; put_time(alloc, &mut keeper, container)?, after);
    }
    let places = keeper.names(alloc)?;
    assert!(rt; are_named(&places, &[b"c", b"d"]));
    assert!(rt; keeper.names(alloc).is_err());
    Ok(())
}

fn are_named(places: &[Place], containers: &[&[u8]]) -> bool {
    places.len() == containers.len()
        && places.iter().zip(containers).all(|(place, container)| place.container.as_slice()
            == *container)
}

#[test]
fn rows_are_put_and_cut_by_their_numbers(rt: HostRuntime) -> Result<(), Fail> {
    let alloc = rt.alloc();
    let place = place(alloc, b"c")?;
    let mut keeper = MemKeeper::new(alloc, Vec::new(alloc));
    let old = row(alloc, "o", 1, 3, false)?;
    let new = row(alloc, "o", 2, 4, false)?;
    let batch = Batch::from(vec![in alloc;
        Change::Times {
            put_time: time(1),
            delete_time: Some(time(2))
        },
        Change::PutRow(old, 1),
        Change::CutRow(1),
        Change::PutRow(new, 3),
    ]?);
    keeper.commit(alloc, &place, &batch.copy(alloc)?)?;
    let tables = keeper.load(alloc, &place)?.ok_or("nothing is held")?;
    let tables = tables.copy(alloc)?;
    assert_eq!(rt; tables.delete_time, Some(time(2)));
    assert_eq!(rt;
        (tables.rows.top(), tables.rows.count(), tables.rows.bytes()),
        (3, 1, 4)
    );
    let newest = row(alloc, "o", 3, 5, false)?;
    let batch = Batch::from(vec![in alloc; Change::CutRow(3), Change::PutRow(newest, 4)]?);
    keeper.commit(alloc, &place, &batch)?;
    let tables = keeper.load(alloc, &place)?.ok_or("nothing is held")?;
    assert_eq!(rt;
        (
            tables.rows.top(),
            tables.rows.count(),
            tables.rows.bytes(),
            tables.rows.number_of(b"o")
        ),
        (4, 1, 5, Some(4))
    );
    Ok(())
}
