use crate::locks::keeper;
use crate::making::row;
use crate::many::rows_of;
use crate::steps::{is_told, place, time};
use std::alloc::Global;
use std::test::Fail;
use sw_container_db::ContDir;
use sw_container_steps::ContAnswer;
use sw_hashpath::Place;
use sw_keeper::{Keeper, MemKeeper};
use sw_listing::Query;
use sw_outside::NoMemory;

/// The step or read that comes next to a lock that has a doubt.
#[derive(Clone, Copy, Debug)]
enum Next {
    Create,
    Remove,
    Row,
    Rows,
    Sync,
    Times,
    Info,
    List,
    Parcel,
    Names,
}

const NEXTS: [Next; 10] = [
    Next::Create,
    Next::Remove,
    Next::Row,
    Next::Rows,
    Next::Sync,
    Next::Times,
    Next::Info,
    Next::List,
    Next::Parcel,
    Next::Names,
];

fn is_absent(answer: &ContAnswer) -> bool {
    matches!(answer, ContAnswer::Absent)
}

/// A lock that is in doubt of the creation of this container at time 1, which was made, or wasn't.
fn in_doubt(alloc: Global, place: &Place, made: bool) -> Result<ContDir<MemKeeper>, NoMemory> {
    let mut containers = ContDir::start(alloc, keeper(alloc, &[(1, made)])?, 10);
    let _ = containers.create(alloc, place, time(1));
    Ok(containers)
}

/// Whether the next step comes to what it does at a container that was created at time 1, as the first entry of its journal.
fn comes_over_one<K: Keeper + Drop>(
    alloc: Global,
    containers: &mut ContDir<K>,
    place: &Place,
    next: Next,
) -> Result<bool, NoMemory> {
    Ok(match next {
        Next::Create => is_told(&containers.create(alloc, place, time(1)), "There", 1),
        Next::Remove => is_told(&containers.remove(alloc, place, time(2)), "Done", 2),
        Next::Row => {
            let row = row(alloc, "o", 1, 3, false)?;
            is_told(&containers.merge_row(alloc, place, row), "Done", 2)
        }
        Next::Rows => {
            let rows = rows_of(alloc, 9)?;
            is_told(&containers.merge_rows(alloc, place, rows), "Done", 10)
        }
        Next::Sync => is_told(&containers.set_sync(alloc, place, 1, 7), "Done", 2),
        Next::Times => containers
            .times(alloc, place)
            .is_ok_and(|times| times == Some((time(1), None))),
        Next::Info => containers
            .info(alloc, place)
            .is_ok_and(|info| info.front == 1),
        Next::List => {
            let query = Query::read(alloc, b"").map_err(|_| NoMemory)?;
            containers.list(alloc, place, &query).is_ok()
        }
        Next::Parcel => containers
            .sync_rows(alloc, place, 1)
            .is_ok_and(|parcel| parcel.top == 0),
        Next::Names => containers
            .names(alloc)
            .is_ok_and(|places| places.len() == 1),
    })
}

/// Whether it comes to what it does where no container was ever created.
fn comes_over_none<K: Keeper + Drop>(
    alloc: Global,
    containers: &mut ContDir<K>,
    place: &Place,
    next: Next,
) -> Result<bool, NoMemory> {
    Ok(match next {
        Next::Create => is_told(&containers.create(alloc, place, time(1)), "New", 1),
        Next::Remove => is_absent(&containers.remove(alloc, place, time(2))),
        Next::Row => {
            let row = row(alloc, "o", 1, 3, false)?;
            is_absent(&containers.merge_row(alloc, place, row))
        }
        Next::Rows => {
            let rows = rows_of(alloc, 9)?;
            is_absent(&containers.merge_rows(alloc, place, rows))
        }
        Next::Sync => is_absent(&containers.set_sync(alloc, place, 1, 7)),
        Next::Times => containers
            .times(alloc, place)
            .is_ok_and(|times| times.is_none()),
        Next::Info => {
            containers
                .info(alloc, place)
                .is_err_and(|answer| is_absent(&answer))
        }
        Next::List => {
            let query = Query::read(alloc, b"").map_err(|_| NoMemory)?;
            containers
                .list(alloc, place, &query)
                .is_err_and(|answer| is_absent(&answer))
        }
        Next::Parcel => containers
            .sync_rows(alloc, place, 1)
            .is_err_and(|answer| is_absent(&answer)),
        Next::Names => containers
            .names(alloc)
            .is_ok_and(|places| places.is_empty()),
    })
}

#[test]
fn each_next_step_settles_what_was_made(rt: HostRuntime) -> Result<(), Fail> {
    let alloc = rt.alloc();
    let place = place(alloc, b"a")?;
    for next in NEXTS {
        let mut containers = in_doubt(alloc, &place, true)?;
        assert!(rt;
            comes_over_one(alloc, &mut containers, &place, next)?,
            "{next:?}"
        );
    }
    Ok(())
}

#[test]
fn each_next_step_settles_what_was_not_made(rt: HostRuntime) -> Result<(), Fail> {
    let alloc = rt.alloc();
    let place = place(alloc, b"a")?;
    for next in NEXTS {
        let mut containers = in_doubt(alloc, &place, false)?;
        assert!(rt;
            comes_over_none(alloc, &mut containers, &place, next)?,
            "{next:?}"
        );
    }
    Ok(())
}
