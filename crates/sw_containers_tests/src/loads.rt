use crate::locks::keeper;
use crate::steps::place;
use std::alloc::Global;
use std::test::Fail;
use sw_container_db::ContDir;
use sw_keeper::{Keeper, MemKeeper};
use sw_outside::NoMemory;

/// Reads of containers, one after the other: those of the first so many numbers, and then these again. Then how many calls of the keeper they make:
/// one for each container whose tables aren't loaded. The 65th lets those go that were used longest ago.
const READS: [(u8, &[u8], u64); 4] = [
    (2, &[0, 1, 0, 1, 0, 1], 2),
    (64, &[0, 63, 1], 64),
    (65, &[1, 64, 0], 66),
    (64, &[0, 64, 0, 1], 66),
];

/// A lock whose keeper fails in the call of this number.
fn failing_at(alloc: Global, call: u64) -> Result<ContDir<MemKeeper>, NoMemory> {
    Ok(ContDir::start(alloc, keeper(alloc, &[(call, false)])?, 10))
}

/// Whether the container of this number is read.
fn is_read<K: Keeper + Drop>(
    alloc: Global,
    containers: &mut ContDir<K>,
    number: u8,
) -> Result<bool, NoMemory> {
    let place = place(alloc, &[number])?;
    Ok(containers.times(alloc, &place).is_ok())
}

/// Whether all these are read, and the next call of the keeper fails.
fn are_read<K: Keeper + Drop>(
    alloc: Global,
    containers: &mut ContDir<K>,
    numbers: &[u8],
) -> Result<bool, NoMemory> {
    for number in numbers {
        if !is_read(alloc, containers, *number)? {
            return Ok(false);
        }
    }
    Ok(containers.names(alloc).is_err())
}

#[test]
fn tables_used_last_stay_loaded(rt: HostRuntime) -> Result<(), Fail> {
    let alloc = rt.alloc();
    for (first, again, calls) in &READS {
        let mut containers = failing_at(alloc, *calls)?;
        for number in 0..*first {
            assert!(rt; is_read(alloc, &mut containers, number)?);
        }
        assert!(rt; are_read(alloc, &mut containers, again)?);
    }
    Ok(())
}
