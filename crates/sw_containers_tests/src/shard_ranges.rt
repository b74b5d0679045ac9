use crate::making::{merge, row};
use crate::steps::{place, time};
use std::alloc::Global;
use std::process::Abort;
use std::test::Fail;
use sw_hashpath::{BadName, NameError, Place, Secrets};
use sw_outside::{Bytes, NoMemory};
use sw_rows::Rows;
use sw_shard_range::state::{ACTIVE, CLEAVED, CREATED};
use sw_shard_range::{NotTiled, Range, Ranges, find, is_hidden, laws, shard_name};

/// How many of the live names `a` to `e`, beside the deleted ones `b0` and `f`, a shard has, and the bounds between the shards.
const CUTS: [(u64, &[&str]); 6] = [
    (1, &["a", "b", "c", "d"]),
    (2, &["b", "d"]),
    (3, &["c"]),
    (4, &["d"]),
    (5, &[]),
    (u64::MAX, &[]),
];

/// The ranges of the bounds `b` and `d`.
const RANGES: [(&str, &str); 3] = [("", "b"), ("b", "d"), ("d", "")];

/// Names, and the index of the range of these that each is in.
const PLACES: [(&str, u32); 10] = [
    ("", 0),
    ("a", 0),
    ("b", 0),
    ("b\0", 1),
    ("ba", 1),
    ("c", 1),
    ("d", 1),
    ("d\0", 2),
    ("e", 2),
    ("é", 2),
];

/// Bounds of ranges that aren't all names, each once, and the index of the first that doesn't fit.
const FAULTS: [(&[(&str, &str)], u32); 10] = [
    (&[], 0),
    (&[("a", "")], 0),
    (&[("", "b")], 0),
    (&[("", ""), ("", "")], 0),
    (&[("", "b"), ("c", "d"), ("d", "")], 1),
    (&[("", "b"), ("a", "d"), ("d", "")], 1),
    (&[("", "b"), ("b", "b"), ("b", "")], 1),
    (&[("", "b"), ("b", "a"), ("a", "")], 1),
    (&[("", "b"), ("b", "d"), ("b", "")], 2),
    (&[("", "b"), ("b", "d"), ("d", "f")], 2),
];

/// The indexes of shards of the container `a/c` at time 100, and their containers.
const SHARDS: [(u32, &[u8]); 3] = [
    (0, b"c-4a8a08f09d37b73795649038408b5f33-0000000100.00000-0"),
    (
        10,
        b"c-4a8a08f09d37b73795649038408b5f33-0000000100.00000-10",
    ),
    (
        u32::MAX,
        b"c-4a8a08f09d37b73795649038408b5f33-0000000100.00000-4294967295",
    ),
];

/// How many times `a` and then what other text an account is, and what is wrong with the names of a shard of its container `c`.
const BAD_NAMES: [(usize, &[u8], Option<BadName>); 6] = [
    (248, b"", None),
    (249, b"", Some(BadName::TooLong)),
    (249, b"/", Some(BadName::Slash)),
    (1, b"/", Some(BadName::Slash)),
    (1, b"\xff", Some(BadName::NotText)),
    (0, b"", None),
];

fn secrets(alloc: Global) -> Result<Secrets, NoMemory> {
    Ok(Secrets {
        prefix: Bytes::copy(alloc, b"")?,
        suffix: Bytes::copy(alloc, b"changeme")?,
    })
}

fn rows(rt: &impl Abort, alloc: Global) -> Result<Rows, Fail> {
    let mut rows = Rows::empty(alloc);
    for (name, deleted) in [
        ("e", false),
        ("b", false),
        ("f", true),
        ("a", false),
        ("d", false),
        ("b0", true),
        ("c", false),
    ] {
        merge(rt, alloc, &mut rows, row(alloc, name, 1, 3, deleted)?)?;
    }
    Ok(rows)
}

/// The range of this index with these bounds, and a shard of this place.
fn range(
    alloc: Global,
    place: &Place,
    index: u32,
    (lower, upper): (&str, &str),
) -> Result<Range, NameError> {
    Ok(Range {
        lower: Bytes::copy(alloc, lower.as_bytes())?,
        upper: Bytes::copy(alloc, upper.as_bytes())?,
        shard: shard_name(alloc, &secrets(alloc)?, place, time(10_000_000), index)?,
        state: ACTIVE,
    })
}

fn ranges(alloc: Global, place: &Place, bounds: &[(&str, &str)]) -> Result<Vec<Range>, Fail> {
    let mut list = Vec::new(alloc);
    for (index, bounds) in bounds.iter().enumerate() {
        let Ok(index) = u32::try_from(index) else {
            return Err(Fail::new("too many ranges"));
        };
        list.push(range(alloc, place, index, *bounds)?)?;
    }
    Ok(list)
}

/// The three ranges of the bounds `b` and `d`, each ACTIVE.
pub fn three_ranges(alloc: Global, place: &Place) -> Result<Ranges, Fail> {
    let list = ranges(alloc, place, &RANGES)?;
    if list.len() != RANGES.len() {
        return Err(Fail::new("a range is missing"));
    }
    Ok(Ranges::new(list)?)
}

fn are(bounds: &[Bytes], wanted: &[&str]) -> bool {
    bounds.len() == wanted.len()
        && bounds
            .iter()
            .zip(wanted)
            .all(|(bound, wanted)| bound.as_slice() == wanted.as_bytes())
}

#[test]
fn rows_are_cut_behind_so_many_live_names(rt: HostRuntime) -> Result<(), Fail> {
    let alloc = rt.alloc();
    let rows = rows(&rt, alloc)?;
    for (per_shard, wanted) in CUTS {
        assert!(rt; per_shard >= 1);
        let bounds = find(alloc, &rows, per_shard)?;
        assert!(rt; are(&bounds, wanted), "at {per_shard}");
    }
    laws::bounds_rise();
    Ok(())
}

#[test]
fn each_name_is_in_one_range(rt: HostRuntime) -> Result<(), Fail> {
    let alloc = rt.alloc();
    let ranges = three_ranges(alloc, &place(alloc, b"a")?)?.copy(alloc)?;
    assert_eq!(rt; ranges.len(), 3);
    for (name, index) in PLACES {
        assert_eq!(rt; ranges.range_of(name.as_bytes()), index, "at {name}");
    }
    laws::name_is_in_a_range();
    laws::name_is_in_one_range();
    laws::states_are_swifts();
    Ok(())
}

fn are_in(ranges: &Ranges, states: [u8; 3]) -> bool {
    ranges.as_slice().iter().map(|range| range.state).eq(states)
}

#[test]
fn all_ranges_or_one_come_to_a_state(rt: HostRuntime) -> Result<(), Fail> {
    let alloc = rt.alloc();
    let mut ranges = three_ranges(alloc, &place(alloc, b"a")?)?.all_in_state(CREATED);
    assert!(rt; are_in(&ranges, [20, 20, 20]));
    for (index, states) in [(1, [20, 30, 20]), (3, [20, 30, 20]), (0, [30, 30, 20])] {
        ranges = ranges.with_state(CLEAVED, index);
        assert!(rt; are_in(&ranges, states), "at {index}");
    }
    Ok(())
}

#[test]
fn the_first_range_that_does_not_fit_is_told(rt: HostRuntime) -> Result<(), Fail> {
    let alloc = rt.alloc();
    let place = place(alloc, b"a")?;
    for (bounds, index) in FAULTS {
        let list = ranges(alloc, &place, bounds)?;
        assert!(rt; list.len() <= 3);
        assert!(rt;
            Ranges::new(list).is_err_and(|fault| fault == NotTiled(index)),
            "at {index}"
        );
    }
    Ok(())
}

/// What a shard is called, or what is wrong with its names.
fn is_called(shard: &Result<Place, NameError>, account: &[u8], container: &[u8]) -> bool {
    match shard {
        Ok(shard) => {
            is_hidden(shard)
                && shard.account.as_slice() == account
                && shard.container.as_slice() == container
        }
        Err(_) => false,
    }
}

#[test]
fn shards_have_names_of_their_own(rt: HostRuntime) -> Result<(), Fail> {
    let alloc = rt.alloc();
    let secrets = secrets(alloc)?;
    let place = place(alloc, b"a")?;
    assert!(rt; !is_hidden(&place));
    for (index, container) in SHARDS {
        let shard = shard_name(alloc, &secrets, &place, time(10_000_000), index);
        assert!(rt; is_called(&shard, b".shards_a", container), "at {index}");
    }
    laws::shard_names_differ();
    Ok(())
}

/// A place whose account is `a` so many times, and then this text.
fn long_place(alloc: Global, count: usize, text: &[u8]) -> Result<Place, NoMemory> {
    let mut account = Vec::new(alloc);
    for _ in 0..count {
        account.push(b'a')?;
    }
    account.extend_from_slice(text)?;
    place(alloc, &account)
}

#[test]
fn names_of_shards_are_refused_as_others_are(rt: HostRuntime) -> Result<(), Fail> {
    let alloc = rt.alloc();
    let secrets = secrets(alloc)?;
    for (count, text, wanted) in BAD_NAMES {
        let place = long_place(alloc, count, text)?;
        let fault = match shard_name(alloc, &secrets, &place, time(0), 0) {
            Ok(_) => None,
            Err(NameError::Bad(bad)) => Some(bad),
            Err(NameError::NoMemory) => return Err(NoMemory.into()),
        };
        assert_eq!(rt; fault, wanted, "at {count}");
    }
    Ok(())
}
