use crate::folders::{end_folder, fresh_folder, place};
use crate::host::{Host, Opens};
use crate::syncs::{change, create};
use std::alloc::Global;
use std::test::Fail;
use sw_hashpath::Place;
use sw_keeper::{Batch, Change, Keeper, Tables};
use sw_outside::Bytes;
use sw_shard_range::{Range, Ranges, is_hidden};

/// A range's bounds, the container of its shard, and its state.
type Kind<'a> = (&'a [u8], &'a [u8], &'a [u8], u8);

/// Ranges with a bound that is no UTF-8 and one of several bytes a character, and the least and the greatest state.
const FIRST: [Kind; 3] = [
    (b"", b"a\xff'", b"c-0", 0),
    (b"a\xff'", b"\xc3\xb6", b"c-1", 60),
    (b"\xc3\xb6", b"", b"c-2", 255),
];

/// The ranges that are put in place of them.
const LATER: [Kind; 1] = [(b"", b"", b"d", 40)];

/// Points of ranges and devices: the least and the greatest.
const POINTS: [(u32, u8, u64); 4] = [
    (0, 0, 0),
    (0, 255, 1),
    (1, 3, 9),
    (4_294_967_295, 255, 9_223_372_036_854_775_807),
];

/// What a container is put to: its ranges, how many of them are closed, and whether its rows are taken away.
#[derive(Clone, Copy)]
struct Step<'a> {
    ranges: &'a [Kind<'a>],
    cursor: u32,
    empties: bool,
}

const STEPS: [Step; 2] = [
    Step {
        ranges: &FIRST,
        cursor: 2,
        empties: false,
    },
    Step {
        ranges: &LATER,
        cursor: 1,
        empties: true,
    },
];

fn range(alloc: Global, kind: Kind<'_>) -> Result<Range, Fail> {
    let (lower, upper, container, state) = kind;
    let shard = Place {
        account: Bytes::copy(alloc, b".shards_AUTH_test")?,
        container: Bytes::copy(alloc, container)?,
        hash: [state; 16],
    };
    if !is_hidden(&shard) {
        return Err(Fail::from("the account is not hidden"));
    }
    Ok(Range {
        lower: Bytes::copy(alloc, lower)?,
        upper: Bytes::copy(alloc, upper)?,
        shard,
        state,
    })
}

fn ranges(alloc: Global, kinds: &[Kind<'_>]) -> Result<Ranges, Fail> {
    let mut list = Vec::new(alloc);
    for kind in kinds {
        list.push(range(alloc, *kind)?)?;
    }
    if list.len() > 10 {
        return Err(Fail::from("too many"));
    }
    Ok(Ranges::new(list)?)
}

/// The batch of a step. The points are put in no order, and one of them is put again.
fn batch_of(alloc: Global, step: Step<'_>) -> Result<Batch, Fail> {
    let mut changes = Vec::new(alloc);
    changes.push(Change::SetRanges(ranges(alloc, step.ranges)?))?;
    changes.push(Change::SetCursor(step.cursor))?;
    if step.empties {
        changes.push(Change::Empty)?;
    }
    for (range, device, rowid) in [(1, 3, 5)].into_iter().chain(POINTS.into_iter().rev()) {
        changes.push(Change::SetPoint {
            range,
            device,
            rowid,
        })?;
    }
    Ok(Batch::from(changes))
}

/// Whether tables are what a step makes of a container with one row.
fn is_made(tables: &Option<Tables>, step: Step<'_>) -> bool {
    let Some(tables) = tables else {
        return false;
    };
    tables.cursor == step.cursor
        && tables.emptied == step.empties
        && tables.rows.len() == usize::from(!step.empties)
        && tables.rows.top() == 1
        && tables.syncs.get(0, 0).is_none()
        && POINTS.iter().all(|(range, device, rowid)| tables.points.get(*range, *device)
            == Some(*rowid))
        && has_kinds(&tables.ranges, step.ranges)
}

fn has_kinds(ranges: &Option<Ranges>, kinds: &[Kind<'_>]) -> bool {
    let Some(ranges) = ranges else {
        return false;
    };
    let list = ranges.as_slice();
    list.len() == kinds.len()
        && list
            .iter()
            .zip(kinds)
            .all(|(range, kind)| is_of(range, *kind))
}

fn is_of(range: &Range, kind: Kind<'_>) -> bool {
    let (lower, upper, container, state) = kind;
    range.lower.as_slice() == lower
        && range.upper.as_slice() == upper
        && range.shard.account.as_slice() == b".shards_AUTH_test".as_slice()
        && range.shard.container.as_slice() == container
        && range.shard.hash == [state; 16]
        && range.state == state
}

/// Whether a keeper puts a container to a step, and a later one finds it so.
fn keeps<O: Opens>(alloc: Global, host: &O, root: &str, step: Step<'_>) -> Result<bool, Fail> {
    let place = place(alloc, "c")?;
    let batch = batch_of(alloc, step)?;
    let mut store = host.open(root)?;
    store.commit(alloc, &place, &batch)?;
    drop(store);
    let mut store = host.open(root)?;
    let tables = store.load(alloc, &place)?;
    Ok(is_made(&tables, step))
}

#[test]
fn a_later_start_finds_ranges_and_what_is_kept_of_them(rt: HostRuntime) -> Result<(), Fail> {
    let root = fresh_folder(&rt, "ranges")?;
    let host = Host { rt: &rt };
    create(rt.alloc(), &host, &root)?;
    for step in STEPS {
        assert!(rt; keeps(rt.alloc(), &host, &root, step)?);
    }
    end_folder(&rt, &root)
}

/// Makes a database one of format 2.
const FORMAT_2: &str =
    "BEGIN; DROP TABLE shard_range; DROP TABLE shard_sync; DROP TABLE sharding; UPDATE format SET version = 2; COMMIT";

#[test]
fn a_database_from_before_there_were_ranges_takes_them(rt: HostRuntime) -> Result<(), Fail> {
    let root = fresh_folder(&rt, "format-2")?;
    let host = Host { rt: &rt };
    create(rt.alloc(), &host, &root)?;
    change(&rt, &root, FORMAT_2)?;
    assert!(rt; has_no_ranges(rt.alloc(), &host, &root)?);
    for step in STEPS {
        assert!(rt; keeps(rt.alloc(), &host, &root, step)?);
    }
    end_folder(&rt, &root)
}

/// Whether a container is found with its row and without ranges.
fn has_no_ranges<O: Opens>(alloc: Global, host: &O, root: &str) -> Result<bool, Fail> {
    let place = place(alloc, "c")?;
    let mut store = host.open(root)?;
    let tables = store.load(alloc, &place)?;
    Ok(tables.is_some_and(|tables| {
        tables.ranges.is_none() && tables.cursor == 0 && !tables.emptied && tables.rows.len() == 1
    }))
}

/// Makes a database one with two ranges, the first of which is closed.
const TWO: &str = "DELETE FROM shard_range; DELETE FROM shard_sync; DELETE FROM sharding; \
    INSERT INTO sharding VALUES (1, 0); \
    INSERT INTO shard_range VALUES (0, '.shards_a', 'c-0', x'00112233445566778899aabbccddeeff', '', 'm', 10); \
    INSERT INTO shard_range VALUES (1, '.shards_a', 'c-1', x'00112233445566778899aabbccddeeff', 'm', '', 60)";

/// What is then changed in it, and whether its tables are told then.
const CASES: [(&str, bool); 20] = [
    ("UPDATE sharding SET cursor = 2, emptied = 1", true),
    (
        "DELETE FROM shard_range; UPDATE sharding SET cursor = 0",
        true,
    ),
    (
        "INSERT INTO shard_sync VALUES (4294967295, 255, 9223372036854775807)",
        true,
    ),
    ("UPDATE shard_range SET lower = 'n' WHERE range = 1", false),
    ("UPDATE shard_range SET upper = 'z' WHERE range = 1", false),
    ("DELETE FROM shard_range WHERE range = 0", false),
    ("DELETE FROM shard_range WHERE range = 1", false),
    (
        "UPDATE shard_range SET account = 'a' WHERE range = 1",
        false,
    ),
    ("UPDATE shard_range SET account = '' WHERE range = 1", false),
    ("UPDATE shard_range SET hash = x'00' WHERE range = 1", false),
    ("UPDATE shard_range SET state = 256 WHERE range = 1", false),
    ("UPDATE shard_range SET state = -1 WHERE range = 1", false),
    ("UPDATE sharding SET cursor = 3", false),
    ("UPDATE sharding SET cursor = -1", false),
    ("DELETE FROM shard_range", false),
    ("UPDATE sharding SET emptied = 1", false),
    ("DELETE FROM sharding", false),
    ("INSERT INTO shard_sync VALUES (4294967296, 3, 1)", false),
    ("INSERT INTO shard_sync VALUES (0, 256, 1)", false),
    ("INSERT INTO shard_sync VALUES (0, 3, -1)", false),
];

/// Whether the tables are told of a database that is made so.
fn is_told_with<O: Opens>(
    rt: &HostRuntime,
    host: &O,
    root: &str,
    statements: &str,
) -> Result<bool, Fail> {
    let alloc = rt.alloc();
    let statements = format!(in alloc; "{TWO}; {statements}")?;
    change(rt, root, &statements)?;
    let place = place(alloc, "c")?;
    let mut store = host.open(root)?;
    Ok(store.load(alloc, &place).is_ok())
}

#[test]
fn ranges_that_none_are_damage_their_database(rt: HostRuntime) -> Result<(), Fail> {
    let root = fresh_folder(&rt, "damaged-ranges")?;
    let host = Host { rt: &rt };
    create(rt.alloc(), &host, &root)?;
    for (statements, is_told) in CASES {
        assert_eq!(rt; is_told_with(&rt, &host, &root, statements)?, is_told);
    }
    end_folder(&rt, &root)
}
