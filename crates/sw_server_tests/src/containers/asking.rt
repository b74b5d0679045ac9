//! Requests for containers and what they ask for. Expected statuses and partitions are worked out by hand from the formats and the MD5 of the paths: the
//! partition of /a/c is 0, that of /a/d is 1, and the one of the object /a/d/o would be 3.

use crate::containers::requests::{Asking, request, ring};
use std::alloc::Global;
use std::process::Abort;
use std::test::Fail;
use sw_container_server::{ContAsked, is_for_containers, read_container_request};
use sw_container_steps::ContChange;
use sw_listing::Query;
use sw_ring::Ring;
use sw_rows::Row;

/// The status of a request that is another server's.
const OTHER: u16 = 1;

/// The status of a request that isn't refused.
const TAKEN: u16 = 0;

/// What a request asks for, where it is for this server.
fn asked(alloc: Global, ring: &Ring, asking: &Asking) -> Result<Option<ContAsked>, Fail> {
    let request = request(alloc, asking)?;
    if !is_for_containers(&request) {
        return Ok(None);
    }
    Ok(Some(read_container_request(alloc, ring, &request)?))
}

fn status_of(asked: &Option<ContAsked>) -> u16 {
    match asked {
        None => OTHER,
        Some(ContAsked::Refused(status)) => *status,
        Some(_) => TAKEN,
    }
}

fn assert_statuses(rt: &impl Abort, alloc: Global, table: &[(Asking, u16)]) -> Result<(), Fail> {
    let ring = ring(alloc)?;
    for (asking, status) in table {
        let asked = asked(alloc, &ring, asking)?;
        assert_eq!(rt; status_of(&asked), *status);
    }
    Ok(())
}

/// The field that says that a request is for a row.
const ROW: (&[u8], &[u8]) = (b"X-Swc-Server", b"container");

const TIME: (&[u8], &[u8]) = (b"X-Timestamp", b"5");

const SIZE: (&[u8], &[u8]) = (b"X-Size", b"3");

const TYPE: (&[u8], &[u8]) = (b"X-Content-Type", b"a/b");

const ETAG: (&[u8], &[u8]) = (b"X-Etag", b"900150983CD24FB0D6963F7D28E17f72");

/// A replica that a ring of two replicas hasn't.
const REPLICA: (&[u8], &[u8]) = (b"x-swc-shard-replica", b"2");

#[test]
fn containers_are_refused_in_the_order_of_their_tests(rt: HostRuntime) -> Result<(), Fail> {
    let table: [(Asking, u16); 22] = [
        // Four segments, the first of them behind a slash.
        ((b"PUT", b"/sdb/0/a", b"", &[TIME]), OTHER),
        ((b"PUT", b"x/sdb/0/a/c", b"", &[TIME]), OTHER),
        ((b"PUT", b"/sdb/0/a/c/", b"", &[TIME]), OTHER),
        // The method, the names, the device, the partition, the device's own partitions, the time.
        ((b"POST", b"/sdz/9/a/", b"", &[]), 405),
        ((b"REPLICATE", b"/sdb/0/a/c", b"", &[TIME]), 405),
        ((b"PUT", b"/sdz/9/a/", b"", &[]), 400),
        ((b"PUT", b"/sdz/9/a/c", b"", &[]), 404),
        ((b"PUT", b"/sda/1/a/c", b"", &[]), 400),
        ((b"PUT", b"/sda/00/a/c", b"", &[]), 400),
        ((b"PUT", b"/sda/0/a/c", b"", &[]), 404),
        ((b"PUT", b"/sdb/0/a/c", b"", &[]), 400),
        (
            (b"PUT", b"/sdb/0/a/c", b"", &[(b"X-Timestamp", b"-1")]),
            400,
        ),
        ((b"PUT", b"/sdb/0/a/c", b"limit=x%", &[TIME]), TAKEN),
        ((b"DELETE", b"/sda/0/a/c", b"", &[]), 404),
        ((b"DELETE", b"/sdc/0/a/c", b"", &[]), 400),
        ((b"DELETE", b"/sdc/0/a/c", b"", &[TIME]), TAKEN),
        // A path is cut and then decoded.
        ((b"DELETE", b"/%73dc/%30/%61/%63", b"", &[TIME]), TAKEN),
        ((b"DELETE", b"/sdc/0/a%2Fb/c", b"", &[TIME]), 400),
        ((b"DELETE", b"/sdc/0/a/%FF", b"", &[TIME]), 400),
        // A read has no time.
        ((b"HEAD", b"/sda/0/a/c", b"", &[]), 404),
        ((b"HEAD", b"/sdb/0/a/c", b"limit=10001", &[]), TAKEN),
        ((b"GET", b"/sdb/0/a/c", b"", &[ROW]), TAKEN),
    ];
    assert_statuses(&rt, rt.alloc(), &table)
}

#[test]
fn listings_are_refused_in_the_order_of_their_tests(rt: HostRuntime) -> Result<(), Fail> {
    let table: [(Asking, u16); 14] = [
        (
            (b"GET", b"/sda/0/a/c", b"marker=%FF&limit=10001", &[REPLICA]),
            404,
        ),
        (
            (b"GET", b"/sdb/0/a/c", b"marker=%FF&limit=10001", &[REPLICA]),
            400,
        ),
        (
            (
                b"GET",
                b"/sdb/0/a/c",
                b"limit=10001&delimiter=ab&format=xml",
                &[REPLICA],
            ),
            412,
        ),
        (
            (
                b"GET",
                b"/sdb/0/a/c",
                b"limit=10000&delimiter=ab&format=xml",
                &[REPLICA],
            ),
            412,
        ),
        (
            (b"GET", b"/sdb/0/a/c", b"delimiter=a&format=XML", &[REPLICA]),
            400,
        ),
        (
            (b"GET", b"/sdb/0/a/c", b"limit=ten&format=json", &[REPLICA]),
            400,
        ),
        ((b"HEAD", b"/sdb/0/a/c", b"format=xml", &[REPLICA]), 400),
        (
            (b"GET", b"/sdb/0/a/c", b"", &[(b"X-Swc-Shard-Replica", b"")]),
            400,
        ),
        (
            (
                b"GET",
                b"/sdb/0/a/c",
                b"",
                &[(b"X-Swc-Shard-Replica", b"00")],
            ),
            400,
        ),
        (
            (
                b"GET",
                b"/sdb/0/a/c",
                b"",
                &[(b"X-Swc-Shard-Replica", b"+1")],
            ),
            400,
        ),
        (
            (
                b"GET",
                b"/sdb/0/a/c",
                b"",
                &[REPLICA, (b"X-Swc-Shard-Replica", b"1")],
            ),
            TAKEN,
        ),
        (
            (
                b"HEAD",
                b"/sdb/0/a/c",
                b"",
                &[(b"X-Swc-Shard-Replica", b"0")],
            ),
            TAKEN,
        ),
        ((b"GET", b"/sdb/0/a/c", b"limit=10001&limit=9", &[]), TAKEN),
        ((b"PUT", b"/sdb/0/a/c", b"", &[TIME, REPLICA]), TAKEN),
    ];
    assert_statuses(&rt, rt.alloc(), &table)
}

#[test]
fn rows_are_refused_in_the_order_of_their_tests(rt: HostRuntime) -> Result<(), Fail> {
    let table: [(Asking, u16); 26] = [
        // Five segments or more, and the field that says so.
        (
            (b"PUT", b"/sdb/1/a/d/o", b"", &[TIME, SIZE, TYPE, ETAG]),
            OTHER,
        ),
        (
            (
                b"PUT",
                b"/sdb/1/a/d/o",
                b"",
                &[ROW, (b"x-swc-server", b"Container")],
            ),
            OTHER,
        ),
        ((b"GET", b"/sdz/9/a/d/", b"", &[ROW]), 405),
        ((b"HEAD", b"/sdb/1/a/d/o", b"", &[ROW]), 405),
        ((b"POST", b"/sdb/1/a/d/o", b"", &[ROW, TIME]), 405),
        ((b"PUT", b"/sdz/9/a/d/", b"", &[ROW]), 400),
        ((b"PUT", b"/sdz/9/a/d/%00", b"", &[ROW]), 400),
        ((b"PUT", b"/sdz/9//d/o", b"", &[ROW]), 400),
        ((b"PUT", b"/sdz/9/a/d/o", b"", &[ROW]), 404),
        // The partition is that of the container, and not that of the object.
        ((b"PUT", b"/sda/3/a/d/o", b"", &[ROW]), 400),
        ((b"PUT", b"/sda/1/a/d/o", b"", &[ROW]), 404),
        (
            (b"PUT", b"/sdb/1/a/d/o", b"", &[ROW, SIZE, TYPE, ETAG]),
            400,
        ),
        (
            (b"PUT", b"/sdb/1/a/d/o", b"", &[ROW, TIME, TYPE, ETAG]),
            400,
        ),
        (
            (
                b"PUT",
                b"/sdb/1/a/d/o",
                b"",
                &[ROW, TIME, TYPE, ETAG, (b"X-Size", b"")],
            ),
            400,
        ),
        (
            (
                b"PUT",
                b"/sdb/1/a/d/o",
                b"",
                &[ROW, TIME, TYPE, ETAG, (b"X-Size", b"0000000000000000003")],
            ),
            400,
        ),
        (
            (
                b"PUT",
                b"/sdb/1/a/d/o",
                b"",
                &[ROW, TIME, TYPE, ETAG, (b"X-Size", b"+3")],
            ),
            400,
        ),
        (
            (b"PUT", b"/sdb/1/a/d/o", b"", &[ROW, TIME, SIZE, ETAG]),
            400,
        ),
        (
            (
                b"PUT",
                b"/sdb/1/a/d/o",
                b"",
                &[ROW, TIME, SIZE, ETAG, (b"X-Content-Type", b"")],
            ),
            400,
        ),
        (
            (
                b"PUT",
                b"/sdb/1/a/d/o",
                b"",
                &[ROW, TIME, SIZE, ETAG, (b"X-Content-Type", b"\xff")],
            ),
            400,
        ),
        (
            (b"PUT", b"/sdb/1/a/d/o", b"", &[ROW, TIME, SIZE, TYPE]),
            400,
        ),
        (
            (
                b"PUT",
                b"/sdb/1/a/d/o",
                b"",
                &[
                    ROW,
                    TIME,
                    SIZE,
                    TYPE,
                    (b"X-Etag", b"900150983cd24fb0d6963f7d28e17f7"),
                ],
            ),
            400,
        ),
        (
            (
                b"PUT",
                b"/sdb/1/a/d/o",
                b"",
                &[
                    ROW,
                    TIME,
                    SIZE,
                    TYPE,
                    (b"X-Etag", b"900150983cd24fb0d6963f7d28e17f7g"),
                ],
            ),
            400,
        ),
        (
            (b"PUT", b"/sdb/1/a/d/o", b"", &[ROW, TIME, SIZE, TYPE, ETAG]),
            TAKEN,
        ),
        (
            (
                b"PUT",
                b"/sdc/1/a/d/o/",
                b"",
                &[ROW, TIME, TYPE, ETAG, (b"X-Size", b"000000000000000003")],
            ),
            TAKEN,
        ),
        (
            (b"DELETE", b"/sdb/1/a/d/o", b"", &[ROW, SIZE, TYPE, ETAG]),
            400,
        ),
        ((b"DELETE", b"/sdb/1/a/d/o", b"", &[ROW, TIME]), TAKEN),
    ];
    assert_statuses(&rt, rt.alloc(), &table)
}

/// The MD5 of `abc`, and that of nothing.
const DIGEST: [u8; 16] = [
    0x90, 0x01, 0x50, 0x98, 0x3c, 0xd2, 0x4f, 0xb0, 0xd6, 0x96, 0x3f, 0x7d, 0x28, 0xe1, 0x7f, 0x72,
];

const EMPTY_DIGEST: [u8; 16] = [
    0xd4, 0x1d, 0x8c, 0xd9, 0x8f, 0x00, 0xb2, 0x04, 0xe9, 0x80, 0x09, 0x98, 0xec, 0xf8, 0x42, 0x7e,
];

/// Second 5, in units of 10 microseconds.
const UNITS: u64 = 500_000;

/// The number of a step that one of these requests asks for, at the second device; 0 where it is another one.
fn step_of(asked: &Option<ContAsked>) -> u8 {
    match asked {
        Some(
            ContAsked::Change {
                device: 1,
                place,
                change,
            },
        ) if place.account.as_slice() == b"a".as_slice() => number_of(change),
        Some(ContAsked::Info { device: 1, .. }) => 5,
        Some(
            ContAsked::List {
                device: 1,
                query,
                ..
            },
        ) => number_of_query(query),
        _ => 0,
    }
}

fn number_of(change: &ContChange) -> u8 {
    match change {
        ContChange::Create { time } if time.units() == UNITS => 1,
        ContChange::Remove { time } if time.units() == UNITS => 2,
        ContChange::MergeRow { row } if is_live(row) => 3,
        ContChange::MergeRow { row } if is_deleted(row) => 4,
        _ => 0,
    }
}

fn is_live(row: &Row) -> bool {
    row.name.as_slice() == b"x/y".as_slice()
        && row.created_at.units() == UNITS
        && row.size == 3
        && row.content_type.as_slice() == b"a/b".as_slice()
        && row.etag == DIGEST
        && !row.deleted
}

fn is_deleted(row: &Row) -> bool {
    row.name.as_slice() == b"x/y".as_slice()
        && row.created_at.units() == UNITS
        && row.size == 0
        && row.content_type.as_slice() == b"text/plain".as_slice()
        && row.etag == EMPTY_DIGEST
        && row.deleted
}

fn number_of_query(query: &Query) -> u8 {
    if query.limit == 9 && query.prefix.as_slice() == b"x y".as_slice() && query.json {
        6
    } else {
        0
    }
}

#[test]
fn each_verb_asks_for_its_step(rt: HostRuntime) -> Result<(), Fail> {
    let alloc = rt.alloc();
    let ring = ring(alloc)?;
    let table: [(Asking, u8); 6] = [
        ((b"PUT", b"/sdb/0/a/c", b"", &[TIME]), 1),
        ((b"DELETE", b"/sdb/0/a/c", b"", &[TIME]), 2),
        (
            (
                b"PUT",
                b"/sdb/0/a/c/x%2Fy",
                b"",
                &[ROW, TIME, SIZE, TYPE, ETAG],
            ),
            3,
        ),
        (
            (
                b"DELETE",
                b"/sdb/0/a/c/x/y",
                b"",
                &[ROW, TIME, SIZE, TYPE, ETAG],
            ),
            4,
        ),
        ((b"HEAD", b"/sdb/0/a/c", b"", &[]), 5),
        (
            (
                b"GET",
                b"/sdb/0/a/c",
                b"limit=9&prefix=x+y&format=JSON",
                &[],
            ),
            6,
        ),
    ];
    for (asking, number) in table {
        let asked = asked(alloc, &ring, &asking)?;
        assert_eq!(rt; step_of(&asked), number);
    }
    Ok(())
}

/// The replica of shards that one of these requests asks for, or the status that refuses it.
fn replica_of(asked: &Option<ContAsked>) -> u16 {
    match asked {
        Some(ContAsked::Info { replica, .. }) => u16::from(*replica),
        Some(ContAsked::List { replica, .. }) => u16::from(*replica),
        _ => status_of(asked),
    }
}

const FIRST: (&[u8], &[u8]) = (b"X-Swc-Shard-Replica", b"0");

const SECOND: (&[u8], &[u8]) = (b"X-Swc-Shard-Replica", b"1");

const ZERO_BEFORE: (&[u8], &[u8]) = (b"X-Swc-Shard-Replica", b"01");

#[test]
fn the_replica_of_shards_is_that_of_its_field(rt: HostRuntime) -> Result<(), Fail> {
    let alloc = rt.alloc();
    let ring = ring(alloc)?;
    let table: [(Asking, u16); 10] = [
        ((b"HEAD", b"/sdb/0/a/c", b"", &[]), 0),
        ((b"GET", b"/sdb/0/a/c", b"", &[]), 0),
        ((b"HEAD", b"/sdb/0/a/c", b"", &[FIRST]), 0),
        ((b"GET", b"/sdb/0/a/c", b"", &[FIRST]), 0),
        ((b"HEAD", b"/sdb/0/a/c", b"", &[SECOND]), 1),
        ((b"GET", b"/sdb/0/a/c", b"", &[SECOND]), 1),
        ((b"HEAD", b"/sdb/0/a/c", b"", &[REPLICA]), 400),
        ((b"GET", b"/sdb/0/a/c", b"", &[REPLICA]), 400),
        ((b"HEAD", b"/sdb/0/a/c", b"", &[ZERO_BEFORE]), 400),
        ((b"GET", b"/sdb/0/a/c", b"", &[ZERO_BEFORE]), 400),
    ];
    for (asking, wanted) in table {
        let asked = asked(alloc, &ring, &asking)?;
        assert_eq!(rt; replica_of(&asked), wanted);
    }
    Ok(())
}
