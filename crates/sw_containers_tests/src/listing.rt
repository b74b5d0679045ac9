use crate::making::{merge, row};
use std::alloc::Global;
use std::process::Abort;
use std::test::Fail;
use sw_listing::{BadQuery, Query, list, to_text};
use sw_listing_json::{laws, listed_time, to_json};
use sw_outside::Bytes;
use sw_rows::Rows;
use sw_shard_listing::{begun, moved, pass};
use sw_timestamp::Timestamp;

/// Queries and their listings of the live names `a`, `p`, `p/a`, `p/b`, `p/b/c`, `q` and `é`, beside the deleted one `z`.
const LISTINGS: [(&str, &str); 40] = [
    ("", "a\np\np/a\np/b\np/b/c\nq\né\n"),
    ("limit=10000", "a\np\np/a\np/b\np/b/c\nq\né\n"),
    ("limit=x", "a\np\np/a\np/b\np/b/c\nq\né\n"),
    ("limit=", "a\np\np/a\np/b\np/b/c\nq\né\n"),
    ("limit=-1", "a\np\np/a\np/b\np/b/c\nq\né\n"),
    ("limit=0", ""),
    ("limit=2", "a\np\n"),
    ("limit=00000000000000000000000000000003", "a\np\np/a\n"),
    ("limit=1&limit=2", "a\np\n"),
    ("limit=10001&limit=1", "a\n"),
    ("format=csv&limit=1", "a\n"),
    ("other=1&&limit=1", "a\n"),
    ("l%69mit=1", "a\n"),
    ("delimiter=/", "a\np\np/\nq\né\n"),
    ("delimiter=%2F&limit=3", "a\np\np/\n"),
    ("delimiter=/&marker=p/", "q\né\n"),
    ("delimiter=/&marker=p", "p/\nq\né\n"),
    ("delimiter=/&marker=p/a", "p/\nq\né\n"),
    ("delimiter=/&end_marker=p/", "a\np\n"),
    ("delimiter=/&prefix=p/", "p/a\np/b\np/b/\n"),
    ("delimiter=/&prefix=p/b", "p/b\np/b/\n"),
    ("delimiter=p&prefix=p/", "p/a\np/b\np/b/c\n"),
    ("delimiter=/&prefix=/", ""),
    ("prefix=p/b/c/longer", ""),
    ("prefix=p", "p\np/a\np/b\np/b/c\n"),
    ("p%72efix=q", "q\n"),
    ("prefix=%C3%A9", "é\n"),
    ("marker=q", "é\n"),
    ("marker=+", "a\np\np/a\np/b\np/b/c\nq\né\n"),
    ("marker=%F4%8F%BF%BF", ""),
    ("end_marker=p/b", "a\np\np/a\n"),
    ("marker=p&end_marker=q", "p/a\np/b\np/b/c\n"),
    ("marker=q&end_marker=p", ""),
    ("reverse=true", "é\nq\np/b/c\np/b\np/a\np\na\n"),
    ("reverse=on&end_marker=p/a", "é\nq\np/b/c\np/b\n"),
    ("reverse=YES&marker=q", "p/b/c\np/b\np/a\np\na\n"),
    ("reverse=1&delimiter=/", "é\nq\np/\np\na\n"),
    ("reverse=T&limit=2", "é\nq\n"),
    ("reverse=y&delimiter=/&limit=3", "é\nq\np/\n"),
    ("reverse=no&limit=1", "a\n"),
];

/// Ranges of names in order. One bound is what names are rolled up to, and names that are rolled up to it lie in two ranges.
const RANGES: [(&[u8], &[u8]); 4] = [(b"", b"a"), (b"a", b"p/"), (b"p/", b"p/b"), (b"p/b", b"")];

/// Queries that aren't read, and why. Of several faults the first in the stated order is told.
const FAULTS: [(&[u8], BadQuery); 12] = [
    (b"limit=10001", BadQuery::Limit),
    (b"limit=99999999999999999999999", BadQuery::Limit),
    (b"delimiter=ab", BadQuery::Delimiter),
    (b"delimiter=%C3%A9", BadQuery::Delimiter),
    (b"delimiter=%FF", BadQuery::Delimiter),
    (b"prefix=%FF", BadQuery::NotText),
    (b"marker=%C3", BadQuery::NotText),
    (b"end_marker=\xff", BadQuery::NotText),
    (b"format=XML", BadQuery::Format),
    (b"limit=10001&prefix=%FF", BadQuery::NotText),
    (b"delimiter=ab&limit=10001", BadQuery::Limit),
    (b"format=xml&delimiter=ab", BadQuery::Delimiter),
];

/// Queries and their listings as JSON of the rows `o`, of three bytes, and `a"/b`, of none.
const JSON: [(&[u8], &[u8]); 4] = [
    (
        b"prefix=o&format=json",
        b"[{\"bytes\":3,\"content_type\":\"text/plain\",\"hash\":\"900150983cd24fb0d6963f7d28e17f72\",\"last_modified\":\"1970-01-01T00:00:05.000000\",\
          \"name\":\"o\"}]",
    ),
    (b"limit=0&format=JSON", b"[]"),
    (b"delimiter=/&limit=1", b"[{\"subdir\":\"a\\\"/\"}]"),
    (
        b"delimiter=/",
        b"[{\"subdir\":\"a\\\"/\"},{\"bytes\":3,\"content_type\":\"text/plain\",\"hash\":\"900150983cd24fb0d6963f7d28e17f72\",\
          \"last_modified\":\"1970-01-01T00:00:05.000000\",\"name\":\"o\"}]",
    ),
];

/// Times in units of 10 microseconds, and the dates that they are listed as.
const DATES: [(u64, &str); 4] = [
    (0, "1970-01-01T00:00:00.000000"),
    (1, "1970-01-01T00:00:00.000010"),
    (140_122_404_822_541, "2014-05-27T20:54:08.225410"),
    (999_999_999_999_999, "2286-11-20T17:46:39.999990"),
];

fn names(rt: &impl Abort, alloc: Global) -> Result<Rows, Fail> {
    let mut rows = Rows::empty(alloc);
    for name in ["q", "p/b/c", "é", "p", "p/b", "a", "p/a", "z"] {
        merge(rt, alloc, &mut rows, row(alloc, name, 1, 3, name == "z")?)?;
    }
    Ok(rows)
}

fn text_of(alloc: Global, rows: &Rows, query: &[u8]) -> Result<Bytes, BadQuery> {
    let query = Query::read(alloc, query)?;
    Ok(to_text(alloc, &list(alloc, rows, &query)?)?)
}

/// The text of the listing that is put together from those of the ranges.
fn text_in_turn(rt: &impl Abort, alloc: Global, rows: &Rows, query: &[u8]) -> Result<Bytes, Fail> {
    let mut query = begun(alloc, &Query::read(alloc, query)?)?;
    let mut text = Vec::new(alloc);
    for place in 0..4 {
        let range = RANGES[if query.reverse { 3 - place } else { place }];
        let listed = text_within(rt, alloc, rows, &mut query, range)?;
        text.extend_from_slice(listed.as_slice())?;
    }
    Ok(text.into())
}

/// The text of what is listed of a range, behind which the query is moved on.
fn text_within(
    rt: &impl Abort,
    alloc: Global,
    rows: &Rows,
    query: &mut Query,
    (lower, upper): (&[u8], &[u8]),
) -> Result<Bytes, Fail> {
    let entries = list(alloc, rows, &moved(alloc, query, lower, upper)?)?;
    assert!(rt; entries.as_slice().len() <= query.limit as usize);
    pass(alloc, query, entries.as_slice())?;
    Ok(to_text(alloc, &entries)?)
}

fn json_of(alloc: Global, rows: &Rows, query: &[u8]) -> Result<Bytes, BadQuery> {
    let query = Query::read(alloc, query)?.copy(alloc)?;
    Ok(to_json(alloc, &list(alloc, rows, &query)?.copy(alloc)?)?)
}

#[test]
fn queries_are_answered(rt: HostRuntime) -> Result<(), Fail> {
    let alloc = rt.alloc();
    let rows = names(&rt, alloc)?;
    for (query, listing) in LISTINGS {
        let text = text_of(alloc, &rows, query.as_bytes())?;
        assert!(rt; text.as_slice() == listing.as_bytes(), "at {query}");
    }
    Ok(())
}

#[test]
fn queries_are_answered_range_by_range(rt: HostRuntime) -> Result<(), Fail> {
    let alloc = rt.alloc();
    let rows = names(&rt, alloc)?;
    for (query, listing) in LISTINGS {
        let text = text_in_turn(&rt, alloc, &rows, query.as_bytes())?;
        assert!(rt; text.as_slice() == listing.as_bytes(), "at {query}");
    }
    Ok(())
}

#[test]
fn bad_queries_are_told(rt: HostRuntime) {
    let alloc = rt.alloc();
    for (query, fault) in FAULTS {
        assert!(rt; Query::read(alloc, query).is_err_and(|bad| bad == fault));
    }
}

#[test]
fn listings_are_written_as_json(rt: HostRuntime) -> Result<(), Fail> {
    let alloc = rt.alloc();
    let mut rows = Rows::empty(alloc);
    merge(&rt, alloc, &mut rows, row(alloc, "o", 500_000, 3, false)?)?;
    merge(&rt, alloc, &mut rows, row(alloc, "a\"/b", 1, 0, false)?)?;
    for (query, listing) in JSON {
        let json = json_of(alloc, &rows, query)?;
        assert!(rt; json.as_slice() == listing);
    }
    Ok(())
}

#[test]
fn times_are_listed_with_six_decimals(rt: HostRuntime) {
    for (units, date) in DATES {
        let listed = Timestamp::from_units(units).map(|time| listed_time(time));
        assert!(rt;
            listed.is_some_and(|listed| listed.as_str() == date),
            "at {units}"
        );
    }
    laws::has_one_date();
    laws::has_one_json();
}
