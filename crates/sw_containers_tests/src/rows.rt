use crate::making::{are_named, merge, row};
use std::test::Fail;
use sw_rows::{NamedRows, Rows, laws};

/// The MD5 of `o-0000000005.00000` as a number.
const HASH_OF_O: u128 = 259439173132690071545091498314637949431;

/// The MD5s of `a-0000000001.00000` and `b-0000000002.50000` as numbers, one over the other.
const HASH_OF_BOTH: u128 = 68641869038436108947783551031752116423;

/// Merges one after another: the name, the time in units of 10 microseconds, the size and whether it is deleted; then
/// whether it changed the rows, the greatest number, how many rows are live, and their bytes.
const MERGES: [(&str, u64, u64, bool, bool, u64, u64, u64); 9] = [
    ("o", 500_000, 3, false, true, 1, 1, 3),
    ("o", 500_000, 0, true, true, 2, 0, 0),
    ("o", 500_000, 3, false, false, 2, 0, 0),
    ("o", 499_999, 9, false, false, 2, 0, 0),
    ("o", 500_001, 7, false, true, 3, 1, 7),
    ("p", 1, u64::MAX, false, true, 4, 2, u64::MAX),
    ("p", 1, 5, false, false, 4, 2, u64::MAX),
    ("o", 500_001, 0, true, true, 5, 1, u64::MAX),
    ("é", 1, 1, false, true, 6, 2, u64::MAX),
];

#[test]
fn the_greatest_row_of_a_name_stays_under_a_new_number(rt: HostRuntime) -> Result<(), Fail> {
    let alloc = rt.alloc();
    let mut rows = Rows::empty(alloc);
    for (name, units, size, deleted, changed, top, count, bytes) in MERGES {
        let merged = merge(
            &rt,
            alloc,
            &mut rows,
            row(alloc, name, units, size, deleted)?,
        )?;
        assert_eq!(rt; merged, changed, "{name} at {units}");
        assert_eq!(rt;
            (rows.top(), rows.count(), rows.bytes()),
            (top, count, bytes)
        );
    }
    Ok(())
}

#[test]
fn the_hash_is_over_names_and_times_of_all_rows(rt: HostRuntime) -> Result<(), Fail> {
    let alloc = rt.alloc();
    let mut rows = Rows::empty(alloc);
    assert_eq!(rt; rows.hash(), 0);
    for deleted in [false, true, false] {
        merge(&rt, alloc, &mut rows, row(alloc, "o", 500_000, 3, deleted)?)?;
        assert_eq!(rt; rows.hash(), HASH_OF_O);
    }
    let mut both = Rows::empty(alloc);
    for (name, units) in [("a", 100_000), ("b", 250_000)] {
        merge(&rt, alloc, &mut both, row(alloc, name, units, 1, false)?)?;
    }
    assert_eq!(rt; both.hash(), HASH_OF_BOTH);
    Ok(())
}

#[test]
fn rows_come_in_the_order_of_their_numbers_and_are_copied(rt: HostRuntime) -> Result<(), Fail> {
    let alloc = rt.alloc();
    let mut rows = Rows::empty(alloc);
    for (name, units) in [("b", 1), ("a", 1), ("c", 1), ("b", 2)] {
        merge(&rt, alloc, &mut rows, row(alloc, name, units, 1, false)?)?;
    }
    assert!(rt; is_list(&rows, &[(2, "a"), (3, "c"), (4, "b")]));
    assert!(rt; is_list(&rows.copy(alloc)?, &[(2, "a"), (3, "c"), (4, "b")]));
    assert!(rt; are_named(&rows.above(alloc, 2)?, &["c", "b"]));
    assert!(rt;
        rows.get(b"a")
            .is_some_and(|row| row.created_at.units() == 1)
    );
    assert!(rt; rows.get(b"d").is_none());
    laws::keeps_the_greatest();
    laws::numbers_rise();
    Ok(())
}

/// Rows restored one after another where 9 numbers were given out: the number, the name, and whether the row was put in.
const RESTORED: [(u64, &str, bool); 8] = [
    (0, "a", false),
    (2, "b", true),
    (2, "c", false),
    (1, "c", false),
    (5, "b", false),
    (7, "c", true),
    (9, "a", true),
    (10, "d", false),
];

/// Two bounds, and the names between them of rows "a", "b" and "c".
const BETWEEN: [(&str, &str, &[&str]); 6] = [
    ("", "z", &["a", "b", "c"]),
    ("b", "c", &["b"]),
    ("aa", "cc", &["b", "c"]),
    ("b", "b", &[]),
    ("c", "a", &[]),
    ("d", "z", &[]),
];

#[test]
fn rows_are_restored_under_rising_numbers_and_found_by_names(rt: HostRuntime) -> Result<(), Fail> {
    let alloc = rt.alloc();
    let mut rows = Rows::empty_at(alloc, 9);
    for (rowid, name, restored) in RESTORED {
        let row = row(alloc, name, 1, 1, false)?;
        assert_eq!(rt;
            rows.restore(alloc, rowid, row)?,
            restored,
            "{name} at {rowid}"
        );
    }
    assert!(rt; is_list(&rows, &[(2, "b"), (7, "c"), (9, "a")]));
    assert_eq!(rt;
        (rows.top(), rows.number_of(b"a"), rows.number_of(b"d")),
        (9, Some(9), None)
    );
    for (lower, upper, names) in BETWEEN {
        let between = rows.between(alloc, lower.as_bytes(), upper.as_bytes())?;
        assert!(rt; gives(between, names), "from {lower} to {upper}");
    }
    Ok(())
}

/// Whether these are the names that come, where the last one is taken first.
fn gives(rows: NamedRows<'_>, names: &[&str]) -> bool {
    let mut rows = rows;
    let [front @ .., last] = names else {
        return rows.first().is_none();
    };
    if !rows
        .last()
        .is_some_and(|row| row.name.as_slice() == last.as_bytes())
    {
        return false;
    }
    for name in front {
        if !rows
            .first()
            .is_some_and(|row| row.name.as_slice() == name.as_bytes())
        {
            return false;
        }
    }
    rows.last().is_none()
}

fn is_list(rows: &Rows, wanted: &[(u64, &str)]) -> bool {
    let mut left = wanted;
    for (rowid, row) in rows.iter() {
        match left {
            [(number, name), rest @ ..]
                if *number == rowid && name.as_bytes() == row.name.as_slice() => {
                left = rest;
            }
            _ => return false,
        }
    }
    left.is_empty()
}
