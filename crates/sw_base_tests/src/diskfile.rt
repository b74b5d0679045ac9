use crate::fixtures::{Named, names_of};
use std::alloc::{AllocError, Global};
use sw_diskfile::{FileName, NAME_ROOM, NotOurs, laws, pick, read_name, write_name};
use sw_timestamp::{Tag, Timestamp};

/// The names of writes, with their times in 10-microsecond units.
const NAMES: [(&[u8], u64, Tag); 4] = [
    (b"1401224048.22541.data", 140_122_404_822_541, Tag::Put),
    (b"0000000005.00000.ts", 500_000, Tag::Del),
    (b"9999999999.99999.meta", 999_999_999_999_999, Tag::Meta),
    (b"0000000000.00000.data", 0, Tag::Put),
];

/// Texts that name no write's file.
const OTHERS: [&[u8]; 12] = [
    b"",
    b"x.data",
    b".data",
    b"00000000005.00000.data",
    b"0000000005.00000.DATA",
    b"0000000005.000000.data",
    b"0000000005.0000.data",
    b"5.data",
    b"0000000005.00000",
    b"0000000005.00000.tsx",
    b"0000000005.00000.data.data",
    b" 0000000005.00000.ts",
];

/// Whether the text is read as this file, and the file written as the text, at the front of its room alone.
fn is_name_of(text: &[u8], units: u64, tag: Tag) -> bool {
    let Some(time) = Timestamp::from_units(units) else {
        return false;
    };
    let file = FileName { time, tag };
    let mut room = [b'-'; 48];
    let count = write_name(&file, &mut room);
    read_name(text) == Ok(file) && &room[..count] == text && &room[count..] == &[b'-'; 48][count..]
}

#[test]
fn names_are_read_and_written_alike(rt: HostRuntime) {
    assert_eq!(rt; NAME_ROOM, 48);
    for (text, units, tag) in NAMES {
        assert!(rt; is_name_of(text, units, tag));
    }
    for text in OTHERS {
        assert!(rt; read_name(text) == Err(NotOurs));
    }
    laws::names_differ();
    laws::named_is();
    laws::one_pick();
}

/// Names, and which of them are the base and the metadata.
const PICKS: [(&[Named], Option<Named>, Option<Named>); 5] = [
    (&[], None, None),
    (
        &[(4, Tag::Put), (5, Tag::Put), (5, Tag::Meta)],
        Some((5, Tag::Put)),
        None,
    ),
    (
        &[(9, Tag::Meta), (5, Tag::Meta), (5, Tag::Put), (4, Tag::Put)],
        Some((5, Tag::Put)),
        Some((9, Tag::Meta)),
    ),
    (
        &[(5, Tag::Put), (5, Tag::Del), (9, Tag::Meta)],
        Some((5, Tag::Del)),
        Some((9, Tag::Meta)),
    ),
    (&[(5, Tag::Meta)], None, Some((5, Tag::Meta))),
];

fn is_file(found: Option<FileName>, wanted: Option<Named>) -> bool {
    match (found, wanted) {
        (Some(file), Some((units, tag))) => file.time.units() == units && file.tag == tag,
        (None, None) => true,
        _ => false,
    }
}

/// Whether these are picked of these names.
fn picks(
    alloc: Global,
    pairs: &[Named],
    base: Option<Named>,
    meta: Option<Named>,
) -> Result<bool, AllocError> {
    let picked = pick(&names_of(alloc, pairs)?);
    Ok(is_file(picked.base, base) && is_file(picked.meta, meta))
}

#[test]
fn tombstones_win_over_data_and_data_over_metadata_of_the_same_time(rt: HostRuntime) {
    for (pairs, base, meta) in PICKS {
        assert!(rt; picks(rt.alloc(), pairs, base, meta) == Ok(true));
    }
}
