use crate::fixtures::Named;
use std::alloc::{AllocError, Global};
use sw_diskfile::{FileName, Picked};
use sw_hashpath::hex_text;
use sw_suffix::{DirLine, laws, suffix_hash};
use sw_timestamp::{Tag, Timestamp};

/// The first byte of a hash, and the base and the metadata that are picked in its directory.
type Line = (u8, Option<Named>, Option<Named>);

const DATA: Option<Named> = Some((500_000, Tag::Put));

const META: Option<Named> = Some((600_000, Tag::Meta));

const TOMBSTONE: Option<Named> = Some((140_122_404_822_541, Tag::Del));

/// Lines, and the digits of the MD5 of their text. The text of the last is
/// `06fbf0b514e5199dfc4e00f42eb5ea83/0000000005.00000.data`, `06fbf0b514e5199dfc4e00f42eb5ea83/0000000006.00000.meta` and
/// `16fbf0b514e5199dfc4e00f42eb5ea83/1401224048.22541.ts`, each with a line feed.
const TEXTS: [(&[Line], &[u8; 32]); 5] = [
    (&[], b"d41d8cd98f00b204e9800998ecf8427e"),
    (&[(0x06, DATA, None)], b"521d10736a2329a0f432a266914aa48b"),
    (&[(0x16, DATA, None)], b"d97c9fe23cec00887651fab4c7d8086f"),
    (
        &[(0x06, DATA, None), (0x16, DATA, None)],
        b"1cd3c4fcec9a6e872d37f7e8967aa1e4",
    ),
    (
        &[(0x06, DATA, META), (0x16, TOMBSTONE, None)],
        b"605e77ab7f80f504c97d10e1dbf534ae",
    ),
];

fn file_of(named: Option<Named>) -> Option<FileName> {
    let (units, tag) = named?;
    let time = Timestamp::from_units(units)?;
    Some(FileName { time, tag })
}

fn lines_of(alloc: Global, lines: &[Line]) -> Result<Vec<DirLine>, AllocError> {
    let mut made = Vec::new(alloc);
    for (first, base, meta) in lines {
        let mut hash = *b"\x06\xfb\xf0\xb5\x14\xe5\x19\x9d\xfc\x4e\x00\xf4\x2e\xb5\xea\x83";
        hash[0] = *first;
        let picked = Picked {
            base: file_of(*base),
            meta: file_of(*meta),
        };
        made.push(DirLine { hash, picked })?;
    }
    Ok(made)
}

/// Whether the text of these lines has an MD5 of these digits.
fn has_md5(alloc: Global, lines: &[Line], digits: &[u8; 32]) -> Result<bool, AllocError> {
    let lines = lines_of(alloc, lines)?;
    Ok(hex_text(&suffix_hash(&lines)) == *digits)
}

#[test]
fn a_suffix_has_the_md5_of_the_lines_of_its_files(rt: HostRuntime) {
    for (lines, digits) in TEXTS {
        assert!(rt; has_md5(rt.alloc(), lines, digits) == Ok(true));
    }
    laws::lines_from_text();
}
