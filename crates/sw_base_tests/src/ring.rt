use std::alloc::{AllocError, Global};
use sw_outside::NoMemory;
use sw_ring::{BadRing, DeviceList, Ring, RingError, Which, read};

/// The ring of the worked examples.
pub(crate) const WORKED: &str =
    "{\"devices\":[\"sda\",\"sdb\"],\"part_power\":2,\"lock_bits\":2,\"replicas\":2,\"hash_prefix\":\"\",\"hash_suffix\":\"endcap\",\"object\":[[0,1],[1,0],\
      [0,1],[1,0]],\"container\":[[0,1],[1,0],[0,1],[1,0]]}";

/// What stands at some keys in place of a good ring's values, as JSON.
type Changes = &'static [(&'static str, &'static str)];

/// Changes, with the number of what is then wrong with the ring, or 0 where nothing is.
const RINGS: [(Changes, u8); 33] = [
    (&[], 0),
    (&[("part_power", "1e999")], 1),
    (&[("part_power", "1,\"more\":1")], 2),
    (&[("part_power", "1e5")], 2),
    (&[("part_power", "-0")], 2),
    (&[("part_power", "1.0")], 2),
    (&[("part_power", "-1")], 2),
    (&[("part_power", "18446744073709551616")], 2),
    (&[("part_power", "null")], 2),
    (&[("devices", "[\"sda\",\"SDB\"]")], 2),
    (&[("devices", "[\"sda\",\"\"]")], 2),
    (&[("devices", "[\"sda\",1]")], 2),
    (&[("devices", "{}")], 2),
    (
        &[("devices", "[\"sda\",\"bbbbbbbbbbbbbbbbbbbbbbbbbbbbbbbbb\"]")],
        2,
    ),
    (
        &[("devices", "[\"sda\",\"bbbbbbbbbbbbbbbbbbbbbbbbbbbbbbbb\"]")],
        0,
    ),
    (&[("part_power", "16"), ("lock_bits", "5")], 2),
    (&[("lock_bits", "2")], 2),
    (&[("replicas", "0")], 2),
    (&[("object", "[[0,1],[0]]")], 2),
    (&[("part_power", "0")], 3),
    (&[("part_power", "17")], 3),
    (&[("part_power", "300")], 3),
    (
        &[
            ("devices", "[\"sda\",\"sda\"]"),
            ("object", "[[0,2],[1,0]]"),
        ],
        4,
    ),
    (&[("object", "[[0,2],[1,0]]")], 5),
    (&[("container", "[[0,300]]")], 5),
    (&[("object", "[[0,0],[0,1],[0,1]]")], 6),
    (&[("container", "[[0,1],[0,0]]")], 7),
    (
        &[(
            "devices",
            "[\"a\",\"b\",\"c\",\"d\",\"e\",\"f\",\"g\",\"h\"]",
        )],
        0,
    ),
    (
        &[(
            "devices",
            "[\"a\",\"b\",\"c\",\"d\",\"e\",\"f\",\"g\",\"h\",\"i\"]",
        )],
        8,
    ),
    (
        &[
            ("devices", "[\"a\",\"b\",\"c\"]"),
            ("replicas", "3"),
            ("object", "[[0,1,2],[2,1,0]]"),
            ("container", "[[0,1,2],[1,2,0]]"),
        ],
        0,
    ),
    (
        &[
            ("devices", "[\"a\",\"b\",\"c\",\"d\"]"),
            ("replicas", "4"),
            ("object", "[[0,1,2,3],[0,1,2,3]]"),
            ("container", "[[0,1,2,3],[0,1,2,3]]"),
        ],
        8,
    ),
    (&[("part_power", "17,\"part_power\":1")], 0),
    (&[("part_power", "1,\"part_power\":17")], 3),
];

/// Texts that are no ring, with the number of what is wrong with them.
const TEXTS: [(&[u8], u8); 4] = [
    (b"{", 1),
    (b"\"\xff\"", 1),
    (b"[]", 2),
    (b"{\"devices\":[]}", 2),
];

/// What stands at a key.
fn value_at(changes: Changes, key: &str, good: &'static str) -> &'static str {
    for (changed, value) in changes {
        if *changed == key {
            return *value;
        }
    }
    good
}

/// The text of a good ring with these changes.
fn text_of(alloc: Global, changes: Changes) -> Result<String, AllocError> {
    let devices = value_at(changes, "devices", "[\"sda\",\"sdb\"]");
    let power = value_at(changes, "part_power", "1");
    let lock_bits = value_at(changes, "lock_bits", "1");
    let replicas = value_at(changes, "replicas", "2");
    let object = value_at(changes, "object", "[[0,1],[1,0]]");
    let container = value_at(changes, "container", "[[1,0],[0,1]]");
    format!(in alloc;
        "{{\"devices\":{devices},\"part_power\":{power},\"lock_bits\":{lock_bits},\"replicas\":{replicas},\"hash_prefix\":\"\",\"hash_suffix\":\"x\",\
          \"object\":{object},\"container\":{container}}}"
    )
}

/// The good ring as it is.
fn good_ring(alloc: Global) -> Result<Ring, RingError> {
    match text_of(alloc, &[]) {
        Ok(text) => read(alloc, text.as_bytes()),
        Err(_) => Err(RingError::NoMemory),
    }
}

/// The number of what is wrong with a text, or 0. Want of memory has none.
fn number_of(alloc: Global, text: &[u8]) -> Option<u8> {
    match read(alloc, text) {
        Ok(_ring) => Some(0),
        Err(RingError::Bad(bad)) => Some(bad.number()),
        Err(RingError::NoMemory) => None,
    }
}

/// Other threads may have and share a ring.
pub(crate) fn crosses<T: Send + Sync>(_value: &T) {}

/// Whether the ring is that of the worked examples.
fn is_worked(ring: &Ring) -> bool {
    crosses(ring);
    ring.power == 2
        && ring.lock_bits == 2
        && ring.replicas == 2
        && ring.secrets.prefix.as_slice().is_empty()
        && ring.secrets.suffix.as_slice() == b"endcap".as_slice()
        && ring.device(b"sda") == Some(0)
        && ring.device(b"sdb") == Some(1)
        && ring.device(b"sd").is_none()
}

/// Whether the ring has the rows of the good ring, each table its own.
fn has_good_rows(ring: &Ring) -> bool {
    ring.power == 1
        && ring.row(Which::Object, 0) == [0, 1].as_slice()
        && ring.row(Which::Object, 1) == [1, 0].as_slice()
        && ring.row(Which::Container, 0) == [1, 0].as_slice()
        && ring.row(Which::Container, 1) == [0, 1].as_slice()
}

fn worked_is_read(alloc: Global) -> Result<bool, RingError> {
    let ring = read(alloc, WORKED.as_bytes())?;
    Ok(is_worked(&ring.copy(alloc)?))
}

#[test]
fn the_worked_ring_reads_to_its_values(rt: HostRuntime) {
    assert!(rt; worked_is_read(rt.alloc()) == Ok(true));
}

/// The rows of a table's copy.
fn rows_of(alloc: Global, ring: &Ring) -> Result<Vec<DeviceList>, NoMemory> {
    Ok(ring.object.copy(alloc)?.into())
}

/// Whether the copy of a row has these devices.
fn is_row(alloc: Global, row: &DeviceList, devices: &[u8]) -> Result<bool, NoMemory> {
    let copy: Vec<u8> = row.copy(alloc)?.into();
    Ok(copy.as_slice() == devices)
}

fn good_has_its_rows(alloc: Global) -> Result<bool, RingError> {
    let ring = good_ring(alloc)?;
    let rows = rows_of(alloc, &ring)?;
    let is_first = match rows.as_slice() {
        [first, _] => is_row(alloc, first, &[0, 1])?,
        _ => false,
    };
    Ok(is_first && has_good_rows(&ring))
}

#[test]
fn each_table_has_its_own_rows(rt: HostRuntime) {
    assert!(rt; good_has_its_rows(rt.alloc()) == Ok(true));
}

/// The number of what is wrong with the good ring under these changes, or 0. Want of memory has none.
fn number_with(alloc: Global, changes: Changes) -> Option<u8> {
    match text_of(alloc, changes) {
        Ok(text) => number_of(alloc, text.as_bytes()),
        Err(_) => None,
    }
}

#[test]
fn rings_are_read_or_refused_by_the_first_of_their_faults(rt: HostRuntime) {
    let alloc = rt.alloc();
    for (changes, number) in RINGS {
        assert!(rt; number_with(alloc, changes) == Some(number), "{changes:?}");
    }
    for (text, number) in TEXTS {
        assert!(rt; number_of(alloc, text) == Some(number));
    }
    assert!(rt; BadRing::NotJson.number() == 1 && BadRing::TooLarge.number() == 8);
}
