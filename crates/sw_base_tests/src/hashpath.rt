use std::alloc::Global;
use sw_hashpath::{
    BadFile, BadName, DecodeError, Name, NameError, Place, Secrets, first_fault, hash_path,
    hex_text, partition, stripe, suffix,
};
use sw_outside::{Bytes, NoMemory};

pub(crate) const OBJECT_HASH: [u8; 16] = [
    0x06, 0xfb, 0xf0, 0xb5, 0x14, 0xe5, 0x19, 0x9d, 0xfc, 0x4e, 0x00, 0xf4, 0x2e, 0xb5, 0xea, 0x83,
];

const CONTAINER_HASH: [u8; 16] = [
    0x33, 0x37, 0x9e, 0xcb, 0x05, 0x3a, 0xa5, 0xc9, 0xe3, 0x56, 0xc6, 0x89, 0x97, 0xcb, 0xb5, 0x9e,
];

const ACCOUNT_HASH: [u8; 16] = [
    0x1c, 0x84, 0x52, 0x5a, 0xcb, 0x02, 0x10, 0x7e, 0xa4, 0x75, 0xdc, 0xd3, 0xd0, 0x9c, 0x2c, 0x58,
];

/// The known hashes of the paths of the account `a`, of its container `c`, and of the object `o` in that.
const HASHES: [(Option<&[u8]>, Option<&[u8]>, [u8; 16]); 3] = [
    (None, None, ACCOUNT_HASH),
    (Some(b"c"), None, CONTAINER_HASH),
    (Some(b"c"), Some(b"o"), OBJECT_HASH),
];

/// What the partition in a ring of this power, the suffix and the stripe of this many lock bits are.
const PARTS: [([u8; 16], u8, u32, u16, u8, u8); 4] = [
    (OBJECT_HASH, 2, 0, 0xa83, 4, 0),
    (CONTAINER_HASH, 2, 0, 0x59e, 4, 3),
    (CONTAINER_HASH, 32, 0x3337_9ecb, 0x59e, 0, 0),
    (ACCOUNT_HASH, 4, 1, 0xc58, 3, 0),
];

/// Names with the first thing that is wrong with them, or `None` where they are good: an account, a container and an
/// object.
const NAMES: [(&[u8], &[u8], &[u8], Option<BadName>); 13] = [
    (b"a/b", b"c", b"", Some(BadName::Empty)),
    (b"a/b", &[b'c'; 257], b"o", Some(BadName::Slash)),
    (b"a", b"c/d", b"o", Some(BadName::Slash)),
    (&[0; 257], b"c", b"o", Some(BadName::TooLong)),
    (b"a", &[b'c'; 257], b"o", Some(BadName::TooLong)),
    (b"a", b"c", &[b'o'; 1025], Some(BadName::TooLong)),
    (b".a", b"c", &[b'o'; 2049], Some(BadName::TooLong)),
    (b"a", b"c", b"o\0", Some(BadName::NotText)),
    (b"a", b"\xff", b"o", Some(BadName::NotText)),
    (b"a", b"c", b"o", None),
    (&[b'a'; 256], &[b'c'; 256], &[b'/'; 1024], None),
    (&[b'.'; 256], &[b'c'; 256], &[b'/'; 2048], None),
    (b"\xc3\xa4", b"c", b"o", None),
];

/// The secrets of the ring of the worked examples: no prefix, and the suffix `endcap`.
pub(crate) fn secrets(alloc: Global) -> Result<Secrets, NoMemory> {
    Ok(Secrets {
        prefix: Bytes::from(Vec::new(alloc)),
        suffix: Bytes::copy(alloc, b"endcap")?,
    })
}

fn copied_secrets(alloc: Global) -> Result<Secrets, NoMemory> {
    secrets(alloc)?.copy(alloc)
}

fn has_parts((hash, power, part, end, bits, lock): ([u8; 16], u8, u32, u16, u8, u8)) -> bool {
    if power < 1 || power > 32 || bits > 4 {
        return false;
    }
    partition(&hash, power) == part && suffix(&hash) == end && stripe(&hash, bits) == lock
}

/// Whether a name has these parts and the hash of the object `o`.
fn is_known_name(name: &Name) -> bool {
    name.account.as_slice() == b"a".as_slice()
        && name.container.as_slice() == b"c".as_slice()
        && name.object.as_slice() == b"o".as_slice()
        && name.hash == OBJECT_HASH
}

/// Whether a place has these parts and the hash of the container `c`.
fn is_known_place(place: &Place) -> bool {
    place.account.as_slice() == b"a".as_slice()
        && place.container.as_slice() == b"c".as_slice()
        && place.hash == CONTAINER_HASH
}

/// Whether a path of the account `a` has this hash.
fn has_hash(
    secrets: &Secrets,
    container: Option<&[u8]>,
    object: Option<&[u8]>,
    hash: [u8; 16],
) -> bool {
    (container.is_some() || object.is_none())
        && hash_path(secrets, b"a", container, object) == Ok(hash)
}

fn have_their_hashes(alloc: Global) -> Result<bool, NoMemory> {
    let secrets = secrets(alloc)?;
    for (container, object, hash) in HASHES {
        if !has_hash(&secrets, container, object, hash) {
            return Ok(false);
        }
    }
    Ok(true)
}

#[test]
fn paths_under_the_suffix_endcap_have_their_known_hashes_and_parts(rt: HostRuntime) {
    assert!(rt; have_their_hashes(rt.alloc()) == Ok(true));
    for parts in PARTS {
        assert!(rt; has_parts(parts));
    }
    assert!(rt; &hex_text(&OBJECT_HASH) == b"06fbf0b514e5199dfc4e00f42eb5ea83");
}

/// Whether this is the first thing that is wrong with a name.
fn has_fault(
    secrets: &Secrets,
    account: &[u8],
    container: &[u8],
    object: &[u8],
    bad: Option<BadName>,
) -> bool {
    first_fault(account, Some(container), Some(object)) == bad
        && hash_path(secrets, account, Some(container), Some(object)).err() == bad
}

fn have_their_faults(alloc: Global) -> Result<bool, NoMemory> {
    let secrets = secrets(alloc)?;
    for (account, container, object, bad) in NAMES {
        if !has_fault(&secrets, account, container, object, bad) {
            return Ok(false);
        }
    }
    Ok(true)
}

#[test]
fn bad_names_are_refused_for_the_first_thing_that_is_wrong(rt: HostRuntime) {
    assert!(rt; have_their_faults(rt.alloc()) == Ok(true));
}

fn is_name_kept(alloc: Global, secrets: &Secrets) -> Result<bool, NameError> {
    let name = Name::new(alloc, secrets, b"a", b"c", b"o")?;
    Ok(is_known_name(&name.copy(alloc)?))
}

fn is_place_kept(alloc: Global, secrets: &Secrets) -> Result<bool, NameError> {
    let place = Place::new(alloc, secrets, b"a", b"c")?;
    Ok(is_known_place(&place.copy(alloc)?))
}

fn is_slash_refused(alloc: Global, secrets: &Secrets) -> bool {
    match Place::new(alloc, secrets, b"a", b"c/d") {
        Ok(_place) => false,
        Err(error) => error == NameError::Bad(BadName::Slash),
    }
}

fn are_kept(alloc: Global) -> Result<bool, NameError> {
    let secrets = copied_secrets(alloc)?;
    Ok(
        is_name_kept(alloc, &secrets)?
            && is_place_kept(alloc, &secrets)?
            && is_slash_refused(alloc, &secrets),
    )
}

#[test]
fn names_and_places_keep_their_parts_and_their_hash(rt: HostRuntime) {
    assert!(rt; are_kept(rt.alloc()) == Ok(true));
}

#[test]
fn causes_of_bad_files_are_numbered_from_one(rt: HostRuntime) {
    for (bad, number) in [
        (BadFile::Header, 1),
        (BadFile::Field, 2),
        (BadFile::Length, 3),
    ] {
        assert!(rt; bad.number() == number && DecodeError::from(bad) == DecodeError::Bad(bad));
    }
    assert!(rt; DecodeError::from(NoMemory) == DecodeError::NoMemory);
}
