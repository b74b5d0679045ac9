use crate::hashpath::secrets;
use std::alloc::Global;
use sw_expiry::{Due, QUEUE_ACCOUNT, laws, queue_name, read_entry};
use sw_hashpath::{BadName, Name, NameError, Secrets, hex_text};
use sw_outside::{Bytes, NoMemory};
use sw_pending::Filed;

/// An object that is to be deleted, with the entry that it has by OpenStack Swift's rules, and the MD5 of the entry's own path.
struct Row {
    secrets: (&'static [u8], &'static [u8]),
    path: (&'static [u8], &'static [u8], &'static [u8]),
    delete_at: u64,
    container: &'static [u8],
    entry: &'static [u8],
    hash: &'static [u8; 32],
}

static ROWS: [Row; 22] = [
    Row {
        secrets: (b"", b"endcap"),
        path: (b"a", b"c", b"o"),
        delete_at: 1_401_230_000,
        container: b"1401148705",
        entry: b"1401230000-a/c/o",
        hash: b"d6265983c69c7092cdbf6befe9db6edb",
    },
    Row {
        secrets: (b"", b"changeme"),
        path: (b"a", b"c", b"o"),
        delete_at: 1_401_230_000,
        container: b"1401148763",
        entry: b"1401230000-a/c/o",
        hash: b"99fce2fcb96a6e14f9038084d19d2c95",
    },
    Row {
        secrets: (b"changeme", b""),
        path: (b"a", b"c", b"o"),
        delete_at: 1_401_230_000,
        container: b"1401148713",
        entry: b"1401230000-a/c/o",
        hash: b"baa5054c5c66b1146ed2a4044b935ad3",
    },
    Row {
        secrets: (b"b9d1f0", b"a5c7"),
        path: (b"a", b"c", b"o"),
        delete_at: 1_401_230_000,
        container: b"1401148772",
        entry: b"1401230000-a/c/o",
        hash: b"6539c1627daf1418d3bfdd866d3db0e1",
    },
    Row {
        secrets: (b"\xff\0", b"\xc3\xa9"),
        path: (b"a", b"c", b"o"),
        delete_at: 1_401_230_000,
        container: b"1401148787",
        entry: b"1401230000-a/c/o",
        hash: b"baa48fd75c34fabb379a468aa8e748c4",
    },
    Row {
        secrets: (b"", b"endcap"),
        path: (b"AUTH_test", b"photos", b"2014/05/27/cat.jpg"),
        delete_at: 1_401_224_049,
        container: b"1401148743",
        entry: b"1401224049-AUTH_test/photos/2014/05/27/cat.jpg",
        hash: b"a989d103fc16083addc778340e71e9bf",
    },
    Row {
        secrets: (b"pre", b"suf"),
        path: (b"AUTH_test", b"photos", b"2014/05/27/cat.jpg"),
        delete_at: 1_401_224_049,
        container: b"1401148755",
        entry: b"1401224049-AUTH_test/photos/2014/05/27/cat.jpg",
        hash: b"329aeb75c8a299a218c768b0cf1bb348",
    },
    Row {
        secrets: (b"", b"endcap"),
        path: (b"AUTH_test", b"photos", b"/"),
        delete_at: 0,
        container: b"0000000000",
        entry: b"0000000000-AUTH_test/photos//",
        hash: b"21de503ee183c1aed15694d9670d1a45",
    },
    Row {
        secrets: (b"", b"endcap"),
        path: (b"AUTH_test", b"photos", b"//x//"),
        delete_at: 1,
        container: b"0000000000",
        entry: b"0000000001-AUTH_test/photos///x//",
        hash: b"2e4e0f78f4a8f938100f428d4d79f743",
    },
    Row {
        secrets: (b"", b"changeme"),
        path: (b"a", b"c", b"o"),
        delete_at: 42,
        container: b"0000000000",
        entry: b"0000000042-a/c/o",
        hash: b"e104f90e6b138e5e84c449308f457a13",
    },
    Row {
        secrets: (b"", b"endcap"),
        path: (b"a", b"c", b"o"),
        delete_at: 99,
        container: b"0000000000",
        entry: b"0000000099-a/c/o",
        hash: b"61b904355d33c7b252275a6af31b5ab4",
    },
    Row {
        secrets: (b"", b"endcap"),
        path: (b"a", b"c", b"o"),
        delete_at: 86_399,
        container: b"0000000000",
        entry: b"0000086399-a/c/o",
        hash: b"50abb30bd4262ea280b46a1998ed9351",
    },
    Row {
        secrets: (b"", b"endcap"),
        path: (b"a", b"c", b"o"),
        delete_at: 86_400,
        container: b"0000086305",
        entry: b"0000086400-a/c/o",
        hash: b"3927f3ef899b18b254a1555e9c97939d",
    },
    Row {
        secrets: (b"pre", b"suf"),
        path: (b"a", b"c", b"o"),
        delete_at: 86_400,
        container: b"0000086325",
        entry: b"0000086400-a/c/o",
        hash: b"9959bd06888f32e1cceae0e044efd1b0",
    },
    Row {
        secrets: (b"", b"endcap"),
        path: (b".", b"..", b"..."),
        delete_at: 172_799,
        container: b"0000086330",
        entry: b"0000172799-./../...",
        hash: b"71e87f35087030f46b0e4c7273c3c25c",
    },
    Row {
        secrets: (b"pre", b"suf"),
        path: (b".hidden", b"-", b"-/-"),
        delete_at: 1_401_235_200,
        container: b"1401235124",
        entry: b"1401235200-.hidden/-/-/-",
        hash: b"51ce8f3aa2a8bf30b930020612e41730",
    },
    Row {
        secrets: (b"", b"endcap"),
        path: (b"a", b"c", b"1401230000-a/c/o"),
        delete_at: 1_401_235_199,
        container: b"1401148754",
        entry: b"1401235199-a/c/1401230000-a/c/o",
        hash: b"57d83af6314abb8aeb5b4cb47a580be4",
    },
    Row {
        secrets: (b"", b"endcap"),
        path: (b".expiring_objects", b"1401148705", b"1401230000-a/c/o"),
        delete_at: 1_401_230_000,
        container: b"1401148773",
        entry: b"1401230000-.expiring_objects/1401148705/1401230000-a/c/o",
        hash: b"fa9600a4c802559f94c9dd67e3ed9fc9",
    },
    Row {
        secrets: (b"", b"endcap"),
        path: (b"\xc3\xbc", b"\xe2\x82\xac", b"\xf0\x9f\x98\x80/\xc3\xa9"),
        delete_at: 4_102_444_800,
        container: b"4102444762",
        entry: b"4102444800-\xc3\xbc/\xe2\x82\xac/\xf0\x9f\x98\x80/\xc3\xa9",
        hash: b"ed46fa9de52701dc30a640c2c338ac1f",
    },
    Row {
        secrets: (b"pre", b"suf"),
        path: (b"a b", b"%2F", b"x\n.txt"),
        delete_at: 4_294_967_296,
        container: b"4294943962",
        entry: b"4294967296-a b/%2F/x\n.txt",
        hash: b"440d39068dd9d69b28fa91c3831c12f8",
    },
    Row {
        secrets: (b"", b"endcap"),
        path: (b"a", b"c", b"o"),
        delete_at: 9_999_999_999,
        container: b"9999935905",
        entry: b"9999999999-a/c/o",
        hash: b"77b87cb72b030f8c60bece4d1963cb4d",
    },
    Row {
        secrets: (b"pre", b"suf"),
        path: (b"a", b"c", b"o"),
        delete_at: 9_999_993_600,
        container: b"9999935925",
        entry: b"9999993600-a/c/o",
        hash: b"7c13e4adebba232b71f729442d181128",
    },
];

/// Names that are no entries: each lacks one thing, or has one too many.
const OTHERS: [&[u8]; 22] = [
    b"",
    b"1401230000",
    b"1401230000-",
    b"1401230000-a",
    b"1401230000-a/c",
    b"1401230000-a/c/",
    b"1401230000-/c/o",
    b"1401230000-a//o",
    b"1401230000a/c/o",
    b"1401230000/a/c/o",
    b"1401230000_a/c/o",
    b"401230000-a/c/o",
    b"11401230000-a/c/o",
    b"+401230000-a/c/o",
    b" 401230000-a/c/o",
    b"-401230000-a/c/o",
    b"140123000x-a/c/o",
    b"14012300.0-a/c/o",
    b"1401230000-a/c/o\0",
    b"1401230000-a/c/\xff",
    b"1401230000-a/\xc3/o",
    b"1401230000-\xbc/c/o",
];

/// How many bytes the object of an account of two bytes and a container of one has, and what is wrong with its entry.
const SIZES: [(usize, Option<NameError>); 4] = [
    (1, None),
    (2032, None),
    (2033, Some(NameError::Bad(BadName::TooLong))),
    (2048, Some(NameError::Bad(BadName::TooLong))),
];

fn secrets_of(alloc: Global, row: &Row) -> Result<Secrets, NoMemory> {
    let (prefix, suffix) = row.secrets;
    Ok(Secrets {
        prefix: Bytes::copy(alloc, prefix)?,
        suffix: Bytes::copy(alloc, suffix)?,
    })
}

/// The name of the entry of a row's object.
fn entry_of(alloc: Global, secrets: &Secrets, row: &Row) -> Result<Name, NameError> {
    let (account, container, object) = row.path;
    let name = Name::new(alloc, secrets, account, container, object)?;
    queue_name(alloc, secrets, &name, row.delete_at.min(9_999_999_999))
}

fn is_entry(queue: &Name, row: &Row) -> bool {
    queue.account.as_slice() == b".expiring_objects".as_slice()
        && queue.container.as_slice() == row.container
        && queue.object.as_slice() == row.entry
        && hex_text(&queue.hash) == *row.hash
}

/// Whether the deletion of the row's object is found.
fn is_due(found: &Option<Due>, row: &Row) -> bool {
    let (account, container, object) = row.path;
    match found {
        Some(due) => {
            due.delete_at == row.delete_at
                && due.name.account.as_slice() == account
                && due.name.container.as_slice() == container
                && due.name.object.as_slice() == object
        }
        None => false,
    }
}

fn has_its_entry(alloc: Global, row: &Row) -> Result<bool, NameError> {
    let secrets = secrets_of(alloc, row)?;
    Ok(is_entry(&entry_of(alloc, &secrets, row)?, row))
}

#[test]
fn objects_that_expire_have_the_entries_of_swift(rt: HostRuntime) {
    for row in &ROWS {
        assert!(rt; has_its_entry(rt.alloc(), row) == Ok(true));
    }
    assert!(rt; Filed::is_queue_account(QUEUE_ACCOUNT));
    laws::account_is_swifts();
    laws::long_paths_are_refused();
    laws::entries_are_in_order();
    laws::containers_are_in_order();
    laws::containers_are_near();
}

fn all_are_read(alloc: Global) -> Result<bool, NoMemory> {
    let secrets = secrets(alloc)?;
    for row in &ROWS {
        if !is_due(&read_entry(alloc, &secrets, row.entry)?, row) {
            return Ok(false);
        }
    }
    Ok(true)
}

#[test]
fn entries_are_read_as_their_deletions(rt: HostRuntime) {
    assert!(rt; all_are_read(rt.alloc()) == Ok(true));
    laws::written_tells();
    laws::tells_of_one();
}

fn all_are_passed_over(alloc: Global) -> Result<bool, NoMemory> {
    let secrets = secrets(alloc)?;
    for name in OTHERS {
        if read_entry(alloc, &secrets, name)?.is_some() {
            return Ok(false);
        }
    }
    Ok(true)
}

#[test]
fn names_that_are_no_entries_are_passed_over(rt: HostRuntime) {
    assert!(rt; all_are_passed_over(rt.alloc()) == Ok(true));
}

/// The name of an object that has this many bytes.
fn name_of_size(alloc: Global, secrets: &Secrets, size: usize) -> Result<Name, NameError> {
    match vec![in alloc; b'o'; size] {
        Ok(object) => Name::new(alloc, secrets, b".a", b"c", &object),
        Err(_) => Err(NameError::NoMemory),
    }
}

/// What is wrong with the entry of an object with a name of this many bytes.
fn fault_of(alloc: Global, size: usize) -> Result<Option<NameError>, NameError> {
    let secrets = secrets(alloc)?;
    let name = name_of_size(alloc, &secrets, size)?;
    Ok(queue_name(alloc, &secrets, &name, 1_401_230_000).err())
}

#[test]
fn paths_of_more_than_2035_bytes_have_no_entry(rt: HostRuntime) {
    for (size, fault) in SIZES {
        assert!(rt; fault_of(rt.alloc(), size) == Ok(fault));
    }
}
