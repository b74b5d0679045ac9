use crate::hashpath::{OBJECT_HASH, secrets};
use std::alloc::Global;
use sw_hashpath::{BadFile, DecodeError, Secrets};
use sw_outside::NoMemory;
use sw_pending::{
    Filed, NAME_ROOM, RecordKey, decode, encode, folder, laws, read_name, write_name,
};
use sw_timestamp::Timestamp;

/// A record of which nobody was told.
const RECORD: &[u8] = b"SWC1 pending
path /a/c/o
time 0000000005.00000
queue 0
done -

";

/// Records, each as it is written.
const RECORDS: [&[u8]; 4] = [
    RECORD,
    b"SWC1 pending
path /a/c/o
time 0000000005.00000
queue 0
done 0,1

",
    b"SWC1 pending
path /.expiring_objects/1401148800/1401230000-a/c/o
time 9999999999.99999
queue 1
done 7

",
    b"SWC1 pending
path /AUTH_test/a%20b/%C3%BC/x%0A%25.txt
time 1401224048.22541
queue 0
done 0,9,10,99,100,255

",
];

/// The copy of the record that this text is.
fn record_of(alloc: Global, secrets: &Secrets, text: &[u8]) -> Result<Filed, DecodeError> {
    Ok(decode(alloc, secrets, text)?.copy(alloc)?)
}

/// Whether the record that this text is has this text.
fn is_written_alike(alloc: Global, secrets: &Secrets, text: &[u8]) -> Result<bool, DecodeError> {
    let filed = record_of(alloc, secrets, text)?;
    Ok(encode(alloc, &filed)?.as_slice() == text)
}

fn are_written_alike(alloc: Global) -> Result<bool, DecodeError> {
    let secrets = secrets(alloc)?;
    for text in RECORDS {
        if !is_written_alike(alloc, &secrets, text)? {
            return Ok(false);
        }
    }
    Ok(true)
}

#[test]
fn records_are_read_and_written_alike(rt: HostRuntime) {
    assert!(rt; are_written_alike(rt.alloc()) == Ok(true));
    laws::one_spelling();
    laws::reads_back();
    laws::some_outcome();
    laws::one_outcome();
    laws::decoded_is_outcome();
    laws::decoded_reads_back();
}

/// Bytes that are no record, and the first fault that they have.
const FAULTS: [(&[u8], BadFile); 8] = [
    (b"", BadFile::Header),
    (b"SWC1 ts\n", BadFile::Header),
    (b"SWC1 pending", BadFile::Header),
    (b"SWC1 pending\n", BadFile::Field),
    (
        b"SWC1 pending\npath /a/c\ntime 0000000005.00000\nqueue 0\ndone -\n\n",
        BadFile::Field,
    ),
    (
        b"SWC1 pending\npath /a/c/o\ntime 5\nqueue 0\ndone -\n\n",
        BadFile::Field,
    ),
    (
        b"SWC1 pending\npath /a/c/o\ntime 0000000005.00000\ndone -\nqueue 0\n\n",
        BadFile::Field,
    ),
    (
        b"SWC1 pending\npath /a/c/o\ntime 0000000005.00000\nqueue 0\ndone -\n\n\n",
        BadFile::Length,
    ),
];

/// What a record begins with up to its flag.
const FRONT: &[u8] = b"SWC1 pending\npath /a/c/o\ntime 0000000005.00000\nqueue ";

/// Ends of records of an account that has no queue, and their first fault.
const ENDS: [(&[u8], BadFile); 14] = [
    (b"1\ndone -\n\n", BadFile::Field),
    (b"2\ndone -\n\n", BadFile::Field),
    (b"0\n\ndone -\n\n", BadFile::Field),
    (b"0\ndone \n\n", BadFile::Field),
    (b"0\ndone 0,\n\n", BadFile::Field),
    (b"0\ndone -,0\n\n", BadFile::Field),
    (b"0\ndone 1,0\n\n", BadFile::Field),
    (b"0\ndone 1,1\n\n", BadFile::Field),
    (b"0\ndone 0, 1\n\n", BadFile::Field),
    (b"0\ndone 00\n\n", BadFile::Field),
    (b"0\ndone 256\n\n", BadFile::Field),
    (b"0\ndone +1\n\n", BadFile::Field),
    (b"0\ndone 0", BadFile::Field),
    (b"0\ndone 0\n\nabc", BadFile::Length),
];

/// Whether the first fault of these bytes is this one.
fn has_fault(alloc: Global, secrets: &Secrets, bytes: &[u8], bad: BadFile) -> bool {
    match decode(alloc, secrets, bytes) {
        Ok(_filed) => false,
        Err(error) => error == DecodeError::Bad(bad),
    }
}

/// Whether the first fault of a record with this end is this one.
fn ends_in_fault(
    alloc: Global,
    secrets: &Secrets,
    end: &[u8],
    bad: BadFile,
) -> Result<bool, NoMemory> {
    let mut bytes = Vec::from_slice(alloc, FRONT)?;
    bytes.extend_from_slice(end)?;
    Ok(has_fault(alloc, secrets, &bytes, bad))
}

fn have_their_faults(alloc: Global) -> Result<bool, NoMemory> {
    let secrets = secrets(alloc)?;
    for (bytes, bad) in FAULTS {
        if !has_fault(alloc, &secrets, bytes, bad) {
            return Ok(false);
        }
    }
    for (end, bad) in ENDS {
        if !ends_in_fault(alloc, &secrets, end, bad)? {
            return Ok(false);
        }
    }
    Ok(true)
}

#[test]
fn bytes_that_are_no_record_have_the_first_fault_that_holds(rt: HostRuntime) {
    assert!(rt; have_their_faults(rt.alloc()) == Ok(true));
}

/// Devices as they are marked, and the line of those that are done then.
const MARKS: [(u8, &[u8]); 5] = [
    (1, b"done 1\n\n"),
    (0, b"done 0,1\n\n"),
    (1, b"done 0,1\n\n"),
    (255, b"done 0,1,255\n\n"),
    (7, b"done 0,1,7,255\n\n"),
];

/// Whether the device is done once it is marked, and the record ends so.
fn is_marked(alloc: Global, filed: &mut Filed, device: u8, end: &[u8]) -> Result<bool, NoMemory> {
    filed.mark(alloc, device)?;
    Ok(filed.is_done(device) && encode(alloc, filed)?.as_slice().ends_with(end))
}

/// The record of which nobody was told.
fn new_record(alloc: Global) -> Result<Filed, DecodeError> {
    let secrets = secrets(alloc)?;
    decode(alloc, &secrets, RECORD)
}

fn are_marked(alloc: Global) -> Result<bool, DecodeError> {
    let mut filed = new_record(alloc)?;
    let new = filed.are_done(&[]) && !filed.are_done(&[1]);
    for (device, end) in MARKS {
        if !is_marked(alloc, &mut filed, device, end)? {
            return Ok(false);
        }
    }
    Ok(new && filed.are_done(&[1, 0]) && !filed.are_done(&[0, 2]))
}

#[test]
fn devices_are_marked_in_order(rt: HostRuntime) {
    assert!(rt; are_marked(rt.alloc()) == Ok(true));
    laws::marks_add();
    laws::marks_are_once();
}

/// The name of that record's file.
const NAME: &[u8] = b"06fbf0b514e5199dfc4e00f42eb5ea83-0000000005.00000";

/// Texts that name no record's file.
const OTHERS: [&[u8]; 6] = [
    b"",
    b"06fbf0b514e5199dfc4e00f42eb5ea83",
    b"06fbf0b514e5199dfc4e00f42eb5ea8-0000000005.00000",
    b"06FBF0B514E5199DFC4E00F42EB5EA83-0000000005.00000",
    b"06fbf0b514e5199dfc4e00f42eb5ea83-5",
    b"06fbf0b514e5199dfc4e00f42eb5ea83-0000000005.00000.data",
];

/// Whether the text is read as this key, and the key written as the text, at the front of its room alone.
fn is_name_of(text: &[u8], key: &RecordKey) -> bool {
    let mut room = [b'x'; NAME_ROOM];
    let count = write_name(key, &mut room);
    read_name(text) == Some(*key)
        && &room[..count] == text
        && &room[count..] == &[b'x'; NAME_ROOM][count..]
}

/// Whether that record has this key.
fn is_key_of_record(key: &RecordKey) -> bool {
    key.hash == OBJECT_HASH && Some(key.time) == Timestamp::from_units(500_000)
}

fn is_in_its_place(alloc: Global) -> Result<bool, DecodeError> {
    let key = new_record(alloc)?.key();
    Ok(
        is_key_of_record(&key)
            && folder(&key.hash).as_slice() == b"async_pending/a83".as_slice()
            && is_name_of(NAME, &key),
    )
}

#[test]
fn a_record_has_its_place(rt: HostRuntime) {
    assert!(rt; is_in_its_place(rt.alloc()) == Ok(true));
    for text in OTHERS {
        assert!(rt; read_name(text).is_none());
    }
    laws::named_is();
    laws::names_differ();
}
