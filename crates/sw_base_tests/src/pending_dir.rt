use crate::hashpath::secrets;
use std::alloc::Global;
use sw_hashpath::{BadFile, Secrets};
use sw_outside::{Failed, FailingCall, NoMemory};
use sw_pending::{Filed, RecordKey, decode, encode};
use sw_pending_dir::{ReadFault, laws, put_record, read_record, records, unlink_record};
use sw_volume::{MemVolume, SoundVolume, Volume};

/// A call, with what it is told.
enum Call<'a> {
    Put(&'a [u8]),
    Read(&'a [u8], bool),
    Unlink(&'a [u8]),
    All(&'a [&'a [u8]]),
    Stray(&'a [u8], &'a [u8], &'a [u8]),
}

use Call::{All, Put, Read, Stray, Unlink};

/// A record in the folder `a83`.
const EARLY: &[u8] = b"SWC1 pending
path /a/c/o
time 0000000005.00000
queue 0
done -

";

/// A later one of the same name.
const LATE: &[u8] = b"SWC1 pending
path /a/c/o
time 0000000006.00000
queue 0
done 0,1

";

/// The same with one device more.
const MARKED: &[u8] = b"SWC1 pending
path /a/c/o
time 0000000006.00000
queue 0
done 0,1,7

";

/// A record in the folder `206`, whose hash is greater.
const OTHER: &[u8] = b"SWC1 pending
path /a/c/p
time 0000000005.00000
queue 0
done -

";

const EARLY_NAME: &[u8] = b"06fbf0b514e5199dfc4e00f42eb5ea83-0000000005.00000";

const OTHER_NAME: &[u8] = b"6dab1334c129520eb96d6c65497f8206-0000000005.00000";

/// Calls in their order, and what each comes to. Those that make more than one call of the volume are `All`: a listing of the whole, one of each
/// folder of three digits, and a read of each file that is named as a record of its folder.
static CALLS: [(Call, Result<(), ReadFault>); 22] = [
    (All(&[]), Ok(())),
    (Put(EARLY), Err(ReadFault::Failed)),
    (Read(EARLY, false), Ok(())),
    (Put(LATE), Ok(())),
    (Put(EARLY), Err(ReadFault::Failed)),
    (Read(EARLY, true), Ok(())),
    (Put(OTHER), Ok(())),
    (Put(MARKED), Ok(())),
    (Read(LATE, true), Ok(())),
    (All(&[OTHER, EARLY, MARKED]), Ok(())),
    (Unlink(EARLY), Err(ReadFault::Failed)),
    (Read(EARLY, true), Ok(())),
    (Unlink(EARLY), Ok(())),
    (Read(EARLY, false), Ok(())),
    (All(&[OTHER, MARKED]), Ok(())),
    (All(&[]), Err(ReadFault::Failed)),
    (
        Stray(
            b"async_pending/a83",
            OTHER_NAME,
            b"in the folder of another key",
        ),
        Ok(()),
    ),
    (
        Stray(
            b"async_pending/A83",
            EARLY_NAME,
            b"in a folder of no suffix",
        ),
        Ok(()),
    ),
    (All(&[OTHER, MARKED]), Ok(())),
    (Stray(b"async_pending/a83", EARLY_NAME, OTHER), Ok(())),
    (Read(EARLY, true), Err(ReadFault::Damaged(BadFile::Field))),
    (All(&[]), Err(ReadFault::Damaged(BadFile::Field))),
];

/// The calls of the volume that fail, by their numbers: the first put, the third one with its change made, the first unlink, and the third call of the
/// last list but two.
const FAILING: [FailingCall; 4] = [
    FailingCall {
        call: 1,
        made: false,
    },
    FailingCall {
        call: 4,
        made: true,
    },
    FailingCall {
        call: 15,
        made: false,
    },
    FailingCall {
        call: 26,
        made: true,
    },
];

/// Whether a record of this key is found, or none is, as `stands` says.
fn stands_as(key: &RecordKey, found: &Option<Filed>, stands: bool) -> bool {
    match found {
        Some(filed) => stands && filed.key() == *key,
        None => !stands,
    }
}

/// Whether the records have these texts, in their order.
fn have_texts(alloc: Global, found: &[Filed], texts: &[&[u8]]) -> Result<bool, ReadFault> {
    for (filed, text) in found.iter().zip(texts) {
        if encode(alloc, filed)?.as_slice() != *text {
            return Ok(false);
        }
    }
    Ok(found.len() == texts.len())
}

fn key_of(alloc: Global, secrets: &Secrets, text: &[u8]) -> Result<RecordKey, ReadFault> {
    Ok(decode(alloc, secrets, text)?.key())
}

fn puts<V: Volume>(
    alloc: Global,
    volume: &mut V,
    secrets: &Secrets,
    text: &[u8],
) -> Result<bool, ReadFault> {
    let filed = decode(alloc, secrets, text)?;
    put_record(alloc, volume, &filed)?;
    Ok(true)
}

/// Whether the call tells what it is to tell, where it doesn't fail.
fn is_as_told<V: Volume>(
    alloc: Global,
    volume: &mut V,
    secrets: &Secrets,
    call: &Call,
) -> Result<bool, ReadFault> {
    match call {
        Put(text) => puts(alloc, volume, secrets, text),
        Read(text, stands) => {
            let key = key_of(alloc, secrets, text)?;
            let found = read_record(alloc, volume, secrets, &key)?;
            Ok(stands_as(&key, &found, *stands))
        }
        Unlink(text) => {
            let key = key_of(alloc, secrets, text)?;
            match unlink_record(volume, &key) {
                Ok(()) => Ok(true),
                Err(Failed) => Err(ReadFault::Failed),
            }
        }
        All(texts) => have_texts(alloc, &records(alloc, volume, secrets)?, texts),
        Stray(dir, file, bytes) => {
            volume.put(alloc, dir, file, bytes)?;
            Ok(true)
        }
    }
}

/// The number of the first call that comes to something else.
fn first_other<V: Volume>(
    alloc: Global,
    volume: &mut V,
    calls: &[(Call, Result<(), ReadFault>)],
) -> Result<Option<usize>, NoMemory> {
    let secrets = secrets(alloc)?;
    for (number, (call, wanted)) in calls.iter().enumerate() {
        let wanted = match wanted {
            Ok(()) => Ok(true),
            Err(fault) => Err(*fault),
        };
        if is_as_told(alloc, volume, &secrets, call) != wanted {
            return Ok(Some(number));
        }
    }
    Ok(None)
}

/// The same over a volume that fails as it is planned to.
fn first_other_of_failing(alloc: Global) -> Result<Option<usize>, NoMemory> {
    let mut volume = MemVolume::new(alloc, Vec::from_slice(alloc, &FAILING)?);
    first_other(alloc, &mut volume, &CALLS)
}

#[test]
fn records_stand_at_their_keys_through_calls_that_fail(rt: HostRuntime) {
    assert_eq!(rt; first_other_of_failing(rt.alloc()), Ok(None));
}

/// The same without a failure.
static SOUND: [(Call, Result<(), ReadFault>); 6] = [
    (Put(LATE), Ok(())),
    (Put(OTHER), Ok(())),
    (Put(EARLY), Ok(())),
    (All(&[OTHER, EARLY, LATE]), Ok(())),
    (Unlink(LATE), Ok(())),
    (All(&[OTHER, EARLY]), Ok(())),
];

#[test]
fn all_records_are_told_in_order_of_their_folders(rt: HostRuntime) {
    let alloc = rt.alloc();
    assert_eq!(rt;
        first_other(alloc, &mut SoundVolume::new(alloc), &SOUND),
        Ok(None)
    );
    laws::place_is_of_key();
    laws::what_stands_is_of_key();
    laws::one_reading();
    laws::order_is_told();
    laws::elsewhere_keeps();
    laws::objects_stay();
}
