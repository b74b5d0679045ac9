ghost use Rattle.std.specs.Prelude.{◌≡◌};
ghost use Rattle.sw_hashdir.specs.Steps.{IsHashed};

use crate::asked::{
    Asked, Told, change_of, failing_calls, name_under, secrets, told_by_answer, told_by_got,
};
use Asked::{
    Delete, DeleteExpired, Get, Post, Put, PutIfNone, Restart, SentDelete, SentMeta, SentPut,
};
use Told::{
    Buried, Conflict, Done, Exists, Failed, Full, NotFound, NotFoundSince, Nothing, Object, Updated,
};
use std::alloc::Global;
use std::test::Fail;
use sw_hashpath::{Name, Secrets};
use sw_objdir::ObjDir;
use sw_object_steps::{Answer, Change};
use sw_outside::{Bytes, NoMemory};
use sw_volume::MemVolume;

/// How many bits of the hash tell the partition.
const POWER: u8 = 8;

/// The names of objects: their partitions are 6, 109 and 7.
pub const O: &[u8] = b"o";

pub const P: &[u8] = b"p";

pub const S: &[u8] = b"s";

/// The last segments of paths: data, metadata and tombstones, by the units of their times.
const DATA_20: &[u8] = b"/0000000000.00020.data";

const DATA_30: &[u8] = b"/0000000000.00030.data";

const DATA_40: &[u8] = b"/0000000000.00040.data";

const DATA_50: &[u8] = b"/0000000000.00050.data";

const META_20: &[u8] = b"/0000000000.00020.meta";

const META_30: &[u8] = b"/0000000000.00030.meta";

const META_40: &[u8] = b"/0000000000.00040.meta";

const TOMB_20: &[u8] = b"/0000000000.00020.ts";

const TOMB_30: &[u8] = b"/0000000000.00030.ts";

const TOMB_40: &[u8] = b"/0000000000.00040.ts";

/// The last segments of all paths, in the order of the paths.
type Segments = &'static [&'static [u8]];

/// A step of an object, and what it is answered.
pub type Row = (&'static [u8], Asked, Told);

/// How many entries a journal takes, and how many bytes of bodies.
pub type Limits = (u64, u64);

/// Limits that no table reaches but those that are about them.
pub const AMPLE: Limits = (10, 100);

/// A directory and the secrets of its ring.
#[derive(Drop)]
struct Lock {
    dir: ObjDir<MemVolume>,
    secrets: Secrets,
    ghost ours: { dir.secrets ≡ secrets },
}

/// A directory over an empty volume of which these calls fail, counted from 0, with or without their change.
fn begun(alloc: Global, limits: Limits, failing: &[(u64, bool)]) -> Result<Lock, Fail> {
    let volume = MemVolume::new(alloc, failing_calls(alloc, failing)?);
    Ok(lock_over(alloc, volume, secrets(alloc)?, limits)?)
}

fn lock_over(
    alloc: Global,
    volume: MemVolume,
    secrets: Secrets,
    limits: Limits,
) -> Result<Lock, NoMemory> {
    let (max_entries, max_bytes) = limits;
    let given = secrets.copy(alloc)?;
    let dir = ObjDir::start(alloc, volume, POWER, given, max_entries, max_bytes);
    Ok(Lock { dir, secrets })
}

/// What the change is answered, or a read where there is none.
fn answered(
    alloc: Global,
    dir: &mut ObjDir<MemVolume>,
    name: &Name,
    change: Option<Change>,
) -> Result<Told, Fail>
    requires hashed { IsHashed dir.old.secrets name.now }
    ensures same { dir.new.secrets ≡ dir.old.secrets }
{
    let Some(change) = change else {
        return Ok(told_by_got(&dir.get(alloc, name)));
    };
    if !change.is_write() {
        return Err(Fail::from("no write"));
    }
    let mut settled = Vec::new(alloc);
    Ok(told_by_answer(&dir.change(alloc, name, change, &mut settled)))
}

impl Lock {
    /// Makes a step, and says what it is answered.
    fn step(
        mut self,
        alloc: Global,
        limits: Limits,
        object: &[u8],
        asked: Asked,
    ) -> Result<(Lock, Told), Fail> {
        if let Restart = asked {
            return Ok((self.begin_anew(alloc, limits)?, Nothing));
        }
        let told = self.told(alloc, object, asked)?;
        Ok((self, told))
    }

    /// What the step is answered, where it is no restart.
    fn told(&mut self, alloc: Global, object: &[u8], asked: Asked) -> Result<Told, Fail> {
        let name = name_under(alloc, &self.secrets, object)?;
        let change = change_of(alloc, asked)?;
        answered(alloc, &mut self.dir, &name, change)
    }

    /// The same of the object `o`, by the call of the step's own name.
    fn told_by_name(&mut self, alloc: Global, asked: Asked) -> Result<Told, Fail> {
        let name = name_under(alloc, &self.secrets, O)?;
        Ok(match change_of(alloc, asked)? {
            Some(change) => told_by_answer(&change_by_name(alloc, &mut self.dir, &name, change)),
            None => told_by_got(&self.dir.get(alloc, &name)),
        })
    }

    /// The directory that begins on what the volume has now.
    fn begin_anew(self, alloc: Global, limits: Limits) -> Result<Lock, NoMemory> {
        let Lock { dir, secrets } = self;
        lock_over(alloc, dir.into_volume(), secrets, limits)
    }

    /// Whether these are the last segments of all paths, in their order.
    fn has_files(&mut self, alloc: Global, wanted: &[&[u8]]) -> bool {
        match self.dir.all_files(alloc) {
            Ok(paths) => end_so(paths.as_slice(), wanted),
            Err(_) => false,
        }
    }

    /// The same, where the question is asked.
    fn has_left(&mut self, alloc: Global, left: Option<&[&[u8]]>) -> bool {
        match left {
            Some(left) => self.has_files(alloc, left),
            None => true,
        }
    }
}

fn end_so(paths: &[Bytes], wanted: &[&[u8]]) -> bool {
    paths.len() == wanted.len()
        && paths
            .iter()
            .zip(wanted)
            .all(|(path, end)| path.as_slice().ends_with(end))
}

/// Whether a directory of whose volume these calls fail answers so, first to these steps and then to those; and whether these files are
/// left, where the question is asked.
pub fn goes_so(
    alloc: Global,
    limits: Limits,
    failing: &[(u64, bool)],
    first: &[Row],
    then: &[Row],
    left: Option<&[&[u8]]>,
) -> Result<bool, Fail> {
    let mut lock = begun(alloc, limits, failing)?;
    let mut as_told = true;
    for (object, asked, told) in first.iter().chain(then) {
        let (next, found) = lock.step(alloc, limits, object, *asked)?;
        lock = next;
        as_told = as_told && found == *told;
    }
    Ok(as_told && lock.has_left(alloc, left))
}

/// What stands before the step.
const NOTHING: &[Row] = &[];

const DATA: &[Row] = &[(O, Put(20), Done(1))];

const META: &[Row] = &[(O, Put(20), Done(1)), (O, Post(30), Done(2))];

/// Whether the change is made of a call that fails. A listing and a read have none, so that they fail in the same way.
const EITHER: &[bool] = &[false, true];

const MADE: &[bool] = &[true];

const LOST: &[bool] = &[false];

/// The call of a step that fails, counted from 0: the listing, a read where it reads, the put of its record where it files one, the put of its file, and
/// the unlinks. What the step is answered; what a read gets next, and the files of objects then; and what in place of the read the same step is answered
/// again.
type Fault = (u64, &'static [bool], Told, Told, Segments, Told);

/// What stands, the step, and what comes of its failures.
type Kind = (&'static [Row], Asked, &'static [Fault]);

/// What a read gets of the object with its metadata, and of tombstones.
const UPDATED: Told = Updated(30, 2);

const GONE_20: Told = NotFoundSince(20);

const GONE_30: Told = NotFoundSince(30);

const GONE_40: Told = NotFoundSince(40);

const KINDS: &[Kind] = &[
    // A put over nothing. Where the put of its record failed nothing came of it, and the same put finds out whether the record stands.
    (
        NOTHING,
        Put(20),
        &[
            (0, EITHER, Failed, NotFound, &[], Done(1)),
            (1, MADE, Failed, NotFound, &[], Done(2)),
            (1, LOST, Failed, NotFound, &[], Done(1)),
            (2, MADE, Failed, Object(20, 2), &[DATA_20], Conflict(20)),
            (2, LOST, Failed, NotFound, &[], Done(2)),
        ],
    ),
    // Over data. A call that failed in front of the unlink leaves what it would have unlinked.
    (
        DATA,
        Put(30),
        &[
            (0, EITHER, Failed, Object(20, 1), &[DATA_20], Done(2)),
            (1, MADE, Failed, Object(20, 1), &[DATA_20], Done(3)),
            (1, LOST, Failed, Object(20, 1), &[DATA_20], Done(2)),
            (
                2,
                MADE,
                Failed,
                Object(30, 3),
                &[DATA_20, DATA_30],
                Conflict(30),
            ),
            (2, LOST, Failed, Object(20, 2), &[DATA_20], Done(3)),
            (3, MADE, Done(2), Object(30, 2), &[DATA_30], Conflict(30)),
            (
                3,
                LOST,
                Done(2),
                Object(30, 2),
                &[DATA_20, DATA_30],
                Conflict(30),
            ),
        ],
    ),
    // A post over data.
    (
        DATA,
        Post(30),
        &[
            (0, EITHER, Failed, Object(20, 1), &[DATA_20], Done(2)),
            (1, MADE, Failed, UPDATED, &[DATA_20, META_30], Conflict(30)),
            (1, LOST, Failed, Object(20, 1), &[DATA_20], Done(2)),
        ],
    ),
    // Over metadata.
    (
        META,
        Post(40),
        &[
            (
                1,
                MADE,
                Failed,
                Updated(40, 3),
                &[DATA_20, META_30, META_40],
                Conflict(40),
            ),
            (
                2,
                MADE,
                Done(3),
                Updated(40, 3),
                &[DATA_20, META_40],
                Conflict(40),
            ),
            (
                2,
                LOST,
                Done(3),
                Updated(40, 3),
                &[DATA_20, META_30, META_40],
                Conflict(40),
            ),
        ],
    ),
    // A deletion of data.
    (
        DATA,
        Delete(30),
        &[
            (0, EITHER, Failed, Object(20, 1), &[DATA_20], Done(2)),
            (1, MADE, Failed, Object(20, 1), &[DATA_20], Done(3)),
            (1, LOST, Failed, Object(20, 1), &[DATA_20], Done(2)),
            (2, MADE, Failed, GONE_30, &[DATA_20, TOMB_30], GONE_30),
            (2, LOST, Failed, Object(20, 2), &[DATA_20], Done(3)),
            (3, MADE, Done(2), GONE_30, &[TOMB_30], GONE_30),
            (3, LOST, Done(2), GONE_30, &[DATA_20, TOMB_30], GONE_30),
        ],
    ),
    // Of nothing.
    (
        NOTHING,
        Delete(20),
        &[
            (0, EITHER, Failed, NotFound, &[], Buried(1)),
            (1, MADE, Failed, NotFound, &[], Buried(2)),
            (1, LOST, Failed, NotFound, &[], Buried(1)),
            (2, MADE, Failed, GONE_20, &[TOMB_20], GONE_20),
            (2, LOST, Failed, NotFound, &[], Buried(2)),
        ],
    ),
    // Of what expires then: the metadata is read, which tells the second, and data and metadata are unlinked.
    (
        META,
        DeleteExpired(40),
        &[
            (0, EITHER, Failed, UPDATED, &[DATA_20, META_30], Done(3)),
            (1, EITHER, Failed, UPDATED, &[DATA_20, META_30], Done(3)),
            (2, MADE, Failed, UPDATED, &[DATA_20, META_30], Done(4)),
            (2, LOST, Failed, UPDATED, &[DATA_20, META_30], Done(3)),
            (
                3,
                MADE,
                Failed,
                GONE_40,
                &[DATA_20, META_30, TOMB_40],
                Conflict(40),
            ),
            (
                3,
                LOST,
                Failed,
                Updated(30, 3),
                &[DATA_20, META_30],
                Done(4),
            ),
            (4, MADE, Done(3), GONE_40, &[TOMB_40], Conflict(40)),
            (4, LOST, Done(3), GONE_40, &[DATA_20, TOMB_40], Conflict(40)),
            (5, MADE, Done(3), GONE_40, &[TOMB_40], Conflict(40)),
            (5, LOST, Done(3), GONE_40, &[META_30, TOMB_40], Conflict(40)),
        ],
    ),
    // Writes that another device has file no record.
    (
        NOTHING,
        SentPut(20),
        &[
            (0, EITHER, Failed, NotFound, &[], Done(1)),
            (1, MADE, Failed, Object(20, 1), &[DATA_20], Conflict(20)),
            (1, LOST, Failed, NotFound, &[], Done(1)),
        ],
    ),
    (
        NOTHING,
        SentDelete(20),
        &[
            (0, EITHER, Failed, NotFound, &[], Done(1)),
            (1, MADE, Failed, GONE_20, &[TOMB_20], Conflict(20)),
            (1, LOST, Failed, NotFound, &[], Done(1)),
        ],
    ),
    (
        NOTHING,
        SentMeta(20),
        &[
            (0, EITHER, Failed, NotFound, &[], Done(1)),
            (1, MADE, Failed, NotFound, &[META_20], Conflict(20)),
            (1, LOST, Failed, NotFound, &[], Done(1)),
        ],
    ),
    // A read of data, and of data with metadata. The call past its last is the next step's.
    (
        DATA,
        Get,
        &[
            (0, EITHER, Failed, Object(20, 1), &[DATA_20], Object(20, 1)),
            (1, EITHER, Failed, Object(20, 1), &[DATA_20], Object(20, 1)),
            (2, EITHER, Object(20, 1), Failed, &[DATA_20], Failed),
        ],
    ),
    (
        META,
        Get,
        &[
            (0, EITHER, Failed, UPDATED, &[DATA_20, META_30], UPDATED),
            (1, EITHER, Failed, UPDATED, &[DATA_20, META_30], UPDATED),
            (2, EITHER, Failed, UPDATED, &[DATA_20, META_30], UPDATED),
            (3, EITHER, UPDATED, Failed, &[DATA_20, META_30], Failed),
        ],
    ),
    // Of nothing.
    (
        NOTHING,
        Get,
        &[
            (0, EITHER, Failed, NotFound, &[], NotFound),
            (1, EITHER, NotFound, Failed, &[], Failed),
        ],
    ),
];

/// How many calls these steps make, which nothing refuses and which make nothing obsolete: a post puts its file alone, and a put its record before it.
fn calls_of(rows: &[Row]) -> u64 {
    let mut calls: u64 = 0;
    for (_, asked, _) in rows {
        calls = calls.saturating_add(match asked {
            Post(_) => 2,
            _ => 3,
        });
    }
    calls
}

/// Whether it goes as the fault has it.
fn fails_so(alloc: Global, first: &[Row], asked: Asked, fault: &Fault) -> Result<bool, Fail> {
    let (call, outcomes, told, got, left, again) = fault;
    let call = call.saturating_add(calls_of(first));
    let read = [(O, asked, *told), (O, Get, *got)];
    let repeated = [(O, asked, *told), (O, asked, *again)];
    for made in *outcomes {
        let failing = [(call, *made)];
        if !goes_so(alloc, AMPLE, &failing, first, &read, Some(*left))?
            || !goes_so(alloc, AMPLE, &failing, first, &repeated, None)?
        {
            return Ok(false);
        }
    }
    Ok(true)
}

/// Whether it goes so in all failures.
fn all_fail_so(alloc: Global, kind: &Kind) -> Result<bool, Fail> {
    let (first, asked, faults) = kind;
    for fault in *faults {
        if !fails_so(alloc, first, *asked, fault)? {
            return Ok(false);
        }
    }
    Ok(true)
}

#[test]
fn a_failed_call_is_told_and_settled_and_a_failed_unlink_changes_no_answer(
    rt: HostRuntime,
) -> Result<(), Fail> {
    let alloc = rt.alloc();
    for kind in KINDS {
        assert!(rt; all_fail_so(alloc, kind)?);
    }
    Ok(())
}

/// The limits; the calls that fail, counted from 0 over all steps, and whether their changes are made; what is answered, and the files in
/// the end, by byte order of their paths: those of `p` come before those of `o`, and those of `s` behind.
type Course = (Limits, &'static [(u64, bool)], &'static [Row], Segments);

const COURSES: &[Course] = &[
    // A journal of one entry is full, until it begins anew. What stands refuses first.
    (
        (1, 100),
        &[],
        &[
            (O, Put(20), Done(1)),
            (P, Put(20), Full),
            (O, Put(20), Conflict(20)),
            (O, Get, Object(20, 1)),
            (O, Restart, Nothing),
            (P, Put(20), Done(1)),
            (O, Put(30), Full),
        ],
        &[DATA_20, DATA_20],
    ),
    // So is one whose bodies have together three bytes; a deletion has none.
    (
        (10, 3),
        &[],
        &[
            (O, Put(20), Done(1)),
            (O, Put(30), Full),
            (P, Put(20), Full),
            (O, Delete(30), Done(2)),
            (O, Put(40), Full),
        ],
        &[TOMB_30],
    ),
    // What a failure left to be unlinked goes with the next write.
    (
        AMPLE,
        &[(5, true)],
        &[
            (O, Put(20), Done(1)),
            (O, Put(30), Failed),
            (O, Put(40), Done(4)),
        ],
        &[DATA_40],
    ),
    (
        AMPLE,
        &[(6, false)],
        &[
            (O, Put(20), Done(1)),
            (O, Put(30), Done(2)),
            (O, Put(40), Done(3)),
        ],
        &[DATA_40],
    ),
    (
        AMPLE,
        &[(5, true)],
        &[
            (O, Put(20), Done(1)),
            (O, Delete(30), Failed),
            (O, Delete(40), Buried(4)),
        ],
        &[TOMB_40],
    ),
    // A doubt counts for the limits, until it is found that it wasn't made. The record that was filed before it stays an entry.
    (
        (2, 100),
        &[(2, false)],
        &[
            (O, Put(20), Failed),
            (P, Put(20), Full),
            (O, Put(30), Done(2)),
        ],
        &[DATA_30],
    ),
    (
        (2, 100),
        &[(2, true)],
        &[(O, Put(20), Failed), (P, Put(20), Full), (O, Put(30), Full)],
        &[DATA_20],
    ),
    (
        (4, 100),
        &[(2, false), (5, true)],
        &[
            (O, Put(20), Failed),
            (P, Put(20), Failed),
            (S, Put(20), Full),
            (P, Get, Object(20, 3)),
            (S, Put(20), Full),
            (O, Get, NotFound),
            (S, Put(20), Done(4)),
        ],
        &[DATA_20, DATA_20],
    ),
    (
        (10, 3),
        &[(2, false)],
        &[
            (O, Put(20), Failed),
            (P, Put(20), Full),
            (O, Get, NotFound),
            (P, Put(20), Done(2)),
        ],
        &[DATA_20],
    ),
    // So does that of a record. Only a step that comes to its file settles it: no listing does, nor a step of another time, nor one that is refused.
    (
        (1, 100),
        &[(1, false)],
        &[
            (O, Put(20), Failed),
            (O, Get, NotFound),
            (P, Put(20), Full),
            (O, Put(30), Full),
            (O, Post(20), NotFound),
            (O, Put(20), Done(1)),
        ],
        &[DATA_20],
    ),
    (
        (1, 100),
        &[(1, true)],
        &[
            (O, Put(20), Failed),
            (P, Put(20), Full),
            (O, Put(20), Full),
            (O, Restart, Nothing),
            (O, Put(20), Done(1)),
        ],
        &[DATA_20],
    ),
    // The doubt of an earlier write's record stays beside later writes. Its own name and time are refused then, so that nothing settles it.
    (
        (3, 100),
        &[(1, false)],
        &[
            (O, Put(20), Failed),
            (O, Put(30), Done(1)),
            (O, Put(20), Conflict(30)),
            (O, Put(40), Done(2)),
            (O, Put(50), Full),
            (O, Restart, Nothing),
            (O, Put(50), Done(1)),
        ],
        &[DATA_50],
    ),
    // A read of the record fails, and then its second put: its doubt is there at each new try.
    (
        AMPLE,
        &[(1, true), (3, false), (6, false)],
        &[
            (O, Put(20), Failed),
            (O, Put(20), Failed),
            (O, Put(20), Failed),
            (O, Get, NotFound),
            (O, Put(20), Done(3)),
        ],
        &[DATA_20],
    ),
    // Of two doubts the first was made, or the second, or both; they are settled in either order.
    (
        AMPLE,
        &[(2, true), (5, false)],
        &[
            (O, Put(20), Failed),
            (P, Put(30), Failed),
            (O, Get, Object(20, 3)),
            (P, Get, NotFound),
        ],
        &[DATA_20],
    ),
    (
        AMPLE,
        &[(2, true), (5, false)],
        &[
            (O, Put(20), Failed),
            (P, Put(30), Failed),
            (P, Get, NotFound),
            (O, Get, Object(20, 3)),
        ],
        &[DATA_20],
    ),
    (
        AMPLE,
        &[(2, false), (5, true)],
        &[
            (O, Put(20), Failed),
            (P, Put(30), Failed),
            (O, Get, NotFound),
            (P, Get, Object(30, 3)),
        ],
        &[DATA_30],
    ),
    (
        AMPLE,
        &[(2, false), (5, true)],
        &[
            (O, Put(20), Failed),
            (P, Put(30), Failed),
            (P, Get, Object(30, 3)),
            (O, Put(40), Done(4)),
        ],
        &[DATA_30, DATA_40],
    ),
    (
        AMPLE,
        &[(2, true), (5, true)],
        &[
            (O, Put(20), Failed),
            (P, Put(30), Failed),
            (P, Get, Object(30, 3)),
            (O, Get, Object(20, 4)),
        ],
        &[DATA_30, DATA_20],
    ),
    (
        AMPLE,
        &[(2, true), (5, true)],
        &[
            (O, Put(20), Failed),
            (P, Put(30), Failed),
            (O, Put(40), Done(4)),
            (P, Delete(40), Done(6)),
        ],
        &[TOMB_40, DATA_40],
    ),
    // A step of another object settles none.
    (
        AMPLE,
        &[(2, true)],
        &[
            (O, Put(20), Failed),
            (P, Put(30), Done(2)),
            (S, Get, NotFound),
            (P, Get, Object(30, 2)),
            (O, Get, Object(20, 3)),
        ],
        &[DATA_30, DATA_20],
    ),
    // A doubt stays where the listing fails. One of the same object is settled before the next comes.
    (
        AMPLE,
        &[(2, true), (3, false)],
        &[
            (O, Put(20), Failed),
            (O, Get, Failed),
            (O, Get, Object(20, 2)),
        ],
        &[DATA_20],
    ),
    (
        AMPLE,
        &[(2, true), (5, true)],
        &[
            (O, Put(20), Failed),
            (O, Put(30), Failed),
            (O, Get, Object(30, 4)),
        ],
        &[DATA_20, DATA_30],
    ),
    (
        AMPLE,
        &[(2, true), (5, false)],
        &[
            (O, Put(20), Failed),
            (O, Put(30), Failed),
            (O, Get, Object(20, 3)),
        ],
        &[DATA_20],
    ),
    // A restart begins with what was made.
    (
        AMPLE,
        &[(2, true), (5, false)],
        &[
            (O, Put(20), Failed),
            (P, Put(30), Failed),
            (O, Restart, Nothing),
            (O, Get, Object(20, 0)),
            (P, Get, NotFound),
            (P, Put(30), Done(1)),
        ],
        &[DATA_30, DATA_20],
    ),
];

/// Whether it goes as the course has it.
fn runs_so(alloc: Global, course: &Course) -> Result<bool, Fail> {
    let (limits, failing, rows, left) = course;
    goes_so(alloc, *limits, failing, NOTHING, rows, Some(*left))
}

#[test]
fn limits_are_kept_and_doubts_are_settled_one_by_one(rt: HostRuntime) -> Result<(), Fail> {
    let alloc = rt.alloc();
    for course in COURSES {
        assert!(rt; runs_so(alloc, course)?);
    }
    Ok(())
}

/// Makes the step by the call of its own name.
fn change_by_name(alloc: Global, dir: &mut ObjDir<MemVolume>, name: &Name, change: Change) -> Answer
    requires hashed { IsHashed dir.old.secrets name.now }
    ensures same { dir.new.secrets ≡ dir.old.secrets }
{
    let mut settled = Vec::new(alloc);
    match change {
        Change::Put {
            time,
            content,
            none_match,
        } => dir.put(alloc, name, time, content, none_match, &mut settled),
        Change::Post { time, heads } => dir.post(alloc, name, time, heads, &mut settled),
        Change::Delete { time, if_delete_at } => {
            dir.delete(alloc, name, time, if_delete_at, &mut settled)
        }
        Change::Receive { write } => dir.receive(alloc, name, write, &mut settled),
        // Those at records have tests of their own.
        Change::MarkRecord { .. } | Change::DropRecord { .. } => Answer::NoMemory,
    }
}

/// One step of each kind, and what it is answered.
const NAMED: [(Asked, Told); 7] = [
    (Put(20), Done(1)),
    (PutIfNone(30), Exists),
    (Post(30), Done(2)),
    (DeleteExpired(40), Done(3)),
    (Delete(50), Buried(4)),
    (SentPut(60), Done(5)),
    (Get, Object(60, 5)),
];

/// Whether the calls by name answer so, and how many entries there are.
fn are_answered_by_name(alloc: Global) -> Result<bool, Fail> {
    let mut lock = begun(alloc, AMPLE, &[])?;
    all_are_answered(alloc, &mut lock)
}

fn all_are_answered(alloc: Global, lock: &mut Lock) -> Result<bool, Fail> {
    for (asked, told) in NAMED {
        if lock.told_by_name(alloc, asked)? != told {
            return Ok(false);
        }
    }
    Ok(lock.dir.front() == 5)
}

#[test]
fn each_kind_of_step_has_a_call_of_its_own(rt: HostRuntime) -> Result<(), Fail> {
    let alloc = rt.alloc();
    assert!(rt; are_answered_by_name(alloc)?);
    Ok(())
}
