ghost use Rattle.std.specs.Prelude.{◌≡◌, false, IfOk};
ghost use Rattle.sw_hashdir.specs.Steps.{IsHashed};
ghost use Rattle.sw_object_steps.specs.Recorded.{is_write};

use crate::asked::{content, failing_calls, name_under, secrets};
use std::alloc::Global;
use std::test::Fail;
use sw_hashpath::{Name, Secrets};
use sw_objdir::ObjDir;
use sw_object_steps::{Answer, Brief, BriefKind, Change};
use sw_outside::NoMemory;
use sw_pending::{DeviceList, Filed};
use sw_pending_dir::put_record;
use sw_timestamp::{Tag, Timestamp};
use sw_volume::MemVolume;

/// How many bits of the hash tell the partition.
const POWER: u8 = 8;

/// A step of the object `o`. Its record is that of time 20.
#[derive(Clone, Copy)]
pub enum Asked {
    Mark(u8),
    /// Of which all these devices have to be told.
    Drop(&'static [u8]),
    Put(u64),
    Delete(u64),
    /// The same of a record of another name.
    MarkOther(u8),
}

/// What it is answered.
#[derive(Clone, Copy, PartialEq, Eq)]
pub enum Told {
    Took(bool),
    Done(u64),
    Failed,
    Full,
    Other,
}

use Asked::{Delete, Drop, Mark, MarkOther, Put};
use Told::{Done, Failed, Full, Other, Took};

/// What a trail shows of what came.
const FILED: BriefKind = BriefKind::Files;

const MARKED: BriefKind = BriefKind::Marked;

const DROPPED: BriefKind = BriefKind::Dropped;

const WROTE: BriefKind = BriefKind::Wrote(Tag::Put);

const BURIED: BriefKind = BriefKind::Wrote(Tag::Del);

/// A step, what it is answered, and what it tells of the entries that came: a write tells of all but its own.
type Row = (Asked, Told, &'static [BriefKind]);

/// No call fails.
const CALM: &[(u64, bool)] = &[];

/// Marks are told once each; a record goes where all were told, or where nothing as late stands.
const MARKS: &[Row] = &[
    (Put(20), Done(1), &[]),
    (Drop(&[1, 2]), Took(false), &[]),
    (Mark(2), Took(true), &[MARKED]),
    (Mark(2), Took(true), &[]),
    (Drop(&[1, 2]), Took(false), &[]),
    (MarkOther(2), Took(false), &[]),
    (Mark(1), Took(true), &[MARKED]),
    (Drop(&[1, 2]), Took(true), &[DROPPED]),
    (Drop(&[1, 2]), Took(false), &[]),
    (Mark(1), Took(false), &[]),
    (Put(30), Done(5), &[]),
];

/// Nothing stands under the name, or what stands is earlier: there is nothing to tell any more.
const GONE: &[Row] = &[
    (Put(10), Done(1), &[]),
    (Drop(&[1, 2]), Took(true), &[DROPPED]),
    (Mark(1), Took(false), &[]),
];

/// The put of a mark fails, and was made: the next step at the record finds it, and tells it first.
const MARK_IN_DOUBT: &[Row] = &[
    (Mark(1), Failed, &[]),
    (Mark(1), Took(true), &[MARKED]),
    (Mark(2), Took(true), &[MARKED]),
];

/// It fails, and wasn't made.
const MARK_UNMADE: &[Row] = &[
    (Mark(1), Failed, &[]),
    (Mark(1), Took(true), &[MARKED]),
    (Mark(1), Took(true), &[]),
];

/// The put of a write fails, and was made: a drop that lists its directory settles it, and a mark leaves it. Its record was filed before.
const WRITE_IN_DOUBT: &[Row] = &[
    (Put(30), Failed, &[FILED]),
    (Mark(1), Took(true), &[MARKED]),
    (Drop(&[1, 2]), Took(false), &[WROTE]),
    (Drop(&[1]), Took(true), &[DROPPED]),
];

/// A write that settles the one before it tells of that, which then refuses it.
const WRITE_AGAIN: &[Row] = &[
    (Put(30), Failed, &[FILED]),
    (Put(30), Other, &[WROTE]),
    (Put(40), Done(3), &[]),
];

/// It tells of a doubt and of its own record, where its own file fails too.
const WRITE_AFTER: &[Row] = &[
    (Put(30), Failed, &[FILED]),
    (Delete(40), Failed, &[WROTE, FILED]),
    (Put(50), Done(5), &[BURIED]),
];

/// The put of a write's record fails, and was made: the same write finds it.
const RECORD_IN_DOUBT: &[Row] = &[
    (Put(30), Failed, &[]),
    (Put(30), Done(2), &[FILED]),
    (Delete(40), Done(3), &[]),
];

/// It fails, and wasn't made.
const RECORD_UNMADE: &[Row] = &[(Put(30), Failed, &[]), (Put(30), Done(1), &[])];

/// It stands until its file can be read.
const RECORD_UNREAD: &[Row] = &[
    (Put(30), Failed, &[]),
    (Put(30), Failed, &[]),
    (Put(30), Done(2), &[FILED]),
];

/// No other write settles it, nor one that is refused.
const RECORD_LEFT: &[Row] = &[
    (Put(30), Failed, &[]),
    (Put(40), Done(1), &[]),
    (Put(30), Other, &[]),
    (Delete(50), Done(2), &[]),
];

/// A mark at the record settles it: there it stood before, so that it was made in any case.
const RECORD_MARKED: &[Row] = &[
    (Put(20), Failed, &[]),
    (Mark(1), Took(true), &[FILED, MARKED]),
];

/// A new record takes the place of the one that stood, with its marks.
const RECORD_ANEW: &[Row] = &[
    (Mark(1), Took(true), &[MARKED]),
    (Put(20), Done(2), &[]),
    (Mark(1), Took(true), &[MARKED]),
];

/// The unlink fails, and was made.
const DROP_IN_DOUBT: &[Row] = &[
    (Drop(&[1, 2]), Failed, &[]),
    (Drop(&[1, 2]), Took(false), &[DROPPED]),
];

/// A record's file can't be read.
const UNREAD: &[Row] = &[(Mark(1), Failed, &[]), (Mark(1), Took(true), &[MARKED])];

/// A journal of one entry.
const ONE_ENTRY: &[Row] = &[
    (Mark(1), Took(true), &[MARKED]),
    (Mark(1), Took(true), &[]),
    (Mark(2), Full, &[]),
    (Drop(&[1]), Full, &[]),
];

/// The courses: how many entries the journal takes, the calls that fail, counted from 0, with or without their change, and the steps. The record was put
/// by the first call.
const COURSES: &[(u64, &[(u64, bool)], &[Row])] = &[
    (10, CALM, MARKS),
    (10, CALM, GONE),
    (10, &[(2, true)], MARK_IN_DOUBT),
    (10, &[(2, false)], MARK_UNMADE),
    (10, &[(3, true)], WRITE_IN_DOUBT),
    (10, &[(3, true)], WRITE_AGAIN),
    (10, &[(3, true), (6, true)], WRITE_AFTER),
    (10, &[(2, true)], RECORD_IN_DOUBT),
    (10, &[(2, false)], RECORD_UNMADE),
    (10, &[(2, true), (4, false)], RECORD_UNREAD),
    (10, &[(2, true)], RECORD_LEFT),
    (10, &[(2, false)], RECORD_MARKED),
    (10, CALM, RECORD_ANEW),
    (10, &[(3, true)], DROP_IN_DOUBT),
    (10, &[(1, false)], UNREAD),
    (1, CALM, ONE_ENTRY),
];

/// A directory and the secrets of its ring.
#[derive(Drop)]
struct Lock {
    dir: ObjDir<MemVolume>,
    secrets: Secrets,
    ghost ours: { dir.secrets ≡ secrets },
}

/// A directory over a volume with the record of `o` alone.
fn begun(alloc: Global, max_entries: u64, failing: &[(u64, bool)]) -> Result<Lock, Fail> {
    let secrets = secrets(alloc)?;
    let given = secrets.copy(alloc)?;
    let volume = volume_of(alloc, &secrets, failing)?;
    let dir = ObjDir::start(alloc, volume, POWER, given, max_entries, 100);
    Ok(Lock { dir, secrets })
}

fn volume_of(alloc: Global, secrets: &Secrets, failing: &[(u64, bool)]) -> Result<MemVolume, Fail> {
    let mut volume = MemVolume::new(alloc, failing_calls(alloc, failing)?);
    file(alloc, &mut volume, secrets, b"o")?;
    Ok(volume)
}

/// Files the record of this object.
pub fn file(
    alloc: Global,
    volume: &mut MemVolume,
    secrets: &Secrets,
    object: &[u8],
) -> Result<Filed, Fail>
    ensures { IfOk result (λ filed. IsHashed secrets.now filed.name) }
{
    let filed = record_of(alloc, secrets, object)?;
    put_record(alloc, volume, &filed)?;
    Ok(filed)
}

/// The record of this object at time 20, of which no device is told yet.
pub fn record_of(alloc: Global, secrets: &Secrets, object: &[u8]) -> Result<Filed, Fail>
    ensures { IfOk result (λ filed. IsHashed secrets.now filed.name) }
{
    Ok(Filed {
        name: name_under(alloc, secrets, object)?,
        time: time(20)?,
        queue: false,
        done: DeviceList::new(alloc),
    })
}

fn time(units: u64) -> Result<Timestamp, Fail> {
    match Timestamp::from_units(units) {
        Some(time) => Ok(time),
        None => Err(Fail::from("no time")),
    }
}

/// Makes the change, and says what it is answered.
fn made(
    alloc: Global,
    dir: &mut ObjDir<MemVolume>,
    name: &Name,
    change: Change,
    briefs: &mut Vec<Brief>,
) -> Told
    requires hashed { IsHashed dir.old.secrets name.now }
    ensures same { dir.new.secrets ≡ dir.old.secrets }
{
    told_of(if change.is_write() {
        dir.change(alloc, name, change, briefs)
    } else {
        dir.record(alloc, name, &change, briefs)
    })
}

impl Lock {
    /// Makes a step, and says what it is answered and what it tells of the entries that came.
    fn step(&mut self, alloc: Global, asked: Asked, briefs: &mut Vec<Brief>) -> Result<Told, Fail> {
        let name = name_under(alloc, &self.secrets, b"o")?;
        let change = change_of(alloc, &self.secrets, asked)?;
        Ok(made(alloc, &mut self.dir, &name, change, briefs))
    }

    /// Whether the step is answered so, and tells this.
    fn goes_so(&mut self, alloc: Global, row: &Row) -> Result<bool, Fail> {
        let (asked, wanted, kinds) = row;
        let mut briefs = Vec::new(alloc);
        let told = self.step(alloc, *asked, &mut briefs)?;
        Ok(told == *wanted && are(&briefs, kinds))
    }

    /// Whether these are the devices that are done of each record, in their order.
    fn has_records(&mut self, alloc: Global, wanted: &[&[u8]]) -> bool {
        let mut briefs = Vec::new(alloc);
        match self.dir.records(alloc, &mut briefs) {
            Ok(records) => are_done(&records, wanted),
            Err(_) => false,
        }
    }

    /// Whether the row to tell for the record of `o` has this time, size and deletion, or there is none.
    fn tells(&mut self, alloc: Global, wanted: Option<(u64, u64, bool)>) -> Result<bool, Fail> {
        let filed = record_of(alloc, &self.secrets, b"o")?;
        let mut briefs = Vec::new(alloc);
        match self.dir.base_for(alloc, &filed, &mut briefs) {
            Ok(row) => Ok(is_told(row, wanted)),
            Err(_) => Ok(false),
        }
    }

    /// Whether a read finds what is wanted; a step is made.
    fn is_read(&mut self, alloc: Global, look: Look) -> Result<bool, Fail> {
        match look {
            Records(wanted) => Ok(self.has_records(alloc, wanted)),
            Base(wanted) => self.tells(alloc, wanted),
            Step(asked) => {
                let mut briefs = Vec::new(alloc);
                self.step(alloc, asked, &mut briefs)?;
                Ok(true)
            }
        }
    }
}

/// Whether these are the devices that are done of each record, in their order.
pub fn are_done(records: &[Filed], wanted: &[&[u8]]) -> bool {
    records.len() == wanted.len()
        && records
            .iter()
            .zip(wanted)
            .all(|(filed, done)| filed.done.as_slice() == *done)
}

/// Whether the row has this time, size and deletion, or there is none.
pub fn is_told(row: Option<sw_rows::Row>, wanted: Option<(u64, u64, bool)>) -> bool {
    match (row, wanted) {
        (Some(row), Some((time, size, deleted))) => {
            row.created_at.units() == time && row.size == size && row.deleted == deleted
        }
        (None, None) => true,
        _ => false,
    }
}

/// The change that is asked for.
pub fn change_of(alloc: Global, secrets: &Secrets, asked: Asked) -> Result<Change, Fail> {
    Ok(match asked {
        Mark(device) => Change::MarkRecord {
            filed: record_of(alloc, secrets, b"o")?,
            device,
        },
        MarkOther(device) => Change::MarkRecord {
            filed: record_of(alloc, secrets, b"p")?,
            device,
        },
        Drop(all) => Change::DropRecord {
            filed: record_of(alloc, secrets, b"o")?,
            all: DeviceList::from(Vec::from_slice(alloc, all)?),
        },
        Put(units) => Change::Put {
            time: time(units)?,
            content: content(alloc, b"old")?,
            none_match: false,
        },
        Delete(units) => Change::Delete {
            time: time(units)?,
            if_delete_at: None,
        },
    })
}

/// What an answer tells.
pub fn told_of(answer: Answer) -> Told {
    match answer {
        Answer::Took(is) => Took(is),
        Answer::Done(front) => Done(front),
        Answer::Failed => Failed,
        Answer::JournalFull => Full,
        _ => Other,
    }
}

/// Whether these briefs are of the kinds, in their order.
fn are(briefs: &[Brief], kinds: &[BriefKind]) -> bool {
    briefs.len() == kinds.len()
        && briefs
            .iter()
            .zip(kinds)
            .all(|(brief, kind)| brief.kind == *kind)
}

/// Whether each step of a course is answered so, and tells this.
fn goes_so(
    alloc: Global,
    max_entries: u64,
    failing: &[(u64, bool)],
    rows: &[Row],
) -> Result<bool, Fail> {
    let mut lock = begun(alloc, max_entries, failing)?;
    all_go_so(alloc, &mut lock, rows)
}

fn all_go_so(alloc: Global, lock: &mut Lock, rows: &[Row]) -> Result<bool, Fail> {
    for row in rows {
        if !lock.goes_so(alloc, row)? {
            return Ok(false);
        }
    }
    Ok(true)
}

#[test]
fn records_are_marked_and_dropped(rt: HostRuntime) -> Result<(), Fail> {
    let alloc = rt.alloc();
    for (max_entries, failing, rows) in COURSES {
        assert!(rt; goes_so(alloc, *max_entries, failing, rows)?);
    }
    Ok(())
}

/// What is done with the directory in a row.
#[derive(Clone, Copy)]
enum Look {
    /// A read of the records: which devices are done of each.
    Records(&'static [&'static [u8]]),
    /// A read of the row to tell for the record of `o`.
    Base(Option<(u64, u64, bool)>),
    /// A step, whatever it is answered.
    Step(Asked),
}

use Look::{Base, Records, Step};

const READS: &[Look] = &[
    Records(&[&[]]),
    Base(None),
    Step(Put(20)),
    Base(Some((20, 3, false))),
    Step(Mark(2)),
    Records(&[&[2]]),
    Step(Delete(30)),
    Base(Some((30, 0, true))),
    Records(&[&[2], &[]]),
    Step(Drop(&[2])),
    Records(&[&[]]),
];

/// Whether each read of these finds what is wanted.
fn reads_so(alloc: Global, looks: &[Look]) -> Result<bool, Fail> {
    let mut lock = begun(alloc, 10, CALM)?;
    are_read(alloc, &mut lock, looks)
}

fn are_read(alloc: Global, lock: &mut Lock, looks: &[Look]) -> Result<bool, Fail> {
    for look in looks {
        if !lock.is_read(alloc, *look)? {
            return Ok(false);
        }
    }
    Ok(true)
}

#[test]
fn what_is_filed_is_read_and_its_row_told(rt: HostRuntime) -> Result<(), Fail> {
    let alloc = rt.alloc();
    assert!(rt; reads_so(alloc, READS)?);
    Ok(())
}
