//! Reads of what is filed at all nodes, through a door that loses and repeats messages.

ghost use Rattle.std.specs.Prelude.{◌≡◌, ◌<◌, true, IfOk};
ghost use Rattle.sw_hashdir.specs.Steps.{is_hashed};

use crate::asked::secrets;
use crate::losing::EACH;
use crate::recording::{Asked, Told, are_done, change_of, file, is_told, told_of};
use crate::worlds::{Came, FAITHFUL, JOURNAL_BYTES, RING, four_parts, told};
use std::alloc::Global;
use std::test::Fail;
use sw_core::World;
use sw_hashpath::Secrets;
use sw_keeper::MemKeeper;
use sw_lossy::{Acts, Lossy};
use sw_peer::{KeptLine, Link, PendingDoor};
use sw_pending::Filed;
use sw_ring::{Ring, read};
use sw_stores::Parts;
use sw_volume::MemVolume;

/// A step at the first device, with what it is answered.
#[derive(Clone, Copy)]
enum Step {
    /// A read of the records of the stripe of `o`: which devices are done of each.
    Records(&'static [&'static [u8]]),
    /// The same of the other stripe.
    OtherRecords(&'static [&'static [u8]]),
    /// A read of the row to tell for the record of `o`: its time, its size, and whether it is a deletion's.
    Base(Option<(u64, u64, bool)>),
    Change(Asked, Told),
}

use Link::{Local, Sent};
use Step::{Base, Change, OtherRecords, Records};

/// How a step is said, whether its answer is heard, and how many lines tell it.
type Row = (Link, Step, bool, usize);

/// There is nothing to tell before the object is put.
const FILED: &[Row] = &[
    (Sent, Records(&[&[]]), true, 1),
    (Sent, OtherRecords(&[]), true, 1),
    (Sent, Base(None), true, 1),
    (Sent, Change(Asked::Put(20), Told::Done(1)), true, 1),
    (Sent, Base(Some((20, 3, false))), true, 1),
    (Sent, Change(Asked::Mark(2), Told::Took(true)), true, 1),
    (Sent, Records(&[&[2]]), true, 1),
];

/// The first message comes twice, the second is lost, and the answer to the third is. What is said at the device itself is none.
const RECORDS_TWICE: &[Row] = &[
    (Sent, Records(&[&[]]), true, 2),
    (Local, Base(None), true, 1),
    (Sent, Base(None), false, 0),
    (Sent, Records(&[&[]]), false, 1),
];

const BASE_TWICE: &[Row] = &[
    (Sent, Base(None), true, 2),
    (Local, Records(&[&[]]), true, 1),
    (Sent, Records(&[&[]]), false, 0),
    (Sent, Base(None), false, 1),
];

/// What the door loses and repeats, and the steps.
const COURSES: &[(Acts, &[Row])] = &[(FAITHFUL, FILED), (EACH, RECORDS_TWICE), (EACH, BASE_TWICE)];

/// A door to nodes of two stripes, and the record of `o` there.
#[derive(Drop)]
struct Nodes<D: PendingDoor + Drop> {
    door: D,
    filed: Filed,
    ghost first: { 0 < (D.sight door).nodes.devices },
    ghost halves: { (D.sight door).nodes.lock_bits ≡ 1 },
    ghost ours: { (D.sight door).nodes.fits filed.name ≡ true },
}

impl<D: PendingDoor + Drop> Nodes<D> {
    /// Whether the step is answered so, where its answer is heard.
    fn step(&mut self, alloc: Global, link: Link, step: Step) -> Result<Option<bool>, Fail> {
        Ok(match step {
            Records(wanted) => {
                let got = self.door.records(alloc, link, 0, 0).ok();
                got.map(|got| got.is_ok_and(|records| are_done(&records, wanted)))
            }
            OtherRecords(wanted) => {
                let got = self.door.records(alloc, link, 0, 1).ok();
                got.map(|got| got.is_ok_and(|records| are_done(&records, wanted)))
            }
            Base(wanted) => {
                let got = self.door.base_for(alloc, link, 0, &self.filed).ok();
                got.map(|got| got.is_ok_and(|row| is_told(row, wanted)))
            }
            Change(asked, wanted) => {
                let change = change_of(alloc, &secrets(alloc)?, asked)?;
                let answer = self.door.change(alloc, link, 0, &self.filed.name, change);
                answer.ok().map(|answer| told_of(answer) == wanted)
            }
        })
    }
}

/// What a line tells of a step that is said so.
fn came_of(link: Link, step: Step) -> Came {
    match step {
        Records(_) | OtherRecords(_) => Came::Records(0, link),
        Base(_) => Came::Base(0, link),
        Change(_, _) => Came::Changes(0, link),
    }
}

/// The nodes of the tests.
type TwoNodes = Nodes<Lossy<World<MemVolume, MemKeeper>>>;

/// Files the record of `o`, and one of the other stripe, which no list has.
fn file_both(alloc: Global, volume: &mut MemVolume, secrets: &Secrets) -> Result<Filed, Fail>
    ensures { IfOk result (λ filed. is_hashed secrets.now filed.name ≡ true) }
{
    let filed = file(alloc, volume, secrets, b"o")?;
    file(alloc, volume, secrets, b"q")?;
    Ok(filed)
}

/// Nodes of two devices with two locks each, which have both records under the first lock, behind a door that begins so.
fn begun(alloc: Global, ring: &Ring, acts: Acts) -> Result<TwoNodes, Fail> {
    if ring.devices.as_slice().len() != 2 || ring.lock_bits != 1 {
        return Err(Fail::from("no ring of two devices with two locks each"));
    }
    let (mut volumes, keepers) = four_parts(alloc)?.into_lists();
    let filed = file_both(alloc, &mut volumes[0], &ring.secrets)?;
    let parts = Parts::of(volumes, keepers);
    if parts.len() != 4 {
        return Err(Fail::from("not a part for each lock"));
    }
    let Ok(world) = World::open(alloc, ring, JOURNAL_BYTES, parts) else {
        return Err(Fail::from("no memory for the nodes"));
    };
    let door = Lossy::new(world, acts);
    Ok(Nodes { door, filed })
}

/// The nodes of the ring.
fn begun_at(alloc: Global, acts: Acts) -> Result<TwoNodes, Fail> {
    let ring = read(alloc, RING)?;
    begun(alloc, &ring, acts)
}

/// Whether the step is heard, answered and told so.
fn is_so(alloc: Global, nodes: &mut TwoNodes, row: Row) -> Result<bool, Fail> {
    let (link, step, heard, count) = row;
    let before = nodes.door.door.lines().len();
    let answered = nodes.step(alloc, link, step)?;
    let Some(lines) = nodes.door.door.lines().get(before..) else {
        return Ok(false);
    };
    Ok(
        answered == heard.then_some(true)
            && lines.len() == count
            && are_all(lines, came_of(link, step)),
    )
}

/// Whether each line tells this.
fn are_all(lines: &[KeptLine], came: Came) -> bool {
    lines.iter().all(|line| told(line.line()) == came)
}

/// Whether all steps go so.
fn goes_so(alloc: Global, acts: Acts, rows: &[Row]) -> Result<bool, Fail> {
    let mut nodes = begun_at(alloc, acts)?;
    all_go_so(alloc, &mut nodes, rows)
}

fn all_go_so(alloc: Global, nodes: &mut TwoNodes, rows: &[Row]) -> Result<bool, Fail> {
    for row in rows {
        if !is_so(alloc, nodes, *row)? {
            return Ok(false);
        }
    }
    Ok(true)
}

#[test]
fn what_is_filed_is_read_at_nodes(rt: HostRuntime) -> Result<(), Fail> {
    let alloc = rt.alloc();
    for (acts, rows) in COURSES {
        assert!(rt; goes_so(alloc, *acts, rows)?);
    }
    Ok(())
}
