//! Steps of a world, by the list.

ghost use Rattle.std.specs.Prelude.{◌≡◌, None, All, IfOk, length};
ghost use Rattle.sw_steps.specs.Stepping.{MayBeMade};

use crate::asked::{name_under, put};
use crate::obj_dirs::O;
use std::alloc::Global;
use std::test::Fail;
use sw_core::World;
use sw_keeper::MemKeeper;
use sw_lossy::{Acts, Lossy};
use sw_pass::Outcome;
use sw_peer::{Event, KeptLine, Line, Link, PartRead};
use sw_ring::{Ring, read};
use sw_steps::{Step, run_steps};
use sw_stores::ranges::start_range;
use sw_stores::{MemStores, PartShelf, Parts};
use sw_volume::MemVolume;

/// A ring of two devices, each of two locks.
pub const RING: &[u8] =
    br#"{"devices":["sda","sdb"],"part_power":2,"lock_bits":1,"replicas":2,"hash_prefix":"","hash_suffix":"endcap","object":[[0,1],[1,0],[0,1],[1,0]],
        "container":[[0,1],[1,0],[0,1],[1,0]]}"#;

/// How many bytes the bodies in the journal of a lock have together at most.
pub const JOURNAL_BYTES: u64 = 33_554_432;

/// Each message comes once.
pub const FAITHFUL: Acts = Acts {
    lose: None,
    lose_reply: None,
    repeat: None,
};

/// The first message is lost.
const LOSES_FIRST: Acts = Acts {
    lose: Some(1),
    lose_reply: None,
    repeat: None,
};

/// What came to a device, and how it was said.
#[derive(Clone, Copy, PartialEq, Eq)]
pub enum Came {
    Changes(u8, Link),
    Hashes(u8, Link),
    Files(u8, Link),
    Write(u8, Link),
    Records(u8, Link),
    Base(u8, Link),
    Listing(u8),
    Restart(u8),
    Other,
}

/// A listing of the first device, a restart of the other one, and its listing.
const LISTED: &[Came] = &[Came::Listing(0), Came::Restart(1), Came::Listing(1)];

/// A put at the first device. A push to the other one, of which the first message is lost: it asks for hashes. Then one that is done.
const PUSHED: &[Came] = &[
    Came::Changes(0, Link::Local),
    Came::Hashes(0, Link::Local),
    Came::Hashes(0, Link::Local),
    Came::Hashes(1, Link::Sent),
    Came::Files(1, Link::Sent),
    Came::Files(0, Link::Local),
    Came::Write(0, Link::Local),
    Came::Changes(1, Link::Sent),
];

/// What these pushes came to: the first one lost the message that asked for hashes. The other one asked for hashes and for files, and sent a write.
const OUTCOMES: &[Outcome] = &[
    Outcome {
        done: false,
        lost: 1,
        kept: None,
        later: None,
        asked: 1,
        sent: 0,
        left: 1,
    },
    Outcome {
        done: true,
        lost: 0,
        kept: None,
        later: None,
        asked: 2,
        sent: 1,
        left: 0,
    },
];

/// What came, by the line that tells it.
pub fn told(line: &Line) -> Came {
    match &line.event {
        Event::Changed(_, _, _) => Came::Changes(line.device, line.link),
        Event::ReadPart(PartRead::Hashes(_, _)) => Came::Hashes(line.device, line.link),
        Event::ReadPart(PartRead::Files(_, _, _)) => Came::Files(line.device, line.link),
        Event::ReadPart(PartRead::Write(_, _, _, _)) => Came::Write(line.device, line.link),
        Event::ReadPart(PartRead::Records(_, _)) => Came::Records(line.device, line.link),
        Event::ReadPart(PartRead::Base(_, _)) => Came::Base(line.device, line.link),
        Event::Listed(false) => Came::Listing(line.device),
        Event::Restarted => Came::Restart(line.device),
        Event::Listed(true) | Event::Read(_, _) | Event::AtContainer(_, _) => Came::Other,
    }
}

/// Whether the lines tell this, and no more.
fn are_told(lines: &[KeptLine], wanted: &[Came]) -> bool {
    lines.len() == wanted.len()
        && lines
            .iter()
            .zip(wanted)
            .all(|(line, came)| told(line.line()) == *came)
}

/// Whether the pushes came to this, in this order, and there were no more.
fn are_outcomes(outcomes: &[Outcome], wanted: &[Outcome]) -> bool {
    outcomes.len() == wanted.len()
        && outcomes
            .iter()
            .zip(wanted)
            .all(|(outcome, wanted)| *outcome == *wanted)
}

/// Empty volumes and keepers for both locks of both devices.
pub fn four_parts(alloc: Global) -> Result<Parts<MemVolume, MemKeeper>, Fail>
    ensures { IfOk result (λ parts. length parts ≡ 4) }
{
    let shelf = PartShelf::new(alloc);
    let mut stores = MemStores::new(Vec::new(alloc), Vec::new(alloc), shelf);
    match start_range(alloc, &mut stores, 2, 0, 4) {
        Ok(parts) => Ok(parts),
        Err(_) => Err(Fail::from("a volume isn't started")),
    }
}

/// Whether the lines of these steps tell what came, and the pushes among them came to these outcomes.
fn ran(
    alloc: Global,
    ring: &Ring,
    steps: &[Step],
    wanted: &[Came],
    outcomes: &[Outcome],
) -> Result<bool, Fail>
    requires { All (MayBeMade (length ring.now.devices) ring.now.power ring.now.secrets) steps.now }
{
    if ring.devices.as_slice().len() != 2 || ring.lock_bits != 1 {
        return Ok(false);
    }
    let Ok(world) = World::open(alloc, ring, JOURNAL_BYTES, four_parts(alloc)?) else {
        return Ok(false);
    };
    let mut door = Lossy::new(world, FAITHFUL);
    tell(alloc, &mut door, steps, wanted, outcomes)
}

/// The same of nodes that stand.
fn tell(
    alloc: Global,
    door: &mut Lossy<World<MemVolume, MemKeeper>>,
    steps: &[Step],
    wanted: &[Came],
    outcomes: &[Outcome],
) -> Result<bool, Fail>
    requires whole { door.old.door.lifted ≡ None }
    requires may { All (MayBeMade door.old.door.devices door.old.door.power door.old.door.secrets) steps.now }
{
    let pushed = run_steps(alloc, door, steps)?;
    Ok(are_outcomes(&pushed, outcomes) && are_told(door.door.lines(), wanted))
}

fn lists_and_restarts(alloc: Global, ring: &Ring) -> Result<bool, Fail> {
    if ring.devices.as_slice().len() != 2 {
        return Ok(false);
    }
    let steps = [
        Step::List { device: 0 },
        Step::Restart { device: 1 },
        Step::List { device: 1 },
    ];
    ran(alloc, ring, &steps, LISTED, &[])
}

/// The partition of the object is the first one.
fn pushes(alloc: Global, ring: &Ring) -> Result<bool, Fail> {
    if ring.devices.as_slice().len() != 2 {
        return Ok(false);
    }
    let name = name_under(alloc, &ring.secrets, O)?;
    let change = put(alloc, 20, false)?;
    let steps = [
        Step::Change {
            device: 0,
            name,
            change,
        },
        Step::Push {
            from: 0,
            to: 1,
            part: 0,
            acts: LOSES_FIRST,
        },
        Step::Push {
            from: 0,
            to: 1,
            part: 0,
            acts: FAITHFUL,
        },
    ];
    ran(alloc, ring, &steps, PUSHED, OUTCOMES)
}

fn lists_at_ring(alloc: Global) -> Result<bool, Fail> {
    let ring = read(alloc, RING)?;
    lists_and_restarts(alloc, &ring)
}

fn pushes_at_ring(alloc: Global) -> Result<bool, Fail> {
    let ring = read(alloc, RING)?;
    pushes(alloc, &ring)
}

#[test]
fn steps_leave_their_lines(rt: HostRuntime) -> Result<(), Fail> {
    let alloc = rt.alloc();
    assert!(rt; lists_at_ring(alloc)?);
    assert!(rt; pushes_at_ring(alloc)?);
    Ok(())
}
