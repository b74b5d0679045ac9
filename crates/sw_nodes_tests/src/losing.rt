//! What of its messages a door loses and repeats, told by how many steps come to the door inside.

use crate::asked::secrets;
use crate::between::{Heard, send_between};
use crate::refusing::Refusing;
use crate::sending::send;
use std::alloc::Global;
use std::test::Fail;
use sw_container_steps::ContChange;
use sw_hashpath::{Name, Place};
use sw_listing::Query;
use sw_lossy::{Acts, Lossy};
use sw_object_steps::Change;
use sw_outside::Bytes;
use sw_peer::{ContainerDoor, Link, ObjectDoor};
use sw_state::{Kind, Write};
use sw_timestamp::Timestamp;

const NONE: Acts = Acts {
    lose: None,
    lose_reply: None,
    repeat: None,
};

/// The first message comes twice, the second is lost, and the answer to the third is.
pub const EACH: Acts = Acts {
    lose: Some(2),
    lose_reply: Some(3),
    repeat: Some(1),
};

/// All of it is asked of the second message.
const SAME: Acts = Acts {
    lose: Some(2),
    lose_reply: Some(2),
    repeat: Some(2),
};

/// What the steps are of.
#[derive(Drop)]
struct Asked {
    time: Timestamp,
    name: Name,
    place: Place,
    query: Query,
}

impl Asked {
    fn new(alloc: Global) -> Result<Asked, Fail> {
        let time = Timestamp::parse(b"5")?;
        let secrets = secrets(alloc)?;
        let name = Name::new(alloc, &secrets, b"a", b"c", b"o")?;
        let place = Place::new(alloc, &secrets, b"a", b"c")?;
        Ok(Asked {
            time,
            name,
            place,
            query: everything(alloc),
        })
    }
}

/// A listing of what there is.
fn everything(alloc: Global) -> Query {
    Query {
        limit: 10,
        marker: Bytes::from(Vec::new(alloc)),
        end_marker: Bytes::from(Vec::new(alloc)),
        prefix: Bytes::from(Vec::new(alloc)),
        delimiter: None,
        reverse: false,
        json: false,
    }
}

#[derive(Clone, Copy)]
enum Step {
    Delete,
    Get,
    ChangeContainer,
    Times,
    Info,
    List,
}

/// Whether a step that is said so is heard.
fn is_heard(
    alloc: Global,
    door: &mut Lossy<Refusing>,
    link: Link,
    asked: &Asked,
    step: Step,
) -> bool {
    match step {
        Step::Delete => {
            let change = Change::Delete {
                time: asked.time,
                if_delete_at: None,
            };
            door.change(alloc, link, 1, &asked.name, change).is_ok()
        }
        Step::Get => door.get(alloc, link, 1, &asked.name).is_ok(),
        Step::ChangeContainer => {
            let change = ContChange::Create { time: asked.time };
            door.change_container(alloc, link, 1, &asked.place, &change)
                .is_ok()
        }
        Step::Times => door.times(alloc, link, 1, &asked.place).is_ok(),
        Step::Info => door.info(alloc, link, 1, &asked.place).is_ok(),
        Step::List => door
            .list(alloc, link, 1, &asked.place, &asked.query)
            .is_ok(),
    }
}

/// Five steps of each kind, and of both kinds of door through one count.
const RUNS: [[Step; 5]; 8] = [
    [Step::Delete; 5],
    [Step::Get; 5],
    [Step::ChangeContainer; 5],
    [Step::Times; 5],
    [Step::Info; 5],
    [Step::List; 5],
    [
        Step::ChangeContainer,
        Step::Get,
        Step::List,
        Step::Delete,
        Step::Info,
    ],
    [
        Step::Delete,
        Step::Times,
        Step::Get,
        Step::ChangeContainer,
        Step::List,
    ],
];

/// How the steps of each row are said.
const LINKS: [Link; 5] = [Link::Sent, Link::Local, Link::Sent, Link::Sent, Link::Sent];

/// What the door shows after each step: whether an answer was heard, how many steps came to the door inside, and how many messages and
/// losses there were.
type Shown = (bool, u64, u64, u64);

const ROWS: [(Acts, [Shown; 5]); 3] = [
    (
        NONE,
        [
            (true, 1, 1, 0),
            (true, 2, 1, 0),
            (true, 3, 2, 0),
            (true, 4, 3, 0),
            (true, 5, 4, 0),
        ],
    ),
    (
        EACH,
        [
            (true, 2, 1, 0),
            (true, 3, 1, 0),
            (false, 3, 2, 1),
            (false, 4, 3, 2),
            (true, 5, 4, 2),
        ],
    ),
    (
        SAME,
        [
            (true, 1, 1, 0),
            (true, 2, 1, 0),
            (false, 2, 2, 1),
            (true, 3, 3, 1),
            (true, 4, 4, 1),
        ],
    ),
];

/// Whether the door shows this after each step.
fn shows(
    alloc: Global,
    door: &mut Lossy<Refusing>,
    asked: &Asked,
    steps: &[Step; 5],
    expected: &[Shown; 5],
) -> bool {
    let mut as_expected = true;
    for ((link, shown), step) in LINKS.iter().zip(expected.iter()).zip(steps.iter()) {
        let heard = is_heard(alloc, door, *link, asked, *step);
        let now = (heard, door.door.steps(), door.messages, door.faults);
        as_expected = as_expected && now == *shown;
    }
    as_expected
}

/// Whether a door that begins so does.
fn goes_so(
    alloc: Global,
    acts: Acts,
    asked: &Asked,
    steps: &[Step; 5],
    expected: &[Shown; 5],
) -> bool {
    let mut door = Lossy::new(Refusing::new(true), acts);
    shows(alloc, &mut door, asked, steps, expected)
}

#[test]
fn the_named_messages_are_lost_and_repeated(rt: HostRuntime) -> Result<(), Fail> {
    let alloc = rt.alloc();
    let asked = Asked::new(alloc)?;
    for (acts, expected) in ROWS {
        for steps in RUNS {
            assert!(rt; goes_so(alloc, acts, &asked, &steps, &expected));
        }
    }
    Ok(())
}

fn write_at(time: Timestamp) -> Write {
    Write {
        time,
        kind: Kind::Del,
    }
}

/// Whether a write is, by a door that begins so over devices that have it or don't.
fn is_acknowledged(alloc: Global, acts: Acts, has_write: bool, asked: &Asked) -> bool {
    let mut door = Lossy::new(Refusing::new(has_write), acts);
    send(alloc, &mut door, 1, &asked.name, write_at(asked.time))
}

#[test]
fn what_is_heard_acknowledges_a_write(rt: HostRuntime) -> Result<(), Fail> {
    let alloc = rt.alloc();
    let asked = Asked::new(alloc)?;
    let lost = Acts {
        lose: Some(1),
        ..NONE
    };
    let unheard = Acts {
        lose_reply: Some(1),
        ..NONE
    };
    let twice = Acts {
        repeat: Some(1),
        ..NONE
    };
    let table = [
        (NONE, true, true),
        (NONE, false, false),
        (lost, true, false),
        (unheard, true, false),
        (twice, true, true),
        (twice, false, false),
    ];
    for (acts, has_write, acknowledged) in table {
        assert_eq!(rt;
            is_acknowledged(alloc, acts, has_write, &asked),
            acknowledged
        );
    }
    Ok(())
}

/// What is heard of three messages, and how many steps come to the door inside.
fn heard_of_three(alloc: Global, acts: Acts, has_write: bool, asked: &Asked) -> (Heard, u64) {
    let mut door = Lossy::new(Refusing::new(has_write), acts);
    let change = ContChange::Create { time: asked.time };
    let heard = send_between(
        alloc,
        &mut door,
        1,
        &asked.place,
        &change,
        &asked.name,
        write_at(asked.time),
    );
    (heard, door.door.steps())
}

#[test]
fn a_write_is_the_second_of_three_messages(rt: HostRuntime) -> Result<(), Fail> {
    let alloc = rt.alloc();
    let asked = Asked::new(alloc)?;
    let before_lost = Acts {
        lose: Some(1),
        ..NONE
    };
    let lost = Acts {
        lose: Some(2),
        ..NONE
    };
    let unheard = Acts {
        lose_reply: Some(2),
        ..NONE
    };
    let twice = Acts {
        repeat: Some(3),
        ..NONE
    };
    // How many steps come to the door inside stands last.
    let table = [
        (NONE, true, true, 3),
        (NONE, false, false, 3),
        (before_lost, true, true, 2),
        (lost, true, false, 2),
        (unheard, true, false, 3),
        (twice, true, true, 4),
    ];
    for (acts, has_write, acknowledged, steps) in table {
        // The steps at the container find no memory there.
        let expected = Heard {
            before: false,
            write: acknowledged,
            after: false,
        };
        let (heard, came) = heard_of_three(alloc, acts, has_write, &asked);
        assert_eq!(rt; heard, expected);
        assert_eq!(rt; came, steps);
    }
    Ok(())
}
