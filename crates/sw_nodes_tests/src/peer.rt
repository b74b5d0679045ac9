use crate::asked::{content, heads, name_under, secrets};
use std::alloc::Global;
use std::test::Fail;
use sw_hashpath::{BadFile, Name};
use sw_object_steps::{FiledList, Got, ObjEntry};
use sw_outside::NoMemory;
use sw_state::{Content, Kind, Write};
use sw_timestamp::Timestamp;

/// One of each kind of what a read gets, but want of memory.
fn all_got(alloc: Global) -> Result<Vec<Got>, Fail> {
    let time = Timestamp::parse(b"5")?;
    let found = Got::Found {
        time,
        content: content(alloc, b"abc")?,
        heads: heads(alloc)?,
        front: 3,
    };
    let damaged = Got::Damaged(BadFile::Length);
    Ok(vec![in alloc; found, Got::NotFound(Some(time)), damaged, Got::Failed]?)
}

/// Whether they are equal, part by part.
fn are_equal(one: &Got, other: &Got) -> bool {
    match (one, other) {
        (
            Got::Found {
                time,
                content,
                heads,
                front,
            },
            Got::Found {
                time: copied_time,
                content: copied_content,
                heads: copied_heads,
                front: copied_front,
            },
        ) => {
            time == copied_time
                && content.body.as_slice() == copied_content.body.as_slice()
                && heads.items.get(b"x-object-meta-color")
                    == copied_heads.items.get(b"x-object-meta-color")
                && front == copied_front
        }
        (Got::NotFound(time), Got::NotFound(copied_time)) => time == copied_time,
        (Got::Damaged(bad), Got::Damaged(copied_bad)) => bad == copied_bad,
        (Got::Failed, Got::Failed) => true,
        _ => false,
    }
}

fn are_copied(alloc: Global, all: &[Got]) -> Result<bool, NoMemory> {
    for got in all {
        if !are_equal(got, &got.copy(alloc)?) {
            return Ok(false);
        }
    }
    Ok(true)
}

#[test]
fn what_a_read_found_is_copied_whole(rt: HostRuntime) -> Result<(), Fail> {
    let alloc = rt.alloc();
    let all = all_got(alloc)?;
    assert!(rt; are_copied(alloc, &all)?);
    Ok(())
}

/// Whether an entry is of the object `o`, at the fifth second.
fn is_of_o(entry: &ObjEntry) -> bool {
    let ObjEntry::Wrote(name, write, _) = entry else {
        return false;
    };
    name.object.as_slice() == b"o".as_slice()
        && name.hash[0] == 0x06
        && write.time.units() == 500_000
}

/// A put of the object `o`, at the fifth second.
fn entry_of_o(alloc: Global) -> Result<ObjEntry, Fail> {
    let time = Timestamp::parse(b"5")?;
    let name = name_of_o(alloc)?;
    let content = content(alloc, b"abc")?;
    Ok(put_of(alloc, name, time, content))
}

fn name_of_o(alloc: Global) -> Result<Name, Fail> {
    let secrets = secrets(alloc)?;
    name_under(alloc, &secrets, b"o")
}

fn put_of(alloc: Global, name: Name, time: Timestamp, content: Content) -> ObjEntry {
    let kind = Kind::Put(content);
    ObjEntry::Wrote(name, Write { time, kind }, FiledList::new(alloc))
}

/// Whether a copy of that entry is such a one.
fn is_copied(alloc: Global) -> Result<bool, Fail> {
    let entry = entry_of_o(alloc)?;
    Ok(is_of_o(&entry.copy(alloc)?))
}

#[test]
fn an_entry_is_copied_whole(rt: HostRuntime) -> Result<(), Fail> {
    let alloc = rt.alloc();
    assert!(rt; is_copied(alloc)?);
    Ok(())
}
