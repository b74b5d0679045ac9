ghost use Rattle.std.specs.Prelude.{IfOk};
ghost use Rattle.sw_hashdir.specs.Steps.{IsHashed};

use std::alloc::Global;
use std::test::Fail;
use sw_hashpath::{Name, Secrets};
use sw_object_steps::{Answer, Change, Got};
use sw_outside::{Bytes, FailingCall, NoMemory, is_utf8};
use sw_state::{Content, Head, HeadList, Heads, Kind, Write};
use sw_timestamp::Timestamp;

/// What a step asks for, with its time in units.
#[derive(Clone, Copy)]
pub enum Asked {
    Put(u64),
    PutIfNone(u64),
    Post(u64),
    Delete(u64),
    /// A deletion of what expires at the fifth second.
    DeleteExpired(u64),
    SentPut(u64),
    SentDelete(u64),
    SentMeta(u64),
    Get,
    Restart,
}

/// What it is answered, with times in units.
#[derive(Clone, Copy, PartialEq, Eq)]
pub enum Told {
    Done(u64),
    Buried(u64),
    Conflict(u64),
    NotFound,
    NotFoundSince(u64),
    Mismatch(Option<u64>),
    Exists,
    Full,
    Failed,
    /// The object as it was put, of three bytes: its time and the front.
    Object(u64, u64),
    /// The same with heads that came later, by which it expires at the fifth second.
    Updated(u64, u64),
    /// A restart is answered nothing.
    Nothing,
    Other,
}

/// The answer of a step that may change something.
pub fn told_by_answer(answer: &Answer) -> Told {
    match answer {
        Answer::Done(front) => Told::Done(*front),
        Answer::Buried(front) => Told::Buried(*front),
        Answer::Conflict(time) => Told::Conflict(time.units()),
        Answer::NotFound(time) => told_gone(*time),
        Answer::Mismatch(second) => Told::Mismatch(*second),
        Answer::Exists => Told::Exists,
        Answer::JournalFull => Told::Full,
        Answer::Failed => Told::Failed,
        Answer::Took(_) | Answer::Damaged(_) | Answer::NoMemory => Told::Other,
    }
}

/// What a read shows.
pub fn told_by_got(got: &Got) -> Told {
    match got {
        Got::Found {
            time,
            content,
            heads,
            front,
        } if content.body.as_slice() == b"old".as_slice() => match heads.delete_at {
            None => Told::Object(time.units(), *front),
            Some(5) => Told::Updated(time.units(), *front),
            Some(_) => Told::Other,
        },
        Got::NotFound(time) => told_gone(*time),
        Got::Failed => Told::Failed,
        Got::Found { .. } | Got::Damaged(_) | Got::NoMemory => Told::Other,
    }
}

fn told_gone(time: Option<Timestamp>) -> Told {
    match time {
        Some(time) => Told::NotFoundSince(time.units()),
        None => Told::NotFound,
    }
}

fn time(units: u64) -> Result<Timestamp, Fail> {
    Ok(Timestamp::from_units(units).ok_or("no time")?)
}

/// Heads of an object that expires at the fifth second.
pub fn heads(alloc: Global) -> Result<Heads, Fail> {
    let mut items = HeadList::new(alloc);
    if HeadList::is_name(b"x-object-meta-color") {
        let name = Bytes::copy(alloc, b"x-object-meta-color")?;
        let value = Bytes::copy(alloc, b"red")?;
        items.put(Head { name, value })?;
    }
    Ok(Heads {
        delete_at: Some(5),
        items,
    })
}

/// A content that never expires.
pub fn content(alloc: Global, body: &[u8]) -> Result<Content, Fail> {
    let content_type = b"text/plain";
    if !is_utf8(content_type) {
        return Err(Fail::from("no text"));
    }
    Ok(Content {
        body: Bytes::copy(alloc, body)?,
        content_type: Bytes::copy(alloc, content_type)?,
        etag: [7; 16],
        heads: Heads {
            delete_at: None,
            items: HeadList::new(alloc),
        },
    })
}

/// The change that is asked for, where one is.
pub fn change_of(alloc: Global, asked: Asked) -> Result<Option<Change>, Fail> {
    Ok(match asked {
        Asked::Put(units) => Some(put(alloc, units, false)?),
        Asked::PutIfNone(units) => Some(put(alloc, units, true)?),
        Asked::Post(units) => Some(Change::Post {
            time: time(units)?,
            heads: heads(alloc)?,
        }),
        Asked::Delete(units) => Some(delete(units, None)?),
        Asked::DeleteExpired(units) => Some(delete(units, Some(5))?),
        Asked::SentPut(units) => Some(receive(units, Kind::Put(content(alloc, b"old")?))?),
        Asked::SentDelete(units) => Some(receive(units, Kind::Del)?),
        Asked::SentMeta(units) => Some(receive(units, Kind::Meta(heads(alloc)?))?),
        Asked::Get | Asked::Restart => None,
    })
}

/// A put of three bytes.
pub fn put(alloc: Global, units: u64, none_match: bool) -> Result<Change, Fail> {
    Ok(Change::Put {
        time: time(units)?,
        content: content(alloc, b"old")?,
        none_match,
    })
}

fn delete(units: u64, if_delete_at: Option<u64>) -> Result<Change, Fail> {
    Ok(Change::Delete {
        time: time(units)?,
        if_delete_at,
    })
}

fn receive(units: u64, kind: Kind) -> Result<Change, Fail> {
    let write = Write {
        time: time(units)?,
        kind,
    };
    Ok(Change::Receive { write })
}

/// The object of this name in the container `c` of the account `a`, under these secrets.
pub fn name_under(alloc: Global, secrets: &Secrets, object: &[u8]) -> Result<Name, Fail>
    ensures { IfOk result (λ name. IsHashed secrets.now name) }
{
    Ok(Name::new(alloc, secrets, b"a", b"c", object)?)
}

/// No prefix and the suffix `endcap`.
pub fn secrets(alloc: Global) -> Result<Secrets, NoMemory> {
    Ok(Secrets {
        prefix: Bytes::from(Vec::new(alloc)),
        suffix: Bytes::copy(alloc, b"endcap")?,
    })
}

/// These calls, each with whether its change is made.
pub fn failing_calls(alloc: Global, calls: &[(u64, bool)]) -> Result<Vec<FailingCall>, Fail> {
    let mut failing = Vec::new(alloc);
    for (call, made) in calls {
        failing.push(FailingCall {
            call: *call,
            made: *made,
        })?;
    }
    Ok(failing)
}
