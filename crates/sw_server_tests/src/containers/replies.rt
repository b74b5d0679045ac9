//! Answers, what is told of containers, and their replies. Expected bytes are worked out by hand from the formats.

use crate::containers::requests::{Asking, request, ring};
use std::alloc::Global;
use std::process::Abort;
use std::test::Fail;
use sw_container_server::{
    ContAsked, info_reply, is_for_containers, listing_reply, made_status, read_container_request,
    reply_to,
};
use sw_container_steps::{ContAnswer, ContChange, Info, SplitState};
use sw_listing::{Entries, Entry};
use sw_message::{Response, write_response};
use sw_outside::MemSink;
use sw_timestamp::Timestamp;

fn assert_text(
    rt: &impl Abort,
    alloc: Global,
    response: &Response,
    text: &[u8],
) -> Result<(), Fail> {
    let mut out = MemSink::new(alloc, Vec::new(alloc));
    write_response(alloc, &mut out, response)?;
    assert_eq!(rt; out.bytes(), text);
    Ok(())
}

#[test]
fn each_answer_has_its_reply(rt: HostRuntime) -> Result<(), Fail> {
    let alloc = rt.alloc();
    let time = Timestamp::parse(b"5")?;
    let table: [(u16, ContAnswer, &[u8]); 10] = [
        (
            204,
            ContAnswer::New(1),
            b"HTTP/1.1 201 Created\r\nContent-Length: 0\r\n\r\n",
        ),
        (
            204,
            ContAnswer::There(1),
            b"HTTP/1.1 202 Accepted\r\nContent-Length: 0\r\n\r\n",
        ),
        (204, ContAnswer::Done(1), b"HTTP/1.1 204 No Content\r\n\r\n"),
        (
            201,
            ContAnswer::Done(1),
            b"HTTP/1.1 201 Created\r\nContent-Length: 0\r\n\r\n",
        ),
        (
            201,
            ContAnswer::Absent,
            b"HTTP/1.1 404 Not Found\r\nContent-Length: 0\r\n\r\n",
        ),
        (
            201,
            ContAnswer::Stale(time),
            b"HTTP/1.1 409 Conflict\r\nX-Backend-Timestamp: 0000000005.00000\r\nContent-Length: 0\r\n\r\n",
        ),
        (
            204,
            ContAnswer::NotEmpty(7),
            b"HTTP/1.1 409 Conflict\r\nContent-Length: 0\r\n\r\n",
        ),
        (
            201,
            ContAnswer::JournalFull,
            b"HTTP/1.1 503 Service Unavailable\r\nContent-Length: 0\r\n\r\n",
        ),
        (
            201,
            ContAnswer::Failed,
            b"HTTP/1.1 507 Insufficient Storage\r\nContent-Length: 0\r\n\r\n",
        ),
        (
            201,
            ContAnswer::NoMemory,
            b"HTTP/1.1 500 Internal Server Error\r\nContent-Length: 0\r\n\r\n",
        ),
    ];
    for (made, answer, text) in table {
        assert_text(&rt, alloc, &reply_to(alloc, made, &answer)?, text)?;
    }
    Ok(())
}

/// A container of three live rows and seven bytes at second 5.
fn info() -> Result<Info, Fail> {
    Ok(Info {
        put_time: Timestamp::parse(b"5")?,
        count: 3,
        bytes: 7,
        hash: 0xab,
        split: SplitState::Unsharded,
        front: 9,
    })
}

#[test]
fn a_container_is_told_without_a_body(rt: HostRuntime) -> Result<(), Fail> {
    let alloc = rt.alloc();
    let table: [(Result<Info, ContAnswer>, &[u8]); 4] = [
        (
            Ok(info()?),
            b"HTTP/1.1 204 No Content\r\nX-Container-Object-Count: 3\r\nX-Container-Bytes-Used: 7\r\nX-Timestamp: 0000000005.00000\r\n\
              X-Backend-Sharding-State: unsharded\r\nX-Swc-Hash: 000000000000000000000000000000ab\r\n\r\n",
        ),
        (
            Err(ContAnswer::Absent),
            b"HTTP/1.1 404 Not Found\r\nContent-Length: 0\r\n\r\n",
        ),
        (
            Err(ContAnswer::Failed),
            b"HTTP/1.1 507 Insufficient Storage\r\nContent-Length: 0\r\n\r\n",
        ),
        (
            Err(ContAnswer::NoMemory),
            b"HTTP/1.1 500 Internal Server Error\r\nContent-Length: 0\r\n\r\n",
        ),
    ];
    for (told, text) in table {
        assert_text(&rt, alloc, &info_reply(alloc, told)?, text)?;
    }
    Ok(())
}

/// The PUT of a row, and its DELETE.
const PUT: Asking = (
    b"PUT",
    b"/sdb/0/a/c/o",
    b"",
    &[
        (b"X-Swc-Server", b"container"),
        (b"X-Timestamp", b"5"),
        (b"X-Size", b"3"),
        (b"X-Content-Type", b"a/b"),
        (b"X-Etag", b"900150983CD24FB0D6963F7D28E17F72"),
    ],
);

const DELETE: Asking = (
    b"DELETE",
    b"/sdb/0/a/c/o",
    b"",
    &[(b"X-Swc-Server", b"container"), (b"X-Timestamp", b"5")],
);

/// The change that a request asks for, where it asks for one.
fn change_of(alloc: Global, asking: &Asking) -> Result<Option<ContChange>, Fail> {
    let request = request(alloc, asking)?;
    if !is_for_containers(&request) {
        return Ok(None);
    }
    match read_container_request(alloc, &ring(alloc)?, &request)? {
        ContAsked::Change { change, .. } => Ok(Some(change)),
        _ => Ok(None),
    }
}

/// The status that tells that the change was made which a request asks for; 0 where it asks for none.
fn status_of(alloc: Global, asking: &Asking) -> Result<u16, Fail> {
    match change_of(alloc, asking)? {
        Some(change) => Ok(made_status(&change)),
        None => Ok(0),
    }
}

#[test]
fn a_row_that_is_put_is_created(rt: HostRuntime) -> Result<(), Fail> {
    let table: [(Asking, u16); 2] = [(PUT, 201), (DELETE, 204)];
    for (asking, status) in table {
        assert_eq!(rt; status_of(rt.alloc(), &asking)?, status);
    }
    Ok(())
}

/// The entry of that row, or none.
fn entries(alloc: Global, with_row: bool) -> Result<Entries, Fail> {
    let mut entries = Vec::new(alloc);
    if with_row {
        if let Some(ContChange::MergeRow { row }) = change_of(alloc, &PUT)? {
            entries.push(Entry::Row(row))?;
        }
    }
    Ok(Entries::from(entries))
}

#[test]
fn a_listing_has_its_text(rt: HostRuntime) -> Result<(), Fail> {
    let alloc = rt.alloc();
    let info = info()?;
    let table: [(bool, bool, &[u8]); 4] = [
        (
            false,
            true,
            b"HTTP/1.1 200 OK\r\nContent-Type: text/plain; charset=utf-8\r\nX-Container-Object-Count: 3\r\nX-Container-Bytes-Used: 7\r\n\
              X-Timestamp: 0000000005.00000\r\nX-Backend-Sharding-State: unsharded\r\nContent-Length: 2\r\n\r\no\n",
        ),
        (
            false,
            false,
            b"HTTP/1.1 204 No Content\r\nX-Container-Object-Count: 3\r\nX-Container-Bytes-Used: 7\r\nX-Timestamp: 0000000005.00000\r\n\
              X-Backend-Sharding-State: unsharded\r\n\r\n",
        ),
        (
            true,
            false,
            b"HTTP/1.1 200 OK\r\nContent-Type: application/json; charset=utf-8\r\nX-Container-Object-Count: 3\r\nX-Container-Bytes-Used: 7\r\n\
              X-Timestamp: 0000000005.00000\r\nX-Backend-Sharding-State: unsharded\r\nContent-Length: 2\r\n\r\n[]",
        ),
        (
            true,
            true,
            b"HTTP/1.1 200 OK\r\nContent-Type: application/json; charset=utf-8\r\nX-Container-Object-Count: 3\r\nX-Container-Bytes-Used: 7\r\n\
              X-Timestamp: 0000000005.00000\r\nX-Backend-Sharding-State: unsharded\r\nContent-Length: 132\r\n\r\n[{\"bytes\":3,\"content_type\":\"a/b\",\
              \"hash\":\"900150983cd24fb0d6963f7d28e17f72\",\"last_modified\":\"1970-01-01T00:00:05.000000\",\"name\":\"o\"}]",
        ),
    ];
    for (json, with_row, text) in table {
        let listed = Ok(entries(alloc, with_row)?);
        assert_text(
            &rt,
            alloc,
            &listing_reply(alloc, json, &info, &listed)?,
            text,
        )?;
    }
    Ok(())
}
