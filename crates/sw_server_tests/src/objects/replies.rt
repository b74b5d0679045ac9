//! Answers and what is got, and their replies. Expected bytes and dates are worked out by hand from the formats and the calendar.

use crate::objects::requests::DIGEST;
use std::alloc::Global;
use std::process::Abort;
use std::test::Fail;
use sw_hashpath::BadFile;
use sw_message::{Response, write_response};
use sw_object_server::{made_reply, reply_to, shown};
use sw_object_steps::{Answer, Change, Got};
use sw_outside::{Bytes, MemSink};
use sw_state::{Content, Head, HeadList, Heads};
use sw_timestamp::Timestamp;

fn assert_text(
    rt: &impl Abort,
    alloc: Global,
    response: &Response,
    text: &[u8],
) -> Result<(), Fail> {
    let mut out = MemSink::new(alloc, Vec::new(alloc));
    write_response(alloc, &mut out, response)?;
    assert_eq!(rt; out.bytes(), text);
    Ok(())
}

/// A put of an object whose digest is that of `abc`.
fn put(alloc: Global) -> Result<Change, Fail> {
    Ok(Change::Put {
        time: Timestamp::parse(b"5")?,
        content: content(alloc)?,
        none_match: false,
    })
}

#[test]
fn each_answer_has_its_reply(rt: HostRuntime) -> Result<(), Fail> {
    let alloc = rt.alloc();
    let time = Timestamp::parse(b"5")?;
    let table: [(Answer, &[u8]); 12] = [
        (
            Answer::Done(1),
            b"HTTP/1.1 201 Created\r\nETag: 900150983cd24fb0d6963f7d28e17f72\r\nContent-Length: 0\r\n\r\n",
        ),
        (
            Answer::Buried(1),
            b"HTTP/1.1 404 Not Found\r\nContent-Length: 0\r\n\r\n",
        ),
        (
            Answer::Conflict(time),
            b"HTTP/1.1 409 Conflict\r\nX-Backend-Timestamp: 0000000005.00000\r\nContent-Length: 0\r\n\r\n",
        ),
        (
            Answer::NotFound(None),
            b"HTTP/1.1 404 Not Found\r\nContent-Length: 0\r\n\r\n",
        ),
        (
            Answer::NotFound(Some(time)),
            b"HTTP/1.1 404 Not Found\r\nX-Backend-Timestamp: 0000000005.00000\r\nContent-Length: 0\r\n\r\n",
        ),
        (
            Answer::Mismatch(Some(5)),
            b"HTTP/1.1 412 Precondition Failed\r\nContent-Length: 0\r\n\r\n",
        ),
        (
            Answer::Exists,
            b"HTTP/1.1 412 Precondition Failed\r\nContent-Length: 0\r\n\r\n",
        ),
        (
            Answer::JournalFull,
            b"HTTP/1.1 503 Service Unavailable\r\nContent-Length: 0\r\n\r\n",
        ),
        (
            Answer::Damaged(BadFile::Field),
            b"HTTP/1.1 507 Insufficient Storage\r\nX-Swc-Damaged: 2\r\nContent-Length: 0\r\n\r\n",
        ),
        (
            Answer::Damaged(BadFile::Length),
            b"HTTP/1.1 507 Insufficient Storage\r\nX-Swc-Damaged: 3\r\nContent-Length: 0\r\n\r\n",
        ),
        (
            Answer::Failed,
            b"HTTP/1.1 507 Insufficient Storage\r\nContent-Length: 0\r\n\r\n",
        ),
        (
            Answer::NoMemory,
            b"HTTP/1.1 500 Internal Server Error\r\nContent-Length: 0\r\n\r\n",
        ),
    ];
    let put = put(alloc)?;
    for (answer, text) in table {
        let made = made_reply(alloc, &put)?;
        assert_text(&rt, alloc, &reply_to(alloc, made, answer)?, text)?;
    }
    Ok(())
}

/// A content with the body `abc` and no metadata.
fn content(alloc: Global) -> Result<Content, Fail> {
    Ok(Content {
        body: Bytes::copy(alloc, b"abc")?,
        content_type: Bytes::copy(alloc, b"text/plain")?,
        etag: DIGEST,
        heads: Heads {
            delete_at: None,
            items: HeadList::new(alloc),
        },
    })
}

/// An object of this time with the body `abc` and one item, that expires at second 7 where it says so.
fn object(alloc: Global, time: Timestamp, expires: bool) -> Result<Got, Fail> {
    let item = Head {
        name: Bytes::copy(alloc, b"x-object-meta-color")?,
        value: Bytes::copy(alloc, b"red")?,
    };
    Ok(Got::Found {
        time,
        content: content(alloc)?,
        heads: Heads {
            delete_at: if expires { Some(7) } else { None },
            items: HeadList::from_heads(vec![in alloc; item]?)?,
        },
        front: 1,
    })
}

#[test]
fn an_object_is_shown_until_it_expires(rt: HostRuntime) -> Result<(), Fail> {
    let alloc = rt.alloc();
    let table: [(&[u8], bool, u64, bool, &[u8]); 5] = [
        (
            b"1401224048.22541",
            false,
            9,
            false,
            b"HTTP/1.1 200 OK\r\nContent-Type: text/plain\r\nETag: 900150983cd24fb0d6963f7d28e17f72\r\nLast-Modified: Tue, 27 May 2014 20:54:09 GMT\r\n\
              X-Timestamp: 1401224048.22541\r\nX-Backend-Timestamp: 1401224048.22541\r\nx-object-meta-color: red\r\nContent-Length: 3\r\n\r\nabc",
        ),
        (
            b"0.00001",
            true,
            6,
            false,
            b"HTTP/1.1 200 OK\r\nContent-Type: text/plain\r\nETag: 900150983cd24fb0d6963f7d28e17f72\r\nLast-Modified: Thu, 01 Jan 1970 00:00:01 GMT\r\n\
              X-Timestamp: 0000000000.00001\r\nX-Backend-Timestamp: 0000000000.00001\r\nX-Delete-At: 0000000007\r\nx-object-meta-color: red\r\n\
              Content-Length: 3\r\n\r\nabc",
        ),
        (
            b"1",
            true,
            6,
            true,
            b"HTTP/1.1 200 OK\r\nContent-Type: text/plain\r\nETag: 900150983cd24fb0d6963f7d28e17f72\r\nLast-Modified: Thu, 01 Jan 1970 00:00:01 GMT\r\n\
              X-Timestamp: 0000000001.00000\r\nX-Backend-Timestamp: 0000000001.00000\r\nX-Delete-At: 0000000007\r\nx-object-meta-color: red\r\n\
              Content-Length: 3\r\n\r\n",
        ),
        (
            b"1",
            true,
            7,
            false,
            b"HTTP/1.1 404 Not Found\r\nContent-Length: 0\r\n\r\n",
        ),
        (
            b"1",
            true,
            8,
            true,
            b"HTTP/1.1 404 Not Found\r\nContent-Length: 0\r\n\r\n",
        ),
    ];
    for (time, expires, now, head_only, text) in table {
        let got = object(alloc, Timestamp::parse(time)?, expires)?;
        assert_text(&rt, alloc, &shown(alloc, got, now, head_only)?, text)?;
    }
    Ok(())
}

#[test]
fn what_isnt_found_is_told(rt: HostRuntime) -> Result<(), Fail> {
    let alloc = rt.alloc();
    let time = Timestamp::parse(b"5")?;
    let table: [(Got, &[u8]); 5] = [
        (
            Got::NotFound(None),
            b"HTTP/1.1 404 Not Found\r\nContent-Length: 0\r\n\r\n",
        ),
        (
            Got::NotFound(Some(time)),
            b"HTTP/1.1 404 Not Found\r\nX-Backend-Timestamp: 0000000005.00000\r\nContent-Length: 0\r\n\r\n",
        ),
        (
            Got::Damaged(BadFile::Header),
            b"HTTP/1.1 507 Insufficient Storage\r\nX-Swc-Damaged: 1\r\nContent-Length: 0\r\n\r\n",
        ),
        (
            Got::Failed,
            b"HTTP/1.1 507 Insufficient Storage\r\nContent-Length: 0\r\n\r\n",
        ),
        (
            Got::NoMemory,
            b"HTTP/1.1 500 Internal Server Error\r\nContent-Length: 0\r\n\r\n",
        ),
    ];
    for (got, text) in table {
        assert_text(&rt, alloc, &shown(alloc, got, 9, true)?, text)?;
    }
    Ok(())
}
