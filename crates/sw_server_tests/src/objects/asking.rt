//! Requests and what they ask for. Expected statuses and partitions are worked out by hand from the formats and the MD5 of the paths.

use crate::objects::requests::{DIGEST, request, ring};
use std::alloc::Global;
use std::process::Abort;
use std::test::Fail;
use sw_object_server::{Asked, read_request};
use sw_object_steps::Change;
use sw_state::{Content, Kind, Write};

/// The status of a request that isn't refused.
const TAKEN: u16 = 0;

/// The status that refuses what is asked for, if it is refused.
fn status_of(asked: &Asked) -> u16 {
    match asked {
        Asked::Refused(status) => *status,
        _ => TAKEN,
    }
}

fn assert_statuses(rt: &impl Abort, alloc: Global, table: &[(&[u8], u16)]) -> Result<(), Fail> {
    let ring = ring(alloc)?;
    for (lines, status) in table {
        let asked = read_request(alloc, &ring, request(alloc, lines)?)?;
        assert_eq!(rt; status_of(&asked), *status);
    }
    Ok(())
}

#[test]
fn targets_are_refused_in_the_order_of_their_tests(rt: HostRuntime) -> Result<(), Fail> {
    let table: [(&[u8], u16); 14] = [
        // Four segments, or a container's row, before the method; of the field that says so the last one counts.
        (b"BREW /sda/0/a/c", 400),
        (b"BREW x/sda/0/a/c/o", 400),
        (
            b"BREW /sda/0/a/c/o\nx-swc-server:object\nX-Swc-Server:container",
            400,
        ),
        (
            b"BREW /sda/0/a/c/o\nx-swc-server:container\nX-Swc-Server:object",
            405,
        ),
        // The method before the names.
        (b"BREW /sdz/9/a/c/", 405),
        (b"REPLICATE /sdz/9/a/c/", 405),
        // The names before the device.
        (b"GET /sdz/9/a/c/", 400),
        (b"GET /sdz/9//c/o", 400),
        // The device before the partition.
        (b"GET /sdz/9/a/c/o", 404),
        (b"GET /sda/1/a/c/o", 400),
        (b"HEAD /sda/00/a/c/o", 400),
        (b"GET /sda//a/c/o", 400),
        (b"GET /sda/0/a/c/o", TAKEN),
        (b"HEAD /sda/0/a/c/o", TAKEN),
    ];
    assert_statuses(&rt, rt.alloc(), &table)
}

#[test]
fn puts_are_refused_in_the_order_of_their_tests(rt: HostRuntime) -> Result<(), Fail> {
    let table: [(&[u8], u16); 16] = [
        // The time before the length, this before the size, and this before the type.
        (b"PUT /sda/0/a/c/o", 400),
        (b"PUT /sda/0/a/c/o\nX-Timestamp:1.123456", 400),
        (b"PUT /sda/0/a/c/o\nX-Timestamp:5", 411),
        (
            b"PUT /sda/0/a/c/o\nX-Timestamp:5\nContent-Length:5242881",
            413,
        ),
        // The type, the second of expiry and the metadata before the ETag.
        (
            b"PUT /sda/0/a/c/o\nX-Timestamp:5\nContent-Length:3\nETag:0",
            400,
        ),
        (
            b"PUT /sda/0/a/c/o\nX-Timestamp:5\nContent-Length:3\nContent-Type:\nETag:0",
            400,
        ),
        (
            b"PUT /sda/0/a/c/o\nX-Timestamp:5\nContent-Length:3\nContent-Type:\xff\nETag:0",
            400,
        ),
        (
            b"PUT /sda/0/a/c/o\nX-Timestamp:5\nContent-Length:3\nContent-Type:a/b\nX-Delete-At:\nETag:0",
            400,
        ),
        (
            b"PUT /sda/0/a/c/o\nX-Timestamp:5\nContent-Length:3\nContent-Type:a/b\nX-Delete-At:x\nETag:0",
            400,
        ),
        (
            b"PUT /sda/0/a/c/o\nX-Timestamp:5\nContent-Length:3\nContent-Type:a/b\nX-Delete-At:5\nETag:0",
            400,
        ),
        (
            b"PUT /sda/0/a/c/o\nX-Timestamp:5\nContent-Length:3\nContent-Type:a/b\nX-Delete-At:12345678901\nETag:0",
            400,
        ),
        (
            b"PUT /sda/0/a/c/o\nX-Timestamp:5\nContent-Length:3\nContent-Type:a/b\nX-Object-Meta-:v\nETag:0",
            400,
        ),
        (
            b"PUT /sda/0/a/c/o\nX-Timestamp:5\nContent-Length:3\nContent-Type:a/b\nX-Delete-At:6\nETag:0",
            422,
        ),
        (
            b"PUT /sda/0/a/c/o\nX-Timestamp:5\nContent-Length:3\nContent-Type:a/b\nETag:",
            422,
        ),
        (
            b"PUT /sda/0/a/c/o\nX-Timestamp:5\nContent-Length:3\nContent-Type:a/b\nETag:\"\"900150983CD24FB0D6963F7D28E17F72\"",
            TAKEN,
        ),
        (
            b"PUT /sda/0/a/c/o\nX-Timestamp:x\nX-Timestamp:5\nContent-Length:3\nContent-Type:a/b",
            TAKEN,
        ),
    ];
    assert_statuses(&rt, rt.alloc(), &table)
}

#[test]
fn posts_and_deletions_have_fewer_tests(rt: HostRuntime) -> Result<(), Fail> {
    let table: [(&[u8], u16); 9] = [
        (b"POST /sda/0/a/c/o\nX-Object-Meta-Color:red", 400),
        (b"POST /sda/0/a/c/o\nX-Timestamp:5\nX-Delete-At:5", 400),
        (b"POST /sda/0/a/c/o\nX-Timestamp:5\nX-Object-Meta-:v", 400),
        (
            b"POST /sda/0/a/c/o\nX-Timestamp:5\nContent-Length:5242881\nETag:0",
            TAKEN,
        ),
        (b"DELETE /sda/0/a/c/o", 400),
        (b"DELETE /sda/0/a/c/o\nX-Timestamp:5", TAKEN),
        // A deletion may name a second, which has 1 to 10 digits, unless another node sends it.
        (
            b"DELETE /sda/0/a/c/o\nX-Timestamp:5\nX-If-Delete-At:9",
            TAKEN,
        ),
        (
            b"DELETE /sda/0/a/c/o\nX-Timestamp:5\nX-If-Delete-At:x\nX-Backend-Replication:TRUE",
            400,
        ),
        (
            b"DELETE /sda/0/a/c/o\nX-Timestamp:5\nX-If-Delete-At:x\nX-Backend-Replication:True",
            TAKEN,
        ),
    ];
    assert_statuses(&rt, rt.alloc(), &table)
}

#[test]
fn a_path_is_cut_and_then_decoded(rt: HostRuntime) -> Result<(), Fail> {
    let table: [(&[u8], u16); 17] = [
        (b"GET /%73da/%30/%61/%63/%6f", TAKEN),
        // A sign that begins no escape stands for itself.
        (b"GET /sda/1/a/c/%", TAKEN),
        (b"GET /sda/1/a/c/%4", TAKEN),
        (b"GET /sda/2/a/c/%zz", TAKEN),
        (b"GET /sda/1/%/%4/%zz", TAKEN),
        // The object is all the rest.
        (b"GET /sda/1/a/c/x/y", TAKEN),
        (b"GET /sda/1/a/c/x%2Fy", TAKEN),
        (b"GET /sda/0/a/c/x/y//z", TAKEN),
        (b"GET /sda/2/a/c/o/", TAKEN),
        // A slash that comes out of an escape cuts nothing.
        (b"GET /sda%2F0/a/c/o", 400),
        (b"GET /sd%2Fa/0/a/c/o", 404),
        (b"GET /sda/0%2F/a/c/o", 400),
        (b"GET /sda/0/a%2Fb/c/o", 400),
        (b"GET /sda/0/a/c%2fd/o", 400),
        (b"GET /%FF/0/a/c/o", 404),
        (b"GET /sda/0/a/%FF/o", 400),
        (b"GET /sda/0/a/c/%00", 400),
    ];
    assert_statuses(&rt, rt.alloc(), &table)
}

/// Their time, in units of 10 microseconds.
const TIME: u64 = 140_122_404_822_541;

/// A PUT with items of each kind, one of them given twice, and a field that is none.
const PUT: &[u8] =
    b"PUT /sdb/0/a/c/o\nX-Timestamp:1401224048.22541\nContent-Length:3\nContent-Type:text/plain\nX-Delete-At:1401230000\nX-Object-Meta-Color:red\n\
      Expires:0\nx-object-meta-COLOR:blue\nContent-Encoding:gzip\nX-Object-Met-Color:green";

/// The same from another node.
const RECEIVED: &[u8] =
    b"PUT /sdb/0/a/c/o\nX-Timestamp:1401224048.22541\nContent-Length:3\nContent-Type:text/plain\nX-Delete-At:1401230000\nX-Object-Meta-Color:red\n\
      Expires:0\nx-object-meta-COLOR:blue\nContent-Encoding:gzip\nIf-None-Match:*\nX-Backend-Replication:true";

/// Whether it is the content that those ask for.
fn is_content(content: &Content) -> bool {
    let items = &content.heads.items;
    content.body.as_slice() == b"abc".as_slice()
        && content.content_type.as_slice() == b"text/plain".as_slice()
        && content.etag == DIGEST
        && content.heads.delete_at == Some(1_401_230_000)
        && items.as_slice().len() == 3
        && items.get(b"content-encoding") == Some(b"gzip".as_slice())
        && items.get(b"expires") == Some(b"0".as_slice())
        && items.get(b"x-object-meta-color") == Some(b"blue".as_slice())
}

/// Whether that content is put at their time, or is taken over.
fn puts_content(change: &Change, taken_over: bool) -> bool {
    match change {
        Change::Put {
            time,
            content,
            none_match,
        } => !taken_over && time.units() == TIME && !*none_match && is_content(content),
        Change::Receive { write } => { taken_over && write.time.units() == TIME && is_put(write) }
        _ => false,
    }
}

fn is_put(write: &Write) -> bool {
    match &write.kind {
        Kind::Put(content) => is_content(content),
        _ => false,
    }
}

/// Whether it is asked for at its name, at the second device.
fn asks_to_put(asked: &Asked, taken_over: bool) -> bool {
    match asked {
        Asked::Change {
            device,
            name,
            change,
        } => *device == 1
            && name.object.as_slice() == b"o".as_slice()
            && puts_content(change, taken_over),
        _ => false,
    }
}

#[test]
fn a_put_asks_for_its_content(rt: HostRuntime) -> Result<(), Fail> {
    let alloc = rt.alloc();
    let ring = ring(alloc)?;
    let table: [(&[u8], bool); 2] = [(PUT, false), (RECEIVED, true)];
    for (lines, taken_over) in table {
        let asked = read_request(alloc, &ring, request(alloc, lines)?)?;
        assert!(rt; asks_to_put(&asked, taken_over));
    }
    Ok(())
}
