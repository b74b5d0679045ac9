//! Requests for replicas: what they ask for, and the texts of their replies. Expected statuses, suffixes and texts are worked out by hand from the
//! formats; digests are those of Python's hashlib.

use crate::objects::requests::{request, ring};
use std::alloc::Global;
use std::test::Fail;
use sw_diskfile::{Picked, read_name};
use sw_hashpath::BadFile;
use sw_message::{Response, write_response};
use sw_object_steps::DirFault;
use sw_outside::MemSink;
use sw_replica_server::{
    ReplicaAsked, files_reply, hashes_reply, is_replication, read_replication,
};
use sw_ring::Ring;
use sw_suffix::{DirLine, SuffixHash};

/// The status of a request that is another server's.
const OTHER: u16 = 1;

/// The status of a request for hashes, and of one for files.
const HASHES: u16 = 2;

const FILES: u16 = 3;

/// The status that a request on this line gets, or what it asks for.
fn status_of(alloc: Global, ring: &Ring, line: &[u8]) -> Result<u16, Fail> {
    let request = request(alloc, line)?;
    if !is_replication(&request) {
        return Ok(OTHER);
    }
    match read_replication(alloc, ring, &request)? {
        ReplicaAsked::Refused(status) => Ok(status),
        ReplicaAsked::Hashes { .. } => Ok(HASHES),
        ReplicaAsked::Files { .. } => Ok(FILES),
    }
}

#[test]
fn requests_for_replicas_are_refused_in_the_order_of_their_tests(
    rt: HostRuntime,
) -> Result<(), Fail> {
    let alloc = rt.alloc();
    let ring = ring(alloc)?;
    let table: [(&[u8], u16); 24] = [
        // The method, and two or three segments.
        (b"GET /sda/0", OTHER),
        (b"replicate /sda/0", OTHER),
        (b"REPLICATE sda/0/", OTHER),
        (b"REPLICATE /sda", OTHER),
        (b"REPLICATE /sda/0/a83/x", OTHER),
        (b"REPLICATE /sda/0", HASHES),
        (b"REPLICATE /sda/0/a83", FILES),
        // The device before the partition, and this before the suffixes.
        (b"REPLICATE /sdz/9/x", 404),
        (b"REPLICATE //0", 404),
        (b"REPLICATE /sda/9/x", 400),
        (b"REPLICATE /sda/3", HASHES),
        (b"REPLICATE /sda/4", 400),
        (b"REPLICATE /sda/00", 400),
        (b"REPLICATE /sda/+1", 400),
        (b"REPLICATE /sda/", 400),
        (b"REPLICATE /sda/0/", 400),
        (b"REPLICATE /sda/0/A83", 400),
        (b"REPLICATE /sda/0/0a83", 400),
        (b"REPLICATE /sda/0/a8", 400),
        (b"REPLICATE /sda/0/a83-", 400),
        (b"REPLICATE /sda/0/a83--a83", 400),
        // A path is cut and then decoded.
        (b"REPLICATE /%73da/%30/%6183%2d000", FILES),
        (b"REPLICATE /sda/0%2Fa83", 400),
        (b"REPLICATE /sda%2F0/0", 404),
    ];
    for (line, status) in table {
        assert_eq!(rt; status_of(alloc, &ring, line)?, status);
    }
    Ok(())
}

/// Whether a request on this line asks for the files of these suffixes, at the second device.
fn asks_for(alloc: Global, ring: &Ring, line: &[u8], named: &[u16]) -> Result<bool, Fail> {
    let request = request(alloc, line)?;
    if !is_replication(&request) {
        return Ok(false);
    }
    match read_replication(alloc, ring, &request)? {
        ReplicaAsked::Files {
            device,
            part,
            suffixes,
        } => Ok(device == 1 && part == 2 && suffixes.as_slice() == named),
        _ => Ok(false),
    }
}

#[test]
fn suffixes_are_asked_for_in_order_and_each_once(rt: HostRuntime) -> Result<(), Fail> {
    let alloc = rt.alloc();
    let ring = ring(alloc)?;
    let table: [(&[u8], &[u16]); 3] = [
        (b"REPLICATE /sdb/2/a83", &[0xa83]),
        (b"REPLICATE /sdb/2/fff-000-a83-000", &[0, 0xa83, 0xfff]),
        (b"REPLICATE /sdb/2/010-00f-00f-010", &[0x00f, 0x010]),
    ];
    for (line, named) in table {
        assert!(rt; asks_for(alloc, &ring, line, named)?);
    }
    Ok(())
}

/// Whether the reply is written so.
fn is_written(alloc: Global, response: &Response, text: &[u8]) -> Result<bool, Fail> {
    let mut out = MemSink::new(alloc, Vec::new(alloc));
    write_response(alloc, &mut out, response)?;
    Ok(out.bytes() == text)
}

/// The hash of /a/c/o where the secrets' suffix is `endcap`, and a hash before it.
const HASH: [u8; 16] = [
    0x06, 0xfb, 0xf0, 0xb5, 0x14, 0xe5, 0x19, 0x9d, 0xfc, 0x4e, 0x00, 0xf4, 0x2e, 0xb5, 0xea, 0x83,
];

const EARLIER: [u8; 16] = [
    0x06, 0xfb, 0xf0, 0xb5, 0x14, 0xe5, 0x19, 0x9d, 0xfc, 0x4e, 0x00, 0xf4, 0x2e, 0xb5, 0xe9, 0xff,
];

/// The MD5 of `06fbf0b514e5199dfc4e00f42eb5ea83/0000000005.00000.data` and a line feed.
const MD5: [u8; 16] = [
    0x52, 0x1d, 0x10, 0x73, 0x6a, 0x23, 0x29, 0xa0, 0xf4, 0x32, 0xa2, 0x66, 0x91, 0x4a, 0xa4, 0x8b,
];

/// Whether these hashes are told so.
fn hashes_are_told(alloc: Global, hashes: &[SuffixHash], text: &[u8]) -> Result<bool, Fail> {
    let got = Ok(Vec::from_slice(alloc, hashes)?);
    is_written(alloc, &hashes_reply(alloc, &got)?, text)
}

#[test]
fn hashes_have_their_text(rt: HostRuntime) -> Result<(), Fail> {
    let table: [(&[SuffixHash], &[u8]); 3] = [
        (
            &[],
            b"HTTP/1.1 200 OK\r\nContent-Type: application/json; charset=utf-8\r\nContent-Length: 2\r\n\r\n{}",
        ),
        (
            &[SuffixHash {
                suffix: 0xa83,
                md5: MD5,
            }],
            b"HTTP/1.1 200 OK\r\nContent-Type: application/json; charset=utf-8\r\nContent-Length: 42\r\n\r\n{\"a83\":\"521d10736a2329a0f432a266914aa48b\"}",
        ),
        (
            &[
                SuffixHash {
                    suffix: 9,
                    md5: MD5,
                },
                SuffixHash {
                    suffix: 0xa83,
                    md5: HASH,
                },
            ],
            b"HTTP/1.1 200 OK\r\nContent-Type: application/json; charset=utf-8\r\nContent-Length: 83\r\n\r\n{\"009\":\"521d10736a2329a0f432a266914aa48b\",\
              \"a83\":\"06fbf0b514e5199dfc4e00f42eb5ea83\"}",
        ),
    ];
    for (hashes, text) in table {
        assert!(rt; hashes_are_told(rt.alloc(), hashes, text)?);
    }
    Ok(())
}

/// The file of a put at second 5, and that of a meta at second 9.
const DATA: &[u8] = b"0000000005.00000.data";

const META: &[u8] = b"0000000009.00000.meta";

/// Whether the lines of these hashes, each with its files, are told so.
fn files_are_told(alloc: Global, hashes: &[([u8; 16], bool)], text: &[u8]) -> Result<bool, Fail> {
    let data = read_name(DATA)?;
    let meta = read_name(META)?;
    let mut lines = Vec::new(alloc);
    for (hash, has_data) in hashes {
        let base = if *has_data { Some(data) } else { None };
        let picked = Picked {
            base,
            meta: Some(meta),
        };
        lines.push(DirLine {
            hash: *hash,
            picked,
        })?;
    }
    is_written(alloc, &files_reply(alloc, &Ok(lines))?, text)
}

#[test]
fn files_stand_in_order_of_their_hashes(rt: HostRuntime) -> Result<(), Fail> {
    let table: [(&[([u8; 16], bool)], &[u8]); 3] = [
        (
            &[],
            b"HTTP/1.1 200 OK\r\nContent-Type: application/json; charset=utf-8\r\nContent-Length: 2\r\n\r\n{}",
        ),
        (
            &[(HASH, true)],
            b"HTTP/1.1 200 OK\r\nContent-Type: application/json; charset=utf-8\r\nContent-Length: 86\r\n\r\n\
              {\"06fbf0b514e5199dfc4e00f42eb5ea83\":[\"0000000005.00000.data\",\"0000000009.00000.meta\"]}",
        ),
        (
            &[(HASH, true), (EARLIER, false)],
            b"HTTP/1.1 200 OK\r\nContent-Type: application/json; charset=utf-8\r\nContent-Length: 147\r\n\r\n\
              {\"06fbf0b514e5199dfc4e00f42eb5e9ff\":[\"0000000009.00000.meta\"],\"06fbf0b514e5199dfc4e00f42eb5ea83\":[\"0000000005.00000.data\",\
              \"0000000009.00000.meta\"]}",
        ),
    ];
    for (hashes, text) in table {
        assert!(rt; files_are_told(rt.alloc(), hashes, text)?);
    }
    Ok(())
}

/// Whether both replies to a read that gave nothing are written so.
fn fault_is_told(alloc: Global, fault: DirFault, text: &[u8]) -> Result<bool, Fail> {
    let hashes = is_written(alloc, &hashes_reply(alloc, &Err(fault))?, text)?;
    let files = is_written(alloc, &files_reply(alloc, &Err(fault))?, text)?;
    Ok(hashes && files)
}

#[test]
fn a_read_that_gave_nothing_has_its_status(rt: HostRuntime) -> Result<(), Fail> {
    let table: [(DirFault, &[u8]); 3] = [
        (
            DirFault::Failed,
            b"HTTP/1.1 507 Insufficient Storage\r\nContent-Length: 0\r\n\r\n",
        ),
        (
            DirFault::NoMemory,
            b"HTTP/1.1 500 Internal Server Error\r\nContent-Length: 0\r\n\r\n",
        ),
        (
            DirFault::Damaged(BadFile::Field),
            b"HTTP/1.1 507 Insufficient Storage\r\nX-Swc-Damaged: 2\r\nContent-Length: 0\r\n\r\n",
        ),
    ];
    for (fault, text) in table {
        assert!(rt; fault_is_told(rt.alloc(), fault, text)?);
    }
    Ok(())
}
