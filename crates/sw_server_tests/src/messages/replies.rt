use std::alloc::Global;
use std::test::Fail;
use sw_message::laws::carries_its_length;
use sw_message::{Field, FieldList, ReplyBody, Response, WriteFault, write_response};
use sw_outside::{Bytes, FailingPut, MemSink, NoMemory};

const ETAG: &[u8] = b"900150983cd24fb0d6963f7d28e17f72";

const CREATED: &[u8] =
    b"HTTP/1.1 201 Created\r\nETag: 900150983cd24fb0d6963f7d28e17f72\r\nContent-Length: 0\r\n\r\n";

/// A status, the ETag, the body, whether it is left out, how many bytes of the text the sink takes before it fails, and what it then has.
const ROWS: [(u16, Option<&[u8]>, &[u8], bool, Option<usize>, &[u8]); 7] = [
    (201, Some(ETAG), b"", false, None, CREATED),
    (
        400,
        None,
        b"",
        false,
        None,
        b"HTTP/1.1 400 Bad Request\r\nContent-Length: 0\r\n\r\n",
    ),
    (
        204,
        None,
        b"",
        false,
        None,
        b"HTTP/1.1 204 No Content\r\n\r\n",
    ),
    (
        204,
        None,
        b"abc",
        false,
        None,
        b"HTTP/1.1 204 No Content\r\n\r\n",
    ),
    (
        200,
        None,
        b"abc",
        false,
        None,
        b"HTTP/1.1 200 OK\r\nContent-Length: 3\r\n\r\nabc",
    ),
    (
        200,
        None,
        b"abc",
        true,
        None,
        b"HTTP/1.1 200 OK\r\nContent-Length: 3\r\n\r\n",
    ),
    (200, None, b"abc", false, Some(4), b"HTTP"),
];

fn reply(
    alloc: Global,
    status: u16,
    etag: Option<&[u8]>,
    body: &[u8],
    left_out: bool,
) -> Result<Response, NoMemory> {
    let mut fields = Vec::new(alloc);
    if let Some(etag) = etag {
        fields.push(Field {
            name: Bytes::copy(alloc, b"ETag")?,
            value: Bytes::copy(alloc, etag)?,
        })?;
    }
    let body = if left_out {
        ReplyBody::LeftOut(body.len() as u64)
    } else {
        ReplyBody::Whole(Bytes::copy(alloc, body)?)
    };
    Ok(Response {
        status,
        fields: FieldList::from(fields),
        body,
    })
}

/// A sink whose first put fails once so many bytes were taken.
fn sink(alloc: Global, taken: Option<usize>) -> Result<MemSink, NoMemory> {
    let mut failing = Vec::new(alloc);
    if let Some(taken) = taken {
        failing.push(FailingPut { call: 0, taken })?;
    }
    Ok(MemSink::new(alloc, failing))
}

fn is_expected(written: Result<(), WriteFault>, fails: bool) -> bool {
    match written {
        Ok(()) => !fails,
        Err(WriteFault::Failed) => fails,
        Err(WriteFault::NoMemory) => false,
    }
}

#[test]
fn writes_the_text_of_a_reply(rt: HostRuntime) -> Result<(), Fail> {
    let alloc = rt.alloc();
    for (status, etag, body, left_out, taken, want) in ROWS {
        let reply = reply(alloc, status, etag, body, left_out)?;
        let mut sink = sink(alloc, taken)?;
        let written = write_response(alloc, &mut sink, &reply);
        assert!(rt; is_expected(written, taken.is_some()));
        assert!(rt; sink.bytes() == want);
    }
    carries_its_length();
    Ok(())
}
