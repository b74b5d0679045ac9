use std::alloc::{AllocError, Global};
use std::test::Fail;
use sw_http::laws::{one_reading, one_request};
use sw_http::{Held, HttpFault, next_request};
use sw_message::{Body, Request};
use sw_outside::{Bytes, FailingPut, MemSink, MemSource};

const PUT: &[u8] =
    b"PUT /sda/0/a/c/o HTTP/1.1\r\nX-Timestamp: 1401224048.22541\r\nContent-Type: text/plain\r\nContent-Length: 3\r\n\r\nabc";

const EXPECTING: &[u8] =
    b"PUT /sda/0/a/c/o HTTP/1.1\r\nTransfer-Encoding: Chunked\r\nExpect: 100-Continue\r\n\r\n3\r\nabc\r\n0\r\n\r\n";

const GET: &[u8] = b"\r\nGET /sda/0/a/c/o?marker=b HTTP/1.1\r\n\r\n";

const SHORT_GET: &[u8] = b"GET /o HTTP/1.1\r\n\r\n";

/// The head of a PUT, up to the value of a length.
const SIZED: &[u8] = b"PUT /o HTTP/1.1\r\nContent-Length: ";

/// The head of a PUT, up to the value of a coding.
const CODED: &[u8] = b"PUT /o HTTP/1.1\r\nTransfer-Encoding: ";

/// The head of a chunked PUT.
const CHUNKED: &[u8] = b"PUT /o HTTP/1.1\r\nTransfer-Encoding: chunked\r\n\r\n";

/// The head of a PUT that waits to be told, up to its other fields.
const WAITING: &[u8] = b"PUT /o HTTP/1.1\r\nExpect: 100-continue\r\n";

/// More reads than any input of these tests needs, but for those that are read in whole pieces.
const READS: usize = 400;

/// More requests than any input of these tests has.
const REQUESTS: usize = 5;

/// A body that is shown by its size alone has more bytes.
const SHOWN: usize = 16;

/// Texts and what they are read as: the method and the body of each request, how the input ends, and then what was written.
static HEADS: [(&[u8], &[u8]); 12] = [
    (b"", b"end"),
    (b"\r\n\n", b"end"),
    (b"GET /o HTTP/1.1\r\n\r\n", b"GET , end"),
    (b"GET /o HTTP/1.1\nA: b\n\n", b"GET , end"),
    (b"GET /o HTTP/1.1\r\n\r\nabc", b"GET , bad"),
    (b"GET /o HTTP/1.0\r\n\r\n", b"bad"),
    (b"GET o HTTP/1.1\r\n\r\n", b"bad"),
    (b"GET * HTTP/1.1\r\n\r\n", b"bad"),
    (b"GET /o HTTP/1.1\r\n", b"bad"),
    (b"GET /o HTTP/1.1\r\nA: b\r\n c\r\n\r\n", b"bad"),
    (b"GET /o HTTP/1.1\r\nA: b\rc\r\n\r\n", b"bad"),
    (b"GET /o HTTP/1.1\r\nA : b\r\n\r\n", b"bad"),
];

static LENGTHS: [(&[u8], &[u8]); 18] = [
    (b"3\r\n\r\nabc", b"PUT abc, end"),
    (b" \t3 \r\n\r\nabc", b"PUT abc, end"),
    (b"03\r\n\r\nabc", b"PUT abc, end"),
    (b"000000000000000003\r\n\r\nabc", b"PUT abc, end"),
    (b"0000000000000000003\r\n\r\nabc", b"bad"),
    (b"3\r\nContent-Length: 3\r\n\r\nabc", b"PUT abc, end"),
    (b"3\r\nContent-Length: 4\r\n\r\nabcd", b"bad"),
    (b"3\r\nContent-Length: 03\r\n\r\nabc", b"bad"),
    (b"3\r\nTransfer-Encoding: chunked\r\n\r\n0\r\n\r\n", b"bad"),
    (b"\r\n\r\nabc", b"bad"),
    (b"+3\r\n\r\nabc", b"bad"),
    (b"-3\r\n\r\nabc", b"bad"),
    (b"0x3\r\n\r\nabc", b"bad"),
    (b"3 3\r\n\r\nabc", b"bad"),
    (b"3, 3\r\n\r\nabc", b"bad"),
    (b"4\r\n\r\nabc", b"bad"),
    (b"1073741824\r\n\r\nabc", b"bad"),
    (b"0\r\n\r\nGET /o HTTP/1.1\r\n\r\n", b"PUT , GET , end"),
];

static CODINGS: [(&[u8], &[u8]); 5] = [
    (b"CHUNKED\r\n\r\n0\r\n\r\n", b"PUT , end"),
    (b"gzip, chunked\r\n\r\n0\r\n\r\n", b"bad"),
    (b"identity\r\n\r\n0\r\n\r\n", b"bad"),
    (b"\"chunked\"\r\n\r\n0\r\n\r\n", b"bad"),
    (
        b"chunked\r\nTransfer-Encoding: chunked\r\n\r\n0\r\n\r\n",
        b"bad",
    ),
];

static CHUNKS: [(&[u8], &[u8]); 17] = [
    (b"1\r\na\r\n02\r\nbc\r\n000\r\n\r\n", b"PUT abc, end"),
    (
        b"3;name=\"value\"\r\nabc\r\n0;last\r\n\r\n",
        b"PUT abc, end",
    ),
    (b"3 \t;\r\nabc\r\n0\r\n\r\n", b"PUT abc, end"),
    (b"a\r\nabcdefghij\r\n0\r\n\r\n", b"PUT abcdefghij, end"),
    (
        b"3\r\nabc\r\n0\r\nA: b\r\nC:\r\n\r\nGET /o HTTP/1.1\r\n\r\n",
        b"PUT abc, GET , end",
    ),
    (b"0000000000000003\r\nabc\r\n0\r\n\r\n", b"PUT abc, end"),
    (b"00000000000000003\r\nabc\r\n0\r\n\r\n", b"bad"),
    (b"ffffffffffffffff\r\nabc\r\n0\r\n\r\n", b"bad"),
    (b"40000000\r\nabc\r\n0\r\n\r\n", b"bad"),
    (b"zz\r\n\r\n", b"bad"),
    (b"\r\n\r\n", b"bad"),
    (b"0x3\r\nabc\r\n0\r\n\r\n", b"bad"),
    (b"3\nabc\r\n0\r\n\r\n", b"bad"),
    (b"3\r\nabcd\r\n0\r\n\r\n", b"bad"),
    (b"3\r\nabc0\r\n\r\n", b"bad"),
    (b"3\r\nabc\r\n0\r\n", b"bad"),
    (b"3\r\nabc\r\n0\r\nA b\r\n\r\n", b"bad"),
];

static WAITS: [(&[u8], &[u8]); 5] = [
    (
        b"Content-Length: 0\r\n\r\n",
        b"PUT , endHTTP/1.1 100 Continue\r\n\r\n",
    ),
    (
        b"Content-Length: 999999999999999999\r\n\r\n",
        b"badHTTP/1.1 100 Continue\r\n\r\n",
    ),
    (b"Expect: x\r\nContent-Length: 0\r\n\r\n", b"PUT , end"),
    (b"\r\n", b"PUT , end"),
    (b"Content-Length: x\r\n\r\n", b"bad"),
];

/// A text that stands so many times between a front and a back, what follows, how many bytes come at a time, and what all is read as.
type Row = (
    &'static [u8],
    &'static [u8],
    usize,
    &'static [u8],
    &'static [u8],
    usize,
    &'static [u8],
);

const FIELDS: &[u8] = b"GET /o HTTP/1.1\r\n";

const TRAILER: &[u8] = b"PUT /o HTTP/1.1\r\nTransfer-Encoding: chunked\r\n\r\n0\r\n";

const LARGEST: &[u8] = b"PUT /o HTTP/1.1\r\nContent-Length: 5242880\r\n\r\n";

const LARGER: &[u8] = b"PUT /o HTTP/1.1\r\nTransfer-Encoding: chunked\r\n\r\n500001\r\n";

const SIXTEEN: &[u8] = b"0123456789abcdef";

const TWO_PUTS: &[u8] = b"PUT abc, PUT abc, endHTTP/1.1 100 Continue\r\n\r\n";

const LIMITS: [Row; 8] = [
    (b"", b"\n", 65_536, b"", SHORT_GET, 8_192, b"GET , end"),
    (b"", b"\n", 65_537, b"", SHORT_GET, 8_192, b"bad"),
    (
        FIELDS,
        b"A: b\r\n",
        128,
        b"\r\n",
        SHORT_GET,
        8_192,
        b"GET , GET , end",
    ),
    (FIELDS, b"A: b\r\n", 129, b"\r\n", SHORT_GET, 8_192, b"bad"),
    (
        TRAILER,
        b"A: b\r\n",
        128,
        b"\r\n",
        SHORT_GET,
        8_192,
        b"PUT , GET , end",
    ),
    (TRAILER, b"A: b\r\n", 129, b"\r\n", SHORT_GET, 8_192, b"bad"),
    (
        LARGER,
        SIXTEEN,
        327_680,
        b".\r\n0\r\n\r\n",
        PUT,
        8_192,
        b"PUT too large, PUT abc, end",
    ),
    (
        LARGEST,
        SIXTEEN,
        327_680,
        b"",
        b"",
        8_192,
        b"PUT the largest, end",
    ),
];

const CUTS: [Row; 12] = [
    (EXPECTING, b"", 0, b"", PUT, 1, TWO_PUTS),
    (EXPECTING, b"", 0, b"", PUT, 2, TWO_PUTS),
    (EXPECTING, b"", 0, b"", PUT, 3, TWO_PUTS),
    (EXPECTING, b"", 0, b"", PUT, 7, TWO_PUTS),
    (EXPECTING, b"", 0, b"", PUT, 50, TWO_PUTS),
    (EXPECTING, b"", 0, b"", PUT, 1_000, TWO_PUTS),
    (PUT, b"", 0, b"", GET, 1, b"PUT abc, GET , end"),
    (PUT, b"", 0, b"", GET, 2, b"PUT abc, GET , end"),
    (PUT, b"", 0, b"", GET, 3, b"PUT abc, GET , end"),
    (PUT, b"", 0, b"", GET, 7, b"PUT abc, GET , end"),
    (PUT, b"", 0, b"", GET, 50, b"PUT abc, GET , end"),
    (PUT, b"", 0, b"", GET, 1_000, b"PUT abc, GET , end"),
];

/// Two texts, how many bytes come at a time, the read and the put that fail, and what the texts are read as.
type FaultRow = (
    &'static [u8],
    &'static [u8],
    usize,
    Option<u64>,
    Option<FailingPut>,
    &'static [u8],
);

/// The second piece of 53 bytes has the end of the head, and that of 85 bytes a part of the body.
const FAULTS: [FaultRow; 4] = [
    (
        PUT,
        GET,
        53,
        Some(0),
        None,
        b"read fault, PUT abc, GET , end",
    ),
    (
        PUT,
        GET,
        53,
        Some(1),
        None,
        b"read fault, PUT abc, GET , end",
    ),
    (
        EXPECTING,
        b"",
        85,
        Some(1),
        None,
        b"read fault, badHTTP/1.1 100 Continue\r\n\r\n",
    ),
    (
        EXPECTING,
        b"",
        1_000,
        None,
        Some(FailingPut { call: 0, taken: 4 }),
        b"write faultHTTP",
    ),
];

/// A text, and the parts of the request that it is: path, query, how many fields, one of them, and whether it is framed.
const PARTS: [(&[u8], &[u8], &[u8], usize, Option<&[u8]>, bool); 2] = [
    (
        PUT,
        b"/sda/0/a/c/o",
        b"",
        3,
        Some(b"1401224048.22541"),
        true,
    ),
    (GET, b"/sda/0/a/c/o", b"marker=b", 0, None, false),
];

fn tell_body(text: &mut Vec<u8>, body: &Body) -> Result<(), AllocError> {
    match body {
        Body::Whole(bytes) => {
            let bytes = bytes.as_slice();
            if bytes.len() <= SHOWN {
                text.extend_from_slice(bytes)
            } else if bytes.len() == 5_242_880 {
                text.extend_from_slice(b"the largest")
            } else {
                text.extend_from_slice(b"large")
            }
        }
        Body::TooLarge => text.extend_from_slice(b"too large"),
    }
}

/// Adds what the next request is to a text, and answers whether one may follow.
fn tell(text: &mut Vec<u8>, next: Result<Option<Request>, HttpFault>) -> Result<bool, AllocError> {
    let told: &[u8] = match next {
        Ok(Some(request)) => {
            text.extend_from_slice(request.method.as_str().as_bytes())?;
            text.extend_from_slice(b" ")?;
            tell_body(text, &request.body)?;
            text.extend_from_slice(b", ")?;
            return Ok(true);
        }
        Err(HttpFault::ReadFault) => {
            text.extend_from_slice(b"read fault, ")?;
            return Ok(true);
        }
        Ok(None) => b"end",
        Err(HttpFault::Bad) => b"bad",
        Err(HttpFault::WriteFault) => b"write fault",
        Err(HttpFault::NoMemory) => b"no memory",
    };
    text.extend_from_slice(told)?;
    Ok(false)
}

/// What an input is read as, and then what was written.
fn reading(
    alloc: Global,
    source: &mut MemSource,
    sink: &mut MemSink,
) -> Result<Vec<u8>, AllocError> {
    let mut text = Vec::new(alloc);
    let mut held = Held::new(alloc);
    for _ in 0..REQUESTS {
        if !tell(&mut text, next_request(alloc, &mut held, source, sink))? {
            break;
        }
    }
    text.extend_from_slice(sink.bytes())?;
    Ok(text)
}

/// What two texts, one behind the other, are read as where they come so many bytes at a time.
fn reading_of(
    alloc: Global,
    first: &[u8],
    second: &[u8],
    piece: usize,
) -> Result<Vec<u8>, AllocError> {
    let mut bytes = Vec::from_slice(alloc, first)?;
    bytes.extend_from_slice(second)?;
    let pieces = vec![in alloc; piece; READS]?;
    let mut source = MemSource::new(Bytes::from(bytes), pieces, Vec::new(alloc));
    reading(
        alloc,
        &mut source,
        &mut MemSink::new(alloc, Vec::new(alloc)),
    )
}

#[test]
fn reads_each_text_in_one_way(rt: HostRuntime) -> Result<(), Fail> {
    let tables: [(&[u8], &[(&[u8], &[u8])]); 5] = [
        (b"", &HEADS),
        (SIZED, &LENGTHS),
        (CODED, &CODINGS),
        (CHUNKED, &CHUNKS),
        (WAITING, &WAITS),
    ];
    for (front, rows) in tables {
        for (text, want) in rows {
            let got = reading_of(rt.alloc(), front, text, 1_000)?;
            assert!(rt; got.as_slice() == *want);
        }
    }
    one_reading();
    one_request();
    Ok(())
}

fn row_reading(
    alloc: Global,
    (front, text, times, back, last, piece, _): Row,
) -> Result<Vec<u8>, AllocError> {
    let mut bytes = Vec::from_slice(alloc, front)?;
    for _ in 0..times {
        bytes.extend_from_slice(text)?;
    }
    bytes.extend_from_slice(back)?;
    reading_of(alloc, &bytes, last, piece)
}

#[test]
fn keeps_the_limits_and_reads_the_same_however_the_bytes_are_cut(
    rt: HostRuntime,
) -> Result<(), Fail> {
    for row in LIMITS {
        let got = row_reading(rt.alloc(), row)?;
        assert!(rt; got.as_slice() == row.6);
    }
    for row in CUTS {
        let got = row_reading(rt.alloc(), row)?;
        assert!(rt; got.as_slice() == row.6);
    }
    Ok(())
}

/// What two texts are read as where a read or a put fails.
fn faulty_reading(
    alloc: Global,
    (first, second, piece, read, put, _): FaultRow,
) -> Result<Vec<u8>, AllocError> {
    let mut bytes = Vec::from_slice(alloc, first)?;
    bytes.extend_from_slice(second)?;
    let pieces = vec![in alloc; piece; READS]?;
    let mut reads = Vec::new(alloc);
    if let Some(call) = read {
        reads.push(call)?;
    }
    let mut puts = Vec::new(alloc);
    if let Some(put) = put {
        puts.push(put)?;
    }
    let mut source = MemSource::new(Bytes::from(bytes), pieces, reads);
    reading(alloc, &mut source, &mut MemSink::new(alloc, puts))
}

#[test]
fn tells_the_fault_and_goes_on_where_the_head_was_not_whole(rt: HostRuntime) -> Result<(), Fail> {
    for row in FAULTS {
        let got = faulty_reading(rt.alloc(), row)?;
        assert!(rt; got.as_slice() == row.5);
    }
    Ok(())
}

fn first_request(alloc: Global, text: &[u8]) -> Result<Option<Request>, Fail> {
    let bytes = Bytes::copy(alloc, text)?;
    let mut source = MemSource::new(bytes, Vec::new(alloc), Vec::new(alloc));
    let mut sink = MemSink::new(alloc, Vec::new(alloc));
    Ok(next_request(alloc, &mut Held::new(alloc), &mut source, &mut sink)?)
}

fn has_parts(
    request: Option<&Request>,
    path: &[u8],
    query: &[u8],
    fields: usize,
    time: Option<&[u8]>,
    framed: bool,
) -> bool {
    match request {
        Some(request) => {
            request.path.as_slice() == path
                && request.query.as_slice() == query
                && request.fields.as_slice().len() == fields
                && request.fields.value_of(b"x-timestamp") == time
                && request.fields.has(b"X-TIMESTAMP") == time.is_some()
                && request.framed == framed
        }
        None => false,
    }
}

#[test]
fn hands_out_the_parts_of_a_request(rt: HostRuntime) -> Result<(), Fail> {
    for (text, path, query, fields, time, framed) in PARTS {
        let request = first_request(rt.alloc(), text)?;
        assert!(rt; has_parts(request.as_ref(), path, query, fields, time, framed));
    }
    Ok(())
}
