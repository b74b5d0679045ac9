use crate::fixtures::are_these;
use std::alloc::{AllocError, Global};
use std::io;
use std::io::{ErrorKind, Read, Write};
use std::rt::Clock as HostTime;
use std::time::{Duration, SystemTime, UNIX_EPOCH};
use sw_outside::{
    Bytes, BytesList, Clock, Failed, FailingPut, HostClock, MemClock, MemSink, MemSource, NoMemory,
    ReaderSource, Sequence, Sink, SoundSink, SoundSource, Source, WriterSink, is_utf8,
};

/// A writer whose calls take at most so many bytes, or fail, each in its turn.
#[derive(Drop)]
struct Told {
    answers: &'static [Result<usize, ErrorKind>],
}

impl Write for Told {
    fn write(&mut self, buf: &[u8]) -> io::Result<usize> {
        let [answer, rest @ ..] = self.answers else {
            return Err(io::Error::from(ErrorKind::WriteZero));
        };
        self.answers = rest;
        match answer {
            Ok(most) => Ok(buf.len().min(*most)),
            Err(kind) => Err(io::Error::from(*kind)),
        }
    }

    fn flush(&mut self) -> io::Result<()> {
        Ok(())
    }
}

/// The second and the third call fail.
static HALTING: [Result<usize, ErrorKind>; 4] = [
    Ok(9),
    Err(ErrorKind::Interrupted),
    Err(ErrorKind::TimedOut),
    Ok(9),
];

/// What is put to that one, and whether it is taken: nothing is written of nothing.
static TAKEN_BETWEEN: [(&[u8], bool); 5] = [
    (b"a", true),
    (b"b", false),
    (b"", true),
    (b"c", false),
    (b"d", true),
];

/// Two bytes a call, until five are taken.
static NARROW: [Result<usize, ErrorKind>; 4] = [Ok(2), Ok(2), Ok(1), Err(ErrorKind::WriteZero)];

static TAKEN_UP_TO_FIVE: [(&[u8], bool); 3] = [(b"abc", true), (b"defg", false), (b"", true)];

/// A host's time that is set by hand, or isn't known.
#[derive(Clone, Copy)]
struct SetTime {
    millis: Option<u64>,
}

impl HostTime for SetTime {
    fn monotonic(&self) -> io::Result<Duration> {
        Err(io::Error::from(ErrorKind::Unsupported))
    }

    fn since_1970(&self) -> io::Result<Duration> {
        match self.millis {
            Some(millis) => Ok(Duration::from_millis(millis)),
            None => Err(io::Error::from(ErrorKind::Unsupported)),
        }
    }
}

/// A reader that gives the number of its call, and whose second and third calls fail.
#[derive(Drop)]
struct Broken {
    reads: u8,
}

impl Read for Broken {
    fn read(&mut self, buf: &mut [u8]) -> io::Result<usize> {
        self.reads = self.reads.saturating_add(1);
        if self.reads == 2 {
            return Err(io::Error::from(ErrorKind::Interrupted));
        }
        if self.reads == 3 || buf.is_empty() {
            return Err(io::Error::from(ErrorKind::TimedOut));
        }
        buf[0] = self.reads;
        Ok(1)
    }
}

/// Whether a read with room for four bytes gives exactly these, or fails where none are wanted.
fn gives(source: &mut impl Source, want: Option<&[u8]>) -> bool {
    let mut room = [0; 4];
    match source.read(&mut room) {
        Ok(given) => want == Some(&room[..given]),
        Err(Failed) => want.is_none(),
    }
}

/// Whether each read in turn gives what is wanted.
fn gives_each(source: &mut impl Source, wants: &[Option<&[u8]>]) -> bool {
    let mut all = true;
    for want in wants {
        all = gives(source, *want) && all;
    }
    all
}

/// Whether each put in turn is taken or fails as the table says.
fn takes_each(sink: &mut impl Sink, puts: &[(&[u8], bool)]) -> bool {
    let mut all = true;
    for (bytes, taken) in puts {
        all = sink.put(bytes).is_ok() == *taken && all;
    }
    all
}

/// Whether each look at the clock shows what is wanted.
fn shows_each(clock: &mut impl Clock, wants: &[u64]) -> bool {
    let mut all = true;
    for want in wants {
        all = clock.now() == *want && all;
    }
    all
}

fn bytes_of(alloc: Global, texts: &[&[u8]]) -> Result<Vec<Bytes>, AllocError> {
    let mut vec = Vec::new(alloc);
    for text in texts {
        vec.push(Bytes::from(Vec::from_slice(alloc, text)?))?;
    }
    Ok(vec)
}

/// What reads of four bytes give: of six bytes in pieces, of which the second call fails; of five bytes as they are; and of a reader that fails.
static CUT: [Option<&[u8]>; 5] = [Some(b"ab"), None, Some(b"c"), Some(b"def"), Some(b"")];

static WHOLE: [Option<&[u8]>; 3] = [Some(b"abcd"), Some(b"e"), Some(b"")];

static READ: [Option<&[u8]>; 4] = [Some(&[1]), None, None, Some(&[4])];

/// A source of six bytes, which gives them in these pieces, and whose second call fails.
fn cut_source(alloc: Global) -> Result<MemSource, NoMemory> {
    let bytes = Bytes::copy(alloc, b"abcdef")?;
    let pieces = Vec::from_slice(alloc, &[2, 0, 1])?;
    Ok(MemSource::new(bytes, pieces, Vec::from_slice(alloc, &[1])?))
}

fn cut_gives_its_pieces(alloc: Global) -> Result<bool, NoMemory> {
    Ok(gives_each(&mut cut_source(alloc)?, &CUT))
}

fn sound_gives_all(alloc: Global) -> Result<bool, NoMemory> {
    let mut sound = SoundSource::new(Bytes::copy(alloc, b"abcde")?);
    Ok(gives_each(&mut sound, &WHOLE))
}

/// Whether a reader's failures are told, and counted with its calls.
fn reader_gives_what_is_read() -> bool {
    let mut read = ReaderSource::new(Broken { reads: 0 });
    gives_each(&mut read, &READ) && read.calls() == 4 && read.faults() == 2
}

#[test]
fn sources_give_their_bytes_in_pieces_and_fail_where_they_are_told(rt: HostRuntime) {
    let alloc = rt.alloc();
    assert!(rt; cut_gives_its_pieces(alloc) == Ok(true));
    assert!(rt; sound_gives_all(alloc) == Ok(true));
    assert!(rt; reader_gives_what_is_read());
}

/// What is put to a sink in memory, and whether it is taken.
static TAKEN_BY_PLAN: [(&[u8], bool); 8] = [
    (b"abc", true),
    (b"def", false),
    (b"g", true),
    (b"hij", false),
    (b"", true),
    (b"", false),
    (b"no", false),
    (b"k", true),
];

/// The puts among them that fail, and how much each takes.
const FAILING: [FailingPut; 4] = [
    FailingPut { call: 1, taken: 2 },
    FailingPut { call: 3, taken: 9 },
    FailingPut { call: 5, taken: 3 },
    FailingPut { call: 6, taken: 0 },
];

fn mem_takes_what_it_is_told(alloc: Global) -> Result<bool, AllocError> {
    let mut kept = MemSink::new(alloc, Vec::from_slice(alloc, &FAILING)?);
    let taken = takes_each(&mut kept, &TAKEN_BY_PLAN);
    Ok(taken && kept.bytes() == b"abcdeghijk".as_slice() && kept.starved() == 0)
}

/// Whether puts over a writer with these answers are taken or fail as the table says.
fn writer_takes(answers: &'static [Result<usize, ErrorKind>], puts: &[(&[u8], bool)]) -> bool {
    takes_each(&mut WriterSink::new(Told { answers }), puts)
}

#[test]
fn sinks_take_all_or_fail_where_they_are_told(rt: HostRuntime) {
    assert!(rt; mem_takes_what_it_is_told(rt.alloc()) == Ok(true));
    assert!(rt; writer_takes(&NARROW, &TAKEN_UP_TO_FIVE));
    assert!(rt; writer_takes(&HALTING, &TAKEN_BETWEEN));
    assert!(rt; takes_each(&mut SoundSink::new(), &[(b"anything", true), (b"", true)]));
}

/// Whether a clock with these readings shows what is wanted.
fn mem_shows(alloc: Global, readings: &[u64], wants: &[u64]) -> Result<bool, AllocError> {
    let mut clock = MemClock::new(Vec::from_slice(alloc, readings)?);
    Ok(shows_each(&mut clock, wants))
}

#[test]
fn clocks_show_their_readings_in_order_and_then_the_last(rt: HostRuntime) {
    assert!(rt; mem_shows(rt.alloc(), &[5, 7], &[5, 7, 7]) == Ok(true));
    assert!(rt; mem_shows(rt.alloc(), &[], &[0, 0]) == Ok(true));
}

/// The whole seconds that the host's clock shows.
fn shown(time: &impl HostTime) -> u64 {
    HostClock::new(time).now()
}

/// How many whole seconds have gone since 1970, where that is known.
fn seconds(rt: &HostRuntime) -> Option<u64> {
    let now = SystemTime::now(rt).ok()?;
    Some(now.duration_since(UNIX_EPOCH).ok()?.as_secs())
}

/// Whether the host's clock shows a time between two looks at the host's own.
fn shows_the_time(rt: &HostRuntime) -> Option<bool> {
    let before = seconds(rt)?;
    let now = shown(rt);
    let after = seconds(rt)?;
    Some(1_700_000_000 < before && before <= now && now <= after)
}

#[test]
fn the_hosts_clock_shows_whole_seconds(rt: HostRuntime) {
    assert!(rt; shows_the_time(&rt) == Some(true));
    let cases = [(Some(7_999), 7), (Some(8_000), 8), (Some(0), 0), (None, 0)];
    for (millis, wanted) in cases {
        assert!(rt; shown(&SetTime { millis }) == wanted);
    }
}

/// Whether the copy of a list of these texts has them, and gives them back.
fn are_copied(alloc: Global, texts: &[&[u8]]) -> Result<bool, NoMemory> {
    let list = BytesList::from(bytes_of(alloc, texts)?);
    let copy = list.copy(alloc)?;
    let same = are_these(copy.as_slice(), texts);
    let given: Vec<Bytes> = copy.into();
    Ok(same && are_these(&given, texts))
}

fn new_list_is_copied(alloc: Global) -> Result<bool, NoMemory> {
    Ok(BytesList::new(alloc).copy(alloc)?.as_slice().is_empty())
}

/// Whether a byte string gives these bytes back.
fn is_given_back(alloc: Global, text: &[u8]) -> Result<bool, NoMemory> {
    let bytes: Vec<u8> = Bytes::copy(alloc, text)?.into();
    Ok(bytes.as_slice() == text)
}

/// Whether the copy of a sequence of these has them.
fn numbers_are_copied(alloc: Global, numbers: &[u64]) -> Result<bool, NoMemory> {
    let sequence = Sequence::from(Vec::from_slice(alloc, numbers)?);
    Ok(sequence.copy(alloc)?.as_slice() == numbers)
}

/// Whether the copy of a sequence of these has them.
fn small_are_copied(alloc: Global, numbers: &[u8]) -> Result<bool, NoMemory> {
    let sequence = Sequence::from(Vec::from_slice(alloc, numbers)?);
    Ok(sequence.copy(alloc)?.as_slice() == numbers)
}

#[test]
fn byte_strings_and_lists_of_them_are_copied_and_given_back(rt: HostRuntime) {
    let alloc = rt.alloc();
    assert!(rt; are_copied(alloc, &[b"sda", b""]) == Ok(true));
    assert!(rt; new_list_is_copied(alloc) == Ok(true));
    assert!(rt; is_given_back(alloc, b"abc") == Ok(true));
    assert!(rt; numbers_are_copied(alloc, &[0, 3]) == Ok(true));
    assert!(rt; small_are_copied(alloc, &[0, 3]) == Ok(true));
    assert!(rt; is_utf8(b"\xc3\xa4") && !is_utf8(b"\xc3"));
}
