use crate::ring::{WORKED, crosses};
use crate::state::content;
use itoa::Buffer;
use md5::{Digest, Md5};
use std::alloc::Global;
use sw_hashpath::{Name, hex_text};
use sw_jobs::{Job, Work, disagreement, generate, laws};
use sw_ring::{Ring, RingError, read};
use sw_timestamp::Timestamp;

/// A ring of three devices and as many replicas, in eight partitions.
const WIDE: &str =
    "{\"devices\":[\"sda\",\"sdb\",\"sdc\"],\"part_power\":3,\"lock_bits\":1,\"replicas\":3,\"hash_prefix\":\"pre\",\"hash_suffix\":\"changeme\",\
      \"object\":[[0,1,2],[1,2,0],[2,0,1],[0,2,1],[1,0,2],[2,1,0],[0,1,2],[1,2,0]],\
      \"container\":[[0,1,2],[1,2,0],[2,0,1],[0,2,1],[1,0,2],[2,1,0],[0,1,2],[1,2,0]]}";

/// A ring, a seed, how many requests, and the MD5 of a line for each job of the list: values of another program, which was written from the rule alone.
const LISTS: [(&str, u64, u16, &[u8]); 12] = [
    (WORKED, 0, 1100, b"d5f50791922f18eb135eccbc6c57eff7"),
    (WORKED, 7, 1100, b"993df1f00fca6a091d64f1b06d578d01"),
    (WORKED, 1 << 63, 1100, b"72dff3198edc699f3b8c2d339375d39d"),
    (WIDE, 0, 1100, b"fa330c6fd1e88a6798b6db1ad1e84d58"),
    (WIDE, 7, 1100, b"8d9e441c18c7a001f6d81cc87b76cc33"),
    (WIDE, 1 << 63, 1100, b"c797dc925fb801566995dfad306cf42b"),
    (WIDE, 7, 1500, b"75350d1374dcd1384a320d322384ff82"),
    (WORKED, 7, 500, b"35fb8d0af2d0a70387cac3a139208fcd"),
    (WORKED, 7, 499, b"5e414e61ab9b2e08691b6c0dcd11583d"),
    (WORKED, 7, 3, b"4c470cd3ab0e4544dcf055972315c55b"),
    (WORKED, 7, 1, b"4e08ca48e004130185c9d046dae3328d"),
    (WORKED, 7, 0, b"d41d8cd98f00b204e9800998ecf8427e"),
];

/// Lines of the list of the worked ring for the seed 7 and 1,500 requests, each at its place.
const LINES: [(usize, &[u8]); 7] = [
    (
        0,
        b"0 delete 1 a c3 o00000003 ab4f25a89eb0402686931c863982416e 140000000000000\n",
    ),
    (
        1,
        b"1 get 0 a c0 o00000264 ae57f0a3bd5eba8ccc68a4939d69f0af\n",
    ),
    (
        16,
        b"16 put 0 a c3 o00000326 eab4b74def7a5afaae248a18464481cc 140000000000016 application/octet-stream d6ce49fc1a64ec3bb8e335b9e7a3e080 pqrstuv\n",
    ),
    (
        197,
        b"197 put 0 a c2 o00000273 0bf6891d1f124858fcfb5f7280653a42 140000000000197 application/octet-stream a256e6b336afdc38c564789c399b516c cde\n",
    ),
    (500, b"500 replicate 1\n"),
    (1001, b"1001 update 0\n"),
    (1502, b"1502 rows 1\n"),
];

/// A put: its number, its object, its time in 10-microsecond units, and its body.
type Putting = (u64, &'static str, u64, &'static [u8]);

/// Puts, and the pair of them that disagrees first.
const PAIRS: [(&[Putting], Option<(u64, u64)>); 10] = [
    (&[], None),
    (&[(3, "o", 5, b"abc")], None),
    (&[(3, "o", 5, b"abc"), (8, "o", 5, b"abd")], Some((3, 8))),
    (&[(3, "o", 5, b"abc"), (8, "o", 5, b"abc")], None),
    (&[(3, "o", 5, b"abc"), (8, "o", 6, b"abd")], None),
    (&[(3, "o", 5, b"abc"), (8, "p", 5, b"abd")], None),
    (&[(8, "o", 5, b"abd"), (3, "o", 5, b"abc")], Some((3, 8))),
    (
        &[
            (9, "o", 5, b"abd"),
            (4, "o", 5, b"abc"),
            (1, "o", 5, b"abc"),
        ],
        Some((1, 9)),
    ),
    (
        &[
            (1, "o", 5, b"abc"),
            (9, "o", 5, b"abd"),
            (2, "p", 5, b"abc"),
            (5, "p", 5, b"abd"),
        ],
        Some((2, 5)),
    ),
    (
        &[
            (1, "o", 5, b"abc"),
            (2, "o", 5, b"abd"),
            (3, "o", 5, b"abc"),
            (4, "o", 5, b"abe"),
        ],
        Some((1, 2)),
    ),
];

fn add_number(text: &mut Md5, number: u64) {
    text.update(Buffer::new().format(number).as_bytes());
}

fn add_word(text: &mut Md5, word: &[u8]) {
    text.update(b" ");
    text.update(word);
}

/// A kind of job and its device.
fn add_kind(text: &mut Md5, kind: &[u8], device: u8) {
    add_word(text, kind);
    text.update(b" ");
    add_number(text, u64::from(device));
}

fn add_name(text: &mut Md5, name: &Name) {
    add_word(text, name.account.as_slice());
    add_word(text, name.container.as_slice());
    add_word(text, name.object.as_slice());
    add_word(text, &hex_text(&name.hash));
}

fn add_time(text: &mut Md5, time: &Timestamp) {
    text.update(b" ");
    add_number(text, time.units());
}

/// All that a job says, in one line.
fn add_job(text: &mut Md5, job: &Job) {
    add_number(text, job.number);
    match &job.work {
        Work::Put {
            device,
            name,
            time,
            content,
        } => {
            add_kind(text, b"put", *device);
            add_name(text, name);
            add_time(text, time);
            add_word(text, content.content_type.as_slice());
            add_word(text, &hex_text(&content.etag));
            add_word(text, content.body.as_slice());
        }
        Work::Delete { device, name, time } => {
            add_kind(text, b"delete", *device);
            add_name(text, name);
            add_time(text, time);
        }
        Work::Get { device, name } => {
            add_kind(text, b"get", *device);
            add_name(text, name);
        }
        Work::Replicate { device } => add_kind(text, b"replicate", *device),
        Work::Update { device } => add_kind(text, b"update", *device),
        Work::Rows { device } => add_kind(text, b"rows", *device),
    }
    text.update(b"\n");
}

/// The MD5 of the lines of these jobs.
fn digest_of(jobs: &[Job]) -> [u8; 16] {
    let mut text = Md5::new();
    for job in jobs {
        add_job(&mut text, job);
    }
    text.finalize()
}

/// Whether the job at this place has this line.
fn has_line(jobs: &[Job], place: usize, line: &[u8]) -> bool {
    let mut text = Md5::new();
    if let Some(job) = jobs.get(place) {
        crosses(job);
        add_job(&mut text, job);
    }
    text.finalize() == Md5::digest(line)
}

/// Whether these are the jobs that the other program draws, and none of them disagrees with another.
fn draws(alloc: Global, ring: &str, seed: u64, requests: u16, digest: &[u8]) -> Option<bool> {
    let ring = read(alloc, ring.as_bytes()).ok()?;
    let jobs = generate(alloc, &ring, seed, u64::from(requests)).ok()?;
    let agree = disagreement(alloc, &jobs).ok()?.is_none();
    Some(agree && hex_text(&digest_of(&jobs)).as_slice() == digest)
}

#[test]
fn a_seed_draws_the_jobs_that_another_program_draws(rt: HostRuntime) {
    for (ring, seed, requests, digest) in LISTS {
        assert!(rt; draws(rt.alloc(), ring, seed, requests, digest) == Some(true));
    }
    laws::numbers_rise();
    laws::times_rise();
    laws::nothing_disagrees();
    laws::none_is_found();
    laws::devices_stand();
    laws::names_are_good();
}

/// The first place at which another line stands than is wanted.
fn first_other(jobs: &[Job]) -> Option<usize> {
    for (place, line) in LINES {
        if !has_line(jobs, place, line) {
            return Some(place);
        }
    }
    None
}

fn first_other_of_worked(alloc: Global) -> Result<Option<usize>, RingError> {
    let ring = read(alloc, WORKED.as_bytes())?;
    Ok(first_other(&generate(alloc, &ring, 7, 1500)?))
}

#[test]
fn jobs_are_whole(rt: HostRuntime) {
    assert_eq!(rt; first_other_of_worked(rt.alloc()), Ok(None));
}

/// A job that puts. None where there is no memory.
fn putting(alloc: Global, ring: &Ring, (number, object, units, body): &Putting) -> Option<Job> {
    let time = Timestamp::from_units(*units)?;
    let name = Name::new(alloc, &ring.secrets, b"a", b"c", object.as_bytes()).ok()?;
    let content = content(alloc, body).ok()?;
    let work = Work::Put {
        device: 0,
        name,
        time,
        content,
    };
    Some(Job {
        number: *number,
        work,
    })
}

fn all_putting(alloc: Global, ring: &Ring, puts: &[Putting]) -> Option<Vec<Job>> {
    let mut jobs = Vec::new(alloc);
    for put in puts {
        jobs.push(putting(alloc, ring, put)?).ok()?;
    }
    Some(jobs)
}

/// Whether this pair of them disagrees first.
fn disagree(alloc: Global, puts: &[Putting], pair: Option<(u64, u64)>) -> Option<bool> {
    let ring = read(alloc, WORKED.as_bytes()).ok()?;
    let jobs = all_putting(alloc, &ring, puts)?;
    Some(disagreement(alloc, &jobs) == Ok(pair))
}

#[test]
fn of_the_pairs_that_disagree_the_first_is_found(rt: HostRuntime) {
    for (puts, pair) in PAIRS {
        assert!(rt; disagree(rt.alloc(), puts, pair) == Some(true));
    }
}
