ghost use Rattle.std.specs.Prelude.{◌≡◌, [], OnErr, OnOk};
ghost use Rattle.std.specs.Option.{option_copied};
ghost use Rattle.sw_jobs.specs.Firsts.{is_upto, key_seen};

use crate::job::{Job, Work};
use std::alloc::Global;
use std::collections::BTreeMap;
use std::marker::Model;
use sw_hashpath::Name;
use sw_outside::NoMemory;
use sw_timestamp::Timestamp;

/// A time and the texts of a name, its hash in front, since hashes mostly tell names apart.
type Key<'a> = (u64, &'a [u8], &'a [u8], &'a [u8], &'a [u8]);

/// For each time and name that is put the job with the least number. Contracts see the jobs in order of time, then name.
#[derive(Drop)]
pub(crate) struct Firsts<'a> {
    map: BTreeMap<Key<'a>, &'a Job>,
}

impl<'a> Model for Firsts<'a> {
    ghost use Rattle.sw_jobs.specs.Firsts.{Kept, seen};

    ghost Value = { Kept };

    ghost view = { λ f. seen f.map };
}

impl<'a> Firsts<'a> {
    ghost use Rattle.sw_jobs.specs.Disagreements.{IsPut};
    ghost use Rattle.sw_jobs.specs.Firsts.{keeping, kept_at, with_kept};

    pub(crate) fn new(alloc: Global) -> Firsts<'a>
        ensures { result ≡ [] }
    {
        Firsts {
            map: BTreeMap::new(alloc),
        }
    }

    /// The job that is kept for a time and a name.
    pub(crate) fn get(&self, time: Timestamp, name: &'a Name) -> Option<&'a Job>
        ensures { option_copied result ≡ kept_at self.now (time, name.now) }
    {
        self.map.get(&key_of(time, name)).copied()
    }

    /// Keeps a job that puts, unless one is kept for its time and name whose number isn't above its own.
    pub(crate) fn keep(&mut self, job: &'a Job) -> Result<(), NoMemory>
        ensures ok { OnOk result (self.new ≡ keeping self.old job.now) }
        ensures starved { OnErr result (IsPut job.now.work) }
    {
        let Work::Put { name, time, .. } = &job.work else {
            return Ok(());
        };
        if is_upto(self.get(*time, name), job.number) {
            return Ok(());
        }
        self.put(*time, name, job)
    }

    fn put(&mut self, time: Timestamp, name: &'a Name, job: &'a Job) -> Result<(), NoMemory>
        ensures { OnOk result (self.new ≡ with_kept self.old (time, name.now) job.now) }
    {
        self.map.insert(key_of(time, name), job)?;
        Ok(())
    }
}

/// Whether there is a job, and its number isn't above this one.
fn is_upto(first: Option<&Job>, number: u64) -> bool
    ensures { result ≡ is_upto (option_copied first.entry) number }
{
    match first {
        Some(first) => first.number <= number,
        None => false,
    }
}

fn key_of<'a>(time: Timestamp, name: &'a Name) -> Key<'a>
    ensures { key_seen result ≡ (time, name.now) }
{
    (
        time.units(),
        name.hash.as_slice(),
        name.account.as_slice(),
        name.container.as_slice(),
        name.object.as_slice(),
    )
}
