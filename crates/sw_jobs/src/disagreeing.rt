ghost use Rattle.std.specs.Prelude.{◌≡◌, ◌≢◌, ◌↔◌, IsTrue, Some, IfOk, OnErr};
ghost use Rattle.sw_jobs.specs.Disagreements.{HasPut, IsDisagreement, PutsOther};
ghost use Rattle.sw_jobs.specs.declared.job.Job.{Job};
ghost use Rattle.sw_jobs.specs.Firsts.{IsLeast, IsPairAt, KeepsFirsts, first_for, is_less, key_of, lesser};

use crate::comparing::are_equal;
use crate::firsts::Firsts;
use crate::job::{Job, Work};
use std::alloc::Global;
use sw_outside::NoMemory;
use sw_state::Content;

/// The numbers of two jobs that put different contents under one name at one time, the lesser number first: that of the first job, by its number, that
/// disagrees with one before it, and of the first of those before it. `None` comes exactly where no two jobs do. Contents are compared as wholes.
///
/// Of n jobs it takes time as n log n, and memory for a map with an entry for each name and time that is put. [`NoMemory`] comes only where a job puts.
pub fn disagreement(alloc: Global, jobs: &[Job]) -> Result<Option<(u64, u64)>, NoMemory>
    ensures found { IfOk result (λ found. IsDisagreement jobs.now found) }
    ensures starved { OnErr result (HasPut jobs.now) }
{
    let firsts = firsts_of(alloc, jobs)?;
    Ok(first_pair(&firsts, jobs))
}

/// For each time and name that these jobs put the one with the least number.
fn firsts_of<'a>(alloc: Global, jobs: &'a [Job]) -> Result<Firsts<'a>, NoMemory>
    ensures firsts { IfOk result (λ firsts. KeepsFirsts jobs.now firsts) }
    ensures starved { OnErr result (HasPut jobs.now) }
{
    let mut firsts = Firsts::new(alloc);
    for job in jobs {
        firsts.keep(job)?;
    }
    Ok(firsts)
}

/// The first of the pairs that each job makes with the first job of its time and name.
fn first_pair<'a>(firsts: &Firsts<'a>, jobs: &'a [Job]) -> Option<(u64, u64)>
    requires { KeepsFirsts jobs.now firsts.now }
    ensures { IsLeast firsts.now jobs.now result }
{
    let mut found = None;
    for job in jobs {
        found = lesser(found, pair_at(firsts, job));
    }
    found
}

/// The numbers of the first job of this job's time and name and of this one, where they put different contents.
fn pair_at<'a>(firsts: &Firsts<'a>, job: &'a Job) -> Option<(u64, u64)>
    requires { (first : Job) → first_for firsts.now job.now.work ≡ Some first → key_of first.work ≡ key_of job.now.work }
    ensures { IsPairAt firsts.now job.now result }
{
    let Work::Put {
        name,
        time,
        content,
        ..
    } = &job.work
    else {
        return None;
    };
    let first = firsts.get(*time, name)?;
    if puts_other(first, content) {
        Some((first.number, job.number))
    } else {
        None
    }
}

/// Whether a job puts another content than this.
fn puts_other(job: &Job, content: &Content) -> bool
    ensures { IsTrue result ↔ PutsOther job.now.work content.now }
{
    match &job.work {
        Work::Put { content: own, .. } => !are_equal(own, content),
        _ => false,
    }
}

fn lesser(found: Option<(u64, u64)>, pair: Option<(u64, u64)>) -> Option<(u64, u64)>
    ensures { result ≡ lesser found pair }
{
    let Some(found) = found else {
        return pair;
    };
    let Some(pair) = pair else {
        return Some(found);
    };
    Some(if is_less(pair, found) { pair } else { found })
}

/// Whether a pair comes before another, by the later number, then by the earlier one.
fn is_less(one: (u64, u64), other: (u64, u64)) -> bool
    ensures { result ≡ is_less one other }
{
    one.1 < other.1 || one.1 == other.1 && one.0 < other.0
}
