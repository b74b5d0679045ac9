ghost use Rattle.std.specs.Prelude.{◌≡◌, ◌<◌, ◌≤◌, ◌++◌, ◌∷◌, [], length, IfOk, OnErr, OnOk};
ghost use Rattle.sw_jobs.specs.Generated.{jobs_of};

use crate::draws::next_draws;
use crate::job::{Job, Work};
use crate::passes::behind;
use crate::requests::request;
use std::alloc::Global;
use sw_outside::NoMemory;
use sw_ring::Ring;

/// The jobs of so many requests, at most 100,000, that are drawn from a seed, over a ring: exactly the list of `specs/Generated`. Behind each 500th request
/// comes a pass, and the numbers are those from 0, in order.
///
/// [`NoMemory`] comes only where there is a request. A body is written once, and moved from then on.
pub fn generate(alloc: Global, ring: &Ring, seed: u64, requests: u64) -> Result<Vec<Job>, NoMemory>
    requires { requests ≤ 100000 }
    ensures jobs { IfOk result (λ jobs. jobs.items ≡ jobs_of ring.now seed requests) }
    ensures starved { OnErr result (0 < requests) }
{
    let mut jobs = Vec::new(alloc);
    let mut state = seed;
    for number in 0..requests {
        let draws = next_draws(&mut state);
        add(&mut jobs, request(alloc, ring, requests, number, &draws)?)?;
        if let Some(pass) = behind(ring, number) {
            add(&mut jobs, pass)?;
        }
    }
    Ok(jobs)
}

/// Adds work behind the others, under the next number.
fn add(jobs: &mut Vec<Job>, work: Work) -> Result<(), NoMemory>
    ensures { OnOk result (jobs.new.items ≡ jobs.old.items ++ record { number = length jobs.old.items; work = work } ∷ []) }
{
    let number = jobs.len() as u64;
    jobs.push(Job { number, work })?;
    Ok(())
}
