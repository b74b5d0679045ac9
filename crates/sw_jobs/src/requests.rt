ghost use Rattle.std.specs.Prelude.{◌≡◌, ◌<◌, ◌≤◌, IfOk};
ghost use Rattle.sw_jobs.specs.Requests.{drawn, picked};

use crate::contents::content_of;
use crate::draws::Draws;
use crate::job::Work;
use crate::names::name_of;
use std::alloc::Global;
use std::cmp::max;
use sw_hashpath::partition;
use sw_outside::NoMemory;
use sw_ring::{Ring, Which};
use sw_timestamp::Timestamp;

/// When the first request comes, in 10-microsecond units.
const FIRST: u64 = 140_000_000_000_000;

/// The request of this number among so many, by its draws.
#[tactic(auto, unfolding(crate::specs::Requests::drawn))]
pub(crate) fn request(
    alloc: Global,
    ring: &Ring,
    requests: u64,
    number: u64,
    draws: &Draws,
) -> Result<Work, NoMemory>
    requires few { requests ≤ 100000 }
    requires among { number < requests }
    ensures { IfOk result (λ work.
        work ≡ drawn ring.now requests number draws.now.kind draws.now.container draws.now.object draws.now.length draws.now.device) }
{
    let object = draws.object % max(1, requests / 4);
    let name = name_of(alloc, &ring.secrets, draws.container % 4, object)?;
    let device = picked(ring, &name.hash, draws.device);
    let time = Timestamp::from_units(FIRST + number).unwrap();
    match draws.kind % 10 {
        0..=6 => {
            let content = content_of(alloc, number, draws.length % 1025)?;
            Ok(Work::Put {
                device,
                name,
                time,
                content,
            })
        }
        7 | 8 => Ok(Work::Delete { device, name, time }),
        _ => Ok(Work::Get { device, name }),
    }
}

/// Of the devices that keep the object whose path has this hash, the one that a draw picks.
#[tactic(auto, unfolding(crate::specs::Requests::picked))]
fn picked(ring: &Ring, hash: &[u8; 16], drawn: u64) -> u8
    ensures { result ≡ picked ring.now hash.now drawn }
{
    let row = ring.row(Which::Object, partition(hash, ring.power));
    row[(drawn % u64::from(ring.replicas)) as usize]
}
