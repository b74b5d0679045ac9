ghost use Rattle.std.specs.Prelude.{◌≡◌, ◌+◌, ◌^◌, ◌<◌, ◌≤◌, length};
ghost use Rattle.std.specs.Option.{option_to_list};
ghost use Rattle.sw_jobs.specs.Passes.{behind, pass};

use crate::job::Work;
use sw_ring::Ring;

/// The pass that comes right behind the request of this number, where one comes.
pub(crate) fn behind(ring: &Ring, number: u64) -> Option<Work>
    requires { number < 100000 }
    ensures { option_to_list result ≡ behind ring.now number }
{
    let count = number + 1;
    if count % 500 == 0 {
        Some(pass(ring, count / 500))
    } else {
        None
    }
}

#[tactic(auto, unfolding(crate::specs::Passes::pass))]
fn pass(ring: &Ring, count: u64) -> Work
    ensures { result ≡ pass ring.now count }
{
    let device = (count % devices_of(ring)) as u8;
    match count % 3 {
        1 => Work::Replicate { device },
        2 => Work::Update { device },
        _ => Work::Rows { device },
    }
}

/// How many devices the ring has.
fn devices_of(ring: &Ring) -> u64
    ensures value { result ≡ length ring.now.devices }
    ensures some { 1 ≤ result }
    ensures few { result ≤ 8 }
{
    ring.devices.as_slice().len() as u64
}
