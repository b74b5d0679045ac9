ghost use Rattle.std.specs.Prelude.{◌≡◌, []};

use std::alloc::Global;
use sw_outside::Sequence;
use sw_peer::KeptLine;

/// What came to the devices, in order: steps, listings of all files and restarts. Contracts see the lines themselves.
pub type LineList = Sequence<KeptLine>;

/// Readings of a clock, in seconds since the epoch.
pub type MomentList = Sequence<u64>;

/// What happened in a run: the steps that were made, and the clock's reading for each request, in order.
#[derive(Drop)]
pub struct Trail {
    pub steps: LineList,
    pub moments: MomentList,
}

impl Trail {
    /// The trail of a run that hasn't begun. It takes no memory.
    pub fn new(alloc: Global) -> Trail
        ensures steps { result.steps ≡ [] }
        ensures moments { result.moments ≡ [] }
    {
        Trail {
            steps: LineList::new(alloc),
            moments: MomentList::new(alloc),
        }
    }
}
