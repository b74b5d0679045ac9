ghost use Rattle.std.specs.Prelude.{◌≡◌, None, Some, Ok, IfOk, true};
ghost use Rattle.sw_pending.specs.Outcomes.{IsRecord};
ghost use Rattle.sw_hashpath.specs.Places.{IsPlace, IsPlaceOf};
ghost use Rattle.sw_pass.specs.Rings.{AreKnown, AreReplicas};

use std::alloc::Global;
use sw_hashpath::{NameError, Place};
use sw_outside::NoMemory;
use sw_pass::replicas_of;
use sw_pending::{DeviceList, Filed};
use sw_ring::Ring;

/// A record that is gone over, and the container that it tells.
#[derive(Debug, Drop)]
pub(crate) struct Task {
    /// The device at which the record is filed.
    pub device: u8,
    pub filed: Filed,
    pub place: Place,
    /// The devices that keep the container.
    pub all: DeviceList,
}

impl Task {
    /// The task for a record that is filed at this device, or [`NoMemory`].
    pub fn new(alloc: Global, ring: &Ring, device: u8, filed: Filed) -> Result<Task, NoMemory>
        requires good { IsRecord ring.now.secrets filed }
        ensures device { IfOk result (λ task. task.device ≡ device) }
        ensures filed { IfOk result (λ task. task.filed ≡ filed) }
        ensures place { IfOk result (λ task. IsPlaceOf ring.now.secrets filed.name task.place) }
        ensures fits { IfOk result (λ task. IsPlace ring.now.secrets task.place) }
        ensures replicas { IfOk result (λ task. AreReplicas ring.now task.place task.all) }
        ensures known { IfOk result (λ task. AreKnown ring.now task.all) }
    {
        let place = place_of(alloc, ring, &filed)?;
        let all = replicas_of(alloc, ring, &place)?;
        Ok(Task {
            device,
            filed,
            place,
            all,
        })
    }
}

/// The container of a record's name.
fn place_of(alloc: Global, ring: &Ring, filed: &Filed) -> Result<Place, NoMemory>
    requires good { IsRecord ring.now.secrets filed.now }
    ensures place { IfOk result (λ place. IsPlaceOf ring.now.secrets filed.now.name place) }
    ensures fits { IfOk result (λ place. IsPlace ring.now.secrets place) }
{
    let name = &filed.name;
    match Place::new(
        alloc,
        &ring.secrets,
        name.account.as_slice(),
        name.container.as_slice(),
    ) {
        Ok(place) => Ok(place),
        Err(NameError::NoMemory) => Err(NoMemory),
        Err(NameError::Bad(_)) => unreachable!(),
    }
}
