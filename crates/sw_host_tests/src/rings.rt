ghost use Rattle.std.specs.Prelude.{◌≡◌, ℕ, false};

use crate::stage::Stage;
use crate::stores::{tells, visit};
use crate::volume::{CALLS, CALLS_LATER};
use crate::watched::{Failing, Steps};
use std::alloc::Global;
use std::io::ErrorKind;
use std::test::Fail;
use sw_outside::StoreError;
use sw_stores::{RingStores, Stores};

/// Whether stores answer so where they are asked for the ring of this name and that step fails, if one does. It is the one step that they take.
fn tells_by_one_step<S: Stores>(
    alloc: Global,
    stores: &mut S,
    steps: &Steps,
    name: &str,
    failing: Failing,
    wanted: Result<&str, StoreError>,
) -> bool
    requires { (d s : ℕ) → S.out stores.old d s ≡ false }
    ensures { (d s : ℕ) → S.out stores.new d s ≡ false }
{
    steps.begin(failing);
    tells(alloc, stores, name, wanted) && steps.asked() == 1
}

#[test]
fn rings_are_files_and_volumes_are_kept_in_memory(rt: HostRuntime) -> Result<(), Fail> {
    let alloc = rt.alloc();
    let stage = Stage::new(rt, "ring-stores")?;
    let ring = stage.path("ring")?;
    let missing = stage.path("another")?;
    assert!(rt; stage.writes(&ring, "text"));
    let steps = stage.steps();
    let mut stores = RingStores::new(&stage.host);
    let refused = Failing::One(0, ErrorKind::PermissionDenied);
    let stopped = Failing::One(0, ErrorKind::Interrupted);
    let memory = Failing::One(0, ErrorKind::OutOfMemory);
    assert!(rt; tells_by_one_step(alloc, &mut stores, steps, &ring, Failing::None, Ok("text")));
    assert!(rt;
        tells_by_one_step(
            alloc,
            &mut stores,
            steps,
            &ring,
            refused,
            Err(StoreError::Failed)
        )
    );
    assert!(rt;
        tells_by_one_step(
            alloc,
            &mut stores,
            steps,
            &ring,
            stopped,
            Err(StoreError::Failed)
        )
    );
    assert!(rt;
        tells_by_one_step(
            alloc,
            &mut stores,
            steps,
            &ring,
            memory,
            Err(StoreError::NoMemory)
        )
    );
    assert!(rt; tells(alloc, &mut stores, &missing, Err(StoreError::Failed)));
    assert!(rt; visit(alloc, &mut stores, 1, 3, &CALLS) == Ok(None));
    assert!(rt; visit(alloc, &mut stores, 1, 2, &CALLS) == Ok(None));
    assert!(rt; visit(alloc, &mut stores, 1, 3, &CALLS_LATER) == Ok(None));
    stage.end()
}
