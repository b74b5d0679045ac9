ghost use Rattle.std.specs.Prelude.{◌≡◌, ℕ, ◌*◌, ◌^◌, ◌⊎◌, false, List, [], length};
ghost use Rattle.sw_core.specs.Worlds.{keeper_seen, opened};
ghost use Rattle.sw_cluster.specs.Ending.{IsRun, IsRunOver, IsUnbegun};
ghost use Rattle.sw_nodes.specs.Nodes.{places_of};
ghost use Rattle.sw_cluster.specs.Limits.{run_bytes};
ghost use Rattle.sw_cluster.specs.Told.{counts, input, output};

use crate::limits::RUN_BYTES;
use crate::status::status_of;
use crate::volumes::{give_back, open_nodes, status_of_start};
use std::alloc::Global;
use sw_core::{MomentList, Trail, World};
use sw_lossy::{Acts, Lossy};
use sw_nodes::Nodes;
use sw_outside::{Clock, Sink, Source};
use sw_ring::Ring;
use sw_session::serve;
use sw_stores::Stores;

/// Answers the pipelined requests that come from `source` to the end of its input, in order, for the devices of a ring, each at the moment
/// that the clock shows once it was read, and writes each reply to `out`. Answers the status.
///
/// The volumes and keepers of all locks are started from the stores first, and given back at the end. `trail` is empty at the call. At the end it
/// holds what came to the devices, with the answers, and the moments of the requests.
pub fn run_session<R: Source, W: Sink, S: Stores, C: Clock>(
    alloc: Global,
    ring: &Ring,
    source: &mut R,
    out: &mut W,
    stores: &mut S,
    clock: &mut C,
    trail: &mut Trail,
) -> u8
    requires no_steps { trail.old.steps ≡ [] }
    requires no_moments { trail.old.moments ≡ [] }
    requires home { (d s : ℕ) → S.out stores.old d s ≡ false }
    ensures home { (d s : ℕ) → S.out stores.new d s ≡ false }
    ensures run { IsRun S.V.tells S.V.holds S.V.faults (keeper_seen S.K.tells S.K.holds S.K.faults) S.first ring.now (S.rests stores.old) (S.rests stores.new)
        (counts S.calls S.faults stores.old) (counts S.calls S.faults stores.new) (input R.left R.faults R.calls source.old source.new)
        (output W.taken W.faults W.calls out.old out.new)
        (C.readings clock.old) (C.readings clock.new) trail.new result
        ⊎ IsUnbegun S.first ring.now (S.rests stores.old) (S.rests stores.new)
        (counts S.calls S.faults stores.old) (counts S.calls S.faults stores.new) (input R.left R.faults R.calls source.old source.new)
        (output W.taken W.faults W.calls out.old out.new)
        (C.readings clock.old) (C.readings clock.new) trail.new result }
{
    match open_nodes(alloc, ring, RUN_BYTES, stores) {
        Ok(world) => session(alloc, ring, world, source, out, stores, clock, trail),
        Err(error) => status_of_start(error),
    }
}

/// The session over nodes in which nothing has happened.
fn session<R: Source, W: Sink, S: Stores, C: Clock>(
    alloc: Global,
    ring: &Ring,
    world: World<S::V, S::K>,
    source: &mut R,
    out: &mut W,
    stores: &mut S,
    clock: &mut C,
    trail: &mut Trail,
) -> u8
    requires no_steps { trail.old.steps ≡ [] }
    requires no_moments { trail.old.moments ≡ [] }
    requires begun { (parts : List (S.V × S.K)) × (length parts ≡ length ring.now.devices * 2 ^ ring.now.lock_bits)
        × (world ≡ opened run_bytes ring.now parts) }
    requires out { (d s : ℕ) → S.out stores.old d s ≡ places_of ring.now d s }
    ensures home { (d s : ℕ) → S.out stores.new d s ≡ false }
    ensures run { IsRunOver S.V.tells S.V.holds S.V.faults (keeper_seen S.K.tells S.K.holds S.K.faults) ring.now world (S.rests stores.new)
        (counts S.calls S.faults stores.old) (counts S.calls S.faults stores.new) (input R.left R.faults R.calls source.old source.new)
        (output W.taken W.faults W.calls out.old out.new)
        (C.readings clock.old) (C.readings clock.new) trail.new result }
{
    let faithful = Acts {
        lose: None,
        lose_reply: None,
        repeat: None,
    };
    let mut nodes = Nodes {
        ring,
        network: Lossy::new(world, faithful),
        stores,
    };
    let mut moments = Vec::new(alloc);
    let ended = serve(alloc, &mut nodes, &mut moments, source, out, clock);
    let Nodes {
        ring: _,
        network,
        stores,
    } = nodes;
    let mut world = network.into_door();
    trail.steps = world.take_trail(alloc);
    trail.moments = MomentList::from(moments);
    give_back(ring, world, stores);
    status_of(ended)
}
