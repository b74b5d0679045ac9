ghost use Rattle.std.specs.Prelude.{◌≡◌, IfOk};
ghost use Rattle.sw_pass.specs.Rings.{AreKnown, AreReplicas, is_place, replicas_in};

use std::alloc::Global;
use sw_container_steps::DeviceList;
use sw_hashpath::{Place, Secrets, hash_path, partition};
use sw_outside::NoMemory;
use sw_ring::{Ring, Which};

/// The devices that keep a container, in their order. It takes no memory.
pub fn devices_of<'a>(ring: &'a Ring, place: &Place) -> &'a [u8]
    ensures replicas { AreReplicas ring.now place.now result.now }
    ensures value { result.now ≡ replicas_in ring.now place.now }
    ensures known { AreKnown ring.now result.now }
{
    ring.row(Which::Container, partition(&place.hash, ring.power))
}

/// The devices that keep a container, in their order, or [`NoMemory`].
pub fn replicas_of(alloc: Global, ring: &Ring, place: &Place) -> Result<DeviceList, NoMemory>
    ensures replicas { IfOk result (λ all. AreReplicas ring.now place.now all) }
    ensures value { IfOk result (λ all. all ≡ replicas_in ring.now place.now) }
    ensures known { IfOk result (λ all. AreKnown ring.now all) }
{
    Ok(DeviceList::from(Vec::from_slice(alloc, devices_of(ring, place))?))
}

/// Whether nothing is wrong with a place's names, and its hash is that of its path under these secrets, so that the nodes know it. It takes no memory.
pub fn is_place(secrets: &Secrets, place: &Place) -> bool
    ensures { result ≡ is_place secrets.now place.now }
{
    match hash_path(
        secrets,
        place.account.as_slice(),
        Some(place.container.as_slice()),
        None,
    ) {
        Ok(hash) => place.hash == hash,
        Err(_) => false,
    }
}
