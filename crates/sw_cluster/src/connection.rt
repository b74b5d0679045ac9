ghost use Rattle.std.specs.Prelude.{◌≡◌, ◌∷◌, [], Some, false, true};
ghost use Rattle.sw_container_server.specs.Targets.{is_for_containers as is_for_containers_of};
ghost use Rattle.sw_control.specs.Asking.{is_control as is_control_path};
ghost use Rattle.sw_replica_server.specs.Targets.{is_replication_of};
ghost use Rattle.sw_session.specs.Closing.{asks_to_close_of};
ghost use Rattle.sw_nodes.specs.Nodes.{AreNodesOf};
ghost use Rattle.sw_cluster.specs.Connections.{DoorAnswers, IsConnection, NeverHalts};
ghost use Rattle.sw_cluster.specs.Told.{input, output};

use crate::status::status_of;
use std::alloc::Global;
use sw_container_server::is_for_containers;
use sw_control::is_control;
use sw_message::{Request, Response};
use sw_object_server::bare;
use sw_outside::{Clock, NoMemory, Sink, Source};
use sw_peer::{ContainerDoor, ReplicaDoor};
use sw_replica_server::is_replication;
use sw_ring::Ring;
use sw_session::{Server, ServerFault, asks_to_close, serve};

/// The nodes behind a door, as the server of a connection. They answer no control request, and a request that asks to close is the last one.
#[derive(Drop)]
pub struct DoorServer<'a, D: ReplicaDoor + ContainerDoor> {
    ring: &'a Ring,
    door: &'a mut D,
}

impl<D: ReplicaDoor + ContainerDoor> Server for DoorServer<'_, D> {
    ghost ready = { λ s. AreNodesOf s.ring.now (D.sight s.door.now).nodes };

    ghost serves = { λ old request moment response new. (new.ring.now ≡ old.ring.now) × (new.door.ghost_name ≡ old.door.ghost_name)
        × DoorAnswers D.sight old.ring.now old.door.now request moment response new.door.now };

    ghost halts = { λ old request moment fault new. NeverHalts old.door.now request moment fault new.door.now };

    ghost last = { asks_to_close_of };

    fn answer(
        &mut self,
        alloc: Global,
        request: Request,
        now: u64,
    ) -> Result<Response, ServerFault> {
        match is_control(alloc, &request.path) {
            Ok(true) => Ok(bare(alloc, 404)),
            Ok(false) if is_replication(&request) => Ok(self.compare(alloc, &request, now)),
            Ok(false) if is_for_containers(&request) => Ok(self.contain(alloc, &request, now)),
            Ok(false) => Ok(self.serve(alloc, request, now)),
            Err(NoMemory) => Ok(bare(alloc, 500)),
        }
    }

    fn is_last(&self, request: &Request) -> bool {
        asks_to_close(request)
    }
}

impl<D: ReplicaDoor + ContainerDoor> DoorServer<'_, D> {
    /// Answers a request for replicas.
    fn compare(&mut self, alloc: Global, request: &Request, _now: u64) -> Response
        requires ready { AreNodesOf self.old.ring.now (D.sight self.old.door.now).nodes }
        requires nodes { is_control_path request.now.path ≡ false }
        requires replicas { is_replication_of request.now ≡ true }
        ensures answers { DoorAnswers D.sight self.old.ring.now self.old.door.now request.now _now result self.new.door.now }
        ensures same { (self.new.ring.now ≡ self.old.ring.now) × (self.new.door.ghost_name ≡ self.old.door.ghost_name) }
    {
        match sw_replica_server::answer(alloc, self.door, self.ring, request) {
            Ok(response) => response,
            Err(NoMemory) => bare(alloc, 500),
        }
    }

    /// Answers a request for containers.
    fn contain(&mut self, alloc: Global, request: &Request, _now: u64) -> Response
        requires ready { AreNodesOf self.old.ring.now (D.sight self.old.door.now).nodes }
        requires nodes { is_control_path request.now.path ≡ false }
        requires no_replicas { is_replication_of request.now ≡ false }
        requires containers { is_for_containers_of request.now ≡ true }
        ensures answers { DoorAnswers D.sight self.old.ring.now self.old.door.now request.now _now result self.new.door.now }
        ensures same { (self.new.ring.now ≡ self.old.ring.now) × (self.new.door.ghost_name ≡ self.old.door.ghost_name) }
    {
        match sw_container_server::answer(alloc, self.door, self.ring, request) {
            Ok(response) => response,
            Err(NoMemory) => bare(alloc, 500),
        }
    }

    /// Answers a request for an object.
    fn serve(&mut self, alloc: Global, request: Request, now: u64) -> Response
        requires ready { AreNodesOf self.old.ring.now (D.sight self.old.door.now).nodes }
        requires nodes { is_control_path request.path ≡ false }
        requires no_replicas { is_replication_of request ≡ false }
        requires objects { is_for_containers_of request ≡ false }
        ensures answers { DoorAnswers D.sight self.old.ring.now self.old.door.now request now result self.new.door.now }
        ensures same { (self.new.ring.now ≡ self.old.ring.now) × (self.new.door.ghost_name ≡ self.old.door.ghost_name) }
    {
        match sw_object_server::answer(alloc, self.door, self.ring, request, now) {
            Ok(response) => response,
            Err(NoMemory) => bare(alloc, 500),
        }
    }
}

/// A clock that stands still.
#[derive(Drop)]
struct StillClock {
    now: u64,
}

impl Clock for StillClock {
    ghost readings = { λ c. Some (c.now ∷ []) };

    fn now(&mut self) -> u64 {
        self.now
    }
}

/// Answers the requests of one connection over a door, all at one moment, and answers the status: how it ended. Each request is answered once,
/// by what the nodes behind the door are after those before it.
pub fn serve_connection<R: Source, W: Sink, D: ReplicaDoor + ContainerDoor>(
    alloc: Global,
    source: &mut R,
    out: &mut W,
    door: &mut D,
    ring: &Ring,
    now: u64,
) -> u8
    requires nodes { AreNodesOf ring.now (D.sight door.old).nodes }
    ensures connection { IsConnection D.sight ring.now now door.old (input R.left R.faults R.calls source.old source.new)
        (output W.taken W.faults W.calls out.old out.new) door.new result }
    ensures nodes { (D.sight door.new).nodes ≡ (D.sight door.old).nodes }
    ensures source_number { R.number source.new ≡ R.number source.old }
    ensures sink_number { W.number out.new ≡ W.number out.old }
{
    let mut server = DoorServer { ring, door };
    let mut clock = StillClock { now };
    let mut moments = Vec::new(alloc);
    let ended = serve(alloc, &mut server, &mut moments, source, out, &mut clock);
    status_of(ended)
}
