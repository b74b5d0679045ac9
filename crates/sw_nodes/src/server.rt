ghost use Rattle.sw_core.specs.Worlds.{keeper_seen};
ghost use Rattle.std.specs.Prelude.{◌≡◌, [], ◌<◌, ◌≤◌, ◌^◌, ◌⊎◌, true, false, length, None, Ok, IfOk, IfErr, OnOk, OnErr};
ghost use Rattle.sw_control.specs.PendingText.{pending_text as pending_text_of};
ghost use Rattle.sw_control.specs.ShardsText.{shards_text as shards_text_of};
ghost use Rattle.sw_control.specs.Texts.{files_text as files_text_of, text_reply as text_reply_of};
ghost use Rattle.sw_object_server.specs.Replies.{bare as bare_of};
ghost use Rattle.sw_volume.specs.Volume.{raised_by};
ghost use Rattle.sw_nodes.specs.Nodes.{FailsToStart, IsReady, NodesAnswer, NodesHalt, faults_by};
ghost use Rattle.sw_control.specs.Asking.{IsPlaced, is_control as is_control_path};
ghost use Rattle.sw_container_server.specs.Targets.{is_for_containers as is_for_containers_of};
ghost use Rattle.sw_replica_server.specs.Targets.{is_replication_of};
ghost use Rattle.sw_control.specs.declared.asking.Control.TheVariants as controls;
ghost use Rattle.sw_nodes.specs.Server.{AreRowsPushed, ArePendingTold, AreShardsCreated, AreShardsTold, IsCleft, IsControlDone, IsFiled, IsPassReply};
ghost use Rattle.sw_nodes.specs.Server.{IsPendingReply, IsReplicated, IsShardsReply, IsUpdated, ranges_in};

use std::alloc::Global;
use sw_container_server::is_for_containers;
use sw_container_steps::{ContAnswer, Sharding};
use sw_control::{
    Cleaving, Control, Replication, RowPush, ShardCreation, ShardsRead, Update, files_text,
    is_control, outcome_text, pending_text, read_control, shards_text, text_reply, trail_text,
};
use sw_core::World;
use sw_lossy::Lossy;
use sw_message::{Request, Response};
use sw_object_server::bare;
use sw_object_steps::DirFault;
use sw_outside::{Bytes, BytesList, NoMemory, StoreError};
use sw_pass::Outcome;
use sw_peer::{ContainerDoor, Link};
use sw_pending::Filed;
use sw_replica_server::{fault_reply, is_replication};
use sw_ring::Ring;
use sw_session::{Server, ServerFault};
use sw_shard_range::{Range, Ranges};
use sw_steps::{cleave_over, create_over, push_over, push_rows_over, update_over};
use sw_stores::Stores;
use sw_stores::ranges::restart_range;
use sw_updater::pending;
use sw_volume::VolumeError;

/// The nodes of a ring, as the server of a session. A control request is answered by what the world tells or by what is done with it, and all
/// others by its nodes. What the locks of the nodes stand over comes from the stores, which get it back where a device is restarted.
#[derive(Drop)]
pub struct Nodes<'a, S: Stores> {
    pub ring: &'a Ring,
    /// The nodes, and the door by which messages between them fail where a pass asks for that.
    pub network: Lossy<World<S::V, S::K>>,
    pub stores: &'a mut S,
}

impl<S: Stores> Server for Nodes<'_, S> {
    ghost ready = { λ n. IsReady S.out n.ring.now n.network.door n.stores.now };

    ghost serves = { λ old request moment response new. NodesAnswer S.V.tells S.V.holds S.V.faults (keeper_seen S.K.tells S.K.holds S.K.faults) S.faults S.calls
        S.out
        old.ring.now new.ring.now old.network.door new.network.door old.stores new.stores request moment response };

    ghost halts = { λ old request moment fault new. NodesHalt S.V.tells S.V.holds S.V.faults (keeper_seen S.K.tells S.K.holds S.K.faults) S.faults S.calls
        S.rests S.out
        old.ring.now new.ring.now old.network.door new.network.door old.stores new.stores request fault };

    ghost last = { λ request. false };

    fn answer(
        &mut self,
        alloc: Global,
        request: Request,
        now: u64,
    ) -> Result<Response, ServerFault> {
        match is_control(alloc, &request.path) {
            Ok(true) => self.control(alloc, &request, now),
            Ok(false) if is_replication(&request) => Ok(self.compare(alloc, &request, now)),
            Ok(false) if is_for_containers(&request) => Ok(self.contain(alloc, &request, now)),
            Ok(false) => Ok(self.serve(alloc, request, now)),
            Err(NoMemory) => Ok(bare(alloc, 500)),
        }
    }

    /// None is: a session over the nodes goes on to the end of its input.
    fn is_last(&self, _request: &Request) -> bool {
        false
    }
}

impl<S: Stores> Nodes<'_, S> {
    /// Answers a request for replicas.
    fn compare(&mut self, alloc: Global, request: &Request, _now: u64) -> Response
        requires ready { IsReady S.out self.old.ring.now self.old.network.door self.old.stores.now }
        requires nodes { is_control_path request.now.path ≡ false }
        requires replicas { is_replication_of request.now ≡ true }
        ensures ready { IsReady S.out self.new.ring.now self.new.network.door self.new.stores.now }
        ensures served { NodesAnswer S.V.tells S.V.holds S.V.faults (keeper_seen S.K.tells S.K.holds S.K.faults) S.faults S.calls S.out
            self.old.ring.now self.new.ring.now self.old.network.door self.new.network.door self.old.stores self.new.stores request.now _now result }
    {
        match sw_replica_server::answer(alloc, &mut self.network.door, self.ring, request) {
            Ok(response) => response,
            Err(NoMemory) => bare(alloc, 500),
        }
    }

    /// Answers a request for containers.
    fn contain(&mut self, alloc: Global, request: &Request, _now: u64) -> Response
        requires ready { IsReady S.out self.old.ring.now self.old.network.door self.old.stores.now }
        requires nodes { is_control_path request.now.path ≡ false }
        requires no_replicas { is_replication_of request.now ≡ false }
        requires containers { is_for_containers_of request.now ≡ true }
        ensures ready { IsReady S.out self.new.ring.now self.new.network.door self.new.stores.now }
        ensures served { NodesAnswer S.V.tells S.V.holds S.V.faults (keeper_seen S.K.tells S.K.holds S.K.faults) S.faults S.calls S.out
            self.old.ring.now self.new.ring.now self.old.network.door self.new.network.door self.old.stores self.new.stores request.now _now result }
    {
        match sw_container_server::answer(alloc, &mut self.network.door, self.ring, request) {
            Ok(response) => response,
            Err(NoMemory) => bare(alloc, 500),
        }
    }

    /// Answers a request for an object.
    fn serve(&mut self, alloc: Global, request: Request, now: u64) -> Response
        requires ready { IsReady S.out self.old.ring.now self.old.network.door self.old.stores.now }
        requires nodes { is_control_path request.path ≡ false }
        requires no_replicas { is_replication_of request ≡ false }
        requires objects { is_for_containers_of request ≡ false }
        ensures ready { IsReady S.out self.new.ring.now self.new.network.door self.new.stores.now }
        ensures served { NodesAnswer S.V.tells S.V.holds S.V.faults (keeper_seen S.K.tells S.K.holds S.K.faults) S.faults S.calls S.out
            self.old.ring.now self.new.ring.now self.old.network.door self.new.network.door self.old.stores self.new.stores request now result }
    {
        match sw_object_server::answer(alloc, &mut self.network.door, self.ring, request, now) {
            Ok(response) => response,
            Err(NoMemory) => bare(alloc, 500),
        }
    }

    /// Answers a control request.
    fn control(
        &mut self,
        alloc: Global,
        request: &Request,
        _now: u64,
    ) -> Result<Response, ServerFault>
        requires ready { IsReady S.out self.old.ring.now self.old.network.door self.old.stores.now }
        requires control { is_control_path request.now.path ≡ true }
        ensures ready { OnOk result (IsReady S.out self.new.ring.now self.new.network.door self.new.stores.now) }
        ensures served { IfOk result (λ response. NodesAnswer S.V.tells S.V.holds S.V.faults (keeper_seen S.K.tells S.K.holds S.K.faults) S.faults S.calls S.out
            self.old.ring.now self.new.ring.now self.old.network.door self.new.network.door self.old.stores self.new.stores request.now _now response) }
        ensures halted { IfErr result (λ fault. NodesHalt S.V.tells S.V.holds S.V.faults (keeper_seen S.K.tells S.K.holds S.K.faults) S.faults S.calls S.rests
            S.out
            self.old.ring.now self.new.ring.now self.old.network.door self.new.network.door self.old.stores self.new.stores request.now fault) }
    {
        match read_control(alloc, self.ring, request) {
            Ok(Control::Trail) => Ok(or_wanting(alloc, self.trail(alloc))),
            Ok(Control::Files(device)) => Ok(self.files(alloc, device)),
            Ok(Control::Pending(device)) => Ok(self.pending(alloc, device)),
            Ok(Control::Restart(device)) => self.restart(alloc, device),
            Ok(Control::Replicate(asked)) => Ok(self.replicate(alloc, asked)),
            Ok(Control::PushRows(asked)) => Ok(self.push_rows(alloc, &asked)),
            Ok(Control::Update(asked)) => Ok(self.update(alloc, asked)),
            Ok(Control::CreateShards(asked)) => Ok(self.create_shards(alloc, &asked)),
            Ok(Control::Cleave(asked)) => Ok(self.cleave(alloc, &asked)),
            Ok(Control::Shards(asked)) => Ok(self.shards(alloc, &asked)),
            Ok(Control::Refused) => Ok(bare(alloc, 400)),
            Err(NoMemory) => Ok(bare(alloc, 500)),
        }
    }

    /// The reply that shows the trail.
    fn trail(&self, alloc: Global) -> Result<Response, NoMemory>
        ensures { IfOk result (λ response. IsControlDone S.V.tells S.V.holds S.V.faults (keeper_seen S.K.tells S.K.holds S.K.faults)
            self.now.ring.now self.now.network.door controls.Trail response self.now.network.door) }
    {
        let text = trail_text(alloc, &self.ring.devices, self.network.door.lines())?;
        text_reply(alloc, text)
    }

    /// Lists the files of a device, and replies to that.
    fn files(&mut self, alloc: Global, device: u8) -> Response
        requires device { device < self.old.network.door.devices }
        requires whole { self.old.network.door.lifted ≡ None }
        ensures filed { IsFiled S.V.tells S.V.holds S.V.faults (keeper_seen S.K.tells S.K.holds S.K.faults) device self.old.network.door result
            self.new.network.door
            ⊎ ((self.new.network.door ≡ self.old.network.door) × (result ≡ bare_of 500)) }
        ensures same { (self.new.ring ≡ self.old.ring) × (self.new.stores ≡ self.old.stores) }
    {
        match self.network.door.files(alloc, device) {
            Ok(paths) => listed(alloc, &paths),
            Err(VolumeError::Failed) => bare(alloc, 507),
            Err(VolumeError::NoMemory) => bare(alloc, 500),
        }
    }

    /// Reads the records of a device, and replies to that.
    fn pending(&mut self, alloc: Global, device: u8) -> Response
        requires placed { IsPlaced self.old.ring.now (controls.Pending device) }
        requires ready { IsReady S.out self.old.ring.now self.old.network.door self.old.stores.now }
        ensures told { ArePendingTold S.V.tells S.V.holds S.V.faults (keeper_seen S.K.tells S.K.holds S.K.faults) self.old.ring.now device
            self.old.network.door result self.new.network.door }
        ensures same { (self.new.ring ≡ self.old.ring) × (self.new.stores ≡ self.old.stores) }
    {
        match pending(alloc, &mut self.network.door, self.ring, device) {
            Ok(got) => pending_reply(alloc, &self.ring.devices, &got),
            Err(NoMemory) => bare(alloc, 500),
        }
    }

    /// Pushes a partition from one device to another, and replies what came of it. A push that wanted memory was made as far as it came.
    fn replicate(&mut self, alloc: Global, asked: Replication) -> Response
        requires placed { IsPlaced self.old.ring.now (controls.Replicate asked) }
        requires ready { IsReady S.out self.old.ring.now self.old.network.door self.old.stores.now }
        ensures replicated { IsReplicated S.V.tells S.V.holds S.V.faults (keeper_seen S.K.tells S.K.holds S.K.faults) asked self.old.network.door result
            self.new.network.door }
        ensures same { (self.new.ring ≡ self.old.ring) × (self.new.stores ≡ self.old.stores) }
    {
        match push_over(
            alloc,
            &mut self.network,
            asked.from,
            asked.to,
            asked.part,
            asked.acts,
        ) {
            Ok(outcome) => passed(alloc, &outcome),
            Err(NoMemory) => bare(alloc, 500),
        }
    }

    /// Pushes the rows of a container from one device to another, and replies what came of it. A push that wanted memory was made as far as it came.
    fn push_rows(&mut self, alloc: Global, asked: &RowPush) -> Response
        requires placed { IsPlaced self.old.ring.now (controls.PushRows asked.now) }
        requires ready { IsReady S.out self.old.ring.now self.old.network.door self.old.stores.now }
        ensures pushed { AreRowsPushed S.V.tells S.V.holds S.V.faults (keeper_seen S.K.tells S.K.holds S.K.faults) self.old.ring.now asked.now
            self.old.network.door result self.new.network.door }
        ensures same { (self.new.ring ≡ self.old.ring) × (self.new.stores ≡ self.old.stores) }
    {
        match push_rows_over(
            alloc,
            &mut self.network,
            self.ring,
            asked.from,
            asked.to,
            &asked.place,
            asked.acts,
        ) {
            Ok(outcome) => passed(alloc, &outcome),
            Err(NoMemory) => bare(alloc, 500),
        }
    }

    /// Updates the containers by the records of a device, and replies what came of it. An update that wanted memory was made as far as it came.
    fn update(&mut self, alloc: Global, asked: Update) -> Response
        requires placed { IsPlaced self.old.ring.now (controls.Update asked) }
        requires ready { IsReady S.out self.old.ring.now self.old.network.door self.old.stores.now }
        ensures updated { IsUpdated S.V.tells S.V.holds S.V.faults (keeper_seen S.K.tells S.K.holds S.K.faults) self.old.ring.now asked
            self.old.network.door result self.new.network.door }
        ensures same { (self.new.ring ≡ self.old.ring) × (self.new.stores ≡ self.old.stores) }
    {
        match update_over(
            alloc,
            &mut self.network,
            self.ring,
            asked.device,
            asked.acts,
        ) {
            Ok(outcome) => passed(alloc, &outcome),
            Err(NoMemory) => bare(alloc, 500),
        }
    }

    /// Creates the shards of a container, and replies what came of it. A creation that wanted memory was made as far as it came.
    fn create_shards(&mut self, alloc: Global, asked: &ShardCreation) -> Response
        requires placed { IsPlaced self.old.ring.now (controls.CreateShards asked.now) }
        requires ready { IsReady S.out self.old.ring.now self.old.network.door self.old.stores.now }
        ensures created { AreShardsCreated S.V.tells S.V.holds S.V.faults (keeper_seen S.K.tells S.K.holds S.K.faults) self.old.ring.now asked.now
            self.old.network.door result self.new.network.door }
        ensures same { (self.new.ring ≡ self.old.ring) × (self.new.stores ≡ self.old.stores) }
    {
        match create_over(
            alloc,
            &mut self.network,
            self.ring,
            asked.device,
            &asked.place,
            asked.per_shard,
            asked.time,
            asked.acts,
        ) {
            Ok(outcome) => passed(alloc, &outcome),
            Err(NoMemory) => bare(alloc, 500),
        }
    }

    /// Moves the next range of a container to its shard, and replies what came of it. A cleaving that wanted memory was made as far as it came.
    fn cleave(&mut self, alloc: Global, asked: &Cleaving) -> Response
        requires placed { IsPlaced self.old.ring.now (controls.Cleave asked.now) }
        requires ready { IsReady S.out self.old.ring.now self.old.network.door self.old.stores.now }
        ensures cleft { IsCleft S.V.tells S.V.holds S.V.faults (keeper_seen S.K.tells S.K.holds S.K.faults) self.old.ring.now asked.now
            self.old.network.door result self.new.network.door }
        ensures same { (self.new.ring ≡ self.old.ring) × (self.new.stores ≡ self.old.stores) }
    {
        match cleave_over(
            alloc,
            &mut self.network,
            self.ring,
            asked.device,
            &asked.place,
            asked.acts,
        ) {
            Ok(outcome) => passed(alloc, &outcome),
            Err(NoMemory) => bare(alloc, 500),
        }
    }

    /// Reads how a container is split, and replies with its shard ranges.
    fn shards(&mut self, alloc: Global, asked: &ShardsRead) -> Response
        requires placed { IsPlaced self.old.ring.now (controls.Shards asked.now) }
        requires ready { IsReady S.out self.old.ring.now self.old.network.door self.old.stores.now }
        ensures told { AreShardsTold S.V.tells S.V.holds S.V.faults (keeper_seen S.K.tells S.K.holds S.K.faults) asked.now self.old.network.door result
            self.new.network.door }
        ensures same { (self.new.ring ≡ self.old.ring) × (self.new.stores ≡ self.old.stores) }
    {
        let read = self
            .network
            .door
            .sharding(alloc, Link::Local, asked.device, &asked.place);
        shards_reply(alloc, &read.unwrap())
    }

    /// Restarts a device: its volumes and keepers go back to the stores, and are started anew. The reply is made first, so that a device that was
    /// restarted is told so.
    fn restart(&mut self, alloc: Global, device: u8) -> Result<Response, ServerFault>
        requires device { device < length self.old.ring.now.devices }
        requires ready { IsReady S.out self.old.ring.now self.old.network.door self.old.stores.now }
        ensures ready { OnOk result (IsReady S.out self.new.ring.now self.new.network.door self.new.stores.now) }
        ensures restarted { IfOk result (λ response.
            (IsControlDone S.V.tells S.V.holds S.V.faults (keeper_seen S.K.tells S.K.holds S.K.faults) self.old.ring.now self.old.network.door
            (controls.Restart device) response self.new.network.door
            × (S.calls self.new.stores.now ≡ raised_by (2 ^ self.old.ring.now.lock_bits) (S.calls self.old.stores.now)))
            ⊎ ((self.new.network.door ≡ self.old.network.door) × (response ≡ bare_of 500) × (S.calls self.new.stores.now ≡ S.calls self.old.stores.now))) }
        ensures lifted { IfErr result (λ fault. FailsToStart S.V.tells S.V.holds S.V.faults (keeper_seen S.K.tells S.K.holds S.K.faults) S.calls S.rests S.out
            self.old.ring.now device self.old.network.door self.new.network.door self.old.stores.now self.new.stores.now) }
        ensures same { (self.new.ring ≡ self.old.ring) × (self.new.stores.ghost_name ≡ self.old.stores.ghost_name) }
        ensures kept { OnOk result (S.faults self.new.stores.now ≡ S.faults self.old.stores.now) }
        ensures faults { IfErr result (λ fault. S.faults self.new.stores.now ≡ faults_by (S.faults self.old.stores.now) fault) }
    {
        let Ok(response) = text_reply(alloc, Bytes::from(Vec::new(alloc))) else {
            return Ok(bare(alloc, 500));
        };
        let Ok(parts) = self.network.door.lift(alloc, device) else {
            return Ok(bare(alloc, 500));
        };
        let stripes = self.ring.stripes();
        let first = usize::from(device) * usize::from(stripes);
        match restart_range(alloc, self.stores, stripes, first, parts) {
            Ok(parts) => {
                self.network.door.set_down(alloc, device, parts);
                Ok(response)
            }
            Err(StoreError::Failed) => Err(ServerFault::Failed),
            Err(StoreError::NoMemory) => Err(ServerFault::NoMemory),
        }
    }
}

/// The reply that shows a list of files.
fn listed(alloc: Global, paths: &BytesList) -> Response
    ensures { (result ≡ text_reply_of (files_text_of paths.now)) ⊎ (result ≡ bare_of 500) }
{
    let Ok(text) = files_text(alloc, paths) else {
        return bare(alloc, 500);
    };
    match text_reply(alloc, text) {
        Ok(response) => response,
        Err(NoMemory) => bare(alloc, 500),
    }
}

/// The reply that shows records, or why they couldn't be read.
fn pending_reply(alloc: Global, devices: &BytesList, got: &Result<Vec<Filed>, DirFault>) -> Response
    ensures { IsPendingReply devices.now (Ok got.now) result }
{
    let reply = match got {
        Ok(records) => shown(alloc, devices, records),
        Err(fault) => fault_reply(alloc, *fault),
    };
    or_wanting(alloc, reply)
}

/// The reply that shows records.
fn shown(alloc: Global, devices: &BytesList, records: &[Filed]) -> Result<Response, NoMemory>
    ensures { IfOk result (λ response. response ≡ text_reply_of (pending_text_of devices.now records.now)) }
{
    let text = pending_text(alloc, devices, records)?;
    text_reply(alloc, text)
}

/// The reply that shows the shard ranges of a container, or why they couldn't be read. A container that isn't there has none.
fn shards_reply(alloc: Global, got: &Result<Sharding, ContAnswer>) -> Response
    ensures { IsShardsReply got.now result }
{
    let ranges = match got {
        Ok(sharding) => ranges_of(&sharding.ranges),
        Err(ContAnswer::Absent) => &[],
        Err(ContAnswer::NoMemory) => return bare(alloc, 500),
        Err(_) => return bare(alloc, 507),
    };
    or_wanting(alloc, shards_shown(alloc, ranges))
}

/// These ranges, or none.
fn ranges_of(ranges: &Option<Ranges>) -> &[Range]
    ensures { result.now ≡ ranges_in ranges.now }
{
    match ranges {
        Some(ranges) => ranges.as_slice(),
        None => &[],
    }
}

/// The reply that shows shard ranges.
fn shards_shown(alloc: Global, ranges: &[Range]) -> Result<Response, NoMemory>
    ensures { IfOk result (λ response. response ≡ text_reply_of (shards_text_of ranges.now)) }
{
    let text = shards_text(alloc, ranges)?;
    text_reply(alloc, text)
}

/// The reply that shows what came of a pass.
fn passed(alloc: Global, outcome: &Outcome) -> Response
    ensures { IsPassReply (Ok outcome.now) result }
{
    let Ok(text) = outcome_text(alloc, outcome) else {
        return bare(alloc, 500);
    };
    match text_reply(alloc, text) {
        Ok(response) => response,
        Err(NoMemory) => bare(alloc, 500),
    }
}

/// The reply, or that of want of memory.
fn or_wanting(alloc: Global, reply: Result<Response, NoMemory>) -> Response
    ensures ok { IfOk reply (λ response. result ≡ response) }
    ensures err { OnErr reply (result ≡ bare_of 500) }
{
    match reply {
        Ok(response) => response,
        Err(NoMemory) => bare(alloc, 500),
    }
}
