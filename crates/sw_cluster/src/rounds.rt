ghost use Rattle.std.specs.Prelude.{◌≡◌, ℕ, ◌+◌, ◌*◌, ◌^◌, ◌<◌, ◌≤◌, ◌++◌, ◌∷◌, ◌⊎◌, [], false, Err, List, length, decimal, IfOk, IfErr, OnOk, OnErr};
ghost use Rattle.sw_core.specs.Worlds.{keeper_seen, AllNodes, opened};
ghost use Rattle.sw_outside.specs.Counts.{raised};
ghost use Rattle.sw_outside.specs.Faults.{faults_after};
ghost use Rattle.sw_volume.specs.Volume.{raised_by};
ghost use Rattle.sw_nodes.specs.Nodes.{AreNodesOf};
ghost use Rattle.sw_cluster.specs.Leaving.{AreLeft, FailsToRestart, StopsAmong};
ghost use Rattle.sw_nodes.specs.Nodes.{IsReady, places_of};
ghost use Rattle.sw_cluster.specs.Rounds.{AllServed, AreHeard, EndsServing, EndsConnections, IsServed, IsServedOver, RestartsDevice, RestartsFirst};
ghost use Rattle.sw_cluster.specs.Rounds.{ServesAt, ServesListened};
ghost use Rattle.sw_cluster.specs.Rounds.{Round, SaysLine, read_in, serve_status, written_in};
ghost use Rattle.sw_cluster.specs.Limits.{serve_bytes};
ghost use Rattle.sw_cluster.specs.Told.{counts, doors_told, output};

use crate::connection::serve_connection;
use crate::limits::SERVE_BYTES;
use crate::status::{COMPLETE, DOOR_FAULT, NO_MEMORY, STORE_FAULT, WRITE_FAULT};
use crate::volumes::{give_back, open_nodes, status_of_start};
use itoa::Buffer;
use std::alloc::{AllocError, Global};
use sw_outside::{Clock, Doors, Failed, Sink, StoreError};
use sw_peer::{ContainerDoor, ReplicaDoor};
use sw_quiet::QuietWorld;
use sw_ring::Ring;
use sw_stores::Stores;
use sw_stores::ranges::restart_range;

/// Why the serving of connections ended before all were served and that was said.
#[derive(Clone, Copy, Debug, PartialEq, Eq)]
pub enum ServeFault {
    /// A line couldn't be written.
    Write,
    /// The volumes and keepers of a device couldn't be started again.
    Store,
    /// The port couldn't be opened, or a connection not be accepted.
    Door,
    NoMemory,
}

/// Listens at a port, and serves so many connections, one after the other, for the devices of a ring, each at the moment that the clock shows once it
/// was accepted. After each all devices are restarted, so that the journals begin anew. Answers the status.
///
/// The port is opened first: where that fails no volume is touched. Then the volumes and keepers of all locks are started from the stores, which are given
/// back at the end. Two lines are put on `out`: one once connections may come, and one once all were served.
pub fn serve_connections<W: Sink, S: Stores, N: Doors, C: Clock>(
    alloc: Global,
    ring: &Ring,
    port: u16,
    connections: u32,
    out: &mut W,
    stores: &mut S,
    doors: &mut N,
    clock: &mut C,
) -> u8
    requires home { (d s : ℕ) → S.out stores.old d s ≡ false }
    requires doors { length (N.finished doors.old) ≤ length (N.accepts doors.old) }
    ensures home { (d s : ℕ) → S.out stores.new d s ≡ false }
    ensures serving { ServesAt S.V.tells S.V.holds S.V.faults (keeper_seen S.K.tells S.K.holds S.K.faults) S.first ring.now port connections
        (S.rests stores.old) (S.rests stores.new)
        (doors_told N.accepts N.finished N.calls N.faults doors.old) (doors_told N.accepts N.finished N.calls N.faults doors.new)
        (output W.taken W.faults W.calls out.old out.new) (C.readings clock.old) (C.readings clock.new)
        (counts S.calls S.faults stores.old) (counts S.calls S.faults stores.new) result }
{
    match doors.listen(port) {
        Ok(()) => serve_listened(alloc, ring, port, connections, out, stores, doors, clock),
        Err(Failed) => DOOR_FAULT,
    }
}

/// The same once the port is open: starts the volumes and keepers, and gives them back at the end.
fn serve_listened<W: Sink, S: Stores, N: Doors, C: Clock>(
    alloc: Global,
    ring: &Ring,
    port: u16,
    connections: u32,
    out: &mut W,
    stores: &mut S,
    doors: &mut N,
    clock: &mut C,
) -> u8
    requires home { (d s : ℕ) → S.out stores.old d s ≡ false }
    requires doors { length (N.finished doors.old) ≤ length (N.accepts doors.old) }
    ensures home { (d s : ℕ) → S.out stores.new d s ≡ false }
    ensures serving { ServesListened S.V.tells S.V.holds S.V.faults (keeper_seen S.K.tells S.K.holds S.K.faults) S.first ring.now port connections
        (S.rests stores.old) (S.rests stores.new)
        (doors_told N.accepts N.finished N.calls N.faults doors.old) (doors_told N.accepts N.finished N.calls N.faults doors.new)
        (output W.taken W.faults W.calls out.old out.new) (C.readings clock.old) (C.readings clock.new)
        (counts S.calls S.faults stores.old) (counts S.calls S.faults stores.new) result }
{
    match open_nodes(alloc, ring, SERVE_BYTES, stores) {
        Ok(world) => serve_over(
            alloc,
            ring,
            QuietWorld::over(alloc, world),
            port,
            connections,
            out,
            stores,
            doors,
            clock,
        ),
        Err(error) => status_of_start(error),
    }
}

/// The same over nodes in which nothing has happened. Their volumes and keepers are given back at the end.
fn serve_over<W: Sink, S: Stores, N: Doors, C: Clock>(
    alloc: Global,
    ring: &Ring,
    world: QuietWorld<S::V, S::K>,
    port: u16,
    connections: u32,
    out: &mut W,
    stores: &mut S,
    doors: &mut N,
    clock: &mut C,
) -> u8
    requires begun { (parts : List (S.V × S.K)) × (length parts ≡ length ring.now.devices * 2 ^ ring.now.lock_bits)
        × (world ≡ opened serve_bytes ring.now parts) }
    requires out { (d s : ℕ) → S.out stores.old d s ≡ places_of ring.now d s }
    requires doors { length (N.finished doors.old) ≤ length (N.accepts doors.old) }
    ensures home { (d s : ℕ) → S.out stores.new d s ≡ false }
    ensures over { IsServedOver S.V.tells S.V.holds S.V.faults (keeper_seen S.K.tells S.K.holds S.K.faults) ring.now port connections world (S.rests stores.new)
        (doors_told N.accepts N.finished N.calls N.faults doors.old) (doors_told N.accepts N.finished N.calls N.faults doors.new)
        (output W.taken W.faults W.calls out.old out.new) (C.readings clock.old) (C.readings clock.new)
        (counts S.calls S.faults stores.old) (counts S.calls S.faults stores.new) result }
{
    let mut world = world;
    let ended = attend(
        alloc,
        ring,
        &mut world,
        port,
        connections,
        out,
        stores,
        doors,
        clock,
    );
    give_back(ring, world.into_world(), stores);
    status_of_serve(ended)
}

/// Says that the port is open, serves the connections, and says how many they were.
fn attend<W: Sink, S: Stores, N: Doors, C: Clock>(
    alloc: Global,
    ring: &Ring,
    world: &mut QuietWorld<S::V, S::K>,
    port: u16,
    connections: u32,
    out: &mut W,
    stores: &mut S,
    doors: &mut N,
    clock: &mut C,
) -> Result<(), ServeFault>
    requires ready { IsReady S.out ring.now world.old stores.old }
    requires doors { length (N.finished doors.old) ≤ length (N.accepts doors.old) }
    ensures { (after : AllNodes S.V S.K)
        × EndsServing S.V.tells S.V.holds S.V.faults (keeper_seen S.K.tells S.K.holds S.K.faults) ring.now port connections world.old after
        (doors_told N.accepts N.finished N.calls N.faults doors.old) (doors_told N.accepts N.finished N.calls N.faults doors.new)
        (output W.taken W.faults W.calls out.old out.new) (C.readings clock.old) (C.readings clock.new)
        (counts S.calls S.faults stores.old) (counts S.calls S.faults stores.new) result
        × AreLeft S.V.tells S.V.holds S.V.faults (keeper_seen S.K.tells S.K.holds S.K.faults) S.calls S.rests S.out ring.now after world.new stores.new }
{
    say(alloc, out, b"listening ", u32::from(port))?;
    serve_all(alloc, ring, world, connections, stores, doors, clock)?;
    say(alloc, out, b"connections ", connections)
}

/// Serves so many connections, and restarts all devices after each.
fn serve_all<S: Stores, N: Doors, C: Clock>(
    alloc: Global,
    ring: &Ring,
    world: &mut QuietWorld<S::V, S::K>,
    connections: u32,
    stores: &mut S,
    doors: &mut N,
    clock: &mut C,
) -> Result<(), ServeFault>
    requires ready { IsReady S.out ring.now world.old stores.old }
    requires doors { length (N.finished doors.old) ≤ length (N.accepts doors.old) }
    ensures all { OnOk result (AllServed S.V.tells S.V.holds S.V.faults (keeper_seen S.K.tells S.K.holds S.K.faults) ring.now connections world.old world.new
        (doors_told N.accepts N.finished N.calls N.faults doors.old) (doors_told N.accepts N.finished N.calls N.faults doors.new)
        (C.readings clock.old) (C.readings clock.new) (counts S.calls S.faults stores.old) (counts S.calls S.faults stores.new)) }
    ensures ready { OnOk result (IsReady S.out ring.now world.new stores.new) }
    ensures stops { IfErr result (λ fault. (after : AllNodes S.V S.K)
        × EndsConnections S.V.tells S.V.holds S.V.faults (keeper_seen S.K.tells S.K.holds S.K.faults) ring.now connections world.old after
        (doors_told N.accepts N.finished N.calls N.faults doors.old) (doors_told N.accepts N.finished N.calls N.faults doors.new)
        (C.readings clock.old) (C.readings clock.new) (counts S.calls S.faults stores.old) (counts S.calls S.faults stores.new) (Err fault)
        × AreLeft S.V.tells S.V.holds S.V.faults (keeper_seen S.K.tells S.K.holds S.K.faults) S.calls S.rests S.out ring.now after world.new stores.new) }
{
    for _ in 0..connections {
        serve_next(alloc, ring, world, stores, doors, clock)?;
    }
    Ok(())
}

/// Serves the next connection, and restarts all devices after it.
fn serve_next<S: Stores, N: Doors, C: Clock>(
    alloc: Global,
    ring: &Ring,
    world: &mut QuietWorld<S::V, S::K>,
    stores: &mut S,
    doors: &mut N,
    clock: &mut C,
) -> Result<(), ServeFault>
    requires ready { IsReady S.out ring.now world.old stores.old }
    requires doors { length (N.finished doors.old) ≤ length (N.accepts doors.old) }
    ensures all { OnOk result (AllServed S.V.tells S.V.holds S.V.faults (keeper_seen S.K.tells S.K.holds S.K.faults) ring.now 1 world.old world.new
        (doors_told N.accepts N.finished N.calls N.faults doors.old) (doors_told N.accepts N.finished N.calls N.faults doors.new)
        (C.readings clock.old) (C.readings clock.new) (counts S.calls S.faults stores.old) (counts S.calls S.faults stores.new)) }
    ensures ready { OnOk result (IsReady S.out ring.now world.new stores.new) }
    ensures stops { IfErr result (λ fault. (after : AllNodes S.V S.K)
        × EndsConnections S.V.tells S.V.holds S.V.faults (keeper_seen S.K.tells S.K.holds S.K.faults) ring.now 1 world.old after
        (doors_told N.accepts N.finished N.calls N.faults doors.old) (doors_told N.accepts N.finished N.calls N.faults doors.new)
        (C.readings clock.old) (C.readings clock.new) (counts S.calls S.faults stores.old) (counts S.calls S.faults stores.new) (Err fault)
        × AreLeft S.V.tells S.V.holds S.V.faults (keeper_seen S.K.tells S.K.holds S.K.faults) S.calls S.rests S.out ring.now after world.new stores.new) }
{
    match serve_one(alloc, ring, world, doors, clock) {
        Ok(()) => {}
        Err(StoreError::Failed) => return Err(ServeFault::Door),
        Err(StoreError::NoMemory) => return Err(ServeFault::NoMemory),
    }
    match restart_all(alloc, ring, world, stores) {
        Ok(()) => Ok(()),
        Err(StoreError::Failed) => Err(ServeFault::Store),
        Err(StoreError::NoMemory) => Err(ServeFault::NoMemory),
    }
}

/// Accepts a connection, answers its requests over a door at the moment that the clock then shows, and finishes it with the status by which that ended.
fn serve_one<N: Doors, C: Clock, D: ReplicaDoor + ContainerDoor>(
    alloc: Global,
    ring: &Ring,
    door: &mut D,
    doors: &mut N,
    clock: &mut C,
) -> Result<(), StoreError>
    requires nodes { AreNodesOf ring.now (D.sight door.old).nodes }
    requires doors { length (N.finished doors.old) ≤ length (N.accepts doors.old) }
    ensures one { OnOk result ((r : Round)
        × IsServed D.sight ring.now door.old r door.new
        × AreHeard (r ∷ []) (doors_told N.accepts N.finished N.calls N.faults doors.old)
        (doors_told N.accepts N.finished N.calls N.faults doors.new) (C.readings clock.old) (C.readings clock.new)) }
    ensures none { OnErr result ((door.new ≡ door.old) × AreHeard [] (doors_told N.accepts N.finished N.calls N.faults doors.old)
        (doors_told N.accepts N.finished N.calls N.faults doors.new) (C.readings clock.old) (C.readings clock.new)) }
    ensures calls { N.calls doors.new ≡ raised (N.calls doors.old) }
    ensures cause { N.faults doors.new ≡ faults_after (N.faults doors.old) result }
{
    let (mut input, mut output) = match doors.accept() {
        Ok(ends) => ends,
        Err(error) => return Err(error),
    };
    let now = clock.now();
    let status = serve_connection(alloc, &mut input, &mut output, door, ring, now);
    doors.finish(input, output, status);
    Ok(())
}

/// Restarts all devices, one after the other.
fn restart_all<S: Stores>(
    alloc: Global,
    ring: &Ring,
    world: &mut QuietWorld<S::V, S::K>,
    stores: &mut S,
) -> Result<(), StoreError>
    requires ready { IsReady S.out ring.now world.old stores.old }
    ensures restarted { OnOk result (RestartsFirst S.V.tells S.V.holds S.V.faults (keeper_seen S.K.tells S.K.holds S.K.faults) ring.now
        (length ring.now.devices) world.old world.new) }
    ensures ready { OnOk result (IsReady S.out ring.now world.new stores.new) }
    ensures calls { OnOk result (S.calls stores.new ≡ raised_by (length ring.now.devices * 2 ^ ring.now.lock_bits) (S.calls stores.old)) }
    ensures stops { OnErr result ((after : AllNodes S.V S.K)
        × StopsAmong S.V.tells S.V.holds S.V.faults (keeper_seen S.K.tells S.K.holds S.K.faults) S.calls S.rests S.out ring.now world.old after world.new
        stores.old stores.new) }
    ensures cause { S.faults stores.new ≡ faults_after (S.faults stores.old) result }
{
    for device in 0..ring.devices.as_slice().len() {
        restart(alloc, ring, world, stores, device as u8)?;
    }
    Ok(())
}

/// Restarts a device: its volumes and keepers go back to the stores, and are started anew.
fn restart<S: Stores>(
    alloc: Global,
    ring: &Ring,
    world: &mut QuietWorld<S::V, S::K>,
    stores: &mut S,
    device: u8,
) -> Result<(), StoreError>
    requires device { device < length ring.now.devices }
    requires ready { IsReady S.out ring.now world.old stores.old }
    ensures restarted { OnOk result (RestartsDevice S.V.tells S.V.holds S.V.faults (keeper_seen S.K.tells S.K.holds S.K.faults) ring.now device world.old
        world.new) }
    ensures ready { OnOk result (IsReady S.out ring.now world.new stores.new) }
    ensures calls { OnOk result (S.calls stores.new ≡ raised_by (2 ^ ring.now.lock_bits) (S.calls stores.old)) }
    ensures fails { OnErr result (FailsToRestart S.V.tells S.V.holds S.V.faults (keeper_seen S.K.tells S.K.holds S.K.faults) S.calls S.rests S.out ring.now
        world.old world.new stores.old stores.new) }
    ensures cause { S.faults stores.new ≡ faults_after (S.faults stores.old) result }
{
    let parts = match world.lift(alloc, device) {
        Ok(parts) => parts,
        Err(_) => return Err(StoreError::NoMemory),
    };
    let stripes = ring.stripes();
    let first = usize::from(device) * usize::from(stripes);
    match restart_range(alloc, stores, stripes, first, parts) {
        Ok(parts) => {
            world.set_down(alloc, device, parts);
            Ok(())
        }
        Err(error) => Err(error),
    }
}

/// Puts a line on the output, in one call: a word and a number.
fn say<W: Sink>(alloc: Global, out: &mut W, word: &[u8], number: u32) -> Result<(), ServeFault>
    ensures { SaysLine ((word.now ++ decimal number) ++ 10 ∷ []) (output W.taken W.faults W.calls out.old out.new) result }
{
    let Ok(line) = line_of(alloc, word, number) else {
        return Err(ServeFault::NoMemory);
    };
    match out.put(&line) {
        Ok(()) => Ok(()),
        Err(Failed) => Err(ServeFault::Write),
    }
}

fn line_of(alloc: Global, word: &[u8], number: u32) -> Result<Vec<u8>, AllocError>
    ensures { IfOk result (λ line. line.items ≡ (word.now ++ decimal number) ++ 10 ∷ []) }
{
    let mut buffer = Buffer::new();
    let mut line = Vec::new(alloc);
    line.extend_from_slice(word)?;
    line.extend_from_slice(buffer.format(number).as_bytes())?;
    line.extend_from_slice(b"\n")?;
    Ok(line)
}

/// The status of a `serve`, by how it ended.
fn status_of_serve(ended: Result<(), ServeFault>) -> u8
    ensures { result ≡ serve_status ended }
{
    match ended {
        Ok(()) => COMPLETE,
        Err(ServeFault::Write) => WRITE_FAULT,
        Err(ServeFault::Store) => STORE_FAULT,
        Err(ServeFault::Door) => DOOR_FAULT,
        Err(ServeFault::NoMemory) => NO_MEMORY,
    }
}
