ghost use Rattle.std.specs.Prelude.{◌≡◌, ◌<◌, ◌≤◌, ◌++◌, true, length, IfOk, OnErr, OnOk};
ghost use Rattle.sw_shard_listing.specs.Ranges.{after_entries};
ghost use Rattle.sw_sharded_listing.specs.Across.{AreAllListed, IsPartAdded, IsPartListed, are_some};
ghost use Rattle.sw_sharded_listing.specs.Nodes.{AreNodesFor};
ghost use Rattle.sw_sharded_listing.specs.Parts.{are_places, parts_in};

use crate::parts::{Part, Split};
use std::alloc::Global;
use sw_container_steps::ContAnswer;
use sw_listing::{Entries, Entry, Query};
use sw_outside::NoMemory;
use sw_peer::{ContainerDoor, Link};
use sw_shard_listing::{begun, moved, pass};

/// One listing over all parts of a container: what each lists of its range, in turn.
pub(crate) fn list_parts<D: ContainerDoor>(
    alloc: Global,
    door: &mut D,
    split: &Split,
    query: &Query,
) -> Result<Entries, ContAnswer>
    requires device { split.now.device < (D.sight door.old).nodes.devices }
    requires nodes { AreNodesFor split.now.ring (D.sight door.old).nodes }
    requires fits { (D.sight door.old).nodes.fits_place split.now.place ≡ true }
    requires replica { split.now.replica < split.now.ring.replicas }
    requires placed { are_places split.now.ring.secrets split.now.served ≡ true }
    ensures lists { AreAllListed query.now (parts_in split.now) (D.sight door.old) result (D.sight door.new) }
    ensures nodes { (D.sight door.new).nodes ≡ (D.sight door.old).nodes }
    ensures asks { (D.sight door.new).asks ≡ (D.sight door.old).asks }
{
    let mut asked = match begun(alloc, query) {
        Ok(asked) => asked,
        Err(NoMemory) => return Err(ContAnswer::NoMemory),
    };
    let mut found = Vec::new(alloc);
    for index in 0..split.len() {
        match ask(alloc, door, &split.part(index), &mut asked, &mut found) {
            Ok(()) => (),
            Err(answer) => return Err(answer),
        }
    }
    Ok(found.into())
}

/// Asks a part, adds its entries to those that were found before, and moves the query on behind them.
fn ask<D: ContainerDoor>(
    alloc: Global,
    door: &mut D,
    part: &Part,
    asked: &mut Query,
    found: &mut Vec<Entry>,
) -> Result<(), ContAnswer>
    requires device { part.now.device < (D.sight door.old).nodes.devices }
    requires fits { (D.sight door.old).nodes.fits_place part.now.place ≡ true }
    ensures adds { IsPartAdded part.now asked.old found.old.items (D.sight door.old) result asked.new found.new.items (D.sight door.new) }
    ensures nodes { (D.sight door.new).nodes ≡ (D.sight door.old).nodes }
    ensures asks { (D.sight door.new).asks ≡ (D.sight door.old).asks }
{
    let entries = list_part(alloc, door, part, asked)?;
    match add(alloc, asked, found, entries) {
        Ok(()) => Ok(()),
        Err(NoMemory) => Err(ContAnswer::NoMemory),
    }
}

/// What a part lists of its range, as far as the query asks for it.
fn list_part<D: ContainerDoor>(
    alloc: Global,
    door: &mut D,
    part: &Part,
    query: &Query,
) -> Result<Entries, ContAnswer>
    requires device { part.now.device < (D.sight door.old).nodes.devices }
    requires fits { (D.sight door.old).nodes.fits_place part.now.place ≡ true }
    ensures lists { IsPartListed query.now part.now (D.sight door.old) result (D.sight door.new) }
    ensures within { IfOk result (λ entries. length entries ≤ query.now.limit) }
    ensures nodes { (D.sight door.new).nodes ≡ (D.sight door.old).nodes }
    ensures asks { (D.sight door.new).asks ≡ (D.sight door.old).asks }
{
    let asked = match moved(alloc, query, part.lower, part.upper) {
        Ok(asked) => asked,
        Err(NoMemory) => return Err(ContAnswer::NoMemory),
    };
    let listed = door.list(alloc, Link::Local, part.device, part.place, &asked);
    listed.unwrap()
}

/// Adds entries to those that were found, and moves the query on behind them.
fn add(
    alloc: Global,
    asked: &mut Query,
    found: &mut Vec<Entry>,
    entries: Entries,
) -> Result<(), NoMemory>
    requires { length entries ≤ asked.old.limit }
    ensures asked { OnOk result (asked.new ≡ after_entries asked.old entries) }
    ensures found { OnOk result (found.new.items ≡ found.old.items ++ entries) }
    ensures starved { OnErr result (are_some entries ≡ true) }
{
    pass(alloc, asked, entries.as_slice())?;
    let mut entries = Vec::from(entries);
    if !entries.is_empty() {
        found.append(&mut entries)?;
    }
    Ok(())
}
