ghost use Rattle.sw_pass.specs.Turns.{InTurn};
ghost use Rattle.std.specs.Prelude.{◌≡◌, true, Ok, Some, map};
ghost use Rattle.std.specs.Cmp.Lexicographic.{slice_cmp};
ghost use Rattle.std.specs.List.{All};
ghost use Rattle.std.specs.List.Sorted.{IsStrictlySortedBy};
ghost use Rattle.std.specs.Option.{option_to_list};
ghost use Rattle.std.specs.Ordering.{nat_cmp};
ghost use Rattle.std.specs.Result.{is_ok};
ghost use Rattle.sw_object_steps.specs.Parts.{IsOfPart};
ghost use Rattle.sw_replicator.specs.Pushing.{IsFilePushed, IsLinePushed, IsPassedOn};
ghost use Rattle.sw_replicator.specs.Routes.{Leads};

use crate::comparing::{is_wanted, picked_in};
use crate::counting::{count_answer, hinder};
use crate::route::Route;
use std::alloc::Global;
use sw_diskfile::{FileName, Picked};
use sw_object_steps::{Change, Stored};
use sw_outside::NoMemory;
use sw_pass::{Hindrance, Outcome};
use sw_peer::{Link, Lost, ReplicaDoor};
use sw_suffix::DirLine;

/// Sends a write that was read at the sender.
fn transfer<D: ReplicaDoor>(
    alloc: Global,
    door: &mut D,
    route: Route,
    stored: Stored,
    outcome: &mut Outcome,
) -> Result<(), NoMemory>
    requires leads { Leads (D.sight door.old).nodes route }
    requires fits { (D.sight door.old).nodes.fits stored.name ≡ true }
    ensures pushes { IsPassedOn route.from route.to route.part (Ok (Some stored)) (D.sight door.old) outcome.old (D.sight door.new) outcome.new (is_ok result) }
    ensures asks { (D.sight door.new).asks ≡ (D.sight door.old).asks }
    ensures asked { outcome.new.asked ≡ outcome.old.asked }
{
    let Stored { name, write } = stored;
    outcome.count_sent();
    match door.change(
        alloc,
        Link::Sent,
        route.to,
        &name,
        Change::Receive { write },
    ) {
        Ok(answer) => count_answer(&answer, outcome),
        Err(Lost) => {
            outcome.lose();
            Ok(())
        }
    }
}

/// Sends a file of a hash, of which the receiver told these files, where it lacks it.
fn push_file<D: ReplicaDoor>(
    alloc: Global,
    door: &mut D,
    route: Route,
    hash: &[u8; 16],
    theirs: &Picked,
    file: &FileName,
    outcome: &mut Outcome,
) -> Result<(), NoMemory>
    requires leads { Leads (D.sight door.old).nodes route }
    requires within { IsOfPart (D.sight door.old).nodes.power route.part hash.now }
    ensures pushes { IsFilePushed route.from route.to route.part theirs.now hash.now file.now
        (D.sight door.old) outcome.old (D.sight door.new) outcome.new (is_ok result) }
    ensures asks { (D.sight door.new).asks ≡ (D.sight door.old).asks }
    ensures asked { outcome.new.asked ≡ outcome.old.asked }
{
    if !is_wanted(theirs, file) {
        return Ok(());
    }
    let read = door.read_write(alloc, Link::Local, route.from, route.part, hash, file);
    match read.unwrap() {
        Ok(Some(stored)) => transfer(alloc, door, route, stored, outcome),
        Ok(None) => hinder(Some(Hindrance::Missing), outcome),
        Err(fault) => hinder(Hindrance::of_fault(&fault), outcome),
    }
}

/// The same of a file that may not be there.
fn push_some_file<D: ReplicaDoor>(
    alloc: Global,
    door: &mut D,
    route: Route,
    hash: &[u8; 16],
    theirs: &Picked,
    file: &Option<FileName>,
    outcome: &mut Outcome,
) -> Result<(), NoMemory>
    requires leads { Leads (D.sight door.old).nodes route }
    requires within { IsOfPart (D.sight door.old).nodes.power route.part hash.now }
    ensures pushes { InTurn (IsFilePushed route.from route.to route.part theirs.now hash.now) (option_to_list file.now)
        (D.sight door.old) outcome.old (D.sight door.new) outcome.new (is_ok result) }
    ensures asks { (D.sight door.new).asks ≡ (D.sight door.old).asks }
    ensures asked { outcome.new.asked ≡ outcome.old.asked }
{
    match file {
        Some(file) => push_file(alloc, door, route, hash, theirs, file, outcome),
        None => Ok(()),
    }
}

/// Sends the files of a hash that the receiver lacks, the base before the meta.
fn push_line<D: ReplicaDoor>(
    alloc: Global,
    door: &mut D,
    route: Route,
    theirs: &[DirLine],
    line: &DirLine,
    outcome: &mut Outcome,
) -> Result<(), NoMemory>
    requires leads { Leads (D.sight door.old).nodes route }
    requires within { IsOfPart (D.sight door.old).nodes.power route.part line.now.hash }
    requires ascending { IsStrictlySortedBy (slice_cmp nat_cmp) (map (λ line. line.hash) theirs.now) }
    ensures pushes { IsLinePushed route.from route.to route.part theirs.now line.now
        (D.sight door.old) outcome.old (D.sight door.new) outcome.new (is_ok result) }
    ensures asks { (D.sight door.new).asks ≡ (D.sight door.old).asks }
    ensures asked { outcome.new.asked ≡ outcome.old.asked }
{
    let hash = &line.hash;
    let picked = picked_in(theirs, hash);
    push_some_file(
        alloc,
        door,
        route,
        hash,
        &picked,
        &line.picked.base,
        outcome,
    )?;
    push_some_file(
        alloc,
        door,
        route,
        hash,
        &picked,
        &line.picked.meta,
        outcome,
    )
}

/// Sends the files of these hashes that the receiver lacks, in order of the hashes.
pub(crate) fn push_lines<D: ReplicaDoor>(
    alloc: Global,
    door: &mut D,
    route: Route,
    theirs: &[DirLine],
    ours: &[DirLine],
    outcome: &mut Outcome,
) -> Result<(), NoMemory>
    requires leads { Leads (D.sight door.old).nodes route }
    requires within { All (λ line. IsOfPart (D.sight door.old).nodes.power route.part line.hash) ours.now }
    requires ascending { IsStrictlySortedBy (slice_cmp nat_cmp) (map (λ line. line.hash) theirs.now) }
    ensures pushes { InTurn (IsLinePushed route.from route.to route.part theirs.now) ours.now
        (D.sight door.old) outcome.old (D.sight door.new) outcome.new (is_ok result) }
    ensures asks { (D.sight door.new).asks ≡ (D.sight door.old).asks }
    ensures asked { outcome.new.asked ≡ outcome.old.asked }
{
    for line in ours {
        push_line(alloc, door, route, theirs, line, outcome)?;
    }
    Ok(())
}
