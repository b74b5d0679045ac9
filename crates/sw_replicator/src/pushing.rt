ghost use Rattle.sw_pass.specs.Turns.{InTurn};
ghost use Rattle.std.specs.Prelude.{◌≡◌, ◌≢◌, ◌<◌, ◌+◌, ◌-◌, ◌^◌, ◌⊎◌, min, true, length, map, IfOk, OnOk};
ghost use Rattle.std.specs.List.{All};
ghost use Rattle.std.specs.List.Sorted.{IsStrictlySortedBy};
ghost use Rattle.std.specs.Ordering.{nat_cmp};
ghost use Rattle.std.specs.Result.{is_ok};
ghost use Rattle.sw_outside.specs.Counts.{raised};
ghost use Rattle.sw_pass.specs.Outcomes.{nothing_yet};
ghost use Rattle.sw_replicator.specs.Causes.{AsksEach, AsksOnce, HasCauses};
ghost use Rattle.sw_replicator.specs.Meeting.{Meets, PairMoves, Reaches};
ghost use Rattle.sw_replicator.specs.Pushing.{IsPush, IsRun, IsSuffixPushed, differing};
ghost use Rattle.sw_replicator.specs.Routes.{Leads};

use crate::comparing::differs;
use crate::counting::hinder;
use crate::offering::push_lines;
use crate::route::Route;
use std::alloc::Global;
use sw_outside::NoMemory;
use sw_pass::{Hindrance, Outcome};
use sw_peer::{Link, Lost, ReplicaDoor};
use sw_suffix::SuffixHash;

/// Pushes what a device has of a partition to another one that lacks it. The devices differ, and the partition is below 2 to the part power.
///
/// `left` of the outcome counts the files that the receiver lacked and that it didn't acknowledge, and the suffixes of which one of the two
/// didn't answer its files; it is 1 where the hashes weren't answered. [`NoMemory`] comes where a call wanted memory, and none follows.
pub fn push<D: ReplicaDoor>(
    alloc: Global,
    door: &mut D,
    from: u8,
    to: u8,
    part: u32,
) -> Result<Outcome, NoMemory>
    requires from { from < (D.sight door.old).nodes.devices }
    requires to { to < (D.sight door.old).nodes.devices }
    requires apart { from ≢ to }
    requires part { part < 2 ^ (D.sight door.old).nodes.power }
    ensures pushes { IsPush from to part (D.sight door.old) result (D.sight door.new) }
    ensures moves { PairMoves from to part (D.sight door.old) (D.sight door.new) }
    ensures reaches { IfOk result (λ o. o.done ≡ true → Reaches from to part (D.sight door.old) (D.sight door.new)) }
    ensures meets { IfOk result (λ o. o.done ≡ true → Meets from to part (D.sight door.old) (D.sight door.new)) }
    ensures asks { IfOk result (λ o. AsksEach from to part (D.sight door.old) (D.sight door.new) o ⊎ AsksOnce (D.sight door.old) (D.sight door.new) o) }
    ensures causes { IfOk result (λ o. HasCauses (D.sight door.old) (D.sight door.new) o) }
{
    let route = Route { from, to, part };
    let mut outcome = Outcome::new();
    run(alloc, door, route, &mut outcome)?;
    Ok(outcome.finish())
}

/// The calls of a push.
fn run<D: ReplicaDoor>(
    alloc: Global,
    door: &mut D,
    route: Route,
    outcome: &mut Outcome,
) -> Result<(), NoMemory>
    requires leads { Leads (D.sight door.old).nodes route }
    requires fresh { outcome.old ≡ nothing_yet }
    ensures pushes { IsRun route.from route.to route.part (D.sight door.old) (D.sight door.new) outcome.new (is_ok result) }
    ensures asks { OnOk result (AsksEach route.from route.to route.part (D.sight door.old) (D.sight door.new) outcome.new
        ⊎ AsksOnce (D.sight door.old) (D.sight door.new) outcome.new) }
{
    let read = door.hashes(alloc, Link::Local, route.from, route.part);
    let ours = match read.unwrap() {
        Ok(ours) => ours,
        Err(fault) => return hinder(Hindrance::of_fault(&fault), outcome),
    };
    outcome.count_asked();
    let theirs = match door.hashes(alloc, Link::Sent, route.to, route.part) {
        Ok(Ok(theirs)) => theirs,
        Ok(Err(fault)) => return hinder(Hindrance::of_fault(&fault), outcome),
        Err(Lost) => {
            outcome.lose();
            return Ok(());
        }
    };
    push_suffixes(alloc, door, route, &ours, &theirs, outcome)
}

/// Pushes the suffixes that differ, in order.
fn push_suffixes<D: ReplicaDoor>(
    alloc: Global,
    door: &mut D,
    route: Route,
    ours: &[SuffixHash],
    theirs: &[SuffixHash],
    outcome: &mut Outcome,
) -> Result<(), NoMemory>
    requires leads { Leads (D.sight door.old).nodes route }
    requires below { All (λ one. one.suffix < 4096) ours.now }
    requires ascending { IsStrictlySortedBy nat_cmp (map (λ one. one.suffix) theirs.now) }
    requires asks { (D.sight door.old).asks < 2 ^ 64 }
    requires asked { outcome.old.asked < 2 ^ 64 }
    ensures pushes { InTurn (IsSuffixPushed route.from route.to route.part) (differing ours.now theirs.now)
        (D.sight door.old) outcome.old (D.sight door.new) outcome.new (is_ok result) }
    ensures asks { OnOk result ((D.sight door.new).asks ≡ min ((D.sight door.old).asks + length (differing ours.now theirs.now)) (2 ^ 64 - 1)) }
    ensures asked { OnOk result (outcome.new.asked ≡ min (outcome.old.asked + length (differing ours.now theirs.now)) (2 ^ 64 - 1)) }
{
    for one in ours {
        if !differs(theirs, one) {
            continue;
        }
        push_suffix(alloc, door, route, one, outcome)?;
    }
    Ok(())
}

/// Sends the files of a suffix that the receiver lacks, once it told which it has.
fn push_suffix<D: ReplicaDoor>(
    alloc: Global,
    door: &mut D,
    route: Route,
    one: &SuffixHash,
    outcome: &mut Outcome,
) -> Result<(), NoMemory>
    requires leads { Leads (D.sight door.old).nodes route }
    requires below { one.now.suffix < 4096 }
    ensures pushes { IsSuffixPushed route.from route.to route.part one.now (D.sight door.old) outcome.old (D.sight door.new) outcome.new (is_ok result) }
    ensures asks { (D.sight door.new).asks ≡ raised (D.sight door.old).asks }
    ensures asked { outcome.new.asked ≡ raised outcome.old.asked }
{
    outcome.count_asked();
    let theirs = match door.files_of(alloc, Link::Sent, route.to, route.part, one.suffix) {
        Ok(Ok(theirs)) => theirs,
        Ok(Err(fault)) => return hinder(Hindrance::of_fault(&fault), outcome),
        Err(Lost) => {
            outcome.lose();
            return Ok(());
        }
    };
    let read = door.files_of(alloc, Link::Local, route.from, route.part, one.suffix);
    let ours = match read.unwrap() {
        Ok(ours) => ours,
        Err(fault) => return hinder(Hindrance::of_fault(&fault), outcome),
    };
    push_lines(alloc, door, route, &theirs, &ours, outcome)
}
