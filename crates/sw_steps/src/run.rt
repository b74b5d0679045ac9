ghost use Rattle.std.specs.Option.{option_to_list};
ghost use Rattle.std.specs.Prelude.{◌≡◌, ◌≢◌, ◌<◌, ◌++◌, ◌∷◌, ◌^◌, true, false, [], All, None, IfOk, OnOk, OnErr, vec_capacity, vec_len};
ghost use Rattle.sw_core.specs.Worlds.{keeper_seen, sight_of};
ghost use Rattle.sw_hashdir.specs.Steps.{is_hashed};
ghost use Rattle.sw_machine.specs.Doors.{RunsOn};
ghost use Rattle.sw_peer.specs.Sights.{is_wanting, is_wanting_read};
ghost use Rattle.sw_steps.specs.Exchanging.{AreMet};
ghost use Rattle.sw_steps.specs.Stepping.{AreMade, AreMadeUpTo, IsStepMade, IsStepTried, MayBeMade};
ghost use Rattle.sw_steps.specs.declared.step.Step.TheVariants as step_kinds;

use crate::passing::push_over;
use crate::step::Step;
use std::alloc::Global;
use sw_core::World;
use sw_hashpath::Name;
use sw_keeper::Keeper;
use sw_lossy::{Acts, Lossy};
use sw_object_steps::{Answer, Change, Got};
use sw_outside::NoMemory;
use sw_pass::Outcome;
use sw_peer::{Link, ObjectDoor};
use sw_volume::{Volume, VolumeError};

/// Makes the steps in their order, of the world inside the door. The world keeps the lines of what came. The messages of a push go through the
/// door, which fails as the push says. What the pushes came to is answered, in their order.
///
/// A push of the list that is told as done and a later one back leave both devices with the join of what both held, of each hash that nothing
/// changed in between.
///
/// After [`NoMemory`] the steps before the one that wanted memory were made, and that one as far as it came. What pushes among
/// them came to isn't told.
pub fn run_steps<V: Volume + Drop, K: Keeper + Drop>(
    alloc: Global,
    door: &mut Lossy<World<V, K>>,
    steps: &[Step],
) -> Result<Vec<Outcome>, NoMemory>
    requires whole { door.old.door.lifted ≡ None }
    requires may { All (MayBeMade door.old.door.devices door.old.door.power door.old.door.secrets) steps.now }
    ensures whole { door.new.door.lifted ≡ None }
    ensures all { IfOk result (λ outcomes. AreMade steps.now outcomes.items
        (sight_of V.tells V.holds V.faults (keeper_seen K.tells K.holds K.faults) door.old.door)
        (sight_of V.tells V.holds V.faults (keeper_seen K.tells K.holds K.faults) door.new.door)) }
    ensures some { OnErr result (AreMadeUpTo steps.now (sight_of V.tells V.holds V.faults (keeper_seen K.tells K.holds K.faults) door.old.door)
        (sight_of V.tells V.holds V.faults (keeper_seen K.tells K.holds K.faults) door.new.door)) }
    ensures runs { RunsOn (sight_of V.tells V.holds V.faults (keeper_seen K.tells K.holds K.faults) door.old.door)
        (sight_of V.tells V.holds V.faults (keeper_seen K.tells K.holds K.faults) door.new.door) }
    ensures met { IfOk result (λ outcomes. AreMet steps.now outcomes.items
        (sight_of V.tells V.holds V.faults (keeper_seen K.tells K.holds K.faults) door.old.door)
        (sight_of V.tells V.holds V.faults (keeper_seen K.tells K.holds K.faults) door.new.door)) }
{
    let mut outcomes = Vec::new(alloc);
    for step in steps {
        outcomes.reserve(1)?;
        let outcome = make(alloc, door, step)?;
        keep(&mut outcomes, outcome);
    }
    Ok(outcomes)
}

/// Keeps the outcome of a step, where it has one and there is room. It takes no memory, so that a step that was made is told.
fn keep(outcomes: &mut Vec<Outcome>, outcome: Option<Outcome>)
    requires room { vec_len outcomes.old < vec_capacity outcomes.old }
    ensures items { outcomes.new.items ≡ outcomes.old.items ++ option_to_list outcome }
{
    if let Some(outcome) = outcome {
        outcomes.push_reserved(outcome);
    }
}

/// Makes a step. A push has an outcome, and no other step has one.
fn make<V: Volume + Drop, K: Keeper + Drop>(
    alloc: Global,
    door: &mut Lossy<World<V, K>>,
    step: &Step,
) -> Result<Option<Outcome>, NoMemory>
    requires whole { door.old.door.lifted ≡ None }
    requires may { MayBeMade door.old.door.devices door.old.door.power door.old.door.secrets step.now }
    ensures whole { door.new.door.lifted ≡ None }
    ensures made { IfOk result (λ outcome. IsStepMade step.now (option_to_list outcome)
        (sight_of V.tells V.holds V.faults (keeper_seen K.tells K.holds K.faults) door.old.door)
        (sight_of V.tells V.holds V.faults (keeper_seen K.tells K.holds K.faults) door.new.door)) }
    ensures tried { OnErr result (IsStepTried step.now (sight_of V.tells V.holds V.faults (keeper_seen K.tells K.holds K.faults) door.old.door)
        (sight_of V.tells V.holds V.faults (keeper_seen K.tells K.holds K.faults) door.new.door)) }
    ensures runs { RunsOn (sight_of V.tells V.holds V.faults (keeper_seen K.tells K.holds K.faults) door.old.door)
        (sight_of V.tells V.holds V.faults (keeper_seen K.tells K.holds K.faults) door.new.door) }
{
    match step {
        Step::Change {
            device,
            name,
            change,
        } => {
            change_at(alloc, &mut door.door, *device, name, change)?;
            Ok(None)
        }
        Step::Read { device, name } => {
            read_at(alloc, &mut door.door, *device, name)?;
            Ok(None)
        }
        Step::List { device } => {
            list_at(alloc, &mut door.door, *device)?;
            Ok(None)
        }
        Step::Restart { device } => {
            restart_at(alloc, &mut door.door, *device)?;
            Ok(None)
        }
        Step::Push {
            from,
            to,
            part,
            acts,
        } => Ok(Some(push_at(alloc, door, *from, *to, *part, *acts)?)),
    }
}

fn change_at<V: Volume + Drop, K: Keeper + Drop>(
    alloc: Global,
    world: &mut World<V, K>,
    device: u8,
    name: &Name,
    change: &Change,
) -> Result<(), NoMemory>
    requires whole { world.old.lifted ≡ None }
    requires device { device < world.old.devices }
    requires fits { is_hashed world.old.secrets name.now ≡ true }
    ensures whole { world.new.lifted ≡ None }
    ensures made { OnOk result (IsStepMade (step_kinds.Change device name.now change.now) []
        (sight_of V.tells V.holds V.faults (keeper_seen K.tells K.holds K.faults) world.old)
        (sight_of V.tells V.holds V.faults (keeper_seen K.tells K.holds K.faults) world.new)) }
    ensures tried { OnErr result (IsStepTried (step_kinds.Change device name.now change.now)
        (sight_of V.tells V.holds V.faults (keeper_seen K.tells K.holds K.faults) world.old)
        (sight_of V.tells V.holds V.faults (keeper_seen K.tells K.holds K.faults) world.new)) }
    ensures runs { RunsOn (sight_of V.tells V.holds V.faults (keeper_seen K.tells K.holds K.faults) world.old)
        (sight_of V.tells V.holds V.faults (keeper_seen K.tells K.holds K.faults) world.new) }
{
    let change = change.copy(alloc)?;
    match world.change(alloc, Link::Local, device, name, change) {
        Ok(answer) => unless_wanting(answer),
        Err(_) => unreachable!(),
    }
}

fn read_at<V: Volume + Drop, K: Keeper + Drop>(
    alloc: Global,
    world: &mut World<V, K>,
    device: u8,
    name: &Name,
) -> Result<(), NoMemory>
    requires whole { world.old.lifted ≡ None }
    requires device { device < world.old.devices }
    requires fits { is_hashed world.old.secrets name.now ≡ true }
    ensures whole { world.new.lifted ≡ None }
    ensures made { OnOk result (IsStepMade (step_kinds.Read device name.now) []
        (sight_of V.tells V.holds V.faults (keeper_seen K.tells K.holds K.faults) world.old)
        (sight_of V.tells V.holds V.faults (keeper_seen K.tells K.holds K.faults) world.new)) }
    ensures tried { OnErr result (IsStepTried (step_kinds.Read device name.now)
        (sight_of V.tells V.holds V.faults (keeper_seen K.tells K.holds K.faults) world.old)
        (sight_of V.tells V.holds V.faults (keeper_seen K.tells K.holds K.faults) world.new)) }
    ensures runs { RunsOn (sight_of V.tells V.holds V.faults (keeper_seen K.tells K.holds K.faults) world.old)
        (sight_of V.tells V.holds V.faults (keeper_seen K.tells K.holds K.faults) world.new) }
{
    match world.get(alloc, Link::Local, device, name) {
        Ok(got) => unless_wanting_read(got),
        Err(_) => unreachable!(),
    }
}

fn list_at<V: Volume + Drop, K: Keeper + Drop>(
    alloc: Global,
    world: &mut World<V, K>,
    device: u8,
) -> Result<(), NoMemory>
    requires whole { world.old.lifted ≡ None }
    requires device { device < world.old.devices }
    ensures whole { world.new.lifted ≡ None }
    ensures made { OnOk result (IsStepMade (step_kinds.List device) []
        (sight_of V.tells V.holds V.faults (keeper_seen K.tells K.holds K.faults) world.old)
        (sight_of V.tells V.holds V.faults (keeper_seen K.tells K.holds K.faults) world.new)) }
    ensures tried { OnErr result (IsStepTried (step_kinds.List device)
        (sight_of V.tells V.holds V.faults (keeper_seen K.tells K.holds K.faults) world.old)
        (sight_of V.tells V.holds V.faults (keeper_seen K.tells K.holds K.faults) world.new)) }
    ensures runs { RunsOn (sight_of V.tells V.holds V.faults (keeper_seen K.tells K.holds K.faults) world.old)
        (sight_of V.tells V.holds V.faults (keeper_seen K.tells K.holds K.faults) world.new) }
{
    match world.files(alloc, device) {
        Ok(_) => Ok(()),
        Err(VolumeError::Failed) => Ok(()),
        Err(VolumeError::NoMemory) => Err(NoMemory),
    }
}

/// Takes the device's volumes and keepers out, and sets it down over them again.
fn restart_at<V: Volume + Drop, K: Keeper + Drop>(
    alloc: Global,
    world: &mut World<V, K>,
    device: u8,
) -> Result<(), NoMemory>
    requires whole { world.old.lifted ≡ None }
    requires device { device < world.old.devices }
    ensures whole { world.new.lifted ≡ None }
    ensures made { OnOk result (IsStepMade (step_kinds.Restart device) []
        (sight_of V.tells V.holds V.faults (keeper_seen K.tells K.holds K.faults) world.old)
        (sight_of V.tells V.holds V.faults (keeper_seen K.tells K.holds K.faults) world.new)) }
    ensures tried { OnErr result (IsStepTried (step_kinds.Restart device)
        (sight_of V.tells V.holds V.faults (keeper_seen K.tells K.holds K.faults) world.old)
        (sight_of V.tells V.holds V.faults (keeper_seen K.tells K.holds K.faults) world.new)) }
    ensures runs { RunsOn (sight_of V.tells V.holds V.faults (keeper_seen K.tells K.holds K.faults) world.old)
        (sight_of V.tells V.holds V.faults (keeper_seen K.tells K.holds K.faults) world.new) }
{
    let parts = world.lift(alloc, device)?;
    world.set_down(alloc, device, parts);
    Ok(())
}

fn push_at<V: Volume + Drop, K: Keeper + Drop>(
    alloc: Global,
    door: &mut Lossy<World<V, K>>,
    from: u8,
    to: u8,
    part: u32,
    acts: Acts,
) -> Result<Outcome, NoMemory>
    requires whole { door.old.door.lifted ≡ None }
    requires from { from < door.old.door.devices }
    requires to { to < door.old.door.devices }
    requires apart { from ≢ to }
    requires part { part < 2 ^ door.old.door.power }
    ensures whole { door.new.door.lifted ≡ None }
    ensures made { IfOk result (λ outcome. IsStepMade (step_kinds.Push from to part acts) (outcome ∷ [])
        (sight_of V.tells V.holds V.faults (keeper_seen K.tells K.holds K.faults) door.old.door)
        (sight_of V.tells V.holds V.faults (keeper_seen K.tells K.holds K.faults) door.new.door)) }
    ensures tried { OnErr result (IsStepTried (step_kinds.Push from to part acts)
        (sight_of V.tells V.holds V.faults (keeper_seen K.tells K.holds K.faults) door.old.door)
        (sight_of V.tells V.holds V.faults (keeper_seen K.tells K.holds K.faults) door.new.door)) }
    ensures runs { RunsOn (sight_of V.tells V.holds V.faults (keeper_seen K.tells K.holds K.faults) door.old.door)
        (sight_of V.tells V.holds V.faults (keeper_seen K.tells K.holds K.faults) door.new.door) }
{
    push_over(alloc, door, from, to, part, acts)
}

/// Whether the step wanted no memory.
fn unless_wanting(answer: Answer) -> Result<(), NoMemory>
    ensures ok { OnOk result (is_wanting answer ≡ false) }
    ensures err { OnErr result (is_wanting answer ≡ true) }
{
    match answer {
        Answer::NoMemory => Err(NoMemory),
        _ => Ok(()),
    }
}

/// Whether the read wanted no memory.
fn unless_wanting_read(got: Got) -> Result<(), NoMemory>
    ensures ok { OnOk result (is_wanting_read got ≡ false) }
    ensures err { OnErr result (is_wanting_read got ≡ true) }
{
    match got {
        Got::NoMemory => Err(NoMemory),
        _ => Ok(()),
    }
}
