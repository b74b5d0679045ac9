ghost use Rattle.std.specs.Prelude.{◌≡◌, ◌+◌, ◌*◌, ◌-◌, ◌/◌, ◌%◌, ◌<◌, ◌≤◌, ◌++◌, ◌∷◌, [], ℕ, List, length, vec_len, vec_capacity, IfOk, OnOk, OnErr};
ghost use Rattle.sw_stores.specs.Places.{is_among, is_around, AreHome, AreOut, ComeHome, GoOut, IsAsItWas, IsSameBut};
ghost use Rattle.sw_stores.specs.Telling.{faults_after};
ghost use Rattle.sw_stores.specs.Starting.{AllRestAgain, AreResting, AreStarted};
ghost use Rattle.sw_volume.specs.Volume.{raised_by};

use crate::parts::Parts;
use crate::stores::Stores;
use std::alloc::Global;
use sw_outside::{NoMemory, StoreError};

/// Starts the volumes and keepers of `count` places from `first` on, in order. Where those of one can't be started, those that were are given back, and no
/// further one is tried.
pub fn start_range<S: Stores>(
    alloc: Global,
    stores: &mut S,
    stripes: u8,
    first: usize,
    count: usize,
) -> Result<Parts<S::V, S::K>, StoreError>
    requires stripes { (1 ≤ stripes) × (stripes ≤ 16) }
    requires within { first + count ≤ 256 * stripes }
    requires home { AreHome (is_among stripes first count) (S.out stores.old) }
    ensures started { IfOk result (AreStarted S.first (S.rests stores.old) stripes first) }
    ensures count { IfOk result (λ parts. length parts ≡ count) }
    ensures out { OnOk result (GoOut (is_among stripes first count) (S.out stores.old) (S.out stores.new)) }
    ensures not_out { OnErr result (IsAsItWas (S.out stores.old) (S.out stores.new)) }
    ensures others { IsSameBut (is_among stripes first count) (S.rests stores.old) (S.rests stores.new) }
    ensures rests { OnErr result (AllRestAgain S.first (is_among stripes first count) (S.rests stores.old) (S.rests stores.new)) }
    ensures kept { (other : List ℕ) → S.text stores.new other ≡ S.text stores.old other }
    ensures cause { S.faults stores.new ≡ faults_after (S.faults stores.old) result }
    ensures calls { OnOk result (S.calls stores.new ≡ raised_by count (S.calls stores.old)) }
    ensures tried { OnErr result ((tried : ℕ) × (tried ≤ count) × (S.calls stores.new ≡ raised_by tried (S.calls stores.old))) }
{
    let mut volumes = Vec::with_capacity(alloc, count).map_err(NoMemory::from)?;
    let mut keepers = Vec::with_capacity(alloc, count).map_err(NoMemory::from)?;
    for index in 0..count {
        let (device, stripe) = pair_of(stripes, first + index);
        match stores.start(alloc, device, stripe) {
            Ok((volume, keeper)) => {
                add(&mut volumes, volume);
                add(&mut keepers, keeper);
            }
            Err(error) => {
                give_range(stores, stripes, first, Parts::of(volumes, keepers));
                return Err(error);
            }
        }
    }
    Ok(Parts::of(volumes, keepers))
}

/// Gives volumes and keepers back to the places from `first` on, in order. It takes no memory and can't fail.
pub fn give_range<S: Stores>(stores: &mut S, stripes: u8, first: usize, parts: Parts<S::V, S::K>)
    requires stripes { (1 ≤ stripes) × (stripes ≤ 16) }
    requires within { first + length parts ≤ 256 * stripes }
    requires out { AreOut (is_among stripes first (length parts)) (S.out stores.old) }
    ensures rests { AreResting (S.rests stores.new) stripes first parts }
    ensures others { IsSameBut (is_among stripes first (length parts)) (S.rests stores.old) (S.rests stores.new) }
    ensures home { ComeHome (is_among stripes first (length parts)) (S.out stores.old) (S.out stores.new) }
    ensures kept { (other : List ℕ) → S.text stores.new other ≡ S.text stores.old other }
    ensures faults { S.faults stores.new ≡ S.faults stores.old }
    ensures calls { S.calls stores.new ≡ S.calls stores.old }
{
    let mut left = parts;
    let count = left.len();
    give_last(stores, stripes, first, count, &mut left);
}

/// Gives volumes and keepers back to the places below `count` but those from `first` on, up to `past`, in order. It takes no memory and can't fail.
pub fn give_around<S: Stores>(
    stores: &mut S,
    stripes: u8,
    first: usize,
    past: usize,
    count: usize,
    parts: Parts<S::V, S::K>,
)
    requires stripes { (1 ≤ stripes) × (stripes ≤ 16) }
    requires around { (first ≤ past) × (past ≤ count) }
    requires within { count ≤ 256 * stripes }
    requires each { first + (count - past) ≡ length parts }
    requires out { AreOut (is_around stripes first past count) (S.out stores.old) }
    ensures rests { (before after : List (S.V × S.K)) → parts ≡ before ++ after → length before ≡ first →
        AreResting (S.rests stores.new) stripes 0 before × AreResting (S.rests stores.new) stripes past after }
    ensures others { IsSameBut (is_around stripes first past count) (S.rests stores.old) (S.rests stores.new) }
    ensures home { ComeHome (is_around stripes first past count) (S.out stores.old) (S.out stores.new) }
    ensures kept { (other : List ℕ) → S.text stores.new other ≡ S.text stores.old other }
    ensures faults { S.faults stores.new ≡ S.faults stores.old }
    ensures calls { S.calls stores.new ≡ S.calls stores.old }
{
    let mut left = parts;
    give_last(stores, stripes, past, count - past, &mut left);
    give_range(stores, stripes, 0, left);
}

/// Gives the last ones back, as many as `count`, to the places from `first` on, in order.
fn give_last<S: Stores>(
    stores: &mut S,
    stripes: u8,
    first: usize,
    count: usize,
    parts: &mut Parts<S::V, S::K>,
)
    requires stripes { (1 ≤ stripes) × (stripes ≤ 16) }
    requires within { first + count ≤ 256 * stripes }
    requires each { count ≤ length parts.old }
    requires out { AreOut (is_among stripes first count) (S.out stores.old) }
    ensures rests { (given : List (S.V × S.K)) × (parts.old ≡ parts.new ++ given) × (length given ≡ count)
        × AreResting (S.rests stores.new) stripes first given }
    ensures others { IsSameBut (is_among stripes first count) (S.rests stores.old) (S.rests stores.new) }
    ensures home { ComeHome (is_among stripes first count) (S.out stores.old) (S.out stores.new) }
    ensures kept { (other : List ℕ) → S.text stores.new other ≡ S.text stores.old other }
    ensures faults { S.faults stores.new ≡ S.faults stores.old }
    ensures calls { S.calls stores.new ≡ S.calls stores.old }
{
    for index in (0..count).rev() {
        let (device, stripe) = pair_of(stripes, first + index);
        match parts.pop() {
            Some((volume, keeper)) => stores.give_back(device, stripe, volume, keeper),
            None => unreachable!(),
        }
    }
}

/// Gives those of the places from `first` on back, and starts them anew. After an error none of them is out.
pub fn restart_range<S: Stores>(
    alloc: Global,
    stores: &mut S,
    stripes: u8,
    first: usize,
    parts: Parts<S::V, S::K>,
) -> Result<Parts<S::V, S::K>, StoreError>
    requires stripes { (1 ≤ stripes) × (stripes ≤ 16) }
    requires within { first + length parts ≤ 256 * stripes }
    requires out { AreOut (is_among stripes first (length parts)) (S.out stores.old) }
    ensures same { IfOk result (λ anew. anew ≡ parts) }
    ensures out { OnOk result (IsAsItWas (S.out stores.old) (S.out stores.new)) }
    ensures home { OnErr result (ComeHome (is_among stripes first (length parts)) (S.out stores.old) (S.out stores.new)) }
    ensures rests { OnErr result (AreResting (S.rests stores.new) stripes first parts) }
    ensures others { IsSameBut (is_among stripes first (length parts)) (S.rests stores.old) (S.rests stores.new) }
    ensures kept { (other : List ℕ) → S.text stores.new other ≡ S.text stores.old other }
    ensures cause { S.faults stores.new ≡ faults_after (S.faults stores.old) result }
    ensures calls { OnOk result (S.calls stores.new ≡ raised_by (length parts) (S.calls stores.old)) }
    ensures tried { OnErr result ((tried : ℕ) × (tried ≤ length parts) × (S.calls stores.new ≡ raised_by tried (S.calls stores.old))) }
{
    let count = parts.len();
    give_range(stores, stripes, first, parts);
    start_range(alloc, stores, stripes, first, count)
}

/// The device and the stripe of a place.
fn pair_of(stripes: u8, place: usize) -> (u8, u8)
    requires stripes { 1 ≤ stripes }
    requires within { place < 256 * stripes }
    ensures device { result.0 ≡ place / stripes }
    ensures stripe { result.1 ≡ place % stripes }
{
    let stripes = usize::from(stripes);
    ((place / stripes) as u8, (place % stripes) as u8)
}

/// Adds one where there is room for it.
fn add<T: Drop>(list: &mut Vec<T>, one: T)
    requires { vec_len list.old < vec_capacity list.old }
    ensures items { list.new.items ≡ list.old.items ++ one ∷ [] }
    ensures capacity { vec_capacity list.old ≤ vec_capacity list.new }
{
    match list.push(one) {
        Ok(()) => {}
        Err(_) => unreachable!(),
    }
}
