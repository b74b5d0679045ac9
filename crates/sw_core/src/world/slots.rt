//! The directories of a range of locks, taken out and put in.

ghost use Rattle.std.specs.Prelude.{◌≡◌, ℕ, ◌+◌, ◌<◌, ◌≤◌, ◌⊎◌, [], length, All, IfOk, option_to_list};
ghost use Rattle.std.specs.List.{flat_map, slice_get};
ghost use Rattle.sw_core.specs.Listing.{is_failed};
ghost use Rattle.sw_core.specs.Worlds.{AreLifted, AreSetDown, IsSetDown, SlotTellsOn, TellsOn, restart_line, volume_in};
ghost use Rattle.sw_core.specs.declared.slot.Slot.TheVariants as slots;
ghost use Rattle.sw_objdir.specs.Directories.{Kept};
ghost use Rattle.sw_peer.specs.declared.line.Event.TheVariants.{Listed};
ghost use Rattle.sw_peer.specs.declared.link.Link.TheVariants.{Local};

use crate::limits::JOURNAL_ENTRIES;
use crate::slot::Slot;
use std::alloc::Global;
use std::mem;
use sw_hashpath::Secrets;
use sw_objdir::ObjDir;
use sw_object_steps::Added;
use sw_outside::{BytesList, NoMemory};
use sw_peer::{Event, KeptLine, Line, Link};
use sw_volume::{Volume, VolumeError};

/// So many places whose volumes are out.
pub(crate) fn lifted_slots<V: Volume + Drop>(
    alloc: Global,
    secrets: &Secrets,
    count: usize,
) -> Result<Vec<Slot<V>>, NoMemory>
    ensures count { IfOk result (λ made. length made.items ≡ count) }
    ensures lifted { IfOk result (λ made. All (λ slot. slot ≡ slots.Lifted secrets.now) made.items) }
{
    let mut made = Vec::with_capacity(alloc, count)?;
    for _ in 0..count {
        made.push(Slot::Lifted(secrets.copy(alloc)?))?;
    }
    Ok(made)
}

/// Puts volumes in from the place `first` on: where one is out, a directory begins anew on it, with a journal that has room for this many bytes of
/// bodies.
pub(crate) fn open_slots<V: Volume + Drop>(
    alloc: Global,
    places: &mut Vec<Slot<V>>,
    first: usize,
    power: u8,
    max_bytes: u64,
    volumes: Vec<V>,
)
    requires within { first + length volumes.items ≤ length places.old.items }
    requires least { 1 ≤ power }
    requires greatest { power ≤ 32 }
    ensures { AreSetDown power max_bytes first volumes.items places.old.items places.new.items }
{
    let mut at = first;
    for volume in volumes {
        open_slot(alloc, &mut places[at], power, max_bytes, volume);
        at += 1;
    }
}

/// Puts a volume in, where one is out.
fn open_slot<V: Volume + Drop>(
    alloc: Global,
    place: &mut Slot<V>,
    power: u8,
    max_bytes: u64,
    volume: V,
)
    requires least { 1 ≤ power }
    requires greatest { power ≤ 32 }
    ensures { IsSetDown power max_bytes volume place.old place.new }
{
    match mem::replace(place, Slot::Empty) {
        Slot::Lifted(secrets) => {
            *place = Slot::Open(ObjDir::start(
                alloc,
                volume,
                power,
                secrets,
                JOURNAL_ENTRIES,
                max_bytes,
            ));
        }
        other => *place = other,
    }
}

/// Takes the directories from the place `first` on, up to `past`, out, and adds their volumes to `volumes`, which has room for them.
pub(crate) fn lift_slots<V: Volume + Drop>(
    places: &mut Vec<Slot<V>>,
    first: usize,
    past: usize,
    volumes: &mut Vec<V>,
)
    requires order { first ≤ past }
    requires within { past ≤ length places.old.items }
    requires are_open { (l : ℕ) → first ≤ l → l < past → (k : Kept V) × (slice_get places.old.items l ≡ Some (slots.Open k)) }
    requires none { volumes.old.items ≡ [] }
    requires room { past ≤ first + volumes.old.cap }
    ensures lifted { AreLifted first past places.old.items places.new.items volumes.new.items }
    ensures told { (l : ℕ) (k : Kept V) → first ≤ l → l < past → slice_get places.old.items l ≡ Some (slots.Open k) → TellsOn V.tells V.holds V.faults k }
{
    for at in first..past {
        volumes.push_reserved(lift_slot(&mut places[at]));
    }
}

/// Takes a directory out, and gives its volume.
fn lift_slot<V: Volume + Drop>(place: &mut Slot<V>) -> V
    requires is_open { (k : Kept V) × (place.old ≡ slots.Open k) }
    ensures volume { (k : Kept V) → place.old ≡ slots.Open k → (result ≡ k.volume) × (place.new ≡ slots.Lifted k.secrets) × TellsOn V.tells V.holds V.faults k }
{
    let Slot::Open(dir) = mem::replace(place, Slot::Empty) else {
        unreachable!()
    };
    let (volume, secrets) = dir.into_parts();
    *place = Slot::Lifted(secrets);
    volume
}

/// The volumes that are there, in their order, moved into a list that has room for them.
pub(crate) fn volumes_in<V: Volume + Drop>(places: Vec<Slot<V>>, room: Vec<V>) -> Vec<V>
    requires none { room.items ≡ [] }
    requires room { length places.items ≤ room.cap }
    ensures volumes { result.items ≡ flat_map volume_in places.items }
    ensures told { All (SlotTellsOn V.tells V.holds V.faults) places.items }
{
    let mut volumes = room;
    for place in places {
        if let Some(volume) = volume_at(place) {
            volumes.push_reserved(volume);
        }
    }
    volumes
}

/// The volume of a place, where it is there.
fn volume_at<V: Volume + Drop>(place: Slot<V>) -> Option<V>
    ensures volume { option_to_list result ≡ volume_in place }
    ensures told { SlotTellsOn V.tells V.holds V.faults place }
{
    match place {
        Slot::Open(dir) => Some(dir.into_volume()),
        _ => None,
    }
}

/// Makes room for a line: where the lines were taken, that which was kept for it.
pub(crate) fn make_room(alloc: Global, lines: &mut Vec<KeptLine>, spare: &mut Vec<KeptLine>)
    requires line { (lines.old.items ≡ []) ⊎ (length lines.old.items < lines.old.cap) }
    requires spared { (spare.old.items ≡ []) × (1 ≤ spare.old.cap) }
    ensures same { lines.new.items ≡ lines.old.items }
    ensures room { length lines.new.items < lines.new.cap }
{
    if lines.is_empty() {
        *lines = mem::replace(spare, Vec::new(alloc));
    }
}

/// The line of a restart.
pub(crate) fn line_of_restart(alloc: Global, device: u8) -> KeptLine
    ensures { result ≡ restart_line device }
{
    KeptLine::new(
        Line {
            device,
            link: Link::Local,
            event: Event::Restarted,
            added: Added::since(&Vec::new(alloc), 0),
        },
        Vec::new(alloc),
    )
}

/// The line of a listing of all files.
pub(crate) fn line_of_listing(
    alloc: Global,
    device: u8,
    listed: &Result<BytesList, VolumeError>,
) -> KeptLine
    ensures { result ≡ record { device = device; link = Local; event = Listed (is_failed listed.now); added = [] } }
{
    let failed = match listed {
        Ok(_) => false,
        Err(VolumeError::Failed) => true,
        Err(VolumeError::NoMemory) => false,
    };
    KeptLine::new(
        Line {
            device,
            link: Link::Local,
            event: Event::Listed(failed),
            added: Added::since(&Vec::new(alloc), 0),
        },
        Vec::new(alloc),
    )
}
