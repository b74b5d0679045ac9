ghost use Rattle.std.specs.Prelude.{◌≡◌, ℕ, false, IfOk};
ghost use Rattle.sw_stores.specs.Shelf.{is_out};

use crate::case::Case;
use crate::connections::doors;
use crate::volumes::{files_left, parts};
use crate::way::Change;
use std::alloc::Global;
use sw_cluster::cluster;
use sw_control::trail_text;
use sw_core::Trail;
use sw_outside::{Bytes, BytesList, FailingPut, MemClock, MemDoors, MemSink, MemSource, NoMemory};
use sw_stores::{MemStores, RingText};

/// What a run left.
#[derive(Drop)]
pub struct Ended {
    pub status: u8,
    pub output: MemSink,
    pub errors: MemSink,
    /// With the connections that were finished, and the port at which it was listened.
    pub doors: MemDoors,
    pub trail: Trail,
    /// The texts of the files of the devices whose files are wanted.
    pub files: Vec<Bytes>,
}

/// Runs a case over memory, with this change.
pub fn run(
    alloc: Global,
    case: &Case,
    rings: &[RingText],
    change: Change,
) -> Result<Ended, NoMemory> {
    let script = &case.script;
    let mut source = source(alloc, case, change)?;
    let mut output = MemSink::new(alloc, puts(alloc, &script.failing_puts, change)?);
    let mut errors = MemSink::new(alloc, Vec::from_slice(alloc, &script.failing_error_puts)?);
    let mut stores = stores(alloc, case, rings)?;
    let mut doors = doors(alloc, case)?;
    let mut clock = MemClock::new(Vec::from_slice(alloc, &script.clock)?);
    let mut trail = Trail::new(alloc);
    let status = cluster(
        alloc,
        &script.words,
        &mut source,
        &mut output,
        &mut errors,
        &mut stores,
        &mut doors,
        &mut clock,
        &mut trail,
    );
    let mut slots = stores.into_parts().into_slots();
    let files = files_left(alloc, &script.files, &mut slots)?;
    Ok(Ended {
        status,
        output,
        errors,
        doors,
        trail,
        files,
    })
}

/// The source of a case, with a change.
fn source(alloc: Global, case: &Case, change: Change) -> Result<MemSource, NoMemory> {
    let input = match change {
        Change::Cut(length) => &case.input[..length.min(case.input.len())],
        _ => &case.input,
    };
    let pieces = match change {
        Change::Pieces(size) => {
            let reads = case.input.len() / size.max(1);
            vec![in alloc; size; reads.saturating_add(2)]?
        }
        _ => Vec::from_slice(alloc, &case.script.pieces)?,
    };
    let mut failing = Vec::from_slice(alloc, &case.script.failing_reads)?;
    if let Change::FailingRead(call) = change {
        failing.push(call)?;
    }
    Ok(MemSource::new(Bytes::copy(alloc, input)?, pieces, failing))
}

/// The puts that fail, with a change.
fn puts(
    alloc: Global,
    failing: &[FailingPut],
    change: Change,
) -> Result<Vec<FailingPut>, NoMemory> {
    let mut puts = Vec::from_slice(alloc, failing)?;
    if let Change::FailingPut(put) = change {
        puts.push(put)?;
    }
    Ok(puts)
}

/// Stores with these rings, and the volumes and keepers of a case.
fn stores(alloc: Global, case: &Case, rings: &[RingText]) -> Result<MemStores, NoMemory>
    ensures { IfOk result (λ stores. (d s : ℕ) → is_out stores.parts d s ≡ false) }
{
    let mut copies = Vec::new(alloc);
    for ring in rings {
        copies.push(RingText {
            name: Bytes::copy(alloc, ring.name.as_slice())?,
            text: Bytes::copy(alloc, ring.text.as_slice())?,
        })?;
    }
    Ok(MemStores::new(
        copies,
        Vec::from_slice(alloc, &case.script.failing_stores)?,
        parts(alloc, &case.script)?,
    ))
}

/// The text of a trail, with the names of the devices of the ring that the words of a case name.
pub fn text_of(
    alloc: Global,
    case: &Case,
    rings: &[RingText],
    trail: &Trail,
) -> Result<Bytes, NoMemory> {
    let devices = devices(alloc, case, rings)?;
    trail_text(alloc, &devices, trail.steps.as_slice())
}

/// The devices of the ring that the second word names, none where it is no ring.
fn devices(alloc: Global, case: &Case, rings: &[RingText]) -> Result<BytesList, NoMemory> {
    let none = BytesList::from(Vec::new(alloc));
    let Some(word) = case.script.words.get(1) else {
        return Ok(none);
    };
    let name = word.as_bytes();
    let Some(found) = rings.iter().find(|ring| ring.name.as_slice() == name) else {
        return Ok(none);
    };
    match sw_ring::read(alloc, found.text.as_slice()) {
        Ok(ring) => Ok(ring.devices.copy(alloc)?),
        Err(_) => Ok(none),
    }
}
