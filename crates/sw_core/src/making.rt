//! A step at one lock, with its line.

ghost use Rattle.std.specs.Prelude.{◌≡◌, ◌<◌, ◌≤◌, ◌==◌, ◌^◌, ◌&&◌, true, false, IfOk};
ghost use Rattle.std.specs.Str.{bytes_eq};
ghost use Rattle.sw_core.specs.Lines.{briefs_in, doubt_in, settled_briefs};
ghost use Rattle.sw_core.specs.Making.{IsChangedIn, IsGotIn, IsPartIn, IsRecordsIn};
ghost use Rattle.sw_core.specs.Worlds.{stripe_in};
ghost use Rattle.sw_hashdir.specs.Steps.{IsHashed, is_hashed};
ghost use Rattle.sw_hashpath.specs.HashParts.{partition_of, suffix_of};
ghost use Rattle.sw_object_steps.specs.Parts.{AreHashes, AreLines, IsFile, IsOfPart};
ghost use Rattle.sw_object_steps.specs.Recorded.{is_write};
ghost use Rattle.sw_object_steps.specs.BaseRows.{IsBaseFor};
ghost use Rattle.sw_peer.specs.declared.part_read.PartRead.TheVariants.{Base, Files, Hashes, Write};
ghost use Rattle.sw_journal.specs.Entries.{first_in};

use crate::slot::Slot;
use std::alloc::Global;
use sw_diskfile::FileName;
use sw_hashpath::{Name, partition};
use sw_objdir::ObjDir;
use sw_object_steps::{Answer, Brief, Change, ChangeSeen, DirFault, Got, Stored};
use sw_outside::NoMemory;
use sw_peer::{Event, KeptLine, Line, Link, PartRead, Seen};
use sw_pending::Filed;
use sw_rows::Row;
use sw_suffix::{DirLine, SuffixHash};
use sw_volume::Volume;

/// What a trail prints of the doubt of a hash: a list of one, where the lock has one.
pub(crate) fn doubted_in<V: Volume + Drop>(
    alloc: Global,
    place: &Slot<V>,
    hash: &[u8; 16],
) -> Result<Vec<Brief>, NoMemory>
    ensures { IfOk result (λ briefs. briefs.items ≡ doubt_in place.now hash.now) }
{
    let mut briefs = Vec::new(alloc);
    let Slot::Open(dir) = place else {
        return Ok(briefs);
    };
    if let Some(entry) = dir.doubted(hash) {
        briefs.push(entry.brief(alloc)?)?;
    }
    Ok(briefs)
}

/// Makes a step that may change the name, and its line.
pub(crate) fn change_in<V: Volume + Drop>(
    alloc: Global,
    dir: &mut ObjDir<V>,
    link: Link,
    device: u8,
    name: &Name,
    line_name: Name,
    change: Change,
) -> (Answer, KeptLine)
    requires hashed { IsHashed dir.old.secrets name.now }
    requires named { line_name ≡ name.now }
    ensures { IsChangedIn V.tells V.holds V.faults dir.old link device name.now change result.0 dir.new result.1 }
{
    if change.is_write() {
        made_in(alloc, dir, link, device, name, line_name, change)
    } else {
        record_in(alloc, dir, link, device, name, line_name, &change)
    }
}

/// Makes a write. Its line tells all entries that it added but the write's own, which the answer tells.
fn made_in<V: Volume + Drop>(
    alloc: Global,
    dir: &mut ObjDir<V>,
    link: Link,
    device: u8,
    name: &Name,
    line_name: Name,
    change: Change,
) -> (Answer, KeptLine)
    requires hashed { IsHashed dir.old.secrets name.now }
    requires named { line_name ≡ name.now }
    requires writes { is_write change ≡ true }
    ensures { IsChangedIn V.tells V.holds V.faults dir.old link device name.now change result.0 dir.new result.1 }
{
    let from = dir.front();
    let seen = ChangeSeen::of(&change);
    let mut settled = Vec::new(alloc);
    let answer = dir.change(alloc, name, change, &mut settled);
    let added = dir.added_since(from);
    let told = answer;
    let line = Line {
        device,
        link,
        event: Event::Changed(line_name, seen, told),
        added,
    };
    let kept = KeptLine::new(line, settled);
    (answer, kept)
}

/// Makes a step at a record. Its line tells all entries that it added.
fn record_in<V: Volume + Drop>(
    alloc: Global,
    dir: &mut ObjDir<V>,
    link: Link,
    device: u8,
    name: &Name,
    line_name: Name,
    change: &Change,
) -> (Answer, KeptLine)
    requires hashed { IsHashed dir.old.secrets name.now }
    requires named { line_name ≡ name.now }
    requires records { is_write change.now ≡ false }
    ensures { IsChangedIn V.tells V.holds V.faults dir.old link device name.now change.now result.0 dir.new result.1 }
{
    let from = dir.front();
    let asked = ChangeSeen::of(change);
    let mut settled = Vec::new(alloc);
    let answer = dir.record(alloc, name, change, &mut settled);
    let added = dir.added_since(from);
    let told = answer;
    let line = Line {
        device,
        link,
        event: Event::Changed(line_name, asked, told),
        added,
    };
    let kept = KeptLine::new(line, settled);
    (answer, kept)
}

/// Reads the name, and makes the line of that.
pub(crate) fn get_in<V: Volume + Drop>(
    alloc: Global,
    dir: &mut ObjDir<V>,
    link: Link,
    device: u8,
    name: &Name,
    doubted: Vec<Brief>,
) -> (Got, KeptLine)
    requires hashed { IsHashed dir.old.secrets name.now }
    requires doubted { doubted.items ≡ briefs_in (first_in name.now.hash dir.old.journal.doubts) }
    ensures { IsGotIn V.tells V.holds V.faults dir.old link device name.now result.0 dir.new result.1 }
{
    let from = dir.front();
    let got = dir.get(alloc, name);
    let settled = settled_of(doubted, dir.front() > from);
    let added = dir.added_since(from);
    let line = Line {
        device,
        link,
        event: Event::Read(Seen::of(name), Seen::of(&got)),
        added,
    };
    (got, KeptLine::new(line, settled))
}

/// Reads what is compared of a partition, and makes the line of that.
pub(crate) fn hashes_in<V: Volume + Drop>(
    alloc: Global,
    dir: &mut ObjDir<V>,
    link: Link,
    device: u8,
    part: u32,
) -> (Result<Vec<SuffixHash>, DirFault>, KeptLine)
    requires part { part < 2 ^ dir.old.power }
    ensures { IsPartIn V.tells V.holds V.faults dir.old link device (λ hash. partition_of hash dir.old.power == part) false
        (λ told s got. AreHashes dir.old.power part told s got.items) (λ got. Hashes part got) result.0 dir.new result.1 }
{
    let from = dir.front();
    let mut settled = Vec::new(alloc);
    let got = dir.hashes(alloc, part, &mut settled);
    let line = Line {
        device,
        link,
        event: Event::ReadPart(PartRead::Hashes(part, Seen::of(&got))),
        added: dir.added_since(from),
    };
    (got, KeptLine::new(line, settled))
}

/// Reads the files of a suffix of a partition, and makes the line of that.
pub(crate) fn files_in<V: Volume + Drop>(
    alloc: Global,
    dir: &mut ObjDir<V>,
    link: Link,
    device: u8,
    part: u32,
    suffix: u16,
) -> (Result<Vec<DirLine>, DirFault>, KeptLine)
    requires part { part < 2 ^ dir.old.power }
    requires suffix { suffix < 4096 }
    ensures { IsPartIn V.tells V.holds V.faults dir.old link device
        (λ hash. (partition_of hash dir.old.power == part) && (suffix_of hash == suffix)) false
        (λ told s got. AreLines dir.old.power part suffix told s got.items) (λ got. Files part suffix got) result.0 dir.new result.1 }
{
    let from = dir.front();
    let mut settled = Vec::new(alloc);
    let got = dir.files_of(alloc, part, suffix, &mut settled);
    let line = Line {
        device,
        link,
        event: Event::ReadPart(PartRead::Files(part, suffix, Seen::of(&got))),
        added: dir.added_since(from),
    };
    (got, KeptLine::new(line, settled))
}

/// Reads a file of a hash of a partition, and makes the line of that.
pub(crate) fn write_in<V: Volume + Drop>(
    alloc: Global,
    dir: &mut ObjDir<V>,
    link: Link,
    device: u8,
    part: u32,
    hash: &[u8; 16],
    file: &FileName,
) -> (Result<Option<Stored>, DirFault>, KeptLine)
    requires within { IsOfPart dir.old.power part hash.now }
    ensures { IsPartIn V.tells V.holds V.faults dir.old link device (bytes_eq hash.now) true
        (λ told s got. IsFile (is_hashed dir.old.secrets) hash.now file.now told s got) (λ got. Write part hash.now file.now got) result.0 dir.new result.1 }
{
    let from = dir.front();
    let mut settled = Vec::new(alloc);
    let got = dir.read_write(alloc, part, hash, file, &mut settled);
    let line = Line {
        device,
        link,
        event: Event::ReadPart(PartRead::Write(part, *hash, *file, Seen::of(&got))),
        added: dir.added_since(from),
    };
    (got, KeptLine::new(line, settled))
}

/// Reads the records that are filed under the hashes of a stripe, and makes the line of that. Those of other stripes that the volume has are left out.
pub(crate) fn records_in<V: Volume + Drop>(
    alloc: Global,
    dir: &mut ObjDir<V>,
    link: Link,
    device: u8,
    lock_bits: u8,
    power: u8,
    stripe: u8,
) -> (Result<Vec<Filed>, DirFault>, KeptLine)
    requires few { lock_bits ≤ 4 }
    requires fine { lock_bits ≤ power }
    requires least { 1 ≤ power }
    requires greatest { power ≤ 32 }
    ensures { IsRecordsIn V.tells V.holds V.faults dir.old link device (λ hash. stripe_in lock_bits power hash == stripe) stripe result.0 dir.new result.1 }
{
    let from = dir.front();
    let mut settled = Vec::new(alloc);
    let mut got = dir.records(alloc, &mut settled);
    if let Ok(records) = &mut got {
        records.retain(|filed| stripe_in(&filed.name.hash, lock_bits, power) == stripe);
    }
    let line = Line {
        device,
        link,
        event: Event::ReadPart(PartRead::Records(stripe, Seen::of(&got))),
        added: dir.added_since(from),
    };
    (got, KeptLine::new(line, settled))
}

/// The stripe of a hash: that of its partition.
fn stripe_in(hash: &[u8; 16], lock_bits: u8, power: u8) -> u8
    requires few { lock_bits ≤ 4 }
    requires fine { lock_bits ≤ power }
    requires least { 1 ≤ power }
    requires greatest { power ≤ 32 }
    ensures { result ≡ stripe_in lock_bits power hash.now }
{
    (u64::from(partition(hash, power)) >> (power - lock_bits)) as u8
}

/// Reads the row that tells what stands under the name of a record, and makes the line of that.
pub(crate) fn base_in<V: Volume + Drop>(
    alloc: Global,
    dir: &mut ObjDir<V>,
    link: Link,
    device: u8,
    filed: &Filed,
) -> (Result<Option<Row>, DirFault>, KeptLine)
    requires hashed { IsHashed dir.old.secrets filed.now.name }
    ensures { IsPartIn V.tells V.holds V.faults dir.old link device (bytes_eq filed.now.name.hash) true
        (λ told s row. told ≡ true → IsBaseFor filed.now (s filed.now.name.hash) row) (λ row. Base filed.now row) result.0 dir.new result.1 }
{
    let from = dir.front();
    let mut settled = Vec::new(alloc);
    let got = dir.base_for(alloc, filed, &mut settled);
    let line = Line {
        device,
        link,
        event: Event::ReadPart(PartRead::Base(Seen::of(filed), Seen::of(&got))),
        added: dir.added_since(from),
    };
    (got, KeptLine::new(line, settled))
}

/// The doubt, where an entry was added: then it was settled, and its write had been made.
fn settled_of(doubted: Vec<Brief>, added: bool) -> Vec<Brief>
    ensures { result.items ≡ settled_briefs doubted.items added }
{
    let mut settled = doubted;
    if !added {
        settled.clear();
    }
    settled
}
