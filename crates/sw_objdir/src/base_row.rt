ghost use Rattle.std.specs.Prelude.{◌≡◌, true, false, IfOk, Some};
ghost use Rattle.std.specs.Str.{bytes_eq, is_utf8 as is_utf8_text};
ghost use Rattle.sw_diskfile.specs.Picking.{is_base};
ghost use Rattle.sw_hashdir.specs.Places.{dir_text, is_place};
ghost use Rattle.sw_hashdir.specs.Readings.{IsDamagedAt};
ghost use Rattle.sw_hashdir.specs.Steps.{IsHashed};
ghost use Rattle.sw_objdir.specs.BaseRows.{BaseCalled, IsRowAt, IsRowBy, IsRowIn, IsRowRead, OnReadFault, base_to_tell, row_reads};
ghost use Rattle.sw_objdir.specs.Comparing.{CountsFault, IfDamagedPart, Looks};
ghost use Rattle.sw_objdir.specs.Directories.{IsDir, held, is_told};
ghost use Rattle.sw_objdir.specs.Stepping.{AddsBriefs, IsPartStep, LooksAt};
ghost use Rattle.sw_object_steps.specs.BaseRows.{IsBaseFor, IsRowOf};
ghost use Rattle.sw_state.specs.Bases.{base_at};
ghost use Rattle.sw_state.specs.declared.base.Base.TheVariants as bases;
ghost use Rattle.sw_timestamp.specs.declared.tag.Tag.TheVariants as tags;

use crate::comparing::{fault_of_read, fault_of_volume};
use crate::obj_dir::ObjDir;
use crate::telling::{doubt_ready, tell};
use md5::{Digest, Md5};
use std::alloc::Global;
use sw_diskfile::{FileName, Picked};
use sw_hashdir::{dir_of, read_stored};
use sw_object_steps::{Brief, DirFault, Stored};
use sw_outside::{Bytes, NoMemory};
use sw_pending::Filed;
use sw_rows::Row;
use sw_state::{Content, Kind, Write};
use sw_timestamp::{Tag, Timestamp};
use sw_volume::Volume;

impl<V: Volume + Drop> ObjDir<V> {
    /// The row that tells of what now stands under the record's name: `None` exactly where nothing stands there that is as late as the record. The
    /// name's hash has to be that of its path under the ring's secrets.
    ///
    /// It lists the name's directory, and settles the doubt of a write of its hash by it; it adds to `settled` what a trail shows of the entry that this
    /// makes, whatever it then answers. Where the base isn't earlier than the record and is data, it reads its file. No file changes.
    ///
    /// [`DirFault::Damaged`] comes only where the file that it read isn't that of a write of this time and kind, of a path of this hash, and
    /// [`DirFault::Failed`] only where a call of the volume failed, which is counted once.
    pub fn base_for(
        &mut self,
        alloc: Global,
        filed: &Filed,
        settled: &mut Vec<Brief>,
    ) -> Result<Option<Row>, DirFault>
        requires hashed { IsHashed self.old.secrets filed.now.name }
        ensures read { IsPartStep V.tells V.holds V.faults self.old (bytes_eq filed.now.name.hash) true
            (λ told s got. told ≡ true → IsBaseFor filed.now (s filed.now.name.hash) got) result self.new }
        ensures briefs { AddsBriefs self.old.journal.entries self.new.journal.entries settled.old.items settled.new.items }
        ensures cause { CountsFault (V.faults self.old.volume) (V.faults self.new.volume) result }
        ensures calls { BaseCalled V.tells V.holds V.faults V.calls V.lists self.old filed.now result self.new }
    {
        let Ok(brief) = doubt_ready(alloc, self.journal.doubted(&filed.name.hash), settled) else {
            return Err(DirFault::NoMemory);
        };
        let front = self.front();
        let row = self.look_base(alloc, filed);
        tell(brief, self.front() > front, settled);
        row
    }

    /// The same, of which no trail is told.
    fn look_base(&mut self, alloc: Global, filed: &Filed) -> Result<Option<Row>, DirFault>
        requires hashed { IsHashed self.old.secrets filed.now.name }
        ensures read { IsPartStep V.tells V.holds V.faults self.old (bytes_eq filed.now.name.hash) true
            (λ told s got. told ≡ true → IsBaseFor filed.now (s filed.now.name.hash) got) result self.new }
        ensures cause { CountsFault (V.faults self.old.volume) (V.faults self.new.volume) result }
        ensures calls { BaseCalled V.tells V.holds V.faults V.calls V.lists self.old filed.now result self.new }
    {
        let Ok(dir) = dir_of(alloc, &filed.name.hash, self.power) else {
            return Err(DirFault::NoMemory);
        };
        let seen = match self.list(alloc, &filed.name.hash, &dir) {
            Ok(seen) => seen,
            Err(error) => return Err(fault_of_volume(error)),
        };
        match base_to_tell(&seen.picked, filed.time) {
            Some(file) => self.row_at(alloc, filed, &dir, &file),
            None => Ok(None),
        }
    }

    /// The row of what stands by the file of its base. A tombstone's name tells all, and isn't read.
    fn row_at(
        &mut self,
        alloc: Global,
        filed: &Filed,
        dir: &[u8],
        file: &FileName,
    ) -> Result<Option<Row>, DirFault>
        requires hashed { IsHashed self.old.secrets filed.now.name }
        requires place { is_place self.old.power filed.now.name.hash ≡ true }
        requires dir { dir.now ≡ dir_text self.old.power filed.now.name.hash }
        requires base { is_base file.now ≡ true }
        ensures dir { IsDir V.tells V.holds V.faults self.new }
        ensures looks { LooksAt V.tells V.holds V.faults (λ key. bytes_eq key filed.now.name.hash) self.old self.new }
        ensures journal { self.new.journal ≡ self.old.journal }
        ensures row { IfOk result (IsRowBy filed.now.name.object file.now (is_told V.tells V.holds V.faults self.old)
            (held V.tells V.holds V.faults self.old filed.now.name.hash)) }
        ensures shown { IfOk result (λ got. V.tells self.old.volume ≡ true
            → IsRowIn self.old.secrets filed.now.name.hash (V.holds self.old.volume) dir.now filed.now.name.object file.now got) }
        ensures damaged { IfDamagedPart result (λ bad. is_told V.tells V.holds V.faults self.old ≡ false) }
        ensures damage { IfDamagedPart result (λ bad. V.tells self.old.volume ≡ true
            → IsDamagedAt self.old.secrets filed.now.name.hash (V.holds self.old.volume) dir.now (Some file.now) bad) }
        ensures asked { OnReadFault result (row_reads (Some file.now) ≡ 1) }
        ensures cause { CountsFault (V.faults self.old.volume) (V.faults self.new.volume) result }
        ensures calls { Looks V.calls V.lists 0 (row_reads (Some file.now)) self.old self.new }
    {
        if file.tag == Tag::Put {
            return self.read_base(alloc, filed, dir, file);
        }
        // Where memory runs out the directory is as it was: what it keeps has to be known here.
        let _ = &self.volume;
        match tombstone_row(alloc, &filed.name.object, file.time) {
            Ok(row) => Ok(Some(row)),
            Err(NoMemory) => Err(DirFault::NoMemory),
        }
    }

    /// The same where that is data.
    fn read_base(
        &mut self,
        alloc: Global,
        filed: &Filed,
        dir: &[u8],
        file: &FileName,
    ) -> Result<Option<Row>, DirFault>
        requires hashed { IsHashed self.old.secrets filed.now.name }
        requires place { is_place self.old.power filed.now.name.hash ≡ true }
        requires dir { dir.now ≡ dir_text self.old.power filed.now.name.hash }
        requires data { file.now.tag ≡ tags.Put }
        ensures dir { IsDir V.tells V.holds V.faults self.new }
        ensures looks { LooksAt V.tells V.holds V.faults (λ key. bytes_eq key filed.now.name.hash) self.old self.new }
        ensures journal { self.new.journal ≡ self.old.journal }
        ensures row { IfOk result (IsRowBy filed.now.name.object file.now (is_told V.tells V.holds V.faults self.old)
            (held V.tells V.holds V.faults self.old filed.now.name.hash)) }
        ensures shown { IfOk result (λ got. V.tells self.old.volume ≡ true
            → IsRowIn self.old.secrets filed.now.name.hash (V.holds self.old.volume) dir.now filed.now.name.object file.now got) }
        ensures damaged { IfDamagedPart result (λ bad. is_told V.tells V.holds V.faults self.old ≡ false) }
        ensures damage { IfDamagedPart result (λ bad. V.tells self.old.volume ≡ true
            → IsDamagedAt self.old.secrets filed.now.name.hash (V.holds self.old.volume) dir.now (Some file.now) bad) }
        ensures cause { CountsFault (V.faults self.old.volume) (V.faults self.new.volume) result }
        ensures calls { Looks V.calls V.lists 0 1 self.old self.new }
    {
        // A time is no greater than the greatest that there is: the contract of the call rests on it.
        let _ = file.time.units();
        let hash = &filed.name.hash;
        let found = match read_stored(alloc, &mut self.volume, &self.secrets, hash, dir, file) {
            Ok(found) => found,
            Err(fault) => return Err(fault_of_read(fault)),
        };
        match row_found(alloc, &filed.name.object, found) {
            Ok(row) => Ok(row),
            Err(NoMemory) => Err(DirFault::NoMemory),
        }
    }
}

/// The file of the base that was picked, where it isn't earlier than this time.
fn base_to_tell(picked: &Picked, time: Timestamp) -> Option<FileName>
    ensures { result ≡ base_to_tell picked.now.base time }
{
    let base = picked.base?;
    if base.time < time { None } else { Some(base) }
}

/// The row of a write that was read, where one was.
fn row_found(alloc: Global, object: &Bytes, found: Option<Stored>) -> Result<Option<Row>, NoMemory>
    requires { is_utf8_text object.now ≡ true }
    ensures { IfOk result (IsRowRead object.now found) }
{
    match found {
        Some(stored) => row_of_write(alloc, object, stored.write),
        None => Ok(None),
    }
}

/// The row of a write: none of one that is metadata.
fn row_of_write(alloc: Global, object: &Bytes, write: Write) -> Result<Option<Row>, NoMemory>
    requires { is_utf8_text object.now ≡ true }
    ensures { IfOk result (IsRowAt object.now (base_at write.time write.kind)) }
{
    let Write { time, kind } = write;
    match kind {
        Kind::Put(content) => Ok(Some(data_row(alloc, object, time, content)?)),
        Kind::Del => Ok(Some(tombstone_row(alloc, object, time)?)),
        Kind::Meta(_) => Ok(None),
    }
}

/// The row of data.
fn data_row(
    alloc: Global,
    object: &Bytes,
    time: Timestamp,
    content: Content,
) -> Result<Row, NoMemory>
    requires { is_utf8_text object.now ≡ true }
    ensures { IfOk result (IsRowOf object.now (bases.Put time content)) }
{
    let name = Bytes::copy(alloc, object.as_slice())?;
    let size = content.body.as_slice().len() as u64;
    Ok(Row {
        name,
        created_at: time,
        size,
        content_type: content.content_type,
        etag: content.etag,
        deleted: false,
    })
}

/// The row of a tombstone.
fn tombstone_row(alloc: Global, object: &Bytes, time: Timestamp) -> Result<Row, NoMemory>
    requires { is_utf8_text object.now ≡ true }
    ensures { IfOk result (IsRowOf object.now (bases.Del time)) }
{
    let name = Bytes::copy(alloc, object.as_slice())?;
    let content_type = Bytes::copy(alloc, "text/plain".as_bytes())?;
    Ok(Row {
        name,
        created_at: time,
        size: 0,
        content_type,
        etag: Md5::digest(b""),
        deleted: true,
    })
}
