ghost use Rattle.std.specs.Prelude.{◌≡◌, true, false, [], Some, None, IfOk, IfErr, OnOk, OnErr, ◌⊎◌};
ghost use Rattle.std.specs.Str.{bytes_eq};
ghost use Rattle.sw_cleanup.specs.Cleaning.{AreListedIn};
ghost use Rattle.sw_diskfile.specs.Picking.{IsPicked};
ghost use Rattle.sw_hashdir.specs.Places.{dir_text, is_place};
ghost use Rattle.sw_hashdir.specs.Steps.{IsHashed, IsOurs};
ghost use Rattle.sw_object_steps.specs.Outlines.{picked_outline};
ghost use Rattle.sw_hashdir.specs.Readings.{IfDamaged, IsDamagedAt, IsSecondOf, IsSecondRead, OnFailedRead, UnlessFailedRead, expiry_file};
ghost use Rattle.sw_journal.specs.Settling.{SettlesFirst};
ghost use Rattle.sw_objdir.specs.Calling.{reads_of};
ghost use Rattle.sw_objdir.specs.Directories.{IsDir, held, is_told};
ghost use Rattle.sw_objdir.specs.Planning.{IsPlanned};
ghost use Rattle.sw_objdir.specs.Stepping.{IsStep, LooksAt, TellsOthers};
ghost use Rattle.sw_objdir.specs.Writing.{Called};
ghost use Rattle.sw_outside.specs.Counts.{raised};
ghost use Rattle.sw_object_steps.specs.Journals.{written};
ghost use Rattle.sw_object_steps.specs.Outlines.{outline_of, standing_expiry};
ghost use Rattle.sw_object_steps.specs.Recorded.{is_write};
ghost use Rattle.sw_object_steps.specs.Steps.{asks_expiry, is_entered};
ghost use Rattle.sw_object_steps.specs.declared.outline.Outline.{Outline};
ghost use Rattle.sw_volume.specs.Tree.{contents};
ghost use Rattle.sw_volume.specs.Volume.{HasCause, raised_by};

use crate::obj_dir::ObjDir;
use crate::telling::{doubt_ready, tell};
use std::alloc::Global;
use sw_hashdir::{ReadFault, Seen, dir_of, look, read_expiry};
use sw_hashpath::Name;
use sw_object_steps::{Answer, Brief, Change, Outline, refusal};
use sw_volume::{Volume, VolumeError};

/// What a write that nothing refuses found: the directory of its name, and what stands there.
#[derive(Drop)]
pub(crate) struct Plan {
    pub(crate) dir: Vec<u8>,
    pub(crate) seen: Seen,
}

impl<V: Volume + Drop> ObjDir<V> {
    /// Makes a step that may change what stands under the name. Its hash has to be that of its path under the ring's secrets.
    ///
    /// A write lists the name's directory, and settles the name's doubt by it. A deletion that asks for the second of expiry reads the one file that
    /// tells it. What then stands refuses the step; or a limit of the journal does; or its write's file is put, and what it makes obsolete is
    /// unlinked, in byte order of the names. An unlink that fails changes no answer.
    ///
    /// A put or a deletion files a record that the name's container has to be told of it, before its own file is put. Where a change of that very
    /// record is in doubt its file is read first, which settles the doubt.
    ///
    /// [`Answer::Damaged`] comes only where a file that it read is no file of this name, or no record of its key. [`Answer::Failed`] comes only where
    /// a call of the volume other than an unlink failed: after the listing or a read nothing was done; after the put of the record that is in doubt,
    /// and nothing came of the write; after the put of the file the record is filed, and the write is in doubt. [`Answer::NoMemory`] leaves all files
    /// as they are, or files the record alone.
    ///
    /// Whatever it answers, it adds to `settled` what a trail shows of the entries that it makes, but for that of the write itself.
    pub fn change(
        &mut self,
        alloc: Global,
        name: &Name,
        change: Change,
        settled: &mut Vec<Brief>,
    ) -> Answer
        requires hashed { IsHashed self.old.secrets name.now }
        requires writes { is_write change ≡ true }
        ensures made { IsStep V.tells V.holds V.faults self.old name.now change result self.new }
        ensures called { Called V.tells V.holds V.faults V.calls V.lists self.old name.now change result self.new }
        ensures briefs { TellsOthers result self.old.journal.entries self.new.journal.entries settled.old.items settled.new.items }
    {
        let Ok(brief) = doubt_ready(alloc, self.journal.doubted(&name.hash), settled) else {
            return Answer::NoMemory;
        };
        let front = self.front();
        let decided = self.decide(alloc, name, &change);
        tell(brief, self.front() > front, settled);
        match decided {
            Ok(plan) => self.write(alloc, name, &plan, change, settled),
            Err(answer) => answer,
        }
    }

    /// What a write found where nothing that stands refuses it, and else its answer.
    fn decide(&mut self, alloc: Global, name: &Name, change: &Change) -> Result<Plan, Answer>
        requires hashed { IsHashed self.old.secrets name.now }
        requires writes { is_write change.now ≡ true }
        ensures planned { IfOk result (λ plan. IsPlanned V.tells V.holds V.faults V.calls V.lists self.old name.now change.now plan self.new) }
        ensures made { IfErr result (λ answer. IsStep V.tells V.holds V.faults self.old name.now change.now answer self.new) }
        ensures called { IfErr result (λ answer. Called V.tells V.holds V.faults V.calls V.lists self.old name.now change.now answer self.new) }
        ensures dir { IsDir V.tells V.holds V.faults self.new }
        ensures unmade { IfErr result (λ answer. is_entered answer ≡ false) }
        ensures settles { (self.new.journal ≡ self.old.journal)
            ⊎ ((outline : Outline) × SettlesFirst name.now.hash outline self.old.journal self.new.journal) }
    {
        let Ok(dir) = dir_of(alloc, &name.hash, self.power) else {
            return Err(Answer::NoMemory);
        };
        let seen = match self.list(alloc, &name.hash, &dir) {
            Ok(seen) => seen,
            Err(VolumeError::Failed) => return Err(Answer::Failed),
            Err(VolumeError::NoMemory) => return Err(Answer::NoMemory),
        };
        let expiry = match self.expiry(alloc, name, &dir, &seen, change) {
            Ok(expiry) => expiry,
            Err(ReadFault::Damaged(bad)) => return Err(Answer::Damaged(bad)),
            Err(ReadFault::Failed) => return Err(Answer::Failed),
            Err(ReadFault::NoMemory) => return Err(Answer::NoMemory),
        };
        if let Some(refused) = refusal(&seen.outline, expiry, change) {
            return Err(refused);
        }
        Ok(Plan { dir, seen })
    }

    /// Lists the directory of a hash, and settles its doubt by it.
    pub(crate) fn list(
        &mut self,
        alloc: Global,
        hash: &[u8; 16],
        dir: &[u8],
    ) -> Result<Seen, VolumeError>
        requires place { is_place self.old.power hash.now ≡ true }
        requires dir { dir.now ≡ dir_text self.old.power hash.now }
        ensures dir { IsDir V.tells V.holds V.faults self.new }
        ensures looks { LooksAt V.tells V.holds V.faults (λ key. bytes_eq key hash.now) self.old self.new }
        ensures settled { OnOk result (written hash.now self.new.journal.doubts ≡ []) }
        ensures settles { IfOk result (λ seen. SettlesFirst hash.now seen.outline self.old.journal self.new.journal) }
        ensures unsettled { OnErr result (self.new.journal ≡ self.old.journal) }
        ensures names { IfOk result (λ seen. V.tells self.old.volume ≡ true → AreListedIn (contents (V.holds self.old.volume)) dir.now seen.names.items) }
        ensures picked { IfOk result (λ seen. IsPicked seen.names.items seen.picked) }
        ensures shape { IfOk result (λ seen. seen.outline ≡ picked_outline seen.picked) }
        ensures outline { IfOk result (λ seen. is_told V.tells V.holds V.faults self.old ≡ true → seen.outline
            ≡ outline_of (held V.tells V.holds V.faults self.old hash.now)) }
        ensures cause { HasCause (V.faults self.old.volume) (V.faults self.new.volume) result }
        ensures calls { V.calls self.new.volume ≡ raised (V.calls self.old.volume) }
        ensures lists { V.lists self.new.volume ≡ raised (V.lists self.old.volume) }
    {
        let seen = look(alloc, &mut self.volume, dir)?;
        self.journal.settle(hash, &seen.outline);
        Ok(seen)
    }

    /// The second of expiry of what stands, where the step asks for it: the one file that tells it is read. It has been listed.
    fn expiry(
        &mut self,
        alloc: Global,
        name: &Name,
        dir: &[u8],
        seen: &Seen,
        change: &Change,
    ) -> Result<Option<u64>, ReadFault>
        requires ours { IsOurs self.old.secrets self.old.power name.now }
        requires dir { dir.now ≡ dir_text self.old.power name.now.hash }
        requires names { V.tells self.old.volume ≡ true → AreListedIn (contents (V.holds self.old.volume)) dir.now seen.now.names.items }
        requires picked { IsPicked seen.now.names.items seen.now.picked }
        requires shape { seen.now.outline ≡ picked_outline seen.now.picked }
        ensures looks { LooksAt V.tells V.holds V.faults (λ key. bytes_eq key name.now.hash) self.old self.new }
        ensures journal { self.new.journal ≡ self.old.journal }
        ensures second { IfOk result (λ expiry. is_told V.tells V.holds V.faults self.old ≡ true → asks_expiry seen.now.outline change.now ≡ true
            → expiry ≡ standing_expiry (held V.tells V.holds V.faults self.old name.now.hash)) }
        ensures said { IfOk result (λ expiry. IsSecondOf (expiry_file seen.now.picked) expiry) }
        ensures read { IfOk result (λ expiry. V.tells self.old.volume ≡ true → asks_expiry seen.now.outline change.now ≡ true
            → IsSecondRead self.old.secrets name.now.hash (V.holds self.old.volume) dir.now seen.now.picked expiry) }
        ensures damage { IfDamaged result (λ bad. V.tells self.old.volume ≡ true
            → IsDamagedAt self.old.secrets name.now.hash (V.holds self.old.volume) dir.now (expiry_file seen.now.picked) bad) }
        ensures damaged { IfDamaged result (λ bad. is_told V.tells V.holds V.faults self.old ≡ false) }
        ensures asked { OnErr result (reads_of seen.now.picked change.now ≡ 1) }
        ensures failed { OnFailedRead result (V.faults self.new.volume ≡ raised (V.faults self.old.volume)) }
        ensures kept { UnlessFailedRead result (V.faults self.new.volume ≡ V.faults self.old.volume) }
        ensures calls { V.calls self.new.volume ≡ raised_by (reads_of seen.now.picked change.now) (V.calls self.old.volume) }
        ensures lists { V.lists self.new.volume ≡ V.lists self.old.volume }
    {
        if !asks_expiry(&seen.outline, change) {
            return Ok(None);
        }
        read_expiry(
            alloc,
            &mut self.volume,
            &self.secrets,
            &name.hash,
            dir,
            &seen.picked,
        )
    }
}

/// Whether the step needs the second of expiry of what stands.
fn asks_expiry(outline: &Outline, change: &Change) -> bool
    ensures { result ≡ asks_expiry outline.now change.now }
{
    match change {
        Change::Delete {
            time,
            if_delete_at: Some(_),
        } => match outline.standing_time() {
            Some(standing) => standing < *time,
            None => false,
        },
        _ => false,
    }
}
