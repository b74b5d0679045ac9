ghost use Rattle.sw_hashdir.specs.Steps.{IsHashed};
ghost use Rattle.sw_objdir.specs.Stepping.{IsStep, TellsOthers};
ghost use Rattle.sw_objdir.specs.Writing.{Called};
ghost use Rattle.sw_object_steps.specs.declared.change.Change.TheVariants as changes;

use crate::obj_dir::ObjDir;
use std::alloc::Global;
use sw_hashpath::Name;
use sw_object_steps::{Answer, Brief, Change};
use sw_state::{Content, Heads, Write};
use sw_timestamp::Timestamp;
use sw_volume::Volume;

/// The changing steps, each by its own name: [`ObjDir::change`] says what they have in common.
impl<V: Volume + Drop> ObjDir<V> {
    /// Gives the name this content. [`Answer::Exists`] exactly where `none_match` and an object stands; then [`Answer::Conflict`] exactly where
    /// the time isn't later than that of the data or tombstone that stands.
    pub fn put(
        &mut self,
        alloc: Global,
        name: &Name,
        time: Timestamp,
        content: Content,
        none_match: bool,
        settled: &mut Vec<Brief>,
    ) -> Answer
        requires hashed { IsHashed self.old.secrets name.now }
        ensures made { IsStep V.tells V.holds V.faults self.old name.now (changes.Put time content none_match) result self.new }
        ensures called { Called V.tells V.holds V.faults V.calls V.lists self.old name.now (changes.Put time content none_match) result self.new }
        ensures briefs { TellsOthers result self.old.journal.entries self.new.journal.entries settled.old.items settled.new.items }
    {
        self.change(
            alloc,
            name,
            Change::Put {
                time,
                content,
                none_match,
            },
            settled,
        )
    }

    /// Gives the object these heads in place of those that it has. [`Answer::NotFound`] exactly where there is no object, with the tombstone's
    /// time; then [`Answer::Conflict`] exactly where the time isn't later than that of its data and of its metadata.
    pub fn post(
        &mut self,
        alloc: Global,
        name: &Name,
        time: Timestamp,
        heads: Heads,
        settled: &mut Vec<Brief>,
    ) -> Answer
        requires hashed { IsHashed self.old.secrets name.now }
        ensures made { IsStep V.tells V.holds V.faults self.old name.now (changes.Post time heads) result self.new }
        ensures called { Called V.tells V.holds V.faults V.calls V.lists self.old name.now (changes.Post time heads) result self.new }
        ensures briefs { TellsOthers result self.old.journal.entries self.new.journal.entries settled.old.items settled.new.items }
    {
        self.change(alloc, name, Change::Post { time, heads }, settled)
    }

    /// Deletes the name: [`Answer::Done`] where an object stood, and [`Answer::Buried`] where none did. With `if_delete_at`, in seconds since the
    /// epoch, only an object that expires at that second: [`Answer::NotFound`] where nothing stands, then [`Answer::Conflict`], then
    /// [`Answer::Mismatch`] with the second at which it expires.
    pub fn delete(
        &mut self,
        alloc: Global,
        name: &Name,
        time: Timestamp,
        if_delete_at: Option<u64>,
        settled: &mut Vec<Brief>,
    ) -> Answer
        requires hashed { IsHashed self.old.secrets name.now }
        ensures made { IsStep V.tells V.holds V.faults self.old name.now (changes.Delete time if_delete_at) result self.new }
        ensures called { Called V.tells V.holds V.faults V.calls V.lists self.old name.now (changes.Delete time if_delete_at) result self.new }
        ensures briefs { TellsOthers result self.old.journal.entries self.new.journal.entries settled.old.items settled.new.items }
    {
        self.change(alloc, name, Change::Delete { time, if_delete_at }, settled)
    }

    /// Takes over a write that another device has. [`Answer::Conflict`] exactly where it would change nothing. Metadata is taken over also
    /// where there is no object.
    pub fn receive(
        &mut self,
        alloc: Global,
        name: &Name,
        write: Write,
        settled: &mut Vec<Brief>,
    ) -> Answer
        requires hashed { IsHashed self.old.secrets name.now }
        ensures made { IsStep V.tells V.holds V.faults self.old name.now (changes.Receive write) result self.new }
        ensures called { Called V.tells V.holds V.faults V.calls V.lists self.old name.now (changes.Receive write) result self.new }
        ensures briefs { TellsOthers result self.old.journal.entries self.new.journal.entries settled.old.items settled.new.items }
    {
        self.change(alloc, name, Change::Receive { write }, settled)
    }
}
