ghost use Rattle.std.specs.Prelude.{◌≡◌, Some};
ghost use Rattle.sw_object_steps.specs.Outlines.{file_mark, has_object, is_new_to, outline_of, picked_outline, shown_time, standing_expiry};
ghost use Rattle.sw_object_steps.specs.Outlines.{standing_time, time_with, tombstone_time};
ghost use Rattle.sw_object_steps.specs.declared.outline.Mark.TheVariants.{Object};

use sw_diskfile::{FileName, Picked};
use sw_state::{Base, State};
use sw_timestamp::{Tag, Timestamp};

/// What decides whether a name has an object, without its content: data of this time, or a tombstone.
#[derive(Clone, Copy, Debug, PartialEq, Eq)]
pub enum Mark {
    Object(Timestamp),
    Tombstone(Timestamp),
}

/// What the names of a state's files tell of it: whether it has an object, and the times.
#[derive(Clone, Copy, Debug, PartialEq, Eq)]
pub struct Outline {
    pub base: Option<Mark>,
    pub meta: Option<Timestamp>,
}

impl Mark {
    /// What a file of data or a tombstone tells.
    fn of(file: &FileName) -> Mark
        ensures { result ≡ file_mark file.now }
    {
        if file.tag == Tag::Del {
            Mark::Tombstone(file.time)
        } else {
            Mark::Object(file.time)
        }
    }
}

impl Outline {
    /// The outline of a whole state.
    pub fn of(state: &State) -> Outline
        ensures { result ≡ outline_of state.now }
    {
        Outline {
            base: match &state.base {
                Some(Base::Put(time, _)) => Some(Mark::Object(*time)),
                Some(Base::Del(time)) => Some(Mark::Tombstone(*time)),
                None => None,
            },
            meta: match &state.meta {
                Some((time, _)) => Some(*time),
                None => None,
            },
        }
    }

    /// The outline that the picked files of a directory tell.
    pub fn of_files(picked: &Picked) -> Outline
        ensures { result ≡ picked_outline picked.now }
    {
        Outline {
            base: match &picked.base {
                Some(file) => Some(Mark::of(file)),
                None => None,
            },
            meta: match &picked.meta {
                Some(file) => Some(file.time),
                None => None,
            },
        }
    }

    /// Whether an object stands.
    pub fn has_object(&self) -> bool
        ensures { result ≡ has_object self.now }
    {
        match self.base {
            Some(Mark::Object(_)) => true,
            _ => false,
        }
    }

    /// The time of the tombstone, where one stands.
    pub fn tombstone_time(&self) -> Option<Timestamp>
        ensures { result ≡ tombstone_time self.now }
    {
        match self.base {
            Some(Mark::Tombstone(time)) => Some(time),
            _ => None,
        }
    }

    /// The time of the data or tombstone, where one stands.
    pub fn standing_time(&self) -> Option<Timestamp>
        ensures { result ≡ standing_time self.now }
    {
        match self.base {
            Some(Mark::Object(time)) => Some(time),
            Some(Mark::Tombstone(time)) => Some(time),
            None => None,
        }
    }

    /// The time of the object: the later of its data's and its metadata's.
    pub fn shown_time(&self) -> Option<Timestamp>
        ensures { result ≡ shown_time self.now }
    {
        match self.base {
            Some(Mark::Object(time)) => Some(time_beside(time, self.meta)),
            _ => None,
        }
    }

    /// Whether a write of this time and tag would change the state.
    pub fn adds(&self, time: Timestamp, tag: Tag) -> bool
        ensures { result ≡ is_new_to self.now time tag }
    {
        match tag {
            Tag::Put => match self.base {
                Some(Mark::Object(base)) => base < time,
                Some(Mark::Tombstone(base)) => base < time,
                None => true,
            },
            Tag::Del => match self.base {
                Some(Mark::Object(base)) => base < time || base == time,
                Some(Mark::Tombstone(base)) => base < time,
                None => true,
            },
            Tag::Meta => is_before(self.standing_time(), time) && is_before(self.meta, time),
        }
    }
}

/// The time of data, or a later one of its metadata.
fn time_beside(time: Timestamp, meta: Option<Timestamp>) -> Timestamp
    ensures { Some result ≡ time_with (Some (Object time)) meta }
{
    match meta {
        Some(meta) => { if time < meta { meta } else { time } }
        None => time,
    }
}

/// Whether there is no such time, or an earlier one.
fn is_before(standing: Option<Timestamp>, time: Timestamp) -> bool
    ensures { result ≡ Rattle.sw_object_steps.specs.Outlines.is_before standing time }
{
    match standing {
        Some(standing) => standing < time,
        None => true,
    }
}

/// The second at which the object expires, where it does.
pub fn standing_expiry(state: &State) -> Option<u64>
    ensures { result ≡ standing_expiry state.now }
{
    state.effective_heads()?.delete_at
}
