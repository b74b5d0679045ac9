ghost use Rattle.std.specs.Prelude.{◌≡◌, IfOk};
ghost use Rattle.sw_state.specs.Writes.{tag_of};

use crate::content::Content;
use crate::heads::Heads;
use std::alloc::Global;
use sw_outside::NoMemory;
use sw_timestamp::{Tag, Timestamp};

/// What a write does to an object: gives it a content, deletes it, or gives it other metadata.
#[derive(Debug, Drop)]
pub enum Kind {
    Put(Content),
    Del,
    Meta(Heads),
}

impl Kind {
    /// The kind without what it carries.
    pub fn tag(&self) -> Tag
        ensures { result ≡ tag_of self.now }
    {
        match self {
            Kind::Put(_) => Tag::Put,
            Kind::Del => Tag::Del,
            Kind::Meta(_) => Tag::Meta,
        }
    }

    /// A kind that is equal to this one, or [`NoMemory`].
    pub fn copy(&self, alloc: Global) -> Result<Kind, NoMemory>
        ensures { IfOk result (λ copy. copy ≡ self.now) }
    {
        Ok(match self {
            Kind::Put(content) => Kind::Put(content.copy(alloc)?),
            Kind::Del => Kind::Del,
            Kind::Meta(heads) => Kind::Meta(heads.copy(alloc)?),
        })
    }
}

/// A write of a name, at its time.
#[derive(Debug, Drop)]
pub struct Write {
    pub time: Timestamp,
    pub kind: Kind,
}

impl Write {
    /// A write that is equal to this one, or [`NoMemory`].
    pub fn copy(&self, alloc: Global) -> Result<Write, NoMemory>
        ensures { IfOk result (λ copy. copy ≡ self.now) }
    {
        Ok(Write {
            time: self.time,
            kind: self.kind.copy(alloc)?,
        })
    }
}
