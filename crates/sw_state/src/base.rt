ghost use Rattle.std.specs.Prelude.{◌≡◌, IfOk};
ghost use Rattle.sw_state.specs.Bases.{base_tag, base_time, is_deletion};

use crate::content::Content;
use std::alloc::Global;
use sw_outside::NoMemory;
use sw_timestamp::{Tag, Timestamp};

/// What decides whether a name has an object: the put that gave it, or its deletion.
#[derive(Debug, Drop)]
pub enum Base {
    Put(Timestamp, Content),
    Del(Timestamp),
}

impl Base {
    pub fn time(&self) -> Timestamp
        ensures { result ≡ base_time self.now }
    {
        match self {
            Base::Put(time, _) => *time,
            Base::Del(time) => *time,
        }
    }

    pub fn tag(&self) -> Tag
        ensures { result ≡ base_tag self.now }
    {
        match self {
            Base::Put(_, _) => Tag::Put,
            Base::Del(_) => Tag::Del,
        }
    }

    pub fn is_deletion(&self) -> bool
        ensures { result ≡ is_deletion self.now }
    {
        match self {
            Base::Put(_, _) => false,
            Base::Del(_) => true,
        }
    }

    /// A base that is equal to this one, or [`NoMemory`].
    pub fn copy(&self, alloc: Global) -> Result<Base, NoMemory>
        ensures { IfOk result (λ copy. copy ≡ self.now) }
    {
        Ok(match self {
            Base::Put(time, content) => Base::Put(*time, content.copy(alloc)?),
            Base::Del(time) => Base::Del(*time),
        })
    }
}
