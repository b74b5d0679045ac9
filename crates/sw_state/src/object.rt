ghost use Rattle.std.specs.Prelude.{◌≡◌, IfOk};
ghost use Rattle.std.specs.Option.{option_copied};
ghost use Rattle.sw_state.specs.States.{effective_heads, object_time};

use crate::base::Base;
use crate::heads::Heads;
use crate::state::State;
use std::alloc::Global;
use sw_outside::NoMemory;
use sw_timestamp::Timestamp;

impl State {
    /// The metadata of the object, where there is one: the meta's, and without a meta the content's.
    pub fn effective_heads(&self) -> Option<&Heads>
        ensures { option_copied result ≡ effective_heads self.now }
    {
        match &self.base {
            Some(Base::Put(_, content)) => match &self.meta {
                Some((_, heads)) => Some(heads),
                None => Some(&content.heads),
            },
            _ => None,
        }
    }

    /// The time of the object, where there is one: the later of its content's and its meta's.
    pub fn object_time(&self) -> Option<Timestamp>
        ensures { result ≡ object_time self.now }
    {
        match &self.base {
            Some(Base::Put(put, _)) => match &self.meta {
                Some((meta, _)) => Some(*meta),
                None => Some(*put),
            },
            _ => None,
        }
    }

    /// A state that is equal to this one, or [`NoMemory`].
    pub fn copy(&self, alloc: Global) -> Result<State, NoMemory>
        ensures { IfOk result (λ copy. copy ≡ self.now) }
    {
        Ok(State {
            base: copy_base(alloc, &self.base)?,
            meta: copy_meta(alloc, &self.meta)?,
        })
    }
}

fn copy_base(alloc: Global, base: &Option<Base>) -> Result<Option<Base>, NoMemory>
    ensures { IfOk result (λ copy. copy ≡ base.now) }
{
    match base {
        Some(base) => Ok(Some(base.copy(alloc)?)),
        None => Ok(None),
    }
}

fn copy_meta(
    alloc: Global,
    meta: &Option<(Timestamp, Heads)>,
) -> Result<Option<(Timestamp, Heads)>, NoMemory>
    ensures { IfOk result (λ copy. copy ≡ meta.now) }
{
    match meta {
        Some((time, heads)) => Ok(Some((*time, heads.copy(alloc)?))),
        None => Ok(None),
    }
}
