ghost use Rattle.std.specs.Prelude.{◌≡◌, true, Some, IfOk};
ghost use Rattle.sw_state.specs.DeleteTimes.{is_delete_time};

use crate::head_list::HeadList;
use std::alloc::Global;
use sw_outside::NoMemory;

/// The latest time at which an object can expire, in seconds.
pub const LATEST_DELETE_AT: u64 = 9_999_999_999;

/// The metadata that a client gives an object: its header items, and when it expires.
#[derive(Debug, Drop)]
pub struct Heads {
    /// When the object expires, in seconds since the epoch, at most [`LATEST_DELETE_AT`].
    pub delete_at: Option<u64>,
    pub items: HeadList,
    pub ghost in_range: { is_delete_time delete_at ≡ true },
}

impl Heads {
    /// Whether an object can expire at this time, in seconds: at most [`LATEST_DELETE_AT`].
    pub fn is_delete_time(seconds: u64) -> bool
        ensures { result ≡ is_delete_time (Some seconds) }
    {
        seconds <= LATEST_DELETE_AT
    }

    /// Heads that are equal to these, or [`NoMemory`].
    pub fn copy(&self, alloc: Global) -> Result<Heads, NoMemory>
        ensures { IfOk result (λ copy. copy ≡ self.now) }
    {
        Ok(Heads {
            delete_at: self.delete_at,
            items: self.items.copy(alloc)?,
        })
    }
}
