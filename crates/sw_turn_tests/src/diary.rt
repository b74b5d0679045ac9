//! What lies under the lock here.
ghost use Rattle.std.specs.Prelude.{◌≡◌, ◌++◌, ◌∷◌, [], MatchBool};

use std::alloc::Global;
use sw_turn::Booked;

/// Numbers that were written, in order.
#[derive(Drop)]
pub struct Diary {
    pub items: Vec<u64>,
}

impl Booked for Diary {
    type Entry = u64;

    type Opening = ();

    ghost book = { λ d. record { entries = d.items.items; opening = tt; faults = 0 } };

    fn front(&self) -> u64 {
        self.items.len() as u64
    }
}

impl Diary {
    /// An empty one.
    pub fn new(alloc: Global) -> Diary
        ensures { result.items.items ≡ [] }
    {
        Diary {
            items: Vec::new(alloc),
        }
    }

    /// Writes the item, if there is memory. Answers whether it did.
    pub fn write(&mut self, item: u64) -> bool
        ensures { MatchBool result (self.new.items.items ≡ self.old.items.items ++ item ∷ []) (self.new.items.items ≡ self.old.items.items) }
    {
        if self.items.reserve(1).is_err() {
            return false;
        }
        self.items.push_reserved(item);
        true
    }
}
