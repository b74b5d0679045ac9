ghost use Rattle.std.specs.Prelude.{◌≡◌, ◌+◌, ◌<◌, ◌++◌, ◌∷◌, [], length, OnOk, OnErr};

use crate::errors::NoMemory;
use std::alloc::Global;
use std::marker::Model;

/// A list with room for as many items as were promised to it, so that each of these is added without memory.
#[derive(Debug, Drop)]
pub struct Roll<T> {
    items: Vec<T>,
    promised: usize,
}

impl<T> Model for Roll<T> {
    ghost use Rattle.std.specs.Prelude.{◌≤◌, vec_capacity};
    ghost use Rattle.sw_outside.specs.Rolls.{Promised};

    ghost Value = { Promised T };

    ghost view = { λ r. record { items = r.items.items; promised = r.promised } };

    ghost invariant = { λ r. r.promised ≤ vec_capacity r.items };
}

impl<T: Drop> Roll<T> {
    /// An empty list, to which nothing is promised.
    pub fn new(alloc: Global) -> Roll<T>
        ensures { result ≡ record { items = []; promised = 0 } }
    {
        Roll {
            items: Vec::new(alloc),
            promised: 0,
        }
    }

    /// Makes room for one item more. After [`NoMemory`] nothing has changed.
    pub fn promise(&mut self) -> Result<(), NoMemory>
        ensures ok { OnOk result (self.new ≡ record self.old { promised = self.old.promised + 1 }) }
        ensures err { OnErr result (self.new ≡ self.old) }
    {
        let Some(promised) = self.promised.checked_add(1) else {
            return Err(NoMemory);
        };
        self.items
            .reserve(promised.saturating_sub(self.items.len()))?;
        self.promised = promised;
        Ok(())
    }

    /// Adds an item for which there is room.
    pub fn add(&mut self, item: T)
        requires { length self.old.items < self.old.promised }
        ensures { self.new ≡ record self.old { items = self.old.items ++ item ∷ [] } }
    {
        self.items.push_reserved(item);
    }

    /// How many items were promised.
    pub fn promised(&self) -> usize
        ensures { result ≡ self.now.promised }
    {
        self.promised
    }

    pub fn items(&self) -> &[T]
        ensures { result.now ≡ self.now.items }
    {
        &self.items
    }
}
