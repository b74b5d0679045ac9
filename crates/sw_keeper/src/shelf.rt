ghost use Rattle.std.specs.Prelude.{◌≡◌, Some, None, IfOk, OnOk, OnErr};
ghost use Rattle.sw_keeper.specs.Changes.{IsBatch, all_changed, begun};

use crate::batch::Batch;
use crate::draft::draft_of;
use crate::kept::Kept;
use crate::tables::Tables;
use std::alloc::Global;
use std::marker::Model;
use sw_hashpath::Place;
use sw_outside::NoMemory;

/// The tables at one place. Contracts see the place and the tables.
#[derive(Debug, Drop)]
pub(crate) struct Shelf {
    place: Place,
    kept: Kept,
}

impl Model for Shelf {
    ghost use Rattle.sw_hashpath.specs.declared.place.Place.{Place};
    ghost use Rattle.sw_keeper.specs.declared.tables.Tables.{Tables};

    ghost Value = { Place × Tables };

    ghost view = { λ s. (s.place, s.kept) };
}

impl Shelf {
    /// A shelf with the earliest time and no rows.
    pub(crate) fn new(alloc: Global, place: Place) -> Shelf
        ensures { result ≡ (place, begun 0 None) }
    {
        Shelf {
            place,
            kept: Kept::begun(alloc),
        }
    }

    pub(crate) fn place(&self) -> &Place
        ensures { result.now ≡ self.now.0 }
    {
        &self.place
    }

    pub(crate) fn tables(&self, alloc: Global) -> Result<Tables, NoMemory>
        ensures { IfOk result (λ tables. tables ≡ self.now.1) }
    {
        self.kept.tables(alloc)
    }

    /// Makes all changes of a batch, or none where memory runs out.
    pub(crate) fn change(&mut self, alloc: Global, batch: &Batch) -> Result<(), NoMemory>
        requires { IsBatch (Some self.old.1) batch.now }
        ensures place { OnOk result (self.new.0 ≡ self.old.0) }
        ensures tables { OnOk result (Some self.new.1 ≡ all_changed (Some self.old.1) batch.now) }
        ensures err { OnErr result (self.new ≡ self.old) }
    {
        let draft = draft_of(alloc, &self.kept, batch)?;
        self.kept.make(alloc, draft)
    }
}
