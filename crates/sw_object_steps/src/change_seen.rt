ghost use Rattle.std.specs.Prelude.{◌≡◌};
ghost use Rattle.sw_object_steps.specs.Steps.{step_kind, time_in};

use crate::change::{Change, StepKind};
use std::marker::Model;
use std::snapshot::Snapshot;
use sw_timestamp::Timestamp;

/// A change as contracts see it, which keeps of it what a trail prints: its kind and its time. It takes no memory.
#[derive(Drop)]
pub struct ChangeSeen {
    snapshot: Snapshot<Change>,
    kind: StepKind,
    time: Timestamp,
}

impl Model for ChangeSeen {
    ghost use Rattle.std.specs.Prelude.{◌≡◌};
    ghost use Rattle.sw_object_steps.specs.Steps.{step_kind, time_in};
    ghost use Rattle.sw_object_steps.specs.declared.change.Change.{Change};

    ghost Value = { Change };

    ghost view = { λ c. c.snapshot.value };

    ghost invariant = { λ c. (c.kind ≡ step_kind c.snapshot.value) × (c.time ≡ time_in c.snapshot.value) };
}

impl ChangeSeen {
    /// The change as it is now.
    pub fn of(change: &Change) -> ChangeSeen
        ensures { result ≡ change.now }
    {
        ChangeSeen {
            snapshot: Snapshot::of(change),
            kind: change.kind(),
            time: change.time(),
        }
    }

    /// What kind of step it asks for.
    pub fn kind(&self) -> StepKind
        ensures { result ≡ step_kind self.now }
    {
        self.kind
    }

    /// The time of the write that it adds where it isn't refused, or of its record.
    pub fn time(&self) -> Timestamp
        ensures { result ≡ time_in self.now }
    {
        self.time
    }
}
