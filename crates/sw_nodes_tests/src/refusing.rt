ghost use Rattle.std.specs.Prelude.{◌≡◌};
ghost use Rattle.sw_nodes_tests.specs.Silent.{answer_to, silent};

use std::alloc::Global;
use sw_container_steps::{ContAnswer, ContChange, Info, Parcel, Sharding};
use sw_hashpath::{Name, Place};
use sw_listing::{Entries, Query};
use sw_object_steps::{Answer, Change, Got};
use sw_peer::{ContainerDoor, Door, FaithfulDoor, Link, Lost, ObjectDoor};
use sw_timestamp::Timestamp;

/// A door over nodes of which nothing is known, and which changes nothing. A write that is sent is refused: as the device has it already, or as the
/// journal has no room for it. Every other change of an object wants memory, as each step at a container does, and no object is found.
/// It counts the steps that come, of both kinds together.
#[derive(Drop)]
pub struct Refusing {
    has_writes: bool,
    steps: u64,
}

impl Refusing {
    /// With `has_writes` its devices have the writes that are sent.
    pub fn new(has_writes: bool) -> Refusing {
        Refusing {
            has_writes,
            steps: 0,
        }
    }

    /// How many steps came.
    pub fn steps(&self) -> u64 {
        self.steps
    }
}

/// What such a door answers a change.
fn answer(has_writes: bool, change: &Change) -> Answer
    ensures { result ≡ answer_to has_writes change.now }
{
    match change {
        Change::Receive { write } if has_writes => Answer::Conflict(write.time),
        Change::Receive { .. } => Answer::JournalFull,
        Change::Put { .. }
        | Change::Post { .. }
        | Change::Delete { .. }
        | Change::MarkRecord { .. }
        | Change::DropRecord { .. } => Answer::NoMemory,
    }
}

impl Door for Refusing {
    ghost sight = { λ _. silent };
}

impl FaithfulDoor for Refusing {
    ghost use Rattle.std.specs.Prelude.{refl};

    ghost carries = { λ _. refl };
}

impl ObjectDoor for Refusing {
    fn may_stand(&self, _device: u8, _hash: &[u8; 16]) {}

    fn change(
        &mut self,
        _alloc: Global,
        _link: Link,
        _device: u8,
        _name: &Name,
        change: Change,
    ) -> Result<Answer, Lost> {
        self.steps = self.steps.saturating_add(1);
        Ok(answer(self.has_writes, &change))
    }

    fn get(&mut self, _alloc: Global, _link: Link, _device: u8, _name: &Name) -> Result<Got, Lost> {
        self.steps = self.steps.saturating_add(1);
        Ok(Got::NotFound(None))
    }
}

impl ContainerDoor for Refusing {
    fn change_container(
        &mut self,
        _alloc: Global,
        _link: Link,
        _device: u8,
        _place: &Place,
        _change: &ContChange,
    ) -> Result<ContAnswer, Lost> {
        self.steps = self.steps.saturating_add(1);
        Ok(ContAnswer::NoMemory)
    }

    fn times(
        &mut self,
        _alloc: Global,
        _link: Link,
        _device: u8,
        _place: &Place,
    ) -> Result<Result<Option<(Timestamp, Option<Timestamp>)>, ContAnswer>, Lost> {
        self.steps = self.steps.saturating_add(1);
        Ok(Err(ContAnswer::NoMemory))
    }

    fn info(
        &mut self,
        _alloc: Global,
        _link: Link,
        _device: u8,
        _place: &Place,
    ) -> Result<Result<Info, ContAnswer>, Lost> {
        self.steps = self.steps.saturating_add(1);
        Ok(Err(ContAnswer::NoMemory))
    }

    fn list(
        &mut self,
        _alloc: Global,
        _link: Link,
        _device: u8,
        _place: &Place,
        _query: &Query,
    ) -> Result<Result<Entries, ContAnswer>, Lost> {
        self.steps = self.steps.saturating_add(1);
        Ok(Err(ContAnswer::NoMemory))
    }

    fn sync_rows(
        &mut self,
        _alloc: Global,
        _link: Link,
        _device: u8,
        _place: &Place,
        _to: u8,
    ) -> Result<Result<Parcel, ContAnswer>, Lost> {
        self.steps = self.steps.saturating_add(1);
        Ok(Err(ContAnswer::NoMemory))
    }

    fn sharding(
        &mut self,
        _alloc: Global,
        _link: Link,
        _device: u8,
        _place: &Place,
    ) -> Result<Result<Sharding, ContAnswer>, Lost> {
        self.steps = self.steps.saturating_add(1);
        Ok(Err(ContAnswer::NoMemory))
    }

    fn rows_above(
        &mut self,
        _alloc: Global,
        _link: Link,
        _device: u8,
        _place: &Place,
        _range: u32,
        _above: u64,
    ) -> Result<Result<Parcel, ContAnswer>, Lost> {
        self.steps = self.steps.saturating_add(1);
        Ok(Err(ContAnswer::NoMemory))
    }
}
