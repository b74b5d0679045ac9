//! A keeper: where a container node keeps the tables of its containers, as a trait whose contract says what may be relied
//! on.
//!
//! [`Tables`] are all that a container at a device stands for. A [`Keeper`] holds tables, each at a container's place. What it
//! holds is a meaning that contracts see, where the keeper tells it, and so are its count of failed calls and its count of calls.
//! A change is a [`Batch`], which is made whole or not at all. Code above is generic over the trait and proved once.
//!
//! [`MemKeeper`] keeps its tables in memory, for tests and for runs without a host; tests choose which of its calls fail.
//! [`SoundKeeper`] is one no call of which fails. The next layers up are `sw_container_steps`, which decides what a batch is, and
//! `sw_container_db`, the containers of one lock.
#![tactic(auto)]

mod batch;
mod draft;
mod keeper;
mod keeper_error;
mod kept;
mod mem_keeper;
mod order;
mod shelf;
mod shelves;
mod sound_keeper;
mod tables;

pub use batch::{Batch, Change};
pub use keeper::Keeper;
pub use keeper_error::KeeperError;
pub use mem_keeper::MemKeeper;
pub use sound_keeper::SoundKeeper;
pub use tables::Tables;
