//! What a host keeps for the program: the texts of rings by their names, and what locks stand over: volumes of objects, and keepers of containers.
//!
//! [`Stores`] is the trait. A volume and a keeper are one lock's, of a stripe of a device: they are started together, are then out, and are given
//! back. What is promised: a start gives the two that were given back last, where they were, and nothing else changes in any call; a call that fails has
//! counted one fault and left all as it was. [`MemStores`] keeps everything in memory, for tests, and [`RingStores`] reads rings from files and keeps the
//! rest in memory; both keep it in a [`PartShelf`], which holds parts of any kind.
//!
//! [`ranges`] starts, gives back and restarts the [`Parts`] of a range of places over any stores, where the locks are numbered device by
//! device: all of them, or none. It also gives back those around a gap.
//!
//! The next layer up is `sw_cluster`, which opens the ring of a command and runs its cluster.
#![tactic(auto)]

mod mem_stores;
mod part_shelf;
mod parts;
pub mod ranges;
mod ring_stores;
mod stores;

pub use mem_stores::{MemStores, RingText};
pub use part_shelf::{PartShelf, Slot};
pub use parts::Parts;
pub use ring_stores::{RingStores, host_ring};
pub use stores::Stores;
