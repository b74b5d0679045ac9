//! Shard ranges: which shard of a container has a name, where a container is cut into shards, and what its shards are called.
//!
//! A container that has many rows is kept in shards, each of which is a container of its own, in a hidden account, for the names of one [`Range`].
//! [`Ranges`] are ranges that together are all names, each once; [`Ranges::new`] is the test, and tells the first range that doesn't fit.
//! [`Ranges::range_of`] finds the range of a name, [`find`] the bounds at which a container of many rows is cut, and [`shard_name`] gives a shard its
//! place.
//!
//! What is promised: each of them is exactly the definition of `specs/`, and memory is wanted only where something is made; [`laws`] say that each
//! name is in exactly one of the ranges, the one that is found, that the bounds rise, and that shards of one container have names of their own.
#![tactic(auto)]

mod finding;
pub mod laws;
mod naming;
mod range;
mod ranges;
pub mod state;
mod texts;

pub use finding::find;
pub use naming::shard_name;
pub use range::{Range, is_hidden};
pub use ranges::{NotTiled, Ranges};
