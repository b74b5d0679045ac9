//! The object replicator: pushes what a device has of a partition to another one that lacks it, over any door.
//!
//! [`push`] compares what both tell of each suffix, asks the receiver which files it has of those that differ, and sends each write that the
//! receiver lacks, the base of a name before its metadata. A push only ever adds: where it is done, the receiver has at least what the sender
//! had, and where nobody else changed the two, exactly the join of both. Two pushes, there and back, leave both with that join.
//!
//! `specs/Pushing` has the calls of a push in their order, `specs/Meeting` what a push that is done leaves, and `specs/Causes` how often it asks
//! and why it isn't done. `specs/Laws` has what two pushes leave, there and back ([`laws`]).
#![tactic(auto)]

mod comparing;
mod counting;
pub mod laws;
mod offering;
mod pushing;
mod route;

pub use pushing::push;
