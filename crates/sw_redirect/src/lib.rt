//! Rows that a replica of a container has left to a shard: a daemon that sends such a row is told of the shard, and sends it on to each replica of that.
//!
//! [`Heard`] sorts what a replica answered to a row: it acknowledged it, left it to a shard, or refused it. [`send_on`] sends the row to the shard's
//! replicas, one after the other, whatever each of them answers, and tells whether one of them wasn't heard to have it. Only where all were does the
//! row count as acknowledged by the replica that left it to the shard.
//!
//! `specs/Sending` has these calls in their order and what each counts for. The next layers up are the passes that send single rows: `sw_updater` and
//! `sw_cont_replicator`.
#![tactic(auto)]

mod heard;
mod sending;

pub use heard::Heard;
pub use sending::send_on;
