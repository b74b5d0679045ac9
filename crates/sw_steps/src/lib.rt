//! Lists of steps, and the passes among them.
//!
//! [`run_steps`] makes a list of steps of a world: changes, reads, listings and restarts at its devices, and pushes between them through a door
//! that loses and repeats messages as each push says ([`push_over`]). It answers what the pushes came to, in their order. [`push_rows_over`] pushes the rows of
//! a container in the same way, [`update_over`] makes the updates of a device, [`create_over`] splits a container into shards, and [`cleave_over`] moves one of
//! its ranges to its shard; no list of steps has these yet.
//!
//! What is promised: whatever the list and the failures, what came and went is a run of the machine, so that the files of each hash at each
//! device stand for the state of exactly the writes that reached it. A push that is answered as done, and a later one back, leave both with the
//! join of what both held ([`laws`]).
#![tactic(auto)]

pub mod laws;
mod passing;
mod run;
mod step;

pub use passing::{cleave_over, create_over, push_over, push_rows_over, update_over};
pub use run::run_steps;
pub use step::Step;
