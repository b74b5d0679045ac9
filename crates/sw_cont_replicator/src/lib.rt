//! The container replicator: pushes the rows of a container that a replica lacks from another one, over any door.
//!
//! [`push_rows`] reads the rows above the sync point that the sender keeps for the receiver, sends each in a message of its own, in the order of their
//! numbers, and raises the point to the greatest number given out as they were read, where none is left. A row that was acknowledged stands at the
//! receiver, or one of its name that counts at least as much. One that the receiver has left to a shard is sent on to each replica of that, by
//! `sw_redirect`, and only where all of them acknowledged it isn't left.
//!
//! So where a push is done the next one sends only later rows, and a receiver that has left no name to a shard has all that was above the point.
//! [`laws`] tells what this comes to with such receivers, where nobody else changes the nodes: a point tells truly what the other replica has, whatever
//! came of the pushes, and two that are done, there and back, leave both replicas with the greatest rows of both.
//!
//! `specs/Pushing` has the calls of a push in their order and what each counts for, `specs/Causes` why it isn't done, `specs/Meeting` what replicas have
//! of each other's rows, and `specs/Laws` what pushes make of it.
//!
//! The next layer up is `sw_steps`, whose push a control request asks `sw_nodes` for.
#![tactic(auto)]

mod counting;
pub mod laws;
mod pushing;

pub use pushing::push_rows;
