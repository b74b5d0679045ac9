//! What is known of a lock, whatever it keeps.
//!
//! `specs/Halves.antt` has the words: a journal of entries and doubts, the history of a lock since its journal began, and a half, which is all locks
//! of one kind with what the devices hold. The locks of objects and those of containers are two uses of them, so what is promised of both is
//! said once. [`laws`] has what holds of every history.
//!
//! A [`Seen`] value is one that contracts alone see, as those in the lines that a door keeps of what came.
//!
//! The next layers up are `sw_step`, one step at a lock over any rules, and `sw_peer`, the doors by which servers and passes reach all nodes.
#![tactic(auto)]

pub mod laws;
mod seen;

pub use seen::Seen;
