//! What a load asks for, as values.
//!
//! A [`Job`] is one thing that is asked for: a request for an object, at the device that it comes to, or a pass of a daemon of a device. [`generate`] draws
//! as many requests as are wanted from a seed, with a pass behind each 500th, and [`disagreement`] tells whether two jobs of a list put different contents
//! under one name at one time, so that what is left of both would depend on which comes first.
//!
//! What is promised: a generated list is exactly the one of `specs/Generated`, a function of the ring, the seed and the number of requests; a disagreement
//! is exactly the first pair of `specs/Disagreements`; and [`laws`] say that in a generated list the numbers and the times of the writes rise, nothing
//! disagrees, and names and devices are those that the nodes of the ring take.
//!
//! It knows no node, lock or thread. Nothing in the program uses it yet: the next layer, which gives the jobs to threads, isn't there.
#![tactic(auto)]

mod comparing;
mod contents;
mod disagreeing;
mod draws;
mod firsts;
mod generating;
mod job;
pub mod laws;
mod names;
mod passes;
mod requests;

pub use disagreeing::disagreement;
pub use generating::generate;
pub use job::{Job, Work};
