//! The machine: what any steps, reads, listings and restarts at all nodes come to, of objects and of containers, whatever nodes made them.
//!
//! `specs/Sides.antt` has one side of it, whatever its locks keep: what is known of them, what the devices hold, and what became known at each device. Objects
//! and containers are two uses of it, in `specs/Machine.antt`, which also has the runs: a list of lines, one for each step that came and for each message
//! that was sent (`specs/Messages.antt`). `specs/Doors.antt` says how a door of `sw_peer` that is alone at its nodes stands for the machine, with a trail or
//! without.
//!
//! What is promised, in [`laws`], is said of each device and key by itself, whatever calls fail, there or elsewhere: a device stands under each hash for
//! what it stood for and the writes that reached it, and the rows of a container that weren't taken away are those that it had with those merged that
//! reached it; where a device held what its journals tell, with those of their doubts that were made, it goes on doing so; what came in a message had been
//! sent; and each step and each call of such a door goes on with a run.
//!
//! The next layers up are lists of steps (`sw_steps`), the nodes of a ring (`sw_nodes`), and the program over them (`sw_cluster`).
#![tactic(auto)]

pub mod laws;
