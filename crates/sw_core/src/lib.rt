//! The cluster: all nodes, and what came to them.
//!
//! A [`World`] is all nodes of all devices of a ring, each object lock an object directory (`sw_objdir`) over a volume of its own, and is a
//! door (`sw_peer`): each call is one step at one device, and the world keeps a line of it. A device is restarted by [`World::lift`], which
//! gives what its locks stand over, and [`World::set_down`], which begins anew on that. What runs of such lines leave at each device is said by the one machine
//! (`sw_machine`).
//!
//! Beside each object lock stands one of containers (`sw_container_locks`), over a keeper of its own. The world is their door too.
//!
//! What is promised: each call is one step at its device, by the rules of objects (`sw_object_steps`) or of containers (`sw_container_steps`), with
//! calls that fail, full journals and restarts, so that each hash of each device holds what it may stand for by the entries of its lock; and its line
//! tells the entries that came.
//!
//! The next layers up are `sw_steps`, which makes lists of steps and passes over the world, `sw_quiet`, the same nodes with no trail kept, and `sw_nodes`,
//! which answers requests over it.
#![tactic(auto)]

pub mod laws;
mod limits;
mod making;
mod slot;
mod trail;
mod world;

pub use trail::{LineList, MomentList, Trail};
pub use world::World;
