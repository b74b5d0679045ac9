//! Object directories under locks that threads share, and a door over them.
//!
//! A [`BookedObjects`] is an object directory (`sw_objdir`) as the value of a lock (`sw_turn`): its journal is the history that the lock keeps. A [`Lane`]
//! is such a lock with one thread's pass of it, and each of its steps is one turn: it comes in, the directory makes its step, and it is given back.
//! A [`SharedDoor`] has a lane to each directory of all nodes, and is a door of `sw_peer`; threads have a door each, over the same locks.
//!
//! [`BookedObjects::lock`] puts a directory under a lock, and [`BookedObjects::unlock`] gives it back. A door is made of lanes; these are split off and joined
//! again lock by lock ([`SharedDoor::split_at`], [`SharedDoor::join_at`]), so that other threads have doors of their own.
//!
//! What is promised, whatever other threads do meanwhile:
//!
//! - A step of a lane tells which directory it found, into which all that the pass had seen has grown, and what the directory's step left. What is new there
//!   has the pass's first number as maker (`specs/Turning.antt`).
//! - Each call of the door is one such turn at the lock of its name, partition or stripe, and at no other (`HasTurn`, `specs/Doors.antt`). So it is a call of
//!   a door: servers and passes, which are proved over every door, hold over this one as they stand.
//! - What the door has seen of a lock is what its pass has seen last. It is alone where each of its passes owns all numbers of its lock; then it also knows
//!   what each device holds.
//! - A step of what a lock has is a step from what was seen of it before ([`laws`]).
//!
//! The door reaches no container, and keeps no trail. Its calls wait for their turn: no clause says that it comes, nor in which order those of two threads
//! come in. The places of locks are those of the world in one thread (`sw_core`). No command uses it yet: the next layer is jobs that threads share.
#![tactic(auto)]

mod booked;
mod lane;
pub mod laws;
mod objects;
mod shared_door;

pub use booked::{Began, BookedObjects};
pub use lane::Lane;
pub use shared_door::SharedDoor;
