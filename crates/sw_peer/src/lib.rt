//! Doors: how servers and daemons reach the nodes.
//!
//! An [`ObjectDoor`] is all object nodes of a ring. Each call is one step at one device, said to that device itself ([`Link::Local`]) or
//! in a message ([`Link::Sent`]), which may be [`Lost`]. Its steps are those of `sw_object_steps`, which says what each is answered.
//!
//! A [`ReplicaDoor`] answers the reads by which replicas are compared as well: the hashes of a partition's suffixes, the files of a suffix,
//! and the write of a file. A write that was read so is sent on as a change like the others.
//!
//! A [`PendingDoor`] tells which records of updates are filed, and what has to be told for each.
//!
//! A [`ContainerDoor`] is all container nodes in the same way. Its steps are those of `sw_container_steps`, and one value can be both doors: what is
//! known of the nodes has a half for each kind, and a step at one leaves the other as it is.
//!
//! What is promised holds over every door, whoever else uses the nodes: a step is answered from what the history of its lock says at
//! one point of the call, its write is entered there exactly where the answer says so, and what is known of the nodes only grows. Where
//! the door is alone at the nodes, what each device holds is known as well. `specs/Sights.antt` has the words.
//!
//! The next layers up are `sw_object_server`, which answers requests over any door, and `sw_core`, whose world is a door.
#![tactic(auto)]

mod cont_event;
mod container_door;
mod door;
mod kept_line;
mod line;
mod link;
mod part_read;
mod pending_door;

pub use cont_event::ContEvent;
pub use container_door::ContainerDoor;
pub use door::{Door, FaithfulDoor, ObjectDoor, ReplicaDoor};
pub use kept_line::KeptLine;
pub use line::{Event, Line};
pub use link::{Link, Lost};
pub use part_read::PartRead;
pub use pending_door::PendingDoor;
pub use sw_history::Seen;
