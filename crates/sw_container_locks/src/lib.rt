//! The container locks of all devices, over any keepers.
//!
//! A [`ContLocks`] has one lock for each stripe of each device, as object locks are. It knows nothing of devices: a lock is a number, and who
//! numbers them says which device and which places are under it. Each lock holds the containers of its stripe (`sw_container_db`), or its keeper
//! is out.
//!
//! A step comes to one lock and gives its answer with the line (`sw_peer`) that tells of it. What the step entered is moved into that line, so that
//! no lock keeps entries. The locks of a device are restarted by [`ContLocks::lift`], which gives their keepers, and [`ContLocks::set_down`],
//! which begins anew on them.
//!
//! `specs/Slots` says what contracts see of all locks, `specs/Making` what a step at one of them is with its line, and `specs/Halves` what is
//! known by them to the user of a door. [`laws`] ties the calls to the steps and restarts that a door tells of.
#![tactic(auto)]

mod changing;
mod cont_locks;
mod cont_slot;
pub mod laws;
mod limits;
mod making;
mod reading;
mod restarting;
mod slots;

pub use cont_locks::ContLocks;
