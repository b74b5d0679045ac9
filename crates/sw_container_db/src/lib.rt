//! Containers of one lock, over any keeper.
//!
//! A [`ContDir`] answers a step from the tables of its container, and commits what the step enters as one batch. The tables that it used last stay
//! loaded as long as they are what the keeper holds, so that steps at the same few places need no load: those of at most 64 containers, with at most
//! 262,144 rows, or of one container alone. Those that were used longest ago go first. It keeps the journal: the entries that were
//! made since it began, and those of the one step that failed in its commit, of which all were made or none. Whatever step comes next first loads
//! the doubted place, and by the times of the container, the greatest number that it gave out and the sync point that the entries set it finds whether
//! they were made. The values of the entries that were made are moved, not copied, to where [`ContDir::take_fresh`] takes them out; once they are taken,
//! only contracts see them.
//!
//! Each step is one by the rules of containers (`sw_container_steps`), in the words of `sw_step`. `specs/ContDirs` says what contracts see of a lock,
//! `specs/Stepping` what a step is, and `specs/Calling` which calls of the keeper it makes, what each leaves where it is the one that failed, and which
//! tables stay loaded.
#![tactic(auto)]

mod changing;
mod cont_dir;
mod entering;
mod loaded_list;
mod loading;
mod naming;
mod reading;
mod settling;
mod sign;
mod steps;

pub use cont_dir::ContDir;
