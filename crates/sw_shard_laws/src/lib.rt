//! What is never lost while a container is split into shards.
//!
//! A ledger has what each device has of each container: its rows, its ranges and how many of them are closed, and up to which number others have its
//! rows (`specs/Ledger.antt`). Whatever single changes it goes on by (`specs/Changes.antt`), what is said of points stays true (`specs/Sound.antt`), and a
//! row that a replica of a container holds it holds from then on: it has it, or has closed the name's range, and each replica of the range's shard has it.
//! [`laws`] say so, and what else stays: whom a name is left to, the ranges, and what a hidden container has.
//!
//! Nothing here knows nodes, locks, journals or files. The next layer, `sw_split_steps`, shows that steps at containers are such changes.
#![tactic(auto)]

pub mod laws;
