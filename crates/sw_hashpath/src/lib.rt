//! Where a name belongs: the names of accounts, containers and objects, their hash, and the parts of the hash that
//! choose a partition, a suffix directory and a lock.
//!
//! [`hash_path`] gives the MD5 of a path under a cluster's [`Secrets`], or the first thing that is wrong with its names,
//! and takes no memory; [`first_fault`] tells what is wrong without a hash. [`Name`] and [`Place`] keep names together with
//! their hash. [`partition`], [`suffix`] and [`stripe`] read a hash, and [`hex_text`] gives its digits.
//!
//! The errors [`BadFile`] and [`DecodeError`] stand here for the crates that decode files. The next layer up is
//! `sw_ring`, which says which devices have a partition.
#![tactic(auto)]

mod bad_name;
mod decode_error;
mod digits;
mod hash_parts;
mod name;
mod name_error;
mod path;
mod place;
mod secrets;

pub use bad_name::{BadName, first_fault};
pub use decode_error::{BadFile, DecodeError};
pub use digits::hex_text;
pub use hash_parts::{partition, stripe, suffix};
pub use name::Name;
pub use name_error::NameError;
pub use path::hash_path;
pub use place::Place;
pub use secrets::Secrets;
