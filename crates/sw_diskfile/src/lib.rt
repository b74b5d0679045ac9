//! The files of a hash directory: how they are named, and which of them make the object.
//!
//! A write's file is named by its time and an ending for its kind. [`read_name`] takes exactly the names that [`write_name`] writes, and
//! [`written_time`] exactly the texts of times in them. [`pick`] finds the base, which is data or a tombstone, and the metadata that counts
//! beside it.
//! No call takes memory.
//!
//! The next layer up is `sw_cleanup`, which takes away what isn't picked.
#![tactic(auto)]

mod file_name;
pub mod laws;
mod picking;

pub use file_name::{FileName, NAME_ROOM, NotOurs, read_name, write_name, written_time};
pub use picking::{Picked, pick};
